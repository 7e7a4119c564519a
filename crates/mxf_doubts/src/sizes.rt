//! The sizes of edit units that index table segments state (ST 377-1, Edit Unit Byte Count).
ghost use Rattle.std.specs.Prelude.{◌≡◌, ◌==◌, ◌&&◌, nat_lt, true, IfOk, map};
ghost use Rattle.std.specs.List.{list_any};
ghost use Rattle.std.specs.List.Sorted.{IsPermutation, IsSorted};
ghost use Rattle.std.specs.Option.{option_map_or};
ghost use Rattle.mxf_views.specs.Places.{segments_of};
ghost use Rattle.mxf_doubts.specs.Sizes.{is_between, is_other_than, size_cmp, size_in, size_of};
ghost use Rattle.mxf_doubts.specs.StreamEnds.{has_other_size};

use mxf_klv::OutOfMemory;
use mxf_sets::SegmentNumbers;
use mxf_views::Views;
use std::alloc::Global;
use std::cmp::Ordering;
use std::marker::Model;

/// An IndexSID, a BodySID, and the bytes that each unit has, or 0.
type Size = (u32, u32, u32);

/// The size that a segment states of its units.
fn size_of(numbers: &SegmentNumbers) -> Size
    ensures { result ≡ size_of numbers.now }
{
    (numbers.index_sid, numbers.body_sid, numbers.unit_bytes)
}

/// The sizes that segments state, in the order of the segments.
fn stated_sizes(alloc: Global, views: &Views) -> Result<Vec<Size>, OutOfMemory>
    ensures { IfOk result (λ v. v.items ≡ map size_in (segments_of views.now)) }
{
    let segments = views.segments_in_numbers().iter();
    let sizes = segments.map(|segment| size_of(&segment.numbers));
    Ok(sizes.collect(alloc)?)
}

/// Whether one of sorted sizes is of the index and the stream of another, greater, and below an end, if there is one: a binary
/// search.
fn has_between(sizes: &[Size], low: Size, end: Option<u32>) -> bool
    requires { IsSorted size_cmp sizes.now }
    ensures { result ≡ list_any (is_between low end) sizes.now }
{
    let first = sizes.partition_point(|size| size.cmp(&low) < Ordering::Greater);
    match sizes.get(first) {
        Some(size) => is_below(*size, low, end),
        None => false,
    }
}

/// Whether a size is of the index and the stream of another, and below an end, if there is one.
fn is_below(size: Size, low: Size, end: Option<u32>) -> bool
    ensures { result ≡ ((size.0 == low.0) && ((size.1 == low.1) && option_map_or (λ e. nat_lt size.2 e) end true)) }
{
    let (index_sid, body_sid, bytes) = size;
    index_sid == low.0 && body_sid == low.1 && end.is_none_or(|end| bytes < end)
}

/// The sizes that segments state.
#[derive(Drop)]
pub(crate) struct Sizes<'a> {
    views: &'a Views,
    sizes: Vec<Size>,
}

impl<'a> Model for Sizes<'a> {
    ghost use Rattle.std.specs.Prelude.{List, map};
    ghost use Rattle.std.specs.List.Sorted.{IsPermutation, IsSorted};
    ghost use Rattle.mxf_klv.specs.Parts.{NoteParts};
    ghost use Rattle.mxf_views.specs.Places.{segments_of};
    ghost use Rattle.mxf_doubts.specs.Sizes.{size_cmp, size_in};

    ghost Value = { List NoteParts };

    ghost view = { λ s. s.views.now };

    ghost invariant = { λ s. IsPermutation (map size_in (segments_of s.views.now)) s.sizes.items
        × IsSorted size_cmp s.sizes.items };
}

impl<'a> Sizes<'a> {
    /// Those of the segments that views know. They take memory.
    pub fn of(alloc: Global, views: &'a Views) -> Result<Sizes<'a>, OutOfMemory>
        ensures { IfOk result (λ s. s ≡ views.now) }
    {
        let mut sizes = stated_sizes(alloc, views)?;
        sizes.sort_unstable();
        Ok(Sizes { views, sizes })
    }

    /// Whether a segment of units of one size, of the index and the stream of another, states another size.
    pub fn has_other(&self, numbers: &SegmentNumbers) -> bool
        ensures { result ≡ has_other_size self.now numbers.now }
    {
        self.has_other_than(numbers.index_sid, numbers.body_sid, numbers.unit_bytes)
    }

    /// Whether a segment of units of one size, of an index and a stream, states another size than so many bytes.
    pub fn has_other_than(&self, index_sid: u32, body_sid: u32, bytes: u32) -> bool
        ensures { result ≡ list_any (is_other_than index_sid body_sid bytes) (segments_of self.now) }
    {
        has_between(&self.sizes, (index_sid, body_sid, 0), Some(bytes))
            || has_between(&self.sizes, (index_sid, body_sid, bytes), None)
    }
}
