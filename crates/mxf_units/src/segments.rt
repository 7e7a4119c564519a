//! What the segments of an index say of edit units (ST 377-1, Index Table Segment).
ghost use Rattle.std.specs.Prelude.{◌≡◌, ◌↔◌, ◌+◌, ◌++◌, ◌<◌, ◌≤◌, ◌^◌, ℕ, IfOk, OnOk, IfSome, List, Option};
ghost use Rattle.std.specs.List.{AllByRecursion, filter_map, flat_map};
ghost use Rattle.mxf_klv.specs.Rising.{In};
ghost use Rattle.mxf_klv.specs.Parts.{NoteParts};
ghost use Rattle.mxf_views.specs.Places.{SegmentAtParts, segments_of, place_in};
ghost use Rattle.mxf_units.specs.Streams.{IsNextOf, IsSmall, entry_of, in_order, listed_in, next_of, place_of};
ghost use Rattle.mxf_units.specs.Streams.{is_other_entry, is_other_place, is_same_place, places_above, segments_for};
ghost use Rattle.mxf_units.specs.Streams.{gives, is_given, sized_above};

use crate::constant_units::ConstantUnits;
use crate::intervals::Interval;
use crate::standing::UnitStanding;
use crate::stream::in_order;
use mxf_klv::OutOfMemory;
use mxf_sets::IndexEntry;
use mxf_views::{SegmentAt, StreamPlace, Views};
use std::alloc::Global;

/// More than any edit unit that can be asked for: 2^64.
const UNITS: u128 = 18_446_744_073_709_551_616;

/// All segments, in their order. They take memory.
pub(crate) fn all_segments<'a>(
    alloc: Global,
    views: &'a Views,
) -> Result<Vec<SegmentAt<'a>>, OutOfMemory>
    ensures { IfOk result (λ v. v.items ≡ segments_of views.now) }
{
    Ok(views.segments().collect(alloc)?)
}

/// The segments of an IndexSID, in their order. They take memory.
pub(crate) fn segments_for<'a>(
    alloc: Global,
    views: &'a Views,
    index_sid: u32,
) -> Result<Vec<SegmentAt<'a>>, OutOfMemory>
    ensures { IfOk result (λ v. v.items ≡ segments_for views.now index_sid) }
{
    let kept = views.segments_in_numbers().iter();
    let segments = kept
        .filter(|segment| segment.numbers.index_sid == index_sid)
        .filter_map(|segment| views.segment_at(segment.offset));
    Ok(segments.collect(alloc)?)
}

/// The place that a segment gives an edit unit, if it covers the unit.
fn place_in(segment: &SegmentAt<'_>, unit: u64) -> Option<StreamPlace>
    ensures place { result ≡ place_in unit segment.now }
    ensures small { IfSome result IsSmall }
{
    let offset = segment.segment.offset_of(unit)?;
    Some(StreamPlace {
        body_sid: segment.segment.numbers().body_sid,
        offset,
    })
}

/// The place of an edit unit, if the segments that give one agree.
pub(crate) fn place_of(segments: &[SegmentAt<'_>], unit: u64) -> Result<StreamPlace, UnitStanding>
    ensures place { result ≡ place_of segments.now unit }
    ensures small { IfOk result IsSmall }
{
    let mut seen = None;
    for segment in segments {
        if let Some(place) = place_in(segment, unit) {
            if is_other_place(seen, place) {
                return Err(UnitStanding::Ambiguous);
            }
            seen = Some(place);
        }
    }
    seen.ok_or(UnitStanding::NotIndexed)
}

/// Whether another place was seen before.
fn is_other_place(seen: Option<StreamPlace>, place: StreamPlace) -> bool
    ensures { result ≡ is_other_place seen place }
{
    match seen {
        Some(other) => !is_same_place(other, place),
        None => false,
    }
}

/// Whether two places are one.
fn is_same_place(first: StreamPlace, second: StreamPlace) -> bool
    ensures { result ≡ is_same_place first second }
{
    first.body_sid == second.body_sid && first.offset == second.offset
}

/// Whether a segment gives an edit unit the place.
fn gives(place: StreamPlace, unit: u64, segment: &SegmentAt<'_>) -> bool
    ensures { result ≡ gives place unit segment.now }
{
    place_in(segment, unit).is_some_and(|given| is_same_place(place, given))
}

/// Whether one of the segments does.
pub(crate) fn is_given(place: StreamPlace, unit: u64, segments: &[SegmentAt<'_>]) -> bool
    ensures { result ≡ is_given place unit segments.now }
{
    segments.iter().any(|segment| gives(place, unit, segment))
}

/// The entry of an edit unit, if the segments that list it agree on its front.
pub(crate) fn entry_of(segments: &[SegmentAt<'_>], unit: u64) -> Option<IndexEntry>
    ensures { result ≡ entry_of segments.now unit }
{
    let mut seen = None;
    for segment in segments {
        if let Some(entry) = segment.segment.entry_of(unit) {
            if is_other_entry(seen, entry) {
                return None;
            }
            seen = Some(entry);
        }
    }
    seen
}

/// Whether another entry was seen before.
fn is_other_entry(seen: Option<IndexEntry>, entry: IndexEntry) -> bool
    ensures { result ≡ is_other_entry seen entry }
{
    match seen {
        Some(other) => {
            !(other.temporal_offset == entry.temporal_offset
                && other.key_frame_offset == entry.key_frame_offset
                && other.flags == entry.flags)
        }
        None => false,
    }
}

/// Adds the places of the units that a segment lists.
#[tactic(auto, unfolding(crate::specs::Streams::listed_in))]
fn add_listed(places: &mut Vec<StreamPlace>, segment: &SegmentAt<'_>) -> Result<(), OutOfMemory>
    requires { AllByRecursion IsSmall places.old.items }
    ensures places { OnOk result (places.new.items ≡ places.old.items ++ listed_in segment.now) }
    ensures small { OnOk result (AllByRecursion IsSmall places.new.items) }
{
    let start = segment.segment.numbers().start.unsigned_abs();
    let end = start + segment.segment.entry_count() as u64;
    for unit in start..end {
        if let Some(place) = place_in(segment, unit) {
            places.push(place)?;
        }
    }
    Ok(())
}

/// The places of the units that segments list, in the order of the segments.
fn listed_in(alloc: Global, segments: &[SegmentAt<'_>]) -> Result<Vec<StreamPlace>, OutOfMemory>
    ensures places { IfOk result (λ v. v.items ≡ flat_map listed_in segments.now) }
    ensures small { IfOk result (λ v. AllByRecursion IsSmall v.items) }
{
    let mut places = Vec::new(alloc);
    for segment in segments {
        add_listed(&mut places, segment)?;
    }
    Ok(places)
}

/// The same in the order of the places, each once. They take memory.
pub(crate) fn listed_places(
    alloc: Global,
    segments: &[SegmentAt<'_>],
) -> Result<Vec<StreamPlace>, OutOfMemory>
    ensures places { IfOk result (λ v. v.items ≡ in_order (flat_map listed_in segments.now)) }
    ensures small { IfOk result (λ v. AllByRecursion IsSmall v.items) }
{
    Ok(in_order(listed_in(alloc, segments)?))
}

/// The edit units that a segment may have.
impl<'a> Interval for SegmentAt<'a> {
    ghost use Rattle.mxf_units.specs.NextPlaces.{first_unit, units_end};

    ghost first = { first_unit };

    ghost end = { units_end };

    fn first(&self) -> u128 {
        u128::from(self.segment.numbers().start.unsigned_abs())
    }

    fn end(&self) -> u128 {
        let numbers = self.segment.numbers();
        let start = u128::from(numbers.start.unsigned_abs());
        let duration = u128::from(numbers.duration.unsigned_abs());
        if numbers.unit_bytes == 0 {
            start + duration.min(self.segment.entry_count() as u128)
        } else if duration == 0 {
            UNITS
        } else {
            start + duration
        }
    }
}

/// The first place above 0 that a segment gives whose units all have one size.
fn sized_above(segment: &SegmentAt<'_>) -> Option<StreamPlace>
    ensures { result ≡ sized_above 0 segment.now }
{
    ConstantUnits::of(segment)?.place_above(0)
}

/// The places that segments give, in their order. Of those above 0 that a segment of units of one size gives, only the
/// first is taken. They take memory.
pub(crate) fn places_above_0(
    alloc: Global,
    segments: &[SegmentAt<'_>],
) -> Result<Vec<StreamPlace>, OutOfMemory>
    ensures { IfOk result (λ v. v.items ≡ in_order (places_above 0 segments.now)) }
{
    let mut places = listed_in(alloc, segments)?;
    for segment in segments {
        if let Some(place) = sized_above(segment) {
            places.push(place)?;
        }
    }
    Ok(in_order(places))
}

/// A law of [`Units::unit`](crate::Units::unit): a unit's bytes reach up to the least place above its own in the stream
/// that a segment of the index gives some unit.
pub fn next_by_definition()
    ensures next { (segments : List SegmentAtParts) (body_sid offset : ℕ) (next : Option ℕ)
        → (next_of segments body_sid offset ≡ next) ↔ IsNextOf segments body_sid offset next }

    // The segments of an index are those of its IndexSID.
    ensures index { (notes : List NoteParts) (index_sid : ℕ) (s : SegmentAtParts)
        → In s (segments_for notes index_sid)
        ↔ (In s (segments_of notes) × (s.segment.numbers.index_sid ≡ index_sid)) }
{}
