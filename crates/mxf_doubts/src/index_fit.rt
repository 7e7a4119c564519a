//! Whether index table segments lie as their partitions count them (ST 377-1, IndexByteCount and IndexSID).
ghost use Rattle.std.specs.Prelude.{◌≡◌, ◌<◌, ◌&&◌, ◌==◌, ◌||◌, ◌+◌, List, IfOk, find, map, nat_le, nat_lt, option_copied};
ghost use Rattle.std.specs.List.{list_any};
ghost use Rattle.std.specs.List.Sorted.{IsPermutation, IsSorted};
ghost use Rattle.std.specs.Ordering.{nat_cmp, ordering_then};
ghost use Rattle.mxf_klv.specs.Parts.{NoteParts};
ghost use Rattle.mxf_klv.specs.Kind.{kind_of};
ghost use Rattle.mxf_views.specs.Places.{is_segment, segments_of};
ghost use Rattle.mxf_doubts.specs.IndexFit.{AreClear, are_filled, begins_segment, first_behind, has_own, has_segment, is_counted_wrong};
ghost use Rattle.mxf_doubts.specs.IndexFit.{is_cut_at, is_foreign, is_index_misfit, is_miscounted, is_unfit, own_pair};

use crate::spans::Spans;
use crate::strange::Keys;
use mxf_catalogue::{Catalogue, Cover};
use mxf_klv::{Kind, MAX, Note, OutOfMemory, below};
use mxf_places::{Holdings, behind_metadata};
use mxf_views::{Partition, Views};
use std::alloc::Global;
use std::cmp::Ordering;
use std::marker::Model;

/// Whether it is an index table segment.
fn is_segment(note: &Note) -> bool
    ensures { result ≡ is_segment (kind_of note.now.key) }
{
    note.kind() == Kind::Segment
}

/// The offsets of the bytes of clear packets.
fn clear_in(alloc: Global, catalogue: &Catalogue) -> Result<Cover, OutOfMemory>
    ensures { IfOk result (λ c. AreClear catalogue.now c) }
{
    let mut cover = Cover::new(alloc);
    for note in catalogue.clear() {
        cover.add(note.offset(), note.covered_end())?;
    }
    Ok(cover)
}

/// The IndexSIDs of readable segments, each with the offset of the segment, in the order of the segments.
fn pairs_of(alloc: Global, views: &Views) -> Result<Vec<(u32, u64)>, OutOfMemory>
    ensures { IfOk result (λ v. v.items ≡ map own_pair (segments_of views.now)) }
{
    let segments = views.segments_in_numbers().iter();
    let pairs = segments.map(|segment| (segment.numbers.index_sid, segment.offset));
    Ok(pairs.collect(alloc)?)
}

/// The same, sorted.
fn own_pairs(alloc: Global, views: &Views) -> Result<Vec<(u32, u64)>, OutOfMemory>
    ensures permutation { IfOk result (λ v. IsPermutation (map own_pair (segments_of views.now)) v.items) }
    ensures sorted { IfOk result (λ v. IsSorted (λ a b. ordering_then (nat_cmp a.0 b.0) (nat_cmp a.1 b.1)) v.items) }
{
    let mut pairs = pairs_of(alloc, views)?;
    pairs.sort_unstable();
    Ok(pairs)
}

/// Whether one of sorted pairs has the IndexSID and an offset from one up to another: a binary search.
fn has_own_in(pairs: &[(u32, u64)], index_sid: u32, start: u64, end: u64) -> bool
    requires { IsSorted (λ a b. ordering_then (nat_cmp a.0 b.0) (nat_cmp a.1 b.1)) pairs.now }
    ensures { result ≡ list_any (λ p. (p.0 == index_sid) && (nat_le start p.1 && nat_lt p.1 end)) pairs.now }
{
    let wanted = (index_sid, start);
    let first = pairs.partition_point(|pair| pair.cmp(&wanted) < Ordering::Equal);
    match pairs.get(first) {
        Some(pair) => is_own(*pair, index_sid, end),
        None => false,
    }
}

/// Whether a pair has the IndexSID and an offset below an end.
fn is_own(pair: (u32, u64), index_sid: u32, end: u64) -> bool
    ensures { result ≡ (pair.0 == index_sid && nat_lt pair.1 end) }
{
    let (own, offset) = pair;
    own == index_sid && offset < end
}

/// What is asked for each partition.
pub(crate) struct IndexFit<'a> {
    holdings: Holdings<'a>,
    keys: &'a Keys<'a>,
    clear: Cover,
    foreign: Spans,
    pairs: Vec<(u32, u64)>,
}

// Written out, a drop is one call wherever it is let go.
impl Drop for IndexFit<'_> {
    fn drop(self) {
        let IndexFit {
            holdings: _holdings,
            keys: _,
            clear: _clear,
            foreign: _foreign,
            pairs: _pairs,
        } = self;
    }
}

impl<'a> Model for IndexFit<'a> {
    ghost use Rattle.std.specs.Prelude.{◌≡◌, List, filter, map};
    ghost use Rattle.std.specs.List.Sorted.{IsPermutation, IsSorted};
    ghost use Rattle.std.specs.Ordering.{nat_cmp, ordering_then};
    ghost use Rattle.mxf_klv.specs.Parts.{NoteParts};
    ghost use Rattle.mxf_catalogue.specs.Disputes.{clear_notes};
    ghost use Rattle.mxf_views.specs.Places.{segments_of};
    ghost use Rattle.mxf_doubts.specs.Header.{span_of};
    ghost use Rattle.mxf_doubts.specs.IndexFit.{AreClear, is_foreign, own_pair};

    ghost Value = { List NoteParts };

    ghost view = { λ f. f.holdings };

    ghost invariant = { λ f. (f.keys.now ≡ f.holdings) × AreClear f.holdings f.clear
        × (f.foreign ≡ map span_of (filter (is_foreign f.holdings) (clear_notes f.holdings)))
        × IsPermutation (map own_pair (segments_of f.holdings)) f.pairs.items
        × IsSorted (λ a b. ordering_then (nat_cmp a.0 b.0) (nat_cmp a.1 b.1)) f.pairs.items };
}

impl<'a> IndexFit<'a> {
    /// What is asked of what views know, with the keys of their notes. It takes memory.
    pub fn of(
        alloc: Global,
        views: &'a Views,
        keys: &'a Keys<'a>,
    ) -> Result<IndexFit<'a>, OutOfMemory>
        requires { keys.now ≡ views.now }
        ensures { IfOk result (λ f. f ≡ views.now) }
    {
        let holdings = Holdings::of(alloc, views)?;
        let clear = clear_in(alloc, views.catalogue())?;
        let foreign = Spans::of_foreign(alloc, views.catalogue(), keys)?;
        let pairs = own_pairs(alloc, views)?;
        Ok(IndexFit {
            holdings,
            keys,
            clear,
            foreign,
            pairs,
        })
    }

    /// Whether the packet behind the header metadata of a partition doesn't fit what the partition says of its index table
    /// segments: some searches.
    #[tactic(auto, unfolding(crate::specs::IndexFit::is_index_misfit))]
    pub fn is_misfit(&self, partition: &Partition) -> bool
        ensures { result ≡ is_index_misfit self.now partition.now }
    {
        match self.first_behind(partition) {
            Some(note) => self.is_unfit(partition, note),
            None => false,
        }
    }

    /// The clear packet behind the header metadata of a partition and the fills that follow them.
    fn first_behind(&self, partition: &Partition) -> Option<&'a Note>
        ensures { option_copied result ≡ first_behind self.now partition.now }
    {
        let begin = behind_metadata(&self.holdings, partition)?;
        if begin > u128::from(MAX) {
            // No packet begins there.
            self.holdings.views().catalogue().laws();
            return None;
        }
        let first = self.holdings.over_fills(begin as u64);
        self.holdings.views().catalogue().clear_at(first)
    }

    /// Whether that packet doesn't fit the partition's IndexByteCount and IndexSID.
    fn is_unfit(&self, partition: &Partition, note: &Note) -> bool
        ensures { result ≡ is_unfit self.now partition.now note.now }
    {
        let bytes = partition.numbers.index_byte_count;
        if is_segment(note) {
            return bytes == 0
                || self.is_miscounted(partition.numbers.index_sid, note.offset(), bytes);
        }
        bytes != 0 && !self.keys.is_dark(note)
    }

    /// Whether so many bytes from a segment on aren't those of the segments of the IndexSID.
    fn is_miscounted(&self, index_sid: u32, start: u64, bytes: u64) -> bool
        requires { 0 < bytes }
        ensures { result ≡ is_miscounted self.now index_sid start bytes }
    {
        self.foreign.has_one_from(start, bytes) || self.is_filled_wrong(index_sid, start, bytes)
    }

    /// Whether clear packets fill these bytes, and they are counted wrong.
    fn is_filled_wrong(&self, index_sid: u32, start: u64, bytes: u64) -> bool
        requires { 0 < bytes }
        ensures { result ≡ (are_filled self.now start bytes
            && is_counted_wrong self.now index_sid start (start + bytes)) }
    {
        let end = u128::from(start) + u128::from(bytes);
        if end > u128::from(MAX) {
            // No packet has the last of these bytes.
            self.holdings.views().catalogue().laws();
            return false;
        }
        let end = end as u64;
        self.clear.has_all(start, end) && self.is_counted_wrong(index_sid, start, end)
    }

    /// Whether a packet goes on where the bytes end, or a segment follows, or the readable segments in the bytes are all of
    /// other IndexSIDs.
    fn is_counted_wrong(&self, index_sid: u32, start: u64, end: u64) -> bool
        ensures { result ≡ is_counted_wrong self.now index_sid start end }
    {
        self.goes_on_at(end) || self.has_segment(start, end) && !self.has_own(index_sid, start, end)
    }

    /// Whether a clear packet lies across an offset, or a clear segment begins there.
    fn goes_on_at(&self, end: u64) -> bool
        ensures { result ≡ (is_cut_at self.now end || begins_segment self.now end) }
    {
        let catalogue = self.holdings.views().catalogue();
        catalogue.laws();
        match catalogue.clear_at(end) {
            Some(note) => is_segment(note),
            None => self.clear.has(end),
        }
    }

    /// Whether a readable segment begins in the bytes from an offset up to another: a binary search.
    fn has_segment(&self, start: u64, end: u64) -> bool
        ensures { result ≡ has_segment self.now start end }
    {
        let segments = self.holdings.views().segments_in_numbers();
        match segments.get(below(segments, start)) {
            Some(segment) => segment.offset < end,
            None => false,
        }
    }

    /// Whether one of the IndexSID does.
    fn has_own(&self, index_sid: u32, start: u64, end: u64) -> bool
        ensures { result ≡ has_own self.now index_sid start end }
    {
        has_own_in(&self.pairs, index_sid, start, end)
    }
}
