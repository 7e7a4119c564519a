//! Edit units that an index puts behind the end of the essence (ST 377-1, Stream Offset and BodyOffset; what is in doubt is
//! this project's profile).
ghost use Rattle.std.specs.Prelude.{◌≡◌, ◌<◌, ◌^◌, IfOk, IfSome, None, filter, max};
ghost use Rattle.std.specs.List.{list_all};
ghost use Rattle.std.specs.Option.{option_map_or};
ghost use Rattle.mxf_views.specs.RandomIndexView.{rip_view_of};
ghost use Rattle.mxf_units.specs.EssenceZones.{IsFalling, begins_with};
ghost use Rattle.mxf_doubts.specs.StreamEnds.{are_partitions_held, begins_another, greatest_of, is_behind, is_behind_end, is_held_entry, is_of_stream};
ghost use Rattle.mxf_doubts.specs.StreamEnds.{last_offset, last_sized, last_zone, listed_offsets, lists_held, reaches_limit, zone_by_first, zone_of_last};

use crate::sizes::Sizes;
use mxf_klv::OutOfMemory;
use mxf_places::Holdings;
use mxf_sets::{RipEntry, Segment};
use mxf_units::{EssenceZone, StreamPart, parts_of};
use mxf_views::{RipView, SegmentAt, Standing, Standings, Views};
use std::alloc::Global;
use std::marker::Model;

/// The greater of a stream offset, in bytes, and one that was seen before.
fn greater_of(seen: Option<u128>, offset: u128) -> u128
    ensures { result ≡ option_map_or (max offset) seen offset }
{
    match seen {
        Some(seen) => offset.max(seen),
        None => offset,
    }
}

/// The greatest stream offset, in bytes, of the units that a segment lists.
fn last_listed(segment: &Segment<'_>) -> Option<u128>
    ensures offset { result ≡ greatest_of None (listed_offsets segment.now) }
    ensures small { IfSome result (λ offset. offset < 2 ^ 96) }
{
    let start = segment.numbers().start.unsigned_abs();
    let end = start + segment.entry_count() as u64;
    let mut greatest = None;
    for unit in start..end {
        if let Some(offset) = segment.offset_of(unit) {
            greatest = Some(greater_of(greatest, offset));
        }
    }
    greatest
}

/// Whether an entry of the random index pack stands as held.
fn is_held_entry(entry: &(RipEntry, Standing)) -> bool
    ensures { result ≡ is_held_entry entry.now }
{
    matches!(entry.1, Standing::Held)
}

/// Whether all partitions that the random index pack lists are held.
fn lists_held(view: RipView<'_>) -> bool
    ensures { result ≡ lists_held view.entry }
{
    match view {
        RipView::One(rip) => are_held(rip.entries()),
        _ => false,
    }
}

/// Whether all entries stand as held.
fn are_held(entries: Standings<'_>) -> bool
    ensures { result ≡ list_all is_held_entry entries.entry }
{
    for entry in entries {
        if !is_held_entry(&entry) {
            return false;
        }
    }
    true
}

/// Whether the end of the file is known, and all partitions that the random index pack lists are held.
fn are_partitions_held(holdings: &Holdings<'_>) -> bool
    ensures { result ≡ are_partitions_held holdings.now }
{
    holdings.end().is_some() && lists_held(holdings.views().rip())
}

/// Where the last part of a stream lies, of parts from the last to the first: a binary search.
fn last_zone_in(parts: &[StreamPart], body_sid: u32) -> Option<EssenceZone>
    requires { IsFalling parts.now }
    ensures { result ≡ zone_of_last (filter (is_of_stream body_sid) parts.now) }
{
    let passed = parts.partition_point(|part| part.body_sid > body_sid);
    let (_, rest) = parts.split_at(passed);
    zone_by_first(rest, body_sid)
}

/// The same if none of the parts is of a later stream.
fn zone_by_first(parts: &[StreamPart], body_sid: u32) -> Option<EssenceZone>
    ensures { result ≡ zone_by_first body_sid parts.now }
{
    let (part, others) = parts.split_first()?;
    if part.body_sid != body_sid || begins_another(part, others) {
        return None;
    }
    part.zone
}

/// Whether the first of the others begins where a part does in the same stream.
fn begins_another(part: &StreamPart, others: &[StreamPart]) -> bool
    ensures { result ≡ begins_another part.now others.now }
{
    match others.split_first() {
        Some((other, _)) => begins_with(part, other),
        None => false,
    }
}

/// Whether two parts begin at one offset of one stream.
fn begins_with(part: &StreamPart, other: &StreamPart) -> bool
    ensures { result ≡ begins_with part.now other.now }
{
    part.body_sid == other.body_sid && part.body_offset == other.body_offset
}

/// Whether a stream offset, in bytes, lies at the limit of a zone or above.
fn reaches_limit(offset: u128, zone: EssenceZone) -> bool
    requires { offset < 2 ^ 96 }
    ensures { result ≡ reaches_limit offset zone }
{
    match zone.limit {
        Some(limit) => {
            u128::from(limit) + u128::from(zone.body_offset) <= offset + u128::from(zone.origin)
        }
        None => false,
    }
}

/// What is asked for each segment.
pub(crate) struct StreamEnds<'a> {
    sizes: Sizes<'a>,
    parts: Vec<StreamPart>,
    has_partitions: bool,
}

// Written out, a drop is one call wherever it is let go.
impl Drop for StreamEnds<'_> {
    fn drop(self) {
        let StreamEnds {
            sizes: _sizes,
            parts: _parts,
            has_partitions: _,
        } = self;
    }
}

impl<'a> Model for StreamEnds<'a> {
    ghost use Rattle.std.specs.Prelude.{◌≡◌, List};
    ghost use Rattle.mxf_klv.specs.Parts.{NoteParts};
    ghost use Rattle.mxf_units.specs.EssenceZones.{parts_of};
    ghost use Rattle.mxf_doubts.specs.StreamEnds.{are_partitions_held};

    ghost Value = { List NoteParts };

    ghost view = { λ e. e.sizes };

    ghost invariant = { λ e. (e.parts.items ≡ parts_of e.sizes) × (e.has_partitions ≡ are_partitions_held e.sizes) };
}

impl<'a> StreamEnds<'a> {
    /// What is asked of what views know. It takes memory.
    pub fn of(alloc: Global, views: &'a Views) -> Result<StreamEnds<'a>, OutOfMemory>
        ensures { IfOk result (λ e. e ≡ views.now) }
    {
        let holdings = Holdings::of(alloc, views)?;
        let parts = parts_of(alloc, &holdings)?;
        let sizes = Sizes::of(alloc, views)?;
        Ok(StreamEnds {
            sizes,
            parts,
            has_partitions: are_partitions_held(&holdings),
        })
    }

    /// Whether a unit of a segment lies behind the end of the essence of its stream: some searches, and a look at each entry
    /// of the segment.
    #[tactic(auto, unfolding(crate::specs::StreamEnds::is_behind_end))]
    pub fn is_behind_end(&self, segment: &SegmentAt<'_>) -> bool
        ensures { result ≡ is_behind_end self.now segment.now }
    {
        self.has_partitions
            && self.is_behind(
                self.last_zone(segment.segment.numbers().body_sid),
                &segment.segment,
            )
    }

    /// Whether the last place that a segment gives lies at the limit of a zone or above, if there are both.
    fn is_behind(&self, zone: Option<EssenceZone>, segment: &Segment<'_>) -> bool
        ensures { result ≡ is_behind zone (last_offset self.now segment.now) }
    {
        match (zone, self.last_offset(segment)) {
            (Some(zone), Some(offset)) => reaches_limit(offset, zone),
            _ => false,
        }
    }

    /// Where the last part of a stream lies.
    fn last_zone(&self, body_sid: u32) -> Option<EssenceZone>
        ensures { result ≡ last_zone self.now body_sid }
    {
        last_zone_in(&self.parts, body_sid)
    }

    /// The greatest stream offset, in bytes, that a segment gives a unit.
    #[tactic(auto, unfolding(crate::specs::StreamEnds::last_offset))]
    fn last_offset(&self, segment: &Segment<'_>) -> Option<u128>
        ensures offset { result ≡ last_offset self.now segment.now }
        ensures small { IfSome result (λ offset. offset < 2 ^ 96) }
    {
        if segment.numbers().unit_bytes > 0 {
            self.last_sized(segment)
        } else {
            last_listed(segment)
        }
    }

    /// That of the last of units of one size.
    fn last_sized(&self, segment: &Segment<'_>) -> Option<u128>
        ensures offset { result ≡ last_sized self.now segment.now }
        ensures small { IfSome result (λ offset. offset < 2 ^ 96) }
    {
        let numbers = segment.numbers();
        let duration = numbers.duration.unsigned_abs();
        if duration == 0 || self.sizes.has_other(&numbers) {
            return None;
        }
        segment.offset_of(numbers.start.unsigned_abs() + (duration - 1))
    }
}
