//! The greatest offsets of streams that ending segments of an index give (ST 377-1, Index Table Segment).
ghost use Rattle.std.specs.Prelude.{◌≡◌, IfOk, MatchOption, OnOk};
ghost use Rattle.mxf_units.specs.LastUnits.{IsEndless};
ghost use Rattle.mxf_partial.specs.Greatest.{AreGreatest, GivesNone, HasAdded, IsGreatestOf, greater};

use crate::in_streams::InStream;
use mxf_klv::{OutOfMemory, sort_once};
use mxf_sets::Segment;
use mxf_units::Units;
use mxf_views::SegmentAt;
use std::alloc::Global;

/// The greatest offset of a stream that a segment gives, in bytes.
#[derive(Clone, Copy, PartialEq, Eq, PartialOrd, Ord)]
pub(crate) struct GreatestPlace {
    pub body_sid: u32,
    pub offset: u128,
}

/// The greatest offsets of a stream are looked up by the stream alone: the last of them is the greatest of all.
impl InStream for GreatestPlace {
    ghost stream = { λ g. g.body_sid };

    ghost offset = { λ g. 0 };

    ghost tie = { λ g. g.offset };

    fn stream(&self) -> u64 {
        u64::from(self.body_sid)
    }

    fn offset(&self) -> u128 {
        0
    }
}

/// The greatest offset that each ending segment of the index gives, in their order. They take memory.
pub(crate) fn greatest_places(
    alloc: Global,
    units: &Units<'_>,
) -> Result<Vec<GreatestPlace>, OutOfMemory>
    ensures { IfOk result (λ v. AreGreatest units.now v.items) }
{
    let mut places = Vec::new(alloc);
    for segment in units.holdings().views().segments() {
        if segment.segment.numbers().index_sid == units.index_sid() {
            add_greatest(&mut places, &segment)?;
        }
    }
    sort_once(&mut places);
    Ok(places)
}

/// Adds the greatest offset that a segment gives, if it ends.
fn add_greatest(places: &mut Vec<GreatestPlace>, segment: &SegmentAt<'_>) -> Result<(), OutOfMemory>
    ensures { OnOk result (HasAdded segment.now places.old.items places.new.items) }
{
    if let Some(offset) = greatest_of(&segment.segment) {
        places.push(GreatestPlace {
            body_sid: segment.segment.numbers().body_sid,
            offset,
        })?;
    }
    Ok(())
}

/// The greatest offset that a segment gives, in bytes, if it ends.
fn greatest_of(segment: &Segment<'_>) -> Option<u128>
    ensures { MatchOption result (¬ IsEndless segment.now → GivesNone segment.now)
        (λ greatest. (¬ IsEndless segment.now) × IsGreatestOf segment.now greatest) }
{
    let numbers = segment.numbers();
    if numbers.unit_bytes == 0 {
        greatest_listed(segment)
    } else if numbers.duration == 0 {
        None
    } else {
        let last = numbers.start.unsigned_abs() + (numbers.duration.unsigned_abs() - 1);
        segment.offset_of(last)
    }
}

/// The greatest offset that a segment lists, in bytes.
fn greatest_listed(segment: &Segment<'_>) -> Option<u128>
    requires { segment.now.numbers.unit_bytes ≡ 0 }
    ensures { MatchOption result (GivesNone segment.now) (IsGreatestOf segment.now) }
{
    let start = segment.numbers().start.unsigned_abs();
    let end = start + segment.entry_count() as u64;
    let mut greatest = None;
    for unit in start..end {
        greatest = greater(greatest, segment.offset_of(unit));
    }
    greatest
}

/// The greater of two offsets, if there are any.
fn greater(first: Option<u128>, second: Option<u128>) -> Option<u128>
    ensures { result ≡ greater first second }
{
    match (first, second) {
        (Some(first), Some(second)) => Some(first.max(second)),
        (Some(first), None) => Some(first),
        (None, second) => second,
    }
}
