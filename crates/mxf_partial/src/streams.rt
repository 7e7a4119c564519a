//! Between which file offsets an offset of a stream can lie.
ghost use Rattle.std.specs.Prelude.{◌≡◌, ◌+◌, ◌-◌, ◌<◌, ◌≤◌, ◌^◌, IfOk, map, MatchOption};
ghost use Rattle.mxf_units.specs.Units.{UnitsParts};
ghost use Rattle.mxf_partial.specs.StreamTable.{AreStarts, AreStreams, IsRipOffset, PartsDiffer, start_of};
ghost use Rattle.mxf_units.specs.declared.essence_zone.part.StreamPart.{StreamPart};
ghost use Rattle.mxf_partial.specs.Streams.{HasNoPartBehind, IsGreatestOffset, IsHigh, IsLow, IsPartBehind};

use crate::greatest::{GreatestPlace, greatest_places};
use crate::in_streams::{Bound, InStream, first_from, last_below};
use mxf_klv::{OutOfMemory, sort_once};
use mxf_units::{StreamPart, Units};
use mxf_views::{RipView, StreamPlace, Views};
use std::alloc::Global;

/// Where a part of a stream begins, and where its bytes lie.
#[derive(Clone, Copy, PartialEq, Eq, PartialOrd, Ord)]
pub(crate) struct PartStart {
    body_sid: u32,
    /// Where it begins in its stream, in bytes.
    body_offset: u64,
    /// The file offset of the partition, in bytes.
    partition: u64,
    /// The file offset that BodyOffset counts from, in bytes; that of the partition, as long as it isn't known.
    origin: u64,
}

impl InStream for PartStart {
    ghost stream = { λ s. s.body_sid };

    ghost offset = { λ s. s.body_offset };

    ghost tie = { λ s. s.partition };

    fn stream(&self) -> u64 {
        u64::from(self.body_sid)
    }

    fn offset(&self) -> u128 {
        u128::from(self.body_offset)
    }
}

/// What says between which file offsets an offset of a stream can lie.
#[derive(Drop)]
pub(crate) struct Streams {
    /// Where the parts of streams begin, in their order.
    starts: Vec<PartStart>,
    /// The greatest offset that each ending segment gives, in their order.
    greatest: Vec<GreatestPlace>,
    /// The file offset of the only random index pack, in bytes.
    rip: Option<u64>,
}

impl Streams {
    /// What the packs and the segments of an index say. It takes memory, and time for each segment and entry.
    pub fn of(alloc: Global, units: &Units<'_>) -> Result<Streams, OutOfMemory>
        ensures { IfOk result (AreStreams units.now) }
    {
        Ok(Streams {
            starts: part_starts(alloc, units)?,
            greatest: greatest_places(alloc, units)?,
            rip: rip_offset(units.holdings().views()),
        })
    }

    /// The file offset below which a place of a stream can't lie, in bytes: a binary search.
    pub fn low(&self, place: StreamPlace) -> Bound
        ensures low { (u : UnitsParts) → AreStreams u self.now
            → IsLow u.known.notes place.body_sid place.offset (result.from + result.more) }
        ensures small { result.from < 2 ^ 64 }
    {
        let stream = u64::from(place.body_sid);
        match last_below(&self.starts, stream, behind(place.offset)) {
            Some(start) => {
                let distance = place.offset.saturating_sub(u128::from(start.body_offset));
                reach(start.origin, distance)
            }
            None => Bound { from: 0, more: 0 },
        }
    }

    /// The file offset below which a place of a stream lies, in bytes, if something says so: two binary searches.
    pub fn high(&self, place: StreamPlace) -> Option<u64>
        ensures { (u : UnitsParts) → AreStreams u self.now → IsHigh u place.body_sid place.offset result }
    {
        let stream = u64::from(place.body_sid);
        match first_from(&self.starts, stream, behind(place.offset)) {
            Some(start) => {
                let distance = u128::from(start.body_offset).saturating_sub(place.offset);
                Some(less(start.partition, distance))
            }
            None => Some(less(self.rip?, self.greatest_from(place) - place.offset)),
        }
    }

    /// Where the first part of a stream begins that begins after a place of it, in bytes of the stream: a binary
    /// search.
    pub fn beginning_behind(&self, place: StreamPlace) -> Option<u64>
        ensures { (u : UnitsParts) → AreStreams u self.now
            → MatchOption result (HasNoPartBehind u.known.notes place.body_sid place.offset)
            (λ next. (q : StreamPart) × IsPartBehind u.known.notes place.body_sid place.offset q
            × (q.body_offset ≡ next)) }
    {
        let stream = u64::from(place.body_sid);
        match first_from(&self.starts, stream, behind(place.offset)) {
            Some(start) => Some(start.body_offset),
            None => None,
        }
    }

    /// The greatest of the offsets that ending segments give of the stream of a place, and of its own, in bytes.
    fn greatest_from(&self, place: StreamPlace) -> u128
        ensures greatest { (u : UnitsParts) → AreStreams u self.now
            → IsGreatestOffset u place.body_sid place.offset result }
        ensures above { place.offset ≤ result }
    {
        let stream = u64::from(place.body_sid);
        match last_below(&self.greatest, stream, Bound { from: 1, more: 0 }) {
            Some(greatest) => greatest.offset.max(place.offset),
            None => place.offset,
        }
    }
}

/// The bound of offsets up to one, in bytes.
fn behind(offset: u128) -> Bound
    ensures { result.from + result.more ≡ offset + 1 }
{
    Bound {
        from: offset,
        more: 1,
    }
}

/// A file offset and a distance above it, in bytes, together.
fn reach(offset: u64, distance: u128) -> Bound
    ensures sum { result.from + result.more ≡ offset + distance }
    ensures small { result.from < 2 ^ 64 }
{
    Bound {
        from: u128::from(offset),
        more: distance,
    }
}

/// A file offset less a distance, in bytes; 0 if that is greater.
fn less(offset: u64, distance: u128) -> u64
    ensures { result ≡ offset - distance }
{
    u128::from(offset).saturating_sub(distance) as u64
}

/// Where a part of a stream begins, and where its bytes lie.
fn start_of(part: &StreamPart) -> PartStart
    ensures { result ≡ start_of part.now }
{
    PartStart {
        body_sid: part.body_sid,
        body_offset: part.body_offset,
        partition: part.partition,
        origin: match part.zone {
            Some(zone) => zone.origin,
            None => part.partition,
        },
    }
}

/// Where the parts of all streams begin, in their order. It takes memory.
fn part_starts(alloc: Global, units: &Units<'_>) -> Result<Vec<PartStart>, OutOfMemory>
    ensures starts { IfOk result (λ v. AreStarts units.now.known.notes v.items) }
    ensures differ { PartsDiffer units.now.known.notes }
{
    units.holdings().views().catalogue().laws();
    let mut starts = starts_of(alloc, units.parts())?;
    sort_once(&mut starts);
    Ok(starts)
}

/// Where these parts of streams begin. It takes memory.
fn starts_of(alloc: Global, parts: &[StreamPart]) -> Result<Vec<PartStart>, OutOfMemory>
    ensures { IfOk result (λ v. v.items ≡ map start_of parts.now) }
{
    let starts = parts.iter().map(|part| start_of(part));
    Ok(starts.collect(alloc)?)
}

/// Where the only random index pack stands, in bytes, if it can be read.
fn rip_offset(views: &Views) -> Option<u64>
    ensures { IsRipOffset views.now result }
{
    match views.rip() {
        RipView::One(rip) => Some(rip.offset()),
        _ => None,
    }
}
