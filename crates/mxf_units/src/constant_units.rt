//! Edit units of one size (ST 377-1, Index Table Segment).
ghost use Rattle.std.specs.Prelude.{◌≡◌, ◌⊎◌, ◌+◌, ◌*◌, ◌^◌, ◌<◌, ◌≤◌, IfOk, IfSome, IsTrue, List, []};
ghost use Rattle.std.specs.List.{AllByRecursion, filter_map};
ghost use Rattle.std.specs.Option.{option_and_then};
ghost use Rattle.mxf_units.specs.NextPlaces.{AreSized, constant_units, end_number, first_number, number_of};
ghost use Rattle.mxf_units.specs.NextPlaces.{place_above};
ghost use Rattle.mxf_units.specs.Repeated.{AreAmong};
ghost use Rattle.mxf_units.specs.Streams.{offset_above};

use crate::intervals::Interval;
use crate::stream::offset_in;
use mxf_klv::OutOfMemory;
use mxf_views::{SegmentAt, StreamPlace};
use std::alloc::Global;

/// More than any offset of a stream, in bytes: 2^96.
const STREAM: u128 = 79_228_162_514_264_337_593_543_950_336;

/// The edit units of a segment, if they have one size.
#[derive(Clone, Copy, Drop)]
pub(crate) struct ConstantUnits {
    pub body_sid: u32,
    /// How many bytes each has.
    pub unit_bytes: u32,
    /// The first of them.
    pub start: u64,
    /// How many there are; 0 if they have no end.
    pub duration: u64,
}

impl ConstantUnits {
    /// Those of a segment.
    pub(crate) fn of(segment: &SegmentAt<'_>) -> Option<ConstantUnits>
        ensures units { result ≡ constant_units segment.now }
        ensures sized { IfSome result AreSized }
        ensures unlisted { IfSome result (λ _. segment.now.segment.entries ≡ []) }
    {
        let numbers = segment.segment.numbers();
        if numbers.unit_bytes == 0 {
            return None;
        }
        Some(ConstantUnits {
            body_sid: numbers.body_sid,
            unit_bytes: numbers.unit_bytes,
            start: numbers.start.unsigned_abs(),
            duration: numbers.duration.unsigned_abs(),
        })
    }

    /// The first place above an offset, in bytes, that one of them has.
    pub(crate) fn place_above(&self, offset: u128) -> Option<StreamPlace>
        requires some { 0 < self.now.unit_bytes }
        requires small { offset < 2 ^ 96 }
        ensures place { result ≡ place_above offset self.now }
        ensures small { IfSome result (λ p. p.offset + 2 ^ 96 ≤ 2 ^ 128) }
    {
        let unit_bytes = u128::from(self.unit_bytes);
        let start = u128::from(self.start);
        let duration = u128::from(self.duration);
        let unit = start.max(offset / unit_bytes + 1);
        if duration > 0 && unit >= start + duration {
            return None;
        }
        Some(StreamPlace {
            body_sid: self.body_sid,
            offset: unit_bytes * unit,
        })
    }

    /// Whether all of others are among them, at the same places.
    pub(crate) fn has_all_of(&self, others: &ConstantUnits) -> bool
        ensures { IsTrue result → AreAmong others.now self.now }
    {
        self.body_sid == others.body_sid
            && self.unit_bytes == others.unit_bytes
            && self.start <= others.start
            && self.go_as_far_as(others)
    }

    /// Whether they end where others end, or behind that.
    fn go_as_far_as(&self, others: &ConstantUnits) -> bool
        ensures { IsTrue result → ((self.now.duration ≡ 0) ⊎ ((0 < others.now.duration)
            × (others.now.start + others.now.duration ≤ self.now.start + self.now.duration))) }
    {
        self.duration == 0 || (others.duration > 0 && others.end_unit() <= self.end_unit())
    }

    /// The number behind the last of them, if they have an end.
    fn end_unit(&self) -> u128
        ensures { result ≡ self.now.start + self.now.duration }
    {
        u128::from(self.start) + u128::from(self.duration)
    }

    /// The offset of that place above another place, in bytes, if it is in the stream of that.
    pub(crate) fn offset_above(&self, place: StreamPlace) -> Option<u128>
        requires some { 0 < self.now.unit_bytes }
        requires small { place.offset < 2 ^ 96 }
        ensures offset { result
            ≡ option_and_then (offset_above place.body_sid place.offset) (place_above place.offset self.now) }
        ensures small { IfSome result (λ n. n + 2 ^ 96 ≤ 2 ^ 128) }
    {
        let above = self.place_above(place.offset)?;
        if above.offset > place.offset {
            offset_in(above, place.body_sid)
        } else {
            None
        }
    }
}

/// An offset of a stream, in bytes, as a number among those of all streams.
pub(crate) fn number_of(body_sid: u32, offset: u128) -> u128
    requires { offset < 2 ^ 96 }
    ensures { result ≡ number_of body_sid offset }
{
    u128::from(body_sid) * STREAM + offset
}

/// Their offsets, as numbers among those of all streams.
impl Interval for ConstantUnits {
    ghost first = { first_number };

    ghost end = { end_number };

    fn first(&self) -> u128 {
        number_of(
            self.body_sid,
            u128::from(self.unit_bytes) * u128::from(self.start),
        )
    }

    fn end(&self) -> u128 {
        let end = if self.duration == 0 {
            STREAM - 1
        } else {
            let end = u128::from(self.start) + u128::from(self.duration);
            (u128::from(self.unit_bytes) * end).min(STREAM - 1)
        };
        number_of(self.body_sid, end)
    }
}

/// The units of one size of segments, in the order of these. They take memory.
pub(crate) fn constant_units(
    alloc: Global,
    segments: &[SegmentAt<'_>],
) -> Result<Vec<ConstantUnits>, OutOfMemory>
    ensures units { IfOk result (λ v. v.items ≡ filter_map constant_units segments.now) }
    ensures sized { IfOk result (λ v. AllByRecursion AreSized v.items) }
{
    let mut units = Vec::new(alloc);
    for segment in segments {
        if let Some(of_segment) = ConstantUnits::of(segment) {
            units.push(of_segment)?;
        }
    }
    Ok(units)
}
