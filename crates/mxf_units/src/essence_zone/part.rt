//! Partitions as parts of their streams (ST 377-1, BodySID and BodyOffset).
ghost use Rattle.std.specs.Prelude.{◌≡◌, ◌==◌, [], IfOk, map, reverse};
ghost use Rattle.mxf_klv.specs.Rising.{union};
ghost use Rattle.mxf_views.specs.Partitions.{partitions_of};
ghost use Rattle.mxf_units.specs.EssenceZones.{IsFalling, begins_with, by_first, by_second, zone_at, part_cmp, part_of};
ghost use Rattle.mxf_units.specs.EssenceZones.{parts_of};

use super::{EssenceZone, Evidence};
use crate::standing::UnitStanding;
use mxf_klv::{OutOfMemory, sort_once};
use mxf_places::Holdings;
use mxf_views::{Partition, Views};
use std::alloc::Global;

/// A partition, as a part of an essence stream.
#[derive(Clone, Copy, Debug, PartialEq, Eq, PartialOrd, Ord)]
pub struct StreamPart {
    pub body_sid: u32,
    /// Where it begins in its stream, in bytes.
    pub body_offset: u64,
    /// Where its essence lies, if its first packet is known.
    pub zone: Option<EssenceZone>,
    /// The file offset of the partition, in bytes.
    pub partition: u64,
}

/// A partition as a part of its stream.
fn part_of(evidence: &Evidence<'_>, partition: &Partition) -> StreamPart
    ensures { result ≡ part_of evidence.now partition.now }
{
    let numbers = &partition.numbers;
    StreamPart {
        body_sid: numbers.body_sid,
        body_offset: numbers.body_offset,
        zone: evidence.zone_of(partition),
        partition: partition.offset,
    }
}

/// The partitions as parts of their streams, from the last to the first: by BodySID, then by BodyOffset, then those with
/// a first packet before the others. They take memory.
#[tactic(auto, unfolding(crate::specs::EssenceZones::parts_of))]
pub fn parts_of(alloc: Global, holdings: &Holdings<'_>) -> Result<Vec<StreamPart>, OutOfMemory>
    ensures { IfOk result (λ v. v.items ≡ parts_of holdings.now) }
{
    let evidence = Evidence::of(alloc, holdings)?;
    Ok(falling(parts_in(alloc, &evidence, holdings.views())?))
}

/// The parts of all streams, in the order of their partitions.
fn parts_in(
    alloc: Global,
    evidence: &Evidence<'_>,
    views: &Views,
) -> Result<Vec<StreamPart>, OutOfMemory>
    ensures { IfOk result (λ v. v.items ≡ map (part_of evidence.now) (partitions_of views.now)) }
{
    let partitions = views.partitions_in_numbers().iter();
    let parts = partitions.map(|partition| part_of(evidence, partition));
    Ok(parts.collect(alloc)?)
}

/// The parts from the last to the first, by BodySID, then by BodyOffset, those without a first packet after the others.
fn falling(mut parts: Vec<StreamPart>) -> Vec<StreamPart>
    ensures { result.items ≡ reverse (union part_cmp [] parts.items) }
{
    sort_once(&mut parts);
    parts.reverse();
    parts
}

/// Where the essence lies in which an offset of a stream, in bytes, is to be found, of parts from the last to the first: a
/// binary search.
pub fn zone_at(
    parts: &[StreamPart],
    body_sid: u32,
    offset: u128,
) -> Result<EssenceZone, UnitStanding>
    requires { IsFalling parts.now }
    ensures { result ≡ zone_at parts.now body_sid offset }
{
    let passed = parts.partition_point(|part| {
        part.body_sid > body_sid
            || (part.body_sid == body_sid && u128::from(part.body_offset) > offset)
    });
    let (_, rest) = parts.split_at(passed);
    by_first(rest, body_sid)
}

/// The same if none of the parts begins after the offset: by the first.
fn by_first(parts: &[StreamPart], body_sid: u32) -> Result<EssenceZone, UnitStanding>
    ensures { result ≡ by_first body_sid parts.now }
{
    match parts.split_first() {
        Some((part, rest)) if part.body_sid == body_sid => by_second(part, rest),
        _ => Err(UnitStanding::NoPartition),
    }
}

/// The same if the first is of the stream: by the one that follows.
fn by_second(part: &StreamPart, rest: &[StreamPart]) -> Result<EssenceZone, UnitStanding>
    ensures { result ≡ by_second part.now rest.now }
{
    match rest.split_first() {
        Some((other, _)) if begins_with(part, other) => {
            if other.zone.is_some() {
                return Err(UnitStanding::Several);
            }
            part.zone.ok_or(UnitStanding::Several)
        }
        _ => part.zone.ok_or(UnitStanding::Unknown),
    }
}

/// Whether two parts begin at one offset of one stream.
fn begins_with(part: &StreamPart, other: &StreamPart) -> bool
    ensures { result ≡ begins_with part.now other.now }
{
    part.body_sid == other.body_sid && part.body_offset == other.body_offset
}
