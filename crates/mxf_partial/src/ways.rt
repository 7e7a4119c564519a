//! Where the way from partition packs to their essence goes on over what isn't held (ST 377-1, Partition Pack).
ghost use Rattle.std.specs.Prelude.{◌≡◌, ◌↔◌, ◌⊎◌, None, Some, if◌then◌else◌, true, IfOk, OnOk};
ghost use Rattle.std.specs.Option.{option_and_then};
ghost use Rattle.mxf_klv.specs.Rising.{In};
ghost use Rattle.mxf_places.specs.Claims.{over_fills};
ghost use Rattle.mxf_restore.specs.declared.named.NamedPlace.{NamedPlace};
ghost use Rattle.mxf_units.specs.Units.{UnitsParts};
ghost use Rattle.mxf_units.specs.declared.essence_zone.part.StreamPart.{StreamPart};
ghost use Rattle.mxf_views.specs.declared.index.place.StreamPlace.{StreamPlace};
ghost use Rattle.mxf_partial.specs.StreamTable.{AreStreams};
ghost use Rattle.mxf_partial.specs.InStreams.{IsInOrder};
ghost use Rattle.mxf_partial.specs.Ways.{HasPlace, HasWay, LeadsTo, end_of_way, is_free, open_end, way_from, way_of};

use crate::in_streams::{Bound, InStream, first_from};
use crate::streams::Streams;
use mxf_klv::{MAX, OutOfMemory, sort_once};
use mxf_places::{Holdings, Stretch, Zone, zone_of};
use mxf_restore::NamedPlace;
use mxf_units::{StreamPart, Units, behind_index};
use mxf_views::{Partition, StreamPlace};
use std::alloc::Global;

impl InStream for StreamPlace {
    ghost stream = { λ p. p.body_sid };

    ghost offset = { λ p. p.offset };

    ghost tie = { λ p. 0 };

    fn stream(&self) -> u64 {
        u64::from(self.body_sid)
    }

    fn offset(&self) -> u128 {
        self.offset
    }
}

/// Adds where the ways go on from those partitions of these places of streams whose first packet isn't known, each with
/// its partition.
pub(crate) fn add_ways(
    alloc: Global,
    asked: &mut Vec<NamedPlace>,
    units: &Units<'_>,
    places: &[StreamPlace],
) -> Result<(), OutOfMemory>
    ensures { OnOk result ((n : NamedPlace) → In n asked.new.items ↔ (In n asked.old.items
        ⊎ ((p : StreamPlace) × (part : StreamPart) × In p places.now
        × LeadsTo units.now.known.notes p.body_sid p.offset part n.place × (n.source ≡ Some part.partition)))) }
{
    units.holdings().views().catalogue().laws();
    let streams = Streams::of(alloc, units)?;
    let places = in_order(alloc, places)?;
    add_ways_of(asked, units.holdings(), &streams, &places, units.parts())
}

/// Adds where the ways go on from those of some parts in which one of the places lies.
fn add_ways_of(
    asked: &mut Vec<NamedPlace>,
    holdings: &Holdings<'_>,
    streams: &Streams,
    places: &[StreamPlace],
    parts: &[StreamPart],
) -> Result<(), OutOfMemory>
    ensures { (u : UnitsParts) → AreStreams u streams.now
        → IsInOrder (λ p. p.body_sid) (λ p. p.offset) (λ p. 0) places.now
        → OnOk result ((n : NamedPlace) → In n asked.new.items ↔ (In n asked.old.items
        ⊎ HasWay u.known.notes holdings.now places.now parts.now n)) }
{
    for part in parts {
        add_way(asked, holdings, streams, places, part)?;
    }
    Ok(())
}

/// Adds where the way goes on from a part, if one of the places lies in it.
fn add_way(
    asked: &mut Vec<NamedPlace>,
    holdings: &Holdings<'_>,
    streams: &Streams,
    places: &[StreamPlace],
    part: &StreamPart,
) -> Result<(), OutOfMemory>
    ensures { (u : UnitsParts) → AreStreams u streams.now
        → IsInOrder (λ p. p.body_sid) (λ p. p.offset) (λ p. 0) places.now
        → OnOk result ((n : NamedPlace) → In n asked.new.items ↔ (In n asked.old.items
        ⊎ (HasPlace u.known.notes places.now part.now × (way_from holdings.now part.now ≡ Some n)))) }
{
    if !has_place(streams, places, part) {
        return Ok(());
    }
    if let Some(place) = way_from(holdings, part) {
        asked.push(place)?;
    }
    Ok(())
}

/// The places in the order of streams. They take memory.
fn in_order(alloc: Global, places: &[StreamPlace]) -> Result<Vec<StreamPlace>, OutOfMemory>
    ensures members { IfOk result (λ v. (p : StreamPlace) → In p v.items ↔ In p places.now) }
    ensures order { IfOk result (λ v. IsInOrder (λ p. p.body_sid) (λ p. p.offset) (λ p. 0) v.items) }
{
    let mut places = Vec::from_slice(alloc, places)?;
    sort_once(&mut places);
    Ok(places)
}

/// Where the way goes on from a part whose first packet isn't known.
fn way_from(holdings: &Holdings<'_>, part: &StreamPart) -> Option<NamedPlace>
    ensures { result ≡ way_from holdings.now part.now }
{
    if part.zone.is_some() {
        return None;
    }
    let partition = holdings.views().partition_at(part.partition)?;
    Some(NamedPlace {
        place: way_of(holdings, partition)?,
        source: Some(part.partition),
    })
}

/// Whether one of the places lies at or above where a part begins, and none of its stream begins between the two.
fn has_place(streams: &Streams, places: &[StreamPlace], part: &StreamPart) -> bool
    ensures { (u : UnitsParts) → AreStreams u streams.now
        → IsInOrder (λ p. p.body_sid) (λ p. p.offset) (λ p. 0) places.now
        → (result ≡ true) ↔ HasPlace u.known.notes places.now part.now }
{
    let offset = u128::from(part.body_offset);
    let from = Bound {
        from: offset,
        more: 0,
    };
    let Some(place) = first_from(places, u64::from(part.body_sid), from) else {
        return false;
    };
    let beginning = StreamPlace {
        body_sid: part.body_sid,
        offset,
    };
    match streams.beginning_behind(beginning) {
        Some(next) => place.offset < u128::from(next),
        None => true,
    }
}
/// Where the way from a partition pack to its essence goes on, in bytes, over what isn't held.
#[tactic(auto, unfolding(crate::specs::Ways::way_of))]
fn way_of(holdings: &Holdings<'_>, partition: &Partition) -> Option<u64>
    ensures { result ≡ way_of holdings.now partition.now }
{
    free_place(holdings, end_of_way(holdings, partition)?)
}

/// The place, in bytes, if nothing is held there and the file may reach that far.
fn free_place(holdings: &Holdings<'_>, place: u128) -> Option<u64>
    ensures { result ≡ if is_free holdings.now place then Some place else None }
{
    if place >= u128::from(MAX) {
        return None;
    }
    let place = place as u64;
    if holdings.is_in_file(place) && !holdings.is_held(place) {
        Some(place)
    } else {
        None
    }
}

/// Where the way from a partition pack over its header metadata, its index table segments and fills ends, in bytes.
fn end_of_way(holdings: &Holdings<'_>, partition: &Partition) -> Option<u128>
    ensures { result ≡ end_of_way holdings.now partition.now }
{
    match behind_index(holdings, partition) {
        Some(behind) => Some(over_fills(holdings, behind)),
        None => open_end(zone_of(holdings, Zone::Metadata, partition)).or(open_end(zone_of(
            holdings,
            Zone::Index,
            partition,
        ))),
    }
}

/// Where one gets from an offset, in bytes, by going on over the fills that begin there.
fn over_fills(holdings: &Holdings<'_>, offset: u128) -> u128
    ensures { result ≡ over_fills holdings.now offset }
{
    if offset >= u128::from(MAX) {
        // No packet begins there.
        holdings.views().catalogue().laws();
        return offset;
    }
    u128::from(holdings.over_fills(offset as u64))
}

/// Where a stretch ends, in bytes, if it isn't known what begins there.
fn open_end(stretch: Option<Stretch>) -> Option<u128>
    ensures { result ≡ option_and_then open_end stretch }
{
    let stretch = stretch?;
    if stretch.is_open {
        Some(stretch.end.saturating_sub(1))
    } else {
        None
    }
}
