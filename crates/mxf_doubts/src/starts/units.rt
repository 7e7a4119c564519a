//! The units that are asked: of those at which a packet begins each one, and the first ones of those in a row that miss their
//! packets.
ghost use Rattle.std.specs.Prelude.{◌≡◌, ◌==◌, ◌++◌, ◌&&◌, ◌<◌, ◌^◌, ◌∷◌, [], ℕ, IfOk, IfSome, OnOk, filter, flat_map, map};
ghost use Rattle.std.specs.List.{list_any};
ghost use Rattle.std.specs.List.Sorted.{IsNonDecreasingBy};
ghost use Rattle.mxf_catalogue.specs.Disputes.{clear_notes};
ghost use Rattle.mxf_klv.specs.Rising.{IsRising};
ghost use Rattle.mxf_views.specs.Places.{segments_of};
ghost use Rattle.mxf_doubts.specs.UnitStarts.{asked_units, borders_of, first_of, is_in_zone, is_number, listed_in, listed_unit, listed_units};
ghost use Rattle.mxf_doubts.specs.UnitStarts.{sized_segments, stream_indexes, unit_cmp, units_at, units_from, units_of_part};

use super::stream_index::{StreamIndex, StreamIndexes};
use mxf_catalogue::Catalogue;
use mxf_klv::{OutOfMemory, between, sort_once};
use mxf_units::{EssenceZone, StreamPart};
use mxf_views::{SegmentAt, Views};
use std::alloc::Global;

/// An IndexSID, and the number of a unit.
pub(super) type Unit = (u32, u64);

/// A unit, if a segment lists it by an entry.
fn listed_unit(segment: &SegmentAt<'_>, unit: u64) -> Option<Unit>
    ensures { result ≡ listed_unit segment.now unit }
{
    match segment.segment.entry_of(unit) {
        Some(_) => Some((segment.segment.numbers().index_sid, unit)),
        None => None,
    }
}

/// Adds the units that a segment lists.
#[tactic(auto, unfolding(crate::specs::UnitStarts::listed_in))]
fn add_listed(units: &mut Vec<Unit>, segment: &SegmentAt<'_>) -> Result<(), OutOfMemory>
    ensures { OnOk result (units.new.items ≡ units.old.items ++ listed_in segment.now) }
{
    let start = segment.segment.numbers().start.unsigned_abs();
    let end = start + segment.segment.entry_count() as u64;
    for unit in start..end {
        if let Some(listed) = listed_unit(segment, unit) {
            units.push(listed)?;
        }
    }
    Ok(())
}

/// The units that segments list, in the order of these.
fn listed_in(alloc: Global, views: &Views) -> Result<Vec<Unit>, OutOfMemory>
    ensures { IfOk result (λ v. v.items ≡ flat_map listed_in (segments_of views.now)) }
{
    let mut units = Vec::new(alloc);
    for segment in views.segments() {
        add_listed(&mut units, &segment)?;
    }
    Ok(units)
}

/// The same in their order, each once. They take memory.
pub(super) fn listed_units(alloc: Global, views: &Views) -> Result<Vec<Unit>, OutOfMemory>
    ensures { IfOk result (λ v. v.items ≡ listed_units views.now) }
{
    let mut units = listed_in(alloc, views)?;
    sort_once(&mut units);
    Ok(units)
}

/// Whether a unit of an index is one of those that rise: a binary search.
pub(super) fn is_among(units: &[Unit], index_sid: u32, unit: u64) -> bool
    requires { IsRising unit_cmp units.now }
    ensures { result ≡ list_any (λ u. (u.0 == index_sid) && (u.1 == unit)) units.now }
{
    units.binary_search(&(index_sid, unit)).is_ok()
}

/// Adds the units at which a segment begins and ends.
fn add_borders(units: &mut Vec<Unit>, segment: &SegmentAt<'_>) -> Result<(), OutOfMemory>
    ensures { OnOk result (units.new.items ≡ units.old.items ++ borders_of segment.now) }
{
    let numbers = segment.segment.numbers();
    let start = numbers.start.unsigned_abs();
    let listed = start + segment.segment.entry_count() as u64;
    units.push((numbers.index_sid, start))?;
    units.push((numbers.index_sid, listed))?;
    units.push((numbers.index_sid, start + numbers.duration.unsigned_abs()))?;
    Ok(())
}

/// Adds those of all segments.
fn add_all_borders(units: &mut Vec<Unit>, views: &Views) -> Result<(), OutOfMemory>
    ensures { OnOk result (units.new.items ≡ units.old.items ++ flat_map borders_of (segments_of views.now)) }
{
    for segment in views.segments() {
        add_borders(units, &segment)?;
    }
    Ok(())
}

/// Adds a unit if it is a number of eight bytes.
fn add_number(units: &mut Vec<Unit>, index_sid: u32, unit: u128) -> Result<(), OutOfMemory>
    ensures { OnOk result (units.new.items ≡ units.old.items ++ filter is_number ((index_sid, unit) ∷ [])) }
{
    if unit <= u128::from(u64::MAX) {
        units.push((index_sid, unit as u64))?;
    }
    Ok(())
}

/// Adds the first two of the units of one size that begin at an offset of their stream, in bytes, or above.
#[tactic(auto, unfolding(crate::specs::UnitStarts::units_from))]
fn add_units_from(units: &mut Vec<Unit>, stream: StreamIndex, from: u128) -> Result<(), OutOfMemory>
    requires some { 0 < stream.unit_bytes }
    requires small { from < 2 ^ 96 }
    ensures { OnOk result (units.new.items ≡ units.old.items ++ units_from stream from) }
{
    let unit_bytes = u128::from(stream.unit_bytes);
    let first = (from + (unit_bytes - 1)) / unit_bytes;
    add_number(units, stream.index_sid, first)?;
    add_number(units, stream.index_sid, first + 1)
}

/// Where the clear packets begin, in their order.
fn packet_offsets(alloc: Global, catalogue: &Catalogue) -> Result<Vec<u64>, OutOfMemory>
    ensures { IfOk result (λ v. v.items ≡ map (λ n. n.offset) (clear_notes catalogue.now)) }
{
    Ok(catalogue.clear().map(|note| note.offset()).collect(alloc)?)
}

/// Adds those at the packets of a zone.
fn add_units_in(
    units: &mut Vec<Unit>,
    offsets: &[u64],
    zone: EssenceZone,
    stream: StreamIndex,
) -> Result<(), OutOfMemory>
    requires some { 0 < stream.unit_bytes }
    requires rising { IsNonDecreasingBy (λ (x : ℕ). x) offsets.now }
    ensures { OnOk result (units.new.items ≡ units.old.items ++ units_at (filter (is_in_zone zone) offsets.now) zone stream) }
{
    for offset in between(offsets, zone.origin, zone.limit) {
        let above = u128::from(offset.saturating_sub(zone.origin));
        add_units_from(units, stream, u128::from(zone.body_offset) + above)?;
    }
    Ok(())
}

/// Adds those at the packets of partitions.
fn add_units_of_parts(
    units: &mut Vec<Unit>,
    offsets: &[u64],
    parts: &[StreamPart],
    sized: &StreamIndexes,
) -> Result<(), OutOfMemory>
    requires rising { IsNonDecreasingBy (λ (x : ℕ). x) offsets.now }
    requires sized { (b : ℕ) → IfSome (first_of b sized.now) (λ s. 0 < s.unit_bytes) }
    ensures { OnOk result (units.new.items ≡ units.old.items ++ flat_map (units_of_part offsets.now sized.now) parts.now) }
{
    for part in parts {
        if let (Some(zone), Some(stream)) = (part.zone, sized.first_of(part.body_sid)) {
            add_units_in(units, offsets, zone, stream)?;
        }
    }
    Ok(())
}

/// All of them, in their order. They take memory.
pub(super) fn asked_units(
    alloc: Global,
    views: &Views,
    parts: &[StreamPart],
    sized: &StreamIndexes,
) -> Result<Vec<Unit>, OutOfMemory>
    requires { sized.now ≡ stream_indexes (sized_segments views.now) }
    ensures { IfOk result (λ v. v.items ≡ asked_units views.now parts.now) }
{
    views.catalogue().laws();
    let mut units = listed_in(alloc, views)?;
    add_all_borders(&mut units, views)?;
    let offsets = packet_offsets(alloc, views.catalogue())?;
    add_units_of_parts(&mut units, &offsets, parts, sized)?;
    sort_once(&mut units);
    Ok(units)
}
