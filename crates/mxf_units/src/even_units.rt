//! Edit units of one size that lie side by side (ST 377-1, Edit Unit Byte Count; this project's profile).
ghost use Rattle.std.specs.Prelude.{◌≡◌, ◌↔◌, ◌+◌, ◌-◌, ◌*◌, ◌<◌, ◌≤◌, ◌^◌, ℕ, IfNone, IfSome, IsTrue, Some};
ghost use Rattle.mxf_catalogue.specs.Runs.{LiesIn};
ghost use Rattle.mxf_places.specs.Held.{IsHeld};
ghost use Rattle.std.specs.List.{list_all, list_any};
ghost use Rattle.mxf_units.specs.EvenUnits.{AreAtHandTogether, AreEven, AreHeldTogether, AreNeitherTogether};
ghost use Rattle.mxf_units.specs.EvenUnits.{EvenParts, IsCommon, counts_by, counts_of, counts_of_standing, even_location};
ghost use Rattle.mxf_units.specs.EvenUnits.{common_size, has_both, has_entries, is_of_size, lists_units, told_zone};
ghost use Rattle.mxf_units.specs.Ranges.{units_from};
ghost use Rattle.mxf_units.specs.Units.{file_offset, standing_in, unit_of};

use crate::essence_zone::EssenceZone;
use crate::location::{
    are_all_held, are_all_known, file_offset, is_any_disputed, is_any_known, is_told,
};
use crate::range::GREATEST_UNIT;
use crate::standing::UnitStanding;
use crate::units::Units;
use mxf_catalogue::Cover;
use mxf_places::Holdings;
use mxf_views::SegmentAt;
use std::marker::Model;

/// How many edit units are held, and how many others at hand.
#[derive(Clone, Copy, Debug, PartialEq, Eq)]
pub struct UnitCounts {
    pub held: u64,
    pub hand: u64,
}

/// How all of some units stand: all are held, all are at hand, or none is either.
#[derive(Clone, Copy)]
enum Common {
    Held,
    Hand,
    Neither,
}

/// Edit units of one size that lie side by side in one essence zone, from a first one up to a later one.
#[derive(Drop)]
pub struct EvenUnits<'a> {
    units: &'a Units<'a>,
    first: u64,
    last: u64,
    size: u32,
    zone: EssenceZone,
}

impl<'a> Model for EvenUnits<'a> {
    ghost use Rattle.mxf_units.specs.EvenUnits.{AreEven, EvenParts};

    ghost Value = { EvenParts };

    ghost view = { λ e. record {
      units = e.units.now;
      first = e.first;
      last = e.last;
      size = e.size;
      zone = e.zone;
    } };

    ghost invariant = { λ e. AreEven (record {
      units = e.units.now;
      first = e.first;
      last = e.last;
      size = e.size;
      zone = e.zone;
    }) };
}

impl<'a> EvenUnits<'a> {
    /// The units of an index from one up to a later one, if they lie side by side. It takes no memory, and looks at each
    /// segment of the index.
    pub fn of(units: &'a Units<'a>, first: u64, last: u64) -> Option<EvenUnits<'a>>
        ensures some { IfSome result (λ e. (e.units ≡ units.now) × ((e.first ≡ first) × (e.last ≡ last))) }
        ensures even { IfSome result AreEven }
        ensures none { IfNone result ((e : EvenParts) → e.units ≡ units.now → e.first ≡ first → e.last ≡ last
            → ¬ AreEven e) }
    {
        let segments = units.segments();
        let (size, _) = common_size(segments)?;
        let zone = told_zone(units, first)?;
        if last <= first || last > GREATEST_UNIT || size == 0 {
            return None;
        }
        if !is_told_in(units, last, zone) || !gives_both(segments, first, last) {
            return None;
        }
        Some(EvenUnits {
            units,
            first,
            last,
            size,
            zone,
        })
    }

    /// The first of them.
    pub fn first(&self) -> u64
        ensures { result ≡ self.now.first }
    {
        self.first
    }

    /// The last of them.
    pub fn last(&self) -> u64
        ensures { result ≡ self.now.last }
    {
        self.last
    }

    /// How many of them are held, and how many others at hand. It takes no memory, and n log n of the packets and runs
    /// that they lie in.
    pub fn counts(&self) -> UnitCounts
        ensures counts { result
            ≡ counts_of (units_from self.now.units self.now.first (self.now.last - self.now.first + 1)) }
        ensures bound { result.held + result.hand ≤ self.now.last - self.now.first + 1 }
    {
        let before = self.counts_from(self.first, self.last - self.first);
        let last = count_of(self.units.unit(self.last).standing);
        UnitCounts {
            held: before.held + last.held,
            hand: before.hand + last.hand,
        }
    }

    /// How many of so many of them from one on are held, and how many at hand, if the last isn't among them.
    fn counts_from(&self, from: u64, count: u64) -> UnitCounts
        requires low { self.now.first ≤ from }
        requires high { from + count ≤ self.now.last }
        ensures counts { result ≡ counts_of (units_from self.now.units from count) }
        ensures bound { result.held + result.hand ≤ count }
    {
        if count == 0 {
            return UnitCounts { held: 0, hand: 0 };
        }
        if count == 1 {
            return count_of(self.units.unit(from).standing);
        }
        if let Some(common) = self.common(from, count) {
            return counts_by(common, count);
        }
        let half = count / 2;
        let before = self.counts_from(from, half);
        let behind = self.counts_from(from + half, count - half);
        UnitCounts {
            held: before.held + behind.held,
            hand: before.hand + behind.hand,
        }
    }

    /// How so many of them from one on stand, if the last isn't among them, and if their bytes together say it.
    fn common(&self, from: u64, count: u64) -> Option<Common>
        requires low { self.now.first ≤ from }
        requires high { from + count ≤ self.now.last }
        ensures { IfSome result (λ common. (k : ℕ) → from ≤ k → k < from + count
            → IsCommon common (unit_of self.now.units.known self.now.units.index_sid k).standing) }
    {
        let units = self.units;
        let start = self.start_of(from);
        let end = self.start_of(from + count);
        if are_held(units, start, end) {
            return Some(Common::Held);
        }
        if are_at_hand(units, start, end) {
            return Some(Common::Hand);
        }
        if are_neither(units, start, end) {
            return Some(Common::Neither);
        }
        None
    }

    /// The file offset, in bytes, at which one of them begins.
    fn start_of(&self, unit: u64) -> u128
        ensures { result ≡ file_offset self.now.zone (self.now.size * unit) }
    {
        file_offset(self.zone, u128::from(self.size) * u128::from(unit))
    }
}

/// Whether a segment of the index lists units, each by an entry. It takes no memory, and looks at each segment.
pub fn lists_units(units: &Units<'_>) -> bool
    ensures { result ≡ lists_units units.now }
{
    has_entries_any(units.segments())
}

/// Whether one of the segments has an entry.
fn has_entries_any(segments: &[SegmentAt<'_>]) -> bool
    ensures { result ≡ list_any has_entries segments.now }
{
    segments.iter().any(has_entries)
}

/// Whether a segment has an entry.
fn has_entries(segment: &SegmentAt<'_>) -> bool
    ensures { result ≡ has_entries segment.now }
{
    segment.segment.entry_count() > 0
}

/// The size of units, in bytes, and the stream that all segments have, if there are segments.
fn common_size(segments: &[SegmentAt<'_>]) -> Option<(u32, u32)>
    ensures { result ≡ common_size segments.now }
{
    let numbers = segments.first()?.segment.numbers();
    let (size, body_sid) = (numbers.unit_bytes, numbers.body_sid);
    if are_of_size(segments, size, body_sid) {
        Some((size, body_sid))
    } else {
        None
    }
}

/// Whether all segments have units of a size, in bytes, in a stream.
fn are_of_size(segments: &[SegmentAt<'_>], size: u32, body_sid: u32) -> bool
    ensures { result ≡ list_all (is_of_size size body_sid) segments.now }
{
    segments
        .iter()
        .all(|segment| is_of_size(segment, size, body_sid))
}

/// Whether a segment has units of a size, in bytes, in a stream.
fn is_of_size(segment: &SegmentAt<'_>, size: u32, body_sid: u32) -> bool
    ensures { result ≡ is_of_size size body_sid segment.now }
{
    let numbers = segment.segment.numbers();
    numbers.unit_bytes == size && numbers.body_sid == body_sid
}

/// Whether one of the segments gives a place to each of two units.
fn gives_both(segments: &[SegmentAt<'_>], first: u64, last: u64) -> bool
    ensures { result ≡ list_any (has_both first last) segments.now }
{
    segments
        .iter()
        .any(|segment| has_both(segment, first, last))
}

/// Whether a segment gives a place to each of two units.
fn has_both(segment: &SegmentAt<'_>, first: u64, last: u64) -> bool
    ensures { result ≡ has_both first last segment.now }
{
    segment.segment.offset_of(first).is_some() && segment.segment.offset_of(last).is_some()
}

/// The essence zone in which a unit lies, if it is given where.
fn told_zone(units: &Units<'_>, unit: u64) -> Option<EssenceZone>
    ensures { result ≡ told_zone units.now unit }
{
    match units.location(unit) {
        Ok(location) if is_told(units.unit(unit).standing) => Some(location.zone),
        _ => None,
    }
}

/// Whether a unit lies in an essence zone, and it is given where.
fn is_told_in(units: &Units<'_>, unit: u64, zone: EssenceZone) -> bool
    ensures { IsTrue result ↔ (told_zone units.now unit ≡ Some zone) }
{
    match told_zone(units, unit) {
        Some(other) => is_same_zone(other, zone),
        None => false,
    }
}

/// Whether two essence zones are one.
fn is_same_zone(zone: EssenceZone, other: EssenceZone) -> bool
    ensures { IsTrue result ↔ (zone ≡ other) }
{
    zone == other
}

/// Whether all offsets from one up to another, in bytes, are held, none is disputed, and essence can lie at each.
fn are_held(units: &Units<'_>, from: u128, to: u128) -> bool
    ensures { IsTrue result → AreHeldTogether units.now from to }
{
    are_all_held(units.holdings(), from, to)
        && !is_any_disputed(units.holdings(), from, to)
        && !meets(units.beside(), from, to)
}

/// Whether all offsets from one up to another, in bytes, are held or at hand, and none is held.
fn are_at_hand(units: &Units<'_>, from: u128, to: u128) -> bool
    ensures { IsTrue result → AreAtHandTogether units.now from to }
{
    are_all_known(units.known(), from, to) && !is_any_held(units.holdings(), from, to)
}

/// Whether no offset from one up to another, in bytes, is held or at hand, or all are disputed, or essence can lie at
/// none.
fn are_neither(units: &Units<'_>, from: u128, to: u128) -> bool
    ensures { IsTrue result → AreNeitherTogether units.now from to }
{
    !is_any_known(units.known(), from, to)
        || has_all(units.holdings().disputed(), from, to)
        || has_all(units.beside(), from, to)
}

/// Whether an offset from one up to another, in bytes, is held.
fn is_any_held(holdings: &Holdings<'_>, from: u128, to: u128) -> bool
    ensures { IsTrue result ↔ ((at : ℕ) × IsHeld holdings.now at × (from ≤ at) × (at < to)) }
{
    let end = u128::from(holdings.held_end());
    from < end && holdings.is_any_held(from as u64, to.min(end) as u64)
}

/// Whether an offset from one up to another, in bytes, is in the set.
fn meets(set: &Cover, from: u128, to: u128) -> bool
    ensures { IsTrue result ↔ ((at : ℕ) × LiesIn set.now at × (from ≤ at) × (at < to)) }
{
    let end = u128::from(set.end());
    from < end && set.meets(from as u64, to.min(end) as u64)
}

/// Whether all offsets from one up to another, in bytes, are in the set.
fn has_all(set: &Cover, from: u128, to: u128) -> bool
    ensures { IsTrue result ↔ ((at : ℕ) → from ≤ at → at < to → LiesIn set.now at) }
{
    from >= to || (to <= u128::from(set.end()) && set.has_all(from as u64, to as u64))
}

/// How many units one that stands so is.
fn count_of(standing: UnitStanding) -> UnitCounts
    ensures counts { result ≡ counts_of_standing standing }
    ensures bound { result.held + result.hand ≤ 1 }
{
    match standing {
        UnitStanding::Held => UnitCounts { held: 1, hand: 0 },
        UnitStanding::Hand => UnitCounts { held: 0, hand: 1 },
        _ => UnitCounts { held: 0, hand: 0 },
    }
}

/// How many units so many are that stand so.
fn counts_by(common: Common, count: u64) -> UnitCounts
    ensures counts { result ≡ counts_by common count }
    ensures bound { result.held + result.hand ≤ count }
{
    match common {
        Common::Held => UnitCounts {
            held: count,
            hand: 0,
        },
        Common::Hand => UnitCounts {
            held: 0,
            hand: count,
        },
        Common::Neither => UnitCounts { held: 0, hand: 0 },
    }
}

/// A law of [`Units::unit`](crate::Units::unit): each unit but the last of some that lie side by side lies at its number
/// times their size, as far as the next one, and stands as these bytes do.
pub fn even_units_by_definition()
    ensures { (p : EvenParts) (k : ℕ) → AreEven p → p.first ≤ k → k < p.last
        → (unit_of p.units.known p.units.index_sid k).standing
        ≡ standing_in p.units.known (even_location p.zone p.size k) }
{}
