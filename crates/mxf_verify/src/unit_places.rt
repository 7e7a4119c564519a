//! Where edit units lie, searched by what a note holds.
ghost use Rattle.std.specs.Prelude.{◌≡◌, ◌↔◌, ◌<◌, ◌≤◌, ◌-◌, IfOk, List, Option, length};
ghost use Rattle.std.specs.List.{AllWithin};
ghost use Rattle.std.specs.List.Sorted.{IsNonDecreasing};
ghost use Rattle.mxf_klv.specs.Parts.{NoteParts};
ghost use Rattle.mxf_klv.specs.Rising.{SameMembers};
ghost use Rattle.mxf_verify.specs.Fixities.{AreUnitsOf};
ghost use Rattle.mxf_units.specs.Intervals.{greatest_ends};
ghost use Rattle.mxf_verify.specs.TouchedUnits.{units_touched};
ghost use Rattle.mxf_verify.specs.Touching.{AreInOrder, BeginsBy, EndsBy, IsFirstAbove, back_of, cut_end, reach_of};

use mxf_klv::{Note, OutOfMemory};
use mxf_units::Extent;
use std::alloc::Global;
use std::marker::Model;

/// The first and the last edit unit that a packet has a byte of.
#[derive(Clone, Copy, Debug, PartialEq, Eq)]
pub struct UnitSpan {
    pub first: u64,
    pub last: u64,
}

/// Where an edit unit lies.
#[derive(Clone, Copy)]
pub(crate) struct UnitPlace {
    pub unit: u64,
    pub extent: Extent,
}

/// The places of edit units, by where they begin and by where they end.
pub(crate) struct UnitPlaces {
    /// By where they begin.
    firsts: Vec<UnitPlace>,
    /// Beside each, how far those up to it reach.
    reaches: Vec<u128>,
    /// By where they end, from the last on.
    lasts: Vec<UnitPlace>,
    /// Beside each, how soon one of those up to it begins.
    backs: Vec<u128>,
}

// Written out, a drop is one call wherever the places are let go.
impl Drop for UnitPlaces {
    fn drop(self) {
        let UnitPlaces {
            firsts: _firsts,
            reaches: _reaches,
            lasts: _lasts,
            backs: _backs,
        } = self;
    }
}

impl Model for UnitPlaces {
    ghost use Rattle.std.specs.Prelude.{List};
    ghost use Rattle.mxf_verify.specs.Touching.{AreSearched};
    ghost use Rattle.mxf_verify.specs.declared.unit_places.UnitPlace.{UnitPlace};

    ghost Value = { List UnitPlace };

    ghost view = { λ p. p.firsts.items };

    ghost invariant = { λ p. AreSearched p.firsts.items p.reaches.items p.lasts.items p.backs.items };
}

impl UnitPlaces {
    /// The places. They take memory, and n log n of them time.
    pub(crate) fn of(alloc: Global, places: Vec<UnitPlace>) -> Result<UnitPlaces, OutOfMemory>
        ensures { IfOk result (λ p. SameMembers p places.items) }
    {
        let firsts = by_start(places);
        let lasts = by_end(Vec::from_slice(alloc, &firsts)?);
        let reaches = reaches(alloc, &firsts)?;
        let backs = backs(alloc, &lasts)?;
        Ok(UnitPlaces {
            firsts,
            reaches,
            lasts,
            backs,
        })
    }

    /// The units that a note holds a byte of: the least with the first place by its beginning, and the greatest with
    /// the last by its end. Two binary searches.
    pub(crate) fn units_of(&self, note: &Note) -> Option<UnitSpan>
        ensures { AreUnitsOf self.now note.now result }
    {
        let end = u128::from(note.covered_end());
        let first = first_above(&self.firsts, &self.reaches, u128::from(note.offset()))?;
        if first.extent.start >= end {
            return None;
        }
        let last = first_above(&self.lasts, &self.backs, u128::MAX - end)?;
        Some(UnitSpan {
            first: first.unit,
            last: last.unit,
        })
    }
}

/// Up to where the bytes are asked about: to their end, or to the first alone.
pub(crate) fn cut_end(extent: Extent) -> u128
    ensures { result ≡ cut_end extent }
{
    extent.end.unwrap_or(extent.start.saturating_add(1))
}

/// The same of a place that has a byte; 0 of another.
fn reach_of(place: &UnitPlace) -> u128
    ensures { result ≡ reach_of place.now }
{
    let end = cut_end(place.extent);
    if place.extent.start < end { end } else { 0 }
}

/// The places by where they begin, then by their units.
fn by_start(mut places: Vec<UnitPlace>) -> Vec<UnitPlace>
    ensures order { AreInOrder BeginsBy result.items }
    ensures members { SameMembers result.items places.items }
{
    places.sort_unstable_by_key(|place| (place.extent.start, place.unit));
    places
}

/// The places by where they end, from the last on, then by their units, from the greatest on.
fn by_end(mut places: Vec<UnitPlace>) -> Vec<UnitPlace>
    ensures order { AreInOrder EndsBy result.items }
    ensures members { SameMembers result.items places.items }
{
    places.sort_unstable_by_key(|place| (reach_of(place), place.unit));
    places.reverse();
    places
}

/// How far each place and those ahead of it reach.
fn reaches(alloc: Global, places: &[UnitPlace]) -> Result<Vec<u128>, OutOfMemory>
    ensures { IfOk result (λ v. v.items ≡ greatest_ends reach_of 0 places.now) }
{
    let reaches = places.iter().scan(0, |greatest, place| {
        *greatest = (*greatest).max(reach_of(place));
        Some(*greatest)
    });
    Ok(reaches.collect(alloc)?)
}

/// How soon each place or one ahead of it begins: the sooner, the greater the number.
fn backs(alloc: Global, places: &[UnitPlace]) -> Result<Vec<u128>, OutOfMemory>
    ensures { IfOk result (λ v. v.items ≡ greatest_ends back_of 0 places.now) }
{
    let backs = places.iter().scan(0, |greatest, place| {
        *greatest = (*greatest).max(u128::MAX - place.extent.start);
        Some(*greatest)
    });
    Ok(backs.collect(alloc)?)
}

/// How many of the numbers, which rise, lie at or below the bound.
fn count_up_to(numbers: &[u128], bound: u128) -> usize
    requires { IsNonDecreasing numbers.now }
    ensures bound { result ≤ length numbers.now }
    ensures below { AllWithin (λ n. n ≤ bound) numbers.now 0 result }
    ensures above { AllWithin (λ n. bound < n) numbers.now result (length numbers.now) }
{
    numbers.partition_point(|number| *number <= bound)
}

/// The first of the places beside which a number above the bound stands.
fn first_above(places: &[UnitPlace], numbers: &[u128], bound: u128) -> Option<UnitPlace>
    requires rising { IsNonDecreasing numbers.now }
    requires length { length places.now ≡ length numbers.now }
    ensures { IsFirstAbove places.now numbers.now bound result }
{
    places.get(count_up_to(numbers, bound)).copied()
}

/// A law of [`VerifiedUnits::units_of`](crate::VerifiedUnits::units_of): a note has exactly one answer, which is found
/// by going through the places.
pub fn touched_units_by_definition()
    ensures { (places : List UnitPlace) (n : NoteParts) (span : Option UnitSpan)
        → AreUnitsOf places n span ↔ (span ≡ units_touched places n) }
{}
