//! The edit units of a reference beside sources.
ghost use Rattle.std.specs.Prelude.{◌≡◌, ◌↔◌, ◌+◌, ◌++◌, ◌<◌, ◌≤◌, ◌^◌, ℕ, [], IfOk, IsTrue, List, OnOk, Option};
ghost use Rattle.std.specs.Prelude.{filter};
ghost use Rattle.std.specs.List.{cons_option};
ghost use Rattle.mxf_klv.specs.Parts.{NoteParts};
ghost use Rattle.mxf_klv.specs.Rising.{In, SameMembers};
ghost use Rattle.mxf_catalogue.specs.Runs.{LiesIn};
ghost use Rattle.mxf_catalogue.specs.declared.run.Run.{Run};
ghost use Rattle.mxf_units.specs.Units.{UnitsParts, unit_of};
ghost use Rattle.mxf_verify.specs.Fixities.{AreUnitRuns, AreUnitsOf, AreVerifiedUnits, HasEachByte, IsFixityIn};
ghost use Rattle.mxf_verify.specs.Fixities.{IsFixityOf, LiesWholeIn, Meets, VerifiedUnitsParts, is_verified, place_of};
ghost use Rattle.mxf_verify.specs.Fixities.{places_of, units_in};
ghost use Rattle.mxf_verify.specs.Verifications.{IsVerification, VerificationParts};
ghost use Rattle.mxf_verify.specs.Verifying.{IsVerifiedByte, Source};
ghost use Rattle.mxf_verify.specs.declared.fixity.UnitFixity.TheVariants.{Verified};
ghost use Rattle.mxf_verify.specs.declared.unit_places.UnitPlace.{UnitPlace};
ghost use Rattle.mxf_verify.specs.declared.unit_places.UnitSpan.{UnitSpan};
ghost use Rattle.mxf_verify.specs.UnitRuns.{AreCounted, TakesUnit};

use crate::fixity::UnitFixity;
use crate::unit_places::{UnitPlace, UnitPlaces, UnitSpan, cut_end};
use crate::verification::Verification;
use mxf_catalogue::Cover;
use mxf_klv::{Note, OutOfMemory};
use mxf_units::{EditUnit, Extent, Units};
use std::alloc::Global;
use std::marker::Model;

/// Edit units that follow one another and stand alike beside sources.
#[derive(Clone, Copy, Debug, PartialEq, Eq)]
pub struct UnitRun {
    /// The number of the first unit. Units are counted from 0 as they are stored.
    pub first: u64,
    /// The number of the last.
    pub last: u64,
    pub fixity: UnitFixity,
}

/// The edit units from one up to another of an index of the reference, beside sources: how each stands, and which a
/// packet has a byte of (this project's profile).
pub struct VerifiedUnits {
    runs: Vec<UnitRun>,
    places: UnitPlaces,
}

// Written out, a drop is one call wherever verified units are let go.
impl Drop for VerifiedUnits {
    fn drop(self) {
        let VerifiedUnits {
            runs: _runs,
            places: _places,
        } = self;
    }
}

impl Model for VerifiedUnits {
    ghost use Rattle.mxf_verify.specs.Fixities.{VerifiedUnitsParts};
    ghost use Rattle.mxf_verify.specs.UnitRuns.{AreCounted};

    ghost Value = { VerifiedUnitsParts };

    ghost view = { λ v. record { runs = v.runs.items; places = v.places } };

    ghost invariant = { λ v. AreCounted v.runs.items };
}

impl VerifiedUnits {
    /// The units from one up to another of the index that is asked. It takes memory: n log n of them, as its time does.
    pub fn of(
        alloc: Global,
        verification: &Verification<'_>,
        units: &Units<'_>,
        from: u64,
        to: u64,
    ) -> Result<VerifiedUnits, OutOfMemory>
        requires order { from ≤ to }
        requires bound { to + 1 < 2 ^ 64 }
        ensures { IfOk result (AreVerifiedUnits verification.now.verified verification.now.altered units.now from to) }
    {
        let verified = verification.verified();
        let (runs, places) = gathered(alloc, verified, verification.altered(), units, from, to)?;
        let places = UnitPlaces::of(alloc, places)?;
        Ok(VerifiedUnits { runs, places })
    }

    /// The units in maximal runs of units that stand alike, in their order.
    pub fn runs(&self) -> &[UnitRun]
        ensures { result.now ≡ self.now.runs }
    {
        self.runs.as_slice()
    }

    /// How many units there are.
    pub fn count(&self) -> u64
        ensures { result ≡ units_in self.now.runs }
    {
        units_in(&self.runs)
    }

    /// How many of them are verified.
    pub fn verified(&self) -> u64
        ensures { result ≡ units_in (filter (λ r. is_verified r.fixity) self.now.runs) }
    {
        verified_in(&self.runs)
    }

    /// The units that a note holds a byte of: the least with the first place by its beginning, and the greatest with
    /// the last by its end. Two binary searches.
    pub fn units_of(&self, note: &Note) -> Option<UnitSpan>
        ensures { AreUnitsOf self.now.places note.now result }
    {
        self.places.units_of(note)
    }
}

/// The units from one up to another in maximal runs, and the places of those of them whose place is given.
fn gathered(
    alloc: Global,
    verified: &Cover,
    altered: &Cover,
    units: &Units<'_>,
    from: u64,
    to: u64,
) -> Result<(Vec<UnitRun>, Vec<UnitPlace>), OutOfMemory>
    requires order { from ≤ to }
    requires bound { to + 1 < 2 ^ 64 }
    ensures runs { IfOk result (λ v. AreUnitRuns
        (λ unit fixity. IsFixityOf verified.now altered.now (unit_of units.now.known units.now.index_sid unit) fixity)
        from to v.0.items) }
    ensures places { IfOk result (λ v. v.1.items ≡ places_of units.now.known units.now.index_sid from to) }
{
    let mut runs = Vec::new(alloc);
    let mut places = Vec::new(alloc);
    let first = units.unit(from);
    add_place(&mut places, first)?;
    let mut last = UnitRun {
        first: from,
        last: from,
        fixity: fixity_of(verified, altered, first),
    };
    for number in from + 1..to + 1 {
        let unit = units.unit(number);
        add_place(&mut places, unit)?;
        last = with_unit(&mut runs, last, number, fixity_of(verified, altered, unit))?;
    }
    runs.push(last)?;
    Ok((runs, places))
}

/// Adds where the unit lies, if that is given.
fn add_place(places: &mut Vec<UnitPlace>, unit: EditUnit) -> Result<(), OutOfMemory>
    ensures { OnOk result (places.new.items ≡ places.old.items ++ cons_option (place_of unit) []) }
{
    if let Some(extent) = unit.extent {
        places.push(UnitPlace {
            unit: unit.number,
            extent,
        })?;
    }
    Ok(())
}

/// The last run with the unit of a number after it, or that unit as a run after it.
fn with_unit(
    runs: &mut Vec<UnitRun>,
    last: UnitRun,
    number: u64,
    fixity: UnitFixity,
) -> Result<UnitRun, OutOfMemory>
    ensures { IfOk result (TakesUnit runs.old.items last number fixity runs.new.items) }
{
    let mut first = last.first;
    if !is_same(last.fixity, fixity) {
        runs.push(last)?;
        first = number;
    }
    Ok(UnitRun {
        first,
        last: number,
        fixity,
    })
}

/// Whether units stand alike.
fn is_same(fixity: UnitFixity, other: UnitFixity) -> bool
    ensures { IsTrue result ↔ (fixity ≡ other) }
{
    fixity == other
}

/// How a unit stands beside the verified bytes and those that differ.
fn fixity_of(verified: &Cover, altered: &Cover, unit: EditUnit) -> UnitFixity
    ensures { IsFixityOf verified.now altered.now unit result }
{
    match unit.extent {
        Some(extent) => fixity_in(verified, altered, extent),
        None => UnitFixity::Unplaced(unit.standing),
    }
}

/// The same of an extent.
fn fixity_in(verified: &Cover, altered: &Cover, extent: Extent) -> UnitFixity
    ensures { IsFixityIn verified.now altered.now extent result }
{
    if meets(altered, extent) {
        return UnitFixity::Differs;
    }
    if !meets(verified, extent) {
        return UnitFixity::Unverified;
    }
    if lies_whole_in(verified, extent) {
        UnitFixity::Verified
    } else {
        UnitFixity::Part
    }
}

/// Whether a byte of the extent, or its first if it isn't known where it ends, lies in the cover.
fn meets(cover: &Cover, extent: Extent) -> bool
    ensures { IsTrue result ↔ Meets cover.now extent }
{
    // What lies in the cover lies below its end.
    let end = u128::from(cover.end());
    extent.start < end && cover.meets(extent.start as u64, cut_end(extent).min(end) as u64)
}

/// Whether it is known where the extent ends, and all its bytes lie in the cover.
fn lies_whole_in(cover: &Cover, extent: Extent) -> bool
    ensures { IsTrue result ↔ LiesWholeIn cover.now extent }
{
    match extent.end {
        Some(end) => has_all(cover, extent.start, end),
        None => false,
    }
}

/// Whether all offsets from one up to another, in bytes, lie in the cover.
fn has_all(cover: &Cover, start: u128, end: u128) -> bool
    ensures { IsTrue result ↔ ((at : ℕ) → start ≤ at → at < end → LiesIn cover.now at) }
{
    if end <= start {
        return true;
    }
    end <= u128::from(cover.end()) && cover.has_all(start as u64, end as u64)
}

/// How many units the runs have.
fn units_in(runs: &[UnitRun]) -> u64
    requires { AreCounted runs.now }
    ensures { result ≡ units_in runs.now }
{
    let mut units = 0;
    for run in runs {
        units += run.last - run.first + 1;
    }
    units
}

/// How many units the verified ones of the runs have.
fn verified_in(runs: &[UnitRun]) -> u64
    requires { AreCounted runs.now }
    ensures { result ≡ units_in (filter (λ r. is_verified r.fixity) runs.now) }
{
    let mut units = 0;
    for run in runs {
        if is_verified(run.fixity) {
            units += run.last - run.first + 1;
        }
    }
    units
}

/// Whether units that stand so are verified.
fn is_verified(fixity: UnitFixity) -> bool
    ensures { result ≡ is_verified fixity }
{
    matches!(fixity, UnitFixity::Verified)
}

/// A law of [`VerifiedUnits`]: the runs of the same units are one list, and a packet has one first and one last unit at
/// most, in whatever order the places are known.
pub fn one_account_of_units()
    ensures runs { (verified altered : List Run) (units : UnitsParts) (from to : ℕ) (a b : VerifiedUnitsParts)
        → AreVerifiedUnits verified altered units from to a → AreVerifiedUnits verified altered units from to b
        → a.runs ≡ b.runs }
    ensures spans { (places others : List UnitPlace) (n : NoteParts) (a b : Option UnitSpan)
        → SameMembers places others → AreUnitsOf places n a → AreUnitsOf others n b → a ≡ b }
{}

/// A law of [`VerifiedUnits`]: it is known where a verified unit lies and ends, and each byte of it is one of a note
/// that some source has as the reference says.
pub fn verified_units_have_verified_bytes()
    ensures { (reference : List NoteParts) (sources : List Source) (v : VerificationParts) (units : UnitsParts)
        (from to : ℕ) (told : VerifiedUnitsParts) (r : UnitRun) (unit : ℕ) → IsVerification reference sources v
        → AreVerifiedUnits v.verified v.altered units from to told → In r told.runs → r.fixity ≡ Verified
        → r.first ≤ unit → unit ≤ r.last
        → HasEachByte (IsVerifiedByte reference sources) (unit_of units.known units.index_sid unit) }
{}
