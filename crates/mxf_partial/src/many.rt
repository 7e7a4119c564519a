//! Edit units that are more than are listed one by one.
ghost use Rattle.std.specs.Prelude.{◌≡◌, ◌↔◌, ◌+◌, ◌≤◌, ℕ, IfOk, IsTrue, Option};
ghost use Rattle.mxf_units.specs.Extents.{IsTold};
ghost use Rattle.mxf_units.specs.Units.{UnitsParts, unit_of};
ghost use Rattle.mxf_partial.specs.Many.{AreMany, ManyParts, span_of};

use crate::wanted::reach_of;
use crate::wanted_units::WantedUnits;
use mxf_klv::OutOfMemory;
use mxf_units::{EvenUnits, Extent, UnitCounts, Units, lists_units};
use std::alloc::Global;
use std::marker::Model;

/// The greatest edit unit: segments state theirs as signed numbers of eight bytes.
const GREATEST_UNIT: u64 = 9_223_372_036_854_775_807;

/// Edit units from a first one up to a later one, however many: what is wanted of them, and how many are held and at
/// hand.
#[derive(Drop)]
pub struct ManyUnits<'a> {
    wanted: WantedUnits<'a>,
    counts: UnitCounts,
}

impl<'a> Model for ManyUnits<'a> {
    ghost use Rattle.std.specs.Prelude.{◌+◌, ◌≤◌};
    ghost use Rattle.mxf_partial.specs.Many.{ManyParts};

    ghost Value = { ManyParts };

    ghost view = { λ m. record { wanted = m.wanted; counts = m.counts } };

    ghost invariant = { λ m. m.counts.held + m.counts.hand ≤ m.wanted.count };
}

impl<'a> ManyUnits<'a> {
    /// The units of an index from one up to a later one, if no segment of it lists units. As long as it isn't given where
    /// these two lie, they alone are wanted, and none is counted. Then all that lies from the first up to the end of
    /// the last is wanted, if all of them lie side by side; otherwise there are none.
    pub fn of(
        alloc: Global,
        units: &'a Units<'a>,
        first: u64,
        last: u64,
    ) -> Result<Option<ManyUnits<'a>>, OutOfMemory>
        ensures { IfOk result (AreMany units.now first last) }
    {
        if last <= first || last > GREATEST_UNIT || lists_units(units) {
            return Ok(None);
        }
        if !is_told(units, first) || !is_told(units, last) {
            let wanted = WantedUnits::of_ends(alloc, units, first, last, None)?;
            let counts = UnitCounts { held: 0, hand: 0 };
            return Ok(Some(ManyUnits { wanted, counts }));
        }
        let Some(even) = EvenUnits::of(units, first, last) else {
            return Ok(None);
        };
        let wanted = WantedUnits::of_ends(alloc, units, first, last, span_of(units, first, last))?;
        let counts = even.counts();
        Ok(Some(ManyUnits { wanted, counts }))
    }

    /// What is wanted of them.
    pub fn wanted(&self) -> &WantedUnits<'a>
        ensures { result.now ≡ self.now.wanted }
    {
        &self.wanted
    }

    /// How many of them are held, and how many others at hand; none as long as it isn't given where they lie.
    pub fn counts(&self) -> UnitCounts
        ensures counts { result ≡ self.now.counts }
        ensures bound { result.held + result.hand ≤ self.now.wanted.count }
    {
        self.counts
    }
}

/// Whether it is given where a unit lies.
fn is_told(units: &Units<'_>, unit: u64) -> bool
    ensures { IsTrue result ↔ IsTold (unit_of units.now.known units.now.index_sid unit).standing }
{
    units.unit(unit).extent.is_some()
}

/// From where one unit begins up to where the bytes of another may reach, if it is known where both lie.
fn span_of(units: &Units<'_>, first: u64, last: u64) -> Option<Extent>
    ensures { result ≡ span_of units.now first last }
{
    let first = units.location(first).ok()?;
    let last = units.location(last).ok()?;
    Some(Extent {
        start: first.extent.start,
        end: reach_of(last),
    })
}

/// A law of [`ManyUnits::of`]: of so many units one thing alone is wanted, and one count is told.
pub fn one_many()
    ensures { (u : UnitsParts) (first last : ℕ) (a b : Option ManyParts) → AreMany u first last a → AreMany u first last b
        → a ≡ b }
{}
