//! The edit units that are wanted of an index.
ghost use Rattle.std.specs.Prelude.{◌≡◌, ◌+◌, ◌<◌, ◌≤◌, ◌^◌, ◌∷◌, [], IfOk};
ghost use Rattle.std.specs.List.{AllByRecursion};
ghost use Rattle.std.specs.Ordering.{nat_cmp};
ghost use Rattle.mxf_klv.specs.Rising.{IsRising};
ghost use Rattle.mxf_views.specs.Rises.{RiseBy};
ghost use Rattle.mxf_units.specs.Ranges.{units_with_keys};
ghost use Rattle.mxf_units.specs.Units.{unit_of};
ghost use Rattle.mxf_partial.specs.Many.{ends_wanted};
ghost use Rattle.mxf_partial.specs.Questions.{asked_by, questions_of};
ghost use Rattle.mxf_partial.specs.Wanted.{IsOwn, wanted_in};

use crate::questions::Questions;
use mxf_klv::OutOfMemory;
use mxf_units::{EditUnit, Extent, UnitRange, Units, needed_from};
use std::alloc::Global;
use std::marker::Model;

/// The edit units that are wanted of an index, each once, rising by their numbers.
#[derive(Drop)]
pub struct WantedUnits<'a> {
    units: &'a Units<'a>,
    /// Those that are asked for: so many from a first one on.
    first: u64,
    count: u64,
    /// Those that are wanted, and what they ask for.
    questions: Questions,
    /// The bytes that are wanted in place of those of each unit, if there are some.
    bytes: Option<Extent>,
}

impl<'a> Model for WantedUnits<'a> {
    ghost use Rattle.std.specs.Prelude.{◌≡◌};
    ghost use Rattle.std.specs.List.{AllByRecursion};
    ghost use Rattle.mxf_views.specs.Rises.{RiseBy};
    ghost use Rattle.mxf_partial.specs.Questions.{asked_by};
    ghost use Rattle.mxf_partial.specs.Wanted.{IsOwn, WantedParts};

    ghost Value = { WantedParts };

    ghost view = { λ w. record {
      units = w.units.now;
      first = w.first;
      count = w.count;
      wanted = w.questions.units;
      bytes = w.bytes;
    } };

    ghost invariant = { λ w. RiseBy (λ u. u.number) w.questions.units
        × AllByRecursion (IsOwn w.units.now) w.questions.units
        × (w.questions ≡ asked_by w.units.now w.questions.units) };
}

impl<'a> WantedUnits<'a> {
    /// The units of a range, and those before them from the least key frame on that they name. They take memory.
    pub fn of_range(
        alloc: Global,
        units: &'a Units<'a>,
        range: UnitRange,
    ) -> Result<WantedUnits<'a>, OutOfMemory>
        ensures { IfOk result (λ w. w ≡ wanted_in units.now range.first range.count) }
    {
        let first = range.first();
        let count = range.count();
        let questions = with_keys(alloc, units, first, count)?;
        Ok(WantedUnits {
            units,
            first,
            count,
            questions,
            bytes: None,
        })
    }

    /// The first and the last of many units, and the bytes that are wanted in place of theirs, if there are some. They
    /// take memory.
    pub(crate) fn of_ends(
        alloc: Global,
        units: &'a Units<'a>,
        first: u64,
        last: u64,
        bytes: Option<Extent>,
    ) -> Result<WantedUnits<'a>, OutOfMemory>
        requires order { first < last }
        requires number { last < 2 ^ 63 }
        ensures { IfOk result (λ w. w ≡ ends_wanted units.now first last bytes) }
    {
        let questions = of_two(alloc, units, first, last)?;
        Ok(WantedUnits {
            units,
            first,
            count: last - first + 1,
            questions,
            bytes,
        })
    }

    /// All units of the index.
    pub fn units(&self) -> &'a Units<'a>
        ensures { result.now ≡ self.now.units }
    {
        self.units
    }

    /// The first of those that are asked for.
    pub fn first(&self) -> u64
        ensures { result ≡ self.now.first }
    {
        self.first
    }

    /// How many are asked for.
    pub fn count(&self) -> u64
        ensures { result ≡ self.now.count }
    {
        self.count
    }

    /// The units that are wanted, rising by their numbers.
    pub fn wanted(&self) -> &[EditUnit]
        ensures is { result.now ≡ self.now.wanted }
        ensures rising { RiseBy (λ u. u.number) result.now }
        ensures own { AllByRecursion (IsOwn self.now.units) result.now }
    {
        self.questions.units()
    }

    /// The wanted units, and what they ask for.
    pub(crate) fn questions(&self) -> &Questions
        ensures are { result.now ≡ questions_of self.now }
        ensures rising { IsRising nat_cmp result.now.unindexed }
    {
        &self.questions
    }

    /// The bytes that are wanted in place of those of each unit, if there are some.
    pub(crate) fn bytes(&self) -> Option<Extent>
        ensures { result ≡ self.now.bytes }
    {
        self.bytes
    }
}

/// So many units from one on, those before them from the least key frame on that they name, and what they ask for. They
/// take memory.
fn with_keys(
    alloc: Global,
    units: &Units<'_>,
    first: u64,
    count: u64,
) -> Result<Questions, OutOfMemory>
    requires { first + count ≤ 9223372036854775808 }
    ensures { IfOk result (λ q. q ≡ asked_by units.now (units_with_keys units.now first count)) }
{
    let own = Questions::of(alloc, units, first, count)?;
    let from = needed_from(first, own.units());
    if from == first {
        return Ok(own);
    }
    let mut all = Questions::of(alloc, units, from, first - from)?;
    all.append(&own)?;
    Ok(all)
}

/// Two units, and what they ask for. They take memory.
fn of_two(alloc: Global, units: &Units<'_>, first: u64, last: u64) -> Result<Questions, OutOfMemory>
    ensures { IfOk result (λ q. q ≡ asked_by units.now (unit_of units.now.known units.now.index_sid first
        ∷ unit_of units.now.known units.now.index_sid last ∷ [])) }
{
    let mut asked = Questions::with_room(alloc, 2)?;
    asked.add(units, first)?;
    asked.add(units, last)?;
    Ok(asked)
}
