//! The timecodes that units show.
ghost use Rattle.std.specs.Prelude.{◌≡◌, ◌↔◌, ℕ, IfOk, List, Some};
ghost use Rattle.mxf_tracks.specs.declared.timecode.Timecode.{Timecode};
ghost use Rattle.mxf_clocks.specs.Runs.{RunParts};
ghost use Rattle.mxf_units.specs.Units.{UnitsParts};
ghost use Rattle.std.specs.Option.{option_and_then};
ghost use Rattle.mxf_timed.specs.Coverage.{one_timecode_at};
ghost use Rattle.mxf_timed.specs.Shown.{AreTimed, ShowsTimecode, TimedParts, timecode_shown, timecodes_shown};

use crate::coverage::Coverage;
use crate::shown::Shown;
use mxf_clocks::Run;
use mxf_klv::OutOfMemory;
use mxf_tracks::Timecode;
use mxf_units::{UnitRange, Units};
use std::alloc::Global;
use std::marker::Model;

/// The timecodes of the least and of the greatest position that some units show. None where no position is shown, or
/// where no run has it, or more than one.
#[derive(Clone, Copy, Debug, PartialEq, Eq)]
pub struct ShownEnds {
    pub first: Option<Timecode>,
    pub last: Option<Timecode>,
}

/// Which timecode each unit of a range shows: that of the one position that it stores, by the one run that has it.
pub struct ShownTimecodes<'a> {
    shown: Shown,
    coverage: Coverage<'a>,
}

// Written out, a drop is one call wherever timecodes are let go.
impl Drop for ShownTimecodes<'_> {
    fn drop(self) {
        let ShownTimecodes {
            shown: _shown,
            coverage: _coverage,
        } = self;
    }
}

impl<'a> Model for ShownTimecodes<'a> {
    ghost use Rattle.mxf_timed.specs.Shown.{TimedParts};

    ghost Value = { TimedParts };

    ghost view = { λ t. record { shown = t.shown; runs = t.coverage } };
}

impl<'a> ShownTimecodes<'a> {
    /// Those of the units of a range, by the runs of a clock. They take memory for each unit and each run, and
    /// n log n steps.
    pub fn of(
        alloc: Global,
        units: &Units<'_>,
        runs: &'a [Run],
        range: UnitRange,
    ) -> Result<ShownTimecodes<'a>, OutOfMemory>
        ensures { IfOk result (λ t. AreTimed units.now runs.now range.first range.count t) }
    {
        let shown = Shown::of(alloc, units, range)?;
        let coverage = Coverage::of(alloc, runs)?;
        Ok(ShownTimecodes { shown, coverage })
    }

    /// The timecode that a unit shows. None if it shows no position, or isn't one of the range, or if no run has the
    /// position or more than one. It takes no memory, and a binary search.
    pub fn by(&self, unit: u64) -> Option<Timecode>
        ensures { result ≡ timecode_shown self.now unit }
    {
        self.coverage.timecode_at(self.shown.by(unit)?)
    }

    /// Those of the least and the greatest position that units of the range show, from one unit up to another. It looks
    /// at each of these.
    pub fn within(&self, first: u64, last: u64) -> ShownEnds
        ensures { result ≡ timecodes_shown self.now first last }
    {
        ShownEnds {
            first: self.at(self.shown.least(first, last)),
            last: self.at(self.shown.greatest(first, last)),
        }
    }

    /// The timecode of a position, if there is one.
    fn at(&self, position: Option<u64>) -> Option<Timecode>
        ensures { result ≡ option_and_then (one_timecode_at self.now.runs) position }
    {
        self.coverage.timecode_at(position?)
    }
}

/// A law of [`ShownTimecodes::by`]: a unit of the range shows a timecode exactly if it stores one position alone, and
/// the one run that has this position gives it the timecode.
pub fn timecodes_of_units_by_definition()
    ensures { (u : UnitsParts) (runs : List RunParts) (first count : ℕ) (s : TimedParts) (unit : ℕ) (t : Timecode)
        → AreTimed u runs first count s
        → (timecode_shown s unit ≡ Some t) ↔ ShowsTimecode u runs first count unit t }
{}

/// A law of [`ShownTimecodes`]: two accounts of the same units by the same runs tell the same.
pub fn one_account_of_timecodes()
    ensures by { (u : UnitsParts) (runs : List RunParts) (first count : ℕ) (a b : TimedParts)
        → AreTimed u runs first count a → AreTimed u runs first count b
        → (unit : ℕ) → timecode_shown a unit ≡ timecode_shown b unit }
    ensures within { (u : UnitsParts) (runs : List RunParts) (first count : ℕ) (a b : TimedParts)
        → AreTimed u runs first count a → AreTimed u runs first count b
        → (from to : ℕ) → timecodes_shown a from to ≡ timecodes_shown b from to }
{}
