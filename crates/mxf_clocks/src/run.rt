//! Runs of positions that a clock numbers.
ghost use Rattle.std.specs.Prelude.{◌≡◌, ◌<◌, ◌^◌, ◌+◌, IfSome};
ghost use Rattle.mxf_tracks.specs.Timecodes.{labels_of_day, number_in_day};
ghost use Rattle.mxf_clocks.specs.Moments.{moment_of, moved};
ghost use Rattle.mxf_clocks.specs.Runs.{below_zero, from_zero, is_none_left, number_after, number_at, run_from, without};

mod order;
mod timecodes;

use crate::clock_track::ClockTrack;
use crate::fraction::Fraction;
use mxf_tracks::labels_of_day;
use mxf_views::GREATEST_UNIT;
use std::marker::Model;

/// Positions of an index, one behind another, with the timecodes that a clock gives them.
///
/// Runs are in order by their IndexSIDs, then by first position, number, count (none last), base, not drop before drop,
/// and then by how the numbers go on.
#[derive(Debug, Drop)]
pub struct Run {
    index_sid: u32,
    position: u64,
    count: Option<u128>,
    number: u64,
    base: u16,
    is_drop: bool,
    step: Fraction,
    passed: u64,
}

impl Model for Run {
    ghost use Rattle.mxf_clocks.specs.Runs.{IsRun, RunParts};

    ghost Value = { RunParts };

    ghost view = { λ r. record {
      index_sid = r.index_sid;
      position = r.position;
      count = r.count;
      number = r.number;
      base = r.base;
      is_drop = r.is_drop;
      step = r.step;
      passed = r.passed;
    } };

    ghost invariant = { λ r. IsRun record {
      index_sid = r.index_sid;
      position = r.position;
      count = r.count;
      number = r.number;
      base = r.base;
      is_drop = r.is_drop;
      step = r.step;
      passed = r.passed;
    } };
}

/// The number within the day of a number that may be of another one.
fn number_in_day(number: i64, base: u16, is_drop: bool) -> u64
    requires { 0 < base }
    ensures { result ≡ number_in_day number base is_drop }
{
    let labels = labels_of_day(base, is_drop) as i64;
    number.rem_euclid(labels).unsigned_abs()
}

/// Where a clock stands: its number within the day, and how much of it has gone by, in parts of a timecode.
#[derive(Clone, Copy)]
struct Moment {
    number: u64,
    passed: u64,
}

/// The moment so many units later, if a day has so many labels.
fn moved(labels: u64, step: Fraction, at: Moment, units: u128) -> Moment
    requires day { 0 < labels }
    requires few { labels < 2 ^ 33 }
    requires parts { 0 < step.denominator }
    ensures moved { result ≡ moved labels step at units }
    ensures number { result.number < labels }
    ensures passed { result.passed < step.denominator }
{
    let parts = u128::from(step.denominator);
    let numerator = u128::from(step.numerator);
    let labels = u128::from(labels);
    let whole = (units / parts % labels) * (numerator % labels);
    let rest = u128::from(at.passed) + units % parts * numerator;
    let number = u128::from(at.number) + whole + rest / parts;
    Moment {
        number: (number % labels) as u64,
        passed: (rest % parts) as u64,
    }
}

/// How many positions from this one on lie below 0.
fn below_zero(first: i128) -> u128
    ensures { result ≡ below_zero first }
{
    if first < 0 { first.unsigned_abs() } else { 0 }
}

/// The position, or 0 for one below it.
fn from_zero(first: i128) -> u128
    ensures { result ≡ from_zero first }
{
    if first < 0 { 0 } else { first.unsigned_abs() }
}

/// Whether a count is 0.
fn is_none_left(count: Option<u128>) -> bool
    ensures { result ≡ is_none_left count }
{
    match count {
        Some(count) => count == 0,
        None => false,
    }
}

/// A count without those that are lost.
fn without(lost: u128, count: Option<u128>) -> Option<u128>
    ensures { result ≡ without lost count }
{
    Some(count?.saturating_sub(lost))
}

/// Where a clock stands so many units behind its start, and then some more.
fn moment_of(clock: &ClockTrack, step: Fraction, start: u128, more: u128) -> Moment
    requires base { 0 < clock.now.base }
    requires parts { 0 < step.denominator }
    ensures moment { result ≡ moment_of clock.now step (start + more) }
    ensures number { result.number < labels_of_day clock.now.base clock.now.is_drop }
    ensures passed { result.passed < step.denominator }
{
    let labels = labels_of_day(clock.base, clock.is_drop);
    let number = number_in_day(clock.start, clock.base, clock.is_drop);
    let moment = moved(labels, step, Moment { number, passed: 0 }, start);
    moved(labels, step, moment, more)
}

/// The run that begins at a first position, so many units behind the start of the clock, without the positions below 0.
#[tactic(auto, unfolding(crate::specs::Runs::run_from))]
pub(crate) fn run_from(
    index_sid: u32,
    clock: &ClockTrack,
    step: Fraction,
    first: i128,
    start: u128,
    count: Option<u128>,
) -> Option<Run>
    requires base { 0 < clock.now.base }
    requires parts { 0 < step.denominator }
    ensures { result ≡ run_from index_sid clock.now step first start count }
{
    let lost = below_zero(first);
    let position = from_zero(first);
    let count = without(lost, count);
    if position > u128::from(GREATEST_UNIT) || is_none_left(count) {
        return None;
    }
    let moment = moment_of(clock, step, start, lost);
    Some(Run {
        index_sid,
        position: position as u64,
        count,
        number: moment.number,
        base: clock.base,
        is_drop: clock.is_drop,
        step,
        passed: moment.passed,
    })
}

impl Run {
    /// The IndexSID of the index whose positions these are.
    pub fn index_sid(&self) -> u32
        ensures { result ≡ self.now.index_sid }
    {
        self.index_sid
    }

    /// The first position, at most the greatest edit unit.
    pub fn position(&self) -> u64
        ensures { result ≡ self.now.position }
    {
        self.position
    }

    /// How many positions it has, at least 1. None if it has no end.
    pub fn count(&self) -> Option<u128>
        ensures { result ≡ self.now.count }
    {
        self.count
    }

    /// The number of the first position: how many labels come before its own since midnight.
    pub fn number(&self) -> u64
        ensures { result ≡ self.now.number }
    {
        self.number
    }

    /// Frames in a second by which numbers have labels, above 0.
    pub fn base(&self) -> u16
        ensures { result ≡ self.now.base }
    {
        self.base
    }

    /// Whether labels are left out.
    pub fn is_drop(&self) -> bool
        ensures { result ≡ self.now.is_drop }
    {
        self.is_drop
    }

    /// How many timecodes go by in an edit unit.
    pub fn step(&self) -> Fraction
        ensures { result ≡ self.now.step }
    {
        self.step
    }

    /// How much of the first number has gone by at the first position: so many parts of a timecode, of which the
    /// denominator of [`Run::step`] are one.
    pub fn passed(&self) -> u64
        ensures { result ≡ self.now.passed }
    {
        self.passed
    }

    /// The number so many units behind the first position.
    fn number_after(&self, units: u128) -> u64
        ensures number { result ≡ number_after self.now units }
        ensures within { result < labels_of_day self.now.base self.now.is_drop }
    {
        let at = Moment {
            number: self.number,
            passed: self.passed,
        };
        let labels = labels_of_day(self.base, self.is_drop);
        moved(labels, self.step, at, units).number
    }

    /// The number of a position: how many labels come before its own since midnight. None if the run hasn't the
    /// position.
    pub fn number_at(&self, position: u64) -> Option<u64>
        ensures number { result ≡ number_at self.now position }
        ensures within { IfSome result (λ n. n < labels_of_day self.now.base self.now.is_drop) }
    {
        let units = u128::from(position.checked_sub(self.position)?);
        match self.count {
            Some(count) if count <= units => None,
            _ => Some(self.number_after(units)),
        }
    }
}
