//! The positions that have a timecode.
ghost use Rattle.std.specs.Prelude.{◌≡◌, ◌↔◌, ◌≤◌, ◌<◌, ◌+◌, ◌%◌, ◌^◌, ℕ, IfSome, List, MatchOption};
ghost use Rattle.mxf_timed.specs.declared.timecode_word.TimecodeWord.{TimecodeWord};
ghost use Rattle.mxf_clocks.specs.Runs.{RunParts};
ghost use Rattle.mxf_timed.specs.declared.positions.ShownAt.{ShownAt};
ghost use Rattle.mxf_views.specs.Places.{greatest_unit};
ghost use Rattle.mxf_tracks.specs.Timecodes.{labels_of_day, number_of};
ghost use Rattle.mxf_timed.specs.Positions.{Fits, IsAnswer, IsRange, IsRangeAt, IsRangeOf, label_of};
ghost use Rattle.mxf_timed.specs.Gone.{AreNone, AreUpTo, IsLastGone, gone_after, is_several, joined};

use crate::label::{fits, number_of};
use crate::timecode_word::TimecodeWord;
use mxf_clocks::Run;
use mxf_tracks::labels_of_day;
use mxf_views::GREATEST_UNIT;

/// Where a timecode is shown, by the runs of a clock: the positions that have it, up to the greatest edit unit. They
/// are several ranges if runs differ in them, or one run comes to the timecode more than once, as one of more than a
/// day does.
#[derive(Clone, Copy, Debug, PartialEq, Eq)]
pub enum ShownAt {
    /// No position has it.
    Nowhere,
    /// The positions from the first up to the last have it, and no other. They are several where more units than
    /// timecodes go by.
    At { first: u64, last: u64 },
    /// There is more than one range of positions.
    Several,
}

/// Where the runs of a clock show a timecode. A run without end is asked for its first day alone. A word with `;` asks
/// runs alone whose labels are left out, and one with `:` asks all. In one pass over the runs.
pub fn shown_at(runs: &[Run], word: TimecodeWord) -> ShownAt
    ensures { IsAnswer (IsRange runs.now word) result }
{
    let mut found = ShownAt::Nowhere;
    for run in runs {
        found = joined(found, shown_by(run, word));
    }
    found
}

/// Where two answers lie together.
fn joined(a: ShownAt, b: ShownAt) -> ShownAt
    ensures { result ≡ joined a b }
{
    match (a, b) {
        (ShownAt::Nowhere, b) => b,
        (a, ShownAt::Nowhere) => a,
        (
            ShownAt::At { first, last },
            ShownAt::At {
                first: other,
                last: end,
            },
        ) if first == other && last == end => a,
        _ => ShownAt::Several,
    }
}

/// Whether there is more than one range.
fn is_several(found: ShownAt) -> bool
    ensures { result ≡ is_several found }
{
    matches!(found, ShownAt::Several)
}

/// Where a run shows it.
fn shown_by(run: &Run, word: TimecodeWord) -> ShownAt
    ensures { IsAnswer (IsRangeOf run.now word) result }
{
    if !fits(word, run.base(), run.is_drop()) {
        return ShownAt::Nowhere;
    }
    match most_units(run) {
        Some(most) => shown_up_to(run, word, most),
        None => ShownAt::Nowhere,
    }
}

/// How many units the last position lies behind the first, of those that can be asked for.
fn most_units(run: &Run) -> Option<u64>
    ensures most { MatchOption result (AreNone run.now) (AreUpTo run.now) }
    ensures small { IfSome result (λ most. run.now.position + most ≤ greatest_unit) }
{
    let most = GREATEST_UNIT.checked_sub(run.position())?;
    match run.count() {
        None => Some(most),
        Some(0) => None,
        Some(count) => Some(u128::from(most).min(count - 1) as u64),
    }
}

/// Where a run shows it whose label it has, if its positions go up to so many units behind the first. Each number with
/// the label is tried, until two of them are shown: where no more timecodes than units go by, those are the first two.
fn shown_up_to(run: &Run, word: TimecodeWord, most: u64) -> ShownAt
    requires fits { Fits run.now.base run.now.is_drop word }
    requires most { AreUpTo run.now most }
    requires small { run.now.position + most ≤ greatest_unit }
    ensures { IsAnswer (IsRangeOf run.now word) result }
{
    let day = labels_of_day(run.base(), run.is_drop());
    let last = last_gone(run, most, day);
    let mut gone = u128::from(first_gone(run, word, day));
    let mut found = ShownAt::Nowhere;
    'numbers: while gone <= last && !is_several(found) {
        found = joined(found, shown_when(run, most, gone));
        gone += u128::from(day);
    }
    found
}

/// How many timecodes go by up to the first with the label.
fn first_gone(run: &Run, word: TimecodeWord, day: u64) -> u64
    requires fits { Fits run.now.base run.now.is_drop word }
    requires day { day ≡ labels_of_day run.now.base run.now.is_drop }
    ensures first { result < day }
    ensures label { (run.now.number + result) % day ≡ number_of run.now.base (label_of word run.now.is_drop) }
{
    let number = number_of(word, run.base(), run.is_drop());
    let first = run.number() % day;
    if number < first {
        number + (day - first)
    } else {
        number - first
    }
}

/// How many whole timecodes have gone by so many units behind the first position.
fn gone_after(run: &Run, units: u64) -> u128
    ensures gone { result ≡ gone_after run.now units }
    ensures small { result + 2 ^ 64 ≤ 2 ^ 128 }
{
    let step = run.step();
    if step.denominator == 0 {
        return 0;
    }
    let parts = u128::from(run.passed()) + u128::from(units) * u128::from(step.numerator);
    parts / u128::from(step.denominator)
}

/// How many timecodes go by at most up to one that is asked for: those up to the last position, and within the first
/// day if the run has no end.
fn last_gone(run: &Run, most: u64, day: u64) -> u128
    requires { 0 < day }
    ensures last { IsLastGone run.now most day result }
    ensures small { result + 2 ^ 64 ≤ 2 ^ 128 }
{
    let last = gone_after(run, most);
    match run.count() {
        Some(_) => last,
        None => last.min(u128::from(day - 1)),
    }
}

/// Where a run shows the number so many timecodes behind its first.
fn shown_when(run: &Run, most: u64, gone: u128) -> ShownAt
    requires most { AreUpTo run.now most }
    requires small { run.now.position + most ≤ greatest_unit }
    requires last { gone ≤ gone_after run.now most }
    ensures { IsAnswer (IsRangeAt run.now (run.now.number + gone)) result }
{
    if gone_after(run, 0) > gone {
        return ShownAt::Nowhere;
    }
    let first = first_unit(run, most, gone);
    let last = last_unit(run, most, gone);
    if first > last {
        return ShownAt::Nowhere;
    }
    ShownAt::At {
        first: run.position() + first,
        last: run.position() + last,
    }
}

/// The first unit behind the first position at which so many timecodes have gone by.
fn first_unit(run: &Run, most: u64, gone: u128) -> u64
    requires { gone ≤ gone_after run.now most }
    ensures first { (unit : ℕ) → (gone ≤ gone_after run.now unit) ↔ (result ≤ unit) }
    ensures most { result ≤ most }
{
    if gone == 0 {
        return 0;
    }
    let step = run.step();
    let passed = run.passed();
    let parts = gone * u128::from(step.denominator);
    let missing = parts.saturating_sub(u128::from(passed));
    if missing == 0 {
        return 0;
    }
    ((missing - 1) / u128::from(step.numerator) + 1) as u64
}

/// The last unit behind the first position, up to this one, at which no more than so many timecodes have gone by.
fn last_unit(run: &Run, most: u64, gone: u128) -> u64
    requires { gone_after run.now 0 ≤ gone }
    ensures last { (unit : ℕ) → unit ≤ most → (gone_after run.now unit ≤ gone) ↔ (unit ≤ result) }
    ensures most { result ≤ most }
{
    if gone_after(run, most) <= gone {
        return most;
    }
    let step = run.step();
    let passed = run.passed();
    let parts = (gone + 1) * u128::from(step.denominator);
    let rest = parts - 1 - u128::from(passed);
    (rest / u128::from(step.numerator)) as u64
}

/// A law of [`shown_at`]: of runs and a timecode there is one answer.
pub fn one_answer()
    ensures { (runs : List RunParts) (w : TimecodeWord) (a b : ShownAt) → IsAnswer (IsRange runs w) a
        → IsAnswer (IsRange runs w) b → a ≡ b }
{}
