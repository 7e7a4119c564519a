//! Where offsets and runs stand among the runs of a cover: at its end, or by binary search.
ghost use Rattle.std.specs.Prelude.{◌≡◌, ◌↔◌, ℕ, ◌+◌, ◌<◌, ◌≤◌, ◌++◌, ◌∷◌, take, drop, length, vec_len, vec_capacity};
ghost use Rattle.std.specs.Prelude.{IsTrue, filter, nat_lt, true, false};
ghost use Rattle.std.specs.List.{AllWithin};
ghost use Rattle.std.specs.Option.{option_map_or};
ghost use Rattle.mxf_catalogue.specs.Covers.{IsCover, IsRun, is_between, spanned, with_run};
ghost use Rattle.mxf_catalogue.specs.Runs.{LiesIn};

use crate::run::Run;
use mxf_klv::{below, up_to};

/// The end of the last run of a cover; 0 if there is none.
pub(crate) fn last_end(runs: &[Run]) -> u64
    requires { IsCover runs.now }
    ensures { (bound : ℕ) → result ≤ bound ↔ ((offset : ℕ) → LiesIn runs.now offset → offset < bound) }
{
    match runs.last() {
        Some(run) => run.end,
        None => 0,
    }
}

/// The number of the runs that end at or below the offset.
fn ending_by(runs: &[Run], offset: u64) -> usize
    requires { IsCover runs.now }
    ensures bound { result ≤ length runs.now }
    ensures below { AllWithin (λ r. r.end ≤ offset) runs.now 0 result }
    ensures above { AllWithin (λ r. offset < r.end) runs.now result (length runs.now) }
{
    up_to(runs, offset)
}

/// Whether an offset from `first` to `last`, both included, lies in one of the runs of a cover.
pub(crate) fn meets(runs: &[Run], first: u64, last: u64) -> bool
    requires cover { IsCover runs.now }
    requires order { first ≤ last }
    ensures { IsTrue result ↔ ((at : ℕ) × LiesIn runs.now at × (first ≤ at) × (at ≤ last)) }
{
    let at = ending_by(runs, first);
    match runs.get(at) {
        Some(run) => run.start <= last,
        None => false,
    }
}

/// Whether all offsets from `start` up to `end`, which lies above, are in the runs of a cover.
pub(crate) fn has_all(runs: &[Run], start: u64, end: u64) -> bool
    requires cover { IsCover runs.now }
    requires order { start < end }
    ensures { IsTrue result ↔ ((at : ℕ) → start ≤ at → at < end → LiesIn runs.now at) }
{
    let at = ending_by(runs, start);
    match runs.get(at) {
        Some(run) => run.start <= start && end <= run.end,
        None => false,
    }
}

/// The number of the runs that end below the offset.
fn ending_below(runs: &[Run], offset: u64) -> usize
    requires { IsCover runs.now }
    ensures bound { result ≤ length runs.now }
    ensures below { AllWithin (λ r. r.end < offset) runs.now 0 result }
    ensures above { AllWithin (λ r. offset ≤ r.end) runs.now result (length runs.now) }
{
    below(runs, offset)
}

/// The number of the runs that start at or below the offset.
fn starting_by(runs: &[Run], offset: u64) -> usize
    requires { IsCover runs.now }
    ensures bound { result ≤ length runs.now }
    ensures below { AllWithin (λ r. r.start ≤ offset) runs.now 0 result }
    ensures above { AllWithin (λ r. offset < r.start) runs.now result (length runs.now) }
{
    match runs.last() {
        Some(last) if last.start <= offset => runs.len(),
        _ => runs.partition_point(|run| run.start <= offset),
    }
}

/// The number of the runs that begin below the bound; all of them if there is none.
fn starting_below(runs: &[Run], bound: Option<u64>) -> usize
    requires { IsCover runs.now }
    ensures bound { result ≤ length runs.now }
    ensures below { AllWithin (λ r. option_map_or (λ e. nat_lt r.start e) bound true ≡ true) runs.now 0 result }
    ensures above { AllWithin (λ r. option_map_or (λ e. nat_lt r.start e) bound true ≡ false) runs.now result
        (length runs.now) }
{
    match bound {
        Some(0) => 0,
        Some(bound) => starting_by(runs, bound - 1),
        None => runs.len(),
    }
}

/// The runs of a cover that end above an offset, and begin below another, if there is one.
pub(super) fn between(runs: &[Run], from: u64, to: Option<u64>) -> &[Run]
    requires { IsCover runs.now }
    ensures { result.now ≡ filter (is_between from to) runs.now }
{
    let end = starting_below(runs, to);
    let start = ending_by(runs, from).min(end);
    let (front, _) = runs.split_at(end);
    let (_, between) = front.split_at(start);
    between
}

/// From the least start of the run and the others to the greatest end.
fn span(run: Run, others: &[Run]) -> Run
    ensures { result ≡ spanned run others.now }
{
    let mut all = run;
    for next in others {
        all = Run {
            start: all.start.min(next.start),
            end: all.end.max(next.end),
        };
    }
    all
}

/// From where to where the runs of a cover touch the run, and the run together with these.
fn touched(runs: &[Run], run: Run) -> (usize, usize, Run)
    requires cover { IsCover runs.now }
    requires run { run.start < run.end }
    ensures order { result.0 ≤ result.1 }
    ensures bound { result.1 ≤ length runs.now }
    ensures put { with_run run runs.now ≡ take result.0 runs.now ++ result.2 ∷ drop result.1 runs.now }
{
    let from = ending_below(runs, run.start);
    let to = starting_by(runs, run.end);
    let (front, _) = runs.split_at(to);
    let (_, others) = front.split_at(from);
    (from, to, span(run, others))
}

/// Puts a run after all runs of a cover, or grows the last by it. It begins where they have ended, or above, and there
/// is room for it.
fn append_run(runs: &mut Vec<Run>, run: Run)
    requires cover { IsCover runs.old.items }
    requires run { IsRun run }
    requires above { (offset : ℕ) → LiesIn runs.old.items offset → offset < run.start }
    requires room { vec_len runs.old < vec_capacity runs.old }
    ensures items { runs.new.items ≡ with_run run runs.old.items }
    ensures len { vec_len runs.new ≤ vec_len runs.old + 1 }
    ensures room { vec_capacity runs.new ≡ vec_capacity runs.old }
{
    let count = runs.len();
    match runs.last() {
        Some(last) if last.end == run.start => runs[count - 1].end = run.end,
        _ => runs.push_reserved(run),
    }
}

/// Puts the run among the runs of a cover, which have room for one more.
pub(crate) fn put_run(runs: &mut Vec<Run>, run: Run)
    requires cover { IsCover runs.old.items }
    requires run { IsRun run }
    requires room { vec_len runs.old < vec_capacity runs.old }
    ensures items { runs.new.items ≡ with_run run runs.old.items }
    ensures cover { IsCover runs.new.items }
    ensures len { vec_len runs.new ≤ vec_len runs.old + 1 }
    ensures room { vec_capacity runs.new ≡ vec_capacity runs.old }
{
    if last_end(runs) <= run.start {
        append_run(runs, run);
        return;
    }
    let (from, to, all) = touched(runs, run);
    drop(runs.drain(from..to));
    // There is room.
    let Ok(()) = runs.insert(from, all) else {
        unreachable!()
    };
}
