//! Sets of file offsets that ranges make together.
ghost use Rattle.std.specs.Prelude.{◌≡◌, ◌↔◌, ◌⊎◌, ◌<◌, ◌≤◌, ℕ, IfOk, IsTrue, length};
ghost use Rattle.std.specs.List.{AllByRecursion, AllWithin};
ghost use Rattle.std.specs.List.Sorted.{IsNonDecreasingBy};
ghost use Rattle.mxf_klv.specs.Note.{greatest_end};
ghost use Rattle.mxf_klv.specs.Rising.{In, SameMembers};
ghost use Rattle.mxf_catalogue.specs.Runs.{LiesIn};
ghost use Rattle.mxf_catalogue.specs.declared.run.Run.{Run};
ghost use Rattle.mxf_units.specs.Intervals.{greatest_ends};
ghost use Rattle.mxf_verify.specs.Reaching.{HasOne};

use mxf_catalogue::{Cover, Run};
use mxf_klv::{MAX, OutOfMemory};
use mxf_units::cover_of;
use std::alloc::Global;
use std::marker::Model;

/// The offsets of the first cover that don't lie in the second. It takes n log n of their runs.
pub(crate) fn rest_of(alloc: Global, all: &Cover, known: &Cover) -> Result<Cover, OutOfMemory>
    ensures { IfOk result (λ c. (at : ℕ) → LiesIn c at ↔ (LiesIn all.now at × ¬ LiesIn known.now at)) }
{
    let others = cover_of(alloc, outside_or_in(alloc, all, known)?)?;
    cover_of(alloc, outside(alloc, &others)?)
}

/// The ranges of offsets below the greatest end that a cover lacks, in bytes.
fn outside(alloc: Global, cover: &Cover) -> Result<Vec<Run>, OutOfMemory>
    ensures offsets { IfOk result
        (λ v. (at : ℕ) → LiesIn v.items at ↔ ((at < greatest_end) × ¬ LiesIn cover.now at)) }
    ensures within { IfOk result (λ v. AllByRecursion (λ r. r.end ≤ greatest_end) v.items) }
    ensures below { IfOk result (λ _. (at : ℕ) → LiesIn cover.now at → at < greatest_end) }
{
    let mut runs: Vec<Run> = cover.gaps().collect(alloc)?;
    runs.push(Run {
        start: cover.end(),
        end: MAX,
    })?;
    Ok(runs)
}

/// The same with the runs of another.
fn outside_or_in(alloc: Global, all: &Cover, known: &Cover) -> Result<Vec<Run>, OutOfMemory>
    ensures offsets { IfOk result (λ v. (at : ℕ)
        → LiesIn v.items at ↔ ((at < greatest_end) × ¬ LiesIn all.now at) ⊎ LiesIn known.now at) }
    ensures within { IfOk result (λ v. AllByRecursion (λ r. r.end ≤ greatest_end) v.items) }
    ensures below { IfOk result (λ _. (at : ℕ) → LiesIn all.now at → at < greatest_end) }
{
    let mut runs = outside(alloc, all)?;
    runs.extend(known.runs())?;
    Ok(runs)
}

/// Ranges that are asked whether one of them has all of some bytes.
#[derive(Drop)]
pub(crate) struct Reach {
    /// The ranges, by where they begin.
    runs: Vec<Run>,
    /// Beside each, in bytes, the greatest end of those up to it.
    ends: Vec<u64>,
}

impl Model for Reach {
    ghost use Rattle.std.specs.Prelude.{List};
    ghost use Rattle.mxf_catalogue.specs.declared.run.Run.{Run};
    ghost use Rattle.mxf_verify.specs.Reaching.{AreReaching};

    ghost Value = { List Run };

    ghost view = { λ r. r.runs.items };

    ghost invariant = { λ r. AreReaching r.runs.items r.ends.items };
}

impl Reach {
    /// The ranges. It takes n log n of them.
    pub(crate) fn of(alloc: Global, mut runs: Vec<Run>) -> Result<Reach, OutOfMemory>
        ensures { IfOk result (λ r. SameMembers r runs.items) }
    {
        runs.sort_unstable_by_key(|run| run.start);
        let ends = greatest_ends(alloc, &runs)?;
        Ok(Reach { runs, ends })
    }

    /// Whether one of the ranges has all bytes from `start` up to `end`, in bytes, the end excluded: a binary search.
    pub(crate) fn has_one(&self, start: u64, end: u64) -> bool
        ensures { IsTrue result ↔ ((r : Run) × In r self.now × (r.start ≤ start) × (end ≤ r.end)) }
    {
        has_one(&self.runs, &self.ends, start, end)
    }
}

/// The greatest end of each range and those before it, in bytes.
fn greatest_ends(alloc: Global, runs: &[Run]) -> Result<Vec<u64>, OutOfMemory>
    ensures { IfOk result (λ v. v.items ≡ greatest_ends (λ r. r.end) 0 runs.now) }
{
    let ends = runs.iter().scan(0, |greatest, run| {
        *greatest = (*greatest).max(run.end);
        Some(*greatest)
    });
    Ok(ends.collect(alloc)?)
}

/// The number of the ranges that begin at or below an offset, in bytes.
fn begun_by(runs: &[Run], offset: u64) -> usize
    requires { IsNonDecreasingBy (λ r. r.start) runs.now }
    ensures bound { result ≤ length runs.now }
    ensures below { AllWithin (λ r. r.start ≤ offset) runs.now 0 result }
    ensures above { AllWithin (λ r. offset < r.start) runs.now result (length runs.now) }
{
    runs.partition_point(|run| run.start <= offset)
}

/// Whether one of the ranges, which rise by where they begin, has all bytes from `start` up to `end`: whether one of
/// those does that begin by then.
fn has_one(runs: &[Run], ends: &[u64], start: u64, end: u64) -> bool
    requires rising { IsNonDecreasingBy (λ r. r.start) runs.now }
    requires ends { ends.now ≡ greatest_ends (λ r. r.end) 0 runs.now }
    ensures { IsTrue result ↔ HasOne runs.now start end }
{
    let begun = begun_by(runs, start);
    if begun == 0 {
        return false;
    }
    end <= ends[begun - 1]
}
