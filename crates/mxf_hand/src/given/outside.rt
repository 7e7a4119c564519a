//! The offsets of a cover that aren't in another.
ghost use Rattle.std.specs.Prelude.{◌≡◌, ◌↔◌, ◌≤◌, ℕ, Some, filter, IfOk, OnOk};
ghost use Rattle.mxf_klv.specs.Note.{greatest_end};
ghost use Rattle.mxf_catalogue.specs.Covers.{IsCover, IsRun, is_between};
ghost use Rattle.mxf_catalogue.specs.Runs.{LiesIn};
ghost use Rattle.mxf_hand.specs.Outside.{with_outside, with_some};

use mxf_catalogue::{Cover, Run};
use mxf_klv::OutOfMemory;
use std::alloc::Global;

/// The offsets of a cover that aren't in another. They take memory; the time is that of the runs of the first, each
/// with two binary searches, and of the runs of the other.
pub(super) fn outside(alloc: Global, cover: &Cover, holes: &Cover) -> Result<Cover, OutOfMemory>
    requires { IsCover holes.now }
    ensures offsets { IfOk result (λ c. (x : ℕ) → LiesIn c x ↔ (LiesIn cover.now x × ¬ LiesIn holes.now x)) }
    ensures cover { IfOk result IsCover }
{
    let mut outside = Cover::new(alloc);
    for run in cover.runs() {
        add_outside(&mut outside, run, holes)?;
    }
    Ok(outside)
}

/// Adds the offsets of the run that aren't in a cover.
fn add_outside(outside: &mut Cover, run: Run, holes: &Cover) -> Result<(), OutOfMemory>
    requires { IsRun run }
    ensures { OnOk result (outside.new
        ≡ with_outside outside.old run.start run.end (filter (is_between run.start (Some run.end)) holes.now)) }
{
    let mut reached = run.start;
    for hole in holes.runs_between(run.start, Some(run.end)) {
        add_some(outside, reached, hole.start.min(run.end))?;
        reached = reached.max(hole.end);
    }
    add_some(outside, reached, run.end)
}

/// Adds the offsets from a start up to an end, if there is one.
pub(super) fn add_some(outside: &mut Cover, start: u64, end: u64) -> Result<(), OutOfMemory>
    requires { end ≤ greatest_end }
    ensures { OnOk result (outside.new ≡ with_some start end outside.old) }
{
    if start < end {
        outside.add(start, end)?;
    }
    Ok(())
}
