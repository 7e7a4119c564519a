//! Sets of file offsets that ranges make together.
ghost use Rattle.std.specs.Prelude.{◌≤◌, IfOk};
ghost use Rattle.std.specs.List.{AllByRecursion};
ghost use Rattle.mxf_klv.specs.Note.{greatest_end};
ghost use Rattle.mxf_catalogue.specs.Runs.{SameOffsets};

use mxf_catalogue::{Cover, Run};
use mxf_klv::OutOfMemory;
use std::alloc::Global;

/// The offsets that lie in some of the ranges, which may be empty, and come in any order. It takes n log n of them.
pub fn cover_of(alloc: Global, mut runs: Vec<Run>) -> Result<Cover, OutOfMemory>
    requires { AllByRecursion (λ r. r.end ≤ greatest_end) runs.items }
    ensures { IfOk result (λ c. SameOffsets c runs.items) }
{
    // Each goes after those that are there.
    runs.sort_unstable_by_key(|run| run.start);
    cover_of_each(alloc, &runs)
}

/// The same of ranges in any order.
fn cover_of_each(alloc: Global, runs: &[Run]) -> Result<Cover, OutOfMemory>
    requires { AllByRecursion (λ r. r.end ≤ greatest_end) runs.now }
    ensures { IfOk result (λ c. SameOffsets c runs.now) }
{
    let mut cover = Cover::new(alloc);
    for run in runs {
        if run.start < run.end {
            cover.add(run.start, run.end)?;
        }
    }
    Ok(cover)
}
