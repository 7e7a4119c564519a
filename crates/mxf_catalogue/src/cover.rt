//! Covers: sets of file offsets, as their maximal runs (this project's profile).
ghost use Rattle.std.specs.Prelude.{◌≡◌, ◌↔◌, ◌⊎◌, ◌<◌, ◌≤◌, ◌^◌, ℕ, List, [], filter, length, IsTrue, OnOk, OnErr};
ghost use Rattle.mxf_klv.specs.Note.{greatest_end};
ghost use Rattle.mxf_catalogue.specs.declared.run.Run.{Run};
ghost use Rattle.mxf_catalogue.specs.Covers.{IsCover, IsRun, AreGapsOf, gaps_of_runs, is_between, union_of_runs};
ghost use Rattle.mxf_catalogue.specs.Covers.{with_run};
ghost use Rattle.mxf_catalogue.specs.Joins.{SameContent};
ghost use Rattle.mxf_catalogue.specs.Runs.{IsWithin, LiesIn, run};

mod gaps;
mod placing;
mod runs;

use crate::run::Run;
use crate::semilattice::Semilattice;
pub use gaps::CoverGaps;
use mxf_klv::OutOfMemory;
use placing::{between, has_all};
pub(crate) use placing::{last_end, meets, put_run};
pub use runs::CoverRuns;
use std::alloc::Global;
use std::marker::Model;

/// A set of file offsets, as its maximal runs.
///
/// Runs that overlap or touch are one. What comes out is the set alone: no order of additions and no number of repeats
/// changes it.
#[derive(Debug, Drop)]
pub struct Cover {
    pub(crate) runs: Vec<Run>,
}

impl Model for Cover {
    ghost use Rattle.std.specs.Prelude.{List};
    ghost use Rattle.mxf_catalogue.specs.declared.run.Run.{Run};
    ghost use Rattle.mxf_catalogue.specs.Covers.{IsCover};

    ghost Value = { List Run };

    ghost view = { λ c. c.runs.items };

    ghost invariant = { λ c. IsCover c.runs.items };
}

impl Cover {
    /// No offset. Later calls take their memory from `alloc`.
    pub fn new(alloc: Global) -> Cover
        ensures { result ≡ [] }
    {
        Cover {
            runs: Vec::new(alloc),
        }
    }

    /// Adds the offsets from `start` up to `end`, in bytes, the end excluded. The start lies below the end, and the end
    /// at or below [`MAX`](mxf_klv::MAX).
    ///
    /// The only fault is out of memory. The cover is unchanged then.
    pub fn add(&mut self, start: u64, end: u64) -> Result<(), OutOfMemory>
        requires order { start < end }
        requires within { end ≤ greatest_end }
        ensures added { OnOk result (self.new ≡ with_run (run start end) self.old) }
        ensures err { OnErr result (self.new ≡ self.old) }
    {
        self.runs.reserve(1)?;
        put_run(&mut self.runs, Run { start, end });
        Ok(())
    }

    /// Whether the offset, in bytes, is in the set: a binary search.
    pub fn has(&self, offset: u64) -> bool
        ensures { IsTrue result ↔ LiesIn self.now offset }
    {
        meets(&self.runs, offset, offset)
    }

    /// Whether an offset from `start` up to `end`, in bytes, the end excluded, is in the set: a binary search.
    pub fn meets(&self, start: u64, end: u64) -> bool
        ensures { IsTrue result ↔ ((at : ℕ) × LiesIn self.now at × (start ≤ at) × (at < end)) }
    {
        start < end && meets(&self.runs, start, end - 1)
    }

    /// Whether all offsets from `start` up to `end`, in bytes, the end excluded, are in the set: a binary search.
    pub fn has_all(&self, start: u64, end: u64) -> bool
        ensures { IsTrue result ↔ ((at : ℕ) → start ≤ at → at < end → LiesIn self.now at) }
    {
        end <= start || has_all(&self.runs, start, end)
    }

    /// The maximal runs, rising.
    pub fn runs(&self) -> CoverRuns<'_>
        ensures runs { result ≡ self.now }
        ensures cover { IsCover self.now }

        // A count of them fits.
        ensures bound { length result < 2 ^ 64 }
    {
        CoverRuns::of(&self.runs)
    }

    /// The maximal runs that end above `from`, in bytes, and begin below `to`, if that is given, rising: two binary
    /// searches.
    pub fn runs_between(&self, from: u64, to: Option<u64>) -> CoverRuns<'_>
        ensures runs { result ≡ filter (is_between from to) self.now }
        ensures cover { IsCover self.now }
        ensures bound { length result < 2 ^ 64 }
    {
        CoverRuns::of(between(&self.runs, from, to))
    }

    /// The greatest end of a run, in bytes; 0 if there is none.
    pub fn end(&self) -> u64
        ensures { (bound : ℕ) → result ≤ bound ↔ ((offset : ℕ) → LiesIn self.now offset → offset < bound) }
    {
        last_end(&self.runs)
    }

    /// The maximal ranges of offsets below the greatest end that aren't in the set, rising.
    pub fn gaps(&self) -> CoverGaps<'_>
        ensures gaps { result ≡ gaps_of_runs self.now }
        ensures cover { IsCover self.now }
        ensures bound { length result < 2 ^ 64 }
    {
        CoverGaps::of(&self.runs)
    }
}

impl Semilattice for Cover {
    type Member = u64;

    ghost use Rattle.mxf_catalogue.specs.Covers.{union_of_runs, union_of_runs-IsUnion};
    ghost use Rattle.mxf_catalogue.specs.Joins.{SameContent, joined_assoc, joined_comm, joined_idem};
    ghost use Rattle.mxf_catalogue.specs.Runs.{LiesIn};

    ghost has = { LiesIn };

    ghost joined = { union_of_runs };

    ghost equal = { SameContent LiesIn };

    ghost is_union = { union_of_runs-IsUnion };

    ghost is_equality = { λ a b. (λ h. h, λ h. h) };

    ghost associative = { joined_assoc LiesIn union_of_runs union_of_runs-IsUnion };

    ghost commutative = { joined_comm LiesIn union_of_runs union_of_runs-IsUnion };

    ghost idempotent = { joined_idem LiesIn union_of_runs union_of_runs-IsUnion };

    fn join(alloc: Global, a: &Cover, b: &Cover) -> Result<Cover, OutOfMemory> {
        let mut all = Cover {
            runs: Vec::from_slice(alloc, &a.runs)?,
        };
        for run in &b.runs {
            all.add(run.start, run.end)?;
        }
        Ok(all)
    }

    fn same(&self, other: &Cover) -> bool
        ensures members { IsTrue result ↔ SameContent LiesIn self.now other.now }
        ensures list { IsTrue result ↔ (self.now ≡ other.now) }
    {
        self.runs == other.runs
    }
}

/// A law: [`add`](Cover::add) and [`join`](Semilattice::join) of covers are by their sets of offsets, and leave covers,
/// so by [`one_list_of_maximal_runs`](crate::one_list_of_maximal_runs) equal sets are equal covers.
pub fn covers_are_sets()
    ensures with_run { (r : Run) (runs : List Run) (offset : ℕ)
        → LiesIn (with_run r runs) offset ↔ IsWithin r offset ⊎ LiesIn runs offset }
    ensures union { (a b : List Run) (offset : ℕ)
        → LiesIn (union_of_runs a b) offset ↔ LiesIn a offset ⊎ LiesIn b offset }
    ensures with_run_covers { (r : Run) (runs : List Run) → IsRun r → IsCover runs → IsCover (with_run r runs) }
    ensures union_covers { (a b : List Run) → IsCover a → IsCover b → IsCover (union_of_runs a b) }
{}

/// A law of [`Cover::gaps`]: its runs are the maximal ranges of offsets that lie below the end of some run and in none.
pub fn gaps_of_covers_by_definition()
    ensures { (runs : List Run) → IsCover runs → AreGapsOf runs (gaps_of_runs runs) }
{}
