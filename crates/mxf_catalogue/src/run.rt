//! Ranges of offsets (this project's profile).
ghost use Rattle.std.specs.Prelude.{◌≡◌, ℕ, List};
ghost use Rattle.mxf_catalogue.specs.declared.run.Run.{Run};
ghost use Rattle.mxf_catalogue.specs.Runs.{AreMaximal, SameOffsets};

use mxf_klv::Keyed;

/// A range of file offsets, in bytes, the end excluded.
#[derive(Clone, Copy, Debug, PartialEq, Eq)]
pub struct Run {
    pub start: u64,
    pub end: u64,
}

/// Runs of a cover rise by their ends.
impl Keyed for Run {
    ghost key = { λ r. r.end };

    fn key(&self) -> u64 {
        self.end
    }
}

/// A law: a set of offsets has one list of maximal runs at most.
pub fn one_list_of_maximal_runs()
    ensures { (a b : List Run) → AreMaximal 0 a → AreMaximal 0 b → SameOffsets a b → a ≡ b }
{}
