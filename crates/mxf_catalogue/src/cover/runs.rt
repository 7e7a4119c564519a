//! The maximal runs of a cover.
ghost use Rattle.std.specs.Prelude.{◌≡◌, ◌^◌, ◌<◌, length};
ghost use Rattle.std.specs.Iterator.{YieldsFirst, item_count};

use crate::run::Run;
use std::marker::Model;

/// The maximal runs of a cover that are left, rising.
#[derive(Drop)]
pub struct CoverRuns<'a> {
    left: &'a [Run],
}

impl<'a> Model for CoverRuns<'a> {
    ghost use Rattle.std.specs.Prelude.{List};
    ghost use Rattle.mxf_catalogue.specs.declared.run.Run.{Run};

    ghost Value = { List Run };

    ghost view = { λ s. s.left.now };
}

impl<'a> CoverRuns<'a> {
    pub(super) fn of(runs: &'a [Run]) -> CoverRuns<'a>
        ensures runs { result ≡ runs.now }
        ensures bound { length result < 2 ^ 64 }
    {
        CoverRuns { left: runs }
    }
}

impl<'a> Iterator for CoverRuns<'a> {
    type Item = Run;

    ghost next_gives = { YieldsFirst (λ s. s) };

    ghost remaining = { item_count (λ s. s) };

    fn next(&mut self) -> Option<Run> {
        let (first, left) = self.left.split_first()?;
        self.left = left;
        Some(*first)
    }
}
