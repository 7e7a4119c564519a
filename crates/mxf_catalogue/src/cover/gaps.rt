//! The gaps of a cover: ranges of offsets that it lacks.
ghost use Rattle.std.specs.Prelude.{◌≡◌, ◌^◌, ◌<◌, length};
ghost use Rattle.std.specs.Iterator.{YieldsFirst, item_count};
ghost use Rattle.mxf_catalogue.specs.Covers.{gaps_of_runs};

use crate::run::Run;
use std::marker::Model;

/// The maximal ranges of offsets below the greatest end of a cover that it lacks and that are left, rising.
#[derive(Drop)]
pub struct CoverGaps<'a> {
    reached: u64,
    left: &'a [Run],
}

impl<'a> Model for CoverGaps<'a> {
    ghost use Rattle.std.specs.Prelude.{List};
    ghost use Rattle.mxf_catalogue.specs.declared.run.Run.{Run};
    ghost use Rattle.mxf_catalogue.specs.Covers.{gaps_from};

    ghost Value = { List Run };

    ghost view = { λ s. gaps_from s.reached s.left.now };
}

impl<'a> CoverGaps<'a> {
    pub(super) fn of(runs: &'a [Run]) -> CoverGaps<'a>
        ensures gaps { result ≡ gaps_of_runs runs.now }
        ensures bound { length result < 2 ^ 64 }
    {
        CoverGaps {
            reached: 0,
            left: runs,
        }
    }
}

impl<'a> Iterator for CoverGaps<'a> {
    type Item = Run;

    ghost next_gives = { YieldsFirst (λ s. s) };

    ghost remaining = { item_count (λ s. s) };

    fn next(&mut self) -> Option<Run> {
        while let Some((run, left)) = self.left.split_first() {
            let start = self.reached;
            self.left = left;
            self.reached = run.end;
            if start < run.start {
                return Some(Run {
                    start,
                    end: run.start,
                });
            }
        }
        None
    }
}
