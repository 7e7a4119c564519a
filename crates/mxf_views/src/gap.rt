//! Gaps: bytes of the file that no note covers.
ghost use Rattle.std.specs.Prelude.{◌≡◌, ◌∷◌, [], ◌<◌, ◌^◌, List, cond, length, nat_lt, option_to_list};
ghost use Rattle.mxf_klv.specs.Parts.{NoteParts};
ghost use Rattle.mxf_catalogue.specs.Content.{IsContent};
ghost use Rattle.mxf_catalogue.specs.Runs.{run};
ghost use Rattle.std.specs.Iterator.{YieldsFirst, item_count};
ghost use Rattle.mxf_views.specs.Gaps.{AreGaps, gaps_of};

use mxf_catalogue::{Catalogue, CoverGaps, Run};
use std::marker::Model;

/// The gaps that are left, rising: the maximal ranges of offsets below the last end that no note covers.
///
/// They are what is missing from the file, as far as it is known: bytes between the packets that are held, and what a
/// cut packet lacks up to its end. What lies after the last packet isn't known, and is no gap.
#[derive(Drop)]
pub struct Gaps<'a> {
    /// The gaps of what the notes cover.
    gaps: CoverGaps<'a>,
    /// After these, the one up to the greatest end.
    last: Option<Run>,
}

impl<'a> Model for Gaps<'a> {
    ghost use Rattle.std.specs.Prelude.{◌++◌, List, option_to_list};
    ghost use Rattle.mxf_catalogue.specs.declared.run.Run.{Run};

    ghost Value = { List Run };

    ghost view = { λ s. s.gaps ++ option_to_list s.last };
}

impl<'a> Gaps<'a> {
    pub(crate) fn of(catalogue: &'a Catalogue) -> Gaps<'a>
        ensures gaps { result ≡ gaps_of catalogue.now }
        ensures bound { length result < 2 ^ 64 }
    {
        let spans = catalogue.spans();
        Gaps {
            gaps: spans.gaps(),
            last: range(spans.end(), catalogue.end()),
        }
    }
}

impl<'a> Iterator for Gaps<'a> {
    type Item = Run;

    ghost next_gives = { YieldsFirst (λ s. s) };

    ghost remaining = { item_count (λ s. s) };

    fn next(&mut self) -> Option<Run> {
        match self.gaps.next() {
            Some(gap) => Some(gap),
            None => self.last.take(),
        }
    }
}

/// The range from `start` up to `end`, if it has a byte.
fn range(start: u64, end: u64) -> Option<Run>
    ensures { option_to_list result ≡ cond (nat_lt start end) (run start end ∷ []) [] }
{
    if start < end {
        Some(Run { start, end })
    } else {
        None
    }
}

/// A law of [`Views::gaps`](crate::Views::gaps): its runs are the maximal ranges of offsets that lie below the end of
/// some note and that none covers.
pub fn gaps_by_definition()
    ensures { (notes : List NoteParts) → IsContent notes → AreGaps notes (gaps_of notes) }
{}
