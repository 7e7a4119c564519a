//! In which recordings a fragment lies best.
ghost use Rattle.std.specs.Prelude.{◌≡◌, [], List, OnErr, OnOk};
ghost use Rattle.mxf_klv.specs.Rising.{SameMembers};
ghost use Rattle.mxf_find.specs.Rankings.{ranked, with_all, with_ranked};
ghost use Rattle.mxf_find.specs.declared.ranking.Ranked.{Ranked};

use crate::found::Match;
use mxf_klv::{OutOfMemory, sort_once};
use std::alloc::Global;
use std::cmp::Ordering;
use std::marker::Model;

/// How many recordings a ranking keeps.
const KEPT: usize = 16;

/// A recording by its number, and where a fragment lies in it. The order is by the notes that agree, the most first,
/// then by the number.
#[derive(Clone, Copy, Debug)]
pub struct Ranked {
    /// The number of the recording.
    pub recording: usize,
    pub found: Match,
}

impl PartialEq for Ranked {
    ghost use Rattle.std.specs.Ordering.{eq_by_cmp};
    ghost use Rattle.std.specs.Cmp.{partial_equiv_from_equiv};
    ghost use Rattle.mxf_find.specs.Rankings.{rank_cmp};
    ghost use Rattle.mxf_find.specs.RankOrder.{rank_equiv};

    ghost eq = { eq_by_cmp rank_cmp };

    ghost laws = { partial_equiv_from_equiv rank_equiv };

    fn eq(&self, other: &Ranked) -> bool {
        self.cmp(other) == Ordering::Equal
    }
}

impl Eq for Ranked {
    ghost use Rattle.mxf_find.specs.RankOrder.{rank_equiv};

    ghost laws = { rank_equiv };
}

impl PartialOrd for Ranked {
    ghost use Rattle.std.specs.Ordering.{as_partial_cmp};
    ghost use Rattle.std.specs.Cmp.{partial_order_from_agreeing_total};
    ghost use Rattle.std.specs.Prelude.{refl};
    ghost use Rattle.mxf_find.specs.Rankings.{rank_cmp};
    ghost use Rattle.mxf_find.specs.RankOrder.{rank_total};

    ghost partial_cmp = { as_partial_cmp rank_cmp };

    ghost laws = { partial_order_from_agreeing_total rank_cmp rank_total (λ _ _. refl) (λ _ _. refl) };

    fn partial_cmp(&self, other: &Ranked) -> Option<Ordering> {
        Some(self.cmp(other))
    }
}

impl Ord for Ranked {
    ghost use Rattle.std.specs.Prelude.{refl};
    ghost use Rattle.mxf_find.specs.Rankings.{rank_cmp};
    ghost use Rattle.mxf_find.specs.RankOrder.{rank_total};

    ghost cmp = { rank_cmp };

    ghost total = { rank_total };

    ghost matches_partial_cmp = { λ _ _. refl };

    ghost matches_eq = { λ _ _. refl };

    fn cmp(&self, other: &Ranked) -> Ordering {
        let (one, two) = (self.found, other.found);
        two.agree
            .cmp(&one.agree)
            .then(self.recording.cmp(&other.recording))
            .then(one.heads.cmp(&two.heads))
            .then(one.offset.cmp(&two.offset))
    }
}

/// The recordings in which most notes of a fragment agree, at most 16: those with more first, and of those with as many
/// the one with the lower number.
#[derive(Drop)]
pub struct Ranking {
    best: Vec<Ranked>,
}

impl Model for Ranking {
    ghost use Rattle.std.specs.Prelude.{List};
    ghost use Rattle.mxf_find.specs.declared.ranking.Ranked.{Ranked};

    ghost Value = { List Ranked };

    ghost view = { λ r. r.best.items };
}

impl Ranking {
    /// No recording. Later calls take their memory from `alloc`.
    pub fn new(alloc: Global) -> Ranking
        ensures { result ≡ [] }
    {
        Ranking {
            best: Vec::new(alloc),
        }
    }

    /// Adds a recording, if it is one of the best 16. Out of memory, the ranking is unchanged.
    pub fn add(&mut self, recording: usize, found: Match) -> Result<(), OutOfMemory>
        ensures added { OnOk result (self.new
            ≡ with_ranked (record { recording = recording; found = found }) self.old) }
        ensures err { OnErr result (self.new ≡ self.old) }
    {
        self.best.push(Ranked { recording, found })?;
        sort_once(&mut self.best);
        self.best.truncate(KEPT);
        Ok(())
    }

    /// Its recordings, the best first.
    pub fn best(&self) -> &[Ranked]
        ensures { result.now ≡ self.now }
    {
        &self.best
    }
}

/// A law of [`Ranking::add`]: after all have been added it is the first 16 of all in their order, whatever the order in
/// which they were.
pub fn rankings_by_definition()
    ensures first { (all : List Ranked) → with_all all [] ≡ ranked all }
    ensures order { (a b : List Ranked) → SameMembers a b → with_all a [] ≡ with_all b [] }
{}
