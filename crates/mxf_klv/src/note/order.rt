//! The order of notes (this project's profile).
ghost use Rattle.std.specs.Prelude.{◌≡◌};
ghost use Rattle.std.specs.Ordering.{bool_cmp, nat_cmp, on, then_cmp};
ghost use Rattle.std.specs.Cmp.Lexicographic.{slice_cmp};
ghost use Rattle.mxf_klv.specs.Parts.{NoteParts};

use super::Note;
use crate::search::Keyed;
use std::cmp::Ordering;

impl Note {
    /// How two notes of one packet stand: a head first, then by the held bytes.
    fn cmp_held(&self, other: &Note) -> Ordering
        ensures { result ≡ then_cmp (on (λ (n : NoteParts). n.whole) bool_cmp)
            (on (λ (n : NoteParts). n.held) (slice_cmp nat_cmp)) self.now other.now }
    {
        self.is_whole()
            .cmp(&other.is_whole())
            .then_with(|| self.held_bytes().cmp(&other.held_bytes()))
    }
}

impl PartialEq for Note {
    ghost use Rattle.std.specs.Ordering.{eq_by_cmp};
    ghost use Rattle.mxf_klv.specs.Note.{note_cmp};
    ghost use Rattle.mxf_klv.specs.NoteOrder.{note_equiv};
    ghost use Rattle.std.specs.Cmp.{partial_equiv_from_equiv};

    ghost eq = { eq_by_cmp note_cmp };

    ghost laws = { partial_equiv_from_equiv note_equiv };

    fn eq(&self, other: &Note) -> bool {
        self.cmp(other) == Ordering::Equal
    }
}

impl Eq for Note {
    ghost use Rattle.mxf_klv.specs.NoteOrder.{note_equiv};

    ghost laws = { note_equiv };
}

impl PartialOrd for Note {
    ghost use Rattle.std.specs.Ordering.{as_partial_cmp};
    ghost use Rattle.std.specs.Cmp.{partial_order_from_agreeing_total};
    ghost use Rattle.std.specs.Prelude.{refl};
    ghost use Rattle.mxf_klv.specs.Note.{note_cmp};
    ghost use Rattle.mxf_klv.specs.NoteOrder.{note_total};

    ghost partial_cmp = { as_partial_cmp note_cmp };

    ghost laws = { partial_order_from_agreeing_total note_cmp note_total (λ _ _. refl) (λ _ _. refl) };

    fn partial_cmp(&self, other: &Note) -> Option<Ordering> {
        Some(self.cmp(other))
    }
}

impl Ord for Note {
    ghost use Rattle.mxf_klv.specs.Note.{note_cmp};
    ghost use Rattle.mxf_klv.specs.NoteOrder.{note_total};
    ghost use Rattle.std.specs.Prelude.{refl};

    ghost cmp = { note_cmp };

    ghost total = { note_total };

    ghost matches_partial_cmp = { λ _ _. refl };

    ghost matches_eq = { λ _ _. refl };

    fn cmp(&self, other: &Note) -> Ordering {
        self.offset
            .cmp(&other.offset)
            .then_with(|| self.key().cmp(&other.key()))
            .then_with(|| self.width().cmp(&other.width()))
            .then_with(|| self.length.cmp(&other.length))
            .then_with(|| self.cmp_held(other))
    }
}

/// Notes rise by their offsets, in bytes.
impl Keyed for Note {
    ghost key = { λ n. n.offset };

    fn key(&self) -> u64 {
        self.offset
    }
}
