//! How many packets of a file are disputed, and where they lie.
ghost use Rattle.std.specs.Prelude.{◌≡◌, ◌↔◌, List, None, Some};
ghost use Rattle.mxf_klv.specs.Parts.{NoteParts};
ghost use Rattle.mxf_klv.specs.Rising.{In};
ghost use Rattle.mxf_catalogue.specs.Disputes.{IsDisputed};
ghost use Rattle.mxf_restore.specs.Disputes.{AreDisputes, disputes_of};
ghost use Rattle.mxf_restore.specs.declared.disputes.Disputes.{Disputes};

use mxf_catalogue::Catalogue;

/// How many packets are disputed, and where they lie (this project's profile).
#[derive(Clone, Copy, Debug, PartialEq, Eq)]
pub struct Disputes {
    /// How many there are, heads among them.
    pub notes: u64,
    /// The least offset of one, in bytes.
    pub start: u64,
    /// The greatest end of what is held of one, in bytes.
    pub end: u64,
}

impl Disputes {
    /// Those of a catalogue; `None` if no packet is disputed.
    pub fn of(catalogue: &Catalogue) -> Option<Disputes>
        ensures { result ≡ disputes_of catalogue.now }
    {
        let first = catalogue.disputed().next()?;
        let mut start = first.note.offset();
        let mut end = first.note.covered_end();
        for disputed in catalogue.disputed() {
            start = start.min(disputed.note.offset());
            end = end.max(disputed.note.covered_end());
        }
        let notes = catalogue.disputed().count() as u64;
        Some(Disputes { notes, start, end })
    }
}

/// A law of [`Disputes::of`]: they are the number of disputed notes, their least offset, and the greatest end of what
/// they cover.
pub fn disputes_by_definition()
    ensures some { (notes : List NoteParts) (d : Disputes) → (disputes_of notes ≡ Some d) ↔ AreDisputes notes d }
    ensures none { (notes : List NoteParts)
        → (disputes_of notes ≡ None) ↔ ((n : NoteParts) → In n notes → ¬ IsDisputed n notes) }
{}
