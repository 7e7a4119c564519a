//! What adding a note did, or why it wasn't added.
ghost use Rattle.std.specs.Prelude.{◌≡◌, ◌↔◌, List, [], map, IfOk};
ghost use Rattle.std.specs.Ordering.{nat_cmp};
ghost use Rattle.mxf_klv.specs.Parts.{NoteParts};
ghost use Rattle.mxf_klv.specs.Rising.{In, IsRising};
ghost use Rattle.mxf_catalogue.specs.Content.{IsContent, reduced_with};
ghost use Rattle.mxf_catalogue.specs.Disputes.{IsClear, IsDisputed, whole_notes};
ghost use Rattle.mxf_catalogue.specs.NoteLists.{moved_by, moved_notes};

use super::clear::ClearNotes;
use mxf_klv::{Note, OutOfMemory};
use std::alloc::{AllocError, Global};
use std::marker::Model;
use thiserror::Error;

/// File offsets of notes, in bytes, in the order of the notes.
#[derive(Debug, Drop)]
pub struct Offsets {
    items: Vec<u64>,
}

impl Model for Offsets {
    ghost use Rattle.std.specs.Prelude.{List, ℕ};

    ghost Value = { List ℕ };

    ghost view = { λ o. o.items.items };
}

impl Offsets {
    /// None.
    pub(super) fn none(alloc: Global) -> Offsets
        ensures { result ≡ [] }
    {
        Offsets {
            items: Vec::new(alloc),
        }
    }

    /// Those of the notes that are no heads.
    pub(super) fn of(alloc: Global, notes: &[Note]) -> Result<Offsets, AllocError>
        ensures { IfOk result (λ o. o ≡ map (λ n. n.offset) (whole_notes notes.now)) }
    {
        let items = ClearNotes::of(notes)
            .map(|note| note.offset())
            .collect(alloc)?;
        Ok(Offsets { items })
    }

    /// The offsets.
    pub fn as_slice(&self) -> &[u64]
        ensures { result.now ≡ self.now }
    {
        self.items.as_slice()
    }
}

impl PartialEq for Offsets {
    ghost use Rattle.std.specs.Prelude.{nat_eq};
    ghost use Rattle.std.specs.Cmp.{partial_equiv_from_equiv};
    ghost use Rattle.std.specs.Cmp.Lexicographic.{pointwise};
    ghost use Rattle.std.proofs.lemmas.Cmp.{nat_list_eq_equiv};

    ghost eq = { pointwise nat_eq };

    ghost laws = { partial_equiv_from_equiv nat_list_eq_equiv };

    fn eq(&self, other: &Offsets) -> bool {
        self.items == other.items
    }
}

impl Eq for Offsets {
    ghost use Rattle.std.proofs.lemmas.Cmp.{nat_list_eq_equiv};

    ghost laws = { nat_list_eq_equiv };
}

/// What adding a note did.
#[derive(Debug, Drop, PartialEq, Eq)]
pub enum Change {
    /// The note was held already, or is the head of a whole note that was held.
    Repeated,
    /// The note is new, and takes the place of its head if that was held. The offsets, rising, are those of the notes
    /// that were clear before and are disputed now; none is a head's.
    Added { moved: Offsets },
}

/// There was no memory for the note, which comes back.
#[derive(Debug, Drop, Error)]
#[error("out of memory")]
pub struct AddFault {
    pub note: Note,
}

impl From<AddFault> for OutOfMemory {
    fn from(_fault: AddFault) -> OutOfMemory {
        OutOfMemory
    }
}

/// A law of [`Catalogue::add`](crate::Catalogue::add): what it lists as moved are the offsets of exactly the notes that
/// were clear before and are disputed with the new note, rising.
pub fn moved_notes_by_definition()
    ensures members { (m n : NoteParts) (notes : List NoteParts)
        → In m (moved_notes n notes) ↔ IsClear m notes × IsDisputed m (reduced_with n notes) }
    ensures offsets { (n : NoteParts) (notes : List NoteParts)
        → moved_by n notes ≡ map (λ m. m.offset) (moved_notes n notes) }
    ensures rising { (n : NoteParts) (notes : List NoteParts) → IsContent notes → IsRising nat_cmp (moved_by n notes) }
{}
