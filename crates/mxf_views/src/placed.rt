//! The clear notes that something is kept of.
ghost use Rattle.std.specs.Prelude.{◌≡◌};
ghost use Rattle.std.specs.Iterator.{YieldsFirstRef, item_count};
ghost use Rattle.mxf_views.specs.Kept.{notes_at};

use mxf_catalogue::Catalogue;
use mxf_klv::{Keyed, Note};
use std::marker::Model;

/// The clear notes of a catalogue that are left, at the keys of what is kept of them, which are file offsets.
#[derive(Drop)]
pub struct NotesAt<'a, T: Keyed> {
    catalogue: &'a Catalogue,
    kept: &'a [T],
}

impl<'a, T: Keyed> Model for NotesAt<'a, T> {
    ghost use Rattle.std.specs.Prelude.{List};
    ghost use Rattle.mxf_klv.specs.Parts.{NoteParts};
    ghost use Rattle.mxf_views.specs.Kept.{notes_at};

    ghost Value = { List NoteParts };

    ghost view = { λ s. notes_at T.key s.catalogue.now s.kept.now };
}

impl<'a, T: Keyed> NotesAt<'a, T> {
    pub(crate) fn of(catalogue: &'a Catalogue, kept: &'a [T]) -> NotesAt<'a, T>
        ensures { result ≡ notes_at T.key catalogue.now kept.now }
    {
        NotesAt { catalogue, kept }
    }
}

impl<'a, T: Keyed> Iterator for NotesAt<'a, T> {
    type Item = &'a Note;

    ghost next_gives = { YieldsFirstRef (λ s. s) };

    ghost remaining = { item_count (λ s. s) };

    fn next(&mut self) -> Option<&'a Note> {
        while let Some((first, left)) = self.kept.split_first() {
            self.kept = left;
            if let Some(note) = self.catalogue.clear_at(first.key()) {
                return Some(note);
            }
        }
        None
    }
}
