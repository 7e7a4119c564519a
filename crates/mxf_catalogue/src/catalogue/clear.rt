//! The clear notes of a catalogue: those of whole packets that share no byte with another.
ghost use Rattle.std.specs.Prelude.{◌≡◌, ◌≢◌, ◌↔◌, ◌^◌, ◌<◌, List, length};
ghost use Rattle.std.specs.Iterator.{YieldsFirstRef, item_count};
ghost use Rattle.mxf_klv.specs.Parts.{NoteParts};
ghost use Rattle.mxf_klv.specs.Rising.{In};
ghost use Rattle.mxf_catalogue.specs.Content.{IsContent};
ghost use Rattle.mxf_catalogue.specs.Disputes.{IsClear, SharesByte, clear_notes, whole_notes};

use mxf_klv::Note;
use std::marker::Model;

/// The clear notes of a catalogue that are left, in their order.
#[derive(Drop)]
pub struct ClearNotes<'a> {
    left: &'a [Note],
}

impl<'a> Model for ClearNotes<'a> {
    ghost use Rattle.std.specs.Prelude.{List};
    ghost use Rattle.mxf_klv.specs.Parts.{NoteParts};
    ghost use Rattle.mxf_catalogue.specs.Disputes.{whole_notes};

    ghost Value = { List NoteParts };

    ghost view = { λ s. whole_notes s.left.now };
}

impl<'a> ClearNotes<'a> {
    pub(super) fn of(notes: &'a [Note]) -> ClearNotes<'a>
        ensures notes { result ≡ whole_notes notes.now }
        ensures bound { length result < 2 ^ 64 }
    {
        ClearNotes { left: notes }
    }
}

impl<'a> Iterator for ClearNotes<'a> {
    type Item = &'a Note;

    ghost next_gives = { YieldsFirstRef (λ s. s) };

    ghost remaining = { item_count (λ s. s) };

    fn next(&mut self) -> Option<&'a Note> {
        while let Some((first, left)) = self.left.split_first() {
            self.left = left;
            if !first.is_head() {
                return Some(first);
            }
        }
        None
    }
}

/// A law of [`Catalogue::clear`](crate::Catalogue::clear): its list has exactly the clear notes, in their order.
pub fn clear_notes_by_definition()
    ensures members { (n : NoteParts) (notes : List NoteParts) → In n (clear_notes notes) ↔ IsClear n notes }
    ensures order { (notes : List NoteParts) → IsContent notes → IsContent (clear_notes notes) }
{}

/// A law: a clear note shares no byte with another note, so it is the only one with its offset.
pub fn clear_notes_stand_apart()
    ensures bytes { (m n : NoteParts) (notes : List NoteParts)
        → IsClear m notes → In n notes → m ≢ n → SharesByte m n → ⊥ }
    ensures offsets { (m n : NoteParts) (notes : List NoteParts)
        → IsClear m notes → In n notes → m.offset ≡ n.offset → m ≡ n }
{}
