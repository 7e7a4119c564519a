//! The header metadata sets of a copy.
ghost use Rattle.std.specs.Prelude.{◌≡◌, ◌↔◌, ◌<◌, ◌^◌, ℕ, List, Option, [], filter, length};
ghost use Rattle.mxf_klv.specs.Bytes.{AreBytes};
ghost use Rattle.mxf_klv.specs.Parts.{NoteParts};
ghost use Rattle.mxf_klv.specs.Rising.{In};
ghost use Rattle.mxf_catalogue.specs.Content.{IsContent};
ghost use Rattle.mxf_catalogue.specs.Disputes.{AreApart, clear_notes};
ghost use Rattle.std.specs.Iterator.{YieldsFirstRef, item_count};
ghost use Rattle.mxf_sets.specs.Items.{ItemParts};
ghost use Rattle.mxf_views.specs.SetItems.{AreSetItems, set_items, whole_items};
ghost use Rattle.mxf_views.specs.Copies.{IsSetOf, is_set_note, sets_from, sets_of};

use super::CopyInfo;
use crate::copy::zone::is_set;
use mxf_catalogue::{Catalogue, ClearNotes};
use mxf_klv::Note;
use mxf_sets::{Items, items};
use std::marker::Model;

/// The notes of the header metadata sets of a copy that are left, rising.
#[derive(Drop)]
pub struct Sets<'a> {
    zone: ClearNotes<'a>,
}

impl<'a> Model for Sets<'a> {
    ghost use Rattle.std.specs.Prelude.{List, filter};
    ghost use Rattle.mxf_klv.specs.Parts.{NoteParts};
    ghost use Rattle.mxf_views.specs.Copies.{is_set_note};

    ghost Value = { List NoteParts };

    ghost view = { λ s. filter is_set_note s.zone };
}

impl<'a> Sets<'a> {
    pub(crate) fn of(zone: ClearNotes<'a>) -> Sets<'a>
        requires { length zone < 2 ^ 64 }
        ensures sets { result ≡ filter is_set_note zone.entry }
        ensures bound { length result < 2 ^ 64 }
    {
        Sets { zone }
    }
}

impl<'a> Iterator for Sets<'a> {
    type Item = &'a Note;

    ghost next_gives = { YieldsFirstRef (λ s. s) };

    ghost remaining = { item_count (λ s. s) };

    fn next(&mut self) -> Option<&'a Note> {
        while let Some(note) = self.zone.next() {
            if is_set(note) {
                return Some(note);
            }
        }
        None
    }
}

/// No sets.
pub(crate) fn no_sets(catalogue: &Catalogue) -> Sets<'_>
    ensures none { result ≡ [] }
    ensures bound { length result < 2 ^ 64 }
{
    Sets::of(catalogue.clear_within(0, 0))
}

/// The sets of a copy, none if it has no start.
pub(crate) fn sets_of_copy<'a>(catalogue: &'a Catalogue, copy: &CopyInfo) -> Sets<'a>
    ensures sets { result ≡ sets_from (clear_notes catalogue.now) copy.now.bytes copy.now.start }
    ensures bound { length result < 2 ^ 64 }
{
    match copy.start {
        Some(start) => Sets::of(catalogue.clear_within(start, copy.bytes)),
        None => no_sets(catalogue),
    }
}

/// The items of a value, if they make up all of it.
pub fn whole_items(value: &[u8]) -> Option<Items<'_>>
    ensures { result ≡ whole_items value.now }
{
    items(value).ok()
}

/// The items of a header metadata set (ST 336, local sets), in their order. None if the note is no such set, keeps no
/// value, or has an item that isn't whole.
#[tactic(auto, unfolding(crate::specs::SetItems::set_items))]
pub fn set_items(note: &Note) -> Option<Items<'_>>
    ensures { result ≡ set_items note.now }
{
    if !is_set(note) {
        return None;
    }
    whole_items(note.value()?)
}

/// A law of [`Views::sets`](crate::Views::sets): they are the clear sets that lie wholly in the bytes of the copy,
/// and rise.
pub fn sets_by_definition()
    ensures sets { (notes : List NoteParts) (partition : ℕ) (n : NoteParts) → IsContent notes
        → In n (sets_of notes partition) ↔ IsSetOf notes partition n }
    ensures rising { (notes : List NoteParts) (partition : ℕ) → IsContent notes → AreApart 0 (sets_of notes partition) }
{}

/// A law of [`set_items`]: a note has items exactly if it is a header metadata set that keeps its value, and these
/// items, one after another, make up all of it.
pub fn set_items_by_definition()
    ensures { (n : NoteParts) (items : Option (List ItemParts)) → AreBytes n.held
        → (set_items n ≡ items) ↔ AreSetItems n items }
{}
