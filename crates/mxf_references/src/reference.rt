//! Sets found by their instance identifiers.
ghost use Rattle.std.specs.Prelude.{◌≡◌, ◌↔◌, ℕ, List, filter};
ghost use Rattle.mxf_klv.specs.Parts.{NoteParts};
ghost use Rattle.mxf_catalogue.specs.Content.{IsContent};
ghost use Rattle.mxf_views.specs.Copies.{sets_of};
ghost use Rattle.mxf_references.specs.declared.reference.Found.{Found};
ghost use Rattle.mxf_sets.specs.Instance.{instance_uid_at};
ghost use Rattle.mxf_references.specs.References.{IsFound, found_among, found_in, has_uid, reads_uid};

pub(crate) mod identified;
pub(crate) mod resolved;
pub(crate) mod target;

use mxf_klv::Note;
use mxf_sets::instance_uid;
use mxf_views::{Sets, Views};
use uuid::Uuid;

/// What is found of an identifier among the sets of a copy (ST 377-1, strong references).
///
/// Sets name each other by their instance identifiers, which are unique in a copy of the header metadata. Of a copy
/// that is held in parts the set may be missing, and of one that is damaged several can have the identifier.
#[derive(Clone, Copy, Debug, PartialEq, Eq)]
pub enum Found {
    Absent,
    /// The one set that has it, by its file offset in bytes.
    One(u64),
    Several,
}

fn reads_uid(value: &[u8], uid: &Uuid) -> bool
    ensures { result ≡ reads_uid uid.now (instance_uid_at value.now) }
{
    match instance_uid(value) {
        Ok(own) => own == *uid,
        Err(_) => false,
    }
}

/// Whether the set is kept, and its instance identifier can be read and is this one.
#[tactic(auto, unfolding(crate::specs::References::has_uid))]
pub(crate) fn has_uid(note: &Note, uid: &Uuid) -> bool
    ensures { result ≡ has_uid uid.now note.now }
{
    note.value().is_some_and(|value| reads_uid(value, uid))
}

/// The set with the identifier.
pub(crate) fn find_among(sets: Sets<'_>, uid: &Uuid) -> Found
    ensures { result ≡ found_among (filter (has_uid uid.now) sets.entry) }
{
    let mut found = Found::Absent;
    for note in sets {
        if has_uid(note, uid) {
            match found {
                Found::Absent => found = Found::One(note.offset()),
                _ => return Found::Several,
            }
        }
    }
    found
}

/// A law of [`find`](crate::find): what is found is determined by the number of the sets of the copy that
/// have the identifier.
pub fn found_by_definition()
    ensures { (notes : List NoteParts) (partition : ℕ) (uid : List ℕ) (found : Found) → IsContent notes
        → (found_in notes partition uid ≡ found) ↔ IsFound (sets_of notes partition) uid found }
{}
