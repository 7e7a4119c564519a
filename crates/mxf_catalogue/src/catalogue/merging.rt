//! Merging: the notes of two contents in one list, by moving them, and the room for that.
ghost use Rattle.std.specs.Prelude.{◌≡◌, ◌≢◌, ◌+◌, ◌≤◌, ◌∷◌, [], length, vec_len, vec_capacity, IfOk, IfSome};
ghost use Rattle.std.specs.Prelude.{MatchOption};
ghost use Rattle.std.specs.Iterator.{YieldsFirst, item_count};
ghost use Rattle.mxf_catalogue.specs.Content.{IsContent, union_of};
ghost use Rattle.mxf_catalogue.specs.NoteLists.{AreInParts, notes_of};
ghost use Rattle.mxf_catalogue.specs.Rooms.{AreRoomFor, IsRoomFor};

use super::Catalogue;
use super::note_lists::NoteLists;
use crate::run::Run;
use mxf_klv::{Note, OutOfMemory};
use std::alloc::{AllocError, Global};
use std::cmp::Ordering;
use std::collections::VecDeque;
use std::marker::Model;
use thiserror::Error;

/// There was no memory to merge the other catalogue, which comes back.
#[derive(Debug, Drop, Error)]
#[error("out of memory")]
pub struct MergeFault {
    pub other: Catalogue,
}

impl From<MergeFault> for OutOfMemory {
    fn from(_fault: MergeFault) -> OutOfMemory {
        OutOfMemory
    }
}

/// What the merging of two catalogues needs: a list for the notes of each that has disputed ones, and lists and runs
/// for those of both.
#[derive(Drop)]
pub(super) struct Room {
    pub own: Vec<Note>,
    pub others: Vec<Note>,
    pub lists: NoteLists,
    pub runs: Vec<Run>,
}

impl Room {
    /// Room for the notes of both.
    pub fn of(alloc: Global, own: &NoteLists, others: &NoteLists) -> Result<Room, AllocError>
        requires own_lists { AreInParts own.now }
        requires other_lists { AreInParts others.now }
        ensures own_empty { IfOk result (λ r. r.own.items ≡ []) }
        ensures own { IfOk result (λ r. own.now.disputed.items ≢ [] → length (notes_of own.now) ≤ vec_capacity r.own) }
        ensures others_empty { IfOk result (λ r. r.others.items ≡ []) }
        ensures others { IfOk result (λ r. others.now.disputed.items ≢ []
            → length (notes_of others.now) ≤ vec_capacity r.others) }
        ensures lists { IfOk result (λ r. AreRoomFor (length (notes_of own.now) + length (notes_of others.now)) r.lists) }
        ensures runs { IfOk result (λ r. IsRoomFor (length (notes_of own.now) + length (notes_of others.now)) r.runs) }
    {
        let count = own.len().checked_add(others.len()).ok_or(AllocError)?;
        Ok(Room {
            own: own.list_room(alloc)?,
            others: others.list_room(alloc)?,
            lists: NoteLists::with_room(alloc, count)?,
            runs: Vec::with_capacity(alloc, count)?,
        })
    }
}

/// The notes that two contents have left, in their order, each once. They are moved out.
#[derive(Drop)]
pub(super) struct MergedNotes {
    left: VecDeque<Note>,
    right: VecDeque<Note>,
}

impl Model for MergedNotes {
    ghost use Rattle.std.specs.Prelude.{List};
    ghost use Rattle.mxf_klv.specs.Parts.{NoteParts};
    ghost use Rattle.mxf_catalogue.specs.Content.{IsContent, union_of};

    ghost Value = { List NoteParts };

    ghost view = { λ s. union_of s.left.items s.right.items };

    ghost invariant = { λ s. IsContent s.left.items × IsContent s.right.items };
}

impl MergedNotes {
    pub fn of(left: Vec<Note>, right: Vec<Note>) -> MergedNotes
        requires left { IsContent left.items }
        requires right { IsContent right.items }
        ensures notes { result ≡ union_of left.items right.items }
        ensures len { length result ≤ vec_len left + vec_len right }
    {
        MergedNotes {
            left: VecDeque::from(left),
            right: VecDeque::from(right),
        }
    }
}

impl Iterator for MergedNotes {
    type Item = Note;

    ghost next_gives = { YieldsFirst (λ s. s) };

    ghost remaining = { item_count (λ s. s) };

    fn next(&mut self) -> Option<Note> {
        take_first(&mut self.left, &mut self.right)
    }
}

/// Takes the first note out of two contents.
fn take_first(left: &mut VecDeque<Note>, right: &mut VecDeque<Note>) -> Option<Note>
    requires left { IsContent left.old.items }
    requires right { IsContent right.old.items }
    ensures first { MatchOption result
        ((union_of left.old.items right.old.items ≡ []) × (union_of left.new.items right.new.items ≡ []))
        (λ n. union_of left.old.items right.old.items ≡ n ∷ union_of left.new.items right.new.items) }
    ensures left { IsContent left.new.items }
    ensures right { IsContent right.new.items }
{
    let Some(a) = left.front() else {
        return right.pop_front();
    };
    let Some(b) = right.front() else {
        return left.pop_front();
    };
    match a.cmp(b) {
        Ordering::Less => left.pop_front(),
        Ordering::Equal => {
            drop(right.pop_front());
            left.pop_front()
        }
        Ordering::Greater => right.pop_front(),
    }
}

/// Moves the notes of two contents into an empty list that has room for them, in their order, each once.
pub(super) fn merged(mut room: Vec<Note>, left: Vec<Note>, right: Vec<Note>) -> Vec<Note>
    requires left { IsContent left.items }
    requires right { IsContent right.items }
    requires empty { room.items ≡ [] }
    requires room { length (union_of left.items right.items) ≤ vec_capacity room }
    ensures notes { result.items ≡ union_of left.items right.items }
    ensures content { IsContent result.items }
{
    for note in MergedNotes::of(left, right) {
        room.push_reserved(note);
    }
    room
}
