//! The two parts of a content: its undisputed notes and its disputed ones.
ghost use Rattle.std.specs.Prelude.{◌≡◌, ◌≢◌, ◌↔◌, ◌⊎◌, ◌++◌, ◌+◌, ◌<◌, ◌≤◌, ℕ, [], length, map, false, vec_len};
ghost use Rattle.std.specs.Prelude.{vec_capacity, IsTrue, IfOk, OnOk};
ghost use Rattle.mxf_klv.specs.Parts.{NoteParts};
ghost use Rattle.mxf_klv.specs.Rising.{In};
ghost use Rattle.mxf_klv.specs.Note.{end_of, head_note};
ghost use Rattle.mxf_catalogue.specs.Content.{IsContent, has_note, reduced_union, reduced_with};
ghost use Rattle.mxf_catalogue.specs.Covers.{IsCover};
ghost use Rattle.mxf_catalogue.specs.Disputes.{SharesByte, whole_notes};
ghost use Rattle.mxf_catalogue.specs.NoteLists.{AreCatalogueOf, AreInParts, AreKept, notes_of, touching};
ghost use Rattle.mxf_catalogue.specs.Rooms.{AreRoomFor, HaveRoom, HaveRoomFor, HoldSame, TakeRoomOfOne};

use super::change::Offsets;
use super::merging::{MergedNotes, merged};
use super::placing::{hull, is_in, last_end, move_touched, put, put_over_head, tell, touched};
use crate::cover::{self, meets, put_run};
use crate::run::Run;
use mxf_klv::{MAX, Note, OutOfMemory};
use std::alloc::{AllocError, Global};

/// The undisputed notes of a content, its clear notes and the heads that share no byte with another, and the disputed
/// ones, each in their order, and the maximal runs of the spans of the disputed ones.
#[derive(Debug, Drop)]
pub(super) struct NoteLists {
    pub undisputed: Vec<Note>,
    pub disputed: Vec<Note>,
    pub disputed_spans: Vec<Run>,
}

impl NoteLists {
    /// No note.
    pub fn new(alloc: Global) -> NoteLists
        ensures undisputed { result.undisputed.items ≡ [] }
        ensures disputed { result.disputed.items ≡ [] }
        ensures disputed_spans { result.disputed_spans.items ≡ [] }
    {
        NoteLists {
            undisputed: Vec::new(alloc),
            disputed: Vec::new(alloc),
            disputed_spans: Vec::new(alloc),
        }
    }

    /// Equal lists, in new memory.
    pub fn copy(&self, alloc: Global) -> Result<NoteLists, OutOfMemory>
        ensures { IfOk result (HoldSame self.now) }
    {
        Ok(NoteLists {
            undisputed: copies_of(alloc, &self.undisputed)?,
            disputed: copies_of(alloc, &self.disputed)?,
            disputed_spans: Vec::from_slice(alloc, &self.disputed_spans)?,
        })
    }

    /// Whether one of the lists has the note.
    pub fn have(&self, note: &Note) -> bool
        requires { AreInParts self.now }
        ensures { IsTrue result ↔ In note.now (notes_of self.now) }
    {
        is_in(&self.undisputed, note) || is_in(&self.disputed, note)
    }

    /// The greatest end of a note, in bytes, a head's claimed end too; 0 if there is no note.
    pub fn end(&self) -> u64
        requires { AreKept self.now }
        ensures { (bound : ℕ) → result ≤ bound ↔ ((n : NoteParts) → In n (notes_of self.now) → end_of n ≤ bound) }
    {
        let disputed = cover::last_end(&self.disputed_spans);
        last_end(&self.undisputed).max(disputed)
    }

    /// Whether all notes have ended at the offset, in bytes, or below.
    pub fn end_by(&self, offset: u64) -> bool
        requires { AreKept self.now }
        ensures { IsTrue result ↔ ((n : NoteParts) → In n (notes_of self.now) → end_of n ≤ offset) }
    {
        self.end() <= offset
    }

    /// Whether one of the lists has the note, or, if it is a head, a note of its packet that was read whole.
    pub fn tell(&self, note: &Note) -> bool
        requires { AreInParts self.now }
        ensures { IsTrue result ↔ has_note (notes_of self.now) note.now }
    {
        tell(&self.undisputed, note) || tell(&self.disputed, note)
    }

    /// Makes room for a new note and for those that it moves; the answer is the offsets of those that are no heads.
    pub fn make_room(&mut self, note: &Note) -> Result<Offsets, AllocError>
        requires { AreInParts self.old }
        ensures same { HoldSame self.old self.new }
        ensures moved { IfOk result (λ o. o ≡ map (λ n. n.offset) (whole_notes
            (touching note.now self.old.undisputed.items))) }
        ensures room { OnOk result (HaveRoomFor note.now self.new) }
    {
        let moved = touched(&self.undisputed, note);
        let count = moved.len() + 1;
        let moved = Offsets::of(*self.undisputed.allocator(), moved)?;
        self.undisputed.reserve(1)?;
        self.disputed.reserve(count)?;
        self.disputed_spans.reserve(1)?;
        Ok(moved)
    }

    /// Whether a note shares no byte with those of the lists.
    fn are_apart_from(&self, note: &Note) -> bool
        requires { AreKept self.now }
        ensures far { IsTrue result → (n : NoteParts) → In n (notes_of self.now) → SharesByte note.now n → ⊥ }
        ensures near { result ≡ false → ((n : NoteParts) × In n (notes_of self.now) × SharesByte note.now n) }
    {
        touched(&self.undisputed, note).is_empty()
            && !meets(&self.disputed_spans, note.offset(), note.end() - 1)
    }

    /// Puts a note after all others. It begins where they have ended, or above, and there is room for it.
    pub fn append(&mut self, note: Note)
        requires kept { AreKept self.old }
        requires above { (n : NoteParts) → In n (notes_of self.old) → end_of n ≤ note.offset }
        requires room { vec_len self.old.undisputed < vec_capacity self.old.undisputed }
        ensures kept { AreKept self.new }
        ensures content { notes_of self.new ≡ reduced_with note (notes_of self.old) }
        ensures undisputed_len { vec_len self.new.undisputed ≤ vec_len self.old.undisputed + 1 }
        ensures disputed { self.new.disputed ≡ self.old.disputed }
        ensures disputed_spans { self.new.disputed_spans ≡ self.old.disputed_spans }
        ensures capacity { vec_capacity self.new.undisputed ≡ vec_capacity self.old.undisputed }
    {
        // What is held is a note.
        prove!(note.offset() <= MAX);
        self.undisputed.push_reserved(note);
    }

    /// Puts a new note into the lists, which have room for it and for what it moves.
    pub fn put(&mut self, note: Note)
        requires kept { AreKept self.old }
        requires new { has_note (notes_of self.old) note → ⊥ }
        requires room { HaveRoomFor note self.old }
        ensures kept { AreKept self.new }
        ensures content { notes_of self.new ≡ reduced_with note (notes_of self.old) }
        ensures room { TakeRoomOfOne self.old self.new }
    {
        // What is held is a note, which ends where a packet may.
        prove!(note.offset() <= MAX);
        if self.have(&note.to_head()) {
            self.put_in_place(note);
            return;
        }
        if self.are_apart_from(&note) {
            put(&mut self.undisputed, note);
            return;
        }
        let hull = hull(&note, touched(&self.undisputed, &note));
        put_run(&mut self.disputed_spans, hull);
        move_touched(&note, &mut self.undisputed, &mut self.disputed);
        put(&mut self.disputed, note);
    }

    /// Puts a new note in the place of its head. The spans of both are one, so nothing else changes.
    fn put_in_place(&mut self, note: Note)
        requires kept { AreKept self.old }
        requires new { has_note (notes_of self.old) note → ⊥ }
        requires head { In (head_note note) (notes_of self.old) }
        ensures kept { AreKept self.new }
        ensures content { notes_of self.new ≡ reduced_with note (notes_of self.old) }
        ensures room { TakeRoomOfOne self.old self.new }
    {
        // What is held is a note.
        prove!(note.offset() <= MAX);
        if is_in(&self.undisputed, &note.to_head()) {
            put_over_head(&mut self.undisputed, note);
        } else {
            put_over_head(&mut self.disputed, note);
        }
    }

    /// Empty lists with room for the given number of notes.
    pub fn with_room(alloc: Global, count: usize) -> Result<NoteLists, AllocError>
        ensures { IfOk result (λ p. AreRoomFor count p) }
    {
        Ok(NoteLists {
            undisputed: Vec::with_capacity(alloc, count)?,
            disputed: Vec::with_capacity(alloc, count)?,
            disputed_spans: Vec::with_capacity(alloc, count)?,
        })
    }

    /// Makes room for other notes and for all that they can move.
    pub fn reserve(&mut self, count: usize) -> Result<(), AllocError>
        ensures same { HoldSame self.old self.new }
        ensures room { OnOk result (HaveRoom count self.new) }
    {
        self.undisputed.reserve(count)?;
        self.disputed.reserve(self.undisputed.len() + count)?;
        self.disputed_spans.reserve(count)
    }

    /// Puts notes into the lists, and their spans among the runs, all of which have room. If the notes stand above all
    /// that is there, each takes a few binary searches.
    pub fn put_all(&mut self, runs: &mut Vec<Run>, notes: MergedNotes)
        requires whole { AreCatalogueOf self.old runs.old.items }
        requires cover { IsCover runs.old.items }
        requires room { HaveRoom (length notes) self.old }
        requires runs_room { vec_len runs.old + length notes ≤ vec_capacity runs.old }
        ensures whole { AreCatalogueOf self.new runs.new.items }
        ensures cover { IsCover runs.new.items }
        ensures content { notes_of self.new ≡ reduced_union (notes_of self.old) notes }
    {
        for note in notes {
            self.put_any(runs, note);
        }
    }

    /// Puts a note, held or new, into the lists, and its span among the runs.
    fn put_any(&mut self, runs: &mut Vec<Run>, note: Note)
        requires whole { AreCatalogueOf self.old runs.old.items }
        requires cover { IsCover runs.old.items }
        requires room { HaveRoom 1 self.old }
        requires runs_room { vec_len runs.old < vec_capacity runs.old }
        ensures whole { AreCatalogueOf self.new runs.new.items }
        ensures cover { IsCover runs.new.items }
        ensures content { notes_of self.new ≡ reduced_with note (notes_of self.old) }
        ensures room { TakeRoomOfOne self.old self.new }
        ensures runs_len { vec_len runs.new ≤ vec_len runs.old + 1 }
        ensures runs_capacity { vec_capacity runs.new ≡ vec_capacity runs.old }
    {
        // What is held is a note, which ends where a packet may.
        prove!(note.offset() <= MAX);
        let span = Run {
            start: note.offset(),
            end: note.covered_end(),
        };
        if self.end_by(note.offset()) {
            put_run(runs, span);
            self.append(note);
            return;
        }
        if self.tell(&note) {
            return;
        }
        put_run(runs, span);
        self.put(note);
    }

    /// The number of notes in both lists.
    pub fn len(&self) -> usize
        requires { AreInParts self.now }
        ensures { result ≡ length (notes_of self.now) }
    {
        self.undisputed.len() + self.disputed.len()
    }

    /// An empty list with the room that [`into_notes`](NoteLists::into_notes) asks for: none if nothing is disputed.
    pub fn list_room(&self, alloc: Global) -> Result<Vec<Note>, AllocError>
        requires { AreInParts self.now }
        ensures empty { IfOk result (λ room. room.items ≡ []) }
        ensures room { IfOk result (λ room. self.now.disputed.items ≢ []
            → length (notes_of self.now) ≤ vec_capacity room) }
    {
        if self.disputed.is_empty() {
            return Ok(Vec::new(alloc));
        }
        Vec::with_capacity(alloc, self.len())
    }

    /// The notes of both lists, in their order. They are moved into an empty list that has room for them, unless
    /// nothing is disputed.
    pub fn into_notes(self, room: Vec<Note>) -> Vec<Note>
        requires lists { AreInParts self }
        requires empty { room.items ≡ [] }
        requires room { self.disputed.items ≢ [] → length (notes_of self) ≤ vec_capacity room }
        ensures notes { result.items ≡ notes_of self }
        ensures content { IsContent result.items }
    {
        if self.disputed.is_empty() {
            return self.undisputed;
        }
        merged(room, self.undisputed, self.disputed)
    }

    /// Whether all notes of other lists stand above those of these.
    pub fn stand_below(&self, others: &NoteLists) -> bool {
        let Some(first) = others.first() else {
            return true;
        };
        is_below(self.undisputed.last(), first) && is_below(self.disputed.last(), first)
    }

    /// The first note of both lists.
    fn first(&self) -> Option<&Note> {
        match (self.undisputed.first(), self.disputed.first()) {
            (Some(undisputed), Some(disputed)) => Some(undisputed.min(disputed)),
            (undisputed, disputed) => undisputed.or(disputed),
        }
    }
}

/// Equal notes, in new memory, of which no more is taken.
fn copies_of(alloc: Global, notes: &[Note]) -> Result<Vec<Note>, OutOfMemory>
    ensures { IfOk result (λ copies. copies.items ≡ notes.now) }
{
    let mut copies = Vec::with_capacity(alloc, notes.len())?;
    for note in notes {
        copies.push(note.clone_in(alloc)?)?;
    }
    Ok(copies)
}

/// Whether a last note, if there is one, stands below the other.
fn is_below(last: Option<&Note>, note: &Note) -> bool {
    match last {
        Some(last) => last < note,
        None => true,
    }
}
