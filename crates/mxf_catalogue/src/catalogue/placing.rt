//! Where notes stand in a content: at its end, or by binary search.
ghost use Rattle.std.specs.Prelude.{◌≡◌, ◌≢◌, ◌↔◌, ◌+◌, ◌<◌, ◌≤◌, ◌++◌, ℕ, take, drop, filter, map, length, vec_len};
ghost use Rattle.std.specs.Prelude.{vec_capacity, IsTrue, IfErr, IfNone, IfOk, IfSome, OnOk};
ghost use Rattle.std.specs.List.{AllWithin};
ghost use Rattle.mxf_klv.specs.Parts.{NoteParts};
ghost use Rattle.mxf_klv.specs.Note.{end_of, head_note};
ghost use Rattle.mxf_klv.specs.Rising.{In};
ghost use Rattle.mxf_catalogue.specs.Content.{AreReduced, IsCatalogue, IsContent, IsPlace, has_note, reduced_with};
ghost use Rattle.mxf_catalogue.specs.Content.{with_note, union_of};
ghost use Rattle.mxf_catalogue.specs.Covers.{spanned};
ghost use Rattle.mxf_catalogue.specs.Disputes.{lies_in};
ghost use Rattle.mxf_catalogue.specs.NoteLists.{StandApart, touching, away_from, run_of};

use crate::run::Run;
use mxf_klv::{Note, below};

/// Where the note is, or where it goes: after all others at once if it stands above them, otherwise by binary search.
fn place(notes: &[Note], note: &Note) -> Result<usize, usize>
    requires { IsContent notes.now }
    ensures found { OnOk result (In note.now notes.now) }
    ensures absent { IfErr result (λ at. IsPlace note.now notes.now at) }
{
    match notes.last() {
        Some(last) if last < note => Err(notes.len()),
        _ => notes.binary_search(note),
    }
}

/// Whether the note is one of the content.
pub(super) fn is_in(notes: &[Note], note: &Note) -> bool
    requires { IsContent notes.now }
    ensures { IsTrue result ↔ In note.now notes.now }
{
    place(notes, note).is_ok()
}

/// Whether the note is one of the content, or the head of one: that stands directly after the place of the head.
pub(super) fn tell(notes: &[Note], note: &Note) -> bool
    requires { IsContent notes.now }
    ensures { IsTrue result ↔ has_note notes.now note.now }
{
    match place(notes, note) {
        Ok(_) => true,
        Err(at) => match notes.get(at) {
            Some(next) => next.tells(note),
            None => false,
        },
    }
}

/// Puts a new note in the place of its head, which is one of the content.
pub(super) fn put_over_head(notes: &mut Vec<Note>, note: Note)
    requires content { IsContent notes.old.items }
    requires reduced { AreReduced notes.old.items }
    requires head { In (head_note note) notes.old.items }
    requires new { In note notes.old.items → ⊥ }
    ensures items { notes.new.items ≡ reduced_with note notes.old.items }
    ensures len { vec_len notes.new ≡ vec_len notes.old }
    ensures room { vec_capacity notes.new ≡ vec_capacity notes.old }
{
    match notes.binary_search(&note.to_head()) {
        Ok(at) => notes[at] = note,
        Err(_) => unreachable!(),
    }
}

/// The end of the last of the notes, of which no two share a byte; 0 if there is none.
pub(super) fn last_end(notes: &[Note]) -> u64
    requires content { IsContent notes.now }
    requires apart { StandApart notes.now }
    ensures { (bound : ℕ) → result ≤ bound ↔ ((n : NoteParts) → In n notes.now → end_of n ≤ bound) }
{
    match notes.last() {
        Some(last) => last.end(),
        None => 0,
    }
}

/// The number of the notes that end at or below the offset, of which no two share a byte.
pub(super) fn ending_by(notes: &[Note], offset: u64) -> usize
    requires content { IsContent notes.now }
    requires apart { StandApart notes.now }
    ensures bound { result ≤ length notes.now }
    ensures below { AllWithin (λ n. end_of n ≤ offset) notes.now 0 result }
    ensures above { AllWithin (λ n. offset < end_of n) notes.now result (length notes.now) }
{
    match notes.last() {
        Some(last) if last.end() <= offset => notes.len(),
        _ => notes.partition_point(|note| note.end() <= offset),
    }
}

/// The number of the notes that start below the offset.
pub(super) fn starting_below(notes: &[Note], offset: u64) -> usize
    requires { IsContent notes.now }
    ensures bound { result ≤ length notes.now }
    ensures below { AllWithin (λ n. n.offset < offset) notes.now 0 result }
    ensures above { AllWithin (λ n. offset ≤ n.offset) notes.now result (length notes.now) }
{
    below(notes, offset)
}

/// From where to where notes, of which no two share a byte, share one with the note.
fn range(notes: &[Note], note: &Note) -> (usize, usize)
    requires content { IsContent notes.now }
    requires apart { StandApart notes.now }
    ensures order { result.0 ≤ result.1 }
    ensures bound { result.1 ≤ length notes.now }
    ensures touching { drop result.0 (take result.1 notes.now) ≡ touching note.now notes.now }
    ensures others { take result.0 notes.now ++ drop result.1 notes.now ≡ away_from note.now notes.now }
{
    let from = ending_by(notes, note.offset());
    let to = starting_below(notes, note.end());
    (from, to)
}

/// The notes that share a byte with the note, among notes of which no two share one.
pub(super) fn touched<'a>(notes: &'a [Note], note: &Note) -> &'a [Note]
    requires content { IsContent notes.now }
    requires apart { StandApart notes.now }
    ensures { result.now ≡ touching note.now notes.now }
{
    let (from, to) = range(notes, note);
    let (front, _) = notes.split_at(to);
    let (_, touched) = front.split_at(from);
    touched
}

/// The notes that lie wholly in the range of `bytes` bytes from `start` on, among notes of which no two share a byte.
pub(super) fn within(notes: &[Note], start: u64, bytes: u64) -> &[Note]
    requires catalogue { IsCatalogue notes.now }
    requires apart { StandApart notes.now }
    ensures { result.now ≡ filter (lies_in start bytes) notes.now }
{
    // No note ends above the greatest number.
    let to = ending_by(notes, start.saturating_add(bytes));
    let from = starting_below(notes, start).min(to);
    let (front, _) = notes.split_at(to);
    let (_, within) = front.split_at(from);
    within
}

/// The note with the offset.
pub(super) fn at_offset(notes: &[Note], offset: u64) -> Option<&Note>
    requires { IsContent notes.now }
    ensures found { IfSome result (λ n. In n.now notes.now × (n.now.offset ≡ offset)) }
    ensures none { IfNone result ((n : NoteParts) → In n notes.now → n.offset ≢ offset) }
{
    let at = starting_below(notes, offset);
    match notes.get(at) {
        Some(note) if note.offset() == offset => Some(note),
        _ => None,
    }
}

/// Puts the note into a content that has room for one more.
pub(super) fn put(notes: &mut Vec<Note>, note: Note)
    requires content { IsContent notes.old.items }
    requires room { vec_len notes.old < vec_capacity notes.old }
    ensures items { notes.new.items ≡ with_note note notes.old.items }
    ensures content { IsContent notes.new.items }
    ensures len { vec_len notes.new ≤ vec_len notes.old + 1 }
    ensures room { vec_capacity notes.new ≡ vec_capacity notes.old }
{
    match place(notes, &note) {
        Ok(_) => (),
        Err(at) => match notes.insert(at, note) {
            Ok(()) => (),
            Err(_) => unreachable!(),
        },
    }
}

/// Moves the notes that share a byte with the note into a content that has room for them.
pub(super) fn move_touched(note: &Note, notes: &mut Vec<Note>, others: &mut Vec<Note>)
    requires notes { IsContent notes.old.items }
    requires apart { StandApart notes.old.items }
    requires others { IsContent others.old.items }
    requires room { vec_len others.old + length (touching note.now notes.old.items) ≤ vec_capacity others.old }
    ensures left { notes.new.items ≡ away_from note.now notes.old.items }
    ensures left_len { vec_len notes.new + length (touching note.now notes.old.items) ≡ vec_len notes.old }
    ensures left_room { vec_capacity notes.new ≡ vec_capacity notes.old }
    ensures moved { others.new.items ≡ union_of others.old.items (touching note.now notes.old.items) }
    ensures content { IsContent others.new.items }
    ensures len { vec_len others.new ≤ vec_len others.old + length (touching note.now notes.old.items) }
    ensures room { vec_capacity others.new ≡ vec_capacity others.old }
{
    let (from, to) = range(notes, note);
    for moved in notes.drain(from..to) {
        put(others, moved);
    }
}

/// From the least start of the spans of the note and of others to the greatest end.
pub(super) fn hull(note: &Note, others: &[Note]) -> Run
    ensures { result ≡ spanned (run_of note.now) (map run_of others.now) }
{
    let mut all = Run {
        start: note.offset(),
        end: note.end(),
    };
    for other in others {
        all = Run {
            start: all.start.min(other.offset()),
            end: all.end.max(other.end()),
        };
    }
    all
}
