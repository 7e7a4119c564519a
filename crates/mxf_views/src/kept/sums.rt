//! What clear notes cover and how many Prefaces are among them, summed up from mark to mark for many zones.
ghost use Rattle.std.specs.Prelude.{◌≡◌, ◌≤◌, ◌<◌, ◌+◌, ◌++◌, ◌∷◌, ◌⊎◌, ◌^◌, if◌then◌else◌, IfSome, List, [], count_by};
ghost use Rattle.std.specs.Prelude.{length, vec_len, vec_capacity};
ghost use Rattle.std.specs.List.{AllWithin};
ghost use Rattle.std.specs.List.Sorted.{IsNonDecreasingBy};
ghost use Rattle.mxf_klv.specs.Parts.{NoteParts};
ghost use Rattle.mxf_catalogue.specs.Content.{IsCatalogue};
ghost use Rattle.mxf_catalogue.specs.Disputes.{AreApart, clear_notes};
ghost use Rattle.mxf_views.specs.Copies.{copies_among, copy_of, covered_of, has_metadata, is_preface_note, prefaces_of};
ghost use Rattle.mxf_views.specs.KeptAbove.{clear_from};
ghost use Rattle.mxf_views.specs.Sums.{AreInRange, AreMarks};

use super::keyed::push;
use crate::copy::zone::{Counts, is_preface};
use crate::copy::{CopyInfo, counts, has_metadata, start_of, with_start, without_start};
use crate::partition::Partition;
use mxf_catalogue::{Catalogue, ClearNotes};
use mxf_klv::{Keyed, Note, below, up_to};
use std::marker::Model;

/// How many notes stand from one mark to the next.
const SPACING: usize = 64;

/// An offset that no clear note lies across, and what the notes below it cover and how many Prefaces are among them.
#[derive(Clone, Copy)]
pub(crate) struct Mark {
    pub offset: u64,
    pub covered: u64,
    pub prefaces: usize,
}

/// Marks rise by their offsets.
impl Keyed for Mark {
    ghost key = { λ m. m.offset };

    fn key(&self) -> u64 {
        self.offset
    }
}

/// The clear notes of a catalogue from a boundary on, with marks among them.
#[derive(Drop)]
pub(super) struct Sums<'a> {
    catalogue: &'a Catalogue,
    boundary: u64,
    marks: Vec<Mark>,
}

impl<'a> Model for Sums<'a> {
    ghost use Rattle.mxf_views.specs.KeptAbove.{clear_from};
    ghost use Rattle.mxf_views.specs.Sums.{AreMarks, SumsParts};

    ghost Value = { SumsParts };

    ghost view = { λ s. record { notes = s.catalogue.now; boundary = s.boundary } };

    ghost invariant = { λ s. AreMarks (clear_from s.boundary s.catalogue.now) s.marks.items };
}

impl<'a> Sums<'a> {
    /// The clear notes from a boundary on, with marks among them as far as an empty list has room for some.
    pub fn of(catalogue: &'a Catalogue, boundary: u64, mut room: Vec<Mark>) -> Sums<'a>
        requires { room.items ≡ [] }
        ensures notes { result.notes ≡ catalogue.now }
        ensures boundary { result.boundary ≡ boundary }
    {
        put_marks(&mut room, catalogue.clear_within(boundary, u64::MAX));
        Sums {
            catalogue,
            boundary,
            marks: room,
        }
    }

    /// The catalogue whose clear notes are summed up.
    pub fn catalogue(&self) -> &'a Catalogue
        ensures { result.now ≡ self.now.notes }
    {
        self.catalogue
    }

    /// From where on, in bytes from the start of the file.
    pub fn boundary(&self) -> u64
        ensures { result ≡ self.now.boundary }
    {
        self.boundary
    }

    /// What the clear notes that lie wholly in a range cover, and how many Prefaces are among them: a few binary
    /// searches, and a walk over the notes before the first mark in the range and after the last.
    pub fn counts(&self, start: u64, bytes: u64) -> Counts
        requires { self.now.boundary ≤ start }
        ensures covered { result.covered ≡ covered_of start bytes (clear_notes self.now.notes) }
        ensures prefaces { result.prefaces ≡ prefaces_of start bytes (clear_notes self.now.notes) }
    {
        match marks_within(&self.marks, start, bytes) {
            Some((first, last)) => self.counts_by(start, bytes, &first, &last),
            None => counts(self.catalogue, start, bytes),
        }
    }

    /// The same by two marks in the range.
    fn counts_by(&self, start: u64, bytes: u64, first: &Mark, last: &Mark) -> Counts
        requires above { self.now.boundary ≤ start }
        requires marks { AreInRange (clear_from self.now.boundary self.now.notes) start bytes first.now last.now }
        ensures covered { result.covered ≡ covered_of start bytes (clear_notes self.now.notes) }
        ensures prefaces { result.prefaces ≡ prefaces_of start bytes (clear_notes self.now.notes) }
    {
        self.catalogue.laws();
        let below = counts(self.catalogue, start, first.offset - start);
        let rest = bytes - (last.offset - start);
        let above = counts(self.catalogue, last.offset, rest);
        Counts {
            covered: below.covered + (last.covered - first.covered) + above.covered,
            prefaces: below.prefaces + (last.prefaces - first.prefaces) + above.prefaces,
        }
    }

    /// The copy of the partition.
    #[tactic(auto, unfolding(crate::specs::Copies::copy_of))]
    fn copy_of(&self, partition: &Partition) -> CopyInfo
        requires { self.now.boundary ≤ partition.now.end }
        ensures { result ≡ copy_of (clear_notes self.now.notes) partition.now }
    {
        let Some(start) = start_of(self.catalogue, partition.end) else {
            return without_start(partition);
        };
        let bytes = partition.numbers.header_byte_count;
        with_start(partition, start, self.counts(start, bytes))
    }
}

/// Puts the copies of partitions from the boundary on after others, if there is room.
pub(super) fn append_copies(copies: &mut Vec<CopyInfo>, sums: &Sums<'_>, partitions: &[Partition])
    requires above { AllWithin (λ p. sums.now.boundary ≤ p.end) partitions.now 0 (length partitions.now) }
    requires room { vec_len copies.old + count_by has_metadata partitions.now ≤ vec_capacity copies.old }
    ensures { copies.new.items ≡ copies.old.items ++ copies_among (clear_notes sums.now.notes) partitions.now }
{
    for partition in partitions {
        if has_metadata(partition) {
            push(copies, sums.copy_of(partition));
        }
    }
}

/// The first and the last mark in a range.
fn marks_within(marks: &[Mark], start: u64, bytes: u64) -> Option<(Mark, Mark)>
    requires { IsNonDecreasingBy (λ m. m.offset) marks.now }
    ensures { (notes : List NoteParts) → AreMarks notes marks.now
        → IfSome result (λ r. AreInRange notes start bytes r.0 r.1) }
{
    let from = below(marks, start);
    let to = up_to(marks, start.saturating_add(bytes));
    if to <= from {
        return None;
    }
    Some((marks[from], marks[to - 1]))
}

/// One for a Preface.
fn tally(note: &Note) -> usize
    ensures { result ≡ if is_preface_note note.now then 1 else 0 }
{
    if is_preface(note) { 1 } else { 0 }
}

/// Puts marks among notes into an empty list, as far as it has room: one for every fixed number of notes.
fn put_marks(marks: &mut Vec<Mark>, notes: ClearNotes<'_>)
    requires empty { marks.old.items ≡ [] }
    requires apart { AreApart 0 notes }
    requires bound { length notes < 2 ^ 64 }
    ensures { AreMarks notes.entry marks.new.items }
{
    if marks.capacity() == 0 {
        return;
    }
    let mut passed = 0;
    let mut covered = 0;
    let mut prefaces = 0;
    for note in notes {
        let offset = note.offset();
        let mark = Mark {
            offset,
            covered,
            prefaces,
        };
        put_mark(marks, passed, mark);
        passed += 1;
        covered += note.end() - offset;
        prefaces += tally(note);
    }
}

/// Puts a mark after others if there is room, and if by the number of notes passed it is its turn.
fn put_mark(marks: &mut Vec<Mark>, passed: usize, mark: Mark)
    ensures { (marks.new.items ≡ marks.old.items) ⊎ (marks.new.items ≡ marks.old.items ++ mark ∷ []) }
{
    if passed % SPACING == 0 && marks.len() < marks.capacity() {
        push(marks, mark);
    }
}

/// How many marks stand among a given number of notes.
pub(super) fn mark_count(notes: usize) -> usize {
    notes.div_ceil(SPACING)
}
