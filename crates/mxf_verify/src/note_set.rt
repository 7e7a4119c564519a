//! Sets of notes of a reference.
ghost use Rattle.std.specs.Prelude.{◌≡◌, ◌↔◌, ◌⊎◌, ◌++◌, [], ℕ, IfErr, IfOk, IsTrue, OnOk, length};
ghost use Rattle.mxf_klv.specs.Parts.{NoteParts};
ghost use Rattle.mxf_klv.specs.Rising.{In};
ghost use Rattle.mxf_catalogue.specs.Content.{IsContent, IsPlace, union_of};
ghost use Rattle.mxf_catalogue.specs.Runs.{LiesIn};
ghost use Rattle.mxf_verify.specs.Telling.{notes_at};
ghost use Rattle.mxf_verify.specs.Verifying.{IsHeldBy};

use mxf_catalogue::Cover;
use mxf_klv::{Note, OutOfMemory, sort_once};
use std::alloc::Global;
use std::cmp::Ordering;
use std::marker::Model;

/// A note of a reference, in a set of them. It compares as the note does.
#[derive(Drop)]
pub(crate) struct Member<'a> {
    note: &'a Note,
}

impl<'a> Model for Member<'a> {
    ghost use Rattle.mxf_klv.specs.Parts.{NoteParts};

    ghost Value = { NoteParts };

    ghost view = { λ m. m.note.now };
}

impl<'a> Member<'a> {
    /// Its note.
    fn note(&self) -> &'a Note
        ensures { result.now ≡ self.now }
    {
        self.note
    }
}

impl<'a> PartialEq for Member<'a> {
    ghost use Rattle.std.specs.Cmp.{partial_equiv_from_equiv};
    ghost use Rattle.std.specs.Ordering.{eq_by_cmp};
    ghost use Rattle.std.proofs.lemmas.Cmp.{eq_by_cmp_equiv};
    ghost use Rattle.mxf_klv.specs.Note.{note_cmp};
    ghost use Rattle.mxf_klv.specs.NoteOrder.{note_total};

    ghost eq = { eq_by_cmp note_cmp };

    ghost laws = { partial_equiv_from_equiv (eq_by_cmp_equiv note_total) };

    fn eq(&self, other: &Member<'a>) -> bool {
        self.cmp(other) == Ordering::Equal
    }
}

impl<'a> Eq for Member<'a> {
    ghost use Rattle.std.proofs.lemmas.Cmp.{eq_by_cmp_equiv};
    ghost use Rattle.mxf_klv.specs.NoteOrder.{note_total};

    ghost laws = { eq_by_cmp_equiv note_total };
}

impl<'a> PartialOrd for Member<'a> {
    ghost use Rattle.std.specs.Ordering.{as_partial_cmp};
    ghost use Rattle.std.specs.Cmp.{partial_order_from_agreeing_total};
    ghost use Rattle.std.specs.Prelude.{refl};
    ghost use Rattle.mxf_klv.specs.Note.{note_cmp};
    ghost use Rattle.mxf_klv.specs.NoteOrder.{note_total};

    ghost partial_cmp = { as_partial_cmp note_cmp };

    ghost laws = { partial_order_from_agreeing_total note_cmp note_total (λ _ _. refl) (λ _ _. refl) };

    fn partial_cmp(&self, other: &Member<'a>) -> Option<Ordering> {
        Some(self.cmp(other))
    }
}

impl<'a> Ord for Member<'a> {
    ghost use Rattle.std.specs.Prelude.{refl};
    ghost use Rattle.mxf_klv.specs.Note.{note_cmp};
    ghost use Rattle.mxf_klv.specs.NoteOrder.{note_total};

    ghost cmp = { note_cmp };

    ghost total = { note_total };

    ghost matches_partial_cmp = { λ _ _. refl };

    ghost matches_eq = { λ _ _. refl };

    fn cmp(&self, other: &Member<'a>) -> Ordering {
        self.note.cmp(other.note)
    }
}

/// Notes of a reference. One may stand in it more than once until they are put in order.
#[derive(Drop)]
pub(crate) struct NoteSet<'a> {
    members: Vec<Member<'a>>,
    /// If there are more, they are put in order, so that it takes no more memory than twice their number.
    room: usize,
}

impl<'a> Model for NoteSet<'a> {
    ghost use Rattle.std.specs.Prelude.{List};
    ghost use Rattle.mxf_klv.specs.Parts.{NoteParts};

    ghost Value = { List NoteParts };

    ghost view = { λ s. s.members.items };
}

impl<'a> NoteSet<'a> {
    /// No note. A reference has `notes` notes.
    pub(crate) fn new(alloc: Global, notes: usize) -> NoteSet<'a>
        ensures { result ≡ [] }
    {
        NoteSet {
            members: Vec::new(alloc),
            room: notes.saturating_mul(2),
        }
    }

    /// Adds notes.
    pub(crate) fn add(&mut self, notes: &[&'a Note]) -> Result<(), OutOfMemory>
        ensures { OnOk result ((n : NoteParts) → In n self.new ↔ (In n self.old ⊎ In n (notes_at notes.now))) }
    {
        push_all(&mut self.members, notes)?;
        if self.members.len() > self.room {
            put_in_order(&mut self.members);
        }
        Ok(())
    }

    /// The notes, each once, in their order.
    pub(crate) fn into_ordered(self) -> OrderedNotes<'a>
        ensures { result ≡ union_of [] self.entry }
    {
        let NoteSet { mut members, .. } = self;
        put_in_order(&mut members);
        OrderedNotes { members }
    }
}

/// Puts notes after others.
fn push_all<'a>(members: &mut Vec<Member<'a>>, notes: &[&'a Note]) -> Result<(), OutOfMemory>
    ensures { OnOk result (members.new.items ≡ members.old.items ++ notes_at notes.now) }
{
    for note in notes {
        members.push(Member { note: *note })?;
    }
    Ok(())
}

/// Puts notes in their order, each once.
fn put_in_order(members: &mut Vec<Member<'_>>)
    ensures { members.new.items ≡ union_of [] members.old.items }
{
    sort_once(members);
}

/// Notes of a reference, each once, in their order.
#[derive(Drop)]
pub(crate) struct OrderedNotes<'a> {
    members: Vec<Member<'a>>,
}

impl<'a> Model for OrderedNotes<'a> {
    ghost use Rattle.std.specs.Prelude.{List};
    ghost use Rattle.mxf_klv.specs.Parts.{NoteParts};
    ghost use Rattle.mxf_catalogue.specs.Content.{IsContent};

    ghost Value = { List NoteParts };

    ghost view = { λ s. s.members.items };

    ghost invariant = { λ s. IsContent s.members.items };
}

impl<'a> OrderedNotes<'a> {
    /// How many notes there are.
    pub(crate) fn len(&self) -> usize
        ensures { result ≡ length self.now }
    {
        self.members.len()
    }

    /// Whether the note is one of them: a binary search.
    pub(crate) fn has(&self, note: &'a Note) -> bool
        ensures { IsTrue result ↔ In note.now self.now }
    {
        place(&self.members, note).is_ok()
    }

    /// The bytes that they hold.
    pub(crate) fn bytes(&self, alloc: Global) -> Result<Cover, OutOfMemory>
        ensures { IfOk result (λ c. (at : ℕ) → LiesIn c at ↔ IsHeldBy self.now at) }
    {
        bytes_of(alloc, &self.members)
    }
}

/// Where a note is, or where it goes: a binary search.
fn place<'a>(members: &[Member<'a>], note: &'a Note) -> Result<usize, usize>
    requires { IsContent members.now }
    ensures found { OnOk result (In note.now members.now) }
    ensures absent { IfErr result (λ at. IsPlace note.now members.now at) }
{
    members.binary_search(&Member { note })
}

/// The bytes that notes hold, in their order.
fn bytes_of(alloc: Global, members: &[Member<'_>]) -> Result<Cover, OutOfMemory>
    ensures { IfOk result (λ c. (at : ℕ) → LiesIn c at ↔ IsHeldBy members.now at) }
{
    let mut bytes = Cover::new(alloc);
    for member in members {
        let note = member.note();
        bytes.add(note.offset(), note.covered_end())?;
    }
    Ok(bytes)
}
