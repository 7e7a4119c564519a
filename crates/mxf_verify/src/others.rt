//! The notes of a saved catalogue that a reference hasn't.
ghost use Rattle.std.specs.Prelude.{◌≡◌, IfOk, count_by, map};
ghost use Rattle.std.specs.Ordering.{is_le, is_lt};
ghost use Rattle.mxf_klv.specs.Note.{covered_end, head_note, note_cmp};
ghost use Rattle.mxf_catalogue.specs.Content.{IsCatalogue, IsContent};
ghost use Rattle.mxf_verify.specs.Opposing.{is_had};
ghost use Rattle.mxf_verify.specs.Others.{is_touched, others_of};
ghost use Rattle.mxf_verify.specs.Telling.{notes_at};

use mxf_catalogue::Catalogue;
use mxf_klv::{Note, OutOfMemory, below, up_to};
use std::alloc::Global;
use std::cmp::Ordering;
use std::marker::Model;

/// Notes in their order that are asked which other notes they share bytes with.
#[derive(Drop)]
pub(crate) struct Others<'b> {
    notes: Vec<&'b Note>,
    /// Where they begin, in bytes, in their order.
    starts: Vec<u64>,
    /// Where the bytes that they hold end, rising.
    ends: Vec<u64>,
}

impl<'b> Model for Others<'b> {
    ghost use Rattle.std.specs.Prelude.{List};
    ghost use Rattle.mxf_klv.specs.Parts.{NoteParts};
    ghost use Rattle.mxf_verify.specs.Opposing.{AreBounds};
    ghost use Rattle.mxf_verify.specs.Telling.{notes_at};

    ghost Value = { List NoteParts };

    ghost view = { λ o. notes_at o.notes.items };

    ghost invariant = { λ o. AreBounds (notes_at o.notes.items) o.starts.items o.ends.items };
}

impl<'b> Others<'b> {
    /// The notes of a saved catalogue that a reference hasn't. It takes 24 bytes for each.
    pub(crate) fn of(
        alloc: Global,
        saved: &'b Catalogue,
        reference: &Catalogue,
    ) -> Result<Others<'b>, OutOfMemory>
        ensures { IfOk result (λ o. o ≡ others_of saved.now reference.now) }
    {
        saved.laws();
        Others::bounded(alloc, other_notes(alloc, saved, reference)?)
    }

    /// The notes of a content.
    fn bounded(alloc: Global, notes: Vec<&'b Note>) -> Result<Others<'b>, OutOfMemory>
        requires { IsCatalogue (notes_at notes.items) }
        ensures { IfOk result (λ o. o ≡ notes_at notes.entry.items) }
    {
        let starts = starts(alloc, &notes)?;
        let mut ends = ends(alloc, &notes)?;
        ends.sort_unstable();
        Ok(Others {
            notes,
            starts,
            ends,
        })
    }

    /// Whether one of them shares a held byte with a note, and isn't the packet whose head that is: four binary
    /// searches.
    ///
    /// Those that hold a byte of it are those that begin below its end, except those that end at or below its start.
    /// Its packets are among them: those whose head is the note or stands below it, except those whose head stands
    /// below.
    pub(crate) fn touch(&self, note: &Note) -> bool
        ensures { result ≡ is_touched note.now self.now }
    {
        let begun = below(&self.starts, note.covered_end());
        let ended = up_to(&self.ends, note.offset());
        let packets = heads_up_to(&self.notes, note) - heads_below(&self.notes, note);
        begun - ended > packets
    }
}

/// The notes of a saved catalogue that a reference hasn't, in their order.
fn other_notes<'b>(
    alloc: Global,
    saved: &'b Catalogue,
    reference: &Catalogue,
) -> Result<Vec<&'b Note>, OutOfMemory>
    ensures { IfOk result (λ v. notes_at v.items ≡ others_of saved.now reference.now) }
{
    let others = saved.notes().filter(|note| !is_had(reference, note));
    Ok(others.collect(alloc)?)
}

/// Whether a catalogue has a note: it holds it, or the packet whose head it is.
pub(crate) fn is_had(catalogue: &Catalogue, note: &Note) -> bool
    ensures { result ≡ is_had note.now catalogue.now }
{
    catalogue.has(note)
}

/// Where notes begin, in bytes, in their order.
fn starts(alloc: Global, notes: &[&Note]) -> Result<Vec<u64>, OutOfMemory>
    ensures { IfOk result (λ v. v.items ≡ map (λ r. r.now.offset) notes.now) }
{
    Ok(notes.iter().map(|note| note.offset()).collect(alloc)?)
}

/// Where the bytes end that notes hold, in the order of the notes.
fn ends(alloc: Global, notes: &[&Note]) -> Result<Vec<u64>, OutOfMemory>
    ensures { IfOk result (λ v. v.items ≡ map (λ r. covered_end r.now) notes.now) }
{
    Ok(notes.iter().map(|note| note.covered_end()).collect(alloc)?)
}

/// How many of the notes have a head that stands below a note.
fn heads_below(notes: &[&Note], note: &Note) -> usize
    requires { IsContent (notes_at notes.now) }
    ensures { result ≡ count_by (λ m. is_lt (note_cmp (head_note m) note.now)) (notes_at notes.now) }
{
    notes.partition_point(|other| is_head_below(other, note))
}

/// Whether the head of a note stands below another note.
fn is_head_below(other: &Note, note: &Note) -> bool
    ensures { result ≡ is_lt (note_cmp (head_note other.now) note.now) }
{
    other.to_head().cmp(note) == Ordering::Less
}

/// How many of the notes have a head that is a note, or stands below it.
fn heads_up_to(notes: &[&Note], note: &Note) -> usize
    requires { IsContent (notes_at notes.now) }
    ensures { result ≡ count_by (λ m. is_le (note_cmp (head_note m) note.now)) (notes_at notes.now) }
{
    notes.partition_point(|other| is_head_up_to(other, note))
}

/// Whether the head of a note is another note, or stands below it.
fn is_head_up_to(other: &Note, note: &Note) -> bool
    ensures { result ≡ is_le (note_cmp (head_note other.now) note.now) }
{
    other.to_head().cmp(note) != Ordering::Greater
}
