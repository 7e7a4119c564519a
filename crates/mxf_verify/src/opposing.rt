//! What a catalogue says of notes of an earlier one.
ghost use Rattle.std.specs.Prelude.{◌≡◌, ◌↔◌, IfOk, IsTrue, List, map};
ghost use Rattle.mxf_klv.specs.Note.{covered_end};
ghost use Rattle.mxf_klv.specs.Parts.{NoteParts};
ghost use Rattle.mxf_catalogue.specs.Content.{has_note};
ghost use Rattle.mxf_verify.specs.Opposing.{IsContradicted, IsOpposed, is_contradicted, is_had, is_opposed};

use mxf_catalogue::Catalogue;
use mxf_klv::{Note, OutOfMemory, below, up_to};
use std::alloc::Global;
use std::marker::Model;

/// A catalogue that is asked which notes it opposes: those that it hasn't, and that one of its notes contradicts. Such
/// a note and that one can't be of one state of a file.
#[derive(Drop)]
pub struct Opposing<'a> {
    catalogue: &'a Catalogue,
    /// Where the notes begin, in bytes, in their order.
    starts: Vec<u64>,
    /// Where the bytes that the notes hold end, rising.
    ends: Vec<u64>,
}

impl<'a> Model for Opposing<'a> {
    ghost use Rattle.std.specs.Prelude.{List};
    ghost use Rattle.mxf_klv.specs.Parts.{NoteParts};
    ghost use Rattle.mxf_verify.specs.Opposing.{AreBounds};

    ghost Value = { List NoteParts };

    ghost view = { λ o. o.catalogue.now };

    ghost invariant = { λ o. AreBounds o.catalogue.now o.starts.items o.ends.items };
}

impl<'a> Opposing<'a> {
    /// The catalogue, asked for what it opposes. It takes sixteen bytes for each note.
    pub fn of(alloc: Global, catalogue: &'a Catalogue) -> Result<Opposing<'a>, OutOfMemory>
        ensures { IfOk result (λ o. o ≡ catalogue.now) }
    {
        catalogue.laws();
        let starts = starts(alloc, catalogue)?;
        let mut ends = ends(alloc, catalogue)?;
        ends.sort_unstable();
        Ok(Opposing {
            catalogue,
            starts,
            ends,
        })
    }

    /// Whether the catalogue has the note: at most two binary searches.
    pub fn has(&self, note: &Note) -> bool
        ensures { IsTrue result ↔ has_note self.now note.now }
    {
        self.catalogue.has(note)
    }

    /// Whether the catalogue hasn't the note, and one of its notes contradicts it: five binary searches at most.
    ///
    /// The notes that hold a byte of it are those that begin below its end, except those that end at or below its
    /// start. All of them but its head contradict a note that the catalogue hasn't.
    pub fn opposes(&self, note: &Note) -> bool
        ensures { IsTrue result ↔ IsOpposed note.now self.now }
    {
        if self.catalogue.has(note) {
            return false;
        }
        let begun = below(&self.starts, note.covered_end());
        let ended = up_to(&self.ends, note.offset());
        let heads = usize::from(self.catalogue.holds(&note.to_head()));
        begun - ended > heads
    }
}

/// Where the notes of a catalogue begin, in bytes, in their order.
fn starts(alloc: Global, catalogue: &Catalogue) -> Result<Vec<u64>, OutOfMemory>
    ensures { IfOk result (λ v. v.items ≡ map (λ n. n.offset) catalogue.now) }
{
    Ok(catalogue.notes().map(|note| note.offset()).collect(alloc)?)
}

/// Where the bytes end that the notes of a catalogue hold, in the order of the notes.
fn ends(alloc: Global, catalogue: &Catalogue) -> Result<Vec<u64>, OutOfMemory>
    ensures { IfOk result (λ v. v.items ≡ map covered_end catalogue.now) }
{
    Ok(
        catalogue
            .notes()
            .map(|note| note.covered_end())
            .collect(alloc)?,
    )
}

/// A law: the tests of contents and notes say what the relations say.
pub fn oppositions_by_definition()
    ensures had { (n : NoteParts) (notes : List NoteParts) → IsTrue (is_had n notes) ↔ has_note notes n }
    ensures contradicted { (n : NoteParts) (notes : List NoteParts)
        → IsTrue (is_contradicted n notes) ↔ IsContradicted n notes }
    ensures opposed { (n : NoteParts) (notes : List NoteParts) → IsTrue (is_opposed n notes) ↔ IsOpposed n notes }
{}
