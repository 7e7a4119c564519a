//! A reference: the notes of a catalogue that sources are compared with.
ghost use Rattle.std.specs.Prelude.{◌≡◌, ◌+◌, ◌-◌, ◌≤◌, IfErr, IfOk, IfSome, List, map, min, take};
ghost use Rattle.mxf_klv.specs.Note.{greatest_end};
ghost use Rattle.mxf_klv.specs.Parts.{NoteParts};
ghost use Rattle.mxf_read.specs.Gathering.{IsOfAnyPart};
ghost use Rattle.mxf_verify.specs.Compared.{ComparesBytes};
ghost use Rattle.mxf_verify.specs.declared.candidate.Candidate.{Candidate};
ghost use Rattle.mxf_verify.specs.References.{AreCandidates, free_of, is_crowded};

use crate::candidate::Candidate;
use crate::compared::{Compared, compare_bytes, fresh};
use crate::reading::is_digested;
use mxf_catalogue::Catalogue;
use mxf_klv::{Note, OutOfMemory};
use mxf_read::PartFault;
use std::alloc::Global;
use std::io::Read;
use std::marker::Model;

/// The notes of a catalogue that sources are compared with.
#[derive(Drop)]
pub struct Reference<'a> {
    catalogue: &'a Catalogue,
    /// Those that are compared with bytes, in their order.
    candidates: Vec<Candidate<'a>>,
}

impl<'a> Model for Reference<'a> {
    ghost use Rattle.std.specs.Prelude.{List};
    ghost use Rattle.mxf_klv.specs.Parts.{NoteParts};
    ghost use Rattle.mxf_verify.specs.References.{AreCandidates};

    ghost Value = { List NoteParts };

    ghost view = { λ r. r.catalogue.now };

    ghost invariant = { λ r. AreCandidates r.catalogue.now r.candidates.items };
}

impl<'a> Reference<'a> {
    /// The notes of a catalogue. It takes memory for each.
    pub fn of(alloc: Global, catalogue: &'a Catalogue) -> Result<Reference<'a>, OutOfMemory>
        ensures { IfOk result (λ r. r ≡ catalogue.now) }
    {
        catalogue.laws();
        let free = free_notes(alloc, catalogue)?;
        let candidates = fresh(alloc, &free)?;
        Ok(Reference {
            catalogue,
            candidates,
        })
    }

    /// The catalogue.
    pub(crate) fn catalogue(&self) -> &'a Catalogue
        ensures { result.now ≡ self.now }
    {
        self.catalogue
    }

    /// Compares the notes with at most `limit` bytes that a reader gives, the first of which lies at a file offset.
    pub(crate) fn compare<R: Read>(
        &self,
        alloc: Global,
        offset: u64,
        from: &mut R,
        limit: u64,
    ) -> Result<Compared<'a>, PartFault>
        requires { offset ≤ greatest_end }
        ensures compared { IfOk result (λ c. IfSome (R.remaining from.old) (λ bytes. (all : List Candidate)
            × AreCandidates self.now all
            × ComparesBytes all offset (offset + min limit (greatest_end - offset))
            (take (min limit (greatest_end - offset)) bytes) c)) }
        ensures within { IfOk result (λ c. c.end ≤ greatest_end) }
        ensures fault { IfErr result IsOfAnyPart }
    {
        compare_bytes(alloc, &self.candidates, offset, from, limit)
    }
}

/// The notes of a catalogue that are compared with bytes, in their order.
fn free_notes<'a>(alloc: Global, catalogue: &'a Catalogue) -> Result<Vec<&'a Note>, OutOfMemory>
    ensures { IfOk result (λ v. map (λ r. r.now) v.items ≡ free_of catalogue.now) }
{
    let notes = catalogue.notes();
    let free = notes.filter(|note| !is_crowded(catalogue, note));
    Ok(free.collect(alloc)?)
}

/// Whether a note is a disputed one of a catalogue whose value isn't kept. It isn't compared with bytes, so that one
/// digest runs at a time.
fn is_crowded(catalogue: &Catalogue, note: &Note) -> bool
    ensures { result ≡ is_crowded catalogue.now note.now }
{
    is_digested(note) && catalogue.disputes(note)
}
