//! What the bytes of a source say of the notes of a reference.
ghost use Rattle.std.specs.Prelude.{◌≡◌, ◌+◌, ◌-◌, ◌≤◌, ℕ, IfErr, IfOk, IfSome, List, filter, length, min, take};
ghost use Rattle.mxf_klv.specs.Note.{greatest_end};
ghost use Rattle.mxf_klv.specs.Parts.{NoteParts};
ghost use Rattle.mxf_catalogue.specs.NoteLists.{Covers};
ghost use Rattle.mxf_read.specs.Gathering.{IsOfAnyPart};
ghost use Rattle.mxf_verify.specs.Candidates.{notes_of};
ghost use Rattle.mxf_verify.specs.Compared.{ComparesBytes};
ghost use Rattle.mxf_verify.specs.References.{AreCandidates};
ghost use Rattle.mxf_verify.specs.Telling.{TellsOf, notes_at};
ghost use Rattle.mxf_verify.specs.ToldBytes.{is_met, is_told_differing, is_told_same};
ghost use Rattle.mxf_verify.specs.Verifying.{Bytes};
ghost use Rattle.mxf_verify.specs.declared.candidate.Candidate.{Candidate};

use crate::candidate::Candidate;
use crate::compared::Compared;
use crate::reference::Reference;
use crate::told::Told;
use mxf_catalogue::Cover;
use mxf_klv::{Note, OutOfMemory};
use mxf_read::PartFault;
use std::alloc::Global;
use std::io::Read;

/// What the bytes of a source say of the notes of a reference, and the file offset where they end.
#[derive(Drop)]
pub(crate) struct BytesTold<'a> {
    pub told: Told<'a>,
    pub end: u64,
}

impl<'a> Reference<'a> {
    /// What at most `limit` bytes say that a reader gives, the first of which lies at a file offset. Those of a note
    /// are compared with what it says of them, if all of them came. It takes n log n of the notes, and reads each byte
    /// once.
    pub(crate) fn read<R: Read>(
        &self,
        alloc: Global,
        offset: u64,
        from: &mut R,
        limit: u64,
    ) -> Result<BytesTold<'a>, PartFault>
        requires { offset ≤ greatest_end }
        ensures told { IfOk result (λ t. IfSome (R.remaining from.old) (λ bytes.
            TellsOf self.now (Bytes offset (take (min limit (greatest_end - offset)) bytes)) t.told)) }
        ensures end { IfOk result (λ t. IfSome (R.remaining from.old) (λ bytes.
            t.end ≡ offset + length (take (min limit (greatest_end - offset)) bytes))) }
        ensures within { IfOk result (λ t. t.end ≤ greatest_end) }
        ensures fault { IfErr result IsOfAnyPart }
    {
        let compared = self.compare(alloc, offset, from, limit)?;
        let told = told_by(alloc, &compared)?;
        Ok(BytesTold {
            told,
            end: compared.end,
        })
    }
}

/// What candidates say that were compared with the bytes of a source.
fn told_by<'a>(alloc: Global, compared: &Compared<'a>) -> Result<Told<'a>, OutOfMemory>
    ensures { IfOk result (λ t. (reference : List NoteParts) (all : List Candidate) (offset bound : ℕ) (bytes : List ℕ)
        → AreCandidates reference all → ComparesBytes all offset bound bytes compared.now
        → offset + length bytes ≤ bound → TellsOf reference (Bytes offset bytes) t) }
{
    let same = same_notes(alloc, &compared.candidates, compared.end)?;
    let held = held_by(alloc, &same)?;
    let differing = differing_notes(alloc, &compared.candidates, compared.end, &held)?;
    Ok(Told { same, differing })
}

/// The notes of candidates whose bytes came, up to a file offset, and are what they say.
fn same_notes<'a>(
    alloc: Global,
    candidates: &[Candidate<'a>],
    end: u64,
) -> Result<Vec<&'a Note>, OutOfMemory>
    ensures { IfOk result (λ v. v.items ≡ notes_of (filter (is_told_same end) candidates.now)) }
{
    let same = candidates
        .iter()
        .filter(|candidate| is_told_same(candidate, end))
        .map(|candidate| candidate.note);
    Ok(same.collect(alloc)?)
}

/// Whether the bytes of a candidate's note came, up to a file offset, and are what it says.
#[tactic(auto, unfolding(crate::specs::ToldBytes::is_told_same))]
fn is_told_same(candidate: &Candidate<'_>, end: u64) -> bool
    ensures { result ≡ is_told_same end candidate.now }
{
    candidate.is_same && candidate.note.covered_end() <= end
}

/// The bytes that notes hold, as one set. Those of notes that rise are appended one by one.
fn held_by(alloc: Global, notes: &[&Note]) -> Result<Cover, OutOfMemory>
    ensures { IfOk result (λ c. Covers c (notes_at notes.now)) }
{
    let mut held = Cover::new(alloc);
    for note in notes {
        held.add(note.offset(), note.covered_end())?;
    }
    Ok(held)
}

/// The notes of candidates whose bytes came, up to a file offset, and aren't what they say, if none of these lies in a
/// cover.
fn differing_notes<'a>(
    alloc: Global,
    candidates: &[Candidate<'a>],
    end: u64,
    held: &Cover,
) -> Result<Vec<&'a Note>, OutOfMemory>
    ensures { IfOk result (λ v. v.items ≡ notes_of (filter (is_told_differing end held.now) candidates.now)) }
{
    let differing = candidates
        .iter()
        .filter(|candidate| is_told_differing(candidate, end, held))
        .map(|candidate| candidate.note);
    Ok(differing.collect(alloc)?)
}

/// Whether the bytes of a candidate's note came, up to a file offset, and aren't what it says, and none of them lies in
/// a cover.
#[tactic(auto, unfolding(crate::specs::ToldBytes::is_told_differing))]
fn is_told_differing(candidate: &Candidate<'_>, end: u64, held: &Cover) -> bool
    ensures { result ≡ is_told_differing end held.now candidate.now }
{
    !candidate.is_same && candidate.note.covered_end() <= end && !is_met(held, candidate.note)
}

/// Whether one of the bytes that a note holds lies in a cover.
fn is_met(held: &Cover, note: &Note) -> bool
    ensures { result ≡ is_met held.now note.now }
{
    held.meets(note.offset(), note.covered_end())
}
