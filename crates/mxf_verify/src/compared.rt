//! The notes of a reference beside the bytes of a source.
ghost use Rattle.std.specs.Prelude.{◌≡◌, ◌+◌, ◌-◌, ◌<◌, ◌≤◌, ℕ, IfErr, IfOk, IfSome, length, map, min, take, true};
ghost use Rattle.std.specs.List.{AllWithin};
ghost use Rattle.std.specs.List.Sorted.{IsNonDecreasingBy};
ghost use Rattle.mxf_klv.specs.Note.{IsNote, greatest_end};
ghost use Rattle.mxf_read.specs.Gathering.{IsOfAnyPart};
ghost use Rattle.mxf_verify.specs.Candidates.{notes_of, offset_of};
ghost use Rattle.mxf_verify.specs.SourceReads.{AreApart};
ghost use Rattle.mxf_verify.specs.Compared.{ComparesBytes, fresh};

use crate::candidate::Candidate;
use crate::reading::Reading;
use mxf_klv::{MAX, Note, OutOfMemory, below};
use mxf_read::PartFault;
use std::alloc::Global;
use std::io::Read;

/// How many bytes the window has room for at first through which a source is read.
const LEAST_ROOM: usize = 65_536;

/// Notes that were compared with the bytes of a source, of all candidates those from a place on, and where the bytes
/// end, as a file offset.
#[derive(Drop)]
pub(crate) struct Compared<'a> {
    pub first: usize,
    pub candidates: Vec<Candidate<'a>>,
    pub end: u64,
}

/// Candidates, of which nothing was compared yet.
pub(crate) fn fresh<'a>(
    alloc: Global,
    notes: &[&'a Note],
) -> Result<Vec<Candidate<'a>>, OutOfMemory>
    ensures { IfOk result (λ v. v.items ≡ map fresh notes.now) }
{
    let candidates = notes.iter().map(|note| Candidate {
        note: *note,
        is_same: true,
    });
    Ok(candidates.collect(alloc)?)
}

/// Compares candidates with at most `limit` bytes that a reader gives, the first of which lies at a file offset.
pub(crate) fn compare_bytes<'a, R: Read>(
    alloc: Global,
    all: &[Candidate<'a>],
    offset: u64,
    from: &mut R,
    limit: u64,
) -> Result<Compared<'a>, PartFault>
    requires fresh { AllWithin (λ c. c.is_same ≡ true) all.now 0 (length all.now) }
    requires notes { AllWithin (λ c. IsNote c.note.now) all.now 0 (length all.now) }
    requires rising { IsNonDecreasingBy offset_of all.now }
    requires apart { AreApart all.now }
    requires offset { offset ≤ greatest_end }
    ensures compared { IfOk result (λ c. IfSome (R.remaining from.old) (λ bytes.
        ComparesBytes all.now offset (offset + min limit (greatest_end - offset))
        (take (min limit (greatest_end - offset)) bytes) c)) }
    ensures within { IfOk result (λ c. c.end ≤ greatest_end) }
    ensures fault { IfErr result IsOfAnyPart }
{
    let end = offset + limit.min(MAX - offset);
    let first = below(all, offset);
    let last = below(all, end).max(first);
    let candidates = Vec::from_slice(alloc, &all[first..last])?;
    let mut window = Vec::new(alloc);
    window.resize(LEAST_ROOM, 0)?;
    let mut reading = Reading::of(alloc, candidates, offset);
    reading.read_all(from, end, &mut window)?;
    let Reading { comparison, .. } = reading;
    Ok(Compared {
        first,
        end: comparison.at,
        candidates: comparison.candidates,
    })
}
