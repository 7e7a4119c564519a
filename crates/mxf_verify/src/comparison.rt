//! Candidates beside the bytes of a source.
ghost use Rattle.std.specs.Prelude.{◌≡◌, ◌+◌, ◌≤◌, length, map, vec_len};
ghost use Rattle.std.specs.List.{AllWithin};
ghost use Rattle.std.specs.List.Sorted.{IsNonDecreasingBy};
ghost use Rattle.mxf_klv.specs.Note.{covered_end, greatest_end};
ghost use Rattle.mxf_verify.specs.Candidates.{AreSettled, compared, offset_of};

use crate::candidate::Candidate;
use mxf_klv::Note;

/// Candidates, and the bytes of a source that came so far.
#[derive(Drop)]
pub(crate) struct Comparison<'a> {
    pub candidates: Vec<Candidate<'a>>,
    /// How many candidates at the front have ended.
    pub settled: usize,
    /// The file offset of the next byte.
    pub at: u64,

    ghost rising: { IsNonDecreasingBy offset_of candidates.items },
    ghost passed: { AreSettled settled at candidates.items },
    ghost within: { at ≤ greatest_end },
}

impl<'a> Comparison<'a> {
    ghost use Rattle.std.specs.Prelude.{◌≡◌, ◌+◌, ◌<◌, ◌≤◌, length, map, slice_index_or, slice_set, vec_len};
    ghost use Rattle.mxf_klv.specs.Note.{greatest_end};
    ghost use Rattle.mxf_verify.specs.Candidates.{also, compared, notes_of};
    ghost use Rattle.mxf_verify.specs.declared.candidate.Candidate.{Candidate};

    /// Nothing came yet of the source, the first byte of which lies at a file offset.
    pub(crate) fn of(candidates: Vec<Candidate<'a>>, offset: u64) -> Comparison<'a>
        requires rising { IsNonDecreasingBy offset_of candidates.items }
        requires offset { offset ≤ greatest_end }
        ensures candidates { result.candidates.items ≡ candidates.entry.items }
        ensures at { result.at ≡ offset }
    {
        Comparison {
            candidates,
            settled: 0,
            at: offset,
        }
    }

    /// Takes further bytes.
    pub(crate) fn take(&mut self, bytes: &[u8])
        requires { self.old.at + length bytes.now ≤ greatest_end }
        ensures candidates { self.new.candidates.items ≡ map (compared self.old.at bytes.now) self.old.candidates.items }
        ensures at { self.new.at ≡ self.old.at + length bytes.now }
        ensures notes { notes_of self.new.candidates.items ≡ notes_of self.old.candidates.items }
    {
        compare(&mut self.candidates, self.settled, self.at, bytes);
        self.at += bytes.len() as u64;
        self.settled = settled_by(&self.candidates, self.settled, self.at);
    }

    /// Says of the candidate at a place whether something more of it is the same.
    pub(crate) fn say(&mut self, place: usize, is_same: bool)
        requires { place < vec_len self.old.candidates }
        ensures candidates { (d : Candidate) → self.new.candidates.items ≡ slice_set self.old.candidates.items place
            (also is_same (slice_index_or self.old.candidates.items place d)) }
        ensures at { self.new.at ≡ self.old.at }
        ensures notes { notes_of self.new.candidates.items ≡ notes_of self.old.candidates.items }
    {
        let candidate = self.candidates[place].also(is_same);
        self.candidates[place] = candidate;
    }
}

/// How many candidates at the front have ended by an offset. The first `settled` have.
fn settled_by(candidates: &[Candidate<'_>], settled: usize, at: u64) -> usize
    requires { AreSettled settled at candidates.now }
    ensures { AreSettled result at candidates.now }
{
    for i in settled..candidates.len() {
        if candidates[i].note.covered_end() > at {
            return i;
        }
    }
    candidates.len()
}

/// Compares candidates with further bytes, the first of which lies at a file offset. The first `settled` have no byte
/// among these, nor have those that begin after them.
fn compare(candidates: &mut Vec<Candidate<'_>>, settled: usize, at: u64, bytes: &[u8])
    requires rising { IsNonDecreasingBy offset_of candidates.old.items }
    requires settled { AreSettled settled at candidates.old.items }
    requires fits { at + length bytes.now ≤ greatest_end }
    ensures { candidates.new.items ≡ map (compared at bytes.now) candidates.old.items }
{
    let end = at + bytes.len() as u64;
    for i in settled..candidates.len() {
        if candidates[i].note.offset() >= end {
            return;
        }
        candidates[i] = candidates[i].compared(at, bytes);
    }
}
