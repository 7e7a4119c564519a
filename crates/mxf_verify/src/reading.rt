//! Reading a source by the notes of a reference.
ghost use Rattle.std.specs.Prelude.{◌≡◌, ◌<◌, ◌≤◌, [], IfOk, IsTrue, false, length, take};
ghost use Rattle.std.specs.List.{AllWithin};
ghost use Rattle.std.specs.List.Sorted.{IsNonDecreasingBy};
ghost use Rattle.std.specs.Io.KnownBytes.{Consumes, IsAtEnd};
ghost use Rattle.std.specs.Str.{bytes_eq};
ghost use Rattle.sha2.specs.Sha256.{sha256};
ghost use Rattle.mxf_klv.specs.Note.{greatest_end};
ghost use Rattle.mxf_verify.specs.Candidates.{IsAtDigested, offset_of};
ghost use Rattle.mxf_verify.specs.Verifying.{is_digested};
ghost use Rattle.mxf_read.specs.declared.gathering.fault.PartFault.TheVariants as faults;

use crate::agreement::value_part;
use crate::candidate::Candidate;
use crate::comparison::Comparison;
use crate::hashing::{MOST, digest_with, digests_of, hasher_with};
use mxf_klv::{Held, Note, OutOfMemory};
use mxf_read::{GREATEST_INTERRUPTIONS, PartFault, Step, read_step};
use sha2::{Digest, Sha256};
use std::alloc::Global;
use std::io::Read;
use std::mem::replace;
use thiserror::Error;

/// The fewest values that are digested at once. Fewer are digested as fast one after another.
const FEWEST: usize = 3;

/// How many values are digested side by side.
const SIDE_BY_SIDE: usize = 4;

/// The fewest bytes of a value with which those begin that are digested at once: shorter ones gain little.
const LEAST_VALUE: u64 = 128;

/// The greatest number of bytes that a window has room for.
const GREATEST_ROOM: usize = 16_777_216;

/// The greatest number of bytes of a value for which a window is made wider.
const GREATEST_VALUE: u64 = 4_194_304;

/// A source couldn't be read.
#[derive(Clone, Copy, Debug, PartialEq, Eq, Error)]
#[error("the read failed")]
pub struct ReadFault;

impl From<ReadFault> for PartFault {
    ghost from_gives = { λ _ e. e ≡ faults.ReadFault };

    fn from(_fault: ReadFault) -> PartFault {
        PartFault::ReadFault
    }
}

/// Notes that are compared with the bytes of a source as these come, also by the digests of values among these.
#[derive(Drop)]
pub(crate) struct Reading<'a> {
    alloc: Global,
    pub comparison: Comparison<'a>,
    /// The place of the next candidate that knows a digest, which wasn't compared yet; if there is none, where the
    /// candidates end.
    pub next: usize,
    /// What has taken the bytes that came of its value before; none if no byte came.
    pub hasher: Option<Sha256>,
    /// The digest of no byte: many packets have no value.
    of_nothing: [u8; 32],

    ghost digested: { IsAtDigested next comparison.candidates.items },
    ghost nothing: { of_nothing ≡ sha256 [] },
}

impl<'a> Reading<'a> {
    ghost use Rattle.std.specs.Prelude.{◌≡◌, ◌+◌, ◌<◌, ◌≤◌, [], IfOk, IfSome, None, OnOk, List, false, length, map, ℕ};
    ghost use Rattle.std.specs.Prelude.{slice_index_or, vec_len, IsTrue};
    ghost use Rattle.std.specs.List.{AllWithin};
    ghost use Rattle.mxf_klv.specs.Note.{covered_end, greatest_end};
    ghost use Rattle.mxf_verify.specs.Candidates.{notes_of, offset_of};
    ghost use Rattle.mxf_verify.specs.SourceReads.{AreValuesOf, EndsFront, IsNext, Reads, ReadsSome, ReadsSource, Says};
    ghost use Rattle.mxf_verify.specs.SourceReads.{Tells, digested_from};
    ghost use Rattle.mxf_verify.specs.Verifying.{is_digested};

    /// Nothing came yet of the source, the first byte of which lies at a file offset.
    pub(crate) fn of(alloc: Global, candidates: Vec<Candidate<'a>>, offset: u64) -> Reading<'a>
        requires rising { IsNonDecreasingBy offset_of candidates.items }
        requires offset { offset ≤ greatest_end }
        ensures candidates { result.comparison.candidates.items ≡ candidates.entry.items }
        ensures at { result.comparison.at ≡ offset }
        ensures within { result.next ≤ length result.comparison.candidates.items }
        ensures undigested { AllWithin (λ c. is_digested c.note.now ≡ false) result.comparison.candidates.items 0
            result.next }
        ensures hasher { result.hasher ≡ None }
    {
        let next = next_digested(&candidates, 0);
        Reading {
            alloc,
            comparison: Comparison::of(candidates, offset),
            next,
            hasher: None,
            of_nothing: Sha256::digest(&[]),
        }
    }

    /// Reads the bytes of a source up to a file offset, or to its end, through a window. An interrupted read is repeated,
    /// 1,024 times at most.
    ///
    /// Where a read takes all that it asks for, the window may become twice as wide.
    pub(crate) fn read_all<R: Read>(
        &mut self,
        from: &mut R,
        end: u64,
        window: &mut Vec<u8>,
    ) -> Result<(), ReadFault>
        requires room { 0 < length window.old.items }
        requires begins { self.old.comparison.at ≤ end }
        requires fits { end ≤ greatest_end }
        ensures { OnOk result (ReadsSource (R.remaining from.old) (R.remaining from.new) self.old self.new end) }
    {
        let mut repeats = GREATEST_INTERRUPTIONS;
        'reads: while self.comparison.at < end {
            let before = self.next;
            let asked = self.even_room(window.len());
            let count = self.read_some(from, end, &mut window[..asked], &mut repeats)?;
            if count == 0 {
                return Ok(());
            }
            self.widen(window, count == asked, before);
        }
        Ok(())
    }

    /// Reads once, at most up to a file offset, and takes what came. Answers how many bytes came: none if the source has
    /// ended.
    fn read_some<R: Read>(
        &mut self,
        from: &mut R,
        end: u64,
        room: &mut [u8],
        repeats: &mut u32,
    ) -> Result<usize, ReadFault>
        requires room { 0 < length room.old }
        requires ahead { self.old.comparison.at < end }
        requires fits { end ≤ greatest_end }
        ensures { IfOk result (λ n.
            ReadsSome (R.remaining from.old) (R.remaining from.new) self.old self.new end n) }
    {
        let most = (end - self.comparison.at).min(room.len() as u64) as usize;
        let count = read_again(from, &mut room[..most], repeats)?;
        self.take(&room[..count]);
        Ok(count)
    }

    /// How many bytes the next read takes at most, if there is room for so many: as many as end with a value, so that a
    /// multiple of four ends with them. If fewer than four do, or more than are digested at once, as many as there is
    /// room for.
    fn even_room(&self, room: usize) -> usize
        requires { 0 < room }
        ensures some { 0 < result }
        ensures within { result ≤ room }
    {
        let at = self.comparison.at;
        let reach = at.saturating_add(room as u64);
        let mut values = 0;
        let mut even = room;
        'places: for place in self.next..self.comparison.candidates.len() {
            let note = self.comparison.candidates[place].note;
            let end = note.covered_end();
            if end > reach {
                break;
            }
            if values == MOST {
                return room;
            }
            if is_digested(note) {
                values += 1;
                if values % SIDE_BY_SIDE == 0 && end > at {
                    even = (end - at) as usize;
                }
            }
        }
        even
    }

    /// Makes a window twice as wide, up to [`GREATEST_ROOM`], if a read brought all that it asked for, and more values
    /// come whole with it. If there is no memory for that, it stays as it is.
    fn widen(&self, window: &mut Vec<u8>, has_all: bool, before: usize)
        requires { 0 < length window.old.items }
        ensures { 0 < length window.new.items }
    {
        if !has_all || !self.gains_by_more(before) {
            return;
        }
        let room = window.len().saturating_mul(2).min(GREATEST_ROOM);
        match window.resize(room, 0) {
            Ok(()) => (),
            Err(_) => (),
        }
    }

    /// Whether more values come whole if more bytes come at once: fewer candidates were passed from the one at the place
    /// `before` on than values are digested at once, and the next isn't too long.
    fn gains_by_more(&self, before: usize) -> bool {
        if self.next >= before.saturating_add(MOST) {
            return false;
        }
        match self.comparison.candidates.get(self.next) {
            Some(next) => next.note.length() <= GREATEST_VALUE,
            None => false,
        }
    }

    /// Takes further bytes.
    fn take(&mut self, bytes: &[u8])
        requires { self.old.comparison.at + length bytes.now ≤ greatest_end }
        ensures reads { Reads self.old self.new bytes.now }
        ensures at { self.new.comparison.at ≡ self.old.comparison.at + length bytes.now }
    {
        let at = self.comparison.at;
        self.comparison.take(bytes);
        self.compare_digests(at, bytes);
    }

    /// Compares the digests of the values that end with further bytes, the first of which lies at a file offset, and
    /// takes what they have of the next value. The candidates were compared with these bytes.
    fn compare_digests(&mut self, at: u64, bytes: &[u8])
        requires { self.old.comparison.at ≡ at + length bytes.now }
        ensures ends { EndsFront at bytes.now self.old self.new }
        ensures at { self.new.comparison.at ≡ self.old.comparison.at }
    {
        'candidates: while self.next < self.comparison.candidates.len() {
            let note = self.comparison.candidates[self.next].note;
            if note.covered_end() > self.comparison.at {
                self.begin_value(note, at, bytes);
                return;
            }
            self.compare_next(note, at, bytes);
        }
    }

    /// Takes what further bytes have of the value of the next candidate, which doesn't end with them.
    fn begin_value(&mut self, note: &Note, at: u64, bytes: &[u8])
        requires next { IsNext self.old note }
        requires ends { self.old.comparison.at < covered_end note.now }
        requires at { self.old.comparison.at ≡ at + length bytes.now }
        ensures ends { EndsFront at bytes.now self.old self.new }
        ensures at { self.new.comparison.at ≡ self.old.comparison.at }
    {
        let part = value_part(note, at, bytes);
        let before = replace(&mut self.hasher, None);
        self.hasher = Some(hasher_with(before, part));
    }

    /// Compares the digest of the next candidate, which ends with further bytes, and those of more candidates if these
    /// can be computed at once.
    fn compare_next(&mut self, note: &Note, at: u64, bytes: &[u8])
        requires next { IsNext self.old note }
        requires ends { covered_end note.now ≤ self.old.comparison.at }
        requires at { self.old.comparison.at ≡ at + length bytes.now }
        ensures tells { Tells at bytes.now self.old self.new }
        ensures at { self.new.comparison.at ≡ self.old.comparison.at }
        ensures notes { notes_of self.new.comparison.candidates.items ≡ notes_of self.old.comparison.candidates.items }
        ensures next { self.old.next < self.new.next }
    {
        match self.values_at_once(note, at, bytes) {
            Some(values) => self.compare_values(&values, at, bytes),
            None => self.compare_value(note, at, bytes),
        }
    }

    /// Compares the digest of the next candidate, which ends with further bytes.
    fn compare_value(&mut self, note: &Note, at: u64, bytes: &[u8])
        requires next { IsNext self.old note }
        requires ends { covered_end note.now ≤ self.old.comparison.at }
        ensures tells { Tells at bytes.now self.old self.new }
        ensures at { self.new.comparison.at ≡ self.old.comparison.at }
        ensures notes { notes_of self.new.comparison.candidates.items ≡ notes_of self.old.comparison.candidates.items }
        ensures next { self.old.next < self.new.next }
    {
        let part = value_part(note, at, bytes);
        let before = replace(&mut self.hasher, None);
        let digest = digest_with(before, part, &self.of_nothing);
        self.say(digest);
    }

    /// Compares the digests of the next candidates, which end with further bytes. Their values are digested at once.
    fn compare_values(&mut self, values: &[&[u8]], _at: u64, _bytes: &[u8])
        requires some { 0 < length values.now }
        requires few { length values.now ≤ 256 }
        requires hasher { self.old.hasher ≡ None }
        requires values { AreValuesOf _at _bytes.now
            (digested_from self.old.next (notes_of self.old.comparison.candidates.items)) (map (λ v. v.now) values.now) }
        ensures tells { Tells _at _bytes.now self.old self.new }
        ensures at { self.new.comparison.at ≡ self.old.comparison.at }
        ensures notes { notes_of self.new.comparison.candidates.items ≡ notes_of self.old.comparison.candidates.items }
        ensures next { self.old.next < self.new.next }
    {
        let found = digests_of(values);
        'values: for i in 0..values.len() {
            self.say(found[i]);
        }
    }

    /// The values of the next candidates, as many as lie whole in further bytes, if they are to be digested at once: the
    /// first, which is that of a note, isn't short, and there are three or more. If there is no memory for them, none.
    fn values_at_once<'b>(&self, note: &Note, at: u64, bytes: &'b [u8]) -> Option<Vec<&'b [u8]>>
        requires { self.now.comparison.at ≡ at + length bytes.now }
        ensures some { IfSome result (λ v. 0 < length v.items) }
        ensures few { IfSome result (λ v. length v.items ≤ 256) }
        ensures hasher { IfSome result (λ v. self.now.hasher ≡ None) }
        ensures values { IfSome result (λ v. AreValuesOf at bytes.now
            (digested_from self.now.next (notes_of self.now.comparison.candidates.items)) (map (λ x. x.now) v.items)) }
    {
        if self.hasher.is_some() || note.length() < LEAST_VALUE {
            return None;
        }
        match self.next_values(at, bytes) {
            Ok(values) if values.len() >= FEWEST => Some(values),
            _ => None,
        }
    }

    /// What further bytes have of the values of the next candidates that end with them, 256 at most.
    fn next_values<'b>(&self, at: u64, bytes: &'b [u8]) -> Result<Vec<&'b [u8]>, OutOfMemory>
        requires { self.now.comparison.at ≡ at + length bytes.now }
        ensures few { IfOk result (λ v. length v.items ≤ 256) }
        ensures values { IfOk result (λ v. AreValuesOf at bytes.now
            (digested_from self.now.next (notes_of self.now.comparison.candidates.items)) (map (λ x. x.now) v.items)) }
    {
        let mut values = Vec::new(self.alloc);
        'places: for place in self.next..self.comparison.candidates.len() {
            let note = self.comparison.candidates[place].note;
            if !is_digested(note) {
                continue;
            }
            if values.len() == MOST || note.covered_end() > self.comparison.at {
                break;
            }
            values.push(value_part(note, at, bytes))?;
        }
        Ok(values)
    }

    /// Compares a digest with that which the next candidate knows, and goes on to the one after it.
    fn say(&mut self, digest: [u8; 32])
        requires { self.old.next < vec_len self.old.comparison.candidates }
        ensures says { Says self.old self.new digest }
        ensures at { self.new.comparison.at ≡ self.old.comparison.at }
        ensures notes { notes_of self.new.comparison.candidates.items ≡ notes_of self.old.comparison.candidates.items }
        ensures next { self.old.next < self.new.next }
        ensures hasher { self.new.hasher ≡ None }
        ensures left { digested_from self.new.next (notes_of self.new.comparison.candidates.items)
            ≡ digested_from (self.old.next + 1) (notes_of self.old.comparison.candidates.items) }
    {
        let place = self.next;
        let note = self.comparison.candidates[place].note;
        self.comparison.say(place, is_digest_of(note, digest));
        self.next = next_digested(&self.comparison.candidates, place + 1);
        self.hasher = None;
    }
}

/// Reads once, as many bytes at most as there is room. An interrupted read is repeated, at most as many times as are left.
/// Answers how many bytes stand at the front of the room: none if the source has ended.
fn read_again<R: Read>(from: &mut R, room: &mut [u8], repeats: &mut u32) -> Result<usize, ReadFault>
    requires { 0 < length room.old }
    ensures room { IfOk result (λ n. n ≤ length room.new) }
    ensures consumed { IfOk result (λ n. Consumes (R.remaining from.old) (R.remaining from.new) (take n room.new)) }
    ensures ended { IfOk result (λ n. n ≡ 0 → IsAtEnd (R.remaining from.new)) }
{
    'reads: loop {
        match read_step(from, room) {
            Step::Took(count) => return Ok(count),
            Step::Ended => return Ok(0),
            Step::Interrupted if *repeats > 0 => *repeats -= 1,
            Step::Interrupted | Step::Failed => return Err(ReadFault),
        }
    }
}

/// The place of the first candidate from a place on that knows a digest; if there is none, where they end.
fn next_digested(candidates: &[Candidate<'_>], from: usize) -> usize
    requires { from ≤ length candidates.now }
    ensures from { from ≤ result }
    ensures within { result ≤ length candidates.now }
    ensures undigested { AllWithin (λ c. is_digested c.note.now ≡ false) candidates.now from result }
    ensures digested { IsAtDigested result candidates.now }
{
    for place in from..candidates.len() {
        if is_digested(candidates[place].note) {
            return place;
        }
    }
    candidates.len()
}

/// Whether the note knows the digest of its value, and not the value.
#[tactic(auto, unfolding(crate::specs::Verifying::is_digested))]
pub(crate) fn is_digested(note: &Note) -> bool
    ensures { result ≡ is_digested note.now }
{
    !note.is_head() && note.value().is_none()
}

/// Whether the digest is that which the note knows.
fn is_digest_of(note: &Note, digest: [u8; 32]) -> bool
    requires { IsTrue (is_digested note.now) }
    ensures { result ≡ bytes_eq digest note.now.held }
{
    match note.held() {
        Held::Digest(known) => digest == *known,
        Held::Whole(_) => false,
        Held::Head => false,
    }
}
