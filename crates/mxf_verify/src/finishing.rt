//! What all sources together say of the notes of a reference.
ghost use Rattle.std.specs.Prelude.{◌≡◌, ◌↔◌, ◌++◌, ◌≤◌, ℕ, IfOk, List, map};
ghost use Rattle.std.specs.List.{AllByRecursion};
ghost use Rattle.mxf_klv.specs.Note.{greatest_end};
ghost use Rattle.mxf_klv.specs.Rising.{In, SameMembers};
ghost use Rattle.mxf_catalogue.specs.Content.{IsContent};
ghost use Rattle.mxf_catalogue.specs.Covers.{IsCover};
ghost use Rattle.mxf_catalogue.specs.Runs.{LiesIn, SameOffsets};
ghost use Rattle.mxf_klv.specs.Parts.{NoteParts};
ghost use Rattle.mxf_verify.specs.Finishing.{AreBytes, IsToldBy};
ghost use Rattle.mxf_verify.specs.Seen.{IsSeen};
ghost use Rattle.mxf_verify.specs.Verifications.{IsVerification, parts_of};
ghost use Rattle.mxf_verify.specs.Verifying.{Source};

use crate::note_set::{NoteSet, OrderedNotes};
use crate::ranges::{Reach, rest_of};
use crate::seen::Seen;
use crate::verification::{CutNote, Differing, Verification};
use mxf_catalogue::{Catalogue, Cover, Run};
use mxf_klv::{Note, OutOfMemory};
use mxf_units::cover_of;
use std::alloc::Global;

/// What sources say of the notes of a catalogue, by what was seen of them. It takes n log n of all.
pub(crate) fn finish<'a>(
    alloc: Global,
    catalogue: &'a Catalogue,
    seen: Seen<'a>,
) -> Result<Verification<'a>, OutOfMemory>
    ensures { IfOk result (λ v. (sources : List Source) → IsSeen catalogue.now sources seen.entry
        → IsVerification catalogue.now sources v) }
{
    let Seen {
        verified,
        headed,
        differing,
        ranges,
        beside,
        came,
        ..
    } = seen;
    let verified = verified.into_ordered();
    let headed = headed.into_ordered();
    let (bytes, uncompared) = bytes_and_uncompared(
        alloc, catalogue, verified, headed, &differing, ranges, &beside,
    )?;
    let cut = uncompared.cut_of(alloc, catalogue)?;
    Ok(told(catalogue, bytes, uncompared, cut, differing, came))
}

/// The bytes that are reported, and what finds the notes that weren't compared.
fn bytes_and_uncompared<'a>(
    alloc: Global,
    catalogue: &Catalogue,
    verified: OrderedNotes<'a>,
    headed: OrderedNotes<'a>,
    differing: &[Differing<'a>],
    ranges: Vec<Run>,
    beside: &[Run],
) -> Result<(ToldBytes, Uncompared<'a>), OutOfMemory>
    requires ranges { AllByRecursion (λ r. r.end ≤ greatest_end) ranges.items }
    requires beside { AllByRecursion (λ r. r.end ≤ greatest_end) beside.now }
    ensures verified { IfOk result (λ t. t.1.verified ≡ verified.entry) }
    ensures rising { IfOk result (λ t. IsContent t.1.damaged) }
    ensures members { IfOk result (λ t. (n : NoteParts)
        → In n t.1.damaged ↔ In n (map (λ d. d.note.now) differing.now)) }
    ensures headed { IfOk result (λ t. t.1.headed ≡ headed.entry) }
    ensures read { IfOk result (λ t. SameOffsets t.1.read ranges.items) }
    ensures reach { IfOk result (λ t. SameMembers t.1.reach ranges.items) }
    ensures bytes { IfOk result (λ t. AreBytes catalogue.now t.1.verified t.1.damaged (ranges.items ++ beside.now) t.0) }
{
    let damaged = damaged_in(alloc, catalogue.len(), differing)?;
    let bytes = bytes_told(alloc, catalogue, &verified, &damaged, &ranges, beside)?;
    let uncompared = Uncompared::of(alloc, verified, damaged, headed, ranges)?;
    Ok((bytes, uncompared))
}

/// What these say of a catalogue.
fn told<'a>(
    catalogue: &'a Catalogue,
    bytes: ToldBytes,
    uncompared: Uncompared<'a>,
    cut: Vec<CutNote<'a>>,
    differing: Vec<Differing<'a>>,
    came: bool,
) -> Verification<'a>
    ensures { IsToldBy catalogue.now uncompared.entry bytes (parts_of differing.entry.items)
        (map (λ c. c.note.now) cut.entry.items) came result }
{
    let held = catalogue.spans();
    let _ = held.runs();
    Verification {
        all_packets: catalogue.len(),
        packets: uncompared.verified.len(),
        damaged: uncompared.damaged.len(),
        differing,
        cut,
        held,
        verified: bytes.verified,
        altered: bytes.altered,
        unverified: bytes.unverified,
        unknown: bytes.unknown,
        came,
    }
}

/// The notes that differ in some source, each once, in their order. A reference has `notes` notes.
fn damaged_in<'a>(
    alloc: Global,
    notes: usize,
    differing: &[Differing<'a>],
) -> Result<OrderedNotes<'a>, OutOfMemory>
    ensures rising { IfOk result (λ d. IsContent d) }
    ensures members { IfOk result (λ d. (n : NoteParts) → In n d ↔ In n (map (λ d. d.note.now) differing.now)) }
{
    let differing = lent(alloc, differing)?;
    let mut damaged = NoteSet::new(alloc, notes);
    damaged.add(&differing)?;
    Ok(damaged.into_ordered())
}

/// The notes that differ.
fn lent<'a>(alloc: Global, differing: &[Differing<'a>]) -> Result<Vec<&'a Note>, OutOfMemory>
    ensures { IfOk result (λ v. v.items ≡ map (λ d. d.note) differing.now) }
{
    Ok(differing.iter().map(|one| one.note).collect(alloc)?)
}

/// The bytes of the notes that are the same or differ, and what is left of the reference and of the sources.
#[derive(Drop)]
pub(crate) struct ToldBytes {
    verified: Cover,
    altered: Cover,
    unverified: Cover,
    unknown: Cover,
}

/// These bytes: of the sources those of their ranges count, and what catalogues hold beside the reference.
fn bytes_told(
    alloc: Global,
    catalogue: &Catalogue,
    verified: &OrderedNotes<'_>,
    damaged: &OrderedNotes<'_>,
    ranges: &[Run],
    beside: &[Run],
) -> Result<ToldBytes, OutOfMemory>
    requires ranges { AllByRecursion (λ r. r.end ≤ greatest_end) ranges.now }
    requires beside { AllByRecursion (λ r. r.end ≤ greatest_end) beside.now }
    ensures { IfOk result (AreBytes catalogue.now verified.now damaged.now (ranges.now ++ beside.now)) }
{
    let verified = verified.bytes(alloc)?;
    let altered = damaged.bytes(alloc)?;
    let unverified = left_of(alloc, catalogue.spans(), &verified, &altered)?;
    let came = covered_by(alloc, ranges, beside)?;
    let unknown = rest_of(alloc, &came, catalogue.spans())?;
    are_covers(&verified, &altered, &unverified, &unknown);
    Ok(ToldBytes {
        verified,
        altered,
        unverified,
        unknown,
    })
}

/// The offsets of a cover that lie in neither of two others.
fn left_of(alloc: Global, all: &Cover, some: &Cover, others: &Cover) -> Result<Cover, OutOfMemory>
    ensures { IfOk result (λ c. (at : ℕ) → LiesIn c at ↔ (LiesIn all.now at × ¬ LiesIn some.now at
        × ¬ LiesIn others.now at)) }
{
    let left = rest_of(alloc, all, some)?;
    rest_of(alloc, &left, others)
}

/// The offsets that lie in ranges or in others.
fn covered_by(alloc: Global, ranges: &[Run], others: &[Run]) -> Result<Cover, OutOfMemory>
    requires ranges { AllByRecursion (λ r. r.end ≤ greatest_end) ranges.now }
    requires others { AllByRecursion (λ r. r.end ≤ greatest_end) others.now }
    ensures { IfOk result (λ c. SameOffsets c (ranges.now ++ others.now)) }
{
    let mut all = Vec::from_slice(alloc, ranges)?;
    all.extend_from_slice(others)?;
    cover_of(alloc, all)
}

/// That each of them is a cover.
fn are_covers(a: &Cover, b: &Cover, c: &Cover, d: &Cover)
    ensures a { IsCover a.now }
    ensures b { IsCover b.now }
    ensures c { IsCover c.now }
    ensures d { IsCover d.now }
{
    let _ = a.runs();
    let _ = b.runs();
    let _ = c.runs();
    let _ = d.runs();
}

/// What finds the notes that weren't compared, though some of their bytes came.
pub(crate) struct Uncompared<'a> {
    verified: OrderedNotes<'a>,
    damaged: OrderedNotes<'a>,
    /// The notes whose heads some catalogue has.
    headed: OrderedNotes<'a>,
    /// The bytes of the ranges of sources.
    read: Cover,
    /// These ranges.
    reach: Reach,
}

// Written out, a drop is one call wherever the notes are let go.
impl Drop for Uncompared<'_> {
    fn drop(self) {
        let Uncompared {
            verified: _verified,
            damaged: _damaged,
            headed: _headed,
            read: _read,
            reach: _reach,
        } = self;
    }
}

impl<'a> Uncompared<'a> {
    ghost use Rattle.std.specs.Prelude.{◌≡◌, ◌↔◌, ◌≤◌, IfOk, IsTrue, map};
    ghost use Rattle.std.specs.List.{AllByRecursion};
    ghost use Rattle.mxf_klv.specs.Note.{greatest_end};
    ghost use Rattle.mxf_klv.specs.Rising.{SameMembers};
    ghost use Rattle.mxf_catalogue.specs.Runs.{SameOffsets};
    ghost use Rattle.mxf_verify.specs.Finishing.{IsLeftOut};
    ghost use Rattle.mxf_verify.specs.Telling.{AreThose};

    /// By the notes that are the same, that differ and whose heads are known, and the ranges of sources.
    fn of(
        alloc: Global,
        verified: OrderedNotes<'a>,
        damaged: OrderedNotes<'a>,
        headed: OrderedNotes<'a>,
        ranges: Vec<Run>,
    ) -> Result<Uncompared<'a>, OutOfMemory>
        requires { AllByRecursion (λ r. r.end ≤ greatest_end) ranges.items }
        ensures verified { IfOk result (λ u. u.verified ≡ verified.entry) }
        ensures damaged { IfOk result (λ u. u.damaged ≡ damaged.entry) }
        ensures headed { IfOk result (λ u. u.headed ≡ headed.entry) }
        ensures read { IfOk result (λ u. SameOffsets u.read ranges.items) }
        ensures reach { IfOk result (λ u. SameMembers u.reach ranges.items) }
    {
        let read = cover_of(alloc, Vec::from_slice(alloc, &ranges)?)?;
        let reach = Reach::of(alloc, ranges)?;
        Ok(Uncompared {
            verified,
            damaged,
            headed,
            read,
            reach,
        })
    }

    /// Whether a note is one of those.
    fn is_left_out(&self, note: &'a Note) -> bool
        ensures { IsTrue result ↔ IsLeftOut self.now note.now }
    {
        let (start, end) = (note.offset(), note.covered_end());
        // Of a whole source the first question settles all.
        !self.reach.has_one(start, end)
            && (self.read.meets(start, end) || self.headed.has(note))
            && !self.verified.has(note)
            && !self.damaged.has(note)
    }

    /// Those among the notes of a catalogue.
    fn cut_of(
        &self,
        alloc: Global,
        catalogue: &'a Catalogue,
    ) -> Result<Vec<CutNote<'a>>, OutOfMemory>
        ensures { IfOk result (λ v. AreThose catalogue.now (IsLeftOut self.now) (map (λ c. c.note.now) v.items)) }
    {
        let left_out = catalogue.notes().filter(|note| self.is_left_out(note));
        Ok(left_out.map(|note| CutNote { note }).collect(alloc)?)
    }
}
