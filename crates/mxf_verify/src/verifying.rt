//! A reference beside the parts of a run.
ghost use Rattle.std.specs.Prelude.{◌≡◌, ◌+◌, ◌<◌, [], ◌∷◌, ℕ, IfErr, IfOk, IfSome, List, OnOk, length};
ghost use Rattle.mxf_read.specs.Gathering.{AllTell, HandedBy, HasFault, IsGood, IsOfAnyPart, IsSavedFault, Tells};
ghost use Rattle.mxf_read.specs.Gathering.{bytes_of};
ghost use Rattle.mxf_read.specs.declared.gathering.part.Part.TheVariants as parts;
ghost use Rattle.mxf_views.specs.Headline.{IsTheRun};
ghost use Rattle.mxf_verify.specs.Seen.{SeesNext};
ghost use Rattle.mxf_verify.specs.Sources.{AreSourcesOf, IsSourceOf, IsVerifyFault, source_at};
ghost use Rattle.mxf_verify.specs.Verifications.{IsVerification};
ghost use Rattle.mxf_verify.specs.Verifying.{Source};

use crate::finishing::finish;
use crate::saved::compare_saved;
use crate::seen::Seen;
use crate::verification::Verification;
use mxf_catalogue::Catalogue;
use mxf_klv::{MAX, OutOfMemory};
use mxf_read::{GREATEST_PIECE, GatherFault, Part, PartFault, gather};
use std::alloc::Global;
use std::io::Read;
use thiserror::Error;

/// Why a reference wasn't verified.
#[derive(Clone, Copy, Debug, PartialEq, Eq, Error)]
pub enum VerifyFault {
    /// A growth was refused that is no part's own.
    #[error("out of memory")]
    OutOfMemory,
    /// A part is at fault.
    #[error("{0}")]
    Part(GatherFault),
}

impl From<OutOfMemory> for VerifyFault {
    ghost use Rattle.std.specs.Prelude.{◌≡◌};
    ghost use Rattle.mxf_verify.specs.declared.verifying.VerifyFault.TheVariants as faults;

    ghost from_gives = { λ _ e. e ≡ faults.OutOfMemory };

    fn from(_fault: OutOfMemory) -> VerifyFault {
        VerifyFault::OutOfMemory
    }
}

/// Verifies a reference: which of its notes are in the parts as it says, which differ there, and what wasn't compared
/// (this project's profile).
///
/// A piece or a range is its bytes here. They are read once, front to back, by the notes of the reference. No packet is
/// looked for in them: bytes that no longer look like packets are judged like all others. 1,099,511,627,776 bytes of
/// each are read at most, and none at or above [`MAX`]. A saved catalogue is its content.
///
/// It takes memory for each note of the reference, of pieces and ranges a window of at most 16,777,216 bytes, one after
/// another, and of catalogues what [`gather`] takes of each by itself. The window has 65,536 bytes at first. It grows
/// where more values come whole with it, which are digested side by side, and stays as it is if there is no memory for
/// that. The first part that is at fault ends it. The parts are dropped in every case.
pub fn verify<'a, R: Read + Drop>(
    alloc: Global,
    reference: &'a Catalogue,
    parts: Vec<Part<R>>,
) -> Result<Verification<'a>, VerifyFault>
    ensures verified { AllTell R.remaining parts.items → IfOk result (λ v. (sources : List Source)
        × AreSourcesOf R.remaining parts.items sources × IsVerification reference.now sources v) }
    ensures fault { AllTell R.remaining parts.items → IfErr result (IsVerifyFault R.remaining parts.items) }
{
    let mut seen = Seen::of(alloc, reference)?;
    let mut number: usize = 0;
    'parts: for part in parts {
        let source = number + 1;
        if let Err(fault) = take_part(alloc, &mut seen, source, part) {
            return Err(VerifyFault::Part(GatherFault {
                part: number,
                fault,
            }));
        }
        number = source;
    }
    Ok(finish(alloc, reference, seen)?)
}

/// Takes what the source of a number says of the notes of the reference.
fn take_part<R: Read + Drop>(
    alloc: Global,
    seen: &mut Seen<'_>,
    number: usize,
    part: Part<R>,
) -> Result<(), PartFault>
    ensures taken { Tells R.remaining part → OnOk result ((s : Source) × IsSourceOf R.remaining part s
        × SeesNext number s seen.old seen.new) }
    ensures good { Tells R.remaining part → OnOk result (IsGood R.remaining part) }
    ensures fault { Tells R.remaining part → IfErr result (λ f. HasFault R.remaining f part) }
{
    match part {
        Part::Piece { offset, from } => take_bytes(alloc, seen, number, offset, from),
        Part::Range { offset, from } => take_bytes(alloc, seen, number, offset, from),
        Part::Saved { from } => take_saved(alloc, seen, number, from),
    }
}

/// Takes what the bytes of a reader say, the first of which lies at a file offset.
fn take_bytes<R: Read + Drop>(
    alloc: Global,
    seen: &mut Seen<'_>,
    number: usize,
    offset: u64,
    from: R,
) -> Result<(), PartFault>
    ensures taken { OnOk result (IfSome (R.remaining from) (λ bytes.
        SeesNext number (source_at offset bytes) seen.old seen.new)) }
    ensures fault { IfErr result IsOfAnyPart }
{
    let mut from = from;
    let offset = offset.min(MAX);
    let read = seen
        .reference
        .read(alloc, offset, &mut from, GREATEST_PIECE)?;
    seen.take_bytes(number, offset, read.end, &read.told)?;
    Ok(())
}

/// Takes what the saved catalogue of a reader says.
fn take_saved<R: Read + Drop>(
    alloc: Global,
    seen: &mut Seen<'_>,
    number: usize,
    from: R,
) -> Result<(), PartFault>
    ensures taken { Tells R.remaining (parts.Saved from) → OnOk result ((s : Source)
        × IsSourceOf R.remaining (parts.Saved from) s × SeesNext number s seen.old seen.new) }
    ensures good { Tells R.remaining (parts.Saved from) → OnOk result (IsGood R.remaining (parts.Saved from)) }
    ensures fault { Tells R.remaining (parts.Saved from) → IfErr result (IsSavedFault (bytes_of R.remaining from)) }
{
    let saved = read_saved(alloc, from)?;
    let told = compare_saved(alloc, seen.reference.catalogue(), &saved)?;
    seen.take_saved(number, saved.is_empty(), &told)?;
    Ok(())
}

/// The content of the saved catalogue that a reader gives.
fn read_saved<R: Read + Drop>(alloc: Global, from: R) -> Result<Catalogue, PartFault>
    ensures run { Tells R.remaining (parts.Saved from)
        → IfOk result (λ c. IsTheRun (HandedBy R.remaining (parts.Saved from ∷ [])) c) }
    ensures good { Tells R.remaining (parts.Saved from) → IfOk result (λ _. IsGood R.remaining (parts.Saved from)) }
    ensures fault { Tells R.remaining (parts.Saved from) → IfErr result (IsSavedFault (bytes_of R.remaining from)) }
{
    let mut parts = Vec::new(alloc);
    parts.push(Part::Saved { from })?;
    match gather(alloc, parts) {
        Ok(gathered) => {
            let (views, _) = gathered.into_parts();
            Ok(views.into_catalogue())
        }
        Err(fault) => Err(fault.fault),
    }
}
