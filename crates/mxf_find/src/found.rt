//! Where a fragment lies in a recording.
ghost use Rattle.std.specs.Prelude.{◌≡◌, IfOk, List, Option};
ghost use Rattle.mxf_klv.specs.Parts.{NoteParts};
ghost use Rattle.mxf_find.specs.Found.{IsFound, offset_of};
ghost use Rattle.mxf_find.specs.Votes.{FragmentParts};
ghost use Rattle.mxf_find.specs.declared.found.Match.{Match};

use crate::agreeing::count_agreeing;
use crate::fragment::Fragment;
use crate::recording::Recording;
use crate::votes::most_voted;
use mxf_klv::{MAX, OutOfMemory};
use std::alloc::Global;

/// Where a fragment lies in a recording, and how many of its notes say so.
#[derive(Clone, Copy, Debug, PartialEq, Eq)]
pub struct Match {
    /// The file offset in the recording, in bytes, at which the fragment begins; it may be negative.
    pub offset: i128,
    /// How many notes of the fragment stand in the recording where they would lie then.
    pub agree: usize,
    /// How many of these agree by key, width and length alone.
    pub heads: usize,
}

/// Where a fragment lies in a recording, if a note of it has a vote there.
///
/// It takes memory for the votes, one at most for each note, and while it compares a note that keeps its value. The
/// time is n log n of the notes of the fragment, each looked up in those of the recording.
pub fn find(
    alloc: Global,
    fragment: &Fragment<'_>,
    recording: &Recording<'_>,
) -> Result<Option<Match>, OutOfMemory>
    ensures { IfOk result (λ found. IsFound fragment.now recording.now found) }
{
    let votes = fragment.votes(alloc, recording)?;
    let Some(at) = most_voted(votes) else {
        return Ok(None);
    };
    let counts = count_agreeing(alloc, fragment, recording, at)?;
    Ok(Some(Match {
        offset: offset_of(at),
        agree: counts.agree,
        heads: counts.heads,
    }))
}

/// The offset in the recording of the fragment's first place: a shift less the greatest end, which it has too much.
fn offset_of(shift: u64) -> i128
    ensures { result ≡ offset_of shift }
{
    i128::from(shift) - i128::from(MAX)
}

/// A law of [`find`]: two answers are one.
pub fn one_match()
    ensures { (f : FragmentParts) (recording : List NoteParts) (a b : Option Match)
        → IsFound f recording a → IsFound f recording b → a ≡ b }
{}
