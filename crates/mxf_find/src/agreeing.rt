//! Which notes of a fragment stand in a recording where it is said to lie.
ghost use Rattle.std.specs.Prelude.{◌≡◌, ◌↔◌, IfNone, IfOk, IfSome, IsTrue};
ghost use Rattle.mxf_klv.specs.Note.{IsNote};
ghost use Rattle.mxf_klv.specs.Rising.{In};
ghost use Rattle.mxf_find.specs.Agreeing.{agreeing, agreeing_as_heads, agrees, agrees_as_head, agrees_as_head_at};
ghost use Rattle.mxf_find.specs.Agreeing.{agrees_at, moved_to};

use crate::fragment::Fragment;
use crate::recording::Recording;
use mxf_catalogue::Catalogue;
use mxf_klv::{Held, MAX, Note, OutOfMemory};
use std::alloc::Global;

/// How many notes of a fragment agree, and how many of these by key, width and length alone.
#[derive(Clone, Copy)]
pub(crate) struct Counts {
    pub agree: usize,
    pub heads: usize,
}

/// Whether a note agrees, and whether by key, width and length alone.
#[derive(Clone, Copy)]
struct Agreement {
    agrees: bool,
    as_head: bool,
}

/// The agreement of a note that doesn't.
const NONE: Agreement = Agreement {
    agrees: false,
    as_head: false,
};

/// The agreement of one that does by key, width and length alone.
const BY_LENGTH: Agreement = Agreement {
    agrees: true,
    as_head: true,
};

/// How many notes of a fragment agree with a recording at a shift. It takes memory while it compares a note that keeps
/// its value.
pub(crate) fn count_agreeing(
    alloc: Global,
    fragment: &Fragment<'_>,
    recording: &Recording<'_>,
    at: u64,
) -> Result<Counts, OutOfMemory>
    ensures agree { IfOk result (λ c. c.agree ≡ agreeing fragment.now recording.now at) }
    ensures heads { IfOk result (λ c. c.heads ≡ agreeing_as_heads fragment.now recording.now at) }
{
    let mut agree = 0;
    let mut heads = 0;
    for note in fragment.content().notes() {
        let agreement = agreement_of(alloc, fragment, recording, at, note)?;
        agree += usize::from(agreement.agrees);
        heads += usize::from(agreement.as_head);
    }
    Ok(Counts { agree, heads })
}

/// Whether a note of a fragment agrees with a recording at a shift.
fn agreement_of(
    alloc: Global,
    fragment: &Fragment<'_>,
    recording: &Recording<'_>,
    at: u64,
    note: &Note,
) -> Result<Agreement, OutOfMemory>
    ensures agrees { IfOk result (λ a. a.agrees ≡ agrees fragment.now recording.now at note.now) }
    ensures as_head { IfOk result (λ a. a.as_head ≡ agrees_as_head fragment.now recording.now at note.now) }
{
    let Some(offset) = at.checked_sub(MAX - fragment.place(note)) else {
        return Ok(NONE);
    };
    agreement_at(alloc, recording.content(), note, offset)
}

/// Whether a note that is moved to an offset agrees with a content.
fn agreement_at(
    alloc: Global,
    content: &Catalogue,
    note: &Note,
    offset: u64,
) -> Result<Agreement, OutOfMemory>
    ensures agrees { IfOk result (λ a. a.agrees ≡ agrees_at content.now offset note.now) }
    ensures as_head { IfOk result (λ a. a.as_head ≡ agrees_as_head_at content.now offset note.now) }
{
    content.laws();
    let Some(head) = Note::head(offset, note.key(), note.width(), note.length()) else {
        return Ok(NONE);
    };
    if !content.has(&head) {
        return Ok(NONE);
    }
    if note.is_head() {
        return Ok(BY_LENGTH);
    }
    if content.holds(&head) {
        return Ok(BY_LENGTH);
    }
    let agrees = holds_moved(alloc, content, note, offset)?;
    Ok(Agreement {
        agrees,
        as_head: false,
    })
}

/// Whether a content has a note that is moved to an offset.
fn holds_moved(
    alloc: Global,
    content: &Catalogue,
    note: &Note,
    offset: u64,
) -> Result<bool, OutOfMemory>
    ensures { IfOk result (λ r. IsTrue r ↔ In (moved_to offset note.now) content.now) }
{
    content.laws();
    match moved(alloc, note, offset)? {
        Some(moved) => Ok(content.holds(&moved)),
        None => Ok(false),
    }
}

/// The note of the same packet at another offset, if there can be one. It takes memory if the value is kept.
fn moved(alloc: Global, note: &Note, offset: u64) -> Result<Option<Note>, OutOfMemory>
    ensures some { IfOk result (λ moved. IfSome moved (λ m. m ≡ moved_to offset note.now)) }
    ensures none { IfOk result (λ moved. IfNone moved (IsNote (moved_to offset note.now) → ⊥)) }
{
    let _ = note.offset();
    match note.held() {
        Held::Whole(value) => {
            let value = Vec::from_slice(alloc, value)?;
            Ok(Note::kept(offset, note.key(), note.width(), value).ok())
        }
        Held::Digest(digest) => Ok(Note::digested(
            offset,
            note.key(),
            note.width(),
            note.length(),
            *digest,
        )),
        Held::Head => Ok(Note::head(offset, note.key(), note.width(), note.length())),
    }
}
