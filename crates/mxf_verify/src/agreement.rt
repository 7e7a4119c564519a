//! Bytes beside what a note says of them.
ghost use Rattle.std.specs.Prelude.{◌≡◌, ◌++◌, ◌≤◌, ◌||◌, drop, length, not, take};
ghost use Rattle.mxf_klv.specs.Ber.{length_bytes};
ghost use Rattle.mxf_klv.specs.Note.{keeps_value};
ghost use Rattle.mxf_verify.specs.Agreeing.{agrees, agrees_on, part_of, value_part};
ghost use Rattle.mxf_verify.specs.Verifying.{front_bytes};

use byteorder::{BigEndian, ByteOrder};
use mxf_klv::Note;

/// Whether bytes that stand at a position of others agree with known ones, as far as there are either.
fn agree_from(known: &[u8], at: usize, bytes: &[u8]) -> bool
    ensures { result ≡ agrees (drop at known.now) bytes.now }
{
    let (_, left) = known.split_at(at.min(known.len()));
    let count = left.len().min(bytes.len());
    left[..count] == bytes[..count]
}

/// The bytes after the first `count`; none if there aren't as many.
fn behind(bytes: &[u8], count: usize) -> &[u8]
    ensures { result.now ≡ drop count bytes.now }
{
    let (_, rest) = bytes.split_at(count.min(bytes.len()));
    rest
}

/// The bytes that spell a note's length: the first, and as many of the others as are used.
#[derive(Drop)]
struct Spelling {
    first: [u8; 1],
    digits: [u8; 8],
    used: usize,
}

/// How a note spells its length.
fn spelling_of(note: &Note) -> Spelling
    ensures used { result.used ≤ 8 }
    ensures first { length result.first ≡ 1 }
    ensures spelled { result.first ++ take result.used result.digits ≡ length_bytes note.now.width note.now.length }
{
    let _offset = note.offset();
    let mut digits = [0; 8];
    let width = note.width();
    if width == 1 {
        return Spelling {
            first: [note.length() as u8],
            digits,
            used: 0,
        };
    }
    let used = usize::from(width - 1);
    BigEndian::write_uint(&mut digits, note.length(), used);
    Spelling {
        first: [127 + width],
        digits,
        used,
    }
}

/// Whether bytes that stand at a position of those that spell a note's length agree with these.
fn agree_with_length(note: &Note, at: usize, bytes: &[u8]) -> bool
    ensures { result ≡ agrees (drop at (length_bytes note.now.width note.now.length)) bytes.now }
{
    let spelling = spelling_of(note);
    let is_first = agree_from(&spelling.first, at, bytes);
    let digits = &spelling.digits[..spelling.used];
    let are_digits = agree_from(
        digits,
        at.saturating_sub(1),
        behind(bytes, 1usize.saturating_sub(at)),
    );
    is_first & are_digits
}

/// Whether bytes that stand at a position of a note's key and length agree with these.
fn agree_with_front(note: &Note, at: usize, bytes: &[u8]) -> bool
    ensures { result ≡ agrees (drop at (front_bytes note.now)) bytes.now }
{
    let _offset = note.offset();
    let is_key = agree_from(&note.key().bytes(), at, bytes);
    let is_length = agree_with_length(
        note,
        at.saturating_sub(16),
        behind(bytes, 16usize.saturating_sub(at)),
    );
    is_key & is_length
}

/// Whether bytes that stand at a position of a note's value agree with it, if the note keeps it.
fn agree_with_value(note: &Note, at: usize, bytes: &[u8]) -> bool
    ensures { result ≡ not (keeps_value note.now) || agrees (drop at note.now.held) bytes.now }
{
    match note.value() {
        Some(kept) => agree_from(kept, at, bytes),
        None => true,
    }
}

/// Whether bytes that come after the first `seen` of those that the note holds agree with what it says of them byte by
/// byte.
#[tactic(auto, unfolding(crate::specs::Agreeing::agrees_on))]
pub(crate) fn agree_on(note: &Note, seen: usize, bytes: &[u8]) -> bool
    ensures { result ≡ agrees_on note.now seen bytes.now }
{
    let front = 16 + usize::from(note.width());
    let value = behind(bytes, front.saturating_sub(seen));
    let is_kept = agree_with_value(note, seen.saturating_sub(front), value);
    let is_front = agree_with_front(note, seen, bytes);
    is_front & is_kept
}

/// Those of further bytes, the first of which lies at a file offset, that the note holds.
#[tactic(auto, unfolding(crate::specs::Agreeing::part_of))]
pub(crate) fn part_of<'b>(note: &Note, at: u64, bytes: &'b [u8]) -> &'b [u8]
    ensures { result.now ≡ part_of note.now at bytes.now }
{
    let size = note.covered_end() - note.offset();
    let left = size.saturating_sub(at.saturating_sub(note.offset()));
    let rest = behind(bytes, note.offset().saturating_sub(at) as usize);
    let (part, _) = rest.split_at(left.min(rest.len() as u64) as usize);
    part
}

/// Those of further bytes, the first of which lies at a file offset, that are of the note's value.
#[tactic(auto, unfolding(crate::specs::Agreeing::value_part))]
pub(crate) fn value_part<'b>(note: &Note, at: u64, bytes: &'b [u8]) -> &'b [u8]
    ensures { result.now ≡ value_part note.now at bytes.now }
{
    let front = 16 + u64::from(note.width());
    let seen = at.saturating_sub(note.offset());
    behind(
        part_of(note, at, bytes),
        front.saturating_sub(seen) as usize,
    )
}
