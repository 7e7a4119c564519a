//! A note in a file: its fixed part, its mark, and what it holds.
ghost use Rattle.std.specs.Prelude.{◌≡◌, ◌+◌, ◌++◌, ◌∷◌, [], ◌<◌, ◌≤◌, ℕ, List, IfErr, IfNone, IfOk, IfSome, length};
ghost use Rattle.std.specs.Prelude.{true, false};
ghost use Rattle.mxf_klv.specs.Note.{keeps};
ghost use Rattle.mxf_klv.specs.Written.{Puts};
ghost use Rattle.mxf_catalogue.specs.CatalogueFile.{BeginsWithMark, BeginsWithNote, CanBeNoted, IsFixedPart};
ghost use Rattle.mxf_catalogue.specs.CatalogueFile.{fixed_bytes, fixed_part_of, length_ahead, mark_of, note_bytes};
ghost use Rattle.mxf_catalogue.specs.FileReading.{NoteBehindMark, RefusesBehindMark, RefusesNote};
ghost use Rattle.mxf_catalogue.specs.declared.catalogue.file.start.Version.TheVariants.{Two};

use super::FileFault;
use super::fixed_part::{FixedPart, fixed_part_bytes, split_fixed_part};
use super::start::Version;
use mxf_klv::{Held, Note, Progress, Ul, WriteFault};
use std::alloc::Global;
use std::io::Write;

/// The note of this version at the front, and the bytes after it. It stands at a place of the file, which faults name.
pub(super) fn read_note(
    alloc: Global,
    version: Version,
    place: u64,
    bytes: &[u8],
) -> Result<(Note, &[u8]), FileFault>
    ensures note { IfOk result (λ s. BeginsWithNote version bytes.now s.0 s.1.now) }
    ensures fault { IfErr result (RefusesNote version place bytes.now) }
{
    let Some((fixed, behind)) = split_fixed_part(bytes) else {
        return Err(FileFault::Truncated(place));
    };
    let Some((mark, rest)) = split_mark(version, behind) else {
        return Err(FileFault::Truncated(place));
    };
    read_held(alloc, place, fixed, mark, rest)
}

/// The mark after a fixed part, and the bytes after it. If the version has none, it is that of a whole packet.
fn split_mark(version: Version, bytes: &[u8]) -> Option<(u8, &[u8])>
    ensures some { IfSome result (λ s. BeginsWithMark version bytes.now s.0 s.1.now) }
    ensures none { IfNone result (33 + length bytes.now < length_ahead version) }
{
    match version {
        Version::One => Some((WHOLE, bytes)),
        Version::Two => {
            let (mark, rest) = bytes.split_first()?;
            Some((*mark, rest))
        }
    }
}

/// The mark of a packet that was read whole.
const WHOLE: u8 = 0;

/// The mark of a packet whose key and length alone were read.
const HEAD: u8 = 1;

/// The note with this fixed part and this mark, which holds the first of these bytes, and the bytes after them.
fn read_held(
    alloc: Global,
    place: u64,
    fixed: FixedPart,
    mark: u8,
    bytes: &[u8],
) -> Result<(Note, &[u8]), FileFault>
    requires { IsFixedPart fixed }
    ensures note { IfOk result (λ s. NoteBehindMark fixed mark bytes.now s.0 s.1.now) }
    ensures fault { IfErr result (RefusesBehindMark place fixed mark bytes.now) }
{
    let Some(key) = Ul::from_bytes(fixed.key) else {
        return Err(FileFault::BadNote(place));
    };
    if !Note::can_be(fixed.offset, fixed.width, fixed.length) || mark > HEAD {
        return Err(FileFault::BadNote(place));
    }
    if mark == HEAD {
        return Ok((note_of_head(fixed, key), bytes));
    }
    if Note::keeps(&key, fixed.length) {
        read_value(alloc, place, fixed, key, bytes)
    } else {
        read_digest(place, fixed, key, bytes)
    }
}

/// The note of a packet whose key and length alone were read.
fn note_of_head(fixed: FixedPart, key: Ul) -> Note
    requires key { key ≡ fixed.key }
    requires noted { CanBeNoted fixed }
    ensures { (bytes : List ℕ) → NoteBehindMark fixed 1 bytes result bytes }
{
    match Note::head(fixed.offset, key, fixed.width, fixed.length) {
        Some(note) => note,
        None => unreachable!(),
    }
}

/// The same if the note keeps the value.
fn read_value(
    alloc: Global,
    place: u64,
    fixed: FixedPart,
    key: Ul,
    bytes: &[u8],
) -> Result<(Note, &[u8]), FileFault>
    requires key { key ≡ fixed.key }
    requires noted { CanBeNoted fixed }
    requires kept { keeps fixed.key fixed.length ≡ true }
    ensures note { IfOk result (λ s. NoteBehindMark fixed 0 bytes.now s.0 s.1.now) }
    ensures fault { IfErr result (RefusesBehindMark place fixed 0 bytes.now) }
{
    let Ok(length) = usize::try_from(fixed.length) else {
        return Err(FileFault::Truncated(place));
    };
    if bytes.len() < length {
        return Err(FileFault::Truncated(place));
    }
    let (value, after) = bytes.split_at(length);
    let value = Vec::from_slice(alloc, value)?;
    match Note::kept(fixed.offset, key, fixed.width, value) {
        Ok(note) => Ok((note, after)),
        Err(_) => unreachable!(),
    }
}

/// The same if the note holds a digest.
fn read_digest(
    place: u64,
    fixed: FixedPart,
    key: Ul,
    bytes: &[u8],
) -> Result<(Note, &[u8]), FileFault>
    requires key { key ≡ fixed.key }
    requires noted { CanBeNoted fixed }
    requires digested { keeps fixed.key fixed.length ≡ false }
    ensures note { IfOk result (λ s. NoteBehindMark fixed 0 bytes.now s.0 s.1.now) }
    ensures fault { IfErr result (RefusesBehindMark place fixed 0 bytes.now) }
{
    let Some((digest, after)) = bytes.split_first_chunk::<32>() else {
        return Err(FileFault::Truncated(place));
    };
    match Note::digested(fixed.offset, key, fixed.width, fixed.length, *digest) {
        Some(note) => Ok((note, after)),
        None => unreachable!(),
    }
}

/// The mark of a note, and what it holds.
fn mark_and_held(note: &Note) -> (u8, &[u8])
    ensures mark { result.0 ≡ mark_of note.now.whole }
    ensures held { result.1.now ≡ note.now.held }
{
    // What a head holds is no byte, since it is a note.
    let _offset = note.offset();
    match note.held() {
        Held::Whole(value) => (WHOLE, value),
        Held::Digest(digest) => (WHOLE, digest),
        Held::Head => (HEAD, &[]),
    }
}

/// The bytes of a note of version 2 ahead of what it holds: its fixed part and its mark.
fn bytes_ahead(note: &Note, mark: u8) -> [u8; 34]
    ensures { result ≡ fixed_bytes (fixed_part_of note.now) ++ mark ∷ [] }
{
    let mut bytes = [0; 34];
    let (fixed, last) = bytes.split_at_mut(33);
    fixed.copy_from_slice(&fixed_part_bytes(note));
    last.copy_from_slice(&[mark]);
    bytes
}

/// Writes the note as version 2 has it, in two parts.
pub(super) fn put_note<W: Write>(
    note: &Note,
    progress: &mut Progress,
    writer: &mut W,
) -> Result<(), WriteFault>
    ensures { Puts W.contents writer.old writer.new progress.old progress.new result (note_bytes Two note.now) }
{
    let (mark, held) = mark_and_held(note);
    progress.put(writer, &bytes_ahead(note, mark))?;
    progress.put(writer, held)
}
