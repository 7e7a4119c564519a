//! The file of a catalogue (this project's profile): versions 1 and 2 are read, version 2 is written.
ghost use Rattle.std.specs.Prelude.{◌≡◌, ◌≢◌, ◌⊎◌, ◌++◌, ◌∷◌, ◌<◌, ◌^◌, ◌↔◌, [], ℕ, List, length, flat_map, IfErr};
ghost use Rattle.std.specs.Prelude.{IfOk, IsTrue, Result, Ok, Err, Some, slice_get, true, false};
ghost use Rattle.mxf_klv.specs.Bytes.{AreBytes};
ghost use Rattle.mxf_klv.specs.Parts.{NoteParts};
ghost use Rattle.mxf_klv.specs.Rising.{In};
ghost use Rattle.mxf_klv.specs.Written.{Puts};
ghost use Rattle.mxf_catalogue.specs.Content.{AreReduced, IsCatalogue, IsContent};
ghost use Rattle.mxf_catalogue.specs.CatalogueFile.{IsFileOf, IsFileOfVersion, IsHeadLast, IsRefused, ReadsFile};
ghost use Rattle.mxf_catalogue.specs.CatalogueFile.{file_bytes, note_bytes, start_bytes, version_byte};
ghost use Rattle.mxf_catalogue.specs.History.{Read, content};
ghost use Rattle.mxf_catalogue.specs.declared.catalogue.file.FileFault.{FileFault};
ghost use Rattle.mxf_catalogue.specs.declared.catalogue.file.FileFault.TheVariants as faults;
ghost use Rattle.mxf_catalogue.specs.declared.catalogue.file.start.Version.{Version};
ghost use Rattle.mxf_catalogue.specs.declared.catalogue.file.start.Version.TheVariants.{One, Two};

mod entry;
mod fixed_part;
mod start;

use super::{Catalogue, Notes};
use entry::{put_note, read_note};
use mxf_klv::{Encode, Note, OutOfMemory, Progress, WriteFault};
use start::{Start, put_start, split_start};
use std::alloc::{AllocError, AllocFailed, Global};
use std::cmp::Ordering;
use std::io::Write;
use thiserror::Error;

/// Why bytes aren't the file of a catalogue. A place is a number of bytes from the first byte of the file.
///
/// The causes are tested in this order: the first seven bytes, as far as there are any; byte eight, if there is one;
/// whether there are sixteen; then for one note after another whether its fixed part of 33 bytes and, in version 2, its
/// mark are whole (`Truncated`), whether a note can have them (`BadNote`), whether what the note holds is whole
/// (`Truncated`), and whether the note is above the one before (`NotSorted`) and takes no head's place (`NotReduced`,
/// in version 2 alone); then that nothing follows (`Trailing`). Memory may run out between two of these tests.
#[derive(Clone, Copy, Debug, PartialEq, Eq, Error)]
pub enum FileFault {
    /// A byte that is present among the first seven isn't a catalogue file's.
    #[error("bad magic")]
    BadMagic,
    /// Byte eight is present and is neither version 1 nor 2.
    #[error("bad version")]
    BadVersion,
    /// The file ends within its first sixteen bytes (place 0), or within the note at this place.
    #[error("truncated at {0}")]
    Truncated(u64),
    /// No note has the fixed part and the mark at this place: the key is no label, the width can't spell the length,
    /// the packet would end above [`MAX`](mxf_klv::MAX), or the mark is none.
    #[error("bad note at {0}")]
    BadNote(u64),
    /// The note at this place isn't above the one before it.
    #[error("not sorted at {0}")]
    NotSorted(u64),
    /// The note before the one at this place is the head of its packet.
    #[error("not reduced at {0}")]
    NotReduced(u64),
    /// Bytes follow the last note, from this place on.
    #[error("trailing bytes at {0}")]
    Trailing(u64),
    /// A growth was refused.
    #[error("out of memory")]
    OutOfMemory,
}

impl From<AllocError> for FileFault {
    ghost from_gives = { λ _ e. e ≡ faults.OutOfMemory };

    fn from(_e: AllocError) -> FileFault {
        FileFault::OutOfMemory
    }
}

impl<T: Drop> From<AllocFailed<T>> for FileFault {
    ghost from_gives = { λ _ e. e ≡ faults.OutOfMemory };

    fn from(_e: AllocFailed<T>) -> FileFault {
        FileFault::OutOfMemory
    }
}

impl Catalogue {
    /// Reads the file of a catalogue, of version 1 or 2; it is the whole of the bytes.
    ///
    /// Memory is taken for one note after another, as they are found whole: the count that the file states takes none
    /// by itself. The causes of a refusal, in their order, are those of [`FileFault`].
    pub fn read(alloc: Global, bytes: &[u8]) -> Result<Catalogue, FileFault>
        ensures reads { ReadsFile bytes.now result }
        ensures history { IfOk result (λ c. (is : IsFileOf bytes.now c) × (c ≡ content (Read bytes.now c is))) }
    {
        let (start, rest) = split_start(bytes)?;
        let notes = read_notes(alloc, bytes, start, rest)?;
        match Catalogue::of_notes(alloc, notes) {
            Ok(all) => Ok(all),
            Err(OutOfMemory) => Err(FileFault::OutOfMemory),
        }
    }
}

/// The notes of a file that begins with this start, which these bytes follow.
fn read_notes(
    alloc: Global,
    bytes: &[u8],
    start: Start,
    behind: &[u8],
) -> Result<Vec<Note>, FileFault>
    requires { bytes.now ≡ start_bytes start.version start.count ++ behind.now }
    ensures notes { IfOk result (λ notes. IsFileOf bytes.now notes.items) }
    ensures fault { IfErr result (IsRefused bytes.now) }
{
    let mut notes = Vec::new(alloc);
    let mut rest = behind;
    for i in 0..start.count {
        let place = (bytes.len() - rest.len()) as u64;
        let (note, after) = read_note(alloc, start.version, place, rest)?;
        if !is_above(&notes, &note) {
            return Err(FileFault::NotSorted(place));
        }
        if replaces_last(&notes, &note) {
            return Err(FileFault::NotReduced(place));
        }
        notes.push(note)?;
        rest = after;
    }
    if !rest.is_empty() {
        return Err(FileFault::Trailing((bytes.len() - rest.len()) as u64));
    }
    Ok(notes)
}

/// Whether a content goes on rising with the note after it.
fn is_above(notes: &[Note], note: &Note) -> bool
    requires { IsContent notes.now }
    ensures { IsTrue result ↔ IsContent (notes.now ++ note.now ∷ []) }
{
    match notes.last() {
        Some(last) => last.cmp(note) == Ordering::Less,
        None => true,
    }
}

/// Whether the last note of a content is the head of the note.
fn replaces_last(notes: &[Note], note: &Note) -> bool
    ensures last { result ≡ true → IsHeadLast notes.now note.now }
    ensures none { result ≡ false → IsHeadLast notes.now note.now → ⊥ }
{
    match notes.last() {
        Some(last) => note.tells(last),
        None => false,
    }
}

impl Encode for Catalogue {
    ghost encoding = { file_bytes };

    fn put_to<W: Write>(&self, progress: &mut Progress, writer: &mut W) -> Result<(), WriteFault> {
        put_start(self.len() as u64, progress, writer)?;
        put_notes(self.notes(), progress, writer)
    }
}

fn put_notes<W: Write>(
    notes: Notes<'_>,
    progress: &mut Progress,
    writer: &mut W,
) -> Result<(), WriteFault>
    ensures { Puts W.contents writer.old writer.new progress.old progress.new result (flat_map
        (note_bytes Two) notes.entry) }
{
    'notes: for note in notes {
        put_note(note, progress, writer)?;
    }
    Ok(())
}

/// A law of [`Catalogue::read`]: bytes are the file of one content, or are refused for one fault, unless memory runs
/// out.
pub fn one_file_reading()
    ensures { (bytes : List ℕ) (r s : Result (List NoteParts) FileFault)
        → r ≢ Err faults.OutOfMemory → s ≢ Err faults.OutOfMemory
        → ReadsFile bytes r → ReadsFile bytes s → r ≡ s }
{}

/// A law of [`Catalogue::read`]: bytes are the file of a content, or there is a cause in them why they are none. By
/// [`one_file_reading`] it is one content or one fault.
pub fn bytes_are_a_file_or_refused()
    ensures { (bytes : List ℕ) → AreBytes bytes
        → ((notes : List NoteParts) × IsFileOf bytes notes)
        ⊎ ((fault : FileFault) × (fault ≢ faults.OutOfMemory) × IsRefused bytes fault) }
{}

/// A law: bytes are the file of one content at most, and a content has one file of a version at most. So catalogues
/// that write equal bytes have equal contents.
pub fn one_file()
    ensures content { (bytes : List ℕ) (a b : List NoteParts) → IsFileOf bytes a → IsFileOf bytes b → a ≡ b }
    ensures bytes { (version : Version) (x y : List ℕ) (notes : List NoteParts)
        → IsFileOfVersion version x notes → IsFileOfVersion version y notes → x ≡ y }
    ensures equal { (a b : List NoteParts) → IsCatalogue a → IsCatalogue b → AreReduced a → AreReduced b
        → length a < 2 ^ 64 → length b < 2 ^ 64 → file_bytes a ≡ file_bytes b → a ≡ b }
{}

/// A law of the two versions of the file: a content has a file of version 2, which is what is written, and one of
/// version 1 exactly if it has no head. Byte eight gives the version, and in a file of version 1 no note takes a head's
/// place.
pub fn files_of_both_versions()
    ensures two { (notes : List NoteParts) → IsCatalogue notes → AreReduced notes → length notes < 2 ^ 64
        → IsFileOfVersion Two (file_bytes notes) notes }
    ensures one { (notes : List NoteParts) → IsCatalogue notes → AreReduced notes → length notes < 2 ^ 64
        → ((bytes : List ℕ) × IsFileOfVersion One bytes notes) ↔ ((n : NoteParts) → In n notes → IsTrue n.whole) }
    ensures told { (version : Version) (bytes : List ℕ) (notes : List NoteParts)
        → IsFileOfVersion version bytes notes → slice_get bytes 7 ≡ Some (version_byte version) }
    ensures reduced { (bytes : List ℕ) (place : ℕ)
        → slice_get bytes 7 ≡ Some 1 → IsRefused bytes (faults.NotReduced place) → ⊥ }
{}

/// A law of [`Catalogue::write_to`](Encode::write_to) and [`Catalogue::read`]: what is written is the file of the
/// content, so it is read back and no other content has it, and what is read of version 2 is written as it stood.
///
/// [`Catalogue::notes`] says that a catalogue meets both premises.
pub fn files_are_read_as_written()
    ensures file { (notes : List NoteParts) → IsCatalogue notes → AreReduced notes → length notes < 2 ^ 64
        → IsFileOf (file_bytes notes) notes }
    ensures read_back { (notes : List NoteParts) → IsCatalogue notes → AreReduced notes → length notes < 2 ^ 64
        → ReadsFile (file_bytes notes) (Ok notes) }
    ensures written_back { (bytes : List ℕ) (notes : List NoteParts)
        → slice_get bytes 7 ≡ Some 2 → ReadsFile bytes (Ok notes) → bytes ≡ file_bytes notes }
{}
