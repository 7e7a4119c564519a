//! What a file of a catalogue has ahead of its notes: the first sixteen bytes.
ghost use Rattle.std.specs.Prelude.{◌≡◌, ◌++◌, ◌<◌, ◌^◌, ◌↔◌, IfErr, IfOk, IsTrue, MatchOption};
ghost use Rattle.mxf_klv.specs.Written.{Puts};
ghost use Rattle.mxf_catalogue.specs.declared.catalogue.file.start.Version.TheVariants.{Two};
ghost use Rattle.mxf_catalogue.specs.CatalogueFile.{BeginsAsFile, IsRefused, IsUnknownVersion, start_bytes};
ghost use Rattle.mxf_catalogue.specs.CatalogueFile.{version_byte};

use super::FileFault;
use super::fixed_part::split_number;
use mxf_klv::{Progress, WriteFault};
use std::io::Write;

/// What each file begins with: `MXFCAT` and a zero byte.
const MAGIC: [u8; 7] = [0x4D, 0x58, 0x46, 0x43, 0x41, 0x54, 0x00];

/// The byte after it in version 1.
const ONE: u8 = 1;

/// The byte after it in version 2.
const TWO: u8 = 2;

/// The version of a file.
#[derive(Clone, Copy)]
pub(super) enum Version {
    /// Its notes have no marks: it knows no heads.
    One,
    /// Each of its notes has a mark. This one is written.
    Two,
}

impl Version {
    /// The version that the byte gives, if it is a known one.
    fn of(byte: u8) -> Option<Version>
        ensures { MatchOption result (IsUnknownVersion byte) (λ version. byte ≡ version_byte version) }
    {
        match byte {
            ONE => Some(Version::One),
            TWO => Some(Version::Two),
            _ => None,
        }
    }
}

/// What a file says ahead of its notes: its version, and how many there are.
#[derive(Clone, Copy)]
pub(super) struct Start {
    pub version: Version,
    pub count: u64,
}

/// What a file says ahead of its notes, and the bytes after it.
pub(super) fn split_start(bytes: &[u8]) -> Result<(Start, &[u8]), FileFault>
    ensures start { IfOk result (λ s. bytes.now ≡ start_bytes s.0.version s.0.count ++ s.1.now) }
    ensures count { IfOk result (λ s. s.0.count < 2 ^ 64) }
    ensures fault { IfErr result (IsRefused bytes.now) }
{
    if !begins_as_file(bytes) {
        return Err(FileFault::BadMagic);
    }
    let Some((_, rest)) = bytes.split_first_chunk::<7>() else {
        return Err(FileFault::Truncated(0));
    };
    let Some((byte, rest)) = rest.split_first() else {
        return Err(FileFault::Truncated(0));
    };
    let Some(version) = Version::of(*byte) else {
        return Err(FileFault::BadVersion);
    };
    let Some((count, rest)) = split_number(rest) else {
        return Err(FileFault::Truncated(0));
    };
    Ok((Start { version, count }, rest))
}

/// Whether the bytes begin as a file does, as far as there are any.
fn begins_as_file(bytes: &[u8]) -> bool
    ensures { IsTrue result ↔ BeginsAsFile bytes.now }
{
    let present = bytes.len().min(7);
    bytes[..present] == MAGIC[..present]
}

/// Writes what a file of version 2 has ahead of its notes.
pub(super) fn put_start<W: Write>(
    count: u64,
    progress: &mut Progress,
    writer: &mut W,
) -> Result<(), WriteFault>
    ensures { Puts W.contents writer.old writer.new progress.old progress.new result (start_bytes Two count) }
{
    progress.put(writer, &MAGIC)?;
    progress.put(writer, &[TWO])?;
    progress.put(writer, &count.to_be_bytes())
}
