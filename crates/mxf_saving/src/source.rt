//! Sources, and the texts that name them.
ghost use Rattle.std.specs.Prelude.{◌≡◌, ◌≤◌, ℕ, List, Result, Ok, Err, IfOk, IfErr, MatchOption};
ghost use Rattle.std.specs.Option.{option_map};
ghost use Rattle.std.specs.List.{list_all};
ghost use Rattle.std.specs.Char.{is_ascii_digit};
ghost use Rattle.mxf_klv.specs.Note.{greatest_end};
ghost use Rattle.mxf_saving.specs.Sources.{IsLength, IsOffset, ReadsPlace, ReadsSlice, ReadsSource, SourceParts};
ghost use Rattle.mxf_saving.specs.Sources.{SplitsLength, SplitsSource, is_range, moved_to, path_of, place_of, size_of};
ghost use Rattle.mxf_saving.specs.Sources.{source_parts};
ghost use Rattle.mxf_saving.specs.declared.source.SourceWordFault.{SourceWordFault};

use mxf_klv::MAX;
use std::fmt;

/// What the text of a piece begins with.
const PIECE: &str = "at:";

/// What the text of a range begins with.
const RANGE: &str = "range:";

/// What the text of a slice begins with.
const SLICE: &str = "slice:";

/// What the text of a catalogue begins with.
const SAVED: &str = "cat:";

/// Where notes come from.
#[derive(Clone, Copy, Debug)]
pub enum Source<'a> {
    /// The bytes of the file at `path`, which lie from `offset` (bytes) on in the recording.
    Piece {
        offset: u64,
        path: &'a str,
    },
    /// The bytes of the file at `path`, which lie from `offset` (bytes) on in the recording; the first may lie inside a
    /// packet.
    Range {
        offset: u64,
        path: &'a str,
    },
    /// The `length` bytes of the file at `path` that begin at its byte `offset`, which lie from there on in the
    /// recording too.
    Slice {
        offset: u64,
        length: u64,
        path: &'a str,
    },
    /// The catalogue in the file at `path`.
    Saved {
        path: &'a str,
    },
}

impl<'a> Source<'a> {
    /// The path of its file.
    pub fn path(&self) -> &'a str
        ensures { result.now ≡ path_of (source_parts self.now) }
    {
        match *self {
            Source::Piece { path, .. }
            | Source::Range { path, .. }
            | Source::Slice { path, .. }
            | Source::Saved { path } => path,
        }
    }

    /// How many bytes of its file a slice is.
    pub fn size(&self) -> Option<u64>
        ensures { result ≡ size_of (source_parts self.now) }
    {
        match *self {
            Source::Slice { length, .. } => Some(length),
            Source::Piece { .. } | Source::Range { .. } | Source::Saved { .. } => None,
        }
    }

    /// Whether it is a range: the bytes of its run may lie anywhere in packets.
    pub fn is_range(&self) -> bool
        ensures { result ≡ is_range (source_parts self.now) }
    {
        matches!(self, Source::Range { .. })
    }

    /// Of a piece, a range or a slice the offset of its first byte, and the path of its file.
    pub fn place(&self) -> Option<(u64, &'a str)>
        ensures { option_map (λ place. (place.0, place.1.now)) result ≡ place_of (source_parts self.now) }
    {
        match *self {
            Source::Piece { offset, path }
            | Source::Range { offset, path }
            | Source::Slice { offset, path, .. } => Some((offset, path)),
            Source::Saved { .. } => None,
        }
    }

    /// The same piece or range, from another offset on. A slice has none, since its bytes lie in the recording where they
    /// lie in its file; nor has a catalogue.
    pub fn at(&self, offset: u64) -> Option<Source<'a>>
        ensures { option_map source_parts result ≡ moved_to offset (source_parts self.now) }
    {
        match *self {
            Source::Piece { path, .. } => Some(Source::Piece { offset, path }),
            Source::Range { path, .. } => Some(Source::Range { offset, path }),
            Source::Slice { .. } | Source::Saved { .. } => None,
        }
    }
}

/// The text that names the source.
impl fmt::Display for Source<'_> {
    fn fmt<W: fmt::Write>(&self, f: &mut fmt::Formatter<W>) -> fmt::Result {
        match *self {
            Source::Piece { offset, path } => write!(f, "{PIECE}{offset}:{path}"),
            Source::Range { offset, path } => write!(f, "{RANGE}{offset}:{path}"),
            Source::Slice {
                offset,
                length,
                path,
            } => write!(f, "{SLICE}{offset}:{length}:{path}"),
            Source::Saved { path } => write!(f, "{SAVED}{path}"),
        }
    }
}

/// Why a text names no source. The causes are tested in this order.
#[derive(Clone, Copy)]
pub enum SourceWordFault {
    /// The text begins neither `at:` nor `range:` nor `slice:` nor `cat:`.
    NoScheme,
    /// After `at:`, `range:` or `slice:` there is no second colon, or before it no digit, another character, or a number
    /// above `MAX`.
    BadOffset,
    /// After `slice:OFFSET:` there is no further colon, or before it no digit, another character, 0, or a number of bytes
    /// that end above `MAX`.
    BadLength,
    /// The path is empty.
    NoPath,
}

/// Whether the text begins as the name of a source does.
pub fn begins_with_scheme(text: &str) -> bool {
    text.starts_with(PIECE)
        || text.starts_with(RANGE)
        || text.starts_with(SLICE)
        || text.starts_with(SAVED)
}

/// Whether the text has decimal digits alone.
fn has_digits_alone(text: &str) -> bool
    ensures { result ≡ list_all (λ c. is_ascii_digit c) text.now }
{
    text.bytes().all(|byte| byte.is_ascii_digit())
}

/// The offset that decimal digits write, in bytes; leading zeros are accepted.
fn offset_of(digits: &str) -> Option<u64>
    ensures { MatchOption result ((offset : ℕ) → IsOffset digits.now offset → ⊥) (IsOffset digits.now) }
{
    if !has_digits_alone(digits) {
        return None;
    }
    let Ok(offset) = digits.parse::<u64>() else {
        return None;
    };
    if offset > MAX {
        return None;
    }
    Some(offset)
}

/// The length that decimal digits write, in bytes, of what begins at the offset; leading zeros are accepted.
fn length_of(digits: &str, offset: u64) -> Option<u64>
    requires { offset ≤ greatest_end }
    ensures { MatchOption result ((size : ℕ) → IsLength digits.now offset size → ⊥) (IsLength digits.now offset) }
{
    let length = offset_of(digits)?;
    if length == 0 || length > MAX - offset {
        return None;
    }
    Some(length)
}

/// Reads `OFFSET:`, and what follows.
fn split_offset(text: &str) -> Option<(u64, &str)>
    ensures { MatchOption result
        ((digits rest : List ℕ) (offset : ℕ) → SplitsSource text.now digits rest offset → ⊥)
        (λ split. (digits : List ℕ) × SplitsSource text.now digits split.1.now split.0) }
{
    let (digits, rest) = text.split_once(':')?;
    let offset = offset_of(digits)?;
    Some((offset, rest))
}

/// Reads `LENGTH:`, and what follows, of what begins at the offset.
fn split_length(text: &str, offset: u64) -> Option<(u64, &str)>
    requires { offset ≤ greatest_end }
    ensures { MatchOption result
        ((digits rest : List ℕ) (size : ℕ) → SplitsLength text.now offset digits rest size → ⊥)
        (λ split. (digits : List ℕ) × SplitsLength text.now offset digits split.1.now split.0) }
{
    let (digits, rest) = text.split_once(':')?;
    let length = length_of(digits, offset)?;
    Some((length, rest))
}

/// Reads `OFFSET:PATH`.
fn parse_place(text: &str) -> Result<(u64, &str), SourceWordFault>
    ensures place { IfOk result (λ place. ReadsPlace text.now (Ok (place.0, place.1.now))) }
    ensures fault { IfErr result (λ fault. ReadsPlace text.now (Err fault)) }
{
    let Some((offset, path)) = split_offset(text) else {
        return Err(SourceWordFault::BadOffset);
    };
    if path.is_empty() {
        return Err(SourceWordFault::NoPath);
    }
    Ok((offset, path))
}

/// Reads `OFFSET:LENGTH:PATH`.
fn parse_slice(text: &str) -> Result<(u64, u64, &str), SourceWordFault>
    ensures slice { IfOk result (λ slice. ReadsSlice text.now (Ok (slice.0, slice.1, slice.2.now))) }
    ensures fault { IfErr result (λ fault. ReadsSlice text.now (Err fault)) }
{
    let Some((offset, rest)) = split_offset(text) else {
        return Err(SourceWordFault::BadOffset);
    };
    let Some((length, path)) = split_length(rest, offset) else {
        return Err(SourceWordFault::BadLength);
    };
    if path.is_empty() {
        return Err(SourceWordFault::NoPath);
    }
    Ok((offset, length, path))
}

/// Reads `at:OFFSET:PATH`, `range:OFFSET:PATH`, `slice:OFFSET:LENGTH:PATH` or `cat:PATH`. PATH is all that follows, and
/// may hold colons.
#[tactic(auto, using(crate::proofs::SourceLaws::placed_fault, crate::proofs::SourceLaws::sliced_fault))]
pub fn parse_source(text: &str) -> Result<Source<'_>, SourceWordFault>
    ensures source { IfOk result (λ source. ReadsSource text.now (Ok (source_parts source))) }
    ensures fault { IfErr result (λ fault. ReadsSource text.now (Err fault)) }
{
    if let Some(path) = text.strip_prefix(SAVED) {
        if path.is_empty() {
            return Err(SourceWordFault::NoPath);
        }
        return Ok(Source::Saved { path });
    }
    if let Some(rest) = text.strip_prefix(RANGE) {
        return match parse_place(rest) {
            Ok((offset, path)) => Ok(Source::Range { offset, path }),
            Err(fault) => Err(fault),
        };
    }
    if let Some(rest) = text.strip_prefix(SLICE) {
        return match parse_slice(rest) {
            Ok((offset, length, path)) => Ok(Source::Slice {
                offset,
                length,
                path,
            }),
            Err(fault) => Err(fault),
        };
    }
    let Some(rest) = text.strip_prefix(PIECE) else {
        return Err(SourceWordFault::NoScheme);
    };
    match parse_place(rest) {
        Ok((offset, path)) => Ok(Source::Piece { offset, path }),
        Err(fault) => Err(fault),
    }
}

/// A law: a text names one source, or has one of the faults.
pub fn one_source()
    ensures { (text : List ℕ) (r s : Result SourceParts SourceWordFault)
        → ReadsSource text r → ReadsSource text s → r ≡ s }
{}
