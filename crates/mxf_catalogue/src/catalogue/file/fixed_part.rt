//! The fixed part of a note in a file: 33 bytes, ahead of its mark and of what the note holds.
ghost use Rattle.std.specs.Prelude.{◌≡◌, ◌++◌, ◌<◌, ◌^◌, IfNone, IfSome, length};
ghost use Rattle.mxf_catalogue.specs.CatalogueFile.{BeginsWithFixedPart, fixed_bytes, fixed_part_of, number_bytes};

use mxf_klv::Note;

/// What a note of a file says of its packet, ahead of what it holds.
#[derive(Clone, Copy)]
pub(super) struct FixedPart {
    pub offset: u64,
    pub key: [u8; 16],
    pub width: u8,
    pub length: u64,
}

/// The fixed part at the front, and the bytes after it; none if there are fewer than 33 bytes.
pub(super) fn split_fixed_part(bytes: &[u8]) -> Option<(FixedPart, &[u8])>
    ensures some { IfSome result (λ s. BeginsWithFixedPart bytes.now s.0 s.1.now) }
    ensures none { IfNone result (length bytes.now < 33) }
{
    let (offset, rest) = split_number(bytes)?;
    let (key, rest) = rest.split_first_chunk::<16>()?;
    let (width, rest) = rest.split_first()?;
    let (length, rest) = split_number(rest)?;
    let fixed = FixedPart {
        offset,
        key: *key,
        width: *width,
        length,
    };
    Some((fixed, rest))
}

/// The number in the first eight bytes, and the bytes after them.
#[tactic(auto, unfolding(crate::specs::CatalogueFile::number_bytes))]
pub(super) fn split_number(bytes: &[u8]) -> Option<(u64, &[u8])>
    ensures some { IfSome result (λ s. (bytes.now ≡ number_bytes s.0 ++ s.1.now) × (s.0 < 2 ^ 64)) }
    ensures none { IfNone result (length bytes.now < 8) }
{
    let (number, rest) = bytes.split_first_chunk::<8>()?;
    Some((u64::from_be_bytes(*number), rest))
}

/// The bytes of a note's fixed part.
#[tactic(auto, unfolding(crate::specs::CatalogueFile::number_bytes))]
pub(super) fn fixed_part_bytes(note: &Note) -> [u8; 33]
    ensures { result ≡ fixed_bytes (fixed_part_of note.now) }
{
    let mut bytes = [0; 33];
    let (offset, rest) = bytes.split_at_mut(8);
    let (key, rest) = rest.split_at_mut(16);
    let (width, length) = rest.split_at_mut(1);
    offset.copy_from_slice(&note.offset().to_be_bytes());
    key.copy_from_slice(&note.key().bytes());
    width.copy_from_slice(&[note.width()]);
    length.copy_from_slice(&note.length().to_be_bytes());
    bytes
}
