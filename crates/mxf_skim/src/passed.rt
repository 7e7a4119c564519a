//! Packets that are passed over, and their notes.
ghost use Rattle.std.specs.Prelude.{◌≡◌, true};
ghost use Rattle.std.specs.Option.{SomeIff};
ghost use Rattle.mxf_klv.specs.Note.{CanHead};
ghost use Rattle.mxf_klv.specs.Parts.{head_parts, note_parts};
ghost use Rattle.mxf_skim.specs.PassedOver.{is_in_container, is_passed_over, no_digest, stands_in_container};
ghost use Rattle.mxf_klv.specs.Kind.{kind_of};

use mxf_klv::{Held, Kind, Note, Ul, kind};

/// What stands for the digest of a value that was passed over.
const NO_DIGEST: [u8; 32] = [0; 32];

/// Whether a packet with this key, whose value has `length` bytes, is one of a container: it is essence, or another
/// thing that stands among essence, as a system item; and it has a value.
///
/// Fill is none: copies of the header metadata stand on it. Other unknown packets are none: they may lie in header
/// metadata.
pub fn is_of_container(key: &Ul, length: u64) -> bool
    ensures { result ≡ is_in_container key.now length }
{
    length > 0 && stands_in_container(key)
}

/// Whether the key is that of essence, or of another thing that stands among essence.
fn stands_in_container(key: &Ul) -> bool
    ensures { result ≡ stands_in_container (kind_of key.now) key.now }
{
    match kind(key) {
        Kind::Essence => true,
        Kind::Other => key.bytes()[8..12] == [0x0D, 0x01, 0x03, 0x01],
        _ => false,
    }
}

/// The note of a container's packet that was passed over. None if the packet is none of a container, if the width
/// can't spell the length, or if the packet would end above [`MAX`](mxf_klv::MAX). It takes no memory.
pub fn passed_over(offset: u64, key: Ul, width: u8, length: u64) -> Option<Note>
    ensures { SomeIff result ((is_in_container key length ≡ true) × CanHead (head_parts offset key width length))
        (note_parts offset key width length no_digest) }
{
    if !is_of_container(&key, length) {
        return None;
    }
    Note::digested(offset, key, width, length, NO_DIGEST)
}

/// Whether the note is that of a container's packet that was passed over.
pub fn is_passed_over(note: &Note) -> bool
    ensures { result ≡ is_passed_over note.now }
{
    match note.held() {
        Held::Digest(digest) => *digest == NO_DIGEST && is_of_container(&note.key(), note.length()),
        Held::Whole(_) | Held::Head => false,
    }
}
