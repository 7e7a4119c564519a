//! What stands before a packet's value (ST 336, KLV triplet): its key and its length.
ghost use Rattle.std.specs.Prelude.{◌≡◌, ◌+◌, ◌≤◌, ◌↔◌, IsTrue, length};
ghost use Rattle.std.specs.Option.{SomeIff};
ghost use Rattle.mxf_klv.specs.Label.{BeginsAsLabel, IsLabel};
ghost use Rattle.mxf_klv.specs.Note.{greatest_end};
ghost use Rattle.mxf_klv.specs.Parts.{head_parts};

use super::{Packet, PacketFault};
use crate::ber::{Ber, read_ber};
use crate::label::Ul;
use crate::note::Note;

/// A packet's key and length, and the bytes after them.
#[derive(Drop)]
pub(crate) struct KeyAndLength<'a> {
    key: Ul,
    ber: Ber,
    after: &'a [u8],

    ghost label: { IsLabel key },
}

impl<'a> KeyAndLength<'a> {
    ghost use Rattle.mxf_klv.specs.KeyAndLength.{ReadsKeyAndLength, whole_packet};

    /// Reads key and length at the front of the bytes.
    pub(crate) fn read(bytes: &'a [u8]) -> Result<KeyAndLength<'a>, PacketFault>
        ensures { ReadsKeyAndLength bytes.now result }
    {
        let Some((start, rest)) = bytes.split_first_chunk::<16>() else {
            return Err(if begins_as_label(bytes) {
                PacketFault::Short
            } else {
                PacketFault::NotUl
            });
        };
        let Some(key) = Ul::from_bytes(*start) else {
            return Err(PacketFault::NotUl);
        };
        let ber = read_ber(rest)?;
        let (_, after) = rest.split_at(usize::from(ber.width()));
        Ok(KeyAndLength { key, ber, after })
    }

    /// The packet's key.
    pub(crate) fn key(&self) -> Ul
        ensures { result ≡ self.now.key }
    {
        self.key
    }

    /// The packet's length.
    pub(crate) fn ber(&self) -> Ber
        ensures { result ≡ self.now.ber }
    {
        self.ber
    }

    /// The number of the packet's bytes.
    pub(crate) fn size(&self) -> u128
        ensures { result ≡ 16 + self.now.ber.width + self.now.ber.value }
    {
        16 + u128::from(self.ber.width()) + u128::from(self.ber.value())
    }

    /// The head of a packet at a file offset, as a note, if the packet ends at or below [`MAX`](crate::MAX).
    pub(crate) fn note(&self, offset: u64) -> Option<Note>
        ensures { SomeIff result (offset + 16 + self.now.ber.width + self.now.ber.value ≤ greatest_end)
            (head_parts offset self.now.key self.now.ber.width self.now.ber.value) }
    {
        Note::head(offset, self.key, self.ber.width(), self.ber.value())
    }

    /// The packet and its number of bytes, if its value is whole.
    pub(crate) fn packet(&self) -> Option<(Packet<'a>, usize)>
        ensures { SomeIff result (self.now.ber.value ≤ length self.now.after.now) (whole_packet self.now) }
    {
        let len = usize::try_from(self.ber.value()).ok()?;
        let value = self.after.get(..len)?;
        let size = 16 + usize::from(self.ber.width()) + len;
        Some((
            Packet {
                key: self.key,
                ber: self.ber,
                value,
            },
            size,
        ))
    }
}

/// Whether the bytes begin as a label does, as far as there are any.
fn begins_as_label(bytes: &[u8]) -> bool
    ensures { IsTrue result ↔ BeginsAsLabel bytes.now }
{
    let present = bytes.len().min(4);
    bytes[..present] == Ul::START[..present]
}
