//! Notes: what is known of a packet at an offset (this project's profile).
ghost use Rattle.std.specs.Prelude.{◌≡◌, ◌↔◌, ◌+◌, ◌<◌, ◌≤◌, length, vec_len, true, false, not, IfOk, IfErr, IfSome};
ghost use Rattle.std.specs.Prelude.{IfNone, IsOk, IsErr, IsTrue, IsErrOf};
ghost use Rattle.std.specs.Option.{SomeIff};
ghost use Rattle.mxf_klv.specs.Parts.{CanSpell, NoteParts, head_parts, note_parts};
ghost use Rattle.mxf_klv.specs.Kind.{kind_of};
ghost use Rattle.mxf_klv.specs.Label.{IsLabel};
ghost use Rattle.mxf_klv.specs.Note.{CanHead, CanNote, IsNote, greatest_end, keeps, keeps_of, keeps_value, covered_end};
ghost use Rattle.mxf_klv.specs.Note.{end_of, head_note, note_cmp, note_of};
ghost use Rattle.std.specs.Cmp.{IsTotalOrder};
ghost use Rattle.std.specs.declared.cmp.Ordering.TheVariants.{Equal};
ghost use Rattle.mxf_klv.specs.declared.note.NoteFault.TheVariants as faults;

mod front;
mod held;
mod order;

use crate::ber::Ber;
use crate::kinds::Kind;
use crate::kinds::table::kind;
use crate::label::Ul;
use crate::memory::OutOfMemory;
use crate::packet::Packet;
use front::Front;
pub use held::Held;
use held::KeptValue;
use sha2::{Digest, Sha256};
use std::alloc::Global;
use std::marker::Model;
use std::mem::size_of;
use thiserror::Error;

/// The greatest end of a packet: file offsets, in bytes, go up to it.
pub const MAX: u64 = 9_223_372_036_854_775_807;

/// The greatest length of a value that is kept, in bytes.
const GREATEST_KEPT: u64 = 4_194_304;

/// What is known of a packet at an offset: its key, its length, and its value or the value's SHA-256. A head is the
/// note of a packet of which key and length alone were read.
///
/// A structural packet's value of at most 4,194,304 bytes is kept whole; of every other value the digest is kept, or 32
/// zero bytes, which stand for a value that was passed over.
/// Notes go by offset, then key, then width, then length; a head goes before the notes of whole packets with the same
/// four, which go by held bytes.
#[derive(Debug, Drop)]
pub struct Note {
    offset: u64,
    length: u64,
    kept: KeptValue,
}

// In memory a note takes 64 bytes, beside a value that it keeps.
const _: () = prove!(size_of::<Note>() == 64);

impl Model for Note {
    ghost use Rattle.mxf_klv.specs.KeptValue.{AreNoteFields, front_of, kept_bytes, is_whole};
    ghost use Rattle.mxf_klv.specs.Parts.{NoteParts};

    ghost Value = { NoteParts };

    ghost view = { λ n. record {
      offset = n.offset;
      key = (front_of n.kept).key;
      width = (front_of n.kept).width;
      length = n.length;
      whole = is_whole n.kept;
      held = kept_bytes n.kept;
    } };

    ghost invariant = { λ n. AreNoteFields n.offset n.length n.kept };
}

/// Why there is no note of a packet. The causes are tested in this order.
#[derive(Clone, Copy, Debug, PartialEq, Eq, Error)]
pub enum NoteFault {
    /// The packet would end above [`MAX`].
    #[error("the packet ends too far on")]
    TooFar,
    /// The value was to be kept, and a growth was refused.
    #[error("out of memory")]
    OutOfMemory,
}

impl From<OutOfMemory> for NoteFault {
    ghost from_gives = { λ _ e. e ≡ faults.OutOfMemory };

    fn from(_fault: OutOfMemory) -> NoteFault {
        NoteFault::OutOfMemory
    }
}

/// Whether a value of this length is kept in a packet of this kind.
fn keeps(kind: Kind, length: u64) -> bool
    ensures { result ≡ keeps_of kind length }
{
    kind.is_structural() && length <= GREATEST_KEPT
}

/// A value that makes no note: it comes back.
#[derive(Debug, Drop, Error)]
#[error("no note keeps this value")]
pub struct NotANote {
    pub value: Vec<u8>,
}

impl Note {
    ghost use Rattle.mxf_klv.specs.KeptValue.{Shows};

    /// The note of a packet at a file offset, in bytes.
    pub fn of(alloc: Global, offset: u64, packet: &Packet<'_>) -> Result<Note, NoteFault>
        ensures noted { IfOk result (λ n. n ≡ note_of offset packet.now) }
        ensures too_far { IsErrOf result NoteFault.TooFar ↔ (greatest_end < end_of (note_of offset packet.now)) }
        ensures memory { IsErrOf result NoteFault.OutOfMemory → keeps packet.now.key (length packet.now.value) ≡ true }
    {
        let length = packet.value().len() as u64;
        let end = u128::from(offset) + 16 + u128::from(packet.width()) + u128::from(length);
        if end > u128::from(MAX) {
            return Err(NoteFault::TooFar);
        }
        Ok(Note::within(alloc, offset, packet)?)
    }

    /// The note of a packet at a file offset, in bytes, which ends at or below [`MAX`].
    ///
    /// It takes memory if the value is kept.
    pub fn within(alloc: Global, offset: u64, packet: &Packet<'_>) -> Result<Note, OutOfMemory>
        requires { end_of (note_of offset packet.now) ≤ greatest_end }
        ensures noted { IfOk result (λ n. n ≡ note_of offset packet.now) }
        ensures memory { IsErr result → keeps packet.now.key (length packet.now.value) ≡ true }
    {
        let front = Front::new(packet.key(), packet.width());
        let value = packet.value();
        let length = value.len() as u64;
        let kept = if keeps(front.kind, length) {
            KeptValue::Whole(front, Vec::from_slice(alloc, value)?)
        } else {
            KeptValue::Digest(front, Sha256::digest(value))
        };
        Ok(Note {
            offset,
            length,
            kept,
        })
    }

    /// The file offset of the packet's first byte.
    pub fn offset(&self) -> u64
        ensures offset { result ≡ self.now.offset }
        ensures note { IsNote self.now }
    {
        self.offset
    }

    /// The file offset after the packet's last byte, at most [`MAX`]. Of a head, it is where the packet would end.
    pub fn end(&self) -> u64
        ensures { result ≡ end_of self.now }
    {
        self.offset + 16 + u64::from(self.width()) + self.length
    }

    /// The packet's key.
    pub fn key(&self) -> Ul
        ensures { result ≡ self.now.key }
    {
        self.kept.front().key
    }

    /// The number of bytes that spell the length, 1 to 9.
    pub fn width(&self) -> u8
        ensures { result ≡ self.now.width }
    {
        self.kept.front().width
    }

    /// The number of bytes of the value.
    pub fn length(&self) -> u64
        ensures { result ≡ self.now.length }
    {
        self.length
    }

    /// The kind of the packet.
    pub fn kind(&self) -> Kind
        ensures { result ≡ kind_of self.now.key }
    {
        self.kept.front().kind
    }

    /// The file offset after the last byte that the note covers: the packet's last; of a head, the last of its length.
    pub fn covered_end(&self) -> u64
        ensures covered { result ≡ covered_end self.now }
        ensures some { self.now.offset < result }
        ensures within { result ≤ greatest_end }
    {
        if self.is_whole() {
            self.end()
        } else {
            self.offset + 16 + u64::from(self.width())
        }
    }

    /// Whether the packet was read whole.
    fn is_whole(&self) -> bool
        ensures { result ≡ self.now.whole }
    {
        match &self.kept {
            KeptValue::Whole(_, _) | KeptValue::Digest(_, _) => true,
            KeptValue::Head(_) => false,
        }
    }

    /// Whether key and length alone were read of the packet.
    pub fn is_head(&self) -> bool
        ensures { result ≡ not self.now.whole }
    {
        !self.is_whole()
    }

    /// The head of the note's packet; of a head, an equal note. It takes no memory.
    pub fn to_head(&self) -> Note
        ensures { result ≡ head_note self.now }
    {
        Note {
            offset: self.offset,
            length: self.length,
            kept: KeptValue::Head(self.kept.front()),
        }
    }

    /// Whether the other note is the head of this note's packet.
    pub fn tells(&self, other: &Note) -> bool
        ensures { IsTrue result ↔ (head_note self.now ≡ other.now) }
    {
        self.to_head() == *other
    }

    fn held_bytes(&self) -> &[u8]
        ensures { result.now ≡ self.now.held }
    {
        match &self.kept {
            KeptValue::Whole(_, value) => value,
            KeptValue::Digest(_, digest) => digest,
            KeptValue::Head(_) => &[],
        }
    }

    /// What is held of the value: the whole of it, or its digest; nothing if the note is a head.
    pub fn held(&self) -> Held<'_>
        ensures { Shows result self.now }
    {
        match &self.kept {
            KeptValue::Whole(_, value) => Held::Whole(value),
            KeptValue::Digest(_, digest) => Held::Digest(digest),
            KeptValue::Head(_) => Held::Head,
        }
    }

    /// The whole value, if the note keeps it; none if it holds a digest or is a head.
    pub fn value(&self) -> Option<&[u8]>
        ensures some { IfSome result (λ v. (keeps_value self.now ≡ true) × (v.now ≡ self.now.held)) }
        ensures none { IfNone result (keeps_value self.now ≡ false) }
    {
        match self.held() {
            Held::Whole(value) => Some(value),
            Held::Digest(_) | Held::Head => None,
        }
    }

    /// Whether there is a note with this file offset and a length that `width` bytes spell: they can spell it, and the
    /// packet would end at or below [`MAX`].
    pub fn can_be(offset: u64, width: u8, length: u64) -> bool
        ensures { IsTrue result ↔ (CanSpell width length × (offset + 16 + width + length ≤ greatest_end)) }
    {
        Ber::new(width, length).is_some()
            && u128::from(offset) + 16 + u128::from(width) + u128::from(length) <= u128::from(MAX)
    }

    /// Whether the note of a packet with this key and length keeps the whole value, and no digest.
    pub fn keeps(key: &Ul, length: u64) -> bool
        ensures { result ≡ keeps key.now length }
    {
        keeps(kind(key), length)
    }

    /// The note that keeps this value. The value comes back if the width can't spell its length, the packet would
    /// end above [`MAX`], or a packet of this key and length keeps a digest.
    pub fn kept(offset: u64, key: Ul, width: u8, value: Vec<u8>) -> Result<Note, NotANote>
        ensures note { IfOk result (λ n. n ≡ note_parts offset key width (vec_len value) value.items) }
        ensures when { IsOk result ↔ CanNote (note_parts offset key width (vec_len value) value.items) true }
        ensures back { IfErr result (λ e. e.value ≡ value) }
    {
        let length = value.len() as u64;
        let front = Front::new(key, width);
        if !Note::can_be(offset, width, length) || !keeps(front.kind, length) {
            return Err(NotANote { value });
        }
        Ok(Note {
            offset,
            length,
            kept: KeptValue::Whole(front, value),
        })
    }

    /// The note that holds this digest of a value of `length` bytes. None if the width can't spell the length, the
    /// packet would end above [`MAX`], or a packet of this key and length keeps its value.
    pub fn digested(offset: u64, key: Ul, width: u8, length: u64, digest: [u8; 32]) -> Option<Note>
        ensures { SomeIff result (CanNote (note_parts offset key width length digest) false)
            (note_parts offset key width length digest) }
    {
        let front = Front::new(key, width);
        if !Note::can_be(offset, width, length) || keeps(front.kind, length) {
            return None;
        }
        Some(Note {
            offset,
            length,
            kept: KeptValue::Digest(front, digest),
        })
    }

    /// The head of a packet whose key and length were read. None if the width can't spell the length, or the packet
    /// would end above [`MAX`]. It takes no memory.
    pub fn head(offset: u64, key: Ul, width: u8, length: u64) -> Option<Note>
        ensures { SomeIff result (CanHead (head_parts offset key width length)) (head_parts offset key width length) }
    {
        if !Note::can_be(offset, width, length) {
            return None;
        }
        Some(Note {
            offset,
            length,
            kept: KeptValue::Head(Front::new(key, width)),
        })
    }

    /// A note equal to this one. It takes memory if the value is kept.
    pub fn clone_in(&self, alloc: Global) -> Result<Note, OutOfMemory>
        ensures equal { IfOk result (λ n. n ≡ self.now) }
        ensures memory { IsErr result → keeps_value self.now ≡ true }
    {
        let kept = match &self.kept {
            KeptValue::Whole(front, value) => KeptValue::Whole(
                *front,
                Vec::from_slice(alloc, value)?,
            ),
            KeptValue::Digest(front, digest) => KeptValue::Digest(*front, *digest),
            KeptValue::Head(front) => KeptValue::Head(*front),
        };
        Ok(Note {
            offset: self.offset,
            length: self.length,
            kept,
        })
    }
}

/// A law: the order of notes is total, and notes that compare alike are one.
pub fn notes_that_compare_alike_are_one()
    ensures total { IsTotalOrder note_cmp }
    ensures one { (a b : NoteParts) → note_cmp a b ≡ Equal → a ≡ b }
{}
