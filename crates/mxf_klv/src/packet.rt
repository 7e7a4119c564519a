//! Packets (ST 336, KLV triplet): a key, a length and a value.
ghost use Rattle.std.specs.Prelude.{◌≡◌, ◌++◌, ℕ, List, Result, Ok, length, take};
ghost use Rattle.std.specs.Option.{SomeIff};
ghost use Rattle.mxf_klv.specs.declared.packet.PacketFault.{PacketFault};
ghost use Rattle.mxf_klv.specs.Bytes.{AreBytes};
ghost use Rattle.mxf_klv.specs.Packet.{IsPacket, IsSpelledPacket, ReadsPacket, packet_bytes, packet_fault, size_of};
ghost use Rattle.mxf_klv.specs.Parts.{PacketParts, CanSpell, packet_parts};

pub(crate) mod key_and_length;

use crate::ber::{Ber, BerFault};
use crate::label::Ul;
use crate::writing::{Encode, Progress, WriteFault};
use key_and_length::KeyAndLength;
use std::io::Write;
use std::marker::Model;
use thiserror::Error;

/// A packet (ST 336, KLV triplet): a key, a length and a value, in the bytes that hold it.
///
/// A file consists of packets alone, so whoever knows where one begins can go through the file without
/// understanding any value. The key says what the value is, the length how far it reaches.
///
/// After the sixteen bytes of the key come the one to nine bytes of the length, and then the value. Packets are equal
/// if all their bytes are, the spelling of the length included.
#[derive(Debug, Drop)]
pub struct Packet<'a> {
    key: Ul,
    ber: Ber,
    value: &'a [u8],
}

impl<'a> Model for Packet<'a> {
    ghost use Rattle.std.specs.Prelude.{◌≡◌, length};
    ghost use Rattle.mxf_klv.specs.Label.{IsLabel};
    ghost use Rattle.mxf_klv.specs.Parts.{CanSpell, PacketParts};

    ghost Value = { PacketParts };

    ghost view = { λ p. record { key = p.key; width = p.ber.width; value = p.value.now } };

    ghost invariant = { λ p. IsLabel p.key × (p.ber.value ≡ length p.value.now)
        × CanSpell p.ber.width (length p.value.now) };
}

/// Why bytes begin with no packet.
#[derive(Clone, Copy, Debug, PartialEq, Eq, Error)]
pub enum PacketFault {
    #[error("no label")]
    NotUl,
    #[error("the length is indefinite")]
    Indefinite,
    #[error("the length has more than eight bytes")]
    TooWide,
    #[error("the packet is cut")]
    Short,
}

impl From<BerFault> for PacketFault {
    ghost from_gives = { λ b p. p ≡ packet_fault b };

    fn from(fault: BerFault) -> PacketFault {
        match fault {
            BerFault::Short => PacketFault::Short,
            BerFault::Indefinite => PacketFault::Indefinite,
            BerFault::TooWide => PacketFault::TooWide,
        }
    }
}

impl<'a> Packet<'a> {
    /// The packet with this key and value whose length is spelled in `width` bytes, if they can spell it.
    pub fn new(key: Ul, width: u8, value: &'a [u8]) -> Option<Packet<'a>>
        ensures { SomeIff result (CanSpell width (length value.now)) (packet_parts key width value.now) }
    {
        let ber = Ber::new(width, value.len() as u64)?;
        let _label = key.bytes();
        Some(Packet { key, ber, value })
    }

    /// The key, sixteen bytes.
    pub fn key(&self) -> Ul
        ensures key { result ≡ self.now.key }
        ensures packet { IsPacket self.now }
    {
        self.key
    }

    /// The number of bytes that spell the length, 1 to 9.
    pub fn width(&self) -> u8
        ensures { result ≡ self.now.width }
    {
        self.ber.width()
    }

    /// The value's bytes.
    pub fn value(&self) -> &'a [u8]
        ensures { result.now ≡ self.now.value }
    {
        self.value
    }
}

impl<'a> Encode for Packet<'a> {
    ghost encoding = { packet_bytes };

    fn put_to<W: Write>(&self, progress: &mut Progress, writer: &mut W) -> Result<(), WriteFault> {
        progress.put(writer, &self.key.bytes())?;
        self.ber.put_to(progress, writer)?;
        progress.put(writer, self.value)
    }
}

/// Reads the packet at the front (ST 336, KLV triplet), and says how many bytes it takes. Other bytes may follow it.
pub fn read_packet(bytes: &[u8]) -> Result<(Packet<'_>, usize), PacketFault>
    ensures { ReadsPacket bytes.now result }
{
    match KeyAndLength::read(bytes) {
        Ok(front) => front.packet().ok_or(PacketFault::Short),
        Err(fault) => Err(fault),
    }
}

/// A law: if two packets, each with any bytes after it, are one text, they are the same packet.
pub fn one_packet()
    ensures { (a b x y : List ℕ) (p q : PacketParts) → IsSpelledPacket a p → IsSpelledPacket b q
        → a ++ x ≡ b ++ y → (a ≡ b) × (p ≡ q) }
{}

/// A law: what bytes begin with is one thing, a packet or one of the faults.
pub fn one_reading()
    ensures { (bytes : List ℕ) (r s : Result (PacketParts × ℕ) PacketFault)
        → ReadsPacket bytes r → ReadsPacket bytes s → r ≡ s }
{}

/// A law of [`Packet::write_to`](Encode::write_to) and [`read_packet`]: what is written is read back, and what is read
/// is written as it stood.
pub fn packets_are_read_as_written()
    ensures read_back { (packet : PacketParts) (more : List ℕ) → IsPacket packet
        → ReadsPacket (packet_bytes packet ++ more) (Ok (packet, size_of packet)) }
    ensures written_back { (bytes : List ℕ) (packet : PacketParts) (size : ℕ) → AreBytes bytes
        → ReadsPacket bytes (Ok (packet, size)) → take size bytes ≡ packet_bytes packet }
{}
