//! Whole packets at the front of bytes, whose values are digested at once.
ghost use Rattle.std.specs.Prelude.{◌≡◌, ◌+◌, ◌≤◌, length, map, take, IfOk, IfSome, Some};
ghost use Rattle.sha2.specs.Sha256.{sha256};
ghost use Rattle.mxf_klv.specs.Note.{end_of, greatest_end, note_of};
ghost use Rattle.mxf_klv.specs.Packet.{size_of};
ghost use Rattle.mxf_klv.specs.PieceReading.{packet_at};
ghost use Rattle.mxf_read.specs.WholePackets.{StandAtFront};

use mxf_digests::digests;
use mxf_klv::{Note, OutOfMemory, Packet, next_packet};
use std::alloc::Global;
use std::convert::AsSlice;
use std::marker::Model;

/// The fewest packets whose values are digested at once. Those of fewer are digested as fast one after another.
pub(crate) const FEWEST: usize = 3;

/// The most packets whose values are digested at once.
pub(crate) const MOST: usize = 64;

/// The fewest bytes of a value that is digested with others: shorter ones gain little.
pub(crate) const LEAST_VALUE: u64 = 128;

/// A whole packet whose note holds a digest of the value.
#[derive(Drop)]
pub(crate) struct DigestedPacket<'a> {
    packet: Packet<'a>,
}

impl<'a> Model for DigestedPacket<'a> {
    ghost use Rattle.std.specs.Prelude.{◌≡◌, false, length};
    ghost use Rattle.mxf_klv.specs.Note.{keeps};
    ghost use Rattle.mxf_klv.specs.Parts.{PacketParts};

    ghost Value = { PacketParts };

    ghost view = { λ p. p.packet };

    ghost invariant = { λ p. keeps p.packet.key (length p.packet.value) ≡ false };
}

/// The bytes of the value.
impl<'a> AsSlice<u8> for DigestedPacket<'a> {
    ghost items = { λ p. p.value };

    fn as_slice(&self) -> &[u8] {
        self.packet.value()
    }
}

impl<'a> DigestedPacket<'a> {
    /// The packet, if its note holds a digest of the value, and that is long.
    fn of(packet: Packet<'a>) -> Option<DigestedPacket<'a>>
        ensures { IfSome result (λ p. p ≡ packet.entry) }
    {
        let count = packet.value().len() as u64;
        if count < LEAST_VALUE || Note::keeps(&packet.key(), count) {
            return None;
        }
        Some(DigestedPacket { packet })
    }

    /// The note of the packet at a file offset, of the digest of its value.
    pub(crate) fn note(&self, offset: u64, digest: [u8; 32]) -> Note
        requires within { end_of (note_of offset self.now) ≤ greatest_end }
        requires digest { digest ≡ sha256 self.now.value }
        ensures { result ≡ note_of offset self.now }
    {
        let count = self.packet.value().len() as u64;
        Note::digested(
            offset,
            self.packet.key(),
            self.packet.width(),
            count,
            digest,
        )
        .unwrap()
    }
}

/// The packet at the front of bytes that lie at a file offset, and its number of bytes, if it is whole, its note holds a
/// digest of the value, and that is long.
fn packet_at_front(offset: u64, bytes: &[u8]) -> Option<(DigestedPacket<'_>, usize)>
    ensures packet { IfSome result (λ x. (packet_at offset bytes.now ≡ Some x.0) × (x.1 ≡ size_of x.0)) }
    ensures room { IfSome result (λ x. x.1 ≤ length bytes.now) }
    ensures within { IfSome result (λ x. offset + x.1 ≤ greatest_end) }
{
    let (packet, size) = next_packet(offset, bytes).ok()?;
    Some((DigestedPacket::of(packet)?, size))
}

/// The packets at the front of bytes that lie at a file offset, one after another, as long as they are whole, their
/// notes hold digests of the values, and these are long; at most 64.
pub(crate) fn packets_at_front(
    alloc: Global,
    offset: u64,
    bytes: &[u8],
) -> Result<Vec<DigestedPacket<'_>>, OutOfMemory>
    ensures stand { IfOk result (λ packets. StandAtFront offset bytes.now packets.items) }
    ensures few { IfOk result (λ packets. length packets.items ≤ 64) }
{
    let mut packets = Vec::new(alloc);
    let mut at = offset;
    let mut rest = bytes;
    'packets: while packets.len() < MOST {
        let Some((packet, size)) = packet_at_front(at, rest) else {
            break;
        };
        packets.push(packet)?;
        at += size as u64;
        let (_, after) = rest.split_at(size);
        rest = after;
    }
    Ok(packets)
}

/// The digests of the values of packets, in their order. What is left is zeros.
pub(crate) fn digests_of(packets: &[DigestedPacket<'_>]) -> [[u8; 32]; MOST]
    requires { length packets.now ≤ 64 }
    ensures { take (length packets.now) result ≡ map (λ p. sha256 p.value) packets.now }
{
    let mut found = [[0; 32]; MOST];
    digests(packets, &mut found[..packets.len()]);
    found
}
