//! Noting the packets of bytes at hand.
ghost use Rattle.std.specs.Prelude.{◌≡◌, ◌+◌, ◌^◌, ◌<◌, ◌≤◌, ℕ, [], List, IfOk, OnOk, false, length, true};
ghost use Rattle.mxf_klv.specs.Note.{covered_end, end_of, greatest_end, note_of};
ghost use Rattle.mxf_klv.specs.Parts.{note_parts, packet_parts};
ghost use Rattle.mxf_catalogue.specs.Runs.{LiesIn};
ghost use Rattle.mxf_read.specs.Coming.{HasTaken, IsSamePacket};
ghost use Rattle.mxf_read.specs.Feeding.{Fed, IsFed, Tells};
ghost use Rattle.mxf_read.specs.ValueSoFar.{noted_if, passes};
ghost use Rattle.mxf_skim.specs.PassedOver.{is_in_container, no_digest};
ghost use Rattle.mxf_hand.specs.Given.{AreBytesOf, AreTold, SourceParts, bytes_between};
ghost use Rattle.mxf_hand.specs.Noting.{IsReading, TakesStep};

use super::{Given, SourceFault, Sources};
use mxf_catalogue::Catalogue;
use mxf_klv::{Ber, Note};
use mxf_read::{ComingValue, Piece};
use mxf_skim::{Scan, is_of_container, passed_over};
use sha2::{Digest, Sha256};
use std::alloc::Global;

/// What is noted of bytes at hand: their whole packets, and the head of the one that their end cuts.
#[derive(Drop)]
pub struct Reading {
    pub notes: Catalogue,
    pub head: Option<Note>,
}

/// How many bytes a scan reads at once, at most. A skim reads no more than these at the front of a value that it passes
/// over, and no more than these at its end.
fn room_of(scan: Scan) -> usize
    ensures some { 0 < result }
    ensures within { result ≤ 65536 }
{
    match scan {
        Scan::Full => 65536,
        Scan::Skim => 4096,
    }
}

impl Given {
    /// Notes the packets of the bytes from file offset `from` up to `to`, all of which sources give, by the path of
    /// every piece. A skim passes over the values of a container's packets. The notes take memory.
    ///
    /// At most 65,536 bytes are read at a time, by a skim 4,096. Once the key and length of a packet that goes on after
    /// `to` have come, no more is read, nor after a place where the piece stops.
    pub fn reading<S: Sources>(
        &self,
        alloc: Global,
        scan: Scan,
        sources: &mut S,
        from: u64,
        to: u64,
    ) -> Result<Reading, SourceFault>
        requires { (x : ℕ) → from ≤ x → x < to → LiesIn self.now.given x }
        ensures told { S.told sources.new ≡ S.told sources.old }
        ensures notes { (given : List SourceParts) (byte : ℕ → ℕ)
            → AreTold (S.told sources.old) self.now.extents given → AreBytesOf given byte from to
            → IfOk result (λ r. IsReading scan from (bytes_between byte from to) r.notes r.head) }
    {
        let mut piece = Piece::by(alloc, scan, from);
        self.feed_from(scan, sources, &mut piece, from, to.saturating_sub(from))?;
        let head = piece.cut_head();
        Ok(Reading {
            notes: piece.into_notes(),
            head,
        })
    }

    /// Feeds a piece with `left` bytes from file offset `at` on, as far as it wants them.
    fn feed_from<S: Sources>(
        &self,
        scan: Scan,
        sources: &mut S,
        piece: &mut Piece,
        at: u64,
        left: u64,
    ) -> Result<(), SourceFault>
        requires given { (x : ℕ) → at ≤ x → x < at + left → LiesIn self.now.given x }
        requires end { at + left < 2 ^ 64 }
        requires fed { Fed scan at [] piece.old }
        ensures told { S.told sources.new ≡ S.told sources.old }
        ensures tells { OnOk result ((given : List SourceParts) (byte : ℕ → ℕ)
            → AreTold (S.told sources.old) self.now.extents given → AreBytesOf given byte at (at + left)
            → Tells scan at (bytes_between byte at (at + left)) piece.new) }
    {
        let mut buffer = [0u8; 65536];
        let mut at = at;
        let mut left = left;
        'reads: while piece.wants(left) {
            let room = room_of(scan);
            let count = self.feed_step(sources, piece, at, left, &mut buffer[..room])?;
            at += count;
            left -= count;
        }
        Ok(())
    }

    /// Passes over bytes of a value once, or reads once and feeds what came; it says how many bytes were taken.
    fn feed_step<S: Sources>(
        &self,
        sources: &mut S,
        piece: &mut Piece,
        at: u64,
        left: u64,
        buffer: &mut [u8],
    ) -> Result<u64, SourceFault>
        requires given { LiesIn self.now.given at }
        requires left { 0 < left }
        requires room { 0 < length buffer.old }
        requires fed { IsFed piece.old }
        ensures told { S.told sources.new ≡ S.told sources.old }
        ensures taken { IfOk result
            (TakesStep (S.told sources.old) self.now.extents piece.old piece.new at left) }
    {
        let passing = piece.passing().min(left);
        if passing > buffer.len() as u64 {
            piece.pass(passing)?;
            return Ok(passing);
        }
        let room = left.min(buffer.len() as u64) as usize;
        let count = self.read_step_at(sources, at, &mut buffer[..room])?;
        piece.feed(&buffer[..count])?;
        Ok(count as u64)
    }

    /// The note of the packet of a head, all bytes of whose value sources give. A skim doesn't read the value if it
    /// passes over it. It takes memory.
    pub fn packet_of<S: Sources>(
        &self,
        alloc: Global,
        scan: Scan,
        sources: &mut S,
        head: &Note,
    ) -> Result<Note, SourceFault>
        requires head { head.now.whole ≡ false }
        requires given { (x : ℕ) → covered_end head.now ≤ x → x < end_of head.now → LiesIn self.now.given x }
        ensures told { S.told sources.new ≡ S.told sources.old }
        ensures note { (given : List SourceParts) (byte : ℕ → ℕ)
            → AreTold (S.told sources.old) self.now.extents given
            → AreBytesOf given byte (covered_end head.now) (end_of head.now)
            → IfOk result (λ n. n ≡ noted_if (passes scan head.now.key head.now.length)
            (note_of head.now.offset (packet_parts head.now.key head.now.width
            (bytes_between byte (covered_end head.now) (end_of head.now))))) }
    {
        if passes(scan, head) {
            return Ok(passed_packet_of(head));
        }
        self.read_packet_of(alloc, sources, head)
    }

    /// The note of the packet of a head, whose value is read.
    fn read_packet_of<S: Sources>(
        &self,
        alloc: Global,
        sources: &mut S,
        head: &Note,
    ) -> Result<Note, SourceFault>
        requires head { head.now.whole ≡ false }
        requires given { (x : ℕ) → covered_end head.now ≤ x → x < end_of head.now → LiesIn self.now.given x }
        ensures told { S.told sources.new ≡ S.told sources.old }
        ensures note { (given : List SourceParts) (byte : ℕ → ℕ)
            → AreTold (S.told sources.old) self.now.extents given
            → AreBytesOf given byte (covered_end head.now) (end_of head.now)
            → IfOk result (λ n. n ≡ note_of head.now.offset (packet_parts head.now.key head.now.width
            (bytes_between byte (covered_end head.now) (end_of head.now)))) }
    {
        let offset = head.offset();
        let ber = Ber::new(head.width(), head.length()).unwrap();
        let mut value = ComingValue::of(alloc, offset, head.key(), ber)?;
        self.take_from(sources, &mut value, head.covered_end())?;
        Ok(value.into_note(Sha256::digest(&[])))
    }

    /// Takes all bytes of a value, which stand from file offset `at` on.
    fn take_from<S: Sources>(
        &self,
        sources: &mut S,
        value: &mut ComingValue,
        at: u64,
    ) -> Result<(), SourceFault>
        requires given { (x : ℕ) → at ≤ x → x < at + value.old.left → LiesIn self.now.given x }
        requires end { at + value.old.left ≤ greatest_end }
        requires none { HasTaken value.old [] }
        ensures told { S.told sources.new ≡ S.told sources.old }
        ensures same { IsSamePacket value.old value.new }
        ensures left { OnOk result (value.new.left ≡ 0) }
        ensures taken { OnOk result ((given : List SourceParts) (byte : ℕ → ℕ)
            → AreTold (S.told sources.old) self.now.extents given → AreBytesOf given byte at (at + value.old.left)
            → HasTaken value.new (bytes_between byte at (at + value.old.left))) }
    {
        let mut buffer = [0u8; 65536];
        let mut at = at;
        'reads: while value.left() > 0 {
            let room = value.left().min(buffer.len() as u64) as usize;
            let count = self.read_step_at(sources, at, &mut buffer[..room])?;
            value.take(&buffer[..count])?;
            at += count as u64;
        }
        Ok(())
    }

    /// The bytes from file offset `from` up to `to`, all of which sources give. They take memory.
    pub fn bytes<S: Sources>(
        &self,
        alloc: Global,
        sources: &mut S,
        from: u64,
        to: u64,
    ) -> Result<Vec<u8>, SourceFault>
        requires { (x : ℕ) → from ≤ x → x < to → LiesIn self.now.given x }
        ensures told { S.told sources.new ≡ S.told sources.old }
        ensures bytes { (given : List SourceParts) (byte : ℕ → ℕ)
            → AreTold (S.told sources.old) self.now.extents given → AreBytesOf given byte from to
            → IfOk result (λ v. v.items ≡ bytes_between byte from to) }
    {
        let mut buffer = [0u8; 64];
        let mut bytes = Vec::new(alloc);
        let mut at = from;
        'reads: while at < to {
            let room = (to - at).min(buffer.len() as u64) as usize;
            let count = self.read_step_at(sources, at, &mut buffer[..room])?;
            bytes.extend_from_slice(&buffer[..count])?;
            at += count as u64;
        }
        Ok(bytes)
    }
}

/// Whether the scan passes over the value of a head's packet.
fn passes(scan: Scan, head: &Note) -> bool
    ensures { result ≡ passes scan head.now.key head.now.length }
{
    match scan {
        Scan::Full => false,
        Scan::Skim => is_of_container(&head.key(), head.length()),
    }
}

/// The note of the packet of a head, which is one of a container, passed over.
fn passed_packet_of(head: &Note) -> Note
    requires { is_in_container head.now.key head.now.length ≡ true }
    ensures { result ≡ note_parts head.now.offset head.now.key head.now.width head.now.length no_digest }
{
    let offset = head.offset();
    passed_over(offset, head.key(), head.width(), head.length()).unwrap()
}
