//! Random index packs (ST 377-1, Random Index Pack).
ghost use Rattle.std.specs.Prelude.{◌≡◌, ◌↔◌, ◌==◌, ◌+◌, ◌*◌, ◌%◌, ◌^◌, ◌<◌, ℕ, List, Ok, Result, length, slice_get};
ghost use Rattle.std.specs.List.{flat_map, AllByRecursion};
ghost use Rattle.std.specs.Option.{SomeIff};
ghost use Rattle.mxf_klv.specs.Bytes.{AreBytes};
ghost use Rattle.mxf_klv.specs.Parts.{CanSpell};
ghost use Rattle.mxf_sets.specs.PackReadings.{rip_at};
ghost use Rattle.mxf_sets.specs.RandomIndexPack.{AreRipParts, IsEntry, IsRip, ReadsRip, RipParts, entries_of};
ghost use Rattle.mxf_sets.specs.RandomIndexPack.{entry_bytes, rip_bytes, rip_parts};
ghost use Rattle.mxf_sets.specs.declared.pack.PackFault.{PackFault};

mod entries;

use super::PackFault;
use byteorder::{BigEndian, ByteOrder};
pub use entries::RipEntries;
use entries::read_entry;
use mxf_klv::{Ber, Encode, Progress, WriteFault};
use std::io::Write;
use std::marker::Model;

/// The number of bytes of an entry.
const ENTRY: usize = 12;

/// An entry of a random index pack (ST 377-1, Random Index Pack): one partition, and the essence stream that it
/// carries.
///
/// Entries stand in the order of the file, so that the partitions of one stream can be picked out without reading any
/// pack.
#[derive(Clone, Copy, Debug, PartialEq, Eq)]
pub struct RipEntry {
    /// The BodySID of the partition, 0 if it has no essence.
    pub body_sid: u32,
    /// Where the partition pack begins, in bytes from the first byte of the header partition pack.
    pub offset: u64,
}

/// A random index pack (ST 377-1, Random Index Pack), with its entries in the bytes that hold them.
///
/// It is the table of contents of a closed file: the offset of each partition pack. It is the last packet, and its last
/// four bytes are the number of its bytes, so a reader at the end of a file finds first its key and then each
/// partition.
///
/// That number counts key and length too, so it depends on how many bytes spell the packet's length. Entries of twelve
/// bytes fill the value before it.
#[derive(Debug, Drop)]
pub struct Rip<'a> {
    width: u8,
    entries: &'a [u8],
}

impl<'a> Model for Rip<'a> {
    ghost use Rattle.std.specs.Prelude.{◌≡◌, ◌+◌, ◌%◌, ◌^◌, ◌<◌, length};
    ghost use Rattle.mxf_sets.specs.RandomIndexPack.{RipParts, entries_of, rip_parts};

    ghost Value = { RipParts };

    ghost view = { λ r. rip_parts r.width (entries_of r.entries.now) };

    ghost invariant = { λ r. (length r.entries.now % 12 ≡ 0) × (16 + r.width + (length r.entries.now + 4) < 2 ^ 32) };
}

/// The number of entries in the bytes.
fn entry_count(entries: &[u8]) -> usize
    requires { length entries.now % 12 ≡ 0 }
    ensures count { result ≡ length (entries_of entries.now) }
    ensures each { AllByRecursion IsEntry (entries_of entries.now) }
    ensures bytes { flat_map entry_bytes (entries_of entries.now) ≡ entries.now }
    ensures whole { 12 * result ≡ length entries.now }
{
    entries.len() / ENTRY
}

impl<'a> Rip<'a> {
    /// Reads all of the value of a packet whose length is spelled in `width` bytes (ST 377-1, Random Index Pack).
    ///
    /// Fails if the value has fewer than 4 bytes ([`PackFault::Short`]), or if it has no whole number of entries or
    /// states another packet length ([`PackFault::WrongLength`]).
    pub fn read(width: u8, value: &'a [u8]) -> Result<Rip<'a>, PackFault>
        ensures reads { ReadsRip width value.now result }
        ensures computed { result ≡ rip_at width value.now }
    {
        let Some((entries, last)) = value.split_last_chunk::<4>() else {
            return Err(PackFault::Short);
        };
        if entries.len() % ENTRY != 0 {
            return Err(PackFault::WrongLength);
        }
        let packet = 16 + u64::from(width) + value.len() as u64;
        if u64::from(BigEndian::read_u32(last)) != packet {
            return Err(PackFault::WrongLength);
        }
        Ok(Rip { width, entries })
    }

    /// The random index pack of these entries, twelve bytes each: a BodySID of four and an offset of eight, the highest
    /// byte first. None if the bytes are no whole number of entries, `width` bytes can't spell the length of the value,
    /// or the packet is longer than 4,294,967,295 bytes.
    pub fn of(width: u8, items: &'a [u8]) -> Option<Rip<'a>>
        ensures { let value = length items.now + 4 in
            SomeIff result ((length items.now % 12 ≡ 0) × CanSpell width value × (16 + width + value < 2 ^ 32))
            (rip_parts width (entries_of items.now)) }
    {
        if items.len() % ENTRY != 0 {
            return None;
        }
        let value = items.len() as u64 + 4;
        Ber::new(width, value)?;
        if 16 + u64::from(width) + value > u64::from(u32::MAX) {
            return None;
        }
        Some(Rip {
            width,
            entries: items,
        })
    }

    /// The number of entries.
    pub fn len(&self) -> usize
        ensures count { result ≡ length self.now.entries }
        ensures pack { AreRipParts self.now }
    {
        entry_count(self.entries)
    }

    /// Whether there is no entry.
    pub fn is_empty(&self) -> bool
        ensures { result ≡ (length self.now.entries == 0) }
    {
        self.len() == 0
    }

    /// The entry at a place, counted from 0.
    pub fn get(&self, place: usize) -> Option<RipEntry>
        ensures { result ≡ slice_get self.now.entries place }
    {
        if place >= entry_count(self.entries) {
            return None;
        }
        let (_, rest) = self.entries.split_at(ENTRY * place);
        Some(read_entry(rest))
    }

    /// The entries in their order.
    #[tactic(auto, unfolding(crate::specs::RandomIndexPack::entries_of))]
    pub fn entries(&self) -> RipEntries<'a>
        ensures { result ≡ self.now.entries }
    {
        RipEntries::of(self.entries.len() / ENTRY, self.entries)
    }
}

/// The entries, and the length of the packet. Key and length are those of the packet that holds the value.
impl<'a> Encode for Rip<'a> {
    ghost encoding = { rip_bytes };

    fn put_to<W: Write>(&self, progress: &mut Progress, writer: &mut W) -> Result<(), WriteFault> {
        let count = entry_count(self.entries) as u32;
        let packet = 16 + u32::from(self.width) + (12 * count + 4);
        progress.put(writer, self.entries)?;
        progress.put(writer, &packet.to_be_bytes())
    }
}

/// A law: under one width a value is a random index pack, or has one of the faults, and nothing else.
pub fn one_rip_reading()
    ensures { (width : ℕ) (bytes : List ℕ) (r s : Result RipParts PackFault) → ReadsRip width bytes r
        → ReadsRip width bytes s → r ≡ s }
{}

/// A law: a value stands for one random index pack at most, and a random index pack for one value.
pub fn one_rip()
    ensures pack { (bytes : List ℕ) (a b : RipParts) → IsRip bytes a → IsRip bytes b → a ≡ b }
    ensures text { (a b : List ℕ) (rip : RipParts) → IsRip a rip → IsRip b rip → a ≡ b }
{}

/// A law: a random index pack that is written is read back, and one that is read is written as it stood.
pub fn random_index_packs_are_read_as_written()
    ensures read_back { (rip : RipParts) → AreRipParts rip → ReadsRip rip.width (rip_bytes rip) (Ok rip) }
    ensures written_back { (width : ℕ) (bytes : List ℕ) (rip : RipParts) → ReadsRip width bytes (Ok rip)
        → bytes ≡ rip_bytes rip }
{}

/// A law of the entries that [`Rip::of`] finds in bytes: they make up the bytes.
pub fn entries_make_up_their_bytes()
    ensures bytes { (bytes : List ℕ) → AreBytes bytes → length bytes % 12 ≡ 0
        → flat_map entry_bytes (entries_of bytes) ≡ bytes }
    ensures each { (bytes : List ℕ) → AreBytes bytes → length bytes % 12 ≡ 0
        → AllByRecursion IsEntry (entries_of bytes) }
{}

/// A law: what a value is as a random index pack is computed from its places.
pub fn random_index_packs_are_read_by_their_places()
    ensures { (width : ℕ) (bytes : List ℕ) (r : Result RipParts PackFault) → AreBytes bytes
        → ReadsRip width bytes r ↔ (r ≡ rip_at width bytes) }
{}
