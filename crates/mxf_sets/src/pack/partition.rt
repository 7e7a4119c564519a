//! Partition packs (ST 377-1, Partition Pack).
ghost use Rattle.std.specs.Prelude.{◌≡◌, ◌↔◌, ℕ, List, Ok, Result};
ghost use Rattle.std.specs.Option.{SomeIff};
ghost use Rattle.mxf_klv.specs.Kind.{kind_of};
ghost use Rattle.mxf_klv.specs.declared.kinds.Kind.{Kind};
ghost use Rattle.mxf_klv.specs.Bytes.{AreBytes};
ghost use Rattle.mxf_sets.specs.Batch.{HasItemsOf};
ghost use Rattle.mxf_sets.specs.PackReadings.{pack_at};
ghost use Rattle.mxf_sets.specs.PartitionPack.{ArePartitionPackParts, IsPartitionPack, PartitionPackParts, ReadsPack};
ghost use Rattle.mxf_sets.specs.PartitionPack.{pack_bytes, pack_key, pack_kind, partition_pack_parts};
ghost use Rattle.mxf_sets.specs.declared.pack.PackFault.{PackFault};

use super::{PackFault, PackPart, PartitionNumbers};
use crate::Batch;
use mxf_klv::{Encode, Progress, Status, Ul, WriteFault, kind};
use std::io::Write;
use std::marker::Model;

/// A partition pack (ST 377-1, Partition Pack), with the labels of its essence containers in the bytes that hold them.
///
/// It begins each partition and says what follows in it: how many bytes of header metadata and of index, which stream
/// of essence and from which of its bytes on, and where other partitions lie. Its key says the part of the file and how
/// far the partition is filled in.
///
/// The value is a row of numbers of fixed width, the label of the operational pattern, and a batch of labels, one for
/// each kind of essence container in the file.
#[derive(Debug, Drop)]
pub struct PartitionPack<'a> {
    part: PackPart,
    status: Status,
    numbers: PartitionNumbers,
    pattern: [u8; 16],
    containers: Batch<'a>,
}

impl<'a> Model for PartitionPack<'a> {
    ghost use Rattle.mxf_sets.specs.PartitionPack.{ArePartitionPackParts, PartitionPackParts, partition_pack_parts};

    ghost Value = { PartitionPackParts };

    ghost view = { λ p. partition_pack_parts p.part p.status p.numbers p.pattern p.containers };

    ghost invariant = { λ p. ArePartitionPackParts (partition_pack_parts p.part p.status p.numbers p.pattern
        p.containers) };
}

impl<'a> PartitionPack<'a> {
    /// Reads all of the value of the packet with this key (ST 377-1, Partition Pack).
    pub fn read(key: &Ul, value: &'a [u8]) -> Result<PartitionPack<'a>, PackFault>
        ensures reads { ReadsPack (kind_of key.now) value.now result }
        ensures computed { result ≡ pack_at (kind_of key.now) value.now }
    {
        let Some((part, status)) = PackPart::of(kind(key)) else {
            return Err(PackFault::NotThisKind);
        };
        PartitionPack::read_value(part, status, value)
    }

    /// Reads the value under the part and the status that its key gives.
    fn read_value(
        part: PackPart,
        status: Status,
        value: &'a [u8],
    ) -> Result<PartitionPack<'a>, PackFault>
        ensures { ReadsPack (pack_kind part status) value.now result }
    {
        let Some((numbers, rest)) = value.split_first_chunk::<64>() else {
            return Err(PackFault::Short);
        };
        let Some((pattern, rest)) = rest.split_first_chunk::<16>() else {
            return Err(PackFault::Short);
        };
        if rest.len() < 8 {
            return Err(PackFault::Short);
        }
        let Ok(containers) = Batch::read(rest, 16) else {
            return Err(PackFault::BadBatch);
        };
        Ok(PartitionPack {
            part,
            status,
            numbers: PartitionNumbers::read(numbers),
            pattern: *pattern,
            containers,
        })
    }

    /// The partition pack of these parts; the labels of the essence containers are items of sixteen bytes.
    pub fn of(
        part: PackPart,
        status: Status,
        numbers: PartitionNumbers,
        pattern: [u8; 16],
        containers: Batch<'a>,
    ) -> Option<PartitionPack<'a>>
        ensures { SomeIff result (HasItemsOf 16 containers.entry)
            (partition_pack_parts part status numbers pattern containers.entry) }
    {
        if !containers.is_empty() && containers.item_size() != 16 {
            return None;
        }
        Some(PartitionPack {
            part,
            status,
            numbers,
            pattern,
            containers,
        })
    }

    /// The part of the file that the partition is.
    pub fn part(&self) -> PackPart
        ensures part { result ≡ self.now.part }
        ensures pack { ArePartitionPackParts self.now }
    {
        self.part
    }

    /// How far the partition is filled in.
    pub fn status(&self) -> Status
        ensures { result ≡ self.now.status }
    {
        self.status
    }

    /// The numbers of the value.
    pub fn numbers(&self) -> PartitionNumbers
        ensures { result ≡ self.now.numbers }
    {
        self.numbers
    }

    /// The label of the operational pattern, sixteen bytes that aren't tested.
    pub fn pattern(&self) -> [u8; 16]
        ensures { result ≡ self.now.pattern }
    {
        self.pattern
    }

    /// The labels of the essence containers: a batch of items of sixteen bytes.
    pub fn containers(&self) -> &Batch<'a>
        ensures { result.now ≡ self.now.containers }
    {
        &self.containers
    }

    /// The key of the packet, with version (byte 8) `01`.
    pub fn key(&self) -> Ul
        ensures key { result ≡ pack_key self.now.part self.now.status }
        ensures kind { kind_of result ≡ pack_kind self.now.part self.now.status }
    {
        Ul::from_bytes(self.part.key_bytes(self.status)).unwrap()
    }
}

/// The numbers, the pattern and the labels of the essence containers. Key and length are those of the packet that holds
/// the value.
impl<'a> Encode for PartitionPack<'a> {
    ghost encoding = { pack_bytes };

    fn put_to<W: Write>(&self, progress: &mut Progress, writer: &mut W) -> Result<(), WriteFault> {
        progress.put(writer, &self.numbers.to_bytes())?;
        progress.put(writer, &self.pattern)?;
        self.containers.put_to(progress, writer)
    }
}

/// A law: the value of a packet of a kind is a partition pack, or has one of the faults, and nothing else.
pub fn one_pack_reading()
    ensures { (kind : Kind) (bytes : List ℕ) (r s : Result PartitionPackParts PackFault) → ReadsPack kind bytes r
        → ReadsPack kind bytes s → r ≡ s }
{}

/// A law: under one part and status a value stands for one partition pack at most, and a partition pack for one value.
pub fn one_pack()
    ensures pack { (bytes : List ℕ) (a b : PartitionPackParts) → a.part ≡ b.part → a.status ≡ b.status
        → IsPartitionPack bytes a → IsPartitionPack bytes b → a ≡ b }
    ensures text { (a b : List ℕ) (pack : PartitionPackParts) → IsPartitionPack a pack → IsPartitionPack b pack
        → a ≡ b }
{}

/// A law: a partition pack that is written is read back under its key, and one that is read is written as it stood.
pub fn partition_packs_are_read_as_written()
    ensures read_back { (pack : PartitionPackParts) → ArePartitionPackParts pack
        → ReadsPack (kind_of (pack_key pack.part pack.status)) (pack_bytes pack) (Ok pack) }
    ensures written_back { (kind : Kind) (bytes : List ℕ) (pack : PartitionPackParts)
        → ReadsPack kind bytes (Ok pack) → bytes ≡ pack_bytes pack }
{}

/// A law: what the value of a packet of a kind is, is computed from its places.
pub fn packs_are_read_by_their_places()
    ensures { (kind : Kind) (bytes : List ℕ) (r : Result PartitionPackParts PackFault) → AreBytes bytes
        → ReadsPack kind bytes r ↔ (r ≡ pack_at kind bytes) }
{}
