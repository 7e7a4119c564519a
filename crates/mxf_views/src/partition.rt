//! Partitions: clear readable partition packs.
ghost use Rattle.std.specs.Prelude.{◌≡◌, ◌==◌, ◌<◌, ◌^◌, ◌↔◌, List, find, count_by, is_some, length};
ghost use Rattle.mxf_sets.specs.PackReadings.{part_and_status};
ghost use Rattle.mxf_klv.specs.Parts.{NoteParts};
ghost use Rattle.mxf_klv.specs.Rising.{In};
ghost use Rattle.mxf_catalogue.specs.Content.{IsContent};
ghost use Rattle.mxf_views.specs.Partitions.{AreInOrder, IsPartition, PartitionParts, partitions_of, in_numbers};
ghost use Rattle.mxf_views.specs.Partitions.{is_part, pack_of, partition_at};
ghost use Rattle.std.specs.Iterator.{YieldsFirst, item_count};
ghost use Rattle.mxf_views.specs.Kept.{kept_among, kept_partition};

use crate::placed::NotesAt;
use mxf_catalogue::Catalogue;
use mxf_klv::{Keyed, Kind, Note, Status};
use mxf_sets::{PackPart, PartitionNumbers, PartitionPack};
use std::marker::Model;

/// A partition: a clear readable partition pack and where it stands (ST 377-1, partition pack).
///
/// Partitions divide a file: a header, bodies with essence, index or a further copy of the header metadata, and a
/// footer. The pack at the front of each says what follows it, and where the partition before it and the footer stand.
/// A pack that shares a byte with another packet isn't relied on, and is no partition.
#[derive(Debug, Drop)]
pub struct PartitionAt<'a> {
    /// The file offset where the pack's packet begins, in bytes.
    pub offset: u64,
    /// The file offset where it ends, its last byte excluded.
    pub end: u64,
    /// What the pack states.
    pub pack: PartitionPack<'a>,
}

impl<'a> Model for PartitionAt<'a> {
    ghost use Rattle.mxf_views.specs.Partitions.{PartitionParts};

    ghost Value = { PartitionParts };

    ghost view = { λ p. record { offset = p.offset; end = p.end; pack = p.pack } };
}

impl<'a> PartitionAt<'a> {
    /// The partition by what its pack states in numbers.
    pub(crate) fn in_numbers(&self) -> Partition
        ensures { result ≡ in_numbers self.now }
    {
        Partition {
            offset: self.offset,
            end: self.end,
            part: self.pack.part(),
            status: self.pack.status(),
            numbers: self.pack.numbers(),
        }
    }
}

/// A partition by what its pack states in numbers: the views keep this of each, read once. The operational pattern and
/// the labels of the essence containers stand in the pack itself alone ([`PartitionAt`]).
#[derive(Debug, Drop)]
pub struct Partition {
    /// The file offset where the pack's packet begins, in bytes.
    pub offset: u64,
    /// The file offset where it ends, its last byte excluded.
    pub end: u64,
    /// The part of the file that the partition is.
    pub part: PackPart,
    /// How far the partition is filled in.
    pub status: Status,
    pub numbers: PartitionNumbers,
}

impl Model for Partition {
    ghost use Rattle.mxf_views.specs.Partitions.{PartitionParts, partition_in_numbers};

    ghost Value = { PartitionParts };

    ghost view = { λ p. partition_in_numbers p.offset p.end p.part p.status p.numbers };
}

/// Partitions rise by their offsets.
impl Keyed for Partition {
    ghost key = { λ p. p.offset };

    fn key(&self) -> u64 {
        self.offset
    }
}

/// Whether packets of the kind have a partition pack.
pub(crate) fn is_pack(kind: Kind) -> bool
    ensures { result ≡ is_some (part_and_status kind) }
{
    matches!(&kind, Kind::Header(_) | Kind::Body(_) | Kind::Footer(_))
}

/// The partition pack of a note, if it is a readable one: its kind says first whether there is one to read.
fn read_pack(note: &Note) -> Option<PartitionPack<'_>>
    ensures { result ≡ pack_of note.now }
{
    if !is_pack(note.kind()) {
        return None;
    }
    PartitionPack::read(&note.key(), note.value()?).ok()
}

/// The partition that the note is, if it is a readable partition pack.
#[tactic(auto, unfolding(crate::specs::Partitions::partition_at))]
pub(crate) fn partition_at(note: &Note) -> Option<PartitionAt<'_>>
    ensures { result ≡ partition_at note.now }
{
    let pack = read_pack(note)?;
    Some(PartitionAt {
        offset: note.offset(),
        end: note.end(),
        pack,
    })
}

/// The partitions that are left, rising.
#[derive(Drop)]
pub struct Partitions<'a> {
    notes: NotesAt<'a, Partition>,
}

impl<'a> Model for Partitions<'a> {
    ghost use Rattle.std.specs.Prelude.{List};
    ghost use Rattle.mxf_views.specs.Partitions.{PartitionParts, partitions_among};

    ghost Value = { List PartitionParts };

    ghost view = { λ s. partitions_among s.notes };
}

impl<'a> Partitions<'a> {
    /// Those of a catalogue, by what is kept of them.
    pub(crate) fn of(catalogue: &'a Catalogue, kept: &'a [Partition]) -> Partitions<'a>
        requires { kept.now ≡ kept_among kept_partition catalogue.now }
        ensures partitions { result ≡ partitions_of catalogue.now }
        ensures bound { length result < 2 ^ 64 }
    {
        catalogue.laws();
        let notes = NotesAt::of(catalogue, kept);
        Partitions { notes }
    }
}

/// How many of the partitions are such a part of the file.
pub(crate) fn part_count(partitions: &[Partition], part: PackPart) -> usize
    ensures { result ≡ count_by (λ p. is_part part p.pack.part) partitions.now }
{
    partitions.iter().filter(|p| p.part == part).count()
}

/// The partition at a file offset, with its pack.
pub(crate) fn partition_there(catalogue: &Catalogue, offset: u64) -> Option<PartitionAt<'_>>
    ensures { result ≡ find (λ p. p.offset == offset) (partitions_of catalogue.now) }
{
    partition_at(catalogue.clear_at(offset)?)
}

impl<'a> Iterator for Partitions<'a> {
    type Item = PartitionAt<'a>;

    ghost next_gives = { YieldsFirst (λ s. s) };

    ghost remaining = { item_count (λ s. s) };

    fn next(&mut self) -> Option<PartitionAt<'a>> {
        while let Some(note) = self.notes.next() {
            if let Some(partition) = partition_at(note) {
                return Some(partition);
            }
        }
        None
    }
}

/// A law of [`Views::partitions`](crate::Views::partitions): they are the clear readable partition packs, and rise in
/// their offsets.
pub fn partitions_by_definition()
    ensures partitions { (notes : List NoteParts) (p : PartitionParts)
        → In p (partitions_of notes) ↔ IsPartition notes p }
    ensures rising { (notes : List NoteParts) → IsContent notes → AreInOrder (partitions_of notes) }
{}
