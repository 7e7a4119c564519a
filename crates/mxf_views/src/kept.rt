//! What the views keep of the clear notes: partitions and index table segments by what they state in numbers, where
//! random index packs and unreadable partition packs stand, and the copies of the header metadata.
ghost use Rattle.std.specs.Prelude.{◌≡◌, ◌<◌, ◌≤◌, List, IfOk, OnOk, count_by, ◌++◌, ◌+◌, [], length, vec_capacity};
ghost use Rattle.std.specs.List.{cons_option, filter_map};
ghost use Rattle.std.specs.List.Sorted.{IsNonDecreasingBy};
ghost use Rattle.mxf_klv.specs.Parts.{NoteParts};
ghost use Rattle.mxf_catalogue.specs.Disputes.{clear_notes};
ghost use Rattle.mxf_views.specs.Kept.{HasArrived, HasRoom, HasRoomForOne, IsAppended, IsLeft, is_kept, kept_in};
ghost use Rattle.mxf_views.specs.Kept.{kept_of, kept_partition, kept_random_index_pack, kept_segment};
ghost use Rattle.mxf_views.specs.Kept.{kept_unreadable_pack, nothing_kept, with_found};
ghost use Rattle.mxf_views.specs.KeptAbove.{IsUnionAt, clear_from};
ghost use Rattle.mxf_views.specs.KeptNotes.{partition_in, random_index_pack_in, segment_in, unreadable_pack_in};

pub(crate) mod above;
pub(crate) mod arrival;
pub(crate) mod copies;
pub(crate) mod keyed;
pub(crate) mod noted;
pub(crate) mod reaches;
pub(crate) mod sums;
pub(crate) mod tally;

use crate::copy::CopyInfo;
use crate::index::SegmentInNumbers;
use crate::kept::above::{follow_copies_above, settled};
use crate::kept::arrival::Arrival;
use crate::kept::copies::follow_copies;
use crate::kept::keyed::{leave, push, put};
use crate::kept::noted::Kept;
use crate::kept::reaches::refill_reaches;
use crate::kept::sums::{Mark, Sums, mark_count};
use crate::kept::tally::Tally;
use crate::partition::Partition;
use mxf_catalogue::Catalogue;
use std::alloc::{AllocError, Global};

/// What the views keep. The file offsets, in bytes, rise; so do the partitions of the copies.
#[derive(Drop)]
pub(crate) struct KeptLists {
    pub partitions: Vec<Partition>,
    pub segments: Vec<SegmentInNumbers>,
    pub random_index_packs: Vec<u64>,
    pub unreadable_packs: Vec<u64>,
    pub copies: Vec<CopyInfo>,
    /// How far each copy and those before it reach.
    pub reaches: Vec<u64>,
}

impl KeptLists {
    /// What is kept of no note.
    #[tactic(auto, using(crate::proofs::KeptLaws::kept_of_none))]
    pub fn new(alloc: Global) -> KeptLists
        ensures { kept_in result ≡ kept_of [] }
    {
        KeptLists {
            partitions: Vec::new(alloc),
            segments: Vec::new(alloc),
            random_index_packs: Vec::new(alloc),
            unreadable_packs: Vec::new(alloc),
            copies: Vec::new(alloc),
            reaches: Vec::new(alloc),
        }
    }

    /// What is kept of a catalogue. It takes memory.
    pub fn of(alloc: Global, catalogue: &Catalogue) -> Result<KeptLists, AllocError>
        ensures { IfOk result (λ k. kept_in k ≡ kept_of catalogue.now) }
    {
        let mut kept = KeptLists::new(alloc);
        kept.make_room_for(catalogue)?;
        let room = kept.marks_room(catalogue.len())?;
        kept.refill(catalogue, room);
        Ok(kept)
    }

    /// Makes room for what an addition brings.
    pub fn make_room(&mut self) -> Result<(), AllocError>
        ensures kept { kept_in self.new ≡ kept_in self.old }
        ensures room { OnOk result (HasRoomForOne self.new) }
    {
        self.partitions.reserve(1)?;
        self.segments.reserve(1)?;
        self.random_index_packs.reserve(1)?;
        self.unreadable_packs.reserve(1)?;
        self.copies.reserve(1)?;
        self.reaches.reserve(1)
    }

    /// Makes room for what is kept of another catalogue as well.
    pub fn make_room_for(&mut self, other: &Catalogue) -> Result<(), AllocError>
        ensures kept { kept_in self.new ≡ kept_in self.old }
        ensures room { OnOk result (HasRoom (kept_in self.new) (clear_notes other.now) self.new) }
    {
        let most = Tally::of(other);
        self.partitions.reserve(most.packs)?;
        self.segments.reserve(most.segments)?;
        self.random_index_packs.reserve(most.random_index_packs)?;
        self.unreadable_packs.reserve(most.packs)?;
        self.copies.reserve(most.packs)?;
        self.reaches.reserve(most.packs)
    }

    /// Room for marks among a given number of notes: none if there is no room for a copy.
    pub fn marks_room(&self, notes: usize) -> Result<Vec<Mark>, AllocError>
        ensures { IfOk result (λ r. r.items ≡ []) }
    {
        let count = if self.copies.capacity() == 0 {
            0
        } else {
            mark_count(notes)
        };
        Vec::with_capacity(*self.partitions.allocator(), count)
    }

    /// Takes out the partitions, segments and packs that an arrival moves.
    fn leave(&mut self, arrival: &Arrival)
        ensures partitions { IsLeft (λ p. p.offset) arrival.now self.old.partitions self.new.partitions }
        ensures segments { IsLeft (λ s. s.offset) arrival.now self.old.segments self.new.segments }
        ensures random_index_packs { IsLeft (λ o. o) arrival.now self.old.random_index_packs
            self.new.random_index_packs }
        ensures unreadable_packs { IsLeft (λ o. o) arrival.now self.old.unreadable_packs self.new.unreadable_packs }
        ensures copies { self.new.copies ≡ self.old.copies }
        ensures reaches { self.new.reaches ≡ self.old.reaches }
    {
        leave(&mut self.partitions, arrival);
        leave(&mut self.segments, arrival);
        leave(&mut self.random_index_packs, arrival);
        leave(&mut self.unreadable_packs, arrival);
    }

    /// Puts what is kept of a note in its place, if there is room.
    fn put(&mut self, kept: Option<Kept>)
        requires partitions { IsNonDecreasingBy (λ p. p.offset) self.old.partitions.items }
        requires segments { IsNonDecreasingBy (λ s. s.offset) self.old.segments.items }
        requires random_index_packs { IsNonDecreasingBy (λ o. o) self.old.random_index_packs.items }
        requires unreadable_packs { IsNonDecreasingBy (λ o. o) self.old.unreadable_packs.items }
        requires room { HasRoomForOne self.old }
        ensures partitions { self.new.partitions.items
            ≡ with_found (λ p. p.offset) (partition_in kept) self.old.partitions.items }
        ensures segments { self.new.segments.items
            ≡ with_found (λ s. s.offset) (segment_in kept) self.old.segments.items }
        ensures random_index_packs { self.new.random_index_packs.items
            ≡ with_found (λ o. o) (random_index_pack_in kept) self.old.random_index_packs.items }
        ensures unreadable_packs { self.new.unreadable_packs.items
            ≡ with_found (λ o. o) (unreadable_pack_in kept) self.old.unreadable_packs.items }
        ensures copies { self.new.copies ≡ self.old.copies }
        ensures reaches { self.new.reaches ≡ self.old.reaches }
    {
        match kept {
            Some(Kept::Partition(partition)) => put(&mut self.partitions, partition),
            Some(Kept::Segment(segment)) => put(&mut self.segments, segment),
            Some(Kept::RandomIndexPack(offset)) => put(&mut self.random_index_packs, offset),
            Some(Kept::UnreadablePack(offset)) => put(&mut self.unreadable_packs, offset),
            None => (),
        }
    }

    /// Takes all out.
    fn clear(&mut self)
        ensures none { kept_in self.new ≡ nothing_kept }
        ensures room { (clear : List NoteParts) → HasRoom nothing_kept clear self.old
            → HasRoom nothing_kept clear self.new }
    {
        self.partitions.clear();
        self.segments.clear();
        self.random_index_packs.clear();
        self.unreadable_packs.clear();
        self.copies.clear();
        self.reaches.clear();
    }

    /// Puts what is kept of a note after the rest, if there is room.
    fn append(&mut self, kept: Option<Kept>)
        requires partitions { length self.old.partitions.items + length (cons_option (partition_in kept) [])
            ≤ vec_capacity self.old.partitions }
        requires segments { length self.old.segments.items + length (cons_option (segment_in kept) [])
            ≤ vec_capacity self.old.segments }
        requires random_index_packs { length self.old.random_index_packs.items
            + length (cons_option (random_index_pack_in kept) []) ≤ vec_capacity self.old.random_index_packs }
        requires unreadable_packs { length self.old.unreadable_packs.items
            + length (cons_option (unreadable_pack_in kept) []) ≤ vec_capacity self.old.unreadable_packs }
        ensures partitions { IsAppended (partition_in kept) self.old.partitions self.new.partitions }
        ensures segments { IsAppended (segment_in kept) self.old.segments self.new.segments }
        ensures random_index_packs { IsAppended (random_index_pack_in kept) self.old.random_index_packs
            self.new.random_index_packs }
        ensures unreadable_packs { IsAppended (unreadable_pack_in kept) self.old.unreadable_packs
            self.new.unreadable_packs }
        ensures copies { self.new.copies ≡ self.old.copies }
        ensures reaches { self.new.reaches ≡ self.old.reaches }
    {
        match kept {
            Some(Kept::Partition(partition)) => push(&mut self.partitions, partition),
            Some(Kept::Segment(segment)) => push(&mut self.segments, segment),
            Some(Kept::RandomIndexPack(offset)) => push(&mut self.random_index_packs, offset),
            Some(Kept::UnreadablePack(offset)) => push(&mut self.unreadable_packs, offset),
            None => (),
        }
    }

    /// Puts what is kept of the clear notes from a boundary on after the rest, in one pass, if there is room.
    fn append_from(&mut self, catalogue: &Catalogue, boundary: u64)
        requires partitions { length self.old.partitions.items
            + count_by (is_kept kept_partition) (clear_from boundary catalogue.now)
            ≤ vec_capacity self.old.partitions }
        requires segments { length self.old.segments.items
            + count_by (is_kept kept_segment) (clear_from boundary catalogue.now) ≤ vec_capacity self.old.segments }
        requires random_index_packs { length self.old.random_index_packs.items
            + count_by (is_kept kept_random_index_pack) (clear_from boundary catalogue.now)
            ≤ vec_capacity self.old.random_index_packs }
        requires unreadable_packs { length self.old.unreadable_packs.items
            + count_by (is_kept kept_unreadable_pack) (clear_from boundary catalogue.now)
            ≤ vec_capacity self.old.unreadable_packs }
        ensures partitions { self.new.partitions.items ≡ self.old.partitions.items
            ++ filter_map kept_partition (clear_from boundary catalogue.now) }
        ensures segments { self.new.segments.items ≡ self.old.segments.items
            ++ filter_map kept_segment (clear_from boundary catalogue.now) }
        ensures random_index_packs { self.new.random_index_packs.items ≡ self.old.random_index_packs.items
            ++ filter_map kept_random_index_pack (clear_from boundary catalogue.now) }
        ensures unreadable_packs { self.new.unreadable_packs.items ≡ self.old.unreadable_packs.items
            ++ filter_map kept_unreadable_pack (clear_from boundary catalogue.now) }
        ensures copies { self.new.copies ≡ self.old.copies }
        ensures reaches { self.new.reaches ≡ self.old.reaches }
    {
        for note in catalogue.clear_within(boundary, u64::MAX) {
            self.append(Kept::of(note));
        }
    }

    /// Puts what is kept of a catalogue in place of what is there, if there is room.
    pub fn refill(&mut self, catalogue: &Catalogue, room: Vec<Mark>)
        requires room { HasRoom nothing_kept (clear_notes catalogue.now) self.old }
        requires empty { room.items ≡ [] }
        ensures { kept_in self.new ≡ kept_of catalogue.now }
    {
        catalogue.laws();
        self.clear();
        self.follow_above(catalogue, 0, room);
    }

    /// Follows the arrival of notes that begin at the boundary or above, if there is room: from what is kept of the
    /// notes below it to what is kept of all. Only what is new is counted.
    pub fn follow_above(&mut self, catalogue: &Catalogue, boundary: u64, room: Vec<Mark>)
        requires kept { (own : List NoteParts) × IsUnionAt boundary catalogue.now own
            × (kept_in self.old ≡ kept_of own) }
        requires room { HasRoom (kept_in self.old) (clear_from boundary catalogue.now) self.old }
        requires empty { room.items ≡ [] }
        ensures { kept_in self.new ≡ kept_of catalogue.now }
    {
        let sums = Sums::of(catalogue, boundary, room);
        let settled = settled(&self.copies, &self.reaches, boundary);
        let known = self.partitions.len();
        self.append_from(catalogue, boundary);
        let new = &self.partitions[known..];
        follow_copies_above(&mut self.copies, settled, &sums, new);
        refill_reaches(&mut self.reaches, &self.copies, settled);
    }

    /// Follows the arrival of a note in a catalogue, if there is room: from what is kept of the notes before to what is
    /// kept of them with the note. It takes no memory.
    pub fn follow(&mut self, catalogue: &Catalogue, arrival: &Arrival)
        requires arrived { HasArrived arrival.now catalogue.now (kept_in self.old) }
        requires room { HasRoomForOne self.old }
        ensures { kept_in self.new ≡ kept_of catalogue.now }
    {
        match arrival.boundary {
            Some(boundary) => {
                let no_marks = Vec::new(*self.partitions.allocator());
                self.follow_above(catalogue, boundary, no_marks);
            }
            None => self.follow_among(catalogue, arrival),
        }
    }

    /// The same, wherever the note stands.
    fn follow_among(&mut self, catalogue: &Catalogue, arrival: &Arrival)
        requires arrived { HasArrived arrival.now catalogue.now (kept_in self.old) }
        requires room { HasRoomForOne self.old }
        ensures { kept_in self.new ≡ kept_of catalogue.now }
    {
        self.leave(arrival);
        self.put(Kept::at(catalogue, arrival.offset));
        follow_copies(&mut self.copies, catalogue, arrival);
        refill_reaches(&mut self.reaches, &self.copies, 0);
    }
}
