//! Views of a catalogue.
ghost use Rattle.std.specs.Prelude.{◌≡◌, ◌≢◌, ◌↔◌, ◌==◌, ◌||◌, List, filter, map, not, ◌<◌, ◌^◌, find, length};
ghost use Rattle.std.specs.Prelude.{count_by, [], IfErr, IfOk, OnOk, OnErr, ◌≤◌};
ghost use Rattle.std.specs.List.{list_all};
ghost use Rattle.std.specs.Option.{option_copied, option_map};
ghost use Rattle.mxf_catalogue.specs.Disputes.{SharesByte, clear_notes};
ghost use Rattle.mxf_klv.specs.Parts.{NoteParts};
ghost use Rattle.mxf_klv.specs.Rising.{In};
ghost use Rattle.mxf_catalogue.specs.Content.{AreReduced, has_note, reduced_union, reduced_with};
ghost use Rattle.mxf_catalogue.specs.History.{History, Add, Join, Of, content};
ghost use Rattle.mxf_catalogue.specs.Moved.{TellsMoved};
ghost use Rattle.mxf_views.specs.Partitions.{partitions_of, link_by, link_of, link_at, is_linked, chain_of, is_part};
ghost use Rattle.mxf_views.specs.Partitions.{in_numbers, is_footer, is_greatest, is_no_unreadable_pack, stands_above};
ghost use Rattle.mxf_views.specs.Gaps.{gaps_of};
ghost use Rattle.mxf_views.specs.Copies.{copies_of, preferred_of, sets_of};
ghost use Rattle.mxf_views.specs.Labels.{is_in_copy, primer_for, primer_of, primer_there};
ghost use Rattle.std.specs.Result.{OkIff};
ghost use Rattle.mxf_views.specs.Places.{greatest_unit, place_of, segments_of, without_entries};
ghost use Rattle.mxf_views.specs.RandomIndex.{rips_of};
ghost use Rattle.mxf_views.specs.RandomIndexView.{rip_view_of};
ghost use Rattle.mxf_views.specs.Kept.{MeetAt};
ghost use Rattle.mxf_views.specs.Rises.{RiseBy};
ghost use Rattle.mxf_views.specs.Headline.{IsTheRun};

use crate::chain::{Chain, Link, link_by};
use crate::copy::sets::{Sets, no_sets, sets_of_copy};
use crate::copy::{CopyInfo, preferred, read_primer};
use crate::gap::Gaps;
use crate::index::place::{BadUnit, GREATEST_UNIT, Place};
use crate::index::{SegmentAt, SegmentInNumbers, Segments, segment_there};
use crate::kept::KeptLists;
use crate::kept::above::boundary;
use crate::kept::arrival::Arrival;
use crate::kept::keyed::{any_above, find_by_key};
use crate::kept::reaches::copy_around;
use crate::partition::{Partition, PartitionAt, Partitions, part_count};
use crate::placed::NotesAt;
use crate::random_index::RipView;
use mxf_catalogue::{AddFault, Catalogue, Change, MergeFault, Semilattice};
use mxf_klv::{Note, OutOfMemory};
use mxf_sets::{PackPart, Primer};
use std::alloc::Global;
use std::marker::Model;
use thiserror::Error;

/// A catalogue, with the views of its notes: what the packets that are held say of the file.
///
/// Each view is a function of the catalogue's content, whichever way its notes came. Views go by clear notes, those
/// that share no byte with another: what is disputed is shown as such, and relied on nowhere.
pub struct Views {
    catalogue: Catalogue,
    kept: KeptLists,
}

// Written out, a drop is one call wherever views are let go.
impl Drop for Views {
    fn drop(self) {
        let Views {
            catalogue: _catalogue,
            kept: _kept,
        } = self;
    }
}

impl Model for Views {
    ghost use Rattle.std.specs.Prelude.{List};
    ghost use Rattle.mxf_klv.specs.Parts.{NoteParts};
    ghost use Rattle.std.specs.Prelude.{◌≡◌};
    ghost use Rattle.mxf_views.specs.Kept.{kept_in, kept_of};

    ghost Value = { List NoteParts };

    ghost view = { λ v. v.catalogue };

    ghost invariant = { λ v. kept_in v.kept ≡ kept_of v.catalogue };
}

/// A catalogue that makes no views, out of memory: it comes back.
#[derive(Debug, Drop, Error)]
#[error("out of memory")]
pub struct ViewFault {
    pub catalogue: Catalogue,
}

impl Views {
    /// The views of no note.
    pub fn new(alloc: Global) -> Views
        ensures { result ≡ [] }
    {
        Views {
            catalogue: Catalogue::new(alloc),
            kept: KeptLists::new(alloc),
        }
    }

    /// The views of a catalogue: whatever calls made it, they are those of the notes that it was handed. If these are
    /// the notes of a well-formed file, partitions, copies and indexes are what reading the file from the front says.
    pub fn of(alloc: Global, catalogue: Catalogue) -> Result<Views, ViewFault>
        ensures views { IfOk result (λ v. v ≡ catalogue) }
        ensures run { IfOk result (λ v. IsTheRun (has_note catalogue) v) }
        ensures history { (h : History) → catalogue ≡ content h → IfOk result (λ v. v ≡ content (Of h)) }
        ensures back { IfErr result (λ f. f.catalogue ≡ catalogue) }
    {
        catalogue.laws();
        match KeptLists::of(alloc, &catalogue) {
            Ok(kept) => Ok(Views { catalogue, kept }),
            Err(_) => Err(ViewFault { catalogue }),
        }
    }

    /// Adds the note to the catalogue. A held note, and the head of one, is `Repeated` and takes no memory.
    pub fn add(&mut self, note: Note) -> Result<Change, AddFault>
        ensures added { OnOk result (self.new ≡ reduced_with note self.old) }
        ensures repeated { (result ≡ Ok Change.Repeated) ↔ has_note self.old note }
        ensures moved { IfOk result (TellsMoved note self.old) }
        ensures fault { IfErr result (λ f. f.note ≡ note) }
        ensures err { OnErr result (self.new ≡ self.old) }
        ensures history { (h : History) → self.old ≡ content h → OnOk result (self.new ≡ content (Add h note)) }
    {
        let arrival = Arrival::of(&self.catalogue, &note);
        if self.catalogue.has(&note) {
            return Ok(Change::Repeated);
        }
        let Ok(()) = self.kept.make_room() else {
            return Err(AddFault { note });
        };
        let change = self.catalogue.add(note)?;
        self.kept.follow(&self.catalogue, &arrival);
        Ok(change)
    }

    /// The views of the notes of both.
    pub fn join(alloc: Global, a: &Views, b: &Views) -> Result<Views, OutOfMemory>
        ensures joined { IfOk result (λ v. v ≡ reduced_union a.now b.now) }
        ensures history { (h k : History) → a.now ≡ content h → b.now ≡ content k
            → IfOk result (λ v. v ≡ content (Join h k)) }
    {
        let catalogue = Catalogue::join(alloc, &a.catalogue, &b.catalogue)?;
        let kept = KeptLists::of(alloc, &catalogue)?;
        Ok(Views { catalogue, kept })
    }

    /// Moves the notes of a catalogue into that of these views, which are of the notes of both then. No kept value is
    /// copied. If the other's notes begin where these end, or above, only they are counted.
    ///
    /// The only fault is out of memory. The other catalogue comes back and these views are unchanged.
    pub fn merge(&mut self, other: Catalogue) -> Result<(), MergeFault>
        ensures merged { OnOk result (self.new ≡ reduced_union self.old other) }
        ensures err { OnErr result (self.new ≡ self.old) }
        ensures back { IfErr result (λ f. f.other ≡ other) }
        ensures history { (h k : History) → self.old ≡ content h → other ≡ content k
            → OnOk result (self.new ≡ content (Join h k)) }
    {
        match boundary(&self.catalogue, &other) {
            Some(boundary) => self.merge_above(other, boundary),
            None => self.merge_among(other),
        }
    }

    /// The same, if the other's notes begin at the boundary or above, and these end there or below.
    fn merge_above(&mut self, other: Catalogue, boundary: u64) -> Result<(), MergeFault>
        requires { MeetAt boundary self.old other }
        ensures merged { OnOk result (self.new ≡ reduced_union self.old other) }
        ensures err { OnErr result (self.new ≡ self.old) }
        ensures back { IfErr result (λ f. f.other ≡ other) }
    {
        let Ok(()) = self.kept.make_room_for(&other) else {
            return Err(MergeFault { other });
        };
        let Ok(room) = self.kept.marks_room(other.len()) else {
            return Err(MergeFault { other });
        };
        self.catalogue.merge(other)?;
        self.kept.follow_above(&self.catalogue, boundary, room);
        Ok(())
    }

    /// The same, wherever the other's notes stand.
    fn merge_among(&mut self, other: Catalogue) -> Result<(), MergeFault>
        ensures merged { OnOk result (self.new ≡ reduced_union self.old other) }
        ensures err { OnErr result (self.new ≡ self.old) }
        ensures back { IfErr result (λ f. f.other ≡ other) }
    {
        self.catalogue.laws();
        other.laws();
        let Ok(()) = self.kept.make_room_for(&other) else {
            return Err(MergeFault { other });
        };
        let notes = self.catalogue.len().saturating_add(other.len());
        let Ok(room) = self.kept.marks_room(notes) else {
            return Err(MergeFault { other });
        };
        self.catalogue.merge(other)?;
        self.kept.refill(&self.catalogue, room);
        Ok(())
    }

    /// The catalogue.
    pub fn catalogue(&self) -> &Catalogue
        ensures { result.now ≡ self.now }
    {
        &self.catalogue
    }

    /// The catalogue, without its views.
    pub fn into_catalogue(self) -> Catalogue
        ensures catalogue { result ≡ self }
        ensures history { (h : History) → self ≡ content h → result ≡ content (Of h) }
    {
        let Views {
            catalogue,
            kept: _kept,
        } = self;
        catalogue
    }

    /// The partitions, rising.
    #[tactic(auto, unfolding(crate::specs::Partitions::partitions_of))]
    pub fn partitions(&self) -> Partitions<'_>
        ensures partitions { result ≡ partitions_of self.now }

        // A count of the result fits.
        ensures bound { length result < 2 ^ 64 }
    {
        Partitions::of(&self.catalogue, &self.kept.partitions)
    }

    /// The same by what their packs state in numbers, which is read once and kept.
    pub fn partitions_in_numbers(&self) -> &[Partition]
        ensures partitions { result.now ≡ map in_numbers (partitions_of self.now) }
        ensures rising { RiseBy (λ p. p.offset) result.now }
    {
        self.catalogue.laws();
        &self.kept.partitions
    }

    /// The partition at a file offset, by what its pack states in numbers. It is a binary search.
    pub fn partition_at(&self, offset: u64) -> Option<&Partition>
        ensures { option_copied result ≡ option_map in_numbers (find (λ p. p.offset == offset) (partitions_of self.now)) }
    {
        find_by_key(self.partitions_in_numbers(), offset)
    }

    /// How the partition at a file offset names the one before it.
    pub fn link(&self, offset: u64) -> Option<Link>
        ensures { result ≡ link_at offset (partitions_of self.now) }
    {
        let partition = self.partition_at(offset)?;
        Some(self.link_by(offset, partition.numbers.previous_partition))
    }

    /// How a partition names the one before it, among the partitions of these views.
    pub fn link_of(&self, partition: &PartitionAt<'_>) -> Link
        ensures { result ≡ link_of (partitions_of self.now) partition.now }
    {
        let previous = partition.pack.numbers().previous_partition;
        self.link_by(partition.offset, previous)
    }

    /// How a partition at a file offset names the one before it, by the offset that it states for that.
    pub fn link_by(&self, offset: u64, previous: u64) -> Link
        ensures { result ≡ link_by (partitions_of self.now) offset previous }
    {
        link_by(self.partitions_in_numbers(), offset, previous)
    }

    /// Whether the partitions hang together from the header to the footer.
    pub fn chain(&self) -> Chain
        ensures { result ≡ chain_of self.now }
    {
        if self.has_one(PackPart::Header)
            && self.has_one(PackPart::Footer)
            && self.are_linked()
            && self.ends_in_footer()
            && self.has_readable_packs()
        {
            Chain::Whole
        } else {
            Chain::Broken
        }
    }

    /// Whether exactly one of the partitions is such a part of the file.
    fn has_one(&self, part: PackPart) -> bool
        ensures { result ≡ (count_by (λ p. is_part part p.pack.part) (partitions_of self.now) == 1) }
    {
        part_count(self.partitions_in_numbers(), part) == 1
    }

    fn are_linked(&self) -> bool
        ensures { result ≡ list_all (is_linked (partitions_of self.now)) (partitions_of self.now) }
    {
        for partition in self.partitions_in_numbers() {
            if !self.is_linked(partition) {
                return false;
            }
        }
        true
    }

    fn is_linked(&self, partition: &Partition) -> bool
        ensures { result ≡ is_linked (partitions_of self.now) partition.now }
    {
        let link = self.link_by(partition.offset, partition.numbers.previous_partition);
        match partition.part {
            PackPart::Header => link == Link::First,
            _ => link == Link::Held,
        }
    }

    fn ends_in_footer(&self) -> bool
        ensures { result ≡ list_all (λ p. not (is_footer p.pack.part) || is_greatest (partitions_of self.now) p)
            (partitions_of self.now) }
    {
        for partition in self.partitions_in_numbers() {
            if partition.part == PackPart::Footer && self.any_partition_above(partition.offset) {
                return false;
            }
        }
        true
    }

    /// Whether a partition stands above a file offset.
    fn any_partition_above(&self, offset: u64) -> bool
        ensures { result ≡ stands_above offset (partitions_of self.now) }
    {
        any_above(self.partitions_in_numbers(), offset)
    }

    fn has_readable_packs(&self) -> bool
        ensures { result ≡ list_all is_no_unreadable_pack (clear_notes self.now) }
    {
        self.kept.unreadable_packs.is_empty()
    }

    /// The clear partition packs that aren't readable, rising.
    pub fn unreadable_packs(&self) -> NotesAt<'_, u64>
        ensures { result ≡ filter (λ n. not (is_no_unreadable_pack n)) (clear_notes self.now) }
    {
        NotesAt::of(&self.catalogue, &self.kept.unreadable_packs)
    }

    /// The gaps: the maximal ranges of bytes below the greatest end of a note that no note covers.
    pub fn gaps(&self) -> Gaps<'_>
        ensures gaps { result ≡ gaps_of self.now }

        // A count of the result fits.
        ensures bound { length result < 2 ^ 64 }
    {
        Gaps::of(&self.catalogue)
    }

    /// The copies of the header metadata, one for each partition that states some, rising. They are kept.
    pub fn copies(&self) -> &[CopyInfo]
        ensures copies { result.now ≡ copies_of self.now }
    {
        &self.kept.copies
    }

    /// The sets of the copy of the partition at a file offset, rising; none if there is no such copy.
    #[tactic(auto, unfolding(crate::specs::Copies::sets_of))]
    pub fn sets(&self, partition: u64) -> Sets<'_>
        ensures sets { result ≡ sets_of self.now partition }

        // A count of the result fits.
        ensures bound { length result < 2 ^ 64 }
    {
        match self.copy_at(partition) {
            Some(copy) => sets_of_copy(&self.catalogue, &copy),
            None => no_sets(&self.catalogue),
        }
    }

    /// The copy of the partition at a file offset.
    fn copy_at(&self, partition: u64) -> Option<CopyInfo>
        ensures { result ≡ find (λ c. c.partition == partition) (copies_of self.now) }
    {
        self.catalogue.laws();
        find_by_key(&self.kept.copies, partition).copied()
    }

    /// The preferred copy: of those with a start and exactly one Preface, a finished one before all others, then by the
    /// status of its partition, then that of the later partition.
    pub fn preferred(&self) -> Option<CopyInfo>
        ensures { result ≡ preferred_of (copies_of self.now) }
    {
        preferred(&self.kept.copies)
    }

    /// The primer pack of the first copy whose bytes have the set: it says what the set's tags stand for. None if no
    /// copy has the set.
    #[tactic(auto, unfolding(crate::specs::Labels::primer_for))]
    pub fn primer_for(&self, set: &Note) -> Option<Primer<'_>>
        ensures { result ≡ primer_for self.now set.now }
    {
        let copy = self.copy_with(set)?;
        self.primer_of(&copy)
    }

    /// The first copy whose bytes have the packet of the note: the primer pack at its start is the one that says what
    /// the tags of a set stand for. None if no copy has it.
    pub fn copy_with(&self, note: &Note) -> Option<CopyInfo>
        ensures { result ≡ find (is_in_copy note.now) (copies_of self.now) }
    {
        self.catalogue.laws();
        copy_around(&self.kept.copies, &self.kept.reaches, note)
    }

    /// The primer pack at the start of the copy. None without a start, or if no clear primer pack that can be read
    /// stands there.
    pub fn primer_of(&self, copy: &CopyInfo) -> Option<Primer<'_>>
        ensures { result ≡ primer_of self.now copy.now }
    {
        self.primer_there(copy.start?)
    }

    /// The primer pack of the clear note at a file offset.
    fn primer_there(&self, offset: u64) -> Option<Primer<'_>>
        ensures { result ≡ primer_there self.now offset }
    {
        let note = self.catalogue.clear_at(offset)?;
        read_primer(note)
    }

    /// The index table segments, rising.
    #[tactic(auto, unfolding(crate::specs::Places::segments_of))]
    pub fn segments(&self) -> Segments<'_>
        ensures segments { result ≡ segments_of self.now }

        // A count of the result fits.
        ensures bound { length result < 2 ^ 64 }
    {
        Segments::of(&self.catalogue, &self.kept.segments)
    }

    /// The same by what they state in numbers, which is read once and kept.
    pub fn segments_in_numbers(&self) -> &[SegmentInNumbers]
        ensures segments { result.now ≡ map without_entries (segments_of self.now) }
        ensures rising { RiseBy (λ s. s.offset) result.now }
    {
        self.catalogue.laws();
        &self.kept.segments
    }

    /// The index table segment at a file offset. It is a binary search.
    pub fn segment_at(&self, offset: u64) -> Option<SegmentAt<'_>>
        ensures { result ≡ find (λ s. s.offset == offset) (segments_of self.now) }
    {
        segment_there(&self.catalogue, offset)
    }

    /// Where the index of an IndexSID puts an edit unit, by all segments that cover it.
    ///
    /// Fails for a unit above 9,223,372,036,854,775,807.
    pub fn locate(&self, index_sid: u32, unit: u64) -> Result<Place, BadUnit>
        ensures { OkIff result (unit ≤ greatest_unit) (place_of (segments_of self.now) index_sid unit) }
    {
        if unit > GREATEST_UNIT {
            return Err(BadUnit);
        }
        Ok(self.segments().place_of(index_sid, unit))
    }

    /// What is known of the random index pack.
    pub fn rip(&self) -> RipView<'_>
        ensures { result ≡ rip_view_of self.now }
    {
        RipView::of(self.random_index_packs(), self.partitions_in_numbers())
    }

    /// The clear random index packs, readable or not, rising.
    pub fn random_index_packs(&self) -> NotesAt<'_, u64>
        ensures { result ≡ rips_of self.now }
    {
        NotesAt::of(&self.catalogue, &self.kept.random_index_packs)
    }
}

/// A law of [`Views::add`]: no note that shares a byte with an added new one is clear.
pub fn added_notes_dispute_what_they_touch()
    ensures { (m n : NoteParts) (notes : List NoteParts) → AreReduced notes → ¬ has_note notes n → In m notes
        → SharesByte n m → ¬ In m (clear_notes (reduced_with n notes)) }
{}
