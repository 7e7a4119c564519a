//! Copies of the header metadata.
ghost use Rattle.std.specs.Prelude.{◌≡◌, ◌==◌, ◌↔◌, ◌<◌, ◌^◌, ℕ, List, [], Option, None, Some, count_by, find, length};
ghost use Rattle.std.specs.List.{range_with_len};
ghost use Rattle.mxf_klv.specs.Parts.{NoteParts};
ghost use Rattle.mxf_catalogue.specs.Content.{IsContent};
ghost use Rattle.mxf_views.specs.Spans.{is_in_one};
ghost use Rattle.mxf_views.specs.Labels.{IsPrimerFor, is_in_copy, primer_for};
ghost use Rattle.mxf_sets.specs.Batch.{BatchParts};
ghost use Rattle.mxf_sets.specs.PackReadings.{primer_at};
ghost use Rattle.mxf_sets.specs.Readable.{read_as};
ghost use Rattle.mxf_klv.specs.Rising.{In};
ghost use Rattle.mxf_views.specs.Copies.{CopiesRise, IsBest, IsCopy, IsPreferred, IsStart, copies_of, preferred_of};
ghost use Rattle.mxf_views.specs.Copies.{is_candidate, is_above, rank, copies_among, copy_from, copy_of, covered_of};
ghost use Rattle.mxf_views.specs.Copies.{has_metadata, is_readable_primer, start_of, zone_of, prefaces_of};
ghost use Rattle.mxf_views.specs.declared.copy.CopyInfo.{CopyInfo};
ghost use Rattle.std.specs.Iterator.{YieldsFirst, item_count};
ghost use Rattle.mxf_catalogue.specs.Disputes.{clear_notes};

pub(crate) mod sets;
pub(crate) mod zone;

use crate::copy::zone::{Counts, covered, is_fill, is_preface, lies_in};
use crate::partition::{Partition, partition_there};
use mxf_catalogue::Catalogue;
use mxf_klv::{Kind, Note, Status};
use mxf_sets::Primer;

/// A copy of the header metadata: that of one partition (ST 377-1, header metadata).
///
/// A file can state its header metadata, what the essence is and who made it, in several partitions: a first draft in
/// the header, and a later one in a body partition or in the footer. Each copy begins with a primer pack, after the
/// partition pack and its fill, and takes as many bytes as the pack's HeaderByteCount says.
///
/// In a file that is held in parts, a copy can be whole, in parts, or without a beginning; which of them is finished
/// decides which one to read.
#[derive(Clone, Copy, Debug, PartialEq, Eq)]
pub struct CopyInfo {
    /// The file offset of the partition, in bytes.
    pub partition: u64,
    /// The file offset where the copy begins, in bytes: that of its primer. None if it isn't held.
    pub start: Option<u64>,
    /// The bytes that the partition states for its header metadata, from the primer on.
    pub bytes: u64,
    /// How many of these bytes lie in clear packets that lie wholly among them.
    pub covered: u64,
    /// Whether all of them do.
    pub finished: bool,
    /// The number of Prefaces.
    pub prefaces: usize,
    pub status: Status,
}

/// The primer pack of a note, if its value is kept and is one.
pub(crate) fn read_primer(note: &Note) -> Option<Primer<'_>>
    ensures { result ≡ read_as primer_at note.now }
{
    Primer::read(note.value()?).ok()
}

/// Whether the note is a readable primer pack.
#[tactic(auto, unfolding(crate::specs::Copies::is_readable_primer))]
fn is_readable_primer(note: &Note) -> bool
    ensures { result ≡ is_readable_primer note.now }
{
    note.kind() == Kind::Primer && read_primer(note).is_some()
}

/// Where the header metadata begin for a partition whose pack ends at an offset: at the primer that follows it, or the
/// fills after it.
pub(crate) fn start_of(catalogue: &Catalogue, end: u64) -> Option<u64>
    ensures { result ≡ start_of end (clear_notes catalogue.now) }
{
    let mut reached = end;
    for note in catalogue.clear_within(end, u64::MAX) {
        if note.offset() != reached {
            return None;
        }
        if !is_fill(note) {
            return is_readable_primer(note).then_some(reached);
        }
        reached = note.end();
    }
    None
}

fn prefaces(catalogue: &Catalogue, start: u64, bytes: u64) -> usize
    ensures { result ≡ prefaces_of start bytes (clear_notes catalogue.now) }
{
    catalogue
        .clear_within(start, bytes)
        .filter(|note| is_preface(note))
        .count()
}

/// What the notes that lie wholly in a range cover, and how many Prefaces are among them.
pub(crate) fn counts(catalogue: &Catalogue, start: u64, bytes: u64) -> Counts
    ensures covered { result.covered ≡ covered_of start bytes (clear_notes catalogue.now) }
    ensures prefaces { result.prefaces ≡ prefaces_of start bytes (clear_notes catalogue.now) }
{
    Counts {
        covered: covered(catalogue.clear_within(start, bytes)),
        prefaces: prefaces(catalogue, start, bytes),
    }
}

#[tactic(auto, unfolding(crate::specs::Copies::copy_of))]
pub(crate) fn copy_of(catalogue: &Catalogue, partition: &Partition) -> CopyInfo
    ensures { result ≡ copy_of (clear_notes catalogue.now) partition.now }
{
    let Some(start) = start_of(catalogue, partition.end) else {
        return without_start(partition);
    };
    let bytes = partition.numbers.header_byte_count;
    let counts = counts(catalogue, start, bytes);
    with_start(partition, start, counts)
}

/// The copy of a partition that has no start.
pub(crate) fn without_start(partition: &Partition) -> CopyInfo
    ensures { result ≡ copy_from [] partition.now None }
{
    CopyInfo {
        partition: partition.offset,
        start: None,
        bytes: partition.numbers.header_byte_count,
        covered: 0,
        finished: false,
        prefaces: 0,
        status: partition.status,
    }
}

/// The copy of a partition that has a start, by what is counted in its zone.
pub(crate) fn with_start(partition: &Partition, start: u64, counts: Counts) -> CopyInfo
    ensures { (notes : List NoteParts)
        → counts.covered ≡ covered_of start partition.now.pack.numbers.header_byte_count notes
        → counts.prefaces ≡ prefaces_of start partition.now.pack.numbers.header_byte_count notes
        → result ≡ copy_from notes partition.now (Some start) }
{
    let bytes = partition.numbers.header_byte_count;
    let covered = counts.covered;
    CopyInfo {
        partition: partition.offset,
        start: Some(start),
        bytes,
        covered,
        finished: covered == bytes,
        prefaces: counts.prefaces,
        status: partition.status,
    }
}

/// Whether the partition states header metadata.
pub(crate) fn has_metadata(partition: &Partition) -> bool
    ensures { result ≡ has_metadata partition.now }
{
    partition.numbers.header_byte_count > 0
}

/// The copy of the partition at a file offset.
pub(crate) fn copy_there(catalogue: &Catalogue, partition: u64) -> Option<CopyInfo>
    ensures { result ≡ find (λ c. c.partition == partition) (copies_of catalogue.now) }
{
    let partition = partition_there(catalogue, partition)?.in_numbers();
    if !has_metadata(&partition) {
        return None;
    }
    Some(copy_of(catalogue, &partition))
}

/// The preferred one of copies.
pub(crate) fn preferred(copies: &[CopyInfo]) -> Option<CopyInfo>
    ensures { result ≡ preferred_of copies.now }
{
    let mut best: Option<CopyInfo> = None;
    for copy in copies {
        if copy.is_candidate() && copy.is_above(&best) {
            best = Some(*copy);
        }
    }
    best
}

impl CopyInfo {
    /// Whether the packet of the note lies wholly in the zone.
    pub(crate) fn has(&self, note: &Note) -> bool
        ensures { result ≡ is_in_copy note.now self.now }
    {
        match self.start {
            Some(start) => lies_in(start, self.bytes, note),
            None => false,
        }
    }

    /// Whether it has a start and exactly one Preface.
    fn is_candidate(&self) -> bool
        ensures { result ≡ is_candidate self.now }
    {
        self.start.is_some() && self.prefaces == 1
    }

    /// How high it stands: finished copies above all others, and then by the status of the partition.
    fn rank(&self) -> u8
        ensures { result ≡ rank self.now }
    {
        let status = match self.status {
            Status::OpenIncomplete => 0,
            Status::OpenComplete => 1,
            Status::ClosedIncomplete => 2,
            Status::ClosedComplete => 3,
        };
        if self.finished { 4 + status } else { status }
    }

    /// Whether it stands above the other, or alike in a later partition; it stands above none.
    fn is_above(&self, other: &Option<CopyInfo>) -> bool
        ensures { result ≡ is_above self.now other.now }
    {
        match other {
            Some(other) => {
                other.rank() < self.rank()
                    || other.rank() == self.rank() && other.partition < self.partition
            }
            None => true,
        }
    }
}

/// A law of [`Views::copies`](crate::Views::copies): what is covered is the number of offsets of the zone that lie in a
/// clear note lying wholly in it.
pub fn covered_counts_offsets()
    ensures { (notes : List NoteParts) (start bytes : ℕ) → IsContent notes
        → covered_of start bytes (clear_notes notes) ≡ count_by (is_in_one (zone_of start bytes (clear_notes notes)))
        (range_with_len start bytes) }
{}

/// A law of [`Views::copies`](crate::Views::copies): a copy starts exactly where its definition says, at one offset at
/// most.
pub fn starts_by_definition()
    ensures start { (notes : List NoteParts) (end start : ℕ) → IsContent notes
        → (start_of end (clear_notes notes) ≡ Some start) ↔ IsStart notes end start }
    ensures one { (notes : List NoteParts) (end s t : ℕ) → IsStart notes end s → IsStart notes end t → s ≡ t }
{}

/// A law of [`Views::preferred`](crate::Views::preferred): it is a candidate that no candidate stands above, and there
/// is none only if no copy is a candidate; two such copies are of one partition.
pub fn preferred_by_definition()
    ensures best { (copies : List CopyInfo) → IsPreferred copies (preferred_of copies) }
    ensures one { (copies : List CopyInfo) (a b : CopyInfo) → IsBest copies a → IsBest copies b
        → a.partition ≡ b.partition }
{}

/// A law of [`Views::copies`](crate::Views::copies): they are the copies of the partitions that have header metadata.
pub fn copies_by_definition()
    ensures copies { (notes : List NoteParts) (c : CopyInfo) → IsContent notes
        → In c (copies_of notes) ↔ IsCopy notes c }
    ensures rising { (notes : List NoteParts) → IsContent notes → CopiesRise (copies_of notes) }
{}

/// A law of [`Views::primer_for`](crate::Views::primer_for): it is the primer pack at the start of the copy of the
/// first partition whose zone has the packet; there is none only if no copy's zone has it.
pub fn primer_for_by_definition()
    ensures { (notes : List NoteParts) (n : NoteParts) (primer : Option BatchParts) → IsContent notes
        → (primer_for notes n ≡ primer) ↔ IsPrimerFor notes n primer }
{}
