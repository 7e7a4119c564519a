//! Index table segments (ST 377-1, Index Table Segment).
ghost use Rattle.std.specs.Prelude.{◌≡◌, Ok};
ghost use Rattle.std.specs.List.{AllByRecursion};
ghost use Rattle.std.specs.Option.{ForSome, SomeIff, option_map};
ghost use Rattle.mxf_sets.specs.Faults.{segment_fault};
ghost use Rattle.mxf_sets.specs.Fields.{Passes};
ghost use Rattle.mxf_sets.specs.Items.{IsItem};
ghost use Rattle.mxf_sets.specs.Segment.{AreSegmentNumbers, IsSegment, SegmentParts, entries_in, entry_count};
ghost use Rattle.mxf_sets.specs.Segment.{segment_at, segment_bytes, segment_fields, segment_of, segment_parts};

mod numbers;
mod offset;
mod writing;

use crate::batch::is_batch;
use crate::record::read_fields;
use crate::{FieldFault, Items};
pub use numbers::SegmentNumbers;
use numbers::{DURATION, ENTRIES, FIELDS, START};
pub use offset::IndexEntry;
use std::marker::Model;
use thiserror::Error;

/// Why a value is no index table segment. Each cause is tested over the tags, in their order, before the next cause.
#[derive(Clone, Copy, Debug, PartialEq, Eq, Error)]
pub enum SegmentFault {
    /// The tag, length or value of the item at this position isn't whole.
    #[error("the item at {0} is cut")]
    Set(usize),
    /// More than one item has this tag.
    #[error("the tag {0:04x} is repeated")]
    RepeatedTag(u16),
    /// No item has this tag, which has to be there.
    #[error("the tag {0:04x} is missing")]
    Missing(u16),
    /// The value of this tag has another width.
    #[error("the value of the tag {0:04x} has another width")]
    WrongWidth(u16),
    /// The start position or the duration, by its tag, is negative.
    #[error("the number of the tag {0:04x} is negative")]
    Negative(u16),
    /// Edit units have no constant size, and the entry array is no batch of whole entries.
    #[error("the index entries are no batch of entries")]
    BadEntries,
}

impl From<FieldFault> for SegmentFault {
    ghost from_gives = { λ f s. s ≡ segment_fault f };

    fn from(fault: FieldFault) -> SegmentFault {
        match fault {
            FieldFault::Set(position) => SegmentFault::Set(position),
            FieldFault::RepeatedTag(tag) => SegmentFault::RepeatedTag(tag),
            FieldFault::Missing(tag) => SegmentFault::Missing(tag),
            FieldFault::WrongWidth(tag) => SegmentFault::WrongWidth(tag),
        }
    }
}

/// The greatest number of bytes of the entries, which have to fit into one item beside the head of their batch.
const MOST_ENTRY_BYTES: usize = 65_527;

/// An index table segment (ST 377-1, Index Table Segment): its numbers and its entries.
///
/// Players jump by it: it says at which byte of an essence stream an edit unit begins. If all units have one size, the
/// size is enough. Otherwise there is an entry for each unit, with its offset in the stream, how far away its key frame
/// and its place on the screen are, and flags.
///
/// A segment covers a range of edit units, in the order in which they are stored. The segments of one index, by
/// IndexSID, stand in any number of partitions, often a piece of the index in each, and may repeat one another.
#[derive(Debug, Drop)]
pub struct Segment<'a> {
    numbers: SegmentNumbers,
    entries: &'a [u8],
}

impl<'a> Model for Segment<'a> {
    ghost use Rattle.mxf_sets.specs.Segment.{AreSegmentNumbers, IsSegment, SegmentParts, segment_parts};

    ghost Value = { SegmentParts };

    ghost view = { λ s. segment_parts s.numbers s.entries.now };

    ghost invariant = { λ s. AreSegmentNumbers s.numbers × IsSegment (segment_parts s.numbers s.entries.now) };
}

/// The entries in items that have met the table; None if they are no batch of whole entries.
fn entries_of<'a>(items: &Items<'a>, numbers: &SegmentNumbers) -> Option<&'a [u8]>
    ensures { option_map (λ v. v.now) result ≡ entries_in numbers.now items.now }
{
    if numbers.unit_bytes > 0 {
        return Some(&[]);
    }
    let Some(batch) = items.first(ENTRIES) else {
        return Some(&[]);
    };
    if !is_batch(numbers.entry_size(), batch) {
        return None;
    }
    let (_, entries) = batch.split_at(8);
    Some(entries)
}

impl<'a> Segment<'a> {
    /// Reads the value of an index table segment.
    pub fn read(value: &'a [u8]) -> Result<Segment<'a>, SegmentFault>
        ensures { result ≡ segment_at value.now }
    {
        let items = read_fields(value, &FIELDS)?;
        Segment::of_items(&items)
    }

    /// The segment in items that have met the table.
    fn of_items(items: &Items<'a>) -> Result<Segment<'a>, SegmentFault>
        requires passes { AllByRecursion (Passes items.now) segment_fields }
        requires small { AllByRecursion IsItem items.now }
        ensures { result ≡ segment_of items.now }
    {
        let numbers = SegmentNumbers::of(items);
        if numbers.start < 0 {
            return Err(SegmentFault::Negative(START));
        }
        if numbers.duration < 0 {
            return Err(SegmentFault::Negative(DURATION));
        }
        let Some(entries) = entries_of(items, &numbers) else {
            return Err(SegmentFault::BadEntries);
        };
        Ok(Segment { numbers, entries })
    }

    /// The segment of these numbers and entries. None if the start or the duration is negative, the entries aren't
    /// whole or have more than 65,527 bytes, or there are entries though edit units have a constant size.
    pub fn of(numbers: SegmentNumbers, entries: &'a [u8]) -> Option<Segment<'a>>
        ensures { SomeIff result (IsSegment (segment_parts numbers entries.now)) (segment_parts numbers entries.now) }
    {
        if numbers.start < 0 || numbers.duration < 0 || entries.len() > MOST_ENTRY_BYTES {
            return None;
        }
        if entries.len() % (numbers.entry_size() as usize) != 0 {
            return None;
        }
        if numbers.unit_bytes > 0 && !entries.is_empty() {
            return None;
        }
        Some(Segment { numbers, entries })
    }

    /// The numbers.
    pub fn numbers(&self) -> SegmentNumbers
        ensures numbers { result ≡ self.now.numbers }
        ensures segment { IsSegment self.now }
        ensures typed { AreSegmentNumbers self.now.numbers }
    {
        self.numbers
    }

    /// The number of entries.
    pub fn entry_count(&self) -> usize
        ensures { result ≡ entry_count self.now }
    {
        self.entries.len() / (self.numbers.entry_size() as usize)
    }
}

/// A law: a written segment is read back with its numbers and entries.
pub fn segments_are_read_as_written()
    ensures { (segment : SegmentParts) → AreSegmentNumbers segment.numbers → IsSegment segment
        → segment_at (segment_bytes segment) ≡ Ok segment }
{}
