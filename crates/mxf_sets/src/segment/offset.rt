//! The places of edit units in their essence stream, and their entries (ST 377-1, look-up of the stream offset).
ghost use Rattle.std.specs.Prelude.{◌≡◌, ◌<◌, ◌^◌, IfSome};
ghost use Rattle.mxf_sets.specs.Offset.{entry_at, entry_offset, index_entry, stream_offset};
ghost use Rattle.mxf_sets.specs.Segment.{entry_count};

use super::Segment;
use byteorder::{BigEndian, ByteOrder};

/// The front of an index entry (ST 377-1, Index Table Segment): how an edit unit stands to others.
#[derive(Clone, Copy, Debug, PartialEq, Eq)]
pub struct IndexEntry {
    /// How many edit units after this one the unit is stored that is shown at its place; negative if it is stored
    /// before.
    pub temporal_offset: i8,
    /// How many edit units after this one the key frame is stored that it needs; mostly 0 or negative.
    pub key_frame_offset: i8,
    /// The bits of random access (`80`), sequence header (`40`), forward and backward prediction (`20`, `10`), and
    /// others.
    pub flags: u8,
}

impl<'a> Segment<'a> {
    /// The front of the entry at a place.
    fn entry_at(&self, place: usize) -> IndexEntry
        requires { place < entry_count self.now }
        ensures { result ≡ entry_at self.now place }
    {
        let from = place * self.numbers.entry_size() as usize;
        IndexEntry {
            temporal_offset: self.entries[from].cast_signed(),
            key_frame_offset: self.entries[from + 1].cast_signed(),
            flags: self.entries[from + 2],
        }
    }

    /// The entry of an edit unit. None if edit units have a constant size, and for a unit that the segment doesn't
    /// cover ([`Segment::offset_of`] says which it does).
    pub fn entry_of(&self, unit: u64) -> Option<IndexEntry>
        ensures { result ≡ index_entry self.now unit }
    {
        let numbers = self.numbers;
        let start = numbers.start.unsigned_abs();
        if numbers.unit_bytes > 0 || unit < start {
            return None;
        }
        let place = unit - start;
        if place >= numbers.duration.unsigned_abs() || place >= self.entry_count() as u64 {
            return None;
        }
        Some(self.entry_at(place as usize))
    }

    /// The stream offset in the entry at a place.
    fn entry_offset(&self, place: usize) -> u64
        requires { place < entry_count self.now }
        ensures { result ≡ entry_offset self.now place }
    {
        let size = self.numbers.entry_size() as usize;
        let (_, rest) = self.entries.split_at(place * size + 3);
        BigEndian::read_u64(rest)
    }

    /// The place of an edit unit in the essence stream, in bytes from the stream's start.
    ///
    /// If edit units have a constant size, the segment covers the units from its start up to its start and duration,
    /// and all from its start on if the duration is 0. Otherwise it covers those from its start up to its start and
    /// duration that have an entry. None for a unit that it doesn't cover. The place is below 2^96.
    pub fn offset_of(&self, unit: u64) -> Option<u128>
        ensures offset { result ≡ stream_offset self.now unit }
        ensures bound { IfSome result (λ offset. offset < 2 ^ 96) }
    {
        let numbers = self.numbers;
        let start = numbers.start.unsigned_abs();
        let duration = numbers.duration.unsigned_abs();
        if unit < start {
            return None;
        }
        let place = unit - start;
        if numbers.unit_bytes > 0 {
            if duration > 0 && place >= duration {
                return None;
            }
            return Some(u128::from(numbers.unit_bytes) * u128::from(unit));
        }
        if place >= duration || place >= self.entry_count() as u64 {
            return None;
        }
        Some(u128::from(self.entry_offset(place as usize)))
    }
}
