//! The numbers of index table segments (ST 377-1, Index Table Segment).
ghost use Rattle.std.specs.Prelude.{◌≡◌, ◌<◌};
ghost use Rattle.std.specs.List.{AllByRecursion};
ghost use Rattle.mxf_sets.specs.Fields.{Passes};
ghost use Rattle.mxf_sets.specs.Segment.{entry_size, segment_fields, segment_numbers};

use crate::Items;
use crate::record::{Field, Shape, optional_u8, optional_u32, required_value};
use byteorder::{BigEndian, ByteOrder};

// The tags (ST 377-1, Index Table Segment).
pub(super) const EDIT_RATE: u16 = 0x3F0B;

pub(super) const START: u16 = 0x3F0C;

pub(super) const DURATION: u16 = 0x3F0D;

pub(super) const UNIT_BYTES: u16 = 0x3F05;

pub(super) const INDEX_SID: u16 = 0x3F06;

pub(super) const BODY_SID: u16 = 0x3F07;

pub(super) const SLICES: u16 = 0x3F08;

pub(super) const POSITIONS: u16 = 0x3F0E;

pub(super) const ENTRIES: u16 = 0x3F0A;

/// The fields, in the order of testing and writing.
#[rattlefmt::skip]
pub(super) const FIELDS: [Field; 9] = [
    Field { tag: EDIT_RATE, shape: Shape::Exactly(8), required: true },
    Field { tag: START, shape: Shape::Exactly(8), required: true },
    Field { tag: DURATION, shape: Shape::Exactly(8), required: true },
    Field { tag: UNIT_BYTES, shape: Shape::Exactly(4), required: false },
    Field { tag: INDEX_SID, shape: Shape::Exactly(4), required: false },
    Field { tag: BODY_SID, shape: Shape::Exactly(4), required: true },
    Field { tag: SLICES, shape: Shape::Exactly(1), required: false },
    Field { tag: POSITIONS, shape: Shape::Exactly(1), required: false },
    Field { tag: ENTRIES, shape: Shape::Any, required: false },
];

/// The numbers of an index table segment (ST 377-1, Index Table Segment).
///
/// They say which units the segment covers, in which stream, and how an entry is laid out. It has eleven bytes of its
/// own, then four for each slice and eight for each position table, since the parts of an edit unit whose size varies
/// can be looked up too.
#[derive(Clone, Copy, Debug, PartialEq, Eq)]
pub struct SegmentNumbers {
    /// Edit units a second, as numerator and denominator.
    pub edit_rate: (i32, i32),
    /// The first edit unit that the segment covers.
    pub start: i64,
    /// The number of edit units that the segment covers. In a segment of constant edit units 0 stands for no end.
    pub duration: i64,
    /// The bytes of each edit unit if all have one size, and otherwise 0.
    pub unit_bytes: u32,
    /// The identifier of the index.
    pub index_sid: u32,
    /// The identifier of the essence stream that the segment indexes.
    pub body_sid: u32,
    /// The slices of each entry, four bytes each.
    pub slices: u8,
    /// The position entries of each entry, eight bytes each.
    pub positions: u8,
}

impl SegmentNumbers {
    /// The bytes of an entry.
    pub(super) fn entry_size(&self) -> u32
        ensures size { result ≡ entry_size self.now }
        ensures small { result < 3072 }
    {
        11 + 4 * u32::from(self.slices) + 8 * u32::from(self.positions)
    }

    /// The numbers in items that have met the table.
    pub(super) fn of(items: &Items<'_>) -> SegmentNumbers
        requires { AllByRecursion (Passes items.now) segment_fields }
        ensures { result ≡ segment_numbers items.now }
    {
        let rate = required_value(items, EDIT_RATE, 8);
        let (_, denominator) = rate.split_at(4);
        SegmentNumbers {
            edit_rate: (BigEndian::read_i32(rate), BigEndian::read_i32(denominator)),
            start: BigEndian::read_i64(required_value(items, START, 8)),
            duration: BigEndian::read_i64(required_value(items, DURATION, 8)),
            unit_bytes: optional_u32(items, UNIT_BYTES),
            index_sid: optional_u32(items, INDEX_SID),
            body_sid: BigEndian::read_u32(required_value(items, BODY_SID, 4)),
            slices: optional_u8(items, SLICES),
            positions: optional_u8(items, POSITIONS),
        }
    }
}
