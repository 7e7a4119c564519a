//! Edit units.
use crate::standing::UnitStanding;

/// Where bytes of the file lie.
#[derive(Clone, Copy, Debug, PartialEq, Eq)]
pub struct Extent {
    /// The file offset of the first byte.
    pub start: u128,
    /// The file offset after the last byte; none if that isn't known.
    pub end: Option<u128>,
}

/// A stored edit unit: where it lies in the file, which of its bytes are held, and what its index entry says (ST 377-1,
/// Index Table Segment).
#[derive(Clone, Copy, Debug, PartialEq, Eq)]
pub struct EditUnit {
    /// Units are counted from 0 as they are stored.
    pub number: u64,
    pub standing: UnitStanding,
    /// Where it lies, if that is known: from the standing `Disputed` on.
    pub extent: Option<Extent>,
    /// The number of the key frame that its entry names; none if no entry does, if entries disagree, or if the number
    /// would be negative.
    pub key: Option<u64>,
    /// The unit that is shown at this unit's place is stored this many units after it; none if no entry says so, or if
    /// entries disagree.
    pub temporal: Option<i8>,
    /// The flags of its entry; none if there is no entry, or if entries disagree.
    pub flags: Option<u8>,
}
