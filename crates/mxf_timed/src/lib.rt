//! Edit units by timecode: which positions have a timecode, where they are stored, and which timecode is shown by a
//! unit.
//!
//! A position is an edit unit as it is shown, counted from 0; a unit is counted as it is stored. The picture shown at a
//! position is stored at that position plus the TemporalOffset of its index entry (ST 377-1, Index Table Segment).
//!
//! [`shown_at`] says which positions have a timecode, by the runs of a clock; [`stored_at`] which unit stores a
//! position, and [`least_stored`] and [`greatest_stored`] the first and the last unit that store positions of a range.
//! [`stored_bounds`] puts these together, for what is asked for by timecodes and by numbers. The laws of [`laws`] say
//! that there is one answer, where a position is stored, and that the units that are answered hold all that is shown
//! between two timecodes.
//!
//! The other way round [`ShownTimecodes`] says which timecode a unit shows: that of the one position that it stores, by
//! the one run that has this position.
#![tactic(auto)]

mod asked;
mod coverage;
mod label;
pub mod laws;
mod positions;
mod shown;
mod stored;
mod timecode_word;
mod timecodes;

pub use asked::{Bound, StoredBounds, TimecodeFault, UnitBound, stored_bounds};
pub use positions::{ShownAt, shown_at};
pub use stored::{Positions, greatest_stored, least_stored, stored_at};
pub use timecode_word::TimecodeWord;
pub use timecodes::{ShownEnds, ShownTimecodes};
