//! Where the stored edit units of an index lie in the file, and which of their bytes are held (ST 377-1, Index Table
//! Segment and Partition Pack; the standings are this project's profile).
//!
//! An index table segment says where an edit unit begins in its essence stream, and the BodyOffset of a partition where
//! in the stream its essence begins. Together they say where a unit lies in the file, as far as segments and packs are
//! held: a part of a recording can be cut out of the pieces that are there, and what is missing of it is known by its
//! file offsets.
//!
//! | Question | Call | Answer |
//! |---|---|---|
//! | Which indexes are there? | [`index_sids`], [`named_index_sids`] | the IndexSIDs of the segments, rising; those
//! that partitions name and no segment has |
//! | Up to which unit does one reach? | [`last_unit`] | the last unit to which a segment gives a place, if there is one |
//! | Which units are asked for, and which key frames before them? | [`UnitRange`], [`UnitsLeft`], [`needed_from`] | the
//! units, one after another; the first that they need |
//! | Where does a unit lie, and is it held? | [`Units::of`], then [`Units::unit`] | [`EditUnit`]: its [`UnitStanding`],
//! its [`Extent`], and what its index entry says |
//! | Where is it looked for? | [`Units::place`], [`Units::location`], [`Units::parts`] | its place in its stream; the
//! [`EssenceZone`] in which that is to be found; the partitions as parts of their streams |
//! | All of that at once? | [`Units::placed`] | [`PlacedUnit`] |
//! | Which places do given segments give? | [`IndexSegments::of`], then [`IndexSegments::place`] | the place of a unit
//! in its stream |
//! | Where do the streams lie, without any index? | [`parts_of`], then [`zone_at`]; [`behind_index`] |
//! the partitions as parts of their streams, and the [`EssenceZone`] in which an offset of a stream is to be found; where
//! the bytes of a partition's essence begin |
//!
//! A unit's bytes reach up to the next place in its stream that a segment of its index gives; those of the last one
//! reach up to the end of its partition. So do those of a unit whose next place lies behind that end, unless it is the
//! place of the unit after it: segments of units between aren't held. Bytes are given if no unknown partition can lie
//! before them, and lie in their partition then. No unit begins in a packet that can't be essence. If all units of a
//! partition lie in one packet, its BodyOffset counts from the first byte of that packet's value, and otherwise from
//! its key.
//!
//! What is proved: each answer is its definition over the notes of the catalogue and what is at hand beside them
//! (`unit_of`, `index_sids_of`, `named_index_sids_of`). The laws say more: [`laws::standings_by_definition`], that each
//! standing has its cause, and a unit one standing; [`laws::extents_by_definition`], where the bytes of a unit lie, and
//! for which units that is given; [`laws::entries_by_definition`], what its entry says; [`laws::held_units_are_held`],
//! that a unit which stands as held has each byte held, and [`laws::units_at_hand_are_known`], that one which stands as
//! at hand has each held or at hand; [`laws::units_of_whole_files_are_held`], that the units of a file held whole stand
//! as held; [`laws::next_by_definition`], [`laws::first_packets_by_definition`] and [`laws::limits_by_definition`],
//! what next places, first packets and limits are; [`laws::index_sids_by_definition`] and
//! [`laws::named_index_sids_by_definition`], which indexes there are; [`laws::one_last_unit`], that an index has one
//! last unit at most.
//!
//! The units from `from` up to `to` of an index, whose bytes are all held:
//!
//! ```
//! let at_hand = AtHand::nothing(rt.alloc());
//! let units = Units::of(rt.alloc(), &views, &at_hand, index_sid)?;
//! for number in from..to {
//!     let unit = units.unit(number);
//!     if unit.standing != UnitStanding::Held {
//!         println!(rt; "unit {number} is {}", unit.standing)?;
//!     }
//! }
//! ```
#![tactic(auto)]

mod beside;
mod bounds;
mod constant_units;
mod covers;
mod essence_zone;
mod even_units;
mod first_packet;
mod index_segments;
mod indexes;
mod intervals;
mod last;
pub mod laws;
mod location;
mod next_places;
mod placed;
mod range;
mod repeated;
mod segments;
mod standing;
mod stream;
mod unit;
mod units;

pub use covers::cover_of;
pub use essence_zone::EssenceZone;
pub use essence_zone::part::{StreamPart, parts_of, zone_at};
pub use even_units::{EvenUnits, UnitCounts, lists_units};
pub use first_packet::behind_index;
pub use index_segments::IndexSegments;
pub use indexes::{index_sids, named_index_sids};
pub use last::last_unit;
pub use location::Location;
pub use placed::PlacedUnit;
pub use range::{UnitRange, UnitsLeft, needed_from};
pub use standing::UnitStanding;
pub use unit::{EditUnit, Extent};
pub use units::Units;
