//! A file that is held in parts as a picture: its cells, and the ranges of its bytes that stand alike (this project's
//! profile).
//!
//! Both are functions of the content of a catalogue and of the bytes at hand. What is held and where the file ends is
//! asked of mxf_places, the holes and the places that are missing of mxf_restore.
//!
//! What is proved: [`Map::of`] and [`extents`] answer these functions. Each cell of a map has one mark
//! ([`laws::one_mark`]), and of a content two maps of as many cells are one ([`laws::one_map`]). The bytes of a map are
//! cut into the maximal ranges that stand alike ([`laws::byte_standings_by_definition`],
//! [`laws::extents_by_definition`]).
//!
//! That memory is there, and that a call succeeds with it, is tested.
//!
//! The marks of a file in 512 cells:
//!
//! ```
//! let map = Map::of(alloc, &gathered.views, &AtHand::nothing(alloc), 512)?;
//! for mark in map.marks() {
//!     println!(rt; "{mark:?}")?;
//! }
//! ```
#![tactic(auto)]

mod extent;
pub mod laws;
mod map;

pub use extent::{ByteStanding, MapExtent, extents};
pub use map::{Map, Mark};
