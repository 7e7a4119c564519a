//! What is asked of places in a file that is held in parts: which offsets are held and how far the file reaches, and
//! what packs say of offsets (ST 377-1, Partition Pack and Random Index Pack; reasons, stretches and what is disputed
//! are this project's profile).
//!
//! All of these are functions of the content of a catalogue. What to restore next, the map, and where edit units lie
//! are made of them, each in a crate of its own above.
//!
//! | Question | Call | Answer |
//! |---|---|---|
//! | Is an offset held, and is what is held there disputed? | [`Holdings::of`], then [`Holdings::is_held`],
//! [`Holdings::is_disputed_at`] | whether some packet covers it, and whether a disputed one does |
//! | Is any offset of a range, or are all? | [`Holdings::is_any_held`], [`Holdings::are_all_held`],
//! [`Holdings::is_any_disputed`] | the same from a start up to an end |
//! | Where does the file end? | [`Holdings::end`], [`Holdings::edge`], [`Holdings::held_end`] | its end if it is
//! known; how far it reaches as far as that is known; the first offset above all that is held |
//! | Which bytes are at hand beside that? | [`AtHand`], [`AtHand::lacking`] | which offsets sources give, and at which
//! they don't differ; the ranges that aren't |
//! | Where does one come to after fills? | [`Holdings::over_fills`] | an offset |
//! | Is it known what begins at an offset? | [`Holdings::is_unknown`], [`Holdings::begins_clear_head`] | whether it
//! isn't; whether a head does whose rest isn't held |
//! | Where does a packet begin whose rest is the bytes from an offset on? | [`Heads::of`], then [`Heads::around`],
//! [`Heads::ending_at`] | the first of the heads whose key and length end there, and what they claim; all of them |
//! | Where do header metadata and index table segments of a partition lie? | [`zone_of`], [`behind_metadata`] |
//! [`Stretch`] of a [`Zone`]; the offset after the header metadata |
//! | What do packs say of offsets? | [`claims`] | each [`Claim`] with its [`Reason`], by reason and then source |
//!
//! What is proved: each call answers its function of the notes of the catalogue. The laws say what these are in the
//! words of the standards: [`laws::held_by_definition`], what is held and what is disputed, where the file ends, what
//! may lie in it, and at which offsets it isn't known what begins; [`laws::edges_by_definition`], how far it reaches;
//! [`laws::lacking_by_definition`], which ranges a set of offsets lacks; [`laws::fills_by_definition`], where one comes
//! to by going on over fills; [`laws::zones_by_definition`], where the stretches lie that a partition counts;
//! [`laws::claims_by_definition`], what packs claim of offsets; and [`laws::claims_in_order`], in which order, and
//! which claim of an offset goes first.
//!
//! The places that packs name and that aren't held:
//!
//! ```
//! let holdings = Holdings::of(alloc, &views)?;
//! for claim in claims(alloc, &holdings)? {
//!     if let Some(place) = claim.named_place() {
//!         if holdings.is_in_file(place) && !holdings.is_held(place) {
//!             println!(rt; "{} at {place}", claim.reason)?;
//!         }
//!     }
//! }
//! ```
#![tactic(auto)]

mod at_hand;
mod claim;
mod fills;
mod heads;
mod held;
pub mod laws;
mod reason;
mod stretch;

pub use at_hand::{AtHand, OffsetRange, ranges_lacking, up_to_bound};
pub use claim::{Claim, claims};
pub use heads::{Head, Heads};
pub use held::Holdings;
pub use reason::Reason;
pub use stretch::{Stretch, Zone, behind_metadata, zone_of};
