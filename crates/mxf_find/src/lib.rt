//! Which catalogue knows some bytes, and where they lie in it (this project's profile).
//!
//! A fragment is what is held of bytes whose recording is looked for. A note that no other of its content equals tells:
//! where a telling note of a fragment and one of a recording are of one packet, the first votes for an offset. Where
//! most votes say, the fragment is taken to lie, and the notes that stand there are counted.
//!
//! What is proved: the answer is its definition over the two contents ([`find`], [`laws::one_match`],
//! [`laws::one_most_voted`], [`laws::shifts_are_offsets`]), and telling notes are by the fields of the notes beside
//! them ([`laws::telling_by_definition`]). If a recording without heads has all packets of a fragment at one shift, and
//! one of them tells there, the fragment is found there with all its notes ([`laws::whole_fragments_are_found`]). A
//! ranking has the first 16 of all recordings that were added, in any order ([`Ranking`],
//! [`laws::rankings_by_definition`]). That memory is there, and that a call succeeds with it, is tested.
//!
//! In which of two recordings a fragment lies best:
//!
//! ```
//! let fragment = Fragment::of(alloc, &content, 0)?;
//! let mut ranking = Ranking::new(alloc);
//! for (at, catalogue) in catalogues.iter().enumerate() {
//!     let recording = Recording::of(alloc, catalogue)?;
//!     if let Some(found) = find(alloc, &fragment, &recording)? {
//!         ranking.add(at + 1, found)?;
//!     }
//! }
//! ```
#![tactic(auto)]

mod agreeing;
mod found;
mod fragment;
pub mod laws;
mod packets;
mod ranking;
mod recording;
mod votes;

pub use found::{Match, find};
pub use fragment::Fragment;
pub use ranking::{Ranked, Ranking};
pub use recording::Recording;
