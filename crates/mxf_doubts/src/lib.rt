//! What damage leaves and ordinary writers don't write: doubts, and the parts of which they are made (this project's
//! profile). A doubt is never certain.
//!
//! | Question | Call | Answer |
//! |---|---|---|
//! | What is in doubt? | [`Doubts::of`] | each [`Code`] with its offset |
//! | Has no other note the key of one, but for the version? | [`Keys::of`], then [`Keys::is_lone`] | whether it is alone |
//! | Is a packet one that no standard knows and nobody else writes? | [`Keys::is_strange`] | whether it is |
//! | Is it dark data? | [`Keys::is_dark`] | whether it is |
//! | Does it lie in an essence container? | [`is_container_packet`] | whether it does |
//! | Does it lie wholly in the bytes of a finished copy of the header metadata? | [`SoundZones::of`], then [`SoundZones::has`] |
//! whether it does |
//! | Does a finished copy begin with it? | [`SoundZones::begins_with`] | whether it is the primer pack of one |
//! | Has a set an item that sets of its class don't have? | [`is_misfit`] | whether it has |
//!
//! Whether an edit unit has the packets that others have isn't asked yet. Each call's clause says that its answer is a function of
//! the notes; the laws say what the functions are in the words of notes, copies, items and units
//! ([`laws::doubts_by_definition`]). Keys, zones and numbers of tracks are listed once, in n log n steps of what is held, and each
//! question is a search or two. Of the units of an index those are asked that a segment lists, at which one begins or ends, and that
//! begin first behind the start of a packet: a law says that the others tell nothing more.
//!
//! ```
//! let keys = Keys::of(alloc, views.catalogue())?;
//! let zones = SoundZones::of(alloc, &views)?;
//! for note in views.catalogue().clear() {
//!     if keys.is_strange(note) && !zones.has(note) {
//!         println!(rt; "a strange packet at {}", note.offset())?;
//!     }
//! }
//! ```
#![tactic(auto)]

mod classes;
mod doubt;
mod doubt_laws;
mod index_fit;
mod labels;
pub mod laws;
mod orderly;
mod references;
mod sizes;
mod sound;
mod spans;
mod starts;
mod strange;
mod stream_ends;
#[cfg(test)]
mod tests;
mod tracks;

pub use classes::is_misfit;
pub use doubt::{Code, Doubt, Doubts};
pub use sound::SoundZones;
pub use strange::{Keys, is_container_packet};
