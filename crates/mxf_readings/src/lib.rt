//! Several readings of a recording beside each other: which source holds which note, and what all of them hold together
//! (this project's profile).
//!
//! What is proved: [`Readings`] and [`joined`] answer functions of the contents of the sources. The sources of a note
//! are those that have it ([`laws::sources_by_definition`]). What all of them hold is the reduced union of their
//! contents ([`laws::all_notes_by_definition`]).
//!
//! That memory is there, and that a call succeeds with it, is tested.
//!
//! The sources of each note:
//!
//! ```
//! let readings = Readings::of(alloc, &contents)?;
//! for note in readings.all().notes() {
//!     println!(rt; "{} {}", note.offset(), readings.sources_of(note).len())?;
//! }
//! ```
#![tactic(auto)]

mod holding;
pub mod laws;
mod readings;

pub use readings::{Readings, SourceCounts, joined};
