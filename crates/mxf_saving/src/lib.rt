//! The files that a run names: its sources, what a file begins with, and saving a catalogue so that what stood there
//! before is never lost (this project's profile).
//!
//! A [`Source`] is a word that names a file, or a slice of one, and says what its bytes are. A [`Reservation`] is the
//! place of a catalogue, held from before the sources are read until it is saved. [`refusal_of`] says where none is
//! saved: into standard output, over a file of a source, and over what is neither empty nor a catalogue.
//!
//! What is proved: [`parse_source`] reads just the words that name a source, and answers the fault of each other
//! ([`laws::one_source`]). A file that begins with a label is never replaced, nor is any other but a catalogue and an
//! empty one. What takes the place of a file is the file of the catalogue, whole, and it is written beside it under the
//! name of its definition. A file of others takes over no set-id bits. What a [`WatchedWriter`] writes is what it is
//! handed. What the system does with files is tested.
//!
//! A catalogue that takes the place of a file:
//!
//! ```
//! let place = Reservation::take(rt, "clip.cat", false)?;
//! place.save(rt, &catalogue, false)?;
//! ```
#![tactic(auto)]

mod attributes;
mod beginning;
mod destination;
mod fault;
mod kept;
pub mod laws;
mod part_file;
mod refusal;
mod reservation;
mod same_file;
mod source;
mod standard_output;
mod system_fault;
mod watched_writer;

pub use beginning::Beginning;
pub use fault::SaveFault;
pub use kept::{holds_more, is_other_catalogue};
pub use refusal::{OutputRefusal, refusal_of};
pub use reservation::{Reservation, ReservedFile};
pub use source::{Source, SourceWordFault, begins_with_scheme, parse_source};
pub use system_fault::{LastFault, NOT_FOUND, SystemFault, TOO_MANY_FILES};
pub use watched_writer::{BUFFER_BYTES, WatchedWriter};
