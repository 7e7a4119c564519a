//! The set of notes that partial reads of a file have given, with its disputes and its joins (this project's profile).
//!
//! What is proved, and where it is said:
//! - each call's answer and what it leaves: the clauses of [`Catalogue`], [`Cover`] and [`Semilattice`];
//! - what any history of calls leaves is the set that it was handed, and equal sets are equal contents:
//!   [`laws::histories_leave_what_they_were_handed`], [`laws::one_set_one_content`], [`laws::contents_are_sets`];
//! - clear and disputed notes are by spans and membership: [`laws::clear_notes_by_definition`],
//!   [`laws::disputed_notes_by_definition`], [`laws::notes_are_clear_or_disputed`],
//!   [`laws::notes_are_disputed_in_two_ways`], [`laws::clear_notes_stand_apart`],
//!   [`laws::undisputed_notes_by_definition`];
//! - a new note moves exactly the clear notes that it disputes: [`laws::moved_notes_by_definition`];
//! - covers are their sets of offsets, each as one list of maximal runs: [`laws::covers_are_sets`],
//!   [`laws::gaps_of_covers_by_definition`], [`laws::one_list_of_maximal_runs`];
//! - joins are associative, commutative and idempotent on contents: the laws of [`Semilattice`];
//! - bytes are read as the file of one content, or refused for one cause, and what is written is read back:
//!   [`Catalogue::read`], [`laws::bytes_are_a_file_or_refused`], [`laws::one_file_reading`], [`laws::one_file`],
//!   [`laws::files_are_read_as_written`]; the file has two versions, and a content without heads has one file of each:
//!   [`laws::files_of_both_versions`].
//!
//! That memory is there, and that a call succeeds with it, is tested.
//!
//! Two readings of a recording, joined:
//!
//! ```
//! let mut morning = Catalogue::new(alloc);
//! morning.add(note)?;
//! let all = Catalogue::join(alloc, &morning, &evening)?;
//! for disputed in all.disputed() {
//!     // disputed.note, disputed.same_offset, disputed.overlaps
//! }
//! ```
#![tactic(auto)]

mod catalogue;
mod cover;
mod history;
pub mod laws;
mod run;
mod semilattice;

pub use catalogue::{
    AddFault, Catalogue, Change, ClearNotes, Disputed, DisputedNotes, FileFault, MergeFault, Notes,
    Offsets,
};
pub use cover::{Cover, CoverGaps, CoverRuns};
pub use run::Run;
pub use semilattice::Semilattice;
