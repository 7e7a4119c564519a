//! The sources of a run: read from its words and lists, opened, and what they hold together or each by itself (this
//! project's profile).
//!
//! | What is asked for | Call |
//! |---|---|
//! | the sources that words and lists name | [`read_lists`], then [`sources_of`] |
//! | what they hold together, with what is put together of bytes at hand | [`hold_sources`], [`hold_opened`] |
//! | the same, with the stops as ends that what is held makes up for | [`settled`] |
//! | what earlier and later sources hold | [`hold_both`], [`hold_sides`] |
//! | how they stand to a reference | [`verify_opened`] |
//! | what each holds by itself | [`read_each`], [`read_all_alone`], [`read_alone`] |
//! | whether what a catalogue replaces holds more | [`is_worth_keeping`] |
//!
//! A skim takes the file of a source as a [`SourceFile`] does: no byte that was appended since it was opened, and by
//! seeking. A slice is taken so by a reading too. What is proved: sources that are opened hold what was gathered of them,
//! each side of a renewal that of its own. What is read of files is tested.
#![tactic(auto)]

mod alone;
mod held;
mod lists;
mod opened;
mod reopened;
mod replaced;
mod sides;
mod source_file;
mod verifying;

pub use alone::{names_of, read_all_alone, read_alone, read_each};
pub use held::{HeldBySources, hold_opened, hold_sources, settled};
pub use lists::{Lists, read_lists, sources_of};
pub use opened::{Opened, open_sources, ungathered};
pub use replaced::is_worth_keeping;
pub use sides::{Later, Sides, hold_both, hold_sides};
pub use source_file::SourceFile;
pub use verifying::verify_opened;
