//! The laws of clocks.

pub use crate::choices::choices_by_definition;
pub use crate::clocks::{no_more_runs_than_clips_and_files, positions_are_shown_at_their_numbers};
