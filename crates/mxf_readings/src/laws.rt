//! The laws of readings: functions that do nothing, whose clauses hold of all values.
pub use crate::readings::{all_notes_by_definition, sources_by_definition};
