//! The laws of maps and of ranges that stand alike: functions that do nothing, whose clauses hold of all values.
pub use crate::extent::{byte_standings_by_definition, extents_by_definition};
pub use crate::map::{one_map, one_mark};
