//! The laws of what is held, at hand and claimed: functions that do nothing, whose clauses hold of all values.
pub use crate::at_hand::lacking_by_definition;
pub use crate::claim::{claims_by_definition, claims_in_order};
pub use crate::fills::fills_by_definition;
pub use crate::held::{edges_by_definition, held_by_definition};
pub use crate::stretch::zones_by_definition;
