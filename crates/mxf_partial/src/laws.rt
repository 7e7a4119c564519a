//! The laws of plans for edit units: functions that do nothing, whose clauses hold of all values.
pub use crate::many::one_many;
pub use crate::plan::{
    metadata_plan_by_definition, one_unit_plan, orders_of_units_are_missing, wanted_bytes_are_there,
};
