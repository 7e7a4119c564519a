//! The laws of sections, orders, fronts and disputes: functions that do nothing, whose clauses hold of all values.
pub use crate::disputes::disputes_by_definition;
pub use crate::named::missing_places_by_definition;
pub use crate::order::{asked_by_definition, fronts_by_definition};
pub use crate::plan::{
    disputed_places_by_definition, gaps_are_ordered, last_pieces_by_definition, orders_are_missing,
    orders_by_definition, orders_where_nothing_is_at_hand, starts_are_apart,
    whole_files_have_no_order,
};
pub use crate::section::{holes_by_definition, sections_by_definition};
