//! The laws of edit units and of indexes: functions that do nothing, whose clauses hold of all values.
pub use crate::essence_zone::limits_by_definition;
pub use crate::even_units::even_units_by_definition;
pub use crate::first_packet::first_packets_by_definition;
pub use crate::indexes::{index_sids_by_definition, named_index_sids_by_definition};
pub use crate::last::one_last_unit;
pub use crate::segments::next_by_definition;
pub use crate::units::{
    entries_by_definition, extents_by_definition, held_units_are_held, standings_by_definition,
    units_at_hand_are_known, units_of_whole_files_are_held,
};
