//! The laws of the views, each of which stands beside the call that it is of.

pub use crate::chain::{chain_by_definition, links_by_definition};
pub use crate::copy::sets::{set_items_by_definition, sets_by_definition};
pub use crate::copy::{
    copies_by_definition, covered_counts_offsets, preferred_by_definition,
    primer_for_by_definition, starts_by_definition,
};
pub use crate::gap::gaps_by_definition;
pub use crate::index::place::places_by_definition;
pub use crate::index::segments_by_definition;
pub use crate::partition::partitions_by_definition;
pub use crate::random_index::{rip_views_by_definition, standings_by_definition};
pub use crate::views::added_notes_dispute_what_they_touch;
pub use crate::whole_file::{
    well_formed_files_are_read_whole, whole_files_have_their_copies, whole_files_have_their_index,
    whole_files_have_their_partitions, whole_files_have_their_random_index,
};
