//! The laws of tracks.

pub use crate::keys::{keys_are_of_these_sets, labels_have_these_kinds};
pub use crate::length::{lengths_are_these, lengths_by_definition};
pub use crate::package::{
    components_begin_behind_those_before, containers_are_those_that_sets_name,
    each_set_is_read_once, each_target_is_by_the_references_before,
    packages_are_of_the_kind_of_their_notes, what_is_found_is_read_there,
};
pub use crate::timecode::{
    days_have_these_labels, each_label_has_its_number, each_number_has_its_label,
};
