//! The laws of findings and of small files.

pub use crate::finding::findings_by_definition;
pub use crate::same_views::views_let_go_of_disputed_notes;
pub use crate::small_files::{
    an_indexed_file_is_read_from_the_front, each_condition_of_well_formed_files_refuses_a_file,
    shared_rules_are_these, small_files_are_well_formed_or_not, small_files_have_their_bytes,
    two_copies_are_read_from_the_front,
};
