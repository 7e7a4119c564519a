//! What a source says of the notes of a reference.
use mxf_klv::Note;

/// The notes of a reference that a source has, and those that differ there, each in their order.
#[derive(Drop)]
pub(crate) struct Told<'a> {
    pub same: Vec<&'a Note>,
    pub differing: Vec<&'a Note>,
}
