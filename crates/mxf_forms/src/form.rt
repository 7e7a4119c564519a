//! How lines are printed.
/// How lines are printed.
#[derive(Clone, Copy, Debug, PartialEq, Eq)]
pub enum Form {
    /// As words, for people and scripts.
    Text,
    /// Each as a JSON object (RFC 8259), for programs.
    Json,
}
