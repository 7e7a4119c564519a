//! Whether values are read.

/// Whether the values of a container's packets are read.
#[derive(Clone, Copy, Debug, PartialEq, Eq)]
pub enum Scan {
    /// They are read, and their digests are noted.
    Full,
    /// They are passed over.
    Skim,
}
