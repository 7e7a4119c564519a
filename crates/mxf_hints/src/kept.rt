//! That a catalogue was kept that another replaced.
use std::fmt;

/// A catalogue that holds more than the one that takes its place, or would take it, and the path at which it is kept.
#[derive(Clone, Copy)]
pub struct KeptHint<'a> {
    pub path: &'a str,
    pub kept: &'a str,
    /// Nothing is saved, so it would be kept there.
    pub is_dry: bool,
}

impl fmt::Display for KeptHint<'_> {
    fn fmt<W: fmt::Write>(&self, f: &mut fmt::Formatter<W>) -> fmt::Result {
        f.write_str("hint: ")?;
        f.write_str(self.path)?;
        f.write_str(if self.is_dry {
            " holds packets that the new one lacks: it would be kept, as cat:"
        } else {
            " held packets that the new one lacks: it is kept, as cat:"
        })?;
        f.write_str(self.kept)
    }
}
