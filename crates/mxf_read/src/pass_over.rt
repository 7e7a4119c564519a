//! Readers that can pass over bytes.
ghost use Rattle.std.specs.Prelude.{◌<◌};
ghost use Rattle.mxf_read.specs.Skimming.{PassesOver};

use std::io::{self, Read};

/// A reader that can pass over bytes without reading them, as one of a file can that seeks.
pub trait PassOver: Read {
    /// Passes over as many of the next `count` bytes as it can, and says how many: none only at the end. A call that
    /// fails passes over none.
    fn pass_over(&mut self, count: u64) -> io::Result<u64>
        requires { 0 < count }
        ensures { PassesOver (Self.remaining self.old) (Self.remaining self.new) count result };
}
