//! The sets that were reached, so that each is followed once.
ghost use Rattle.std.specs.Prelude.{◌≡◌, [], OnOk};
ghost use Rattle.mxf_tracks.specs.Targets.{is_reached, with_reached};

use mxf_klv::OutOfMemory;
use std::alloc::Global;
use std::collections::BTreeSet;
use std::marker::Model;

/// The file offsets, in bytes, of the sets that references have reached.
#[derive(Drop)]
pub(crate) struct Reached {
    offsets: BTreeSet<u64>,
}

impl Model for Reached {
    ghost use Rattle.std.specs.Prelude.{ℕ, List};

    ghost Value = { List ℕ };

    ghost view = { λ r. r.offsets.keys };
}

impl Reached {
    /// None.
    pub fn new(alloc: Global) -> Reached
        ensures { result ≡ [] }
    {
        Reached {
            offsets: BTreeSet::new(alloc),
        }
    }

    /// Whether the set at an offset was reached.
    pub fn has(&self, offset: u64) -> bool
        ensures { result ≡ is_reached offset self.now }
    {
        self.offsets.contains(&offset)
    }

    /// Notes that it is.
    pub fn add(&mut self, offset: u64) -> Result<(), OutOfMemory>
        ensures { OnOk result (self.new ≡ with_reached offset self.old) }
    {
        self.offsets.insert(offset)?;
        Ok(())
    }
}
