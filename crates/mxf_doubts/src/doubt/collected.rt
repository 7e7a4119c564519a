//! Doubts as their causes are gone over, in any order, some more than once.
ghost use Rattle.std.specs.Prelude.{◌≡◌, ◌++◌, ◌∷◌, [], OnOk};
ghost use Rattle.mxf_klv.specs.Rising.{union};
ghost use Rattle.mxf_doubts.specs.Codes.{doubt, doubt_cmp};

use super::{Code, Doubt, Doubts};
use mxf_klv::{OutOfMemory, sort_once};
use std::alloc::Global;
use std::marker::Model;

/// The doubts of the causes so far, one after another.
#[derive(Drop)]
pub(super) struct Collected {
    items: Vec<Doubt>,
}

impl Model for Collected {
    ghost use Rattle.std.specs.Prelude.{List};
    ghost use Rattle.mxf_doubts.specs.declared.doubt.Doubt.{Doubt};

    ghost Value = { List Doubt };

    ghost view = { λ c. c.items.items };
}

impl Collected {
    pub fn new(alloc: Global) -> Collected
        ensures { result ≡ [] }
    {
        Collected {
            items: Vec::new(alloc),
        }
    }

    /// Adds the doubt of the code at an offset.
    pub fn add(&mut self, code: Code, offset: u64) -> Result<(), OutOfMemory>
        ensures { OnOk result (self.new ≡ self.old ++ doubt code offset ∷ []) }
    {
        match self.items.push(Doubt { offset, code }) {
            Ok(()) => Ok(()),
            Err(_) => Err(OutOfMemory),
        }
    }

    /// The doubts in their order, none twice.
    pub fn into_doubts(mut self) -> Doubts
        ensures { result ≡ union doubt_cmp [] self }
    {
        sort_once(&mut self.items);
        Doubts { items: self.items }
    }
}
