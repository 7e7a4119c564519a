//! Findings as their causes are gone over, in any order, some more than once.
ghost use Rattle.std.specs.Prelude.{◌≡◌, ◌++◌, ◌∷◌, [], OnOk};
ghost use Rattle.mxf_klv.specs.Rising.{union};
ghost use Rattle.mxf_findings.specs.Codes.{finding, finding_cmp};

use super::{Code, Finding, Findings};
use mxf_klv::{OutOfMemory, sort_once};
use std::alloc::Global;
use std::marker::Model;

/// The findings of the causes so far, one after another.
#[derive(Drop)]
pub(super) struct Collected {
    items: Vec<Finding>,
}

impl Model for Collected {
    ghost use Rattle.std.specs.Prelude.{List};
    ghost use Rattle.mxf_findings.specs.declared.finding.Finding.{Finding};

    ghost Value = { List Finding };

    ghost view = { λ c. c.items.items };
}

impl Collected {
    pub fn new(alloc: Global) -> Collected
        ensures { result ≡ [] }
    {
        Collected {
            items: Vec::new(alloc),
        }
    }

    /// Adds the finding of the code at an offset.
    pub fn add(&mut self, code: Code, offset: u64) -> Result<(), OutOfMemory>
        ensures { OnOk result (self.new ≡ self.old ++ finding code offset ∷ []) }
    {
        match self.items.push(Finding { offset, code }) {
            Ok(()) => Ok(()),
            Err(_) => Err(OutOfMemory),
        }
    }

    /// The findings in their order, none twice.
    pub fn into_findings(mut self) -> Findings
        ensures { result ≡ union finding_cmp [] self }
    {
        sort_once(&mut self.items);
        Findings { items: self.items }
    }
}
