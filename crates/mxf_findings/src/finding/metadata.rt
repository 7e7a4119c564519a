//! Findings of the header metadata: copies, sets and references.
ghost use Rattle.std.specs.Prelude.{◌≡◌, ◌++◌, OnOk, map};
ghost use Rattle.mxf_findings.specs.Codes.{finding};
ghost use Rattle.mxf_findings.specs.Findings.{findings_for, is_found, is_partial, lost_at, lost_behind, lost_by};

use super::Code;
use super::collected::Collected;
use mxf_klv::OutOfMemory;
use mxf_references::{Ref, Resolved, Target, resolved};
use mxf_views::{CopyInfo, Views};
use std::alloc::Global;

/// Whether the copy has no start, or isn't finished.
fn is_partial(copy: &CopyInfo) -> bool
    ensures { result ≡ is_partial copy.now }
{
    copy.start.is_none() || !copy.finished
}

fn is_found(target: Target) -> bool
    ensures { result ≡ is_found target }
{
    matches!(&target, Target::Found(_))
}

impl Collected {
    /// Copies that aren't whole.
    pub(super) fn add_copies(&mut self, views: &Views) -> Result<(), OutOfMemory>
        ensures { OnOk result (self.new ≡ self.old ++ findings_for Code.F09 views.now) }
    {
        for copy in views.copies() {
            if is_partial(copy) {
                self.add(Code::F09, copy.partition)?;
            }
        }
        Ok(())
    }

    /// References of the preferred copy that lead to no readable set of their kind.
    pub(super) fn add_references(&mut self, alloc: Global, views: &Views) -> Result<(), OutOfMemory>
        ensures { OnOk result (self.new ≡ self.old ++ findings_for Code.F13 views.now) }
    {
        match resolved(alloc, views)? {
            Some(resolved) => self.add_resolved(&resolved),
            None => Ok(()),
        }
    }

    fn add_resolved(&mut self, resolved: &Resolved) -> Result<(), OutOfMemory>
        ensures { OnOk result (self.new ≡ self.old ++ map (finding Code.F13) (lost_by resolved.now)) }
    {
        let preface = resolved.preface;
        self.add_lost(preface, resolved.identifications.as_slice())?;
        match resolved.storage {
            Some(storage) => {
                self.add_behind(preface, storage.target, resolved.packages.as_slice())
            }
            None => Ok(()),
        }
    }

    /// By what the reference of a Preface to the storage leads to: those of the storage to the packages that aren't
    /// found, or this one.
    fn add_behind(
        &mut self,
        preface: u64,
        storage: Target,
        packages: &[Ref],
    ) -> Result<(), OutOfMemory>
        ensures { OnOk result (self.new ≡ self.old
            ++ map (finding Code.F13) (lost_behind preface storage packages.now)) }
    {
        match storage {
            Target::Found(offset) => self.add_lost(offset, packages),
            _ => self.add(Code::F13, preface),
        }
    }

    /// The references that a set holds and that aren't found, at the offset of the set.
    fn add_lost(&mut self, offset: u64, references: &[Ref]) -> Result<(), OutOfMemory>
        ensures { OnOk result (self.new ≡ self.old
            ++ map (finding Code.F13) (lost_at offset references.now)) }
    {
        for reference in references {
            if !is_found(reference.target) {
                self.add(Code::F13, offset)?;
            }
        }
        Ok(())
    }
}
