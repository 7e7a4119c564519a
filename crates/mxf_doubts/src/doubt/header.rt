//! Doubts about copies of the header metadata, and about index table segments behind them.
ghost use Rattle.std.specs.Prelude.{◌≡◌, ◌++◌, IfOk, OnOk, flat_map};
ghost use Rattle.mxf_views.specs.Copies.{copies_of};
ghost use Rattle.mxf_doubts.specs.Doubts.{doubts_for};
ghost use Rattle.mxf_doubts.specs.Header.{unreferred};

use super::Code;
use super::asked::Asked;
use super::collected::Collected;
use crate::index_fit::IndexFit;
use crate::labels::first_unlabelled;
use crate::references::unreferred;
use crate::spans::{Spans, lacks_preface};
use mxf_klv::OutOfMemory;
use mxf_views::Views;
use std::alloc::Global;

/// The offsets of the sets of all copies that refer to none.
fn all_unreferred(alloc: Global, views: &Views) -> Result<Vec<u64>, OutOfMemory>
    ensures { IfOk result (λ v. v.items ≡ flat_map (unreferred views.now) (copies_of views.now)) }
{
    let mut offsets = Vec::new(alloc);
    for copy in views.copies() {
        let more = unreferred(alloc, views, copy)?;
        offsets.extend_from_slice(&more)?;
    }
    Ok(offsets)
}

impl Collected {
    /// Finished copies that don't have one Preface.
    pub(super) fn add_copies(&mut self, alloc: Global, asked: &Asked<'_>) -> Result<(), OutOfMemory>
        ensures { OnOk result (self.new ≡ self.old ++ doubts_for Code.G01 asked.now) }
    {
        let sets = Spans::of_sets(alloc, asked.views())?;
        for copy in asked.views().copies() {
            if lacks_preface(&sets, copy) {
                self.add(Code::G01, copy.partition)?;
            }
        }
        Ok(())
    }

    /// Partitions that don't count their index table segments right.
    pub(super) fn add_partitions(
        &mut self,
        alloc: Global,
        asked: &Asked<'_>,
    ) -> Result<(), OutOfMemory>
        ensures { OnOk result (self.new ≡ self.old ++ doubts_for Code.G03 asked.now) }
    {
        let fit = IndexFit::of(alloc, asked.views(), asked.keys())?;
        for partition in asked.views().partitions_in_numbers() {
            if fit.is_misfit(partition) {
                self.add(Code::G03, partition.offset)?;
            }
        }
        Ok(())
    }

    /// Sets that have an item without a label.
    pub(super) fn add_unlabelled(
        &mut self,
        alloc: Global,
        asked: &Asked<'_>,
    ) -> Result<(), OutOfMemory>
        ensures { OnOk result (self.new ≡ self.old ++ doubts_for Code.G10 asked.now) }
    {
        for copy in asked.views().copies() {
            if let Some(offset) = first_unlabelled(alloc, asked.views(), copy)? {
                self.add(Code::G10, offset)?;
            }
        }
        Ok(())
    }

    /// Sets that refer to none.
    pub(super) fn add_unreferred(
        &mut self,
        alloc: Global,
        asked: &Asked<'_>,
    ) -> Result<(), OutOfMemory>
        ensures { OnOk result (self.new ≡ self.old ++ doubts_for Code.G09 asked.now) }
    {
        let offsets = all_unreferred(alloc, asked.views())?;
        for offset in offsets.iter() {
            self.add(Code::G09, *offset)?;
        }
        Ok(())
    }
}
