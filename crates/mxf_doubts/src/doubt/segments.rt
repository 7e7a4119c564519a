//! Doubts about index table segments and the essence that they index.
ghost use Rattle.std.specs.Prelude.{◌≡◌, ◌++◌, OnOk};
ghost use Rattle.mxf_doubts.specs.Doubts.{doubts_for};

use super::Code;
use super::asked::Asked;
use super::collected::Collected;
use crate::starts::missed_starts;
use crate::stream_ends::StreamEnds;
use mxf_klv::OutOfMemory;
use std::alloc::Global;

impl Collected {
    /// Segments that give a unit a place behind the end of the essence.
    pub(super) fn add_behind(&mut self, alloc: Global, asked: &Asked<'_>) -> Result<(), OutOfMemory>
        ensures { OnOk result (self.new ≡ self.old ++ doubts_for Code.G11 asked.now) }
    {
        let ends = StreamEnds::of(alloc, asked.views())?;
        for segment in asked.views().segments() {
            if ends.is_behind_end(&segment) {
                self.add(Code::G11, segment.offset)?;
            }
        }
        Ok(())
    }

    /// Units that miss their packets.
    pub(super) fn add_missed(&mut self, alloc: Global, asked: &Asked<'_>) -> Result<(), OutOfMemory>
        ensures { OnOk result (self.new ≡ self.old ++ doubts_for Code.G04 asked.now) }
    {
        let offsets = missed_starts(alloc, asked.views())?;
        for offset in offsets.iter() {
            self.add(Code::G04, *offset)?;
        }
        Ok(())
    }
}
