//! What was noted of the pieces of a run.
ghost use Rattle.std.specs.Prelude.{◌≡◌, ◌++◌, ◌∷◌, [], OnOk};

use crate::report::Report;
use mxf_klv::OutOfMemory;
use std::alloc::Global;
use std::marker::Model;

/// What was noted of a piece.
#[derive(Clone, Copy, Debug, PartialEq, Eq)]
pub struct PieceReport {
    /// The number of the part whose piece it is, among those of a run, counted from 0.
    pub part: usize,
    /// The file offset of the piece's first byte.
    pub offset: u64,
    pub report: Report,
}

/// The reports of pieces, in their order.
#[derive(Drop)]
pub struct PieceReports {
    items: Vec<PieceReport>,
}

impl Model for PieceReports {
    ghost use Rattle.std.specs.Prelude.{List};
    ghost use Rattle.mxf_read.specs.declared.gathering.report.PieceReport.{PieceReport};

    ghost Value = { List PieceReport };

    ghost view = { λ r. r.items.items };
}

impl PieceReports {
    /// No report.
    pub(super) fn new(alloc: Global) -> PieceReports
        ensures { result ≡ [] }
    {
        PieceReports {
            items: Vec::new(alloc),
        }
    }

    /// Adds the report of a piece at the end.
    pub(super) fn push(&mut self, report: PieceReport) -> Result<(), OutOfMemory>
        ensures { OnOk result (self.new ≡ self.old ++ report ∷ []) }
    {
        self.items.push(report)?;
        Ok(())
    }

    /// The reports.
    pub fn as_slice(&self) -> &[PieceReport]
        ensures { result.now ≡ self.now }
    {
        self.items.as_slice()
    }

    /// These reports, in their order.
    pub fn of(items: Vec<PieceReport>) -> PieceReports
        ensures { result ≡ items.items }
    {
        PieceReports { items }
    }

    /// The reports, as a vector that can be changed.
    pub fn into_vec(self) -> Vec<PieceReport>
        ensures { result.items ≡ self }
    {
        self.items
    }
}
