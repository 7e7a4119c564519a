//! The lines of a piece and of a join.
ghost use Rattle.std.specs.Prelude.{◌≡◌, ◌+◌, IfOk, length};
ghost use Rattle.mxf_catalogue.specs.Disputes.{disputed_notes};
ghost use Rattle.mxf_lines.specs.Lines.{join_line, piece_line, stop_fields};
ghost use Rattle.mxf_forms.specs.Writing.{with_fields};

use super::{AllocError, Line};
use mxf_catalogue::Catalogue;
use mxf_forms::FieldWriter;
use mxf_klv::Stop;
use mxf_read::PieceReport;

/// Writes a stop: its word, and the offset where it has one.
pub fn write_stop(fields: &mut FieldWriter, before: &str, stop: Stop) -> Result<(), AllocError>
    ensures { IfOk result (λ _. fields.new ≡ with_fields (stop_fields before.now stop) fields.old) }
{
    fields.word(before, "stop", stop)?;
    match stop {
        Stop::End => Ok(()),
        Stop::NotUl(at)
        | Stop::BadLength(at)
        | Stop::TooFar(at)
        | Stop::Truncated(at)
        | Stop::NoStart(at) => fields.number(" ", "at", at),
    }
}

/// The number of the source whose piece was reported, counted from 1.
pub fn source_of(report: &PieceReport) -> u128
    ensures { result ≡ report.now.part + 1 }
{
    report.part as u128 + 1
}

/// A piece: its offset in bytes, the number of its whole packets, why they end, and of which source it is.
impl Line for PieceReport {
    ghost line = { piece_line };

    #[tactic(auto, unfolding(crate::specs::Lines::piece_line))]
    fn write_fields(&self, fields: &mut FieldWriter) -> Result<(), AllocError> {
        fields.begin("piece", "piece")?;
        fields.number(" ", "offset", self.offset)?;
        fields.number(" noted ", "noted", self.report.noted)?;
        write_stop(fields, " stop ", self.report.stop)?;
        fields.number_member("source", source_of(self))?;
        fields.end("")
    }
}

/// The content of a join: the number of notes, and how many of them are disputed.
#[derive(Clone, Copy)]
pub struct JoinLine<'a>(pub &'a Catalogue);

impl<'a> Line for JoinLine<'a> {
    ghost line = { λ l. join_line (length l.0.now) (length (disputed_notes l.0.now)) };

    #[tactic(auto, unfolding(crate::specs::Lines::join_line))]
    fn write_fields(&self, fields: &mut FieldWriter) -> Result<(), AllocError> {
        fields.begin("joined", "joined")?;
        fields.number(" ", "notes", self.0.len())?;
        fields.number(" notes ", "disputed", self.0.disputed().count())?;
        fields.end(" disputed")
    }
}
