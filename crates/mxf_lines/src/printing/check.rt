//! What a check finds, and its lines.
ghost use Rattle.std.specs.Prelude.{◌≡◌, IfOk, length, flat_map};
ghost use Rattle.std.specs.List.{list_all};
ghost use Rattle.mxf_klv.specs.Written.{Puts};
ghost use Rattle.mxf_findings.specs.Findings.{findings_of};
ghost use Rattle.mxf_lines.specs.Answering.{check_lines, check_status, finding_lines, is_end, stop_lines};
ghost use Rattle.mxf_lines.specs.FindingLines.{count_line, finding_line, stop_line};
ghost use Rattle.mxf_lines.specs.Printing.{Prints};

use super::AnswerFault;
use super::line::{source_of, write_stop};
use super::lines::{Each, Line, Lines, Printer, Series, Then, print_with_status, take_first};
use mxf_findings::{Finding, Findings, findings};
use mxf_forms::FieldWriter;
use mxf_klv::Stop;
use mxf_read::{Gathered, PieceReport};
use std::alloc::AllocError;
use std::io::Write;

/// Prints the pieces that don't end with a packet, and what is found wrong or missing; answers 1 if there is any of
/// these, otherwise 0. The findings are made before the first line.
pub fn print_checked<W: Write>(
    printer: &mut Printer,
    writer: &mut W,
    gathered: &Gathered,
) -> Result<u8, AnswerFault>
    ensures lines { Prints printer.old.fields.form
        (Puts W.contents writer.old writer.new printer.old.progress printer.new.progress)
        result (check_lines gathered.now.reports gathered.now.views) }
    ensures status { IfOk result (λ status.
        status ≡ check_status gathered.now.reports (findings_of gathered.now.views)) }
{
    let reports = gathered.reports.as_slice();
    let findings = findings(printer.alloc(), &gathered.views)?;
    let status = check_status(reports, &findings);
    let lines = Then(Each(StopLines(reports)), &findings);
    print_with_status(printer, writer, lines, status)
}

/// 0 if all pieces end with a packet and nothing is found, otherwise 1.
pub fn check_status(reports: &[PieceReport], findings: &Findings) -> u8
    ensures { result ≡ check_status reports.now findings.now }
{
    u8::from(!(all_end(reports) && findings.len() == 0))
}

/// Whether all pieces end with a packet.
fn all_end(reports: &[PieceReport]) -> bool
    ensures { result ≡ list_all (λ r. is_end r.report.stop) reports.now }
{
    reports.iter().all(|piece| is_end(piece.report.stop))
}

/// Where a piece begins that doesn't end with a packet, in bytes, why it ends, and of which source it is.
#[derive(Clone, Copy)]
pub struct StopLine(PieceReport);

impl Line for StopLine {
    ghost line = { λ l. stop_line l.0 };

    #[tactic(auto, unfolding(crate::specs::FindingLines::stop_line))]
    fn write_fields(&self, fields: &mut FieldWriter) -> Result<(), AllocError> {
        fields.begin("stop", "stop")?;
        fields.number(" ", "offset", self.0.offset)?;
        write_stop(fields, " ", self.0.report.stop)?;
        fields.number_member("source", source_of(&self.0))?;
        fields.end("")
    }
}

/// Whether a piece ends with a packet.
fn is_end(stop: Stop) -> bool
    ensures { result ≡ is_end stop }
{
    matches!(stop, Stop::End)
}

/// A line for each piece that doesn't end with a packet.
#[derive(Clone, Copy)]
pub struct StopLines<'a>(pub &'a [PieceReport]);

impl<'a> Series for StopLines<'a> {
    type Item = Option<StopLine>;

    ghost lines_left = { λ s. flat_map stop_lines s.0.now };

    ghost left = { λ s. length s.0.now };

    fn next_item(&mut self) -> Option<Option<StopLine>> {
        let piece = take_first(&mut self.0)?;
        Some((!is_end(piece.report.stop)).then_some(StopLine(piece)))
    }
}

/// A finding: its code, its offset in bytes, and what the code says.
impl Line for Finding {
    ghost line = { finding_line };

    #[tactic(auto, unfolding(crate::specs::FindingLines::finding_line))]
    fn write_fields(&self, fields: &mut FieldWriter) -> Result<(), AllocError> {
        fields.begin("finding", "")?;
        fields.word("", "code", self.code)?;
        fields.number(" ", "offset", self.offset)?;
        fields.word(" ", "text", self.code.text())?;
        fields.end("")
    }
}

/// How many findings there are.
#[derive(Clone, Copy)]
struct CountLine(usize);

impl Line for CountLine {
    ghost line = { λ l. count_line l.0 };

    #[tactic(auto, unfolding(crate::specs::FindingLines::count_line))]
    fn write_fields(&self, fields: &mut FieldWriter) -> Result<(), AllocError> {
        fields.begin("findings", "findings")?;
        fields.number(" ", "findings", self.0)?;
        fields.end("")
    }
}

/// A line for each finding, and then how many there are.
impl<'a> Lines for &'a Findings {
    ghost lines = { λ f. finding_lines f.now };

    fn print_to<W: Write>(self, printer: &mut Printer, writer: &mut W) -> Result<(), AnswerFault> {
        Then(Each(self.as_slice()), CountLine(self.len())).print_to(printer, writer)
    }
}
