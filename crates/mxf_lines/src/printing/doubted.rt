//! What a check finds and what is in doubt, and the lines of doubts.
ghost use Rattle.std.specs.Prelude.{◌≡◌, IfOk};
ghost use Rattle.mxf_klv.specs.Written.{Puts};
ghost use Rattle.mxf_doubts.specs.Doubts.{doubts_of};
ghost use Rattle.mxf_findings.specs.Findings.{findings_of};
ghost use Rattle.mxf_lines.specs.Answering.{doubt_lines, doubted_lines, doubted_status};
ghost use Rattle.mxf_lines.specs.DoubtLines.{doubt_count_line, doubt_line};
ghost use Rattle.mxf_lines.specs.Printing.{Prints};

use super::AnswerFault;
use super::check::{StopLines, check_status};
use super::lines::{Each, Line, Lines, Printer, Then, print_with_status};
use mxf_doubts::{Doubt, Doubts};
use mxf_findings::findings;
use mxf_forms::FieldWriter;
use mxf_read::Gathered;
use std::alloc::AllocError;
use std::io::Write;

/// Prints what a check prints, and behind it what is in doubt; answers 1 if there is any of these, otherwise 0. Findings and
/// doubts are made before the first line.
pub fn print_doubted<W: Write>(
    printer: &mut Printer,
    writer: &mut W,
    gathered: &Gathered,
) -> Result<u8, AnswerFault>
    ensures lines { Prints printer.old.fields.form
        (Puts W.contents writer.old writer.new printer.old.progress printer.new.progress)
        result (doubted_lines gathered.now.reports gathered.now.views) }
    ensures status { IfOk result (λ status. status
        ≡ doubted_status gathered.now.reports (findings_of gathered.now.views) (doubts_of gathered.now.views)) }
{
    let reports = gathered.reports.as_slice();
    let findings = findings(printer.alloc(), &gathered.views)?;
    let doubts = Doubts::of(printer.alloc(), &gathered.views)?;
    let status = if doubts.is_empty() {
        check_status(reports, &findings)
    } else {
        1
    };
    let lines = Then(Then(Each(StopLines(reports)), &findings), &doubts);
    print_with_status(printer, writer, lines, status)
}

/// A doubt: its code, its offset in bytes, and what the code says.
impl Line for Doubt {
    ghost line = { doubt_line };

    #[tactic(auto, unfolding(crate::specs::DoubtLines::doubt_line))]
    fn write_fields(&self, fields: &mut FieldWriter) -> Result<(), AllocError> {
        fields.begin("doubt", "doubt")?;
        fields.word(" ", "code", self.code)?;
        fields.number(" ", "offset", self.offset)?;
        fields.word(" ", "text", self.code.text())?;
        fields.end("")
    }
}

/// How many doubts there are.
#[derive(Clone, Copy)]
struct CountLine(usize);

impl Line for CountLine {
    ghost line = { λ l. doubt_count_line l.0 };

    #[tactic(auto, unfolding(crate::specs::DoubtLines::doubt_count_line))]
    fn write_fields(&self, fields: &mut FieldWriter) -> Result<(), AllocError> {
        fields.begin("doubts", "doubts")?;
        fields.number(" ", "doubts", self.0)?;
        fields.end("")
    }
}

/// A line for each doubt, and then how many there are.
impl<'a> Lines for &'a Doubts {
    ghost lines = { λ d. doubt_lines d.now };

    fn print_to<W: Write>(self, printer: &mut Printer, writer: &mut W) -> Result<(), AnswerFault> {
        Then(Each(self.as_slice()), CountLine(self.len())).print_to(printer, writer)
    }
}
