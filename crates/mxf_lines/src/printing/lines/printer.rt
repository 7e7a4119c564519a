//! Lines that are written one after another.
ghost use Rattle.std.specs.Prelude.{◌≡◌, ◌^◌, ◌<◌, [], ◌∷◌, IfOk, OnOk};
ghost use Rattle.mxf_klv.specs.Written.{Puts};
ghost use Rattle.mxf_forms.specs.Forms.{PrintedLine, line_in};
ghost use Rattle.mxf_lines.specs.Printing.{Prints};
ghost use Rattle.mxf_forms.specs.Writing.{with_line, written};

use super::Lines;
use crate::printing::AnswerFault;
use mxf_forms::{FieldWriter, Form};
use mxf_klv::Progress;
use std::alloc::{AllocError, Global};
use std::io::Write;

/// Lines that are written in a form one after another, each made in the same text.
#[derive(Drop)]
pub struct Printer {
    alloc: Global,
    progress: Progress,
    fields: FieldWriter,

    ghost in_range: { progress.written < 2 ^ 64 },
}

impl Printer {
    /// No line is written yet.
    pub fn new(alloc: Global, form: Form) -> Printer
        ensures written { result.progress.written ≡ 0 }
        ensures form { result.fields.form ≡ form }
    {
        Printer {
            alloc,
            progress: Progress::new(),
            fields: FieldWriter::new(alloc, form),
        }
    }

    /// Where what is printed takes its memory.
    pub fn alloc(&self) -> Global {
        self.alloc
    }

    /// Prints a line.
    pub fn print<W: Write, L: Line>(&mut self, writer: &mut W, line: &L) -> Result<(), AnswerFault>
        ensures lines { Prints self.old.fields.form (Puts W.contents writer.old writer.new self.old.progress
            self.new.progress) result (L.line line.now ∷ []) }
        ensures form { OnOk result (self.new.fields.form ≡ self.old.fields.form) }
    {
        write_line(&mut self.fields, line).map_err(|_| AnswerFault::OutOfMemory)?;
        self.progress
            .put(writer, self.fields.text().as_bytes())
            .map_err(AnswerFault::Write)
    }
}

/// Writes a line whole.
#[tactic(auto, using(crate::proofs::LineLaws::line_written))]
fn write_line<L: Line>(fields: &mut FieldWriter, line: &L) -> Result<(), AllocError>
    ensures { IfOk result (λ _. fields.new ≡ written fields.old.form (line_in fields.old.form (L.line line.now))) }
{
    line.write_fields(fields)
}

/// What is printed as one line.
pub trait Line {
    // The line.
    ghost line: { Self → PrintedLine };

    /// Writes its fields, from its front to its end.
    fn write_fields(&self, fields: &mut FieldWriter) -> Result<(), AllocError>
        ensures { IfOk result (λ _. fields.new ≡ with_line (line self.now) fields.old) };
}

impl<L: Line + Drop> Lines for L {
    ghost lines = { λ l. L.line l ∷ [] };

    fn print_to<W: Write>(self, printer: &mut Printer, writer: &mut W) -> Result<(), AnswerFault> {
        printer.print(writer, &self)
    }
}
