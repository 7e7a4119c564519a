//! What a renewal gave, and its lines.
ghost use Rattle.std.specs.Prelude.{◌≡◌, length};
ghost use Rattle.mxf_catalogue.specs.Disputes.{disputed_notes};
ghost use Rattle.mxf_klv.specs.Written.{Writes};
ghost use Rattle.mxf_lines.specs.Printing.{Prints};
ghost use Rattle.mxf_lines.specs.RenewalLines.{dropped_line, renewal_lines, renewed_line, renewed_name, renewed_words};

use super::AnswerFault;
use super::line::write_note_fields;
use super::lines::{Each, Line, Lines, Printer, Then};
use mxf_forms::{FieldWriter, Form};
use mxf_verify::{DroppedNote, Renewed};
use std::alloc::{AllocError, Global};
use std::io::Write;

/// A note that was dropped: what it says.
impl<'a> Line for DroppedNote<'a> {
    ghost line = { λ d. dropped_line d.note.now };

    #[tactic(auto, unfolding(crate::specs::RenewalLines::dropped_line))]
    fn write_fields(&self, fields: &mut FieldWriter) -> Result<(), AllocError> {
        fields.begin("dropped", "dropped")?;
        write_note_fields(fields, self.note)?;
        fields.end("")
    }
}

/// Whether the renewed catalogue is saved, how many notes it has, how many of them are disputed, and how many were
/// dropped.
#[derive(Clone, Copy)]
struct RenewedLine<'a> {
    renewed: &'a Renewed<'a>,
    is_saved: bool,
}

impl<'a> Line for RenewedLine<'a> {
    ghost line = { λ l. renewed_line l.is_saved (length l.renewed.now.catalogue)
        (length (disputed_notes l.renewed.now.catalogue)) (length l.renewed.now.dropped) };

    #[tactic(auto, unfolding(crate::specs::RenewalLines::renewed_line))]
    fn write_fields(&self, fields: &mut FieldWriter) -> Result<(), AllocError> {
        let catalogue = &self.renewed.catalogue;
        fields.begin(renewed_name(self.is_saved), renewed_words(self.is_saved))?;
        fields.number(" ", "notes", catalogue.len())?;
        fields.number(" notes ", "disputed", catalogue.disputed().count())?;
        fields.number(" disputed ", "dropped", self.renewed.dropped.len())?;
        fields.end(" dropped")
    }
}

/// The name of the last line.
fn renewed_name(is_saved: bool) -> &'static str
    ensures { result.now ≡ renewed_name is_saved }
{
    if is_saved { "renewed" } else { "not-renewed" }
}

/// The words of the last line before its fields.
fn renewed_words(is_saved: bool) -> &'static str
    ensures { result.now ≡ renewed_words is_saved }
{
    if is_saved { "renewed" } else { "not renewed" }
}

/// A line for each note that was dropped, and the last.
#[derive(Drop)]
struct Renewal<'a> {
    renewed: &'a Renewed<'a>,
    is_saved: bool,
}

impl<'a> Lines for Renewal<'a> {
    ghost lines = { λ r. renewal_lines r.is_saved r.renewed.now.catalogue r.renewed.now.dropped };

    fn print_to<W: Write>(self, printer: &mut Printer, writer: &mut W) -> Result<(), AnswerFault> {
        let Renewal { renewed, is_saved } = self;
        let last = RenewedLine { renewed, is_saved };
        Then(Each(renewed.dropped.as_slice()), last).print_to(printer, writer)
    }
}

/// Prints what a renewal gave, in a form: a line for each note that was dropped, and the last, which says whether the
/// renewed catalogue is saved.
///
/// Out of memory, some whole lines have been written; after a write fault the first bytes, which it counts.
pub fn print_renewed<W: Write>(
    alloc: Global,
    renewed: &Renewed<'_>,
    is_saved: bool,
    form: Form,
    writer: &mut W,
) -> Result<(), AnswerFault>
    ensures { Prints form (Writes (W.contents writer.old) (W.contents writer.new)) result
        (renewal_lines is_saved renewed.now.catalogue renewed.now.dropped) }
{
    let mut printer = Printer::new(alloc, form);
    Renewal { renewed, is_saved }.print_to(&mut printer, writer)
}
