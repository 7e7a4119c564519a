//! What is known of a recording.
ghost use Rattle.std.specs.Prelude.{◌++◌};
ghost use Rattle.mxf_lines.specs.Answering.{report_lines};
ghost use Rattle.mxf_lines.specs.Printing.{content_lines};

use super::AnswerFault;
use super::line::{NoteLines, PartitionLines, PreferredLine};
use super::lines::{Each, Lines, Printer, Then};
use super::references::ReferenceLines;
use super::sets::SetLines;
use mxf_read::Gathered;
use mxf_references::resolved;
use mxf_skim::Scan;
use mxf_views::Views;
use std::io::Write;

/// What was gathered, by a scan.
#[derive(Clone, Copy)]
pub struct Shown<'g> {
    pub gathered: &'g Gathered,
    pub scan: Scan,
}

/// A line for each piece, and what the views show.
impl Lines for Shown<'_> {
    ghost lines = { λ s. report_lines s.gathered.now.reports ++ content_lines s.scan s.gathered.now.views };

    fn print_to<W: Write>(self, printer: &mut Printer, writer: &mut W) -> Result<(), AnswerFault> {
        let content = ShownContent {
            views: &self.gathered.views,
            scan: self.scan,
        };
        Then(Each(self.gathered.reports.as_slice()), content).print_to(printer, writer)
    }
}

/// What views show, by a scan.
#[derive(Clone, Copy)]
struct ShownContent<'v> {
    views: &'v Views,
    scan: Scan,
}

/// What the views show, in this order.
impl Lines for ShownContent<'_> {
    ghost lines = { λ s. content_lines s.scan s.views.now };

    fn print_to<W: Write>(self, printer: &mut Printer, writer: &mut W) -> Result<(), AnswerFault> {
        let views = self.views;
        // Out of memory comes here before the first line.
        let resolved = resolved(printer.alloc(), views)?;
        let catalogue = views.catalogue();
        let references = ReferenceLines {
            catalogue,
            resolved: &resolved,
        };
        let index = Then(Each(views.segments()), views.rip());
        let metadata = Then(SetLines(views), Then(references, index));
        let preferred = PreferredLine(views.preferred());
        let copies = Then(Each(views.copies()), Then(preferred, metadata));
        let partitions = PartitionLines {
            views,
            left: views.partitions(),
        };
        let partitions = Then(Each(partitions), Then(views.chain(), copies));
        let notes = Each(NoteLines::of(catalogue, self.scan));
        Then(notes, Then(Each(views.gaps()), partitions)).print_to(printer, writer)
    }
}
