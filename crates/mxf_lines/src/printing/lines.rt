//! What is printed as lines.
ghost use Rattle.std.specs.Prelude.{◌≡◌, ℕ, IfOk, List, OnOk};
ghost use Rattle.mxf_klv.specs.Written.{Puts};
ghost use Rattle.mxf_forms.specs.Forms.{PrintedLine};
ghost use Rattle.mxf_lines.specs.Printing.{Gives, Prints};

mod joined;
mod printer;

use super::AnswerFault;
pub use joined::{Each, Lent, Then, take_first};
pub use printer::{Line, Printer};
use std::io::Write;

/// What is printed as lines.
pub trait Lines {
    // The lines.
    ghost lines: { Self → List PrintedLine };

    /// Prints the lines, in the printer's form. Out of memory, some whole lines have been written, and not all.
    fn print_to<W: Write>(self, printer: &mut Printer, writer: &mut W) -> Result<(), AnswerFault>
        ensures lines { Prints printer.old.fields.form
            (Puts W.contents writer.old writer.new printer.old.progress printer.new.progress)
            result (lines self) }
        ensures form { OnOk result (printer.new.fields.form ≡ printer.old.fields.form) };
}

/// Prints lines, and answers a status that is known before.
pub fn print_with_status<W: Write, L: Lines + Drop>(
    printer: &mut Printer,
    writer: &mut W,
    lines: L,
    status: u8,
) -> Result<u8, AnswerFault>
    ensures lines { Prints printer.old.fields.form
        (Puts W.contents writer.old writer.new printer.old.progress printer.new.progress)
        result (L.lines lines) }
    ensures status { IfOk result (λ answered. answered ≡ status) }
{
    lines.print_to(printer, writer)?;
    Ok(status)
}

/// Items that come one by one, each of which is printed as lines.
pub trait Series {
    type Item: Lines + Drop;

    // The lines of the items that are left.
    ghost lines_left: { Self → List PrintedLine };

    // How many items are left.
    ghost left: { Self → ℕ };

    /// The next item.
    fn next_item(&mut self) -> Option<Self::Item>
        ensures { Gives left lines_left Self.Item.lines self.old self.new result };
}
