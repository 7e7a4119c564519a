//! Printing what a run is asked for.
ghost use Rattle.std.specs.Prelude.{◌≡◌, ◌↔◌, IfOk, Err};
ghost use Rattle.mxf_klv.specs.Written.{Puts, Writes};
ghost use Rattle.mxf_restore.specs.Disputes.{disputes_of};
ghost use Rattle.mxf_restore.specs.Plan.{plan_of};
ghost use Rattle.mxf_lines.specs.Answering.{Answers, IsBadAsk, answer_lines, answer_status, plan_status};
ghost use Rattle.mxf_lines.specs.PlanLines.{plan_lines};
ghost use Rattle.mxf_lines.specs.Printing.{Prints};
ghost use Rattle.mxf_lines.specs.declared.printing.AnswerFault.TheVariants as faults;

mod check;
mod content;
mod description;
mod doubted;
mod found;
mod line;
mod lines;
mod map;
mod plan;
mod references;
mod renewal;
mod sets;
mod sources;
mod unit_plan;
mod units;
mod verification;

use check::print_checked;
use content::Shown;
use description::print_description;
use doubted::print_doubted;
pub use found::{Searched, print_found};
use line::JoinLine;
use lines::{Printer, print_with_status};
pub use map::print_map;
use mxf_asked::Ask;
use mxf_forms::Form;
use mxf_klv::{OutOfMemory, WriteFault};
use mxf_places::AtHand;
use mxf_read::Gathered;
use mxf_restore::{Disputes, Plan};
use mxf_views::{Place, Views};
use plan::PlanWithDisputes;
pub use renewal::print_renewed;
pub use sources::print_sources;
use std::alloc::Global;
use std::io::Write;
use thiserror::Error;
pub use unit_plan::{
    print_many_plan, print_metadata_plan, print_unit_plan, told_disputes_by_definition,
};
pub use units::{print_edit_units, timecodes_shown};
pub use verification::{
    Verified, print_verification, verified_status_by_definition, whole_status_by_packets,
};

/// Why an answer wasn't printed whole.
#[derive(Clone, Copy, Debug, PartialEq, Eq, Error)]
pub enum AnswerFault {
    /// A growth was refused. Some whole lines have been written.
    #[error("out of memory")]
    OutOfMemory,
    /// A write failed. A front of the lines has been written.
    #[error(transparent)]
    Write(WriteFault),
    /// The edit unit is above the greatest. Nothing was written.
    #[error("bad unit")]
    BadUnit,
}

impl From<OutOfMemory> for AnswerFault {
    ghost from_gives = { λ _ e. e ≡ faults.OutOfMemory };

    fn from(_fault: OutOfMemory) -> AnswerFault {
        AnswerFault::OutOfMemory
    }
}

/// Prints the lines that are asked for, in a form. The answer is 1 if a check finds something, or a piece doesn't end
/// with a packet, if something is in doubt, if an edit unit has no place or more than one, if a plan finds something to restore or a packet is
/// disputed, or if a description isn't of a finished copy or lacks something; otherwise it is 0. Only a plan depends on
/// what is at hand.
///
/// The unit is tested first: above 9,223,372,036,854,775,807 it is a `BadUnit`. Out of memory, some whole lines
/// have been written; after a write fault the first bytes, which it counts.
pub fn answer<W: Write>(
    alloc: Global,
    ask: &Ask,
    form: Form,
    gathered: &Gathered,
    at_hand: &AtHand,
    writer: &mut W,
) -> Result<u8, AnswerFault>
    ensures status { IfOk result (λ status. status
        ≡ answer_status ask.now gathered.now.reports at_hand.now gathered.now.views) }
    ensures bad_unit { (result ≡ Err faults.BadUnit) ↔ IsBadAsk ask.now }
    ensures lines { Answers form (Writes (W.contents writer.old) (W.contents writer.new)) result
        (answer_lines ask.now gathered.now.reports at_hand.now gathered.now.views) }
{
    let mut printer = Printer::new(alloc, form);
    print_asked(&mut printer, writer, ask, gathered, at_hand)
}

/// Prints the lines that are asked for, and answers the status.
fn print_asked<W: Write>(
    printer: &mut Printer,
    writer: &mut W,
    ask: &Ask,
    gathered: &Gathered,
    at_hand: &AtHand,
) -> Result<u8, AnswerFault>
    ensures status { IfOk result (λ status. status
        ≡ answer_status ask.now gathered.now.reports at_hand.now gathered.now.views) }
    ensures bad_unit { (result ≡ Err faults.BadUnit) ↔ IsBadAsk ask.now }
    ensures lines { Answers printer.old.fields.form
        (Puts W.contents writer.old writer.new printer.old.progress printer.new.progress)
        result (answer_lines ask.now gathered.now.reports at_hand.now gathered.now.views) }
{
    match *ask {
        Ask::Show { scan } => {
            let shown = Shown { gathered, scan };
            print_with_status(printer, writer, shown, 0)
        }
        Ask::Check => print_checked(printer, writer, gathered),
        Ask::Doubts => print_doubted(printer, writer, gathered),
        Ask::Describe => print_description(printer, writer, &gathered.views),
        Ask::Locate { index, unit } => {
            let Ok(place) = gathered.views.locate(index, unit) else {
                return Err(AnswerFault::BadUnit);
            };
            let status = u8::from(!matches!(place, Place::At { .. }));
            print_with_status(printer, writer, place, status)
        }
        Ask::Join => {
            let line = JoinLine(gathered.views.catalogue());
            print_with_status(printer, writer, line, 0)
        }
        Ask::Plan => print_plan(printer, writer, &gathered.views, at_hand),
    }
}

/// Prints what to restore next, and answers 1 if there is something, or a packet is disputed, otherwise 0.
fn print_plan<W: Write>(
    printer: &mut Printer,
    writer: &mut W,
    views: &Views,
    at_hand: &AtHand,
) -> Result<u8, AnswerFault>
    ensures lines { Prints printer.old.fields.form
        (Puts W.contents writer.old writer.new printer.old.progress printer.new.progress)
        result (plan_lines (disputes_of views.now) (plan_of at_hand.now views.now)) }
    ensures status { IfOk result (λ status. status
        ≡ plan_status (disputes_of views.now) (plan_of at_hand.now views.now)) }
{
    let plan = Plan::of(printer.alloc(), views, at_hand)?;
    let disputes = Disputes::of(views.catalogue());
    let status = u8::from(!(plan.orders().is_empty() && disputes.is_none()));
    let lines = PlanWithDisputes {
        plan: &plan,
        disputes,
    };
    print_with_status(printer, writer, lines, status)
}
