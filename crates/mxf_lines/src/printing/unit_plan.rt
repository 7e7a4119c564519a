//! What to restore for edit units, and its lines.
ghost use Rattle.std.specs.Prelude.{◌≡◌, ◌↔◌, ◌==◌, ◌+◌, ◌≤◌, ◌&&◌, if◌then◌else◌, IfOk, Some, is_none, length};
ghost use Rattle.std.specs.List.{list_any};
ghost use Rattle.mxf_klv.specs.Written.{Puts, Writes};
ghost use Rattle.mxf_restore.specs.declared.disputes.Disputes.{Disputes};
ghost use Rattle.mxf_partial.specs.Orders.{IsUnitPlan, UnitPlanParts};
ghost use Rattle.mxf_partial.specs.Wanted.{WantedParts, wanted_in};
ghost use Rattle.mxf_lines.specs.Printing.{Prints};
ghost use Rattle.mxf_lines.specs.UnitPlanLines.{AreToldDisputes, is_open, order_lines, told_disputes, unit_plan_lines};
ghost use Rattle.mxf_lines.specs.UnitPlanLines.{disputes_of_many, many_plan_lines, many_plan_status, told_plan_lines};
ghost use Rattle.mxf_lines.specs.UnitPlanLines.{told_units, unit_plan_status, wanted_of};
ghost use Rattle.mxf_lines.specs.UnitLines.{units_line};

use super::AnswerFault;
use super::lines::{Each, Printer, Then, print_with_status};
use super::plan::PlannedLine;
use super::units::UnitsLine;
use mxf_forms::Form;
use mxf_partial::{ManyUnits, UnitPlan, WantedUnits};
use mxf_restore::{Disputes, Order};
use mxf_units::{EditUnit, UnitRange, UnitStanding, Units};
use std::alloc::Global;
use std::io::Write;

/// Prints what to restore so that the edit units of a range can be cut out of the file and decoded, in a form. The
/// answer is 0 if nothing is to be restored and all bytes of each of these units are held or
/// at hand, and of each before them that they need if a packet is disputed; otherwise 1.
///
/// Out of memory, some whole lines have been written; after a write fault the first bytes, which it counts.
pub fn print_unit_plan<W: Write>(
    alloc: Global,
    units: &Units<'_>,
    range: UnitRange,
    form: Form,
    writer: &mut W,
) -> Result<u8, AnswerFault>
    ensures lines { (p : UnitPlanParts) → IsUnitPlan (wanted_of units.now range) p
        → Prints form (Writes (W.contents writer.old) (W.contents writer.new)) result
        (unit_plan_lines (wanted_of units.now range) p) }
    ensures some { IfOk result (λ _. (p : UnitPlanParts) × IsUnitPlan (wanted_of units.now range) p) }
    ensures status { (p : UnitPlanParts) → IsUnitPlan (wanted_of units.now range) p
        → IfOk result (λ status. status ≡ unit_plan_status (wanted_of units.now range) p) }
{
    let wanted = WantedUnits::of_range(alloc, units, range)?;
    let plan = UnitPlan::of(alloc, &wanted)?;
    print_planned(alloc, &wanted, &plan, form, writer)
}

/// Prints a plan that orders header metadata alone, in a form, and answers 1.
pub fn print_metadata_plan<W: Write>(
    alloc: Global,
    plan: &UnitPlan,
    form: Form,
    writer: &mut W,
) -> Result<u8, AnswerFault>
    ensures lines { Prints form (Writes (W.contents writer.old) (W.contents writer.new)) result (order_lines plan.now) }
    ensures status { IfOk result (λ status. status ≡ 1) }
{
    let mut printer = Printer::new(alloc, form);
    print_orders(&mut printer, writer, plan)
}

/// Prints the orders of a plan, and how many there are, and answers 1.
fn print_orders<W: Write>(
    printer: &mut Printer,
    writer: &mut W,
    plan: &UnitPlan,
) -> Result<u8, AnswerFault>
    ensures lines { Prints printer.old.fields.form
        (Puts W.contents writer.old writer.new printer.old.progress printer.new.progress)
        result (order_lines plan.now) }
    ensures status { IfOk result (λ status. status ≡ 1) }
{
    let orders = plan.orders();
    let end = plan.end();
    let lines = Then(Each(orders), PlannedLine { orders, end });
    print_with_status(printer, writer, lines, 1)
}

/// Prints a plan for the units of a range, in a form.
fn print_planned<W: Write>(
    alloc: Global,
    wanted: &WantedUnits<'_>,
    plan: &UnitPlan,
    form: Form,
    writer: &mut W,
) -> Result<u8, AnswerFault>
    requires { wanted.now ≡ wanted_in wanted.now.units wanted.now.first wanted.now.count }
    ensures lines { Prints form (Writes (W.contents writer.old) (W.contents writer.new)) result
        (unit_plan_lines wanted.now plan.now) }
    ensures status { IfOk result (λ status. status ≡ unit_plan_status wanted.now plan.now) }
{
    let last = UnitsLine::of(wanted.first(), told_units(wanted));
    let told = Told {
        disputes: told_disputes(wanted),
        last,
    };
    print_told(alloc, told, plan, form, writer)
}

/// Those units of a range that are asked for: the last of the wanted ones, behind the key frames before them.
fn told_units<'w>(wanted: &'w WantedUnits<'_>) -> &'w [EditUnit]
    requires { wanted.now ≡ wanted_in wanted.now.units wanted.now.first wanted.now.count }
    ensures { result.now ≡ told_units wanted.now }
{
    let units = wanted.wanted();
    let (_, told) = units.split_at(units.len() - wanted.count() as usize);
    told
}

/// Prints what to restore so that many edit units can be cut out of the file, in a form. The answer is 0 if nothing is to
/// be restored and all bytes of all of them are held or at hand; otherwise 1.
///
/// Out of memory, some whole lines have been written; after a write fault the first bytes, which it counts.
pub fn print_many_plan<W: Write>(
    alloc: Global,
    many: &ManyUnits<'_>,
    form: Form,
    writer: &mut W,
) -> Result<u8, AnswerFault>
    ensures lines { (p : UnitPlanParts) → IsUnitPlan many.now.wanted p
        → Prints form (Writes (W.contents writer.old) (W.contents writer.new)) result (many_plan_lines many.now p) }
    ensures some { IfOk result (λ _. (p : UnitPlanParts) × IsUnitPlan many.now.wanted p) }
    ensures status { (p : UnitPlanParts) → IsUnitPlan many.now.wanted p
        → IfOk result (λ status. status ≡ many_plan_status many.now p) }
{
    let plan = UnitPlan::of(alloc, many.wanted())?;
    print_many(alloc, many, &plan, form, writer)
}

/// Prints a plan for many units, in a form.
fn print_many<W: Write>(
    alloc: Global,
    many: &ManyUnits<'_>,
    plan: &UnitPlan,
    form: Form,
    writer: &mut W,
) -> Result<u8, AnswerFault>
    ensures lines { Prints form (Writes (W.contents writer.old) (W.contents writer.new)) result
        (many_plan_lines many.now plan.now) }
    ensures status { IfOk result (λ status. status ≡ many_plan_status many.now plan.now) }
{
    print_told(alloc, told_of_many(many), plan, form, writer)
}

/// What is told of units beside the orders of a plan for them: the disputed packets, and how the units stand.
#[derive(Clone, Copy)]
struct Told {
    disputes: Option<Disputes>,
    last: UnitsLine,
}

/// What is told of many units.
fn told_of_many(many: &ManyUnits<'_>) -> Told
    ensures disputes { result.disputes ≡ disputes_of_many many.now }
    ensures last { result.last ≡ record {
      units = many.now.wanted.count;
      held = many.now.counts.held;
      hand = many.now.counts.hand;
      from = many.now.wanted.first;
    } }
    ensures bound { result.last.held + result.last.hand ≤ result.last.units }
{
    let counts = many.counts();
    let last = UnitsLine::of_counts(many.wanted().first(), many.wanted().count(), counts);
    let disputes = if last.status() == 0 {
        None
    } else {
        Disputes::of(many.wanted().units().holdings().views().catalogue())
    };
    Told { disputes, last }
}

/// Prints a plan, and what is told beside it, in a form.
fn print_told<W: Write>(
    alloc: Global,
    told: Told,
    plan: &UnitPlan,
    form: Form,
    writer: &mut W,
) -> Result<u8, AnswerFault>
    requires { told.last.held + told.last.hand ≤ told.last.units }
    ensures lines { Prints form (Writes (W.contents writer.old) (W.contents writer.new)) result
        (told_plan_lines told.disputes
        (units_line told.last.units told.last.held told.last.hand told.last.from) plan.now) }
    ensures status { IfOk result (λ status. status ≡ if length plan.now.orders == 0 && is_none told.disputes
        then (if told.last.held + told.last.hand == told.last.units then 0 else 1) else 1) }
{
    let mut printer = Printer::new(alloc, form);
    print_plan_lines(&mut printer, writer, told, plan)
}

/// Prints the orders of a plan, the disputed packets if they are told, how many orders there are, and how the units
/// stand.
fn print_plan_lines<W: Write>(
    printer: &mut Printer,
    writer: &mut W,
    told: Told,
    plan: &UnitPlan,
) -> Result<u8, AnswerFault>
    requires { told.last.held + told.last.hand ≤ told.last.units }
    ensures lines { Prints printer.old.fields.form
        (Puts W.contents writer.old writer.new printer.old.progress printer.new.progress)
        result (told_plan_lines told.disputes
        (units_line told.last.units told.last.held told.last.hand told.last.from) plan.now) }
    ensures status { IfOk result (λ status. status ≡ if length plan.now.orders == 0 && is_none told.disputes
        then (if told.last.held + told.last.hand == told.last.units then 0 else 1) else 1) }
{
    let orders = plan.orders();
    let end = plan.end();
    let planned = Then(PlannedLine { orders, end }, told.last);
    let lines = Then(Each(orders), Then(told.disputes, planned));
    let status = status_of(orders, told.disputes, told.last);
    print_with_status(printer, writer, lines, status)
}

/// The disputed packets, unless all bytes of each wanted unit are held or at hand.
fn told_disputes(wanted: &WantedUnits<'_>) -> Option<Disputes>
    ensures { result ≡ told_disputes wanted.now }
{
    if !is_any_open(wanted.wanted()) {
        return None;
    }
    Disputes::of(wanted.units().holdings().views().catalogue())
}

/// Whether one of the units isn't held or at hand whole.
fn is_any_open(units: &[EditUnit]) -> bool
    ensures { result ≡ list_any is_open units.now }
{
    units.iter().any(is_open)
}

/// Whether not all bytes of a unit are held or at hand.
fn is_open(unit: &EditUnit) -> bool
    ensures { result ≡ is_open unit.now }
{
    !matches!(unit.standing, UnitStanding::Held | UnitStanding::Hand)
}

/// 0 if there is no order, no disputes are told, and each unit is held or at hand, otherwise 1.
fn status_of(orders: &[Order], disputes: Option<Disputes>, units: UnitsLine) -> u8
    requires { units.held + units.hand ≤ units.units }
    ensures { result ≡ if length orders.now == 0 && is_none disputes
        then (if units.held + units.hand == units.units then 0 else 1) else 1 }
{
    if orders.is_empty() && disputes.is_none() {
        units.status()
    } else {
        1
    }
}

/// A law of [`print_unit_plan`]: the disputes that are told are those of the content, and they are told exactly if a
/// wanted unit isn't held or at hand whole.
pub fn told_disputes_by_definition()
    ensures { (w : WantedParts) (d : Disputes) → (told_disputes w ≡ Some d) ↔ AreToldDisputes w d }
{}
