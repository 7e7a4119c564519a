//! What to restore next, and its lines.
ghost use Rattle.std.specs.Prelude.{◌≡◌, ◌<◌, ◌^◌, count_by, is_none, length, sum_by};
ghost use Rattle.mxf_lines.specs.PlanLines.{disputed_place_line, disputes_line, order_length, ordered_bytes};
ghost use Rattle.mxf_lines.specs.PlanLines.{plan_lines, planned_line, restore_line};

use super::AnswerFault;
use super::lines::{Each, Line, Lines, Printer, Then};
use mxf_forms::FieldWriter;
use mxf_restore::{DisputedPlace, Disputes, Order, Plan};
use std::alloc::AllocError;
use std::io::Write;

/// An order: where it begins and ends, in bytes, why, the offset of the pack that says so, whether it begins within a
/// packet, whether its bytes were handed in and don't do, and how many they are.
impl Line for Order {
    ghost line = { restore_line };

    #[tactic(auto, unfolding(crate::specs::PlanLines::restore_line))]
    fn write_fields(&self, fields: &mut FieldWriter) -> Result<(), AllocError> {
        fields.begin("restore", "restore")?;
        fields.number(" ", "start", self.start)?;
        fields.known(" ", "end", "-", self.end)?;
        fields.word(" ", "reason", self.reason)?;
        fields.known(" ", "source", "-", self.source)?;
        fields.flag(" inside", "inside", self.inside)?;
        fields.flag(" again", "again", self.again)?;
        fields.known_member("length", length_of(self))?;
        fields.end("")
    }
}

/// How many bytes an order has, if its end is known.
fn length_of(order: &Order) -> Option<u128>
    ensures { result ≡ order_length order.now }
{
    Some(order.end?.saturating_sub(order.start))
}

/// A disputed place: its place, in bytes, why that matters, and the offset of the pack that says so.
impl Line for DisputedPlace {
    ghost line = { disputed_place_line };

    #[tactic(auto, unfolding(crate::specs::PlanLines::disputed_place_line))]
    fn write_fields(&self, fields: &mut FieldWriter) -> Result<(), AllocError> {
        fields.begin("disputed", "disputed")?;
        fields.number(" ", "offset", self.place)?;
        fields.word(" ", "reason", self.reason)?;
        fields.known(" ", "source", "-", self.source)?;
        fields.end("")
    }
}

/// How many packets are disputed, their least offset, and the greatest end of what is held of one, in bytes.
impl Line for Disputes {
    ghost line = { disputes_line };

    #[tactic(auto, unfolding(crate::specs::PlanLines::disputes_line))]
    fn write_fields(&self, fields: &mut FieldWriter) -> Result<(), AllocError> {
        fields.begin("disputes", "disputes")?;
        fields.number(" ", "notes", self.notes)?;
        fields.number(" ", "start", self.start)?;
        fields.number(" ", "end", self.end)?;
        fields.end("")
    }
}

/// How many orders there are, their bytes, how many have no end, and the end of the file.
#[derive(Clone, Copy)]
pub struct PlannedLine<'a> {
    pub orders: &'a [Order],
    pub end: Option<u64>,
}

impl<'a> Line for PlannedLine<'a> {
    ghost line = { λ l. planned_line (length l.orders.now) (sum_by ordered_bytes l.orders.now)
        (count_by (λ o. is_none o.end) l.orders.now) l.end };

    #[tactic(auto, unfolding(crate::specs::PlanLines::planned_line))]
    fn write_fields(&self, fields: &mut FieldWriter) -> Result<(), AllocError> {
        fields.begin("planned", "planned")?;
        fields.number(" ", "ranges", self.orders.len())?;
        fields.number(" ranges ", "bytes", bytes_of(self.orders))?;
        fields.number(" bytes ", "open", count_unended(self.orders))?;
        fields.known(" open end ", "end", "-", self.end)?;
        fields.end("")
    }
}

/// The bytes of the orders, as far as they are known.
fn bytes_of(orders: &[Order]) -> u128
    ensures { result ≡ sum_by ordered_bytes orders.now }
{
    let mut bytes: u128 = 0;
    for order in orders {
        bytes += ordered_bytes(order);
    }
    bytes
}

/// The bytes of an order, as far as they are known.
fn ordered_bytes(order: &Order) -> u128
    ensures bytes { result ≡ ordered_bytes order.now }
    ensures limit { result < 2 ^ 64 }
{
    match order.end {
        Some(end) => end.saturating_sub(order.start),
        None => 0,
    }
}

/// How many of the orders have no end.
fn count_unended(orders: &[Order]) -> usize
    ensures { result ≡ count_by (λ o. is_none o.end) orders.now }
{
    orders.iter().filter(|order| order.end.is_none()).count()
}

/// A plan, and the disputed packets of what it is of: a line for each order, for each disputed place, one for the
/// disputes, if there are some, and the last.
#[derive(Drop)]
pub struct PlanWithDisputes<'a> {
    pub plan: &'a Plan,
    pub disputes: Option<Disputes>,
}

impl<'a> Lines for PlanWithDisputes<'a> {
    ghost lines = { λ p. plan_lines p.disputes p.plan.now };

    fn print_to<W: Write>(self, printer: &mut Printer, writer: &mut W) -> Result<(), AnswerFault> {
        let PlanWithDisputes { plan, disputes } = self;
        let orders = plan.orders();
        let end = plan.end();
        let last = PlannedLine { orders, end };
        let disputed_places = Then(Each(plan.disputed_places()), Then(disputes, last));
        Then(Each(orders), disputed_places).print_to(printer, writer)
    }
}
