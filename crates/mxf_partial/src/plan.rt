//! What to restore so that edit units can be cut out of the file.
ghost use Rattle.std.specs.Prelude.{◌≡◌, ◌↔◌, ◌⊎◌, ◌++◌, ◌<◌, ℕ, [], Some, false, true, flat_map, map, IfOk, OnOk};
ghost use Rattle.std.specs.Option.{option_map_or};
ghost use Rattle.mxf_klv.specs.Rising.{In, IsRising, union};
ghost use Rattle.mxf_klv.specs.Note.{greatest_end};
ghost use Rattle.mxf_catalogue.specs.Covers.{IsCover};
ghost use Rattle.mxf_catalogue.specs.Runs.{LiesIn};
ghost use Rattle.mxf_places.specs.AtHand.{lacking};
ghost use Rattle.mxf_places.specs.Claims.{claims_of};
ghost use Rattle.mxf_views.specs.Copies.{copies_of, preferred_of};
ghost use Rattle.mxf_restore.specs.Plan.{LiesInOrder, order_cmp};
ghost use Rattle.mxf_restore.specs.declared.plan.Order.{Order};
ghost use Rattle.mxf_units.specs.Units.{IsKnown};
ghost use Rattle.mxf_partial.specs.Gathered.{run_of_order};
ghost use Rattle.mxf_partial.specs.Named.{AreNamed};
ghost use Rattle.mxf_places.specs.declared.reason.Reason.{Reason};
ghost use Rattle.mxf_partial.specs.Orders.{IsFindingOrder, IsOrdered, IsUnitPlan, UnitPlanParts, is_described};
ghost use Rattle.mxf_partial.specs.Orders.{known_end, unit_order};
ghost use Rattle.mxf_partial.specs.Wanted.{IsWantedByte, WantedParts, notes_of};

mod metadata;

use crate::asks::asked_places;
use crate::leads::{add_fronts, helping_orders};
use crate::wanted::{run_of_extent, wanted_bytes};
use crate::wanted_units::WantedUnits;
pub use metadata::metadata_plan_by_definition;
use mxf_catalogue::{Cover, Run};
use mxf_klv::{MAX, OutOfMemory, sort_once};
use mxf_places::{AtHand, Claim, OffsetRange, Reason, claims, ranges_lacking};
use mxf_restore::{NamedPlace, Order, SectionOrders, is_again, named_places, sections};
use mxf_units::{Extent, Units, cover_of};
use mxf_views::Views;
use std::alloc::Global;
use std::marker::Model;

/// What to restore so that some edit units of an index can be cut out of the file and decoded, as far as what is held
/// says (this project's profile).
///
/// Whoever restores the bytes of all orders, hands them in beside the rest, and asks again, comes to a plan without
/// orders, if what the packs of the file say is right. That is tested, not proved.
#[derive(Drop)]
pub struct UnitPlan {
    orders: Vec<Order>,
    end: Option<u64>,
}

impl Model for UnitPlan {
    ghost use Rattle.mxf_partial.specs.Orders.{UnitPlanParts};

    ghost Value = { UnitPlanParts };

    ghost view = { λ p. record { orders = p.orders.items; end = p.end } };
}

impl UnitPlan {
    /// What to restore for some wanted units. It takes memory: n log n of the notes, the runs at hand, the index
    /// entries and the units, as its time does.
    pub fn of(alloc: Global, wanted: &WantedUnits<'_>) -> Result<UnitPlan, OutOfMemory>
        ensures { IfOk result (λ p. IsUnitPlan wanted.now p) }
    {
        let units = wanted.units();
        let claims = claims(alloc, units.holdings())?;
        let named = named_places(alloc, units.holdings(), &claims)?;
        let mut orders = finding_orders(alloc, wanted, &claims, &named)?;
        let there = there(alloc, units, &orders)?;
        let bytes = wanted_bytes(alloc, wanted, &named)?;
        add_unit_orders(alloc, &mut orders, units.at_hand(), &bytes, &there)?;
        Ok(UnitPlan {
            orders: in_order(orders),
            end: units.holdings().end(),
        })
    }

    /// The orders: what finds partitions and index table segments first, and then the bytes of units; by reason, then
    /// by start.
    pub fn orders(&self) -> &[Order]
        ensures { result.now ≡ self.now.orders }
    {
        &self.orders
    }

    /// The end of the file, in bytes, if it is known: that of its random index pack.
    pub fn end(&self) -> Option<u64>
        ensures { result ≡ self.now.end }
    {
        self.end
    }
}

/// Whether the preferred copy is finished.
fn has_finished_copy(views: &Views) -> bool
    ensures { result ≡ option_map_or (λ c. c.finished) (preferred_of (copies_of views.now)) false }
{
    match views.preferred() {
        Some(copy) => copy.finished,
        None => false,
    }
}

/// Whether the header metadata need not be restored: the preferred copy is finished, and each wanted unit is indexed.
fn is_described(wanted: &WantedUnits<'_>) -> bool
    ensures { result ≡ is_described wanted.now }
{
    has_finished_copy(wanted.units().holdings().views())
        && wanted.questions().unindexed().is_empty()
}

/// What is restored to find partitions and index table segments. It takes memory.
fn finding_orders(
    alloc: Global,
    wanted: &WantedUnits<'_>,
    claims: &[Claim],
    named: &[NamedPlace],
) -> Result<Vec<Order>, OutOfMemory>
    requires claims { claims.now ≡ claims_of (notes_of wanted.now) }
    requires named { AreNamed (notes_of wanted.now) named.now }
    ensures { IfOk result (λ v. (o : Order) → In o v.items ↔ IsFindingOrder wanted.now o) }
{
    let units = wanted.units();
    let is_described = is_described(wanted);
    let sections = sections(alloc, units.holdings(), claims)?;
    let section_orders = SectionOrders::of(alloc, units.holdings(), units.at_hand(), claims)?;
    let mut orders = helping_orders(alloc, &section_orders, &sections, is_described)?;
    let is_index_sought = is_none(&orders);
    let asked = asked_places(alloc, wanted, named, is_index_sought)?;
    add_fronts(
        alloc,
        &mut orders,
        &section_orders,
        &sections,
        is_described,
        &asked,
    )?;
    Ok(orders)
}

/// Whether there is no order.
fn is_none(orders: &[Order]) -> bool
    ensures { (result ≡ true) ↔ (orders.now ≡ []) }
{
    match orders {
        [] => true,
        _ => false,
    }
}

/// The offsets that are held, at hand or ordered. They take memory.
fn there(alloc: Global, units: &Units<'_>, orders: &[Order]) -> Result<Cover, OutOfMemory>
    ensures { IfOk result (λ c. (x : ℕ) → LiesIn c x ↔ (IsKnown units.now.known x ⊎ IsOrdered orders.now x)) }
{
    let mut runs: Vec<Run> = units.known().runs().collect(alloc)?;
    add_ordered(&mut runs, orders)?;
    cover_of(alloc, runs)
}

/// Adds the runs of orders, as far as files reach.
fn add_ordered(runs: &mut Vec<Run>, orders: &[Order]) -> Result<(), OutOfMemory>
    ensures { OnOk result (runs.new.items ≡ runs.old.items ++ map run_of_order orders.now) }
{
    let found = orders.iter().map(|order| run_of_order(order));
    Ok(runs.extend(found)?)
}

/// The run of an order, as far as files reach.
fn run_of_order(order: &Order) -> Run
    ensures { result ≡ run_of_order order.now }
{
    run_of_extent(Extent {
        start: order.start,
        end: order.end,
    })
}

/// Adds the orders of what is wanted and isn't there.
fn add_unit_orders(
    alloc: Global,
    orders: &mut Vec<Order>,
    at_hand: &AtHand,
    wanted: &Cover,
    there: &Cover,
) -> Result<(), OutOfMemory>
    requires { IsCover there.now }
    ensures { OnOk result (orders.new.items ≡ orders.old.items
        ++ flat_map (λ r. map (unit_order at_hand.now) (lacking there.now r.start (Some r.end))) wanted.now) }
{
    for run in wanted.runs() {
        let lacking = ranges_lacking(alloc, there, run.start, Some(run.end))?;
        add_ranges(orders, at_hand, &lacking)?;
    }
    Ok(())
}

/// Adds the orders of ranges of bytes of units.
fn add_ranges(
    orders: &mut Vec<Order>,
    at_hand: &AtHand,
    ranges: &[OffsetRange],
) -> Result<(), OutOfMemory>
    ensures { OnOk result (orders.new.items ≡ orders.old.items ++ map (unit_order at_hand.now) ranges.now) }
{
    let found = ranges.iter().map(|range| unit_order(at_hand, *range));
    Ok(orders.extend(found)?)
}

/// The order of a range of bytes of units.
fn unit_order(at_hand: &AtHand, range: OffsetRange) -> Order
    ensures { result ≡ unit_order at_hand.now range }
{
    let end = known_end(range.end);
    Order {
        reason: Reason::Unit,
        start: u128::from(range.start),
        end: end.map(u128::from),
        source: None,
        inside: true,
        again: is_again(
            at_hand,
            OffsetRange {
                start: range.start,
                end,
            },
        ),
    }
}

/// The end, in bytes, if it lies below where files end at the latest.
fn known_end(end: Option<u64>) -> Option<u64>
    ensures { result ≡ known_end end }
{
    let end = end?;
    if end < MAX { Some(end) } else { None }
}

/// The orders in their order.
fn in_order(mut orders: Vec<Order>) -> Vec<Order>
    ensures members { result.items ≡ union order_cmp [] orders.items }
    ensures rising { IsRising order_cmp result.items }
{
    sort_once(&mut orders);
    orders
}

/// A law of [`UnitPlan::of`]: there is one plan for some units alone.
pub fn one_unit_plan()
    ensures { (w : WantedParts) (p q : UnitPlanParts) → IsUnitPlan w p → IsUnitPlan w q → p ≡ q }
{}

/// A law of [`UnitPlan::orders`]: each byte that is wanted of a unit is held, at hand or ordered; so if nothing is
/// ordered, all of them are held or at hand.
pub fn wanted_bytes_are_there()
    ensures ordered { (w : WantedParts) (p : UnitPlanParts) (x : ℕ) → IsUnitPlan w p → IsWantedByte w x
        → IsKnown w.units.known x ⊎ ((o : Order) × In o p.orders × LiesInOrder o x) }
    ensures none { (w : WantedParts) (p : UnitPlanParts) (x : ℕ) → IsUnitPlan w p → p.orders ≡ [] → IsWantedByte w x
        → IsKnown w.units.known x }
{}

/// A law of [`UnitPlan::orders`]: an order of bytes of units has none that is held or at hand.
pub fn orders_of_units_are_missing()
    ensures { (w : WantedParts) (p : UnitPlanParts) (o : Order) (x : ℕ) → IsUnitPlan w p → In o p.orders
        → o.reason ≡ Reason.Unit → LiesInOrder o x → x < greatest_end → ¬ IsKnown w.units.known x }
{}
