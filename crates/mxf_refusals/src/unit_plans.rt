//! What to restore for edit units.
use crate::additions::{holds, views_of_pieces};
use crate::files::{M, SEGMENT};
use mxf_klv::OutOfMemory;
use mxf_partial::{UnitPlan, WantedUnits};
use mxf_places::{AtHand, Holdings, Reason};
use mxf_restore::Order;
use mxf_units::{UnitRange, Units};
use mxf_views::Views;
use std::alloc::Global;

/// Whether the footer is ordered, and nothing else.
fn orders_footer_alone(plan: &UnitPlan) -> bool {
    let footer = Order {
        reason: Reason::Footer,
        start: 108,
        end: Some(600),
        source: Some(0),
        inside: false,
        again: false,
    };
    plan.orders() == [footer].as_slice() && plan.end().is_none()
}

/// The views of M's header, which names a footer at 108, and a segment at 600.
fn views_of_header_and_segment(alloc: Global) -> Result<Views, OutOfMemory> {
    views_of_pieces(alloc, &[(0, &M[..108]), (600, &SEGMENT)])
}

/// Whether the footer is ordered for the header metadata.
fn the_footer_is_ordered_for_metadata(alloc: Global) -> Result<bool, OutOfMemory> {
    let views = views_of_header_and_segment(alloc)?;
    let holdings = Holdings::of(alloc, &views)?;
    let plan = UnitPlan::of_metadata(alloc, &holdings, &AtHand::nothing(alloc))?;
    Ok(orders_footer_alone(&plan))
}

/// What to restore for the first ten units.
fn unit_plan(alloc: Global, units: &Units<'_>) -> Result<Option<UnitPlan>, OutOfMemory> {
    let Some(range) = UnitRange::new(0, 9) else {
        return Ok(None);
    };
    let wanted = WantedUnits::of_range(alloc, units, range)?;
    Ok(Some(UnitPlan::of(alloc, &wanted)?))
}

/// Whether it is ordered for the first ten units.
fn the_footer_is_ordered_for_units(alloc: Global) -> Result<bool, OutOfMemory> {
    let views = views_of_header_and_segment(alloc)?;
    let at_hand = AtHand::nothing(alloc);
    let units = Units::of(alloc, &views, &at_hand, 1)?;
    match unit_plan(alloc, &units)? {
        Some(plan) => Ok(orders_footer_alone(&plan)),
        None => Ok(false),
    }
}

#[test]
fn metadata_plans(rt: HostRuntime) {
    assert!(rt; holds(rt.alloc(), the_footer_is_ordered_for_metadata));
}

#[test]
fn unit_plans(rt: HostRuntime) {
    assert!(rt; holds(rt.alloc(), the_footer_is_ordered_for_units));
}
