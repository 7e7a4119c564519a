//! What to restore next.
use crate::additions::{holds, views_of_packets};
use mxf_klv::OutOfMemory;
use mxf_places::{AtHand, Reason};
use mxf_restore::{DisputedPlace, Order, Plan};
use std::alloc::Global;

/// All from an offset on, in bytes: no pack says what lies there.
fn all_from(start: u64) -> Order {
    Order {
        reason: Reason::Gap,
        start: u128::from(start),
        end: None,
        source: None,
        inside: false,
        again: false,
    }
}

/// Whether the bytes up to a packet at 200 are ordered, what follows it at 300, and nothing else.
fn the_front_is_ordered(alloc: Global) -> Result<bool, OutOfMemory> {
    let front = Order {
        reason: Reason::Header,
        start: 0,
        end: Some(200),
        source: None,
        inside: false,
        again: false,
    };
    let views = views_of_packets(alloc, &[(200, 83)])?;
    let plan = Plan::of(alloc, &views, &AtHand::nothing(alloc))?;
    Ok(plan.orders() == [front, all_from(300)].as_slice() && plan.disputed_places().is_empty())
}

/// Whether what begins at 0 is disputed, and nothing is ordered but what follows at 190: a packet from 90 on overlaps it.
fn the_front_is_disputed(alloc: Global) -> Result<bool, OutOfMemory> {
    let front = DisputedPlace {
        reason: Reason::Header,
        place: 0,
        source: None,
    };
    let views = views_of_packets(alloc, &[(0, 83), (90, 83)])?;
    let plan = Plan::of(alloc, &views, &AtHand::nothing(alloc))?;
    Ok(plan.orders() == [all_from(190)].as_slice() && plan.disputed_places() == [front].as_slice())
}

#[test]
fn plans(rt: HostRuntime) {
    assert!(rt; holds(rt.alloc(), the_front_is_ordered));
    assert!(rt; holds(rt.alloc(), the_front_is_disputed));
}
