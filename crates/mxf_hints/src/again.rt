//! Telling of packets that may end in bad bytes of which a plan orders the rest again.
use crate::telling::tell_on_screen;
use mxf_klv::OutOfMemory;
use mxf_places::AtHand;
use mxf_restore::{Order, Plan};
use mxf_views::Views;
use std::alloc::{AllocError, Global};
use std::fmt;

/// A packet before bytes that are ordered again: where it begins and ends, in bytes. It prints as its line.
#[derive(Clone, Copy)]
struct BeforeBad {
    start: u64,
    end: u64,
}

impl fmt::Display for BeforeBad {
    fn fmt<W: fmt::Write>(&self, f: &mut fmt::Formatter<W>) -> fmt::Result {
        let BeforeBad { start, end } = *self;
        write!(
            f,
            "hint: the packet from {start} up to {end} may end in the bad bytes too: read these again, or all from {start} on, and write them to their place in the file"
        )
    }
}

/// Tells of each packet that ends where a plan orders bytes again, up to an end that is known: what is bad there may begin
/// within it.
pub fn tell_again<R: Eprint + AllocGlobal>(
    rt: &R,
    views: &Views,
    at_hand: &AtHand,
) -> Result<(), OutOfMemory> {
    // without bytes at hand nothing is ordered again
    if at_hand.given().end() == 0 {
        return Ok(());
    }
    let plan = Plan::of(rt.alloc(), views, at_hand)?;
    let starts = starts_again(rt.alloc(), plan.orders())?;
    if starts.is_empty() {
        return Ok(());
    }
    let catalogue = views.catalogue();
    for note in catalogue.clear() {
        let (start, end) = (note.offset(), note.end());
        // where a head begins, its key and length are good
        if starts.binary_search(&end).is_ok() && !catalogue.spans().has(end) {
            tell_on_screen(rt, &BeforeBad { start, end })?;
        }
    }
    Ok(())
}

/// Where the orders begin, rising, whose bytes were handed in and don't do, if they have an end.
fn starts_again(alloc: Global, orders: &[Order]) -> Result<Vec<u64>, AllocError> {
    let mut starts = Vec::new(alloc);
    for order in orders {
        if order.again && !order.inside && order.end.is_some() {
            if let Ok(start) = u64::try_from(order.start) {
                starts.push(start)?;
            }
        }
    }
    starts.sort_unstable();
    Ok(starts)
}
