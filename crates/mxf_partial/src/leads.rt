//! What is restored to find partitions and index table segments.
ghost use Rattle.std.specs.Prelude.{◌≡◌, ◌++◌, flat_map, IfOk, OnOk};
ghost use Rattle.std.specs.List.{filter_map};
ghost use Rattle.std.specs.List.Sorted.{IsNonDecreasingBy};
ghost use Rattle.std.specs.Option.{option_to_list};
ghost use Rattle.mxf_restore.specs.Fronts.{front_of};
ghost use Rattle.mxf_partial.specs.Fronts.{earlier, first_source, front_by, front_order};
ghost use Rattle.mxf_partial.specs.Helping.{helping_of};

use mxf_klv::{OutOfMemory, between};
use mxf_places::Reason;
use mxf_restore::{NamedPlace, Order, Section, SectionOrders};
use std::alloc::Global;

/// What is restored first of a section: what says more of where units lie. Header metadata that are described already
/// aren't. It takes memory.
fn helping_of(
    alloc: Global,
    section_orders: &SectionOrders<'_>,
    section: Section,
    is_described: bool,
) -> Result<Vec<Order>, OutOfMemory>
    ensures { IfOk result (λ v. v.items ≡ helping_of is_described section_orders.now.at section_orders.now.notes section) }
{
    let Some(claim) = section_orders.claim_of(section) else {
        return Ok(Vec::new(alloc));
    };
    match claim.reason {
        Reason::Footer | Reason::Index => section_orders.orders_of(alloc, section),
        Reason::Metadata if is_described => Ok(Vec::new(alloc)),
        Reason::Metadata if !claim.is_open => section_orders.orders_of(alloc, section),
        Reason::Header | Reason::Metadata => front_alone(alloc, section_orders, section),
        _ => Ok(Vec::new(alloc)),
    }
}

/// The front of a section, if it has one. It takes memory.
fn front_alone(
    alloc: Global,
    section_orders: &SectionOrders<'_>,
    section: Section,
) -> Result<Vec<Order>, OutOfMemory>
    ensures { IfOk result (λ v. v.items ≡ option_to_list (front_of section_orders.now.at section_orders.now.notes section)) }
{
    let mut orders = Vec::new(alloc);
    if let Some(front) = section_orders.front_of(alloc, section)? {
        orders.push(front)?;
    }
    Ok(orders)
}

/// What is restored first of all sections. It takes memory.
pub(crate) fn helping_orders(
    alloc: Global,
    section_orders: &SectionOrders<'_>,
    sections: &[Section],
    is_described: bool,
) -> Result<Vec<Order>, OutOfMemory>
    ensures { IfOk result (λ v. v.items
        ≡ flat_map (helping_of is_described section_orders.now.at section_orders.now.notes) sections.now) }
{
    let mut orders = Vec::new(alloc);
    for section in sections {
        let helping = helping_of(alloc, section_orders, *section, is_described)?;
        orders.extend_from_slice(&helping)?;
    }
    Ok(orders)
}

/// Adds the fronts of the sections of which nothing is restored first, and in which places lie that are asked for.
pub(crate) fn add_fronts(
    alloc: Global,
    orders: &mut Vec<Order>,
    section_orders: &SectionOrders<'_>,
    sections: &[Section],
    is_described: bool,
    asked: &[NamedPlace],
) -> Result<(), OutOfMemory>
    requires { IsNonDecreasingBy (λ n. n.place) asked.now }
    ensures { OnOk result (orders.new.items ≡ orders.old.items
        ++ filter_map (front_order is_described section_orders.now.at section_orders.now.notes asked.now) sections.now) }
{
    for section in sections {
        if let Some(front) = front_order(alloc, section_orders, *section, is_described, asked)? {
            orders.push(front)?;
        }
    }
    Ok(())
}

/// The front of a section of which nothing is restored first, if a place is asked for in it. It takes memory.
fn front_order(
    alloc: Global,
    section_orders: &SectionOrders<'_>,
    section: Section,
    is_described: bool,
    asked: &[NamedPlace],
) -> Result<Option<Order>, OutOfMemory>
    requires { IsNonDecreasingBy (λ n. n.place) asked.now }
    ensures { IfOk result (λ front. front
        ≡ front_order is_described section_orders.now.at section_orders.now.notes asked.now section) }
{
    let helping = helping_of(alloc, section_orders, section, is_described)?;
    if !helping.is_empty() {
        return Ok(None);
    }
    let Some(source) = first_source(asked, section_orders.start_of(section), section.end) else {
        return Ok(None);
    };
    match section_orders.front_of(alloc, section)? {
        Some(front) => Ok(Some(front_by(front, source))),
        None => Ok(None),
    }
}

/// The front, as it is restored to find a partition.
fn front_by(front: Order, source: Option<u64>) -> Order
    ensures { result ≡ front_by source front }
{
    Order {
        reason: Reason::Front,
        source,
        ..front
    }
}

/// The source that goes first of the places from an offset on, in bytes, up to an end if there is one; none if no place
/// lies there. Two binary searches, and a look at each of these.
fn first_source(asked: &[NamedPlace], from: u64, end: Option<u64>) -> Option<Option<u64>>
    requires { IsNonDecreasingBy (λ n. n.place) asked.now }
    ensures { result ≡ first_source asked.now from end }
{
    let places = between(asked, from, end);
    let mut first = None;
    for place in places {
        first = Some(earlier(first, place.source));
    }
    first
}

/// The source that goes first of one, if there is one, and another.
fn earlier(first: Option<Option<u64>>, source: Option<u64>) -> Option<u64>
    ensures { result ≡ earlier first source }
{
    match (first, source) {
        (None, source) => source,
        (Some(Some(first)), Some(source)) => Some(first.min(source)),
        _ => None,
    }
}
