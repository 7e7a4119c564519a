//! What to restore of header metadata.
ghost use Rattle.std.specs.Prelude.{◌≡◌, ◌↔◌, ℕ, IfOk, List, filter};
ghost use Rattle.mxf_klv.specs.Parts.{NoteParts};
ghost use Rattle.mxf_klv.specs.Rising.{In, IsRising};
ghost use Rattle.mxf_places.specs.AtHand.{AtHandParts};
ghost use Rattle.mxf_restore.specs.Plan.{order_cmp};
ghost use Rattle.mxf_restore.specs.declared.plan.Order.{Order};
ghost use Rattle.mxf_partial.specs.MetadataPlans.{IsMetadataOrder, is_of_metadata, metadata_plan};

use super::{UnitPlan, in_order};
use crate::leads::helping_orders;
use mxf_klv::OutOfMemory;
use mxf_places::{AtHand, Holdings, Reason, claims};
use mxf_restore::{Order, SectionOrders, sections};
use std::alloc::Global;

impl UnitPlan {
    /// What to restore so that a copy of the header metadata is held, as long as none tells which edit units are meant:
    /// of what helps to find units the header, footers, and the metadata of partitions. It takes memory: n log n of the
    /// notes and the runs at hand, as its time does.
    pub fn of_metadata(
        alloc: Global,
        holdings: &Holdings<'_>,
        at_hand: &AtHand,
    ) -> Result<UnitPlan, OutOfMemory>
        ensures { IfOk result (λ p. p ≡ metadata_plan at_hand.now holdings.now) }
    {
        let claims = claims(alloc, holdings)?;
        let sections = sections(alloc, holdings, &claims)?;
        let section_orders = SectionOrders::of(alloc, holdings, at_hand, &claims)?;
        let mut orders = helping_orders(alloc, &section_orders, &sections, false)?;
        retain_metadata(&mut orders);
        Ok(UnitPlan {
            orders: in_order(orders),
            end: holdings.end(),
        })
    }
}

/// Keeps the orders of header metadata.
fn retain_metadata(orders: &mut Vec<Order>)
    ensures { orders.new.items ≡ filter is_of_metadata orders.old.items }
{
    orders.retain(|order| is_of_metadata(order));
}

/// Whether an order is of the header, of a footer, or of header metadata.
fn is_of_metadata(order: &Order) -> bool
    ensures { result ≡ is_of_metadata order.now }
{
    matches!(
        order.reason,
        Reason::Header | Reason::Footer | Reason::Metadata
    )
}

/// A law of [`UnitPlan::of_metadata`]: it has the orders of header metadata among those that help to find units, and no
/// others, in their order.
pub fn metadata_plan_by_definition()
    ensures members { (at : AtHandParts) (notes : List NoteParts) (o : Order)
        → In o (metadata_plan at notes).orders ↔ IsMetadataOrder at notes o }
    ensures rising { (at : AtHandParts) (notes : List NoteParts) → IsRising order_cmp (metadata_plan at notes).orders }
{}
