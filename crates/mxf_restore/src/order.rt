//! What is ordered of each section of a hole.
ghost use Rattle.std.specs.Prelude.{◌≡◌, ◌↔◌, ◌++◌, List, Some, false, true, filter, flat_map, map, max, nat_lt, IfOk};
ghost use Rattle.std.specs.Prelude.{OnOk};
ghost use Rattle.std.specs.Option.{option_map, option_map_or};
ghost use Rattle.mxf_places.specs.AtHand.{AtHandParts, has_offset, has_offsets, up_to_bound};
ghost use Rattle.mxf_places.specs.Claims.{claim_at, claims_of};
ghost use Rattle.mxf_places.specs.Heads.{start_of};
ghost use Rattle.mxf_catalogue.specs.Content.{IsContent};
ghost use Rattle.mxf_catalogue.specs.Covers.{IsCover};
ghost use Rattle.mxf_klv.specs.Parts.{NoteParts};
ghost use Rattle.mxf_restore.specs.EndPacks.{has_end_pack};
ghost use Rattle.mxf_restore.specs.Fronts.{IsFront, front_by, front_of, front_range, looked_for};
ghost use Rattle.mxf_restore.specs.Orders.{IsAsked};
ghost use Rattle.mxf_restore.specs.Plan.{asked, asked_of, begun_at, end_by, found_orders, is_again, is_whole_needed};
ghost use Rattle.mxf_restore.specs.Plan.{orders_by, orders_of, part_order, parts_of};
ghost use Rattle.mxf_restore.specs.declared.section.Section.{Section};
ghost use Rattle.mxf_restore.specs.declared.plan.Order.{Order};

use crate::end_pack::has_end_pack;
use crate::first::FirstClaims;
use crate::plan::Order;
use crate::section::{Section, sections};
use mxf_klv::{KEY_AND_LENGTH, MAX, OutOfMemory};
use mxf_places::{AtHand, Claim, Heads, Holdings, OffsetRange, Reason, up_to_bound};
use mxf_views::Views;
use std::alloc::Global;
use std::marker::Model;

/// How many bytes a front has at most.
const FRONT_BYTES: u64 = 65_536;

/// The bytes that are asked for of a section, by file offsets, be they at hand or not.
#[derive(Clone, Copy)]
struct AskedBytes {
    reason: Reason,
    start: u64,
    end: Option<u64>,
    source: Option<u64>,
}

impl Model for AskedBytes {
    ghost use Rattle.std.specs.Prelude.{false};
    ghost use Rattle.mxf_restore.specs.declared.plan.Order.{Order};

    ghost Value = { Order };

    ghost view = { λ a. record {
      reason = a.reason;
      start = a.start;
      end = a.end;
      source = a.source;
      inside = false;
      again = false;
    } };

    ghost inverse = { λ o. record { reason = o.reason; start = o.start; end = o.end; source = o.source } };
}

/// What is ordered of each section of a file, by what is held, at hand and claimed.
#[derive(Drop)]
pub struct SectionOrders<'a> {
    holdings: &'a Holdings<'a>,
    at_hand: &'a AtHand,
    claims: FirstClaims<'a>,
    heads: Heads<'a>,
}

impl<'a> Model for SectionOrders<'a> {
    ghost use Rattle.std.specs.Prelude.{◌≡◌};
    ghost use Rattle.mxf_places.specs.Claims.{claims_of};
    ghost use Rattle.mxf_places.specs.AtHand.{KnownParts};

    ghost Value = { KnownParts };

    ghost view = { λ e. record { notes = e.holdings.now; at = e.at_hand.now } };

    ghost invariant = { λ e. (e.claims ≡ claims_of e.holdings.now) × (e.heads ≡ e.holdings.now) };
}

impl<'a> SectionOrders<'a> {
    /// By what is held and at hand, and by the claims of all packs. It takes memory: n log n of the notes and the
    /// claims, as its time does.
    pub fn of(
        alloc: Global,
        holdings: &'a Holdings<'a>,
        at_hand: &'a AtHand,
        claims: &'a [Claim],
    ) -> Result<SectionOrders<'a>, OutOfMemory>
        requires { claims.now ≡ claims_of holdings.now }
        ensures { IfOk result (λ e. e ≡ record { notes = holdings.now; at = at_hand.now }) }
    {
        Ok(SectionOrders {
            holdings,
            at_hand,
            claims: FirstClaims::of(alloc, claims)?,
            heads: Heads::of(alloc, holdings.views().catalogue())?,
        })
    }

    /// Where a packet begins whose rest is the section, as a file offset in bytes: at the first head whose key and
    /// length end at the section's first byte, or else at that byte.
    pub fn start_of(&self, section: Section) -> u64
        ensures { result ≡ start_of self.now.notes section.first }
    {
        self.heads.around(section.first).offset
    }

    /// The first claim of the offset at which that packet begins.
    pub fn claim_of(&self, section: Section) -> Option<Claim>
        ensures { result ≡ claim_at self.now.notes (start_of self.now.notes section.first) }
    {
        self.claims.claim_at(self.start_of(section))
    }

    /// What is ordered of the section. It takes memory.
    pub fn orders_of(&self, alloc: Global, section: Section) -> Result<Vec<Order>, OutOfMemory>
        ensures { IfOk result (λ v. v.items ≡ orders_of self.now.at self.now.notes section) }
    {
        let mut orders = Vec::new(alloc);
        self.add_orders(alloc, &mut orders, section)?;
        Ok(orders)
    }

    /// The front of the section: the order of no more than the first 65,536 bytes of the first part of what is looked
    /// for. That is what is asked for of the section or, if nothing is, all from where its packet begins. None if it
    /// has no part. It takes memory.
    #[tactic(auto, unfolding(crate::specs::Fronts::front_of))]
    pub fn front_of(&self, alloc: Global, section: Section) -> Result<Option<Order>, OutOfMemory>
        ensures { IfOk result (λ o. o ≡ front_of self.now.at self.now.notes section) }
    {
        front_by(alloc, self.at_hand, section, self.looked_for(section))
    }

    /// What is asked for of a section; if nothing is, all from where its packet begins.
    fn looked_for(&self, section: Section) -> AskedBytes
        ensures { result ≡ looked_for self.now.at self.now.notes section }
    {
        match self.asked_of(section) {
            Some(asked) => asked,
            None => AskedBytes {
                reason: Reason::Gap,
                start: self.start_of(section),
                end: None,
                source: None,
            },
        }
    }

    /// What is asked for of a section, be it at hand or not.
    fn asked_of(&self, section: Section) -> Option<AskedBytes>
        ensures { result ≡ asked_of self.now.at self.now.notes section }
    {
        let head = self.heads.around(section.first);
        let claim = self.claims.claim_at(head.offset);
        let end = end_by(self.holdings, self.at_hand, section, claim);
        asked(
            self.holdings.views(),
            claim,
            head.offset,
            needed_end(end, head.needed, section.hole.end),
        )
    }

    /// Adds what is ordered of a section.
    #[tactic(auto, unfolding(crate::specs::Plan::orders_of))]
    fn add_orders(
        &self,
        alloc: Global,
        orders: &mut Vec<Order>,
        section: Section,
    ) -> Result<(), OutOfMemory>
        ensures { OnOk result (orders.new.items ≡ orders.old.items ++ orders_of self.now.at self.now.notes section) }
    {
        match self.asked_of(section) {
            Some(asked) => add_parts(alloc, self.at_hand, orders, section, asked),
            None => Ok(()),
        }
    }
}

/// What is asked for from a start on, in bytes, up to an end: for what the claim says, or for no reason. None if
/// nothing is claimed, there is no end, and a pack is held that stands at the end of a file alone.
fn asked(views: &Views, claim: Option<Claim>, start: u64, end: Option<u64>) -> Option<AskedBytes>
    ensures { result ≡ asked (has_end_pack views.now) claim start end }
{
    let (reason, source) = match claim {
        Some(claim) => (claim.reason, claim.source),
        None if end.is_some() || !has_end_pack(views) => (Reason::Gap, None),
        None => return None,
    };
    Some(AskedBytes {
        reason,
        start,
        end,
        source,
    })
}

/// Where the section ends, in bytes: one without an end ends where the file does, as far as that is known, unless its
/// claim is open, or fewer bytes are given from its first byte on than the key and length of a packet can have.
fn end_by(
    holdings: &Holdings<'_>,
    at_hand: &AtHand,
    section: Section,
    claim: Option<Claim>,
) -> Option<u64>
    ensures { result ≡ end_by at_hand.now holdings.now section claim }
{
    if section.end.is_some() {
        return section.end;
    }
    let edge = holdings.edge(at_hand);
    let reaches = section.first < holdings.greatest_end()
        || KEY_AND_LENGTH <= edge.saturating_sub(section.first);
    if reaches && !is_open(claim) {
        Some(edge)
    } else {
        None
    }
}

/// Whether the claim is open.
fn is_open(claim: Option<Claim>) -> bool
    ensures { result ≡ option_map_or (λ c. c.is_open) claim false }
{
    match claim {
        Some(claim) => claim.is_open,
        None => false,
    }
}

/// The end, in bytes, and no less than what is needed, as far as the bound.
fn needed_end(end: Option<u64>, needed: u64, bound: Option<u64>) -> Option<u64>
    ensures { result ≡ option_map (λ e. max e (up_to_bound needed bound)) end }
{
    Some(end?.max(up_to_bound(needed, bound)))
}

/// Adds the orders of the parts of what is asked for of a section.
fn add_parts(
    alloc: Global,
    at_hand: &AtHand,
    orders: &mut Vec<Order>,
    section: Section,
    asked: AskedBytes,
) -> Result<(), OutOfMemory>
    ensures { OnOk result (orders.new.items ≡ orders.old.items ++ orders_by at_hand.now section (Some asked)) }
{
    let parts = parts_of(alloc, at_hand, section, asked)?;
    add_part_orders(orders, at_hand, asked, &parts)
}

/// Adds the orders of some parts of what is asked for.
fn add_part_orders(
    orders: &mut Vec<Order>,
    at_hand: &AtHand,
    asked: AskedBytes,
    parts: &[OffsetRange],
) -> Result<(), OutOfMemory>
    ensures { OnOk result (orders.new.items
        ≡ orders.old.items ++ map (part_order at_hand.now asked) parts.now) }
{
    let found = parts.iter().map(|part| part_order(at_hand, asked, *part));
    Ok(orders.extend(found)?)
}

/// The parts of what is asked for of a section that aren't at hand; all of it if nothing would be left.
#[tactic(auto, unfolding(crate::specs::Plan::parts_of))]
fn parts_of(
    alloc: Global,
    at_hand: &AtHand,
    section: Section,
    asked: AskedBytes,
) -> Result<Vec<OffsetRange>, OutOfMemory>
    ensures { IfOk result (λ v. v.items ≡ parts_of at_hand.now section asked) }
{
    let mut parts = at_hand.lacking(alloc, section.first, asked.end)?;
    if parts.is_empty() {
        parts.push(OffsetRange {
            start: asked.start,
            end: asked.end,
        })?;
        return Ok(parts);
    }
    if is_whole_needed(at_hand, section, asked.start) {
        begin_at(&mut parts, asked.start);
    }
    retain_below(&mut parts, section.end);
    Ok(parts)
}

/// The order of the front of what is looked for of a section.
fn front_by(
    alloc: Global,
    at_hand: &AtHand,
    section: Section,
    asked: AskedBytes,
) -> Result<Option<Order>, OutOfMemory>
    ensures { IfOk result (λ o. o ≡ front_by at_hand.now section asked) }
{
    let parts = parts_of(alloc, at_hand, section, asked)?;
    let Some(first) = parts.first() else {
        return Ok(None);
    };
    Ok(Some(part_order(at_hand, asked, front_range(*first))))
}

/// The first bytes of a range: as many as a front has at most, and none at or above the greatest end of a packet if the
/// range has no end.
fn front_range(range: OffsetRange) -> OffsetRange
    ensures { result ≡ front_range range }
{
    let bound = range.end.unwrap_or(MAX);
    let end = range.start.saturating_add(FRONT_BYTES).min(bound);
    OffsetRange {
        start: range.start,
        end: Some(end),
    }
}

/// Lets the first of the ranges begin at a start, in bytes.
fn begin_at(ranges: &mut Vec<OffsetRange>, start: u64)
    ensures { ranges.new.items ≡ begun_at start ranges.old.items }
{
    if let Some(first) = ranges.first_mut() {
        first.start = start;
    }
}

/// Keeps the ranges that begin below an end, in bytes; all if there is none.
fn retain_below(ranges: &mut Vec<OffsetRange>, end: Option<u64>)
    ensures { ranges.new.items
        ≡ filter (λ r. option_map_or (λ e. nat_lt r.start e) end true) ranges.old.items }
{
    ranges.retain(|range| end.is_none_or(|end| range.start < end));
}

/// Whether a packet is ordered from its start on, in bytes: it is the section's first byte, or nothing of what follows
/// key and length of a head is at hand.
fn is_whole_needed(at_hand: &AtHand, section: Section, start: u64) -> bool
    ensures { result ≡ is_whole_needed at_hand.now section start }
{
    start == section.first || !at_hand.has(section.first)
}

/// The order of a part of what is asked for.
fn part_order(at_hand: &AtHand, asked: AskedBytes, part: OffsetRange) -> Order
    ensures { result ≡ part_order at_hand.now asked part }
{
    Order {
        reason: asked.reason,
        start: u128::from(part.start),
        end: part.end.map(u128::from),
        source: asked.source,
        inside: part.start != asked.start,
        again: is_again(at_hand, part),
    }
}

/// Whether the bytes were handed in and don't do: all of them are given; or, if their end isn't known, as many are at
/// hand as the key and length of a packet can have.
pub fn is_again(at_hand: &AtHand, part: OffsetRange) -> bool
    ensures { result ≡ is_again at_hand.now part }
{
    match part.end {
        Some(end) => at_hand.gives_all(part.start, end),
        None => at_hand.has_key_and_length(part.start),
    }
}

/// The orders of all sections, in the order of these. They take memory.
#[tactic(auto, unfolding(crate::specs::Plan::found_orders))]
pub(crate) fn found_orders(
    alloc: Global,
    holdings: &Holdings<'_>,
    at_hand: &AtHand,
    claims: &[Claim],
) -> Result<Vec<Order>, OutOfMemory>
    requires { claims.now ≡ claims_of holdings.now }
    ensures { IfOk result (λ v. v.items ≡ found_orders at_hand.now holdings.now) }
{
    let sections = sections(alloc, holdings, claims)?;
    let section_orders = SectionOrders::of(alloc, holdings, at_hand, claims)?;
    orders_in(alloc, &section_orders, &sections)
}

/// The orders of the sections, in the order of these.
fn orders_in(
    alloc: Global,
    section_orders: &SectionOrders<'_>,
    sections: &[Section],
) -> Result<Vec<Order>, OutOfMemory>
    ensures { IfOk result (λ v. v.items
        ≡ flat_map (orders_of section_orders.now.at section_orders.now.notes) sections.now) }
{
    let mut orders = Vec::new(alloc);
    for section in sections {
        section_orders.add_orders(alloc, &mut orders, *section)?;
    }
    Ok(orders)
}

/// A law of [`SectionOrders::front_of`]: the front is the order of the first bytes of the first part of what is looked
/// for of the section.
pub fn fronts_by_definition()
    ensures { (at : AtHandParts) (notes : List NoteParts) (p : Section) (o : Order) → IsContent notes
        → IsCover at.given → IsCover at.hand → (front_of at notes p ≡ Some o) ↔ IsFront at notes p o }
{}

/// A law of [`SectionOrders`]: what is asked for of a section begins where its packet does, for the reason and source
/// of the first claim there. It ends where the section does, or above that where the packets of its heads do, but no
/// higher than the hole. Of a section without an end that no pack claims nothing is asked for, if a pack is held that
/// stands at the end of a file alone.
pub fn asked_by_definition()
    ensures { (at : AtHandParts) (notes : List NoteParts) (p : Section) (o : Order) → IsContent notes
        → IsCover at.given → (asked_of at notes p ≡ Some o) ↔ IsAsked at notes p o }
{}
