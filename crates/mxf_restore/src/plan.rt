//! What to restore next.
ghost use Rattle.std.specs.Prelude.{◌≡◌, ◌↔◌, ◌⊎◌, ◌<◌, ◌==◌, ℕ, [], List, None, Some, false, find, IfOk};
ghost use Rattle.std.specs.List.{filter_map};
ghost use Rattle.mxf_klv.specs.Parts.{NoteParts, PacketParts};
ghost use Rattle.mxf_klv.specs.Note.{covered_end};
ghost use Rattle.mxf_klv.specs.Piece.{end_after, notes_from};
ghost use Rattle.mxf_views.specs.WellFormed.{IsWellFormed};
ghost use Rattle.mxf_restore.specs.WholeFiles.{EndsInRandomIndex, NothingIsBeyond};
ghost use Rattle.mxf_klv.specs.Rising.{In, IsRising, union};
ghost use Rattle.mxf_catalogue.specs.Content.{IsContent};
ghost use Rattle.mxf_catalogue.specs.Covers.{IsCover};
ghost use Rattle.mxf_catalogue.specs.Runs.{LiesIn};
ghost use Rattle.mxf_views.specs.Gaps.{IsGap};
ghost use Rattle.mxf_places.specs.AtHand.{AtHandParts, edge_of, nothing_at_hand};
ghost use Rattle.mxf_places.specs.Claims.{claims_of};
ghost use Rattle.mxf_places.specs.Held.{IsHeld};
ghost use Rattle.mxf_restore.specs.Sections.{sections_of};
ghost use Rattle.std.specs.Option.{option_to_list};
ghost use Rattle.mxf_restore.specs.DisputedPlaces.{IsDisputedPlace};
ghost use Rattle.mxf_restore.specs.EndPacks.{HasEndPack};
ghost use Rattle.mxf_places.specs.declared.reason.Reason.TheVariants.{Gap};
ghost use Rattle.mxf_restore.specs.Orders.{IsLastPiece, IsOrder};
ghost use Rattle.mxf_restore.specs.Plan.{LiesInOrder, asked_of, disputed_place_cmp, disputed_place_of, order_cmp};
ghost use Rattle.mxf_restore.specs.Plan.{orders_of, plan_of};
ghost use Rattle.mxf_restore.specs.declared.section.Section.{Section};
ghost use Rattle.mxf_restore.specs.declared.plan.DisputedPlace.{DisputedPlace};
ghost use Rattle.mxf_restore.specs.declared.plan.Order.{Order};

use crate::disputed_place::found_disputed_places;
use crate::order::found_orders;
use mxf_klv::{OutOfMemory, sort_once};
use mxf_places::{AtHand, Claim, Holdings, Reason, claims};
use mxf_views::Views;
use std::alloc::Global;
use std::marker::Model;

/// Bytes to restore: a packet begins at `start`, as far as what is held says, unless they lie inside of one. Where they
/// begin and end fits a `u64`, so that the bytes of all orders of a plan can be counted.
#[derive(Clone, Copy, Debug, PartialEq, Eq, PartialOrd, Ord)]
pub struct Order {
    pub reason: Reason,
    /// The file offset of the first byte.
    pub start: u128,
    /// The file offset after the last byte; none if that isn't known.
    pub end: Option<u128>,
    /// The file offset of the pack that says so; none if no pack does.
    pub source: Option<u64>,
    /// No packet begins at `start`: the bytes before it are at hand.
    pub inside: bool,
    /// The bytes were handed in already, and don't do.
    pub again: bool,
}

impl Model for Order {
    ghost use Rattle.std.specs.Prelude.{◌<◌, ◌^◌, IfSome};
    ghost use Rattle.mxf_restore.specs.Parts.{OrderParts};

    ghost Value = { OrderParts };

    ghost view = { λ o. record {
      reason = o.reason;
      start = o.start;
      end = o.end;
      source = o.source;
      inside = o.inside;
      again = o.again;
    } };

    ghost inverse = { λ o. record {
      reason = o.reason;
      start = o.start;
      end = o.end;
      source = o.source;
      inside = o.inside;
      again = o.again;
    } };

    ghost invariant = { λ o. (o.start < 2 ^ 64) × IfSome o.end (λ e. e < 2 ^ 64) };
}

/// A place that matters and is held in two readings.
#[derive(Clone, Copy, Debug, PartialEq, Eq, PartialOrd, Ord)]
pub struct DisputedPlace {
    pub reason: Reason,
    /// A file offset, in bytes.
    pub place: u64,
    /// The file offset of the pack that names it; none if no pack does.
    pub source: Option<u64>,
}

/// What to restore next of a file that is held in parts, as far as what is held says (this project's profile).
///
/// Whoever restores the bytes of all orders, hands each in as a piece at its start, and asks again, comes to a plan
/// without orders, if the packs of the file tell the truth. That is tested, not proved. Of a file with neither a footer
/// partition nor a random index pack one order is left, which has no end and no pack: where that file ends isn't known.
#[derive(Drop)]
pub struct Plan {
    orders: Vec<Order>,
    disputed_places: Vec<DisputedPlace>,
    end: Option<u64>,
}

impl Model for Plan {
    ghost use Rattle.mxf_restore.specs.Plan.{PlanParts};

    ghost Value = { PlanParts };

    ghost view = { λ p. record { orders = p.orders.items; disputed_places = p.disputed_places.items; end = p.end } };
}

impl Plan {
    /// What to restore next of the file of the views, some of whose bytes are at hand beside what is held. It takes
    /// memory: n log n of the notes and of the runs at hand, as its time does.
    pub fn of(alloc: Global, views: &Views, at_hand: &AtHand) -> Result<Plan, OutOfMemory>
        ensures { IfOk result (λ p. p ≡ plan_of at_hand.now views.now) }
    {
        let holdings = Holdings::of(alloc, views)?;
        let claims = claims(alloc, &holdings)?;
        Plan::by(alloc, &holdings, at_hand, &claims)
    }

    /// The plan of what is held, at hand and claimed.
    #[tactic(auto, unfolding(crate::specs::Plan::plan_of))]
    fn by(
        alloc: Global,
        holdings: &Holdings<'_>,
        at_hand: &AtHand,
        claims: &[Claim],
    ) -> Result<Plan, OutOfMemory>
        requires { claims.now ≡ claims_of holdings.now }
        ensures { IfOk result (λ p. p ≡ plan_of at_hand.now holdings.now) }
    {
        let orders = in_order(found_orders(alloc, holdings, at_hand, claims)?);
        let disputed_places = disputed_places_in_order(found_disputed_places(
            alloc, holdings, claims,
        )?);
        Ok(Plan {
            orders,
            disputed_places,
            end: holdings.end(),
        })
    }

    /// The orders, what helps most first: by reason, then by start.
    pub fn orders(&self) -> &[Order]
        ensures { result.now ≡ self.now.orders }
    {
        &self.orders
    }

    /// Places that matter and are held in two readings, each once, by reason and then by place. Nothing is ordered for
    /// them: a growing recording rewrites its packs.
    pub fn disputed_places(&self) -> &[DisputedPlace]
        ensures { result.now ≡ self.now.disputed_places }
    {
        &self.disputed_places
    }

    /// The end of the file, in bytes, if it is known: that of its random index pack.
    pub fn end(&self) -> Option<u64>
        ensures { result ≡ self.now.end }
    {
        self.end
    }
}

/// The orders in their order.
fn in_order(mut orders: Vec<Order>) -> Vec<Order>
    ensures { result.items ≡ union order_cmp [] orders.items }
{
    sort_once(&mut orders);
    orders
}

/// The disputed places in their order.
fn disputed_places_in_order(mut disputed_places: Vec<DisputedPlace>) -> Vec<DisputedPlace>
    ensures { result.items ≡ union disputed_place_cmp [] disputed_places.items }
{
    sort_once(&mut disputed_places);
    disputed_places
}

/// A law of [`Plan::orders`]: they are what is ordered of the sections of the file, and rise by reason, start, end and
/// source. The orders of a section are the parts of what is asked for of it that aren't at hand, or all of it if
/// nothing of it is lacking.
pub fn orders_by_definition()
    ensures members { (at : AtHandParts) (notes : List NoteParts) (o : Order)
        → In o (plan_of at notes).orders
        ↔ ((p : Section) × In p (sections_of notes) × In o (orders_of at notes p)) }
    ensures sections { (at : AtHandParts) (notes : List NoteParts) (p : Section) (o : Order) → IsContent notes
        → IsCover at.given → IsCover at.hand → In o (orders_of at notes p) ↔ IsOrder at notes p o }
    ensures orders { (at : AtHandParts) (notes : List NoteParts) (o : Order) → IsContent notes → IsCover at.given
        → IsCover at.hand → In o (plan_of at notes).orders
        ↔ ((p : Section) × In p (sections_of notes) × IsOrder at notes p o) }
    ensures rising { (at : AtHandParts) (notes : List NoteParts) → IsRising order_cmp (plan_of at notes).orders }
{}

/// A law of [`Plan::orders`]: no two of them have one start.
pub fn starts_are_apart()
    ensures { (at : AtHandParts) (notes : List NoteParts) (o r : Order) → IsContent notes → IsCover at.hand
        → In o (plan_of at notes).orders → In r (plan_of at notes).orders → o.start ≡ r.start → o ≡ r }
{}

/// A law of [`Plan::disputed_places`]: they are the places in the file that some claim speaks of and that a disputed
/// packet covers, each with the reason and source of the claim that goes first: the first of its place, in the order of
/// the claims. They rise by reason, place and source.
pub fn disputed_places_by_definition()
    ensures places { (at : AtHandParts) (notes : List NoteParts) (d : DisputedPlace) → IsContent notes
        → In d (plan_of at notes).disputed_places ↔ IsDisputedPlace notes d }
    ensures members { (at : AtHandParts) (notes : List NoteParts) (d : DisputedPlace)
        → In d (plan_of at notes).disputed_places
        ↔ (find (λ e. e.place == d.place) (filter_map (disputed_place_of notes) (claims_of notes)) ≡ Some d) }
    ensures rising { (at : AtHandParts) (notes : List NoteParts)
        → IsRising disputed_place_cmp (plan_of at notes).disputed_places }
{}

/// A law of [`Plan::orders`]: each byte of a gap that lies below the end of the file, or, if that isn't known, below
/// the greatest end, is at hand or lies in an order.
pub fn gaps_are_ordered()
    ensures { (at : AtHandParts) (notes : List NoteParts) (x : ℕ) → IsContent notes → IsGap notes x
        → x < edge_of at notes
        → LiesIn at.hand x ⊎ ((o : Order) × In o (plan_of at notes).orders × LiesInOrder o x) }
{}

/// A law of [`Plan::orders`]: if no byte is at hand, each is all that is asked for of its section.
pub fn orders_where_nothing_is_at_hand()
    ensures { (notes : List NoteParts) (p : Section) → IsContent notes → In p (sections_of notes)
        → orders_of nothing_at_hand notes p ≡ option_to_list (asked_of nothing_at_hand notes p) }
{}

/// A law of [`Plan::orders`]: of an order no byte is held, but for the key and the length of a head at its start.
pub fn orders_are_missing()
    ensures { (at : AtHandParts) (notes : List NoteParts) (o : Order) (x : ℕ) → IsContent notes
        → In o (plan_of at notes).orders → LiesInOrder o x → IsHeld notes x
        → (n : NoteParts) × In n notes × (n.whole ≡ false) × (n.offset ≡ o.start) × (x < covered_end n) }
{}

/// A law of [`Plan::orders`]: of the notes of a well-formed file nothing is ordered if its last packet is a random
/// index pack, whatever is at hand; or if no pack speaks of an offset at or above its end, and no such offset is given.
pub fn whole_files_have_no_order()
    ensures { (l : List PacketParts) (at : AtHandParts) → IsWellFormed l → IsCover at.given → IsCover at.hand
        → EndsInRandomIndex l ⊎ NothingIsBeyond at (notes_from 0 l) (end_after 0 l)
        → (plan_of at (notes_from 0 l)).orders ≡ [] }
{}

/// A law of [`Plan::orders`]: an order without an end that no pack speaks of is there exactly where the file has a last
/// piece, and no pack is held that stands at the end of a file alone: no footer partition pack that is clear and can be
/// read, and no clear random index pack. So a plan of a file that is still written isn't empty while nobody knows its
/// end.
pub fn last_pieces_by_definition()
    ensures { (at : AtHandParts) (notes : List NoteParts) → IsContent notes → IsCover at.given → IsCover at.hand
        → ((o : Order) × In o (plan_of at notes).orders × (o.reason ≡ Gap) × (o.end ≡ None))
        ↔ ((p : Section) × IsLastPiece at notes p × ¬ HasEndPack notes) }
{}
