//! What to restore next of a file that is held in parts: the plan, and what is disputed (this project's profile).
//!
//! It is a function of the content of a catalogue, what packs name and count, and which offsets no packet covers; and
//! of the bytes at hand. What is there in sources, and in no noted packet, isn't ordered.
//!
//! What is held, where the file ends and what packs claim of offsets is asked of mxf_places. Whoever needs only some of
//! the bytes asks what is ordered of a single section, or of its front, where a partition may begin
//! ([`SectionOrders`]); and which places packs name that are missing ([`named_places`]).
//!
//! What is proved: [`Plan::of`], [`SectionOrders`] and [`named_places`] answer these functions. Laws
//! (`.._by_definition`) say what they are made of, beside those of mxf_places: the holes and their sections, what is
//! asked for of a section ([`laws::asked_by_definition`]) and what is ordered ([`laws::orders_by_definition`]), the
//! disputed and the missing places, and the front of a section. Each missing byte below the end is at hand or lies in
//! an order ([`laws::gaps_are_ordered`]). No byte of an order is held but for the key and length of a head at its start
//! ([`laws::orders_are_missing`]). No two orders begin at one offset ([`laws::starts_are_apart`]). If nothing is at
//! hand, all that is asked for is ordered ([`laws::orders_where_nothing_is_at_hand`]). Nothing of a whole file is
//! ordered ([`laws::whole_files_have_no_order`]). What follows all that is held, where the end of the file isn't known,
//! is ordered unless a footer partition or a random index pack is held ([`laws::last_pieces_by_definition`]). How many
//! packets are disputed, and where, is by the disputed notes ([`Disputes::of`], [`laws::disputes_by_definition`]).
//!
//! That no order is left in the end, if what was ordered is handed in again and again, is tested.
//!
//! What to restore next of what two pieces hold together:
//!
//! ```
//! let gathered = gather(alloc, parts)?;
//! let plan = Plan::of(alloc, &gathered.views, &AtHand::nothing(alloc))?;
//! for order in plan.orders() {
//!     println!(rt; "{} from {}", order.reason, order.start)?;
//! }
//! ```
#![tactic(auto)]

mod disputed_place;
mod disputes;
mod end_pack;
mod first;
pub mod laws;
mod named;
mod order;
mod plan;
mod section;

pub use disputes::Disputes;
pub use named::{NamedPlace, is_missing, named_places};
pub use order::{SectionOrders, is_again};
pub use plan::{DisputedPlace, Order, Plan};
pub use section::{Section, holes, sections};
