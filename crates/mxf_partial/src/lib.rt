//! What to restore so that some edit units of a recording can be cut out and decoded: a partial restore (this project's
//! profile; index table segments, partitions and their streams are those of ST 377-1).
//!
//! The order that comes most often is not the whole file but some edit units of it. Where their bytes lie is known once
//! the index that places them and the partitions of their stream are held. [`UnitPlan`] orders what says more of that
//! first: footer partitions and index table segments whole, and the fronts of sections in which partitions may stand.
//! Then it orders the bytes of the units that are known, less what is held or at hand.
//!
//! What is proved: [`UnitPlan::of`] answers the one plan for some units ([`laws::one_unit_plan`]). Each byte that is
//! wanted of a unit is held, at hand or ordered, so if nothing is ordered, all of them are there
//! ([`laws::wanted_bytes_are_there`]); and an order of bytes of units has none that is held or at hand
//! ([`laws::orders_of_units_are_missing`]).
//!
//! It isn't promised that units without an index, or after packs that nothing names, are found. It is tested that no
//! order is left in the end, if what was ordered is handed in again and again.
//!
//! What to restore for the units from `from` up to `to`, that included:
//!
//! ```
//! let units = Units::of(alloc, &views, &at_hand, index_sid)?;
//! if let Some(range) = UnitRange::new(from, to) {
//!     let wanted = WantedUnits::of_range(alloc, &units, range)?;
//!     let plan = UnitPlan::of(alloc, &wanted)?;
//!     for order in plan.orders() {
//!         println!(rt; "{} from {}", order.reason, order.start)?;
//!     }
//! }
//! ```
#![tactic(auto)]

mod asks;
mod between;
mod greatest;
mod in_streams;
pub mod laws;
mod leads;
mod many;
mod named;
mod near;
mod place_streams;
mod plan;
mod questions;
mod streams;
mod wanted;
mod wanted_units;
mod ways;

pub use many::ManyUnits;
pub use plan::UnitPlan;
pub use wanted_units::WantedUnits;
