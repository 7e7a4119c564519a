//! That asking what to restore, and restoring it, comes to an end (this project's profile): what an order of a plan
//! asks for that isn't there yet, and how many rounds there can be. And what is restored first for edit units.
//!
//! What is proved:
//!
//! - Each order that isn't `again` asks for a byte that isn't there ([`laws::each_order_asks_for_a_byte`]; of plans for
//!   edit units and for header metadata [`laws::each_order_for_units_asks_for_a_byte`]). Each that is `again` was handed
//!   in.
//! - Of an order that lies inside a packet no byte is held or at hand ([`laws::orders_inside_lack_all`]).
//! - A plan has no order exactly if nothing says that a byte is lacking, and a pack is held that stands at the end of a
//!   file alone ([`laws::nothing_is_ordered_where_nothing_lacks`]).
//! - Each round of restoring gives a byte of the file that no source gave. So there are no more rounds than such bytes
//!   ([`laws::restores_end`]).
//! - What is restored first for edit units is what helps to find them: which orders these are is said sentence by
//!   sentence ([`laws::helping_by_definition`]), and so is where the way from a partition pack to its essence ends
//!   ([`laws::ways_by_definition`]).
//!
//! That there are no more rounds is said of what sources give, so of runs with a range: in others nothing is given. It
//! is said of orders that aren't `again` and whose bytes the file has. That these are all, and that no order is left in
//! the end, is tried, not proved: a file whose packs name wrong places can go on asking for more.
//!
//! There is nothing to call here but laws.
#![tactic(auto)]

pub mod laws;
