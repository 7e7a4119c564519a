//! What a run says to a person, and how it ends (this project's profile): faults, the exit status, and hints, which are
//! told on a terminal or as they are asked for.
//!
//! | What is told | Call |
//! |---|---|
//! | why a run ends without its answer, and what to do about it | [`tell`] of a [`RunFault`] |
//! | what a refused argument may have been meant for | [`RefusalHint`] |
//! | which sources end before their bytes do, or have no packet | [`tell_stops`], [`tell_foreign`] |
//! | which begin elsewhere by their partition packs | [`tell_offsets`], if something [`is_contradicted`] |
//! | what of the sources doesn't go together | [`tell_together`], [`tell_unsettled`], [`tell_two_recordings`] |
//! | what a description says too little of, and which packets before an order may be bad too | [`tell_left_open`] |
//! | which index is meant, and that it isn't held | [`found_units`] |
//!
//! What is proved: the exit status of each end of a run ([`Exit`]), the end for each fault, and whether hints are told
//! ([`Telling::of`]). What each part holds by itself is its run alone ([`gather_each`]), and the [`Shift`] of a content
//! is the only one that all of its partition packs say ([`laws::one_shift`]). The edit units that are asked for are
//! those between the bounds that words say, by the clock of the index that is meant ([`found_units`]). The words of
//! hints are tested.
#![tactic(auto)]

mod again;
mod apart;
mod beside;
mod contents;
mod disputing;
mod exit;
mod fault;
mod filled;
mod found;
mod fragment;
mod front;
mod hint;
mod index;
mod kept;
pub mod laws;
mod offsets;
mod open_header;
mod packets;
mod part;
mod refusal;
mod shift;
mod sized;
mod stops;
mod telling;
mod unit_range;

pub use apart::tell_unsettled;
pub use beside::tell_left_open;
pub use contents::{Contents, gather_each, gather_one};
pub use disputing::{tell_together, tell_two_recordings};
pub use exit::Exit;
pub use fault::{IndexSids, RunFault, ToldClock};
pub use found::{FoundUnits, found_units};
pub use hint::SKIM_HINT;
pub use kept::KeptHint;
pub use offsets::{is_contradicted, tell_offsets};
pub use part::part_of;
pub use refusal::RefusalHint;
pub use shift::{Shift, shift_of};
pub use stops::{tell_foreign, tell_stops};
pub use telling::{Telling, line_on_screen, tell, tell_on_screen};
pub use unit_range::UnitSpan;
