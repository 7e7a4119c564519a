//! A reading of a recording beside an earlier one, and sources beside a reference (this project's profile).
//!
//! What is proved, and where it is said:
//! - which notes can't be of one reading, and which notes a catalogue hasn't and contradicts: [`Opposing`],
//!   [`laws::contradictions_by_definition`], [`laws::oppositions_by_definition`];
//! - what stays and what is dropped of an earlier catalogue that a later reading renews: [`renew`],
//!   [`laws::renewals_by_definition`], [`laws::renewals_have_what_was_read_anew`],
//!   [`laws::renewals_drop_what_was_read_anew`], [`laws::renewals_join_what_agrees`]; and whether the later reading is
//!   of another recording: [`laws::other_recordings_by_definition`];
//! - what sources have of a reference, bytes that are read by its notes or saved catalogues: which notes are the same,
//!   which differ, what wasn't compared: [`verify`], [`Verification`], [`laws::one_verification`],
//!   [`laws::verifications_tell_what_is_so`], [`laws::each_compared_note_is_the_same_or_differs`],
//!   [`laws::a_changed_byte_is_of_one_note`], [`laws::verifications_are_of_a_set_of_sources`],
//!   [`laws::catalogues_agree_where_joining_them_changes_nothing`],
//!   [`laws::a_whole_reference_is_verified_by_its_packets`];
//! - how the edit units of an index stand beside sources, and which of them a packet has a byte of: [`VerifiedUnits`],
//!   [`laws::one_fixity`], [`laws::one_account_of_units`].
//!
//! That memory is there, and that a call succeeds with it, is tested.
#![tactic(auto)]

mod agreement;
mod candidate;
mod compared;
mod comparing;
mod comparison;
mod finishing;
mod fixity;
mod hashing;
pub mod laws;
mod note_set;
mod opposing;
mod others;
mod ranges;
mod reading;
mod reference;
mod renewal;
mod saved;
mod seen;
mod told;
mod told_bytes;
mod unit_places;
mod verification;
mod verified_units;
mod verifying;

pub use fixity::UnitFixity;
pub use opposing::Opposing;
pub use reference::Reference;
pub use renewal::{DroppedNote, DroppedNotes, Renewed, renew};
pub use unit_places::UnitSpan;
pub use verification::{CutNote, Differing, Verification, VerifiedCounts};
pub use verified_units::{UnitRun, VerifiedUnits};
pub use verifying::{VerifyFault, verify};
