//! The lines in which a run says what it holds (this project's profile): what is shown, checked, located and joined,
//! as text for people and scripts, or as JSON for programs.
//!
//! What is proved: [`answer`] writes exactly the lines that are asked for, and nothing else; after a failed write the
//! first bytes of them, which it counts, and out of memory some whole lines. Its status says whether a check
//! found something, and whether an edit unit has one place; that of [`print_verification`], whether what is asked for
//! was verified; that of [`print_unit_plan`], whether edit units need anything more, or wait for bytes beside disputed
//! packets ([`laws::told_disputes_by_definition`]). A line is its name and its fields, of which text and JSON are two
//! printings (mxf_forms). Two runs that were handed the same print the same ([`laws::one_run_one_print`]).
//!
//! That memory is there, and that a call succeeds with it, is tested.
//!
//! What two pieces hold together:
//!
//! ```
//! let gathered = gather(alloc, parts)?;
//! let at_hand = AtHand::nothing(alloc);
//! let status = answer(alloc, &Ask::Show { scan: Scan::Full }, Form::Text, &gathered, &at_hand, &mut writer)?;
//! ```
#![tactic(auto)]

pub mod laws;
mod one_run;
mod printing;

pub use printing::{
    AnswerFault, Searched, Verified, answer, print_edit_units, print_found, print_many_plan,
    print_map, print_metadata_plan, print_renewed, print_sources, print_unit_plan,
    print_verification, timecodes_shown,
};
