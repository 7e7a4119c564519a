//! What a skim says, beside what a reading of the same bytes says (this project's profile).
//!
//! A skim passes over the values of a container's packets. Two notes of whole packets are alike if they differ in their
//! digests alone: one packet was read twice, with two values. A skim can't tell these two.
//!
//! What is proved, where a reading holds no two notes of a container's packets that are alike:
//!
//! - A skim of the same parts holds the notes of the reading, but that packets of a container were passed over of which
//!   no saved catalogue has the note ([`laws::skims_say_what_readings_say`], [`laws::skims_hold_what_was_read`]). They
//!   are a content ([`laws::skims_are_contents`]), disputed and clear as those of the reading are
//!   ([`laws::skims_are_disputed_as_readings_are`]).
//! - All views, the gaps ([`laws::skims_have_the_same_views`]), the findings ([`laws::skims_have_the_same_findings`]) and the
//!   doubts ([`laws::skims_have_the_same_doubts`]) are those of the reading.
//! - All lines of `show`, `check`, `check --doubts`, `describe`, `locate` and `join` are those of the reading, and so is the status, but
//!   that `show` says ` head` of a packet that was passed over ([`laws::skims_print_what_readings_print`]).
//! - What is saved of the skim, joined with the reading, is the reading
//!   ([`laws::saved_skims_are_completed_by_readings`]); joined with the skim it is the skim
//!   ([`laws::saved_skims_say_nothing_new`]).
//!
//! Where some are alike, the notes of all other packets are those of the reading still, disputed as these are
//! ([`laws::skims_dispute_the_other_packets`]).
//!
//! The skim of a well-formed file has the views of the reading of the file from the front
//! ([`laws::skims_of_whole_files_are_read_from_the_front`]): no notes of such a file are alike.
//!
//! There is nothing to call here but laws.
#![tactic(auto)]

pub mod laws;
