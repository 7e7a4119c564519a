//! Views: what the packets that are held of a file say of it, whatever pieces they came in.
//!
//! [`Views`] has a [`Catalogue`](mxf_catalogue::Catalogue) of notes, one for each packet, and answers questions about
//! them. Views are made empty ([`Views::new`]) or of a catalogue ([`Views::of`]), are given a note ([`Views::add`]), a
//! catalogue ([`Views::merge`]) or a piece of the file (`absorb` of mxf_read, the entrance for bytes), and give their
//! catalogue back to be saved ([`Views::into_catalogue`]). Order and repeats don't matter.
//!
//! Offsets are bytes from the first byte of the header partition pack, lengths are bytes, an end is the offset after
//! the last byte. Lists rise by offset. A packet that shares a byte with a different one is disputed: only gaps and
//! some findings (mxf_findings) go by it.
//!
//! | Question | Call | Answer |
//! |---|---|---|
//! | Which partitions are held? | [`Views::partitions`] | [`PartitionAt`]: offset, end and pack |
//! | What do their packs state in numbers? | [`Views::partitions_in_numbers`] | [`Partition`], read once and kept |
//! | Which partition stands at an offset? | [`Views::partition_at`] | [`Partition`], or None |
//! | How does one name the one before it? | [`Views::link`], [`Views::link_of`] | [`Link`] |
//! | Do they hang together, header to footer? | [`Views::chain`] | [`Chain`] |
//! | Which bytes are missing, up to the greatest end, claimed ones too? | [`Views::gaps`] | runs from a start up to an
//! end |
//! | Which copies of the header metadata are there? | [`Views::copies`] | [`CopyInfo`]: start, bytes stated, bytes held
//! |
//! | Which of them is to be taken? | [`Views::preferred`] | [`CopyInfo`], or None |
//! | Which sets does the copy of a partition have? | [`Views::sets`], [`set_items`] | notes, and the items of one |
//! | What do the tags of a set stand for? | [`Views::primer_for`] | the primer pack of its copy |
//! | Which index table segments are held? | [`Views::segments`] | [`SegmentAt`] |
//! | What do they state in numbers? | [`Views::segments_in_numbers`] | [`SegmentInNumbers`], read once and kept |
//! | Which segment stands at an offset? | [`Views::segment_at`] | [`SegmentAt`], or None |
//! | Where does an edit unit begin? | [`Views::locate`] | [`Place`]: bytes from the start of its essence stream |
//! | What does the random index pack list? | [`Views::rip`], [`RipAt::entries`] | [`RipView`], each entry with its
//! [`Standing`] |
//! | Which entries are these, without standings? | [`RipAt::listed`] | [`RipEntry`](mxf_sets::RipEntry) |
//!
//! Each call's clause says that its answer is a function of the notes; a law of [`laws`] (`.._by_definition`) says what
//! that function is in the words of the standards. [`laws::well_formed_files_are_read_whole`] and the laws beside it say
//! what the answers are on a whole file. No question takes memory. The copies, what partitions and segments state in
//! numbers, and where random index packs and unreadable partition packs stand, are kept; all else is computed when it is
//! asked. What references lead to, and what is wrong or missing, is asked of mxf_findings.
//!
//! A piece whose first byte lies at `offset` (the whole program is the crate mxf_example):
//!
//! ```
//! let mut views = Views::new(rt.alloc());
//! let report = absorb(rt.alloc(), &mut views, offset, &bytes)?;
//! println!(rt; "{} packets, then {}", report.noted, report.stop)?;
//!
//! for gap in views.gaps() {
//!     println!(rt; "not held: from {} up to {}", gap.start, gap.end)?;
//! }
//! ```
#![tactic(auto)]

mod chain;
mod copy;
mod gap;
mod index;
mod kept;
pub mod laws;
mod partition;
mod placed;
mod random_index;
mod views;
mod whole_file;

pub use chain::{Chain, Link};
pub use copy::CopyInfo;
pub use copy::sets::{Sets, set_items, whole_items};
pub use copy::zone::{is_preface, is_set};
pub use gap::Gaps;
pub use index::place::{BadUnit, GREATEST_UNIT, Place, StreamPlace};
pub use index::{SegmentAt, SegmentInNumbers, Segments};
pub use partition::{Partition, PartitionAt, Partitions};
pub use placed::NotesAt;
pub use random_index::{RipAt, RipView, Standing, Standings, is_rip, read_rip};
pub use views::{ViewFault, Views};
