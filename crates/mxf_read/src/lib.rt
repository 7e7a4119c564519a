//! Pieces of a file, noted into views (this project's profile): the entrance for callers that have bytes. What is then
//! asked of the views, mxf_views says; the crate mxf_example is a whole program.
//!
//! A piece is bytes that begin at a packet, and the file offset of the first, in bytes. Pieces may come in any order,
//! overlap and repeat.
//!
//! What is proved: after [`absorb`] the views hold what they held and the notes of the piece: those of its packets, and
//! the head of the packet that its end cuts. The report gives the number of packets and why they end. Out of memory,
//! the views hold what they held and the notes of the packets that the fault counts, and
//! [`laws::going_on_completes_a_piece`] says that the rest completes the piece;
//! [`laws::going_on_after_a_fault_completes_a_piece`] says it of what a reader gave.
//! [`laws::packets_of_a_piece_stand_apart`] says how the notes of a piece lie.
//!
//! [`notes_from`] makes a catalogue of the notes of a piece, if no views are wanted; [`absorb_from`] does that and
//! moves them into views.
//!
//! [`gather`] takes any number of pieces, ranges and saved catalogues, from readers: what they hold together is exactly
//! what they hand, and a fault names the part that it is of. A range is bytes whose first may lie inside a packet:
//! [`start_of`] says where its piece begins, and [`laws::each_range_has_one_start`] that this is the one place. It is
//! looked for in the first 33,554,432 bytes, and [`laws::each_start_in_the_window_is_found`] says that none is missed
//! there.
//!
//! [`gather_skim`] does the same without reading what a container holds: it passes over the values of essence and of
//! what stands among it, by [`PassOver`]. Beside the digests it holds and reports what [`gather`] does.
//!
//! Callers that read otherwise feed a [`Piece`], or a [`ComingValue`] after a known key and length. Each read is a
//! [`read_step`].
//!
//! That memory is there, and that a call succeeds with it, is tested.
//!
//! Two pieces of a file, in any order:
//!
//! ```
//! let mut views = Views::new(alloc);
//! let tail = absorb(alloc, &mut views, 4096, last_bytes)?;
//! let head = absorb(alloc, &mut views, 0, first_bytes)?;
//! // head.noted, head.stop; views.partitions() ..
//! ```
//!
//! A piece and a saved catalogue, in any order:
//!
//! ```
//! let mut parts = Vec::new(alloc);
//! parts.push(Part::Piece { offset: 4096, from: piece })?;
//! parts.push(Part::Saved { from: catalogue })?;
//! let gathered = gather(alloc, parts)?;
//! // gathered.views.partitions(), gathered.reports.as_slice() ..
//! ```
#![tactic(auto)]

mod absorbing;
mod coming;
mod digesting;
mod gathering;
pub mod laws;
mod pass_over;
mod piece;
mod range;
mod reading;
mod report;
mod skimming;
mod ticks;

pub use absorbing::{PieceNotes, absorb, absorb_from, notes_from};
pub use coming::ComingValue;
pub use gathering::{
    GREATEST_PIECE, GREATEST_WINDOW, GatherFault, Gathered, Part, PartFault, PieceReport,
    PieceReports, gather, gather_skim,
};
pub use mxf_klv::Stop;
pub use pass_over::PassOver;
pub use piece::Piece;
pub use range::start_of;
pub use reading::{GREATEST_INTERRUPTIONS, Step, read_step};
pub use report::{AbsorbFault, Report};
pub use ticks::ReadTicks;
