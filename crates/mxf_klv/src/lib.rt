//! Labels, lengths, packets and notes: the KLV coding of SMPTE ST 336, with the packet kinds of ST 377-1.
//!
//! | Question | Call | Answer |
//! |---|---|---|
//! | What stands at the front of bytes? | [`read_packet`], [`read_ber`] | a packet, a length, or the first fault |
//! | What is the next packet of a piece? | [`next_packet`] | the packet and its bytes, or the [`Stop`] |
//! | What is a packet? | [`kind`] of its key | [`Kind`], which prints as its word |
//! | What is kept of a packet? | [`Note::of`] | [`Note`]: file offset, key, length, and its value or a digest of that |
//! | How is a value written? | [`Encode`] | its bytes, or how many of them were written |
//!
//! Offsets and lengths are in bytes, and no packet ends above [`MAX`]. What is proved: packets and lengths are read
//! exactly, what is written is read back, each piece has exactly one list of packets and one stop, and notes that
//! compare alike are one ([`laws`]).
//!
//! The packets of a piece that lies at `offset` of a file, and a note of each:
//!
//! ```
//! let mut rest = bytes;
//! while let Ok((packet, size)) = next_packet(offset, rest) {
//!     let note = Note::of(alloc, offset, &packet)?;
//!     // note.kind(), note.end(), note.held() ..
//!     offset += size as u64;
//!     rest = &rest[size..];
//! }
//! ```
#![tactic(auto)]

mod ber;
mod kinds;
mod label;
pub mod laws;
mod memory;
mod note;
mod packet;
mod piece;
mod search;
mod sorting;
mod writing;

pub use ber::{Ber, BerFault, read_ber};
pub use kinds::table::kind;
pub use kinds::{Kind, Status};
pub use label::Ul;
pub use memory::OutOfMemory;
pub use note::{Held, MAX, NotANote, Note, NoteFault};
pub use packet::{Packet, PacketFault, read_packet};
pub use piece::{KEY_AND_LENGTH, Stop, cut_head, next_key_and_length, next_packet};
pub use search::{Keyed, below, between, count_with_key, has_key, up_to};
pub use sorting::sort_once;
pub use writing::{Encode, Progress, WriteFault};
