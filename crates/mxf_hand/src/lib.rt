//! Putting together packets of bytes at hand: those that lie over the border of two sources, and those whose head alone
//! is noted (this project's profile).
//!
//! A range that ends inside a packet notes its head, and the range that follows it notes nothing of it. If the bytes of
//! both are there, [`put_together`] reads what would be ordered as if it had been restored: a section of a hole from
//! where a packet begins, and the value of a head. It goes on in rounds, since what is put together names further
//! places.
//!
//! What sources give of the file is a [`Given`], and [`Sources`] are read again at its offsets. [`put_together_by`]
//! does the same by a scan: a skim passes over the values of a container's packets and doesn't read them.
//! [`excerpts`] says what of sources it needs: a skim doesn't compare these values either.
//!
//! What is proved: the answer is its function of the content, of the scan and of the bytes at hand, whichever source
//! they are read of. Laws: the order of sources doesn't matter ([`laws::one_content_of_sources`]), what is held stays
//! ([`laws::what_is_held_stays`]), and what is clear stays clear ([`laws::what_is_clear_stays_clear`]). If what packs
//! say of places is right in each round, only packets of a file are made of that file's bytes
//! ([`laws::only_packets_of_the_file`]). If all bytes of a well-formed file are at hand as well, all of its packets are
//! ([`laws::the_whole_file_is_put_together`]). These two say it of a scan that reads all values. If one more round
//! changes nothing, what was saved changes nothing beside the same sources ([`laws::saved_beside_its_sources`]). What is
//! said of histories of calls is said of it ([`laws::put_together_is_a_history`]).
//!
//! A range that ends inside a packet, or lies in one, then has nothing missing: [`settle`] takes such a piece for whole
//! ([`laws::whole_stops_by_definition`]).
//!
//! What two ranges hold together with what is put together of their bytes:
//!
//! ```
//! let gathered = gather(alloc, parts)?;
//! let given = Given::of(alloc, extents)?;
//! let whole = put_together(alloc, gathered.views, given, &mut sources)?;
//! let plan = Plan::of(alloc, &whole.views, &whole.at_hand)?;
//! ```
#![tactic(auto)]

mod barren;
mod found;
mod given;
mod hand;
mod head;
pub mod laws;
mod putting;
mod section;
mod settling;

pub use given::{
    BytesAt, Excerpt, Extent, Given, InMemory, Reading, SourceFault, Sources, excerpts,
};
pub use putting::{PutTogether, put_together, put_together_by};
pub use settling::settle;
