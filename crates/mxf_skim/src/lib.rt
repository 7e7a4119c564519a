//! Passing over the values of a container's packets: what is noted of a packet whose bytes are there and weren't read
//! (this project's profile).
//!
//! | Question | Call |
//! |---|---|
//! | Is a packet one of a container, so that its value may be passed over? | [`is_of_container`] |
//! | What is noted of one that was passed over? | [`passed_over`] |
//! | Was the packet of a note passed over? | [`is_passed_over`] |
//! | What is held together, where some readings passed over what others read? | [`prefer_read`] |
//! | What is saved of it? | [`with_heads`] |
//!
//! A [`Scan`] says whether values are read or passed over. Inside a note 32 zero bytes stand for the digest of a value
//! that was passed over. No value is known that has this digest. So a note of a packet that was passed over is one of a
//! whole packet to every view, and stands after the packet's head and before the notes that hold its digest.
//!
//! What is proved: each call answers its function of the notes ([`laws`]).
#![tactic(auto)]

mod heads;
pub mod laws;
mod passed;
mod preferring;
mod scan;

pub use heads::with_heads;
pub use passed::{is_of_container, is_passed_over, passed_over};
pub use preferring::prefer_read;
pub use scan::Scan;
