//! The SHA-256 digests of several values, four of them side by side (FIPS 180-4).
//!
//! A vector has one word of each of four values. So the rounds of a block, each of which waits for the one before, are
//! done of four blocks at once. That takes no instructions for SHA-256, but vectors of four words, which each processor
//! has that the program runs on.
//!
//! What is proved: each digest is that of the value's bytes by the definition of `sha2`, whatever the lengths, and
//! however many values there are ([`digests`]). That it is faster than one value after another is measured.
//!
//! The digests of the values of three packets:
//!
//! ```
//! let mut found = [[0u8; 32]; 3];
//! digests(&[first.value(), second.value(), third.value()], &mut found);
//! ```
#![tactic(auto)]

mod lanes;
mod padding;
mod queue;
mod rounds;
mod words;

pub use queue::digests;
