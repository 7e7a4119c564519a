//! Clocks: which positions of an index have which timecodes, by what the header metadata of the preferred copy say.
//!
//! A position is an edit unit as it is shown, counted from 0. Where nothing is reordered, the unit stored at a position
//! is that position.
//!
//! [`Clocks`] are runs of positions. A [`Run`] tells the number and the timecode of each of its positions. The laws of
//! [`laws`] say which position is shown at which number, without runs.
#![tactic(auto)]

mod choices;
mod clock_track;
mod clocks;
mod file_package;
mod fraction;
mod index_rates;
pub mod laws;
mod material;
mod origins;
mod run;
mod source;
mod tables;
mod track_for;

pub use clocks::Clocks;
pub use fraction::Fraction;
pub use run::Run;
