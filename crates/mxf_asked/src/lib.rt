//! What a run is asked for (this project's profile): plain records and words, below what reads them of a command line
//! and below what prints the answer.
//!
//! A [`Request`] is a [`Task`] and the form of its lines ([`Form`](mxf_forms::Form)), of sources that words name and a
//! list after them. An [`Ask`] is answered of what sources hold together, and a [`Grid`] says how many cells the
//! picture of a map has.
#![tactic(auto)]

mod ask;
mod grid;
mod hints;
mod request;
mod units;

pub use ask::Ask;
pub use grid::Grid;
pub use hints::Hints;
pub use request::{NamedSources, Renewing, Request, Saving, Task, Told, Verifying};
pub use units::{AskedUnits, IndexedUnits, NamedUnit};
