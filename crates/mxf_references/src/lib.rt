//! References: what the sets of a file's header metadata name, and which set has an identifier.
//!
//! All of it is asked of [`Views`](mxf_views::Views), which know nothing of it. Offsets are bytes from the first byte
//! of the header partition pack.
//!
//! | Question | Call | Answer |
//! |---|---|---|
//! | Which programs wrote the file, which packages has it? | [`resolved`] | [`Resolved`]: each [`Ref`] with its
//! [`Target`] |
//! | Which set has an identifier? | [`find`], of many [`CopySets::find`] | [`Found`] |
//! | Can a packet be read by its kind? | [`is_unreadable`] | `true` if not |
//!
//! Each call's clause says that its answer is a function of the notes; a law of [`laws`] (`.._by_definition`) says what
//! that function is in the words of the standards. `resolved` takes memory, and fails only if it runs out; `find` takes
//! none.
#![tactic(auto)]

mod asked;
pub mod laws;
mod readable;
mod reference;

pub use asked::{find, resolved};
pub use readable::is_unreadable;
pub use reference::Found;
pub use reference::identified::CopySets;
pub use reference::resolved::Resolved;
pub use reference::target::{Ref, Refs, Target, Wanted};
