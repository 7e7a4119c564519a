//! Findings: what views of a file show to be wrong or missing.
//!
//! All of it is asked of [`Views`](mxf_views::Views), which know nothing of it. Offsets are bytes from the first byte
//! of the header partition pack.
//!
//! | Question | Call | Answer |
//! |---|---|---|
//! | What is wrong or missing? | [`findings`] | [`Findings`]: each [`Code`] with its offset |
//!
//! Its clause says that the answer is a function of the notes; the law
//! [`findings_by_definition`](laws::findings_by_definition) says what that function is in the words of the standards.
//! It takes memory, and fails only if it runs out.
//!
//! Small files stand here too, with laws of which are well-formed, of their bytes, and of what the reading from the
//! front says of them.
#![tactic(auto)]

mod asked;
mod finding;
pub mod laws;
mod same_views;
mod small_files;

pub use asked::findings;
pub use finding::{Code, Finding, Findings};
