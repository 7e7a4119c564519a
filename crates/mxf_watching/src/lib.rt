//! Reading a file, and telling on a terminal how far a long piece has been read (this project's profile).
//!
//! [`Watched`] reads a file of a [`Source`](mxf_saving::Source), and keeps what the system says of a read that fails.
//! If standard error is a terminal ([`Screen`]) and the file is long, a line there says how far the reading is.
//!
//! What is proved: what is read through a [`Watched`] is what the file has. The line is that of its definition, and it
//! is told only of a long piece and after its pause. [`text_on_screen`] has a question mark for each control character,
//! so that no path moves the cursor.
#![tactic(auto)]

mod line;
mod progress;
mod screen;
mod shown;
mod watched;

pub use screen::Screen;
pub use shown::text_on_screen;
pub use watched::Watched;
