//! The two printings of a line, as text for people and scripts, and as a JSON object for programs (RFC 8259; which
//! lines there are is this project's profile).
//!
//! A line is its name and its fields. [`FieldWriter`] takes them one by one, and writes each in the [`Form`] that is
//! asked for.
//!
//! What is proved: what is written of each field is the printing of its definition, in either form. A reader of JSON
//! takes each text as it is ([`laws::escaped_text_is_given_back`]). [`hex_text`] has two digits for each byte.
#![tactic(auto)]

mod field_writer;
mod form;
mod hexadecimal;
pub mod laws;
mod strings;

pub use field_writer::FieldWriter;
pub use form::Form;
pub use hexadecimal::{HexDigits, hex_text};
