//! The law of strings.
pub use crate::strings::escaped_text_is_given_back;
