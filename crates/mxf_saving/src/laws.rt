//! The law of sources.
pub use crate::source::one_source;
