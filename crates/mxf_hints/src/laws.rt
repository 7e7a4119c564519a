//! The law of shifts.
pub use crate::shift::one_shift;
