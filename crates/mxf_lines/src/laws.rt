//! The laws of what is printed.

pub use crate::one_run::one_run_one_print;
pub use crate::printing::{
    told_disputes_by_definition, verified_status_by_definition, whole_status_by_packets,
};
