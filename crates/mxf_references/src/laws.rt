//! The laws of references.

pub use crate::reference::found_by_definition;
pub use crate::reference::resolved::resolved_by_definition;
pub use crate::reference::target::targets_by_definition;
