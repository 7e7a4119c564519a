//! The laws of edit units by timecode.

pub use crate::asked::pictures_lie_in_their_units;
pub use crate::coverage::timecodes_of_positions_by_definition;
pub use crate::positions::one_answer;
pub use crate::shown::ends_of_positions_by_definition;
pub use crate::stored::{positions_lie_near_their_units, stored_by_definition};
pub use crate::timecodes::{one_account_of_timecodes, timecodes_of_units_by_definition};
