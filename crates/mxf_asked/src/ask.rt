//! What a run is asked for of what sources hold together.
use mxf_skim::Scan;

/// What a run is asked for.
#[derive(Clone, Copy, PartialEq, Eq)]
pub enum Ask {
    /// What was noted of each piece, and all that is known of the recording, by a reading or a skim.
    Show { scan: Scan },
    /// What is found wrong or missing.
    Check,
    /// What is found wrong or missing, and what is in doubt.
    Doubts,
    /// What the recording is, by its header metadata.
    Describe,
    /// Where the edit unit begins in its essence stream, by the index of this IndexSID.
    Locate { index: u32, unit: u64 },
    /// How many notes the parts hold together.
    Join,
    /// What to restore next.
    Plan,
}
