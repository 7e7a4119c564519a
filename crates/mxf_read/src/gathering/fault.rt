//! Why the parts of a run weren't gathered.
ghost use Rattle.std.specs.Prelude.{◌≡◌, ◌⊎◌};
ghost use Rattle.mxf_read.specs.declared.gathering.fault.PartFault.TheVariants as faults;

use crate::reading::Cause;
use crate::report::AbsorbFault;
use mxf_catalogue::FileFault;
use mxf_klv::OutOfMemory;
use std::alloc::{AllocError, AllocFailed};
use thiserror::Error;

/// What is at fault in a part.
#[derive(Clone, Copy, Debug, PartialEq, Eq, Error)]
pub enum PartFault {
    /// A read failed, or was interrupted more than 1,024 times.
    #[error("a read failed")]
    ReadFault,
    /// The file of a catalogue has more than 1,073,741,824 bytes.
    #[error("too long")]
    TooLong,
    /// The bytes aren't the file of a catalogue. It never has the cause `OutOfMemory`.
    #[error("{0}")]
    Catalogue(FileFault),
    /// A growth was refused.
    #[error("out of memory")]
    OutOfMemory,
}

impl From<AllocError> for PartFault {
    ghost from_gives = { λ _ e. e ≡ faults.OutOfMemory };

    fn from(_fault: AllocError) -> PartFault {
        PartFault::OutOfMemory
    }
}

impl<T: Drop> From<AllocFailed<T>> for PartFault {
    ghost from_gives = { λ _ e. e ≡ faults.OutOfMemory };

    fn from(_fault: AllocFailed<T>) -> PartFault {
        PartFault::OutOfMemory
    }
}

impl From<OutOfMemory> for PartFault {
    ghost from_gives = { λ _ e. e ≡ faults.OutOfMemory };

    fn from(_fault: OutOfMemory) -> PartFault {
        PartFault::OutOfMemory
    }
}

impl From<Cause> for PartFault {
    ghost from_gives = { λ _ e. (e ≡ faults.OutOfMemory) ⊎ (e ≡ faults.ReadFault) };

    fn from(cause: Cause) -> PartFault {
        match cause {
            Cause::OutOfMemory => PartFault::OutOfMemory,
            Cause::ReadFault => PartFault::ReadFault,
        }
    }
}

impl From<AbsorbFault> for PartFault {
    ghost from_gives = { λ _ e. (e ≡ faults.OutOfMemory) ⊎ (e ≡ faults.ReadFault) };

    fn from(fault: AbsorbFault) -> PartFault {
        match fault {
            AbsorbFault::OutOfMemory { .. } => PartFault::OutOfMemory,
            AbsorbFault::ReadFault { .. } => PartFault::ReadFault,
        }
    }
}

/// The first part that is at fault, by its number, counted from 0.
#[derive(Clone, Copy, Debug, PartialEq, Eq, Error)]
#[error("part {part}: {fault}")]
pub struct GatherFault {
    pub part: usize,
    pub fault: PartFault,
}
