//! Why a catalogue isn't saved.
use crate::refusal::OutputRefusal;
use crate::system_fault::SystemFault;
use std::alloc::AllocError;
use std::io;
use std::path::PathBuf;

/// Why a catalogue wasn't saved.
#[derive(Debug, Drop)]
pub enum SaveFault {
    /// Out of memory.
    OutOfMemory,
    /// What stands there is replaced by no catalogue.
    Refused(OutputRefusal),
    /// The catalogue has no note, and a file with bytes stands there.
    NothingToKeep,
    /// Another join holds this file, which takes the place of the one before.
    Reserved(PathBuf),
    /// A file couldn't be looked at, made, written, synced or renamed, as the system says.
    Write(Option<SystemFault>),
}

impl From<io::Error> for SaveFault {
    ghost use Rattle.std.specs.IoError.{error_kind};
    ghost use Rattle.mxf_saving.specs.Saving.{IsSaveFaultOf};

    ghost from_gives = { λ e fault. IsSaveFaultOf (error_kind e) fault };

    fn from(fault: io::Error) -> SaveFault {
        match fault.kind() {
            io::ErrorKind::OutOfMemory => SaveFault::OutOfMemory,
            _ => SaveFault::Write(SystemFault::of(&fault)),
        }
    }
}

impl From<AllocError> for SaveFault {
    ghost use Rattle.std.specs.Prelude.{◌≡◌};
    ghost use Rattle.mxf_saving.specs.declared.fault.SaveFault.TheVariants as faults;

    ghost from_gives = { λ _ fault. fault ≡ faults.OutOfMemory };

    fn from(_fault: AllocError) -> SaveFault {
        SaveFault::OutOfMemory
    }
}
