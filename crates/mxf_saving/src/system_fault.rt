//! What the system says of a call that failed.
use std::cell::Cell;
use std::{fmt, io};

/// The system's number of an error. It prints as the system's words for it.
#[derive(Clone, Copy, Debug, PartialEq, Eq)]
pub struct SystemFault(i32);

/// Nothing stands at the path.
pub const NOT_FOUND: SystemFault = SystemFault(2);

/// Too many files are open.
pub const TOO_MANY_FILES: SystemFault = SystemFault(24);

impl SystemFault {
    /// What the system said, if the fault is the system's.
    pub fn of(fault: &io::Error) -> Option<SystemFault> {
        match fault.raw_os_error() {
            Some(number) => Some(SystemFault(number)),
            None => None,
        }
    }
}

impl fmt::Display for SystemFault {
    fn fmt<W: fmt::Write>(&self, f: &mut fmt::Formatter<W>) -> fmt::Result {
        let fault = io::Error::from_raw_os_error(self.0);
        write!(f, "{fault}")
    }
}

/// What the system said last of a read or a write that failed. Readers and writers keep it here, since the libraries
/// answer that one failed, and not why.
#[derive(Drop)]
pub struct LastFault {
    kept: Cell<Option<SystemFault>>,
}

impl LastFault {
    /// Nothing has failed.
    pub fn new() -> LastFault {
        LastFault {
            kept: Cell::new(None),
        }
    }

    /// Keeps what the system said of this fault.
    pub fn keep(&self, fault: &io::Error) {
        self.kept.set(SystemFault::of(fault));
    }

    /// What was kept last.
    pub fn get(&self) -> Option<SystemFault> {
        self.kept.get()
    }
}
