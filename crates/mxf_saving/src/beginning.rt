//! What a file begins with.
ghost use Rattle.std.specs.Prelude.{◌≡◌};
ghost use Rattle.mxf_saving.specs.Beginnings.{beginning_of};

use std::fs;
use std::io::{self, Read};
use std::rt::Files;

/// What the first bytes of a file are.
#[derive(Clone, Copy)]
pub enum Beginning {
    /// There are none: the file is empty.
    Nothing,
    /// Those of a label, with which a packet begins (ST 336).
    Label,
    /// Those of a catalogue.
    Catalogue,
    /// Others, or too few.
    Other,
}

/// How many bytes are compared to know beginnings apart.
const FRONT: u64 = 7;

impl Beginning {
    /// What these bytes of a file's front are.
    fn of_bytes(front: &[u8]) -> Beginning
        ensures { result ≡ beginning_of front.now }
    {
        if front.is_empty() {
            Beginning::Nothing
        } else if front.starts_with(&[0x06u8, 0x0e, 0x2b, 0x34]) {
            Beginning::Label
        } else if front.starts_with(b"MXFCAT\0") {
            Beginning::Catalogue
        } else {
            Beginning::Other
        }
    }

    /// What the regular file at the path begins with; `None` if something else stands there.
    pub fn of<R: Files + AllocGlobal>(rt: &R, path: &str) -> io::Result<Option<Beginning>> {
        if !fs::metadata(rt, path)?.is_file() {
            return Ok(None);
        }
        let mut front = Vec::new(rt.alloc());
        fs::open(rt, path)?.take(FRONT).read_to_end(&mut front)?;
        Ok(Some(Beginning::of_bytes(&front)))
    }
}
