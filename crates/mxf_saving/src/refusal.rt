//! The places where no catalogue is saved: recordings and whatever else it would destroy.
ghost use Rattle.std.specs.Prelude.{◌≡◌};
ghost use Rattle.mxf_saving.specs.Saving.{refusal_by};

use crate::beginning::Beginning;
use crate::same_file::is_same_file;
use crate::source::Source;
use crate::standard_output::is_standard_output;
use std::fs::{self, Metadata};
use std::io::{self, ErrorKind};
use std::rt::Files;

/// Why no catalogue is saved at a path.
#[derive(Clone, Copy, Debug)]
pub enum OutputRefusal {
    /// It is that of standard output.
    StandardOutput,
    /// It is that of a piece or a range among the sources.
    Source,
    /// A regular file stands there that begins with a label, as a recording does.
    Recording,
    /// A regular file stands there that is neither empty nor a catalogue.
    Other,
}

/// Why a catalogue may not be saved at `path`, if it may not.
///
/// A file that can't be looked at is an error, since it may be a recording. If nothing stands there, nothing is lost.
pub fn refusal_of<R: Files + AllocGlobal>(
    rt: &R,
    path: &str,
    sources: &[Source<'_>],
) -> io::Result<Option<OutputRefusal>> {
    if is_standard_output(rt, path) {
        return Ok(Some(OutputRefusal::StandardOutput));
    }
    match fs::metadata(rt, path) {
        Ok(found) if found.is_file() && is_piece(rt, &found, sources) => {
            Ok(Some(OutputRefusal::Source))
        }
        Ok(_) => refusal_at(rt, path),
        Err(fault) if fault.kind() == ErrorKind::NotFound => Ok(None),
        Err(fault) => Err(fault),
    }
}

/// Why what stands at the path isn't replaced by a catalogue, if it isn't.
pub fn refusal_at<R: Files + AllocGlobal>(rt: &R, path: &str) -> io::Result<Option<OutputRefusal>> {
    match Beginning::of(rt, path)? {
        Some(beginning) => Ok(refusal_by(beginning)),
        None => Ok(None),
    }
}

/// Why a regular file that begins so isn't replaced by a catalogue, if it isn't.
fn refusal_by(beginning: Beginning) -> Option<OutputRefusal>
    ensures { result ≡ refusal_by beginning }
{
    match beginning {
        Beginning::Nothing | Beginning::Catalogue => None,
        Beginning::Label => Some(OutputRefusal::Recording),
        Beginning::Other => Some(OutputRefusal::Other),
    }
}

/// Whether the file is that of a piece, range or slice among the sources, by whatever name.
fn is_piece<R: Files>(rt: &R, found: &Metadata, sources: &[Source<'_>]) -> bool {
    for source in sources {
        if let Some((_, path)) = source.place() {
            if fs::metadata(rt, path).is_ok_and(|piece| is_same_file(&piece, found)) {
                return true;
            }
        }
    }
    false
}
