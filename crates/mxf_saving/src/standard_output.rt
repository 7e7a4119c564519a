//! Whether a path is that of standard output, into which the program's own lines go.
ghost use Rattle.std.specs.Prelude.{◌↔◌, IsTrue};
ghost use Rattle.mxf_saving.specs.Saving.{NamesStandardOutput};

use crate::same_file::is_same_file;
use std::fs::{self, Metadata};
use std::os::unix::fs::FileTypeExt;
use std::rt::Files;

/// Whether `path` is that of standard output: by its name, or since it is the same regular file or pipe.
pub fn is_standard_output<R: Files>(rt: &R, path: &str) -> bool
    ensures { NamesStandardOutput path.now → IsTrue result }
{
    if names_standard_output(path) {
        return true;
    }
    match (fs::metadata(rt, "/dev/stdout"), fs::metadata(rt, path)) {
        (Ok(output), Ok(found)) => keeps_lines(&output) && is_same_file(&output, &found),
        _ => false,
    }
}

/// Whether the path is a name of standard output.
fn names_standard_output(path: &str) -> bool
    ensures { IsTrue result ↔ NamesStandardOutput path.now }
{
    path == "/dev/stdout" || path == "/dev/fd/1" || path == "/proc/self/fd/1"
}

/// Whether a line that goes to this file would follow the catalogue that goes there.
fn keeps_lines(output: &Metadata) -> bool {
    output.is_file() || output.file_type().is_fifo()
}
