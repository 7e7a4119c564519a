//! What a catalogue replaces and what is kept of it: a catalogue that holds more.
ghost use Rattle.std.specs.Prelude.{◌≡◌, ◌↔◌, ◌≤◌, IfOk, IsTrue, string_bytes};
ghost use Rattle.std.specs.Path.{path_buf_bytes};
ghost use Rattle.mxf_saving.specs.Kept.{HoldsMore, IsKeptBeside, kept_name};

use crate::beginning::Beginning;
use crate::fault::SaveFault;
use crate::same_file::is_same_file;
use crate::source::Source;
use mxf_catalogue::Catalogue;
use std::alloc::{AllocError, Global};
use std::fs::{self, File, Metadata, OpenOptions};
use std::io::{self, ErrorKind};
use std::path::PathBuf;
use std::rt::Files;

/// What the name ends with under which a file is kept.
const ENDING: &str = ".before";

/// The bytes of a name that has room for the ending and a number: 255 is the most that a name has.
const LONGEST_FRONT: usize = 240;

/// How many names are tried.
const NAMES: u32 = 1_000_000;

/// Whether one catalogue holds more than another: it has a note that the other lacks, and that isn't the head of a
/// whole one there.
pub fn holds_more(before: &Catalogue, after: &Catalogue) -> bool
    ensures { IsTrue result ↔ HoldsMore before.now after.now }
{
    !before.notes().all(|note| after.has(note))
}

/// Whether a regular file stands at the path that begins as a catalogue, and it is none of the sources, by whatever
/// name.
pub fn is_other_catalogue<R: Files + AllocGlobal>(
    rt: &R,
    path: &str,
    sources: &[Source<'_>],
) -> io::Result<bool> {
    match fs::metadata(rt, path) {
        Ok(found) if is_source(rt, &found, sources) => Ok(false),
        Ok(_) => Ok(matches!(Beginning::of(rt, path)?, Some(Beginning::Catalogue))),
        Err(fault) if fault.kind() == ErrorKind::NotFound => Ok(false),
        Err(fault) => Err(fault),
    }
}

/// Whether the file is that of a source, by whatever name.
fn is_source<R: Files>(rt: &R, found: &Metadata, sources: &[Source<'_>]) -> bool {
    for source in sources {
        if fs::metadata(rt, source.path()).is_ok_and(|file| is_same_file(&file, found)) {
            return true;
        }
    }
    false
}

/// Keeps the file at the path beside it, under the first of its names at which nothing stands, and answers that path.
/// The file stays at its own path too.
pub(crate) fn keep<R: Files<File = File> + AllocGlobal>(
    rt: &R,
    path: &PathBuf,
) -> Result<PathBuf, SaveFault> {
    for number in 1..=NAMES {
        let kept = kept_path(rt.alloc(), path, number)?;
        if is_kept_at(rt, path, &kept)? {
            return Ok(kept);
        }
    }
    Err(SaveFault::Write(None))
}

/// The path at which the file would be kept.
pub(crate) fn free_path<R: Files + AllocGlobal>(
    rt: &R,
    path: &PathBuf,
) -> Result<PathBuf, SaveFault> {
    for number in 1..=NAMES {
        let kept = kept_path(rt.alloc(), path, number)?;
        match fs::symlink_metadata(rt, &kept) {
            Ok(_) => {}
            Err(fault) if fault.kind() == ErrorKind::NotFound => return Ok(kept),
            Err(fault) => return Err(SaveFault::from(fault)),
        }
    }
    Err(SaveFault::Write(None))
}

/// Gives the file at the path a second path, unless something stands there; answers whether nothing did. Where a file
/// can't have two paths its bytes are copied.
fn is_kept_at<R: Files<File = File>>(
    rt: &R,
    path: &PathBuf,
    kept: &PathBuf,
) -> Result<bool, SaveFault> {
    match fs::hard_link(rt, path, kept) {
        Ok(()) => return Ok(true),
        Err(fault) if fault.kind() == ErrorKind::AlreadyExists => return Ok(false),
        Err(_) => {}
    }
    match OpenOptions::new()
        .write(true)
        .create_new(true)
        .open(rt, kept)
    {
        Ok(file) => {
            copy_into(rt, path, kept, &file)?;
            Ok(true)
        }
        Err(fault) if fault.kind() == ErrorKind::AlreadyExists => Ok(false),
        Err(fault) => Err(SaveFault::from(fault)),
    }
}

/// Copies the bytes at the path into a new file, which is removed at a fault.
fn copy_into<R: Files<File = File>>(
    rt: &R,
    path: &PathBuf,
    kept: &PathBuf,
    file: &File,
) -> Result<(), SaveFault> {
    let copied = match fs::copy(rt, path, kept) {
        Ok(_) => file.sync_all(),
        Err(fault) => Err(fault),
    };
    if let Err(fault) = copied {
        let _ = fs::remove_file(rt, kept);
        return Err(SaveFault::from(fault));
    }
    Ok(())
}

/// The path at which the file is kept under the name with this number.
fn kept_path(alloc: Global, path: &PathBuf, number: u32) -> Result<PathBuf, SaveFault>
    ensures { IfOk result (λ kept. IsKeptBeside (path_buf_bytes path.now) number (path_buf_bytes kept)) }
{
    let Some(name) = path.file_name() else {
        return Err(SaveFault::Write(None));
    };
    let name = kept_name(alloc, name, number)?;
    Ok(path.with_file_name(alloc, name.as_str())?)
}

/// The name with this number under which a file of this name is kept: the ending alone after a longer name.
fn kept_name(alloc: Global, name: &str, number: u32) -> Result<String, AllocError>
    ensures { IfOk result (λ kept. string_bytes kept ≡ kept_name name.now number) }
{
    let front = if name.len() > LONGEST_FRONT { "" } else { name };
    if number == 1 {
        format!(in alloc; "{front}{ENDING}")
    } else {
        format!(in alloc; "{front}{ENDING}.{number}")
    }
}
