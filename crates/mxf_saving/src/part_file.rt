//! The file that is written beside another, to take its place.
ghost use Rattle.std.specs.Prelude.{◌≡◌, IfOk, string_bytes};
ghost use Rattle.std.specs.Path.{path_buf_bytes};
ghost use Rattle.mxf_saving.specs.Saving.{IsBeside, part_name};

use crate::fault::SaveFault;
use crate::same_file::is_same_file;
use std::alloc::{AllocError, Global};
use std::fs::{self, File, OpenOptions, TryLockError};
use std::io::{self, ErrorKind};
use std::os::unix::fs::OpenOptionsExt;
use std::path::PathBuf;
use std::rt::Files;

/// What the name of the file beside ends with.
const ENDING: &str = ".mxf_tool.part";

/// The bytes of a name that has room for the ending: 255 is the most that a name has.
const LONGEST_FRONT: usize = 241;

/// How often a rename is tried again that is interrupted.
const RENAMES: u32 = 1024;

/// How often the file is tried to be made while others make and remove it.
const TRIES: u32 = 16;

/// A new file beside another, which no other program writes while it is open. It is removed unless it took the other's
/// place.
pub struct PartFile<'a, R: Files<File = File>> {
    rt: &'a R,
    path: PathBuf,
    file: File,
    is_renamed: bool,
}

impl<'a, R: Files<File = File> + AllocGlobal> PartFile<'a, R> {
    /// Makes the file beside the one at `path`. A private one is its owner's alone.
    ///
    /// It is made new and locked. One that stands there and that no program has locked was left by a run that was
    /// killed, and is removed; if a program has it locked, or files can't be locked, it is held.
    pub fn create(rt: &'a R, path: &PathBuf, is_private: bool) -> Result<PartFile<'a, R>, SaveFault>
        ensures { IfOk result (λ part. IsBeside (path_buf_bytes path.now) (path_buf_bytes part.path)) }
    {
        let beside = beside(rt.alloc(), path)?;
        let options = options(is_private);
        for _ in 0..TRIES {
            match options.open(rt, &beside) {
                Ok(file) => match is_locked(rt, &beside, &file) {
                    Ok(true) => {
                        return Ok(PartFile {
                            rt,
                            path: beside,
                            file,
                            is_renamed: false,
                        });
                    }
                    Ok(false) => {}
                    Err(fault) => {
                        // It was made here, and is empty.
                        let _ = fs::remove_file(rt, &beside);
                        return Err(fault);
                    }
                },
                Err(fault) if fault.kind() == ErrorKind::AlreadyExists => {
                    if !remove_left_over(rt, &beside)? {
                        return Err(SaveFault::Reserved(beside));
                    }
                }
                Err(fault) => return Err(SaveFault::from(fault)),
            }
        }
        Err(SaveFault::Reserved(beside))
    }

    /// The file, to be written.
    pub fn file(&self) -> &File {
        &self.file
    }

    /// Puts the file in the place of the one at `path`. If that is interrupted it is tried again, 1,024 times at most.
    pub fn rename(&mut self, path: &PathBuf) -> io::Result<()> {
        let mut renamed = fs::rename(self.rt, &self.path, path);
        for _ in 0..RENAMES {
            if !is_interrupted(&renamed) {
                break;
            }
            renamed = fs::rename(self.rt, &self.path, path);
        }
        self.is_renamed = renamed.is_ok();
        renamed
    }
}

impl<R: Files<File = File>> Drop for PartFile<'_, R> {
    fn drop(self) {
        let PartFile {
            rt,
            path,
            file: _file,
            is_renamed,
        } = self;
        if !is_renamed {
            let _ = fs::remove_file(rt, &path);
        }
    }
}

/// Whether a call was interrupted.
fn is_interrupted(answered: &io::Result<()>) -> bool {
    match answered {
        Ok(()) => false,
        Err(fault) => fault.kind() == ErrorKind::Interrupted,
    }
}

/// How the file is made: never over one that is there.
fn options(is_private: bool) -> OpenOptions {
    let mut options = OpenOptions::new();
    options.write(true).create_new(true);
    if is_private {
        options.mode(0o600);
    }
    options
}

/// Whether this run has the new file for itself: it is locked, or can't be, and the path is still its own.
fn is_locked<R: Files<File = File>>(
    rt: &R,
    path: &PathBuf,
    file: &File,
) -> Result<bool, SaveFault> {
    match file.try_lock() {
        Ok(()) => is_at(rt, path, file),
        Err(TryLockError::WouldBlock) => Ok(false),
        Err(TryLockError::Error(_)) => Ok(true),
    }
}

/// Whether the open file is the one at the path.
fn is_at<R: Files<File = File>>(rt: &R, path: &PathBuf, file: &File) -> Result<bool, SaveFault> {
    match fs::symlink_metadata(rt, path) {
        Ok(found) => Ok(is_same_file(&found, &file.metadata()?)),
        Err(fault) if fault.kind() == ErrorKind::NotFound => Ok(false),
        Err(fault) => Err(SaveFault::from(fault)),
    }
}

/// Removes the file at the path, unless a program has it locked, and answers whether the path is free or was it
/// meanwhile. What isn't a regular file, or can't be locked, stays.
fn remove_left_over<R: Files<File = File>>(rt: &R, path: &PathBuf) -> Result<bool, SaveFault> {
    match fs::symlink_metadata(rt, path) {
        Ok(found) if found.is_file() => {}
        Ok(_) => return Ok(false),
        Err(fault) if fault.kind() == ErrorKind::NotFound => return Ok(true),
        Err(fault) => return Err(SaveFault::from(fault)),
    }
    let file = match OpenOptions::new().write(true).open(rt, path) {
        Ok(file) => file,
        Err(fault) if fault.kind() == ErrorKind::NotFound => return Ok(true),
        Err(fault) => return Err(SaveFault::from(fault)),
    };
    if file.try_lock().is_err() {
        return Ok(false);
    }
    if is_at(rt, path, &file)? {
        fs::remove_file(rt, path)?;
    }
    Ok(true)
}

/// The path of the file beside the one at `path`.
fn beside(alloc: Global, path: &PathBuf) -> Result<PathBuf, SaveFault>
    ensures { IfOk result (λ beside. IsBeside (path_buf_bytes path.now) (path_buf_bytes beside)) }
{
    let Some(name) = path.file_name() else {
        return Err(SaveFault::Write(None));
    };
    let name = part_name(alloc, name)?;
    Ok(path.with_file_name(alloc, name.as_str())?)
}

/// The name of the file beside one of this name: the name and the ending, or the ending alone after a longer name.
fn part_name(alloc: Global, name: &str) -> Result<String, AllocError>
    ensures { IfOk result (λ part. string_bytes part ≡ part_name name.now) }
{
    let front = if name.len() > LONGEST_FRONT { "" } else { name };
    format!(in alloc; "{front}{ENDING}")
}
