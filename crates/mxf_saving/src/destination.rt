//! Where a catalogue is saved.
ghost use Rattle.std.specs.Prelude.{◌≡◌, IfOk};
ghost use Rattle.std.specs.Path.{path_buf_bytes, path_with_file_name};

use crate::fault::SaveFault;
use std::alloc::{AllocError, Global};
use std::fs::{self, Metadata, OpenFile, OpenOptions};
use std::io;
use std::path::PathBuf;
use std::rt::Files;

/// How many links are followed, as many as Linux follows.
const GREATEST_LINKS: u32 = 40;

/// What stands where a catalogue is to be saved.
#[derive(Drop)]
pub enum Destination {
    /// A regular file, as it is found, or nothing yet. The path is that of no link.
    File {
        path: PathBuf,
        before: Option<Metadata>,
    },
    /// A terminal, a pipe or a device.
    Stream,
}

impl Destination {
    /// What stands at `path`, once all links are followed. A file that can't be written is a fault, although it could
    /// be replaced.
    pub fn of<R: Files + AllocGlobal>(rt: &R, path: &str) -> Result<Destination, SaveFault> {
        match fs::metadata(rt, path) {
            Ok(found) if found.is_file() => {
                let path = behind_links(rt, path)?;
                let before = Some(file_to_write(rt, &path)?);
                Ok(Destination::File { path, before })
            }
            Ok(_) => Ok(Destination::Stream),
            Err(fault) if fault.kind() == io::ErrorKind::NotFound => Ok(Destination::File {
                path: behind_links(rt, path)?,
                before: None,
            }),
            Err(fault) => Err(SaveFault::from(fault)),
        }
    }
}

/// What the file is, which has to let itself be written.
fn file_to_write<R: Files>(rt: &R, path: &PathBuf) -> io::Result<Metadata> {
    OpenOptions::new().write(true).open(rt, path)?.metadata()
}

/// The path, which is no link, that links lead to from `path`. Nothing need stand there.
pub(crate) fn behind_links<R: Files + AllocGlobal>(rt: &R, path: &str) -> io::Result<PathBuf> {
    let mut path = PathBuf::from_str(rt.alloc(), path)?;
    for _ in 0..=GREATEST_LINKS {
        if !is_link(rt, &path)? {
            return Ok(path);
        }
        let text = fs::read_link(rt, &path)?;
        path = link_target(rt.alloc(), &path, text.as_str())?;
    }
    Err(io::Error::from(io::ErrorKind::FilesystemLoop))
}

/// Whether a link stands at the path.
fn is_link<R: Files>(rt: &R, path: &PathBuf) -> io::Result<bool> {
    match fs::symlink_metadata(rt, path) {
        Ok(found) => Ok(found.is_symlink()),
        Err(fault) if fault.kind() == io::ErrorKind::NotFound => Ok(false),
        Err(fault) => Err(fault),
    }
}

/// The path that a link leads to by its text, which counts from the link's folder.
fn link_target(alloc: Global, link: &PathBuf, text: &str) -> Result<PathBuf, AllocError>
    ensures { IfOk result (λ target. path_buf_bytes target ≡ path_with_file_name (path_buf_bytes link.now) text.now) }
{
    link.with_file_name(alloc, text)
}
