//! The place of a catalogue, held from before the sources are read until it is saved.
ghost use Rattle.std.specs.Prelude.{◌≡◌, IfOk};
ghost use Rattle.std.specs.Io.KnownBytes.{Appends};
ghost use Rattle.mxf_catalogue.specs.CatalogueFile.{file_bytes};
ghost use Rattle.mxf_saving.specs.Saving.{keeps_nothing};

use crate::attributes::permissions_of;
use crate::destination::{Destination, behind_links};
use crate::fault::SaveFault;
use crate::kept::{free_path, keep};
use crate::part_file::PartFile;
use crate::refusal::refusal_at;
use crate::system_fault::LastFault;
use crate::watched_writer::{BUFFER_BYTES, WatchedWriter};
use mxf_catalogue::Catalogue;
use mxf_klv::Encode;
use std::alloc::Global;
use std::fs::{self, File, Metadata, OpenOptions};
use std::io::{self, BufWriter, ErrorKind, Write};
use std::path::PathBuf;
use std::rt::Files;

/// The place of a catalogue, which no other join takes meanwhile.
#[derive(Drop)]
pub enum Reservation<'a, R: Files<File = File>> {
    /// A regular file, or nothing yet: the file beside is to take its place.
    File(ReservedFile<'a, R>),
    /// A terminal, a pipe or a device takes the bytes as they come.
    Stream(&'a str),
    /// Nothing is saved: what stands there is only looked at.
    Looked(&'a str),
}

/// The place of a regular file.
pub struct ReservedFile<'a, R: Files<File = File>> {
    path: PathBuf,
    before: Option<Metadata>,
    part: PartFile<'a, R>,
    folder: File,
}

// Written out, a drop is one call wherever the place is let go.
impl<R: Files<File = File>> Drop for ReservedFile<'_, R> {
    fn drop(self) {
        let ReservedFile {
            path: _path,
            before: _before,
            part: _part,
            folder: _folder,
        } = self;
    }
}

impl<'a, R: Files<File = File> + AllocGlobal> Reservation<'a, R> {
    /// Holds the place at `path`. A regular file there stays as it is until the catalogue is saved. A dry place isn't
    /// held, and nothing is written to it.
    pub fn take(rt: &'a R, path: &'a str, is_dry: bool) -> Result<Reservation<'a, R>, SaveFault> {
        if is_dry {
            return Ok(Reservation::Looked(path));
        }
        match Destination::of(rt, path)? {
            Destination::Stream => Ok(Reservation::Stream(path)),
            Destination::File { path, before } => {
                let folder = folder_of(rt, &path)?;
                let part = PartFile::create(rt, &path, before.is_some())?;
                Ok(Reservation::File(ReservedFile {
                    path,
                    before,
                    part,
                    folder,
                }))
            }
        }
    }

    /// Saves the file of the catalogue. A regular file, or none, is replaced by it whole and stays so after a loss of
    /// power; at a fault before that it is as it was. Anything else takes the bytes as they come.
    ///
    /// What stands there is looked at once more, since it may have come meanwhile: if it is no catalogue and not empty,
    /// or if there is no note to be saved and it isn't empty, it stays.
    ///
    /// If what stands there is to be kept, it gets a path beside its own, which is answered; of a dry place that at which
    /// it would be kept.
    ///
    /// No file is open any more when it answers, so that a line told afterwards can't go into one.
    pub fn save(
        self,
        rt: &R,
        catalogue: &Catalogue,
        keeps: bool,
    ) -> Result<Option<PathBuf>, SaveFault> {
        match self {
            Reservation::File(held) => held.save(rt, catalogue, keeps),
            Reservation::Looked(path) => look(rt, path, catalogue, keeps),
            Reservation::Stream(path) => {
                let file = OpenOptions::new().write(true).open(rt, path)?;
                write_whole(rt.alloc(), file, catalogue)?;
                Ok(None)
            }
        }
    }
}

impl<R: Files<File = File> + AllocGlobal> ReservedFile<'_, R> {
    /// Writes the file beside and puts it in its place. All of it has reached the disk then.
    fn save(
        self,
        rt: &R,
        catalogue: &Catalogue,
        keeps: bool,
    ) -> Result<Option<PathBuf>, SaveFault> {
        let mut held = self;
        held.write(rt, catalogue, keeps)
    }

    /// The same, with the place still held.
    fn write(
        &mut self,
        rt: &R,
        catalogue: &Catalogue,
        keeps: bool,
    ) -> Result<Option<PathBuf>, SaveFault> {
        let found = replaceable(rt, self.path.as_str(), catalogue)?;
        let file = self.part.file();
        if let Some(before) = found.as_ref().or(self.before.as_ref()) {
            file.set_permissions(permissions_of(before, &file.metadata()?))?;
        }
        write_whole(rt.alloc(), file, catalogue)?;
        file.sync_all()?;
        let kept = self.replace(rt, keeps && found.is_some())?;
        sync_folder(&self.folder)?;
        Ok(kept)
    }

    /// Puts the file beside in its place. If what stands there is to be kept, it is before that.
    fn replace(&mut self, rt: &R, keeps: bool) -> Result<Option<PathBuf>, SaveFault> {
        if !keeps {
            self.part.rename(&self.path)?;
            return Ok(None);
        }
        let kept = keep(rt, &self.path)?;
        if let Err(fault) = self.part.rename(&self.path) {
            let _ = fs::remove_file(rt, &kept);
            return Err(SaveFault::from(fault));
        }
        Ok(Some(kept))
    }
}

/// The path at which what stands at this one would be kept, if the catalogue may take its place.
fn look<R: Files + AllocGlobal>(
    rt: &R,
    path: &str,
    catalogue: &Catalogue,
    keeps: bool,
) -> Result<Option<PathBuf>, SaveFault> {
    let found = replaceable(rt, path, catalogue)?;
    if !keeps || found.is_none() {
        return Ok(None);
    }
    Ok(Some(free_path(rt, &behind_links(rt, path)?)?))
}

/// What stands at the path, if the catalogue may take its place.
fn replaceable<R: Files + AllocGlobal>(
    rt: &R,
    path: &str,
    catalogue: &Catalogue,
) -> Result<Option<Metadata>, SaveFault> {
    let found = match fs::metadata(rt, path) {
        Ok(found) => found,
        Err(fault) if fault.kind() == ErrorKind::NotFound => return Ok(None),
        Err(fault) => return Err(SaveFault::from(fault)),
    };
    if let Some(why) = refusal_at(rt, path)? {
        return Err(SaveFault::Refused(why));
    }
    if keeps_nothing(catalogue, found.is_file().then_some(found.len())) {
        return Err(SaveFault::NothingToKeep);
    }
    Ok(Some(found))
}

/// Whether a catalogue without a note would take the place of a file of this size, in bytes, that isn't empty.
fn keeps_nothing(catalogue: &Catalogue, size: Option<u64>) -> bool
    ensures { result ≡ keeps_nothing catalogue.now size }
{
    catalogue.is_empty() && size.is_some_and(|size| size > 0)
}

/// The folder of the file at the path, opened.
fn folder_of<R: Files<File = File>>(rt: &R, path: &PathBuf) -> io::Result<File> {
    let folder = match path.parent() {
        Some(folder) if !folder.as_os_str().is_empty() => folder.as_os_str(),
        _ => ".",
    };
    File::open(rt, folder)
}

/// Has the disk keep the new name of a file in the folder. Some file systems can't be asked, and keep it by themselves.
fn sync_folder(folder: &File) -> io::Result<()> {
    match folder.sync_all() {
        Err(fault) if fault.kind() != ErrorKind::InvalidInput => Err(fault),
        _ => Ok(()),
    }
}

/// Writes the file of the catalogue through a buffer, and hands the writer back.
fn write_whole<W: Write + Drop>(
    alloc: Global,
    writer: W,
    catalogue: &Catalogue,
) -> Result<W, SaveFault>
    ensures { IfOk result (λ w. Appends (W.contents writer) (W.contents w) (file_bytes catalogue.now)) }
{
    let last = LastFault::new();
    let mut out = BufWriter::with_capacity(alloc, BUFFER_BYTES, WatchedWriter::new(writer, &last))?;
    if catalogue.write_to(&mut out).is_err() || out.flush().is_err() {
        return Err(SaveFault::Write(last.get()));
    }
    match out.into_inner() {
        Ok(kept) => Ok(kept.into_inner()),
        Err(_) => Err(SaveFault::Write(last.get())),
    }
}
