//! Sources that are read again: their files are opened once more, by their paths.
ghost use Rattle.std.specs.Prelude.{◌≡◌, ◌≤◌, IfOk, length};
ghost use Rattle.mxf_saving.specs.Sources.{source_parts};
ghost use Rattle.mxf_sources.specs.Ranges.{gives_count, gives_from};

use mxf_hand::{Excerpt, Extent, Sources};
use mxf_klv::MAX;
use mxf_read::Step;
use mxf_saving::{LastFault, Source};
use std::fs::{self, File};
use std::io::{self, ErrorKind, Read, Seek, SeekFrom};

/// A file that is open, and the number of its source.
#[derive(Drop)]
struct OpenFile {
    source: usize,
    file: File,
}

/// The bytes of a source in its file after some of them: where they begin, and how many there are at most.
#[derive(Clone, Copy)]
struct Rest {
    start: u64,
    size: u64,
}

impl Rest {
    /// Of the source, after that many of its bytes.
    fn of(source: &Source<'_>, position: u64) -> Rest {
        match *source {
            Source::Slice { offset, length, .. } => Rest {
                start: offset.saturating_add(position),
                size: length.saturating_sub(position),
            },
            Source::Piece { .. } | Source::Range { .. } | Source::Saved { .. } => Rest {
                start: position,
                size: u64::MAX,
            },
        }
    }
}

/// Excerpts of the sources of a run, whose files are opened again where their bytes are asked for. Two at most are
/// open: those that are compared.
#[derive(Drop)]
pub struct Reopened<'r, 's> {
    rt: &'r HostRuntime,
    sources: &'s [Source<'s>],
    extents: &'s [Extent],
    excerpts: &'s [Excerpt],
    open: Option<OpenFile>,
    other: Option<OpenFile>,
    last: &'r LastFault,
}

impl<'r, 's> Reopened<'r, 's> {
    /// None is open yet. The extents are those of the sources. What the system says of a failed call is kept in `last`.
    pub fn new(
        rt: &'r HostRuntime,
        sources: &'s [Source<'s>],
        extents: &'s [Extent],
        excerpts: &'s [Excerpt],
        last: &'r LastFault,
    ) -> Reopened<'r, 's> {
        Reopened {
            rt,
            sources,
            extents,
            excerpts,
            open: None,
            other: None,
            last,
        }
    }

    /// The file of the source with that number, which is opened unless it is open.
    fn take_file(&mut self, source: usize, path: &str) -> io::Result<File> {
        if let Some(file) = file_of(&mut self.open, source) {
            return Ok(file);
        }
        if let Some(file) = file_of(&mut self.other, source) {
            return Ok(file);
        }
        fs::open(self.rt, path)
    }

    /// The number of the source of an excerpt, and how many of its bytes lie before those of the excerpt.
    fn place_of(&self, number: usize) -> Option<(usize, u64)> {
        let excerpt = self.excerpts.get(number)?;
        let extent = self.extents.get(excerpt.source)?;
        let before = excerpt.extent.offset().saturating_sub(extent.offset());
        Some((excerpt.source, before))
    }

    /// Reads once of the bytes of an excerpt, after that many of them.
    fn read_behind(&mut self, number: usize, position: u64, room: &mut [u8]) -> io::Result<usize>
        ensures { IfOk result (λ count. count ≤ length room.new) }
    {
        let Some((source, before)) = self.place_of(number) else {
            return Err(io::Error::from(ErrorKind::NotFound));
        };
        let Some(named) = self.sources.get(source) else {
            return Err(io::Error::from(ErrorKind::NotFound));
        };
        let rest = Rest::of(named, before.saturating_add(position));
        let mut file = self.take_file(source, named.path())?;
        file.seek(SeekFrom::Start(rest.start))?;
        let wanted = rest.size.min(room.len() as u64) as usize;
        let count = file.read(&mut room[..wanted])?;
        self.keep_open(OpenFile { source, file });
        Ok(count)
    }

    /// Keeps the file open, and the one that was read before it.
    fn keep_open(&mut self, file: OpenFile) {
        if let Some(last) = self.open.take() {
            self.other = Some(last);
        }
        self.open = Some(file);
    }
}

/// Takes the file, if it is that of the source with that number.
fn file_of(open: &mut Option<OpenFile>, source: usize) -> Option<File> {
    let is_its = matches!(open, Some(file) if file.source == source);
    if is_its {
        open.take().map(|open| open.file)
    } else {
        None
    }
}

impl Sources for Reopened<'_, '_> {
    fn read_at(&mut self, source: usize, position: u64, room: &mut [u8]) -> Step {
        match self.read_behind(source, position, room) {
            Ok(0) => Step::Ended,
            Ok(count) => Step::Took(count),
            Err(fault) if fault.kind() == ErrorKind::Interrupted => Step::Interrupted,
            Err(fault) => {
                self.last.keep(&fault);
                Step::Failed
            }
        }
    }
}

/// Where the bytes of a source lie whose file has this size, in bytes: none of a catalogue. A slice has the bytes that it
/// names.
pub fn extent_of(source: &Source<'_>, size: u64) -> Extent
    ensures offset { result.offset ≡ gives_from (source_parts source.now) }
    ensures size { result.size ≡ gives_count (source_parts source.now) size }
{
    match *source {
        Source::Piece { offset, .. } | Source::Range { offset, .. } => {
            Extent::new(offset.min(MAX), size)
        }
        Source::Slice { offset, length, .. } => Extent::new(offset.min(MAX), length),
        Source::Saved { .. } => Extent::new(0, 0),
    }
}
