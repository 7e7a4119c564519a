//! Reading a file, and telling on standard error how far a long piece has been read.
ghost use Rattle.std.specs.Prelude.{◌≡◌};

use crate::progress::{ReadProgress, is_long};
use crate::screen::Screen;
use crate::shown::text_on_screen;
use mxf_saving::{LastFault, Source};
use std::fs::OpenFile;
use std::io::{self, Read, Seek, SeekFrom};
use std::rt::{Clock, Files};

/// Reads a file, and keeps what the system says of a read that fails. If the reading is told, the line is gone once
/// this is dropped.
#[derive(Drop)]
pub struct Watched<'a, R: Eprint + Clock, F: Drop> {
    from: F,
    progress: Option<ReadProgress<'a, R>>,
    last: &'a LastFault,
}

impl<'a, R: Files + Eprint + Clock + AllocGlobal> Watched<'a, R, R::File> {
    /// The file of the source. Its reading is told if standard error is a terminal and the source is a long piece,
    /// range or slice in a regular file.
    pub fn new(
        rt: &'a R,
        screen: Screen,
        source: &Source<'_>,
        from: R::File,
        last: &'a LastFault,
    ) -> Watched<'a, R, R::File>
        ensures { result.from ≡ from }
    {
        let progress = match (screen, source.place()) {
            (Screen::Terminal, Some((_, path))) => progress_of(rt, path, source.size(), &from),
            _ => None,
        };
        Watched {
            from,
            progress,
            last,
        }
    }
}

/// What is told of the reading of the file at the path, or of a slice of it with this size: nothing of a short one, nor
/// of what isn't a regular file. Nor is it shown if there is no memory for the line.
fn progress_of<'a, R: Files + Eprint + Clock + AllocGlobal>(
    rt: &'a R,
    path: &str,
    slice: Option<u64>,
    from: &R::File,
) -> Option<ReadProgress<'a, R>> {
    let size = match from.metadata() {
        Ok(found) if found.is_file() => slice.unwrap_or(found.len()),
        _ => return None,
    };
    if !is_long(size) {
        return None;
    }
    let path = text_on_screen(rt.alloc(), path).ok()?;
    Some(ReadProgress::new(rt, path, size))
}

impl<R: Eprint + Clock, F: Read + Drop> Read for Watched<'_, R, F> {
    ghost remaining = { λ w. F.remaining w.from };

    fn read(&mut self, buf: &mut [u8]) -> io::Result<usize> {
        if let Some(progress) = &mut self.progress {
            progress.begin();
        }
        let read = self.from.read(buf);
        match &read {
            Ok(count) => {
                if let Some(progress) = &mut self.progress {
                    progress.count(*count);
                }
            }
            Err(fault) => self.last.keep(fault),
        }
        read
    }
}

/// Bytes that are passed over by a seek count as read.
impl<R: Eprint + Clock, F: Seek + Drop> Seek for Watched<'_, R, F> {
    fn seek(&mut self, to: SeekFrom) -> io::Result<u64> {
        let sought = self.from.seek(to);
        match (&sought, to) {
            (Ok(_), SeekFrom::Current(passed)) => {
                if let Some(progress) = &mut self.progress {
                    progress.count(passed.unsigned_abs() as usize);
                }
            }
            (Ok(_), _) => {}
            (Err(fault), _) => self.last.keep(fault),
        }
        sought
    }
}
