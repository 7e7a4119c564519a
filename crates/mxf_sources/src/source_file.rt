//! The file of a source, or the slice of one, read or skimmed.
ghost use Rattle.std.specs.Prelude.{◌≤◌, IfOk};

use mxf_read::PassOver;
use mxf_saving::Source;
use mxf_skim::Scan;
use std::io::{self, ErrorKind, Read, Seek, SeekFrom};

/// The bytes that are read at once of what is passed over and can't be sought.
const ROOM: usize = 65_536;

/// A file that is open. A skim takes no more of a regular file than it had when it was opened, and seeks in it; any
/// other is read through. A slice is sought, read or skimmed, and no byte behind it is taken.
#[derive(Drop)]
pub struct SourceFile<F: Drop> {
    from: F,
    /// Where a slice begins in the file, in bytes, until it has been sought.
    start: Option<u64>,
    /// Where in the file the bytes end that are taken, if they are counted.
    end: u64,
    /// How many of them are left, if it is a regular file that is skimmed, or a slice.
    left: Option<u64>,
}

impl<F: Drop> SourceFile<F> {
    /// The file of the source, which had this size when it was opened, in bytes; 0 of what is no regular file. A catalogue
    /// is read through.
    pub fn new(source: &Source<'_>, from: F, scan: Scan, size: u64) -> SourceFile<F> {
        match (*source, scan) {
            (Source::Slice { offset, length, .. }, _) => SourceFile {
                from,
                start: Some(offset),
                end: offset.saturating_add(length),
                left: Some(length),
            },
            (Source::Piece { .. } | Source::Range { .. }, Scan::Skim) if size > 0 => SourceFile {
                from,
                start: None,
                end: size,
                left: Some(size),
            },
            _ => SourceFile {
                from,
                start: None,
                end: size,
                left: None,
            },
        }
    }
}

impl<F: Seek + Drop> SourceFile<F> {
    /// Seeks the first byte of a slice, before anything of it is taken. What can't be sought is a fault of the first read.
    fn seek_start(&mut self) -> io::Result<()> {
        if let Some(start) = self.start {
            self.from.seek(SeekFrom::Start(start))?;
            self.start = None;
        }
        Ok(())
    }

    /// Looks at the end of a file whose bytes are counted: a fault if it is shorter than they are, or has become so.
    fn look_at_end(&mut self) -> io::Result<()> {
        let end = self.from.seek(SeekFrom::End(0))?;
        if end < self.end {
            return Err(io::Error::from(ErrorKind::UnexpectedEof));
        }
        Ok(())
    }
}

impl<F: Read + Seek + Drop> Read for SourceFile<F> {
    fn read(&mut self, buf: &mut [u8]) -> io::Result<usize> {
        self.seek_start()?;
        let Some(left) = self.left else {
            return self.from.read(buf);
        };
        let room = left.min(buf.len() as u64) as usize;
        if room == 0 {
            self.look_at_end()?;
            return Ok(0);
        }
        let count = self.from.read(&mut buf[..room])?;
        if count == 0 {
            return Err(io::Error::from(ErrorKind::UnexpectedEof));
        }
        self.left = Some(left - count as u64);
        Ok(count)
    }
}

impl<F: Read + Seek + Drop> PassOver for SourceFile<F> {
    fn pass_over(&mut self, count: u64) -> io::Result<u64> {
        self.seek_start()?;
        let Some(left) = self.left else {
            let passed = read_over(&mut self.from, count)?;
            return Ok(passed);
        };
        let passed = left.min(count).min(i64::MAX as u64);
        if passed > 0 {
            self.from.seek(SeekFrom::Current(passed as i64))?;
            self.left = Some(left - passed);
        }
        Ok(passed)
    }
}

/// Reads once, as many bytes at most as are to be passed over.
fn read_over<F: Read>(from: &mut F, count: u64) -> io::Result<u64>
    ensures { IfOk result (λ n. n ≤ count) }
{
    let mut passed = [0u8; ROOM];
    let room = count.min(ROOM as u64) as usize;
    let count = from.read(&mut passed[..room])?;
    Ok(count as u64)
}
