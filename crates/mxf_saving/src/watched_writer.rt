//! A writer whose last fault is kept.
ghost use Rattle.std.specs.Prelude.{◌≡◌};

use crate::system_fault::LastFault;
use std::io::{self, Write};

/// How many bytes are gathered ahead of a write.
pub const BUFFER_BYTES: usize = 65_536;

/// Writes to a writer, and keeps what the system says of a write that fails.
#[derive(Drop)]
pub struct WatchedWriter<'a, W: Drop> {
    writer: W,
    last: &'a LastFault,
}

impl<'a, W: Write + Drop> WatchedWriter<'a, W> {
    /// The writer, and where its faults are kept.
    pub fn new(writer: W, last: &'a LastFault) -> WatchedWriter<'a, W>
        ensures { result.writer ≡ writer }
    {
        WatchedWriter { writer, last }
    }

    /// The writer.
    pub fn into_inner(self) -> W
        ensures { result ≡ self.entry.writer }
    {
        self.writer
    }
}

impl<W: Write + Drop> Write for WatchedWriter<'_, W> {
    ghost contents = { λ k. W.contents k.writer };

    fn write(&mut self, buf: &[u8]) -> io::Result<usize> {
        let written = self.writer.write(buf);
        if let Err(fault) = &written {
            self.last.keep(fault);
        }
        written
    }

    fn flush(&mut self) -> io::Result<()> {
        let flushed = self.writer.flush();
        if let Err(fault) = &flushed {
            self.last.keep(fault);
        }
        flushed
    }
}
