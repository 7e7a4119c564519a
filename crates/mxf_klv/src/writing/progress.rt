//! How far the writing of a value has come.
ghost use Rattle.std.specs.Prelude.{◌≡◌, ◌^◌, ◌<◌, ◌≤◌};

use super::WriteFault;
use std::io::{ErrorKind, Write};

/// How often one call repeats an interrupted write.
const REPEATS: u32 = 1024;

/// How far the writing of one value has come: the bytes that the writer took, and the interruptions so far.
///
/// A value is written by one `Progress` and a [`put`](Progress::put) for each of its parts.
#[derive(Drop)]
pub struct Progress {
    /// The bytes that the writer took.
    pub written: u64,
    /// The writes that were interrupted and repeated, at most 1,024.
    pub interruptions: u32,

    ghost in_range: { written < 2 ^ 64 },
    ghost few: { interruptions ≤ 1024 },
}

impl Progress {
    ghost use Rattle.mxf_klv.specs.Written.{Puts};

    /// Nothing is written yet.
    pub fn new() -> Progress
        ensures written { result.written ≡ 0 }
        ensures interruptions { result.interruptions ≡ 0 }
    {
        Progress {
            written: 0,
            interruptions: 0,
        }
    }

    /// Writes the next part of the value. Up to 1,024 interruptions of all parts together are repeated.
    ///
    /// Fails if the writer answers another error, takes no byte, or is interrupted once more.
    pub fn put<W: Write>(&mut self, writer: &mut W, part: &[u8]) -> Result<(), WriteFault>
        ensures written { Puts W.contents writer.old writer.new self.old self.new result part.now }
        ensures interruptions { self.old.interruptions ≤ self.new.interruptions × self.new.interruptions ≤ 1024 }
    {
        let mut rest = part;
        while !rest.is_empty() {
            match writer.write(rest) {
                Ok(0) => {
                    return Err(WriteFault {
                        written: self.written,
                    });
                }
                Ok(n) => {
                    rest = &rest[n..];
                    self.written = self.written.saturating_add(n as u64);
                }
                Err(e) => {
                    if e.kind() != ErrorKind::Interrupted || self.interruptions >= REPEATS {
                        return Err(WriteFault {
                            written: self.written,
                        });
                    }
                    self.interruptions += 1;
                }
            }
        }
        Ok(())
    }
}
