//! Values that are written to writers that take little, that are interrupted, and that fail.
use crate::row::{Row, bad_row, tell};
use mxf_klv::{Encode, WriteFault};
use std::alloc::Global;
use std::io::{self, Error, ErrorKind, Write};

/// Takes at most `chunk` bytes a call after some interruptions, and fails once `room` bytes were taken.
#[derive(Drop)]
struct Narrow {
    taken: Vec<u8>,
    room: usize,
    chunk: usize,
    interruptions: u64,
}

impl Write for Narrow {
    fn write(&mut self, buf: &[u8]) -> io::Result<usize> {
        if self.interruptions > 0 {
            self.interruptions -= 1;
            return Err(Error::from(ErrorKind::Interrupted));
        }
        if self.room == 0 {
            return Err(Error::from(ErrorKind::StorageFull));
        }
        let count = buf.len().min(self.chunk).min(self.room);
        self.taken.extend_from_slice(&buf[..count])?;
        self.room -= count;
        Ok(count)
    }

    fn flush(&mut self) -> io::Result<()> {
        Ok(())
    }
}

/// Whether a writer with room for the bytes of `front` fails after them, and is left with these.
fn is_cut<E: Encode>(alloc: Global, value: &E, front: &[u8], chunk: usize) -> bool {
    let mut writer = Narrow {
        taken: Vec::new(alloc),
        room: front.len(),
        chunk,
        interruptions: 0,
    };
    let written = front.len() as u64;
    value.write_to(&mut writer) == Err(WriteFault { written }) && writer.taken.as_slice() == front
}

/// How many writers with less room than the bytes need fail, and are left with the front of them.
fn cut_writes<E: Encode>(alloc: Global, value: &E, bytes: &[u8], chunk: usize) -> usize {
    (0..bytes.len())
        .filter(|room| is_cut(alloc, value, &bytes[..*room], chunk))
        .count()
}

/// `write N ROOM CHUNK INTERRUPTIONS`: the answer, and what the writer took. `cut N 0 CHUNK`: how many writers fail
/// after a front of the row's bytes. N is the size of a batch's items, the width of the length of a random index pack,
/// and 0 otherwise.
pub fn tell_written<R: Print + AllocGlobal, E: Encode>(
    rt: &R,
    value: &E,
    row: &Row<'_>,
) -> io::Result<()> {
    let [_, room, chunk, interruptions] = row.numbers;
    match row.call {
        "cut" => tell(
            rt,
            &cut_writes(rt.alloc(), value, row.bytes, chunk as usize),
        ),
        "write" => {
            let mut writer = Narrow {
                taken: Vec::new(rt.alloc()),
                room: room as usize,
                chunk: chunk as usize,
                interruptions,
            };
            let answer = value.write_to(&mut writer);
            tell(rt, &(answer, writer.taken))
        }
        _ => Err(bad_row()),
    }
}
