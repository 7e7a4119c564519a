//! Sources whose bytes lie in memory.
ghost use Rattle.std.specs.Prelude.{Some};
ghost use Rattle.mxf_hand.specs.InMemory.{sources_of};

use super::Sources;
use mxf_read::Step;

/// Bytes that lie in the file from a file offset on.
#[derive(Clone, Copy, Debug)]
pub struct BytesAt<'a> {
    pub offset: u64,
    pub bytes: &'a [u8],
}

/// Sources whose bytes lie in memory. Each has the number of its place in the list.
#[derive(Drop)]
pub struct InMemory<'a> {
    pub sources: Vec<BytesAt<'a>>,
}

impl Sources for InMemory<'_> {
    ghost told = { λ m. Some (sources_of m.sources.items) };

    fn read_at(&mut self, source: usize, position: u64, room: &mut [u8]) -> Step {
        let Some(given) = self.sources.get(source) else {
            return Step::Failed;
        };
        if given.bytes.len() as u64 <= position {
            return Step::Ended;
        }
        let (_, rest) = given.bytes.split_at(position as usize);
        let count = rest.len().min(room.len());
        room[..count].copy_from_slice(&rest[..count]);
        Step::Took(count)
    }
}
