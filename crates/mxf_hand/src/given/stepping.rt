//! Reading once at a file offset.
ghost use Rattle.std.specs.Prelude.{◌≡◌, ◌+◌, ◌<◌, ◌≤◌, ℕ, List, length, take, IfOk};
ghost use Rattle.mxf_catalogue.specs.Runs.{LiesIn};
ghost use Rattle.mxf_hand.specs.Given.{AreBytesOf, AreTold, ReadsAt, SourceParts, bytes_between};
ghost use Rattle.mxf_read.specs.declared.reading.Step.TheVariants as steps;

use super::{Given, SourceFault, Sources};
use mxf_read::{GREATEST_INTERRUPTIONS, Step};

impl Given {
    /// Reads once at a file offset that a source gives: at least one byte, and as many at most as there is room and as
    /// follow in its place.
    pub(super) fn read_step_at<S: Sources>(
        &self,
        sources: &mut S,
        at: u64,
        room: &mut [u8],
    ) -> Result<usize, SourceFault>
        requires given { LiesIn self.now.given at }
        requires room { 0 < length room.old }
        ensures told { S.told sources.new ≡ S.told sources.old }
        ensures some { IfOk result (λ n. 0 < n) }
        ensures room { IfOk result (λ n. n ≤ length room.new) }
        ensures within { IfOk result (λ n. (x : ℕ) → at ≤ x → x < at + n → LiesIn self.now.given x) }
        ensures bytes { IfOk result (λ n. (given : List SourceParts) (byte : ℕ → ℕ)
            → AreTold (S.told sources.old) self.now.extents given → AreBytesOf given byte at (at + n)
            → take n room.new ≡ bytes_between byte at (at + n)) }
    {
        let place = self.place_at(at).unwrap();
        let extent = self.extents[place.source];
        let count = (place.end - at).min(room.len() as u64) as usize;
        read_source(
            sources,
            place.source,
            at - extent.offset(),
            &mut room[..count],
        )
    }
}

/// Reads once of a source after its first `position` bytes. An interrupted read is repeated, 1,024 times at most.
pub(super) fn read_source<S: Sources>(
    sources: &mut S,
    source_number: usize,
    position: u64,
    room: &mut [u8],
) -> Result<usize, SourceFault>
    requires { 0 < length room.old }
    ensures told { S.told sources.new ≡ S.told sources.old }
    ensures bytes { IfOk result (λ n. ReadsAt (S.told sources.old) source_number position room.new (steps.Took n)) }
{
    let mut interruptions = 0;
    'reads: loop {
        match sources.read_at(source_number, position, room) {
            Step::Took(count) => return Ok(count),
            Step::Interrupted if interruptions < GREATEST_INTERRUPTIONS => interruptions += 1,
            Step::Ended | Step::Interrupted | Step::Failed => {
                return Err(SourceFault::ReadFault { source_number });
            }
        }
    }
}
