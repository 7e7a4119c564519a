//! The parts of a run.

/// What a run reads.
#[derive(Drop)]
pub enum Part<R> {
    /// The bytes that a reader gives, the first of which lies at `offset` (bytes) in the recording.
    Piece { offset: u64, from: R },
    /// The bytes that a reader gives, the first of which lies at `offset` (bytes) and may lie inside a packet. They are
    /// a piece from where [`start_of`](crate::start_of) says on, which is asked of the first 33,554,432 of them.
    Range { offset: u64, from: R },
    /// The file of a catalogue, which a reader gives.
    Saved { from: R },
}
