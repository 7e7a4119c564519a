//! Packs (ST 377-1, partition packs, primer packs and random index packs), whose values have fixed places and no tags.

mod fixed_numbers;
mod numbers;
mod part;
mod partition;
mod primer;
mod random_index;

pub use numbers::PartitionNumbers;
pub use part::PackPart;
pub use partition::{
    PartitionPack, one_pack, one_pack_reading, packs_are_read_by_their_places,
    partition_packs_are_read_as_written,
};
pub use primer::{
    Primer, PrimerLabels, one_primer_reading, primers_are_read_as_batches,
    primers_are_read_as_written,
};
pub use random_index::{
    Rip, RipEntries, RipEntry, entries_make_up_their_bytes, one_rip, one_rip_reading,
    random_index_packs_are_read_as_written, random_index_packs_are_read_by_their_places,
};
use thiserror::Error;

/// Why a value is no pack. The causes are tested in this order.
#[derive(Clone, Copy, Debug, PartialEq, Eq, Error)]
pub enum PackFault {
    /// The key is that of another kind of packet.
    #[error("the packet is of another kind")]
    NotThisKind,
    /// The fixed part isn't whole.
    #[error("the pack is cut")]
    Short,
    /// The bytes where the batch stands are no batch of items of the size that the pack asks for.
    #[error("the batch of the pack is bad")]
    BadBatch,
    /// The value has another length, or the pack states another.
    #[error("the pack has another length")]
    WrongLength,
}
