//! The numbers of a partition pack (ST 377-1, Partition Pack).
ghost use Rattle.std.specs.Prelude.{◌≡◌};
ghost use Rattle.mxf_sets.specs.PartitionPack.{ArePartitionNumbers, numbers_bytes};

use super::fixed_numbers::{NumberWriter, take_u16, take_u32, take_u64};

/// The numbers of a partition pack, in the order of its value (ST 377-1, Partition Pack).
///
/// They link the partitions of a file. From any of them a reader finds the way: back to the one before, on to the
/// footer, past the header metadata and the index to the essence.
///
/// Offsets of partitions count bytes from the first byte of the header partition pack. A number that a writer didn't
/// know yet is 0, so 0 says little in an open partition.
#[derive(Clone, Copy, Debug, PartialEq, Eq)]
pub struct PartitionNumbers {
    pub major_version: u16,
    pub minor_version: u16,
    /// The size of the KLV alignment grid, in bytes.
    pub kag_size: u32,
    /// The offset of this partition.
    pub this_partition: u64,
    /// The offset of the partition before; 0 in the header partition.
    pub previous_partition: u64,
    /// The offset of the footer partition; 0 if it isn't known.
    pub footer_partition: u64,
    /// The bytes from the primer's key to the end of the header metadata with its trailing fill; 0 if the partition has
    /// no header metadata.
    pub header_byte_count: u64,
    /// The bytes of the index table segments.
    pub index_byte_count: u64,
    /// The identifier of the index table; 0 if the partition has none.
    pub index_sid: u32,
    /// Where the partition's essence begins in its essence container, in bytes.
    pub body_offset: u64,
    /// The identifier of the essence container; 0 if the partition has none.
    pub body_sid: u32,
}

impl PartitionNumbers {
    /// Reads the numbers from their bytes.
    pub(super) fn read(bytes: &[u8; 64]) -> PartitionNumbers
        ensures numbers { ArePartitionNumbers result }
        ensures bytes { bytes.now ≡ numbers_bytes result }
    {
        let (major_version, rest) = take_u16(bytes);
        let (minor_version, rest) = take_u16(rest);
        let (kag_size, rest) = take_u32(rest);
        let (this_partition, rest) = take_u64(rest);
        let (previous_partition, rest) = take_u64(rest);
        let (footer_partition, rest) = take_u64(rest);
        let (header_byte_count, rest) = take_u64(rest);
        let (index_byte_count, rest) = take_u64(rest);
        let (index_sid, rest) = take_u32(rest);
        let (body_offset, rest) = take_u64(rest);
        let (body_sid, _) = take_u32(rest);
        PartitionNumbers {
            major_version,
            minor_version,
            kag_size,
            this_partition,
            previous_partition,
            footer_partition,
            header_byte_count,
            index_byte_count,
            index_sid,
            body_offset,
            body_sid,
        }
    }

    /// The bytes of the numbers.
    pub(super) fn to_bytes(&self) -> [u8; 64]
        ensures bytes { result ≡ numbers_bytes self.now }
        ensures numbers { ArePartitionNumbers self.now }
    {
        let mut fields = NumberWriter::new();
        fields.u16(self.major_version);
        fields.u16(self.minor_version);
        fields.u32(self.kag_size);
        fields.u64(self.this_partition);
        fields.u64(self.previous_partition);
        fields.u64(self.footer_partition);
        fields.u64(self.header_byte_count);
        fields.u64(self.index_byte_count);
        fields.u32(self.index_sid);
        fields.u64(self.body_offset);
        fields.u32(self.body_sid);
        fields.into_bytes()
    }
}
