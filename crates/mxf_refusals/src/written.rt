//! What is written while every growth is refused, into room that was made before.
use crate::files::{M, R, SEGMENT, WRITTEN, header_value, rip_value};
use mxf_klv::{Ber, Encode, read_packet};
use mxf_sets::{Batch, PartitionPack, Primer, Rip, Segment};
use std::alloc::Global;

/// Whether a value is written as these bytes, if there is room for them.
fn is_written<E: Encode>(alloc: Global, value: &E, bytes: &[u8]) -> bool {
    match Vec::with_capacity(alloc, bytes.len()) {
        Ok(mut taken) => value.write_to(&mut taken) == Ok(()) && taken.as_slice() == bytes,
        Err(_) => true,
    }
}

/// Whether a length of 88 is.
fn length_is_written(alloc: Global) -> Option<bool> {
    let length = Ber::new(4, 88)?;
    Some(is_written(alloc, &length, &[0x83, 0x00, 0x00, 0x58]))
}

/// Whether the value of the primer pack of R is, as a batch and as a primer pack.
fn primer_is_written(alloc: Global) -> Option<bool> {
    let bytes = &R[128..154];
    let batch = Batch::read(bytes, 18).ok()?;
    let primer = Primer::read(bytes).ok()?;
    Some(is_written(alloc, &batch, bytes) && is_written(alloc, &primer, bytes))
}

/// Whether the random index pack of M is.
fn rip_is_written(alloc: Global) -> Option<bool> {
    let rip = Rip::read(4, rip_value()).ok()?;
    Some(is_written(alloc, &rip, rip_value()))
}

/// Whether a segment of units of one size is, and one with entries.
fn segments_are_written(alloc: Global) -> Option<bool> {
    let bytes = &SEGMENT[20..];
    let constant = Segment::read(bytes).ok()?;
    let with_entries = Segment::read(&WRITTEN).ok()?;
    Some(is_written(alloc, &constant, bytes) && is_written(alloc, &with_entries, &WRITTEN))
}

/// Whether the first packet of M is, and its partition pack.
fn pack_is_written(alloc: Global) -> Option<bool> {
    let (packet, _) = read_packet(&M).ok()?;
    let pack = PartitionPack::read(&packet.key(), packet.value()).ok()?;
    Some(is_written(alloc, &packet, &M[..108]) && is_written(alloc, &pack, header_value()))
}

/// Whether each of these is.
fn all_are_written(alloc: Global) -> Option<bool> {
    let packs = pack_is_written(alloc)? && primer_is_written(alloc)? && rip_is_written(alloc)?;
    Some(packs && length_is_written(alloc)? && segments_are_written(alloc)?)
}

#[test]
fn without_memory_values_are_written(rt: HostRuntime) {
    assert!(rt; all_are_written(rt.alloc()) == Some(true));
}
