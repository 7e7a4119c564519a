//! What is looked up in bytes at hand while every growth is refused.
use crate::files::{M, R, SEGMENT, WRITTEN, rip_value};
use mxf_catalogue::{Catalogue, FileFault};
use mxf_klv::{Kind, Note, Status, kind, next_key_and_length, next_packet, read_ber};
use mxf_sets::{
    Batch, ContentStorage, Identification, PackPart, Package, PartitionPack, Preface, Rip, Segment,
    instance_uid, items, pattern_name,
};
use std::alloc::Global;
use uuid::Uuid;

/// Whether the first packet of M is read, and its head, of which the length is read by itself.
fn packet_is_read() -> Option<bool> {
    let (packet, size) = next_packet(0, &M).ok()?;
    let (key, length) = next_key_and_length(0, &M).ok()?;
    let alike = packet.key() == key && read_ber(&M[16..]).ok()? == length;
    let sized = (size, packet.width(), packet.value().len()) == (108, 4, 88);
    let named = kind(&key) == Kind::Header(Status::ClosedComplete) && kind(&key).is_structural();
    Some(alike && sized && named && (length.width(), length.value()) == (4, 88))
}

/// Whether the header partition pack of M is read.
fn partition_pack_is_read() -> Option<bool> {
    let (packet, _) = next_packet(0, &M).ok()?;
    let pack = PartitionPack::read(&packet.key(), packet.value()).ok()?;
    let told = pack.part() == PackPart::Header && pack.status() == Status::ClosedComplete;
    let named = matches!(pattern_name(&pack.pattern()), Some("OP1a"));
    let placed = pack.numbers().footer_partition == 108 && pack.containers().is_empty();
    Some(told && named && placed)
}

/// Whether the value of the primer pack of R has one entry.
fn batch_is_read() -> Option<bool> {
    let batch = Batch::read(&R[128..154], 18).ok()?;
    let sized = (batch.len(), batch.item_size()) == (1, 18);
    Some(
        sized && batch.items().next().is_some() && batch.get(0).is_some() && batch.get(1).is_none(),
    )
}

/// Whether the random index pack of M has an entry.
fn rip_is_read() -> Option<bool> {
    let rip = Rip::read(4, rip_value()).ok()?;
    Some(rip.entries().next().is_some())
}

/// Whether the Preface of R names the storage, and that the package.
fn references_are_read() -> Option<bool> {
    let preface = Preface::read(&R[174..214]).ok()?;
    let storage = ContentStorage::read(&R[234..298]).ok()?;
    let package = Package::read(&R[318..374]).ok()?;
    let stored = preface.content_storage() == storage.instance_uid();
    let packaged = storage.packages().get(0) == Some(package.instance_uid());
    let counted = (preface.identifications().len(), storage.packages().len()) == (0, 2);
    Some(stored && packaged && counted)
}

/// Whether the package of R has no name, date, descriptor or track.
fn package_is_read() -> Option<bool> {
    let package = Package::read(&R[318..374]).ok()?;
    let undated = package.creation_date().is_none() && package.modified_date().is_none();
    let unnamed = package.name().is_none() && package.descriptor().is_none();
    Some(undated && unnamed && package.package_uid() == [0; 32] && package.tracks().len() == 0)
}

/// The identifier of the Preface of R.
const PREFACE_UID: [u8; 16] = [0x11; 16];

/// Whether the Preface of R has items, the first of which is its identifier.
fn items_are_read() -> Option<bool> {
    let value = &R[174..214];
    let first = items(value).ok()?.next().is_some();
    let only = items(value).ok()?.only(0x3C0A).ok()? == Some(PREFACE_UID.as_slice());
    Some(first && only && instance_uid(value).ok()? == Uuid::from_bytes(PREFACE_UID))
}

/// Whether an identification of this item alone has no text, date or other identifier.
fn identification_is_read() -> Option<bool> {
    let only = Identification::read(&R[174..194]).ok()?;
    let unnamed = only.company_name().is_none() && only.product_name().is_none();
    let unversioned = only.version_string().is_none() && only.product_uid().is_none();
    let undated = only.this_generation_uid().is_none() && only.modification_date().is_none();
    let named = only.instance_uid() == Uuid::from_bytes(PREFACE_UID);
    Some(named && unnamed && unversioned && undated)
}

/// Whether units have their offsets in a segment of units of one size, and in one with entries.
fn segments_are_read() -> Option<bool> {
    let constant = Segment::read(&SEGMENT[20..]).ok()?;
    let with_entries = Segment::read(&WRITTEN).ok()?;
    let placed = constant.offset_of(10) == Some(2_500_000) && constant.entry_of(10).is_none();
    let counted = (with_entries.entry_count(), with_entries.numbers().start) == (2, 5);
    let listed = with_entries.offset_of(6) == Some(1500) && with_entries.entry_of(6).is_some();
    Some(placed && counted && listed)
}

/// What is ahead of the notes in a file of this version, whose number of notes is eight bytes FF.
fn start_of_many(version: u8) -> [u8; 16] {
    [
        0x4D, 0x58, 0x46, 0x43, 0x41, 0x54, 0x00, version, 0xFF, 0xFF, 0xFF, 0xFF, 0xFF, 0xFF,
        0xFF, 0xFF,
    ]
}

/// Whether a number of notes alone is refused.
fn number_is_refused(alloc: Global, version: u8) -> bool {
    match Catalogue::read(alloc, &start_of_many(version)) {
        Ok(_) => false,
        Err(fault) => fault == FileFault::Truncated(16),
    }
}

/// Whether the packets of M and the records of R are read.
fn all_are_read() -> Option<bool> {
    let packs = packet_is_read()? && partition_pack_is_read()? && rip_is_read()?;
    let records = references_are_read()? && package_is_read()? && identification_is_read()?;
    Some(packs && records && batch_is_read()? && items_are_read()? && segments_are_read()?)
}

#[test]
fn without_memory_bytes_are_looked_at(rt: HostRuntime) {
    let alloc = rt.alloc();
    let refused = number_is_refused(alloc, 1) && number_is_refused(alloc, 2);
    assert!(rt; refused && all_are_read() == Some(true) && Note::can_be(0, 4, 88));
}
