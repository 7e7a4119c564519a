//! References of sets to none of the sets beside them (ST 377-1, strong references).
ghost use Rattle.std.specs.Prelude.{◌≡◌, ◌==◌, if◌then◌else◌, List, Some, None, IfOk, false, flat_map, length, not};
ghost use Rattle.std.specs.BTreeSet.{contains};
ghost use Rattle.std.specs.Cmp.Lexicographic.{slice_cmp};
ghost use Rattle.std.specs.List.{list_any};
ghost use Rattle.std.specs.Ordering.{nat_cmp};
ghost use Rattle.mxf_klv.specs.Parts.{NoteParts};
ghost use Rattle.mxf_sets.specs.Batch.{HasItemsOf, batch_items};
ghost use Rattle.mxf_catalogue.specs.Disputes.{clear_notes};
ghost use Rattle.mxf_views.specs.Copies.{sets_in, zone_of};
ghost use Rattle.mxf_doubts.specs.Header.{AreInstances, instance_of, is_batch_tag, is_reference_tag, is_told_from};
ghost use Rattle.mxf_doubts.specs.Header.{is_told_note, references_of, refers_to_none, unreferred};

use crate::orderly::is_orderly;
use mxf_klv::{Kind, Note, OutOfMemory};
use mxf_sets::{Batch, Item, Items, instance_uid};
use mxf_views::{CopyInfo, Views, is_set, set_items};
use std::alloc::Global;
use std::collections::BTreeSet;

/// The instance identifier of a set that is kept, if the items of the set and the identifier can be read.
fn instance_of(note: &Note) -> Option<[u8; 16]>
    ensures { result ≡ instance_of note.now }
{
    set_items(note)?;
    let uid = instance_uid(note.value()?).ok()?;
    Some(*uid.as_bytes())
}

/// Whether the packet is a fill, a primer pack, or a set with an instance identifier.
fn is_told_note(note: &Note) -> bool
    ensures { result ≡ is_told_note note.now }
{
    matches!(note.kind(), Kind::Fill | Kind::Primer) || instance_of(note).is_some()
}

/// Whether all packets of a zone are such.
fn is_told(views: &Views, start: u64, bytes: u64) -> bool
    ensures { result ≡ is_told_from views.now bytes (Some start) }
{
    for note in views.catalogue().clear_within(start, bytes) {
        if !is_told_note(note) {
            return false;
        }
    }
    true
}

/// The instance identifiers of the sets of a zone. They take memory.
fn instances(
    alloc: Global,
    views: &Views,
    start: u64,
    bytes: u64,
) -> Result<BTreeSet<[u8; 16]>, OutOfMemory>
    ensures { IfOk result (AreInstances (sets_in start bytes (clear_notes views.now))) }
{
    let mut uids = BTreeSet::new(alloc);
    for note in views.catalogue().clear_within(start, bytes) {
        if is_set(note) {
            if let Some(uid) = instance_of(note) {
                uids.insert(uid)?;
            }
        }
    }
    Ok(uids)
}

/// The bytes, if there are sixteen.
fn sixteen(bytes: &[u8]) -> Option<[u8; 16]>
    ensures { result ≡ (if length bytes.now == 16 then Some bytes.now else None) }
{
    if bytes.len() != 16 {
        return None;
    }
    let mut all = [0; 16];
    all.copy_from_slice(bytes);
    Some(all)
}

/// Whether the tag is that of an item which is one reference.
fn is_reference_tag(tag: u16) -> bool
    ensures { result ≡ is_reference_tag tag }
{
    matches!(tag, 0x3B03 | 0x4701 | 0x4803 | 0x6101)
}

/// Whether the tag is that of an item which is a batch of references.
fn is_batch_tag(tag: u16) -> bool
    ensures { result ≡ is_batch_tag tag }
{
    matches!(
        tag,
        0x3B06 | 0x1901 | 0x1902 | 0x4403 | 0x1001 | 0x2F01 | 0x3F01
    )
}

/// Whether the bytes are no identifier of these, if there are sixteen.
fn is_lost(uids: &BTreeSet<[u8; 16]>, reference: &[u8]) -> bool
    ensures { result ≡ (if length reference.now == 16 then not (contains (slice_cmp nat_cmp) uids.now reference.now)
        else false) }
{
    match sixteen(reference) {
        Some(uid) => !uids.contains(&uid),
        None => false,
    }
}

/// Whether one of the references in a batch is to none of these.
fn has_lost_in(uids: &BTreeSet<[u8; 16]>, batch: &Batch<'_>) -> bool
    requires { HasItemsOf 16 batch.now }
    ensures { result ≡ list_any (λ uid. not (contains (slice_cmp nat_cmp) uids.now uid)) (batch_items batch.now) }
{
    for reference in batch.items() {
        if is_lost(uids, reference) {
            return true;
        }
    }
    false
}

/// Whether one of the references that an item holds is to none of these.
fn has_lost(uids: &BTreeSet<[u8; 16]>, item: &Item<'_>) -> bool
    ensures { result ≡ list_any (λ uid. not (contains (slice_cmp nat_cmp) uids.now uid)) (references_of item.now) }
{
    if is_reference_tag(item.tag) {
        return is_lost(uids, item.value);
    }
    if !is_batch_tag(item.tag) {
        return false;
    }
    match Batch::read(item.value, 16) {
        Ok(batch) => has_lost_in(uids, &batch),
        Err(_) => false,
    }
}

/// Whether one of the items holds such a reference.
fn have_lost(uids: &BTreeSet<[u8; 16]>, items: Items<'_>) -> bool
    ensures { result ≡ list_any (λ uid. not (contains (slice_cmp nat_cmp) uids.now uid))
        (flat_map references_of items.entry) }
{
    for item in items {
        if has_lost(uids, &item) {
            return true;
        }
    }
    false
}

/// Whether a set holds a reference to none of the sets that have these identifiers.
fn refers_to_none(uids: &BTreeSet<[u8; 16]>, set: &Note) -> bool
    ensures { (sets : List NoteParts) → AreInstances sets uids.now → result ≡ refers_to_none sets set.now }
{
    match set_items(set) {
        Some(items) => have_lost(uids, items),
        None => false,
    }
}

/// The offsets of the sets of an orderly copy that hold a reference to none of the copy's sets; none if some packet of the
/// copy can't be told. They take memory.
#[tactic(auto, unfolding(crate::specs::Header::unreferred))]
pub(crate) fn unreferred(
    alloc: Global,
    views: &Views,
    copy: &CopyInfo,
) -> Result<Vec<u64>, OutOfMemory>
    ensures { IfOk result (λ v. v.items ≡ unreferred views.now copy.now) }
{
    let mut offsets = Vec::new(alloc);
    let Some(start) = copy.start else {
        return Ok(offsets);
    };
    if !is_orderly(views, copy) || !is_told(views, start, copy.bytes) {
        return Ok(offsets);
    }
    let uids = instances(alloc, views, start, copy.bytes)?;
    for note in views.catalogue().clear_within(start, copy.bytes) {
        if is_set(note) && refers_to_none(&uids, note) {
            offsets.push(note.offset())?;
        }
    }
    Ok(offsets)
}
