//! Items of sets whose tags the primer pack gives no label (ST 377-1, Primer Pack).
ghost use Rattle.std.specs.Prelude.{◌≡◌, ℕ, IfOk, find};
ghost use Rattle.std.specs.List.{list_any};
ghost use Rattle.std.specs.Option.{option_map};
ghost use Rattle.mxf_sets.specs.Batch.{BatchParts};
ghost use Rattle.mxf_sets.specs.PackReadings.{label_of};
ghost use Rattle.mxf_sets.specs.PrimerTable.{label_in};
ghost use Rattle.mxf_catalogue.specs.Disputes.{clear_notes};
ghost use Rattle.mxf_views.specs.Copies.{sets_in};
ghost use Rattle.mxf_doubts.specs.Header.{first_unlabelled, lacks_label, lacks_labels};

use crate::orderly::is_orderly;
use mxf_klv::{Note, OutOfMemory};
use mxf_sets::{Item, Items, PrimerLabels};
use mxf_views::{CopyInfo, Views, is_set, set_items};
use std::alloc::Global;

/// The least tag that a primer pack gives its meaning.
const DYNAMIC: u16 = 0x8000;

/// Whether the primer pack has no label for the tag of an item, or several.
fn lacks_label(labels: &PrimerLabels, item: &Item<'_>) -> bool
    ensures { (primer : BatchParts) → ((tag : ℕ) → label_in labels.now tag ≡ label_of tag primer)
        → result ≡ lacks_label primer item.now }
{
    item.tag >= DYNAMIC && labels.label(item.tag).is_none()
}

/// Whether one of the items is such.
fn have_unlabelled(labels: &PrimerLabels, items: Items<'_>) -> bool
    ensures { (primer : BatchParts) → ((tag : ℕ) → label_in labels.now tag ≡ label_of tag primer)
        → result ≡ list_any (lacks_label primer) items.entry }
{
    for item in items {
        if lacks_label(labels, &item) {
            return true;
        }
    }
    false
}

/// Whether some item of a set is such.
fn lacks_labels(labels: &PrimerLabels, set: &Note) -> bool
    ensures { (primer : BatchParts) → ((tag : ℕ) → label_in labels.now tag ≡ label_of tag primer)
        → result ≡ lacks_labels primer set.now }
{
    match set_items(set) {
        Some(items) => have_unlabelled(labels, items),
        None => false,
    }
}

/// The offset of the first set of a zone that has such an item.
fn first_in(views: &Views, labels: &PrimerLabels, start: u64, bytes: u64) -> Option<u64>
    ensures { (primer : BatchParts) → ((tag : ℕ) → label_in labels.now tag ≡ label_of tag primer) → result
        ≡ option_map (λ n. n.offset) (find (lacks_labels primer) (sets_in start bytes (clear_notes views.now))) }
{
    for note in views.catalogue().clear_within(start, bytes) {
        if is_set(note) && lacks_labels(labels, note) {
            return Some(note.offset());
        }
    }
    None
}

/// The offset of the first set of an orderly copy with an item whose tag has not exactly one label in the copy's primer. It
/// takes memory.
#[tactic(auto, unfolding(crate::specs::Header::first_unlabelled))]
pub(crate) fn first_unlabelled(
    alloc: Global,
    views: &Views,
    copy: &CopyInfo,
) -> Result<Option<u64>, OutOfMemory>
    ensures { IfOk result (λ o. o ≡ first_unlabelled views.now copy.now) }
{
    if !is_orderly(views, copy) {
        return Ok(None);
    }
    let (Some(start), Some(primer)) = (copy.start, views.primer_of(copy)) else {
        return Ok(None);
    };
    let labels = PrimerLabels::of(alloc, &primer)?;
    Ok(first_in(views, &labels, start, copy.bytes))
}
