//! The labels of a primer pack, by their tags.
ghost use Rattle.std.specs.Prelude.{◌≡◌, ℕ, IfOk, Some};
ghost use Rattle.std.specs.Option.{option_copied};
ghost use Rattle.mxf_sets.specs.PackReadings.{label_of};
ghost use Rattle.mxf_sets.specs.PrimerTable.{label_in, with_label};

use super::labels::split_entry;
use super::{Primer, is_same};
use mxf_klv::OutOfMemory;
use std::alloc::Global;
use std::collections::BTreeMap;
use std::marker::Model;

/// The labels of a primer pack by their tags, for those who ask for many labels. To find one is a search here, and a
/// walk over all entries in [`Primer::label`].
#[derive(Drop)]
pub struct PrimerLabels {
    /// For each tag of an entry the label that all its entries agree on, or None if two have different labels.
    labels: BTreeMap<u16, Option<[u8; 16]>>,
}

impl Model for PrimerLabels {
    ghost use Rattle.std.specs.Prelude.{ℕ, List, Option};

    ghost Value = { List (ℕ × Option (List ℕ)) };

    ghost view = { λ t. t.labels.entries };
}

impl PrimerLabels {
    /// The labels of a primer pack. It takes memory, and the only fault is out of memory.
    pub fn of(alloc: Global, primer: &Primer<'_>) -> Result<PrimerLabels, OutOfMemory>
        ensures { IfOk result (λ table. (tag : ℕ) → label_in table tag ≡ label_of tag primer.now) }
    {
        let mut labels = BTreeMap::new(alloc);
        for entry in primer.entries.items() {
            let (tag, label) = split_entry(entry);
            let agreed = with_label(labels.get(&tag), label);
            let Ok(_) = labels.insert(tag, agreed) else {
                return Err(OutOfMemory);
            };
        }
        Ok(PrimerLabels { labels })
    }

    /// The label that the entries of the tag agree on, as [`Primer::label`] says.
    pub fn label(&self, tag: u16) -> Option<[u8; 16]>
        ensures { result ≡ label_in self.now tag }
    {
        match self.labels.get(&tag) {
            Some(label) => *label,
            None => None,
        }
    }
}

/// What the entries of a tag agree on, with the label of one more.
fn with_label(told: Option<&Option<[u8; 16]>>, label: [u8; 16]) -> Option<[u8; 16]>
    ensures { Some result ≡ with_label (option_copied told.entry) label }
{
    match told {
        None => Some(label),
        Some(None) => None,
        Some(Some(own)) => {
            if is_same(own, &label) {
                Some(*own)
            } else {
                None
            }
        }
    }
}
