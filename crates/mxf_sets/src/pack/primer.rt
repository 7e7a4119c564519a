//! Primer packs (ST 377-1, Primer Pack).
ghost use Rattle.std.specs.Prelude.{◌≡◌, ◌↔◌, ◌==◌, ◌<◌, ℕ, List, Ok, Result, MatchOption};
ghost use Rattle.std.specs.Option.{SomeIff};
ghost use Rattle.std.specs.Str.{bytes_eq};
ghost use Rattle.mxf_klv.specs.Bytes.{AreBytes};
ghost use Rattle.mxf_sets.specs.PackReadings.{agreed, label_of, labels_among, primer_at};
ghost use Rattle.mxf_sets.specs.Batch.{BatchParts, HasItemsOf, batch_bytes, batch_items};
ghost use Rattle.mxf_sets.specs.Primer.{ArePrimerEntries, IsOnlyLabel, ReadsPrimer};
ghost use Rattle.mxf_sets.specs.declared.pack.PackFault.{PackFault};

mod labels;
mod table;

use super::PackFault;
use crate::Batch;
use labels::Labels;
use mxf_klv::{Encode, Progress, WriteFault};
use std::io::Write;
use std::marker::Model;
pub use table::PrimerLabels;

/// A primer pack (ST 377-1, Primer Pack): the labels that the tags of the local sets stand for.
///
/// The sets of the header metadata name their properties by tags of two bytes, and what a tag means may differ from
/// file to file. The primer pack stands first in the header metadata and is the dictionary of that copy alone.
///
/// Its value is a batch of entries of 18 bytes, a tag and its label. A tag should have one entry; if it has several,
/// they have to agree.
#[derive(Debug, Drop)]
pub struct Primer<'a> {
    entries: Batch<'a>,
}

impl<'a> Model for Primer<'a> {
    ghost use Rattle.mxf_sets.specs.Batch.{BatchParts, HasItemsOf};

    ghost Value = { BatchParts };

    ghost view = { λ p. p.entries };

    ghost invariant = { λ p. HasItemsOf 18 p.entries };
}

impl<'a> Primer<'a> {
    /// Reads all of the value (ST 377-1, Primer Pack). The only fault is [`PackFault::BadBatch`].
    pub fn read(value: &'a [u8]) -> Result<Primer<'a>, PackFault>
        ensures reads { ReadsPrimer value.now result }
        ensures computed { result ≡ primer_at value.now }
    {
        let Ok(entries) = Batch::read(value, 18) else {
            return Err(PackFault::BadBatch);
        };
        Ok(Primer { entries })
    }

    /// The primer pack of these entries, items of eighteen bytes: a tag of two bytes, the highest first, and its label.
    pub fn of(entries: Batch<'a>) -> Option<Primer<'a>>
        ensures { SomeIff result (HasItemsOf 18 entries.entry) entries.entry }
    {
        if !entries.is_empty() && entries.item_size() != 18 {
            return None;
        }
        Some(Primer { entries })
    }

    /// The number of entries.
    pub fn len(&self) -> usize
        ensures count { result ≡ self.now.count }
        ensures primer { ArePrimerEntries self.now }
    {
        self.entries.len()
    }

    /// Whether there is no entry.
    pub fn is_empty(&self) -> bool
        ensures { result ≡ (self.now.count == 0) }
    {
        self.entries.is_empty()
    }

    /// The label that the entries of the tag agree on. None if no entry has the tag, or two have different labels.
    pub fn label(&self, tag: u16) -> Option<[u8; 16]>
        ensures agreed { MatchOption result ((l : List ℕ) → ¬ IsOnlyLabel tag self.now l)
            (λ l. IsOnlyLabel tag self.now l) }
        ensures computed { result ≡ label_of tag self.now }
    {
        agreed(self.labels(tag))
    }

    /// The labels of the entries of the tag, in their order.
    fn labels(&self, tag: u16) -> Labels<'a>
        ensures { result ≡ labels_among tag (batch_items self.now) }
    {
        Labels::of(tag, self.entries.items())
    }
}

/// The label that all of these are, if there are any.
fn agreed(mut labels: Labels<'_>) -> Option<[u8; 16]>
    ensures { result ≡ agreed labels.entry }
{
    let first = labels.next()?;
    for other in labels {
        if !is_same(&first, &other) {
            return None;
        }
    }
    Some(first)
}

fn is_same(label: &[u8; 16], other: &[u8; 16]) -> bool
    ensures { result ≡ bytes_eq label.now other.now }
{
    label == other
}

/// The batch of the entries. Key and length are those of the packet that holds the value.
impl<'a> Encode for Primer<'a> {
    ghost encoding = { batch_bytes };

    fn put_to<W: Write>(&self, progress: &mut Progress, writer: &mut W) -> Result<(), WriteFault> {
        self.entries.put_to(progress, writer)
    }
}

/// A law: a value is a primer pack, or not, and stands for one batch of entries.
pub fn one_primer_reading()
    ensures { (bytes : List ℕ) (r s : Result BatchParts PackFault) → ReadsPrimer bytes r → ReadsPrimer bytes s → r ≡ s }
{}

/// A law: a primer pack that is written is read back, and one that is read is written as it stood.
pub fn primers_are_read_as_written()
    ensures read_back { (entries : BatchParts) → ArePrimerEntries entries
        → ReadsPrimer (batch_bytes entries) (Ok entries) }
    ensures written_back { (bytes : List ℕ) (entries : BatchParts) → ReadsPrimer bytes (Ok entries)
        → bytes ≡ batch_bytes entries }
{}

/// A law: what a value is as a primer pack is computed from its bytes.
pub fn primers_are_read_as_batches()
    ensures { (bytes : List ℕ) (r : Result BatchParts PackFault) → AreBytes bytes
        → ReadsPrimer bytes r ↔ (r ≡ primer_at bytes) }
{}
