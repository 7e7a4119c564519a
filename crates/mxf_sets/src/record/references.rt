//! Lists of references (ST 377-1, strong references).
ghost use Rattle.std.specs.Prelude.{◌≡◌, ◌%◌, ℕ, List, [], length};
ghost use Rattle.std.specs.Iterator.{YieldsFirst, item_count};
ghost use Rattle.std.specs.List.{AllByRecursion, flat_map, slice_get};
ghost use Rattle.mxf_sets.specs.Reference.{references_in, references_of};

use super::values::identifier;
use crate::Items;
use std::marker::Model;
use uuid::Uuid;

/// References to other sets (ST 377-1, strong references), in the order of their batch, repeated ones too.
///
/// Each set has an instance identifier, and another set names it by the same sixteen bytes. These link the sets of the
/// header metadata, in whatever order they stand. A reference leads to the sets of its own copy alone.
#[derive(Debug, Drop)]
pub struct References<'a> {
    bytes: &'a [u8],
}

impl<'a> Model for References<'a> {
    ghost use Rattle.std.specs.Prelude.{ℕ, List};
    ghost use Rattle.mxf_sets.specs.Reference.{references_of};

    ghost Value = { List (List ℕ) };

    ghost view = { λ r. references_of r.bytes.now };
}

impl<'a> References<'a> {
    /// The references of the batch that a tag's value is; none if no item has the tag.
    pub(super) fn of(items: &Items<'a>, tag: u16) -> References<'a>
        ensures { result ≡ references_in tag items.now }
    {
        match items.first(tag) {
            Some(batch) => References {
                bytes: batch.get(8..).unwrap_or(&[]),
            },
            None => References::none(),
        }
    }

    pub(super) fn none() -> References<'a>
        ensures { result ≡ [] }
    {
        References { bytes: &[] }
    }

    /// The same references again.
    pub(super) fn again(&self) -> References<'a>
        ensures { result ≡ self.now }
    {
        References { bytes: self.bytes }
    }

    /// The number of references.
    pub fn len(&self) -> usize
        ensures { result ≡ length self.now }
    {
        let bytes = self.bytes.len();
        bytes / 16
    }

    /// The reference at a place, counted from 0.
    pub fn get(&self, at: usize) -> Option<Uuid>
        ensures { result ≡ slice_get self.now at }
    {
        if at >= self.bytes.len() / 16 {
            return None;
        }
        let (_, rest) = self.bytes.split_at(16 * at);
        let (reference, _) = rest.split_at(16);
        Some(identifier(reference))
    }
}

impl<'a> Iterator for References<'a> {
    type Item = Uuid;

    ghost next_gives = { YieldsFirst (λ s. s) };

    ghost remaining = { item_count (λ s. s) };

    fn next(&mut self) -> Option<Uuid> {
        let (first, after) = self.bytes.split_first_chunk::<16>()?;
        self.bytes = after;
        Some(Uuid::from_bytes(*first))
    }
}

/// A law of [`References`]: the references of a batch of them are its items, sixteen bytes each.
pub fn references_are_the_items_of_their_batch()
    ensures items { (items : List ℕ) → length items % 16 ≡ 0
        → flat_map (λ reference. reference) (references_of items) ≡ items }
    ensures width { (items : List ℕ) → AllByRecursion (λ reference. length reference ≡ 16) (references_of items) }
{}
