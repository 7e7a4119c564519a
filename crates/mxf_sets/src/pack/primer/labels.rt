//! Going over the labels of a tag in a primer pack.
ghost use Rattle.std.specs.Prelude.{◌≡◌, ℕ, List, length, drop};
ghost use Rattle.std.specs.Iterator.{YieldsFirst, item_count};
ghost use Rattle.std.specs.List.{AllByRecursion};
ghost use Rattle.byteorder.specs.Endian.{big_number};
ghost use Rattle.mxf_sets.specs.PackReadings.{labels_among};

use crate::batch::BatchItems;
use byteorder::{BigEndian, ByteOrder};
use std::marker::Model;

/// The labels of the entries of a tag that are left, in the order of the entries.
#[derive(Drop)]
pub(super) struct Labels<'a> {
    tag: u16,
    entries: BatchItems<'a>,
}

impl<'a> Model for Labels<'a> {
    ghost use Rattle.std.specs.Prelude.{◌≡◌, ℕ, List, length};
    ghost use Rattle.std.specs.List.{AllByRecursion};
    ghost use Rattle.mxf_sets.specs.PackReadings.{labels_among};

    ghost Value = { List (List ℕ) };

    ghost view = { λ s. labels_among s.tag s.entries };

    ghost invariant = { λ s. AllByRecursion (λ entry. length entry ≡ 18) s.entries };
}

impl<'a> Labels<'a> {
    /// The labels of the tag among these entries, eighteen bytes each.
    pub(super) fn of(tag: u16, entries: BatchItems<'a>) -> Labels<'a>
        requires { AllByRecursion (λ entry. length entry ≡ 18) entries }
        ensures { result ≡ labels_among tag entries.entry }
    {
        Labels { tag, entries }
    }
}

/// The tag and the label of an entry.
pub(super) fn split_entry(entry: &[u8]) -> (u16, [u8; 16])
    requires { length entry.now ≡ 18 }
    ensures tag { result.0 ≡ big_number 2 entry.now }
    ensures label { result.1 ≡ drop 2 entry.now }
{
    let (_, rest) = entry.split_at(2);
    let mut label = [0; 16];
    label.copy_from_slice(rest);
    (BigEndian::read_u16(entry), label)
}

impl<'a> Iterator for Labels<'a> {
    type Item = [u8; 16];

    ghost next_gives = { YieldsFirst (λ s. s) };

    ghost remaining = { item_count (λ s. s) };

    fn next(&mut self) -> Option<[u8; 16]> {
        while let Some(entry) = self.entries.next() {
            let (tag, label) = split_entry(entry);
            if tag == self.tag {
                return Some(label);
            }
        }
        None
    }
}
