//! Going over the entries of a random index pack.
ghost use Rattle.std.specs.Prelude.{◌≡◌, ◌≤◌, length};
ghost use Rattle.std.specs.Iterator.{YieldsFirst, item_count};
ghost use Rattle.mxf_sets.specs.RandomIndexPack.{entry_in};

use super::{ENTRY, RipEntry};
use byteorder::{BigEndian, ByteOrder};
use std::marker::Model;

/// The entries of a random index pack that are left, in their order.
#[derive(Drop)]
pub struct RipEntries<'a> {
    count: usize,
    left: &'a [u8],
}

impl<'a> Model for RipEntries<'a> {
    ghost use Rattle.std.specs.Prelude.{List, ◌≡◌, ◌*◌, length};
    ghost use Rattle.mxf_sets.specs.RandomIndexPack.{entries_by};
    ghost use Rattle.mxf_sets.specs.declared.pack.random_index.RipEntry.{RipEntry};

    ghost Value = { List RipEntry };

    ghost view = { λ s. entries_by s.count s.left.now };

    ghost invariant = { λ s. length s.left.now ≡ s.count * 12 };
}

impl<'a> RipEntries<'a> {
    ghost use Rattle.std.specs.Prelude.{◌*◌, length};
    ghost use Rattle.mxf_sets.specs.RandomIndexPack.{entries_by};

    /// The given number of entries, one after another.
    pub(super) fn of(count: usize, entries: &'a [u8]) -> RipEntries<'a>
        requires { length entries.now ≡ count * 12 }
        ensures { result ≡ entries_by count entries.now }
    {
        RipEntries {
            count,
            left: entries,
        }
    }
}

/// The entry at the front.
pub(super) fn read_entry(bytes: &[u8]) -> RipEntry
    requires { 12 ≤ length bytes.now }
    ensures { result ≡ entry_in bytes.now }
{
    let (_, offset) = bytes.split_at(4);
    RipEntry {
        body_sid: BigEndian::read_u32(bytes),
        offset: BigEndian::read_u64(offset),
    }
}

impl<'a> Iterator for RipEntries<'a> {
    type Item = RipEntry;

    ghost next_gives = { YieldsFirst (λ s. s) };

    ghost remaining = { item_count (λ s. s) };

    fn next(&mut self) -> Option<RipEntry> {
        let count = self.count.checked_sub(1)?;
        let entry = read_entry(self.left);
        let (_, left) = self.left.split_at(ENTRY);
        self.count = count;
        self.left = left;
        Some(entry)
    }
}
