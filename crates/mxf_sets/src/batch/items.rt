//! Going over the items of a batch.
ghost use Rattle.std.specs.Prelude.{◌≡◌};
ghost use Rattle.std.specs.Iterator.{YieldsFirstRef, item_count};

use std::marker::Model;

/// The items of a batch that are left, in their order. Each has as many bytes as the batch states.
#[derive(Drop)]
pub struct BatchItems<'a> {
    count: u32,
    size: u32,
    left: &'a [u8],
}

impl<'a> Model for BatchItems<'a> {
    ghost use Rattle.std.specs.Prelude.{ℕ, List, ◌≡◌, ◌*◌, length};
    ghost use Rattle.mxf_sets.specs.Batch.{sized_items};

    ghost Value = { List (List ℕ) };

    ghost view = { λ s. sized_items s.count s.size s.left.now };

    ghost invariant = { λ s. length s.left.now ≡ s.count * s.size };
}

impl<'a> BatchItems<'a> {
    ghost use Rattle.std.specs.Prelude.{◌*◌, length};
    ghost use Rattle.mxf_sets.specs.Batch.{sized_items};

    /// The given number of items of a size, one after another.
    pub(super) fn of(count: u32, size: u32, items: &'a [u8]) -> BatchItems<'a>
        requires { length items.now ≡ count * size }
        ensures { result ≡ sized_items count size items.now }
    {
        BatchItems {
            count,
            size,
            left: items,
        }
    }
}

impl<'a> Iterator for BatchItems<'a> {
    type Item = &'a [u8];

    ghost next_gives = { YieldsFirstRef (λ s. s) };

    ghost remaining = { item_count (λ s. s) };

    fn next(&mut self) -> Option<&'a [u8]> {
        let count = self.count.checked_sub(1)?;
        let (item, left) = self.left.split_at_checked(self.size as usize)?;
        self.count = count;
        self.left = left;
        Some(item)
    }
}
