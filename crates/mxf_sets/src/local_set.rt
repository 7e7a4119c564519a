//! Local sets (ST 336, local sets; tags and lengths of two bytes): their items, and the look-up of an item by its tag.
ghost use Rattle.std.specs.Prelude.{◌≡◌, ◌<◌, ◌↔◌, IsErr, IfOk};
ghost use Rattle.std.specs.Iterator.{YieldsFirst, item_count};
ghost use Rattle.std.specs.Option.{option_map};
ghost use Rattle.mxf_sets.specs.Items.{item_at};
ghost use Rattle.mxf_sets.specs.Lookup.{count_of, value_of};

pub(crate) mod split;

use std::marker::Model;
use thiserror::Error;

/// An item of a local set (ST 336, local sets with tags and lengths of two bytes): a property of what the set
/// describes.
///
/// Two bytes are the tag, two more the length of the value, and the value follows. A tag is short for a label. Tags
/// below `8000` are the standard's own; the others are given by whoever wrote the file, and the primer pack of the same
/// header metadata says which label each of them stands for.
#[derive(Debug, Drop)]
pub struct Item<'a> {
    /// The tag, which the primer or a static dictionary ties to a label.
    pub tag: u16,
    /// The value's bytes, 0 to 65,535.
    pub value: &'a [u8],
}

impl<'a> Model for Item<'a> {
    ghost use Rattle.mxf_sets.specs.Items.{ItemParts};

    ghost Value = { ItemParts };

    ghost view = { λ i. record { tag = i.tag; value = i.value.now } };
}

/// The items of a local set that aren't given yet, in the order of their bytes (ST 336, local sets).
///
/// The header metadata is a tree of such sets. Each describes one thing by its items (a package, a track, a program
/// that wrote the file), and names others by the identifiers that stand in them. The items stand one after another and
/// fill the value of the set's packet. Their order says nothing. A tag that is used twice is refused by those who read
/// the set, not here.
#[derive(Drop)]
pub struct Items<'a> {
    rest: &'a [u8],
}

impl<'a> Model for Items<'a> {
    ghost use Rattle.std.specs.Prelude.{◌≡◌, List, []};
    ghost use Rattle.mxf_sets.specs.Items.{ItemParts, items_of, left_of};

    ghost Value = { List ItemParts };

    ghost view = { λ s. items_of s.rest.now };

    ghost invariant = { λ s. left_of s.rest.now ≡ [] };
}

/// Why bytes are no local set.
#[derive(Clone, Copy, Debug, PartialEq, Eq, Error)]
pub enum SetFault {
    /// The position, in bytes, of the first item whose tag, length or value isn't whole.
    #[error("the item at {0} is cut")]
    CutItem(usize),
}

/// More than one item has the tag.
#[derive(Clone, Copy, Debug, PartialEq, Eq, Error)]
#[error("the tag is repeated")]
pub struct RepeatedTag;

/// The item at the front, if a whole one stands there, and the bytes after it.
#[tactic(auto, unfolding(crate::specs::Items::item_at))]
fn first_item(bytes: &[u8]) -> Option<(Item<'_>, &[u8])>
    ensures { option_map (λ x. (x.0, x.1.now)) result ≡ item_at bytes.now }
{
    if bytes.len() < 4 {
        return None;
    }
    let (head, rest) = bytes.split_at(4);
    let tag = u16::from_be_bytes([head[0], head[1]]);
    let len = usize::from(u16::from_be_bytes([head[2], head[3]]));
    if rest.len() < len {
        return None;
    }
    let (value, after) = rest.split_at(len);
    Some((Item { tag, value }, after))
}

impl<'a> Iterator for Items<'a> {
    type Item = Item<'a>;

    ghost next_gives = { YieldsFirst (λ s. s) };

    ghost remaining = { item_count (λ s. s) };

    fn next(&mut self) -> Option<Item<'a>> {
        let (item, after) = first_item(self.rest)?;
        self.rest = after;
        Some(item)
    }
}

impl<'a> Items<'a> {
    /// The same items again.
    fn again(&self) -> Items<'a>
        ensures { result ≡ self.now }
    {
        Items { rest: self.rest }
    }

    /// The value of the one item with the tag, if there is one, among the items not given yet.
    pub fn only(&self, tag: u16) -> Result<Option<&'a [u8]>, RepeatedTag>
        ensures repeated { IsErr result ↔ (1 < count_of tag self.now) }
        ensures value { IfOk result (λ o. option_map (λ v. v.now) o ≡ value_of tag self.now) }
    {
        let mut found: Option<&'a [u8]> = None;
        for item in self.again() {
            if item.tag == tag {
                if found.is_some() {
                    return Err(RepeatedTag);
                }
                found = Some(item.value);
            }
        }
        Ok(found)
    }

    /// The value of the first item with the tag.
    pub(crate) fn first(&self, tag: u16) -> Option<&'a [u8]>
        ensures { option_map (λ v. v.now) result ≡ value_of tag self.now }
    {
        for item in self.again() {
            if item.tag == tag {
                return Some(item.value);
            }
        }
        None
    }
}
