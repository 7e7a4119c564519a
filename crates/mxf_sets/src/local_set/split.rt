//! Splitting the value of a local set into its items.
ghost use Rattle.std.specs.Prelude.{◌≡◌, ◌↔◌, ◌-◌, ◌++◌, ℕ, List, [], length, IfOk, IfErr, IsOk, IsOkAnd};
ghost use Rattle.std.specs.List.{flat_map, AllByRecursion};
ghost use Rattle.mxf_klv.specs.Bytes.{AreBytes};
ghost use Rattle.mxf_sets.specs.Items.{AreItems, IsItem, ItemParts, item_bytes, items_of, left_of};

use super::{Items, SetFault, first_item};

/// Reads all of the value as the items of a local set, one after another (ST 336, local sets).
///
/// Tags may repeat; [`Items::only`] says whether one does.
pub fn items(value: &[u8]) -> Result<Items<'_>, SetFault>
    // The items that are read make up the bytes, and no others do.
    ensures found { IfOk result (λ it. AreItems value.now it) }
    ensures only { (is : List ItemParts) → AreItems value.now is → IsOkAnd result (λ it. it ≡ is) }

    // They are the whole items at the front. If bytes are left, they begin with the first item that isn't whole.
    ensures items { IfOk result (λ it. it ≡ items_of value.now) }
    ensures whole { IsOk result ↔ (left_of value.now ≡ []) }
    ensures cut { IfErr result (λ e. e ≡ SetFault.CutItem (length value.now - length (left_of value.now))) }
{
    let mut rest = value;
    while let Some((_, after)) = first_item(rest) {
        rest = after;
    }
    if !rest.is_empty() {
        return Err(SetFault::CutItem(value.len() - rest.len()));
    }
    Ok(Items { rest: value })
}

/// A law: bytes are the whole items at their front and what is left, and what is left begins with no whole item.
pub fn whole_items_stand_at_the_front()
    ensures bytes { (bytes : List ℕ) → AreBytes bytes → bytes ≡ flat_map item_bytes (items_of bytes) ++ left_of bytes }
    ensures each { (bytes : List ℕ) → AreBytes bytes → AllByRecursion IsItem (items_of bytes) }
    ensures left { (bytes rest : List ℕ) (item : ItemParts) → IsItem item → left_of bytes ≡ item_bytes item ++ rest
        → ⊥ }
{}
