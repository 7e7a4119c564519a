//! Lists that rise by a file offset of each element, its key.
ghost use Rattle.std.specs.Prelude.{◌≡◌, ◌==◌, ◌<◌, ◌≤◌, ◌+◌, ◌++◌, ◌∷◌, [], find, nat_lt, vec_len, vec_capacity};
ghost use Rattle.std.specs.List.{list_any};
ghost use Rattle.std.specs.List.Sorted.{IsNonDecreasingBy};
ghost use Rattle.std.specs.Option.{option_copied};
ghost use Rattle.mxf_views.specs.Kept.{lies_between, outside, with_keyed};
ghost use Rattle.mxf_views.specs.Rises.{RiseBy};

use crate::kept::arrival::Arrival;
use mxf_klv::{Keyed, below, up_to};

/// Puts an element at the end, if there is room.
pub(super) fn push<T: Drop>(items: &mut Vec<T>, item: T)
    requires { vec_len items.old < vec_capacity items.old }
    ensures items { items.new.items ≡ items.old.items ++ item ∷ [] }
    ensures len { vec_len items.new ≡ vec_len items.old + 1 }
    ensures capacity { vec_capacity items.old ≤ vec_capacity items.new }
{
    let Ok(()) = items.push(item) else {
        unreachable!()
    };
}

/// Puts an element among others by its key, if there is room.
pub(super) fn put<T: Keyed + Drop>(items: &mut Vec<T>, item: T)
    requires rising { IsNonDecreasingBy T.key items.old.items }
    requires room { vec_len items.old < vec_capacity items.old }
    ensures { items.new.items ≡ with_keyed T.key item items.old.items }
{
    let at = up_to(items, item.key());
    match items.insert(at, item) {
        Ok(()) => (),
        Err(_) => unreachable!(),
    }
}

/// Takes out the elements that an arrival moves.
pub(super) fn leave<T: Keyed + Drop>(items: &mut Vec<T>, arrival: &Arrival)
    ensures items { items.new.items ≡ outside T.key arrival.now.start arrival.now.end items.old.items }
    ensures len { vec_len items.new ≤ vec_len items.old }
    ensures capacity { vec_capacity items.new ≡ vec_capacity items.old }
{
    items.retain(|item| arrival.is_outside(item.key()));
}

/// The element with a key.
pub(crate) fn find_by_key<T: Keyed>(items: &[T], key: u64) -> Option<&T>
    requires { RiseBy T.key items.now }
    ensures { option_copied result ≡ find (λ x. T.key x == key) items.now }
{
    let item = items.get(below(items, key))?;
    if item.key() == key { Some(item) } else { None }
}

/// Whether one of the keys lies above another: the last one shows it.
pub(crate) fn any_above<T: Keyed>(items: &[T], low: u64) -> bool
    requires { RiseBy T.key items.now }
    ensures { result ≡ list_any (λ x. nat_lt low (T.key x)) items.now }
{
    match items.last() {
        Some(item) => low < item.key(),
        None => false,
    }
}

/// Whether one of the keys lies between two others: the first one above the lower one shows it.
pub(crate) fn any_between<T: Keyed>(items: &[T], low: u64, high: u64) -> bool
    requires { RiseBy T.key items.now }
    ensures { result ≡ list_any (λ x. lies_between low high (T.key x)) items.now }
{
    match items.get(up_to(items, low)) {
        Some(item) => item.key() < high,
        None => false,
    }
}
