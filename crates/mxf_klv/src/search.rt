//! Searches in a list that rises by a key. How many elements lie below a bound is told by a look at the last, else by
//! binary search.
ghost use Rattle.std.specs.Prelude.{◌≡◌, ◌↔◌, ◌<◌, ◌≤◌, ◌==◌, ◌&&◌, ℕ, IsTrue, true, filter, length, map, nat_le};
ghost use Rattle.std.specs.Prelude.{count_by, false, nat_lt};
ghost use Rattle.std.specs.List.{AllWithin};
ghost use Rattle.std.specs.List.Sorted.{IsNonDecreasingBy};
ghost use Rattle.std.specs.Option.{option_map_or};
ghost use Rattle.mxf_klv.specs.Rising.{In};

/// What has a number by which a list of its kind can rise.
pub trait Keyed {
    // The number.
    ghost key: { Self → ℕ };

    /// The number.
    fn key(&self) -> u64
        ensures { result ≡ key self.now };
}

/// An offset is its own key.
impl Keyed for u64 {
    ghost key = { λ n. n };

    fn key(&self) -> u64 {
        *self
    }
}

/// So is a count.
impl Keyed for usize {
    ghost key = { λ n. n };

    fn key(&self) -> u64 {
        *self as u64
    }
}

/// What is lent has its key.
impl<T: Keyed> Keyed for &T {
    ghost key = { λ r. T.key r.now };

    fn key(&self) -> u64 {
        (**self).key()
    }
}

/// The number of the elements whose key lies below the bound.
pub fn below<T: Keyed>(items: &[T], bound: u64) -> usize
    requires { IsNonDecreasingBy T.key items.now }
    ensures bound { result ≤ length items.now }
    ensures below { AllWithin (λ x. T.key x < bound) items.now 0 result }
    ensures above { AllWithin (λ x. bound ≤ T.key x) items.now result (length items.now) }
{
    match items.last() {
        Some(last) if last.key() < bound => items.len(),
        _ => items.partition_point(|item| item.key() < bound),
    }
}

/// The number of the elements whose key lies at or below the bound.
pub fn up_to<T: Keyed>(items: &[T], bound: u64) -> usize
    requires { IsNonDecreasingBy T.key items.now }
    ensures bound { result ≤ length items.now }
    ensures below { AllWithin (λ x. T.key x ≤ bound) items.now 0 result }
    ensures above { AllWithin (λ x. bound < T.key x) items.now result (length items.now) }
{
    match items.last() {
        Some(last) if last.key() <= bound => items.len(),
        _ => items.partition_point(|item| item.key() <= bound),
    }
}

/// Whether one of the elements has the key.
pub fn has_key<T: Keyed>(items: &[T], key: u64) -> bool
    requires { IsNonDecreasingBy T.key items.now }
    ensures { IsTrue result ↔ In key (map T.key items.now) }
{
    match items.get(below(items, key)) {
        Some(item) => item.key() == key,
        None => false,
    }
}

/// How many of the elements have the key.
pub fn count_with_key<T: Keyed>(items: &[T], key: u64) -> usize
    requires { IsNonDecreasingBy T.key items.now }
    ensures { result ≡ count_by (λ x. T.key x == key) items.now }
{
    up_to(items, key) - below(items, key)
}

/// The elements whose keys lie at or above `from`, and below an end if there is one.
pub fn between<T: Keyed>(items: &[T], from: u64, end: Option<u64>) -> &[T]
    requires { IsNonDecreasingBy T.key items.now }
    ensures { result.now ≡ filter (λ x. nat_le from (T.key x) && option_map_or (λ e. nat_lt (T.key x) e) end true)
        items.now }
{
    let to = below_end(items, end);
    let start = below(items, from).min(to);
    let (front, _) = items.split_at(to);
    let (_, between) = front.split_at(start);
    between
}

/// The number of the elements whose key lies below an end; all of them if there is none.
fn below_end<T: Keyed>(items: &[T], end: Option<u64>) -> usize
    requires { IsNonDecreasingBy T.key items.now }
    ensures bound { result ≤ length items.now }
    ensures below { AllWithin (λ x. option_map_or (λ e. nat_lt (T.key x) e) end true ≡ true) items.now 0 result }
    ensures above { AllWithin (λ x. option_map_or (λ e. nat_lt (T.key x) e) end true ≡ false) items.now result
        (length items.now) }
{
    match end {
        Some(end) => below(items, end),
        None => items.len(),
    }
}
