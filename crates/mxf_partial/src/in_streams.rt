//! Elements of streams, in their order, and binary searches among them.
ghost use Rattle.std.specs.Prelude.{◌≡◌, ◌+◌, ◌≤◌, ℕ, MatchOption, length, nat_lt};
ghost use Rattle.mxf_partial.specs.InStreams.{ArePartedAt, HasNoneBelow, HasNoneFrom, IsFirstFrom, IsInOrder};
ghost use Rattle.mxf_partial.specs.InStreams.{IsLastBelow, is_below};

/// What has an offset in a stream.
pub(crate) trait InStream {
    // The number of the stream.
    ghost stream: { Self → ℕ };

    // The offset in it.
    ghost offset: { Self → ℕ };

    // What settles which of two with one offset goes first.
    ghost tie: { Self → ℕ };

    /// The number of the stream.
    fn stream(&self) -> u64
        ensures { result ≡ stream self.now };

    /// The offset in it, in bytes.
    fn offset(&self) -> u128
        ensures { result ≡ offset self.now };
}

/// A bound of offsets, in bytes: the sum of two numbers, which may be too great for one.
#[derive(Clone, Copy)]
pub(crate) struct Bound {
    pub from: u128,
    pub more: u128,
}

/// Whether an offset, in bytes, lies below a bound.
fn lies_below(offset: u128, bound: Bound) -> bool
    ensures { result ≡ nat_lt offset (bound.from + bound.more) }
{
    offset < bound.from || offset - bound.from < bound.more
}

/// Whether an element lies below a bound in a stream: in a lower stream, or below the bound in that stream.
fn is_below<T: InStream>(item: &T, stream: u64, bound: Bound) -> bool
    ensures { result ≡ is_below (T.stream item.now) (T.offset item.now) stream (bound.from + bound.more) }
{
    item.stream() < stream || (item.stream() == stream && lies_below(item.offset(), bound))
}

/// The number of the elements that lie below a bound in a stream: a binary search.
pub(crate) fn below<T: InStream>(items: &[T], stream: u64, bound: Bound) -> usize
    ensures bound { result ≤ length items.now }
    ensures parted { IsInOrder T.stream T.offset T.tie items.now
        → ArePartedAt T.stream T.offset T.tie items.now stream (bound.from + bound.more) result }
{
    items.partition_point(|item| is_below(item, stream, bound))
}

/// The last element of a stream below a bound: a binary search.
pub(crate) fn last_below<T: InStream>(items: &[T], stream: u64, bound: Bound) -> Option<&T>
    ensures { IsInOrder T.stream T.offset T.tie items.now
        → MatchOption result (HasNoneBelow T.stream T.offset T.tie items.now stream (bound.from + bound.more))
        (λ x. IsLastBelow T.stream T.offset T.tie items.now stream (bound.from + bound.more) x.now) }
{
    let count = below(items, stream, bound);
    if count == 0 {
        return None;
    }
    match items.get(count - 1) {
        Some(item) if item.stream() == stream => Some(item),
        _ => None,
    }
}

/// The first element of a stream from a bound on: a binary search.
pub(crate) fn first_from<T: InStream>(items: &[T], stream: u64, bound: Bound) -> Option<&T>
    ensures { IsInOrder T.stream T.offset T.tie items.now
        → MatchOption result (HasNoneFrom T.stream T.offset T.tie items.now stream (bound.from + bound.more))
        (λ x. IsFirstFrom T.stream T.offset T.tie items.now stream (bound.from + bound.more) x.now) }
{
    match items.get(below(items, stream, bound)) {
        Some(item) if item.stream() == stream => Some(item),
        _ => None,
    }
}
