//! Intervals of numbers, which are asked which of them may have one.
ghost use Rattle.std.specs.Prelude.{◌≡◌, ◌<◌, ◌≤◌, ℕ, IfOk, length};
ghost use Rattle.std.specs.List.{AllWithin};
ghost use Rattle.std.specs.List.Sorted.{IsNonDecreasingBy, IsPermutation};
ghost use Rattle.mxf_units.specs.Intervals.{IsAround, greatest_ends};

use mxf_klv::OutOfMemory;
use std::alloc::Global;
use std::marker::Model;

/// What has numbers from a first one up to an end.
pub(crate) trait Interval: Drop {
    // The first number.
    ghost first: { Self → ℕ };

    // The end: no greater number is one of its own.
    ghost end: { Self → ℕ };

    /// The first number.
    fn first(&self) -> u128
        ensures { result ≡ first self.now };

    /// The end: no greater number is one of its own.
    fn end(&self) -> u128
        ensures { result ≡ end self.now };
}

/// Intervals by where they begin.
#[derive(Drop)]
pub(crate) struct Intervals<T: Interval> {
    intervals: Vec<T>,
    /// Beside each the greatest end of those up to it.
    ends: Vec<u128>,
}

impl<T: Interval> Model for Intervals<T> {
    ghost use Rattle.std.specs.Prelude.{List};
    ghost use Rattle.mxf_units.specs.Intervals.{AreByFirst};

    ghost Value = { List T };

    ghost view = { λ s. s.intervals.items };

    ghost invariant = { λ s. AreByFirst T.first T.end s.intervals.items s.ends.items };
}

impl<T: Interval> Intervals<T> {
    /// The intervals. It takes n log n of them.
    pub(crate) fn of(alloc: Global, mut intervals: Vec<T>) -> Result<Intervals<T>, OutOfMemory>
        ensures { IfOk result (λ s. IsPermutation intervals.items s) }
    {
        intervals.sort_unstable_by_key(|interval| interval.first());
        let ends = greatest_ends(alloc, &intervals)?;
        Ok(Intervals { intervals, ends })
    }

    /// All of them.
    pub(crate) fn all(&self) -> &[T]
        ensures { result.now ≡ self.now }
    {
        &self.intervals
    }

    /// Those that may have a number, and those that begin above it: two binary searches. If intervals overlap, those
    /// that lie between them come as well.
    pub(crate) fn around(&self, at: u128) -> (&[T], &[T])
        ensures { IsAround T.first T.end at self.now result.0.now result.1.now }
    {
        let begun = begun_by(&self.intervals, at);
        let (begun, above) = self.intervals.split_at(begun);
        let ended = ended_below(&self.ends, at).min(begun.len());
        let (_, near) = begun.split_at(ended);
        (near, above)
    }
}

/// The greatest end of each interval and those before it.
fn greatest_ends<T: Interval>(alloc: Global, intervals: &[T]) -> Result<Vec<u128>, OutOfMemory>
    ensures { IfOk result (λ v. v.items ≡ greatest_ends T.end 0 intervals.now) }
{
    let mut ends = Vec::new(alloc);
    let mut greatest = 0;
    for interval in intervals {
        greatest = greatest.max(interval.end());
        ends.push(greatest)?;
    }
    Ok(ends)
}

/// How many intervals begin at or below a number.
fn begun_by<T: Interval>(intervals: &[T], at: u128) -> usize
    requires { IsNonDecreasingBy T.first intervals.now }
    ensures bound { result ≤ length intervals.now }
    ensures above { AllWithin (λ x. at < T.first x) intervals.now result (length intervals.now) }
{
    intervals.partition_point(|interval| interval.first() <= at)
}

/// How many ends, which don't fall, lie below a number.
fn ended_below(ends: &[u128], at: u128) -> usize
    requires { IsNonDecreasingBy (λ x. x) ends.now }
    ensures bound { result ≤ length ends.now }
    ensures below { AllWithin (λ x. x < at) ends.now 0 result }
{
    ends.partition_point(|end| *end < at)
}
