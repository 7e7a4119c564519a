//! Segments beside which others say nothing new (ST 377-1, Edit Unit Byte Count). An index of units of one size is often
//! repeated in each partition.
ghost use Rattle.std.specs.Prelude.{◌≡◌, ◌⊎◌, ◌++◌, ◌∷◌, [], IfOk, IsTrue, OnOk};
ghost use Rattle.mxf_klv.specs.Rising.{In};
ghost use Rattle.mxf_views.specs.Places.{SegmentAtParts};
ghost use Rattle.mxf_units.specs.Repeated.{SayAll, SaysAllOf};

use crate::constant_units::ConstantUnits;
use mxf_klv::OutOfMemory;
use mxf_views::SegmentAt;
use std::alloc::Global;
use std::cmp::Reverse;

/// Those of the segments that say all that any of them says, in any order. It takes memory, and n log n of the segments.
pub(crate) fn without_repeated<'a>(
    alloc: Global,
    mut segments: Vec<SegmentAt<'a>>,
) -> Result<Vec<SegmentAt<'a>>, OutOfMemory>
    ensures { IfOk result (λ v. SayAll segments.entry.items v.items) }
{
    // One that says all that another says stands before it, and none between them says less.
    segments.sort_unstable_by_key(order_of);
    each_once(alloc, segments)
}

/// By stream and size, then by where the units begin; of those that begin together the most go first.
fn order_of(segment: &SegmentAt<'_>) -> (u32, u32, u64, Reverse<u64>) {
    let numbers = segment.segment.numbers();
    let count = match numbers.duration.unsigned_abs() {
        0 => u64::MAX,
        duration => duration,
    };
    (
        numbers.body_sid,
        numbers.unit_bytes,
        numbers.start.unsigned_abs(),
        Reverse(count),
    )
}

/// Those of the segments of which the one that is left before them doesn't say all. They take memory.
fn each_once<'a>(
    alloc: Global,
    segments: Vec<SegmentAt<'a>>,
) -> Result<Vec<SegmentAt<'a>>, OutOfMemory>
    ensures { IfOk result (λ v. SayAll segments.entry.items v.items) }
{
    let mut left = Vec::new(alloc);
    for segment in segments {
        add_unless_said(&mut left, segment)?;
    }
    Ok(left)
}

/// Adds a segment, unless the last of those that are left says all that it says.
fn add_unless_said<'a>(
    left: &mut Vec<SegmentAt<'a>>,
    segment: SegmentAt<'a>,
) -> Result<(), OutOfMemory>
    ensures { OnOk result ((left.new.items ≡ left.old.items ++ segment.entry ∷ [])
        ⊎ ((left.new.items ≡ left.old.items) × ((t : SegmentAtParts) × In t left.old.items × SaysAllOf t segment.entry))) }
{
    if !is_said(left, &segment) {
        left.push(segment)?;
    }
    Ok(())
}

/// Whether the last of some segments says all that another says.
fn is_said(left: &[SegmentAt<'_>], segment: &SegmentAt<'_>) -> bool
    ensures { IsTrue result → ((t : SegmentAtParts) × In t left.now × SaysAllOf t segment.now) }
{
    match left.last() {
        Some(last) => says_all_of(last, segment),
        None => false,
    }
}

/// Whether the units of a segment and those of another all have one size, and those of the other are among them.
fn says_all_of(segment: &SegmentAt<'_>, other: &SegmentAt<'_>) -> bool
    ensures { IsTrue result → SaysAllOf segment.now other.now }
{
    let Some(units) = ConstantUnits::of(segment) else {
        return false;
    };
    let Some(others) = ConstantUnits::of(other) else {
        return false;
    };
    units.has_all_of(&others)
}
