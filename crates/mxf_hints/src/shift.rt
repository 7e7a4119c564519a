//! How far the OFFSET of a source is from the one that its partition packs say.
ghost use Rattle.std.specs.Prelude.{◌≡◌, ◌<◌, List, MatchOption, true};
ghost use Rattle.std.specs.List.{list_all};
ghost use Rattle.mxf_views.specs.Partitions.{PartitionParts, partitions_of};
ghost use Rattle.mxf_hints.specs.Shifts.{IsShift, is_shifted, shifted_bytes};
ghost use Rattle.mxf_hints.specs.declared.shift.Shift.{Shift};

use mxf_klv::MAX;
use mxf_views::{Partition, PartitionAt, Views};
use std::fmt;

/// How far an OFFSET is from the right one, in bytes.
#[derive(Clone, Copy, Debug)]
pub enum Shift {
    /// The OFFSET is that many bytes too high.
    High(u64),
    /// It is that many bytes too low.
    Low(u64),
}

impl Shift {
    /// The right OFFSET, by the one that is named, if a source can have it.
    pub fn right(self, named: u64) -> Option<u64> {
        let right = match self {
            Shift::High(bytes) => named.checked_sub(bytes)?,
            Shift::Low(bytes) => named.checked_add(bytes)?,
        };
        (right <= MAX).then_some(right)
    }
}

impl fmt::Display for Shift {
    fn fmt<W: fmt::Write>(&self, f: &mut fmt::Formatter<W>) -> fmt::Result {
        match *self {
            Shift::High(bytes) => write!(f, "{bytes} too high"),
            Shift::Low(bytes) => write!(f, "{bytes} too low"),
        }
    }
}

/// How far the OFFSET of a source with these views is from the one that all of its partition packs say. `None` if it
/// has none, if they don't agree, or if the OFFSET is right.
pub fn shift_of(views: &Views) -> Option<Shift>
    ensures { MatchOption result ((s : Shift) → IsShift (partitions_of views.now) s → ⊥)
        (IsShift (partitions_of views.now)) }
{
    let first = views.partitions().next()?;
    let shift = shift_by(&first)?;
    if are_shifted(views, shift) {
        Some(shift)
    } else {
        None
    }
}

/// How far a partition lies from where its pack says that it does.
fn shift_by(partition: &PartitionAt<'_>) -> Option<Shift>
    ensures { MatchOption result ((s : Shift) → 0 < shifted_bytes s → is_shifted s partition.now ≡ true → ⊥)
        (λ s. (0 < shifted_bytes s) × (is_shifted s partition.now ≡ true)) }
{
    let this = partition.pack.numbers().this_partition;
    let offset = partition.offset;
    if this < offset {
        Some(Shift::High(offset - this))
    } else if offset < this {
        Some(Shift::Low(this - offset))
    } else {
        None
    }
}

/// Whether each partition lies that far from where its pack says that it does.
pub fn are_shifted(views: &Views, shift: Shift) -> bool
    ensures { result ≡ list_all (is_shifted shift) (partitions_of views.now) }
{
    for partition in views.partitions_in_numbers() {
        if !is_shifted(partition, shift) {
            return false;
        }
    }
    true
}

/// Whether a partition lies that far from where its pack says that it does.
fn is_shifted(partition: &Partition, shift: Shift) -> bool
    ensures { result ≡ is_shifted shift partition.now }
{
    let this = u128::from(partition.numbers.this_partition);
    let offset = u128::from(partition.offset);
    match shift {
        Shift::High(bytes) => offset == this + u128::from(bytes),
        Shift::Low(bytes) => offset + u128::from(bytes) == this,
    }
}

/// A law of [`shift_of`]: partition packs have one shift at most.
pub fn one_shift()
    ensures { (partitions : List PartitionParts) (a b : Shift) → IsShift partitions a → IsShift partitions b → a ≡ b }
{}
