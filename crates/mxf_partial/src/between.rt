//! Named places between index table segments. The segment of a unit to which none gives a place may stand there (ST
//! 377-1, Index Table Segment).
ghost use Rattle.std.specs.Prelude.{◌≡◌, ◌↔◌, ◌⊎◌, ◌*◌, ◌/◌, ◌^◌, ◌<◌, ◌≤◌, ℕ, IfOk, OnOk, Some, length, map};
ghost use Rattle.std.specs.Prelude.{slice_get};
ghost use Rattle.std.specs.List.Sorted.{IsNonDecreasingBy};
ghost use Rattle.std.specs.Ordering.{nat_cmp};
ghost use Rattle.mxf_klv.specs.Rising.{In, IsRising};
ghost use Rattle.mxf_restore.specs.declared.named.NamedPlace.{NamedPlace};
ghost use Rattle.mxf_partial.specs.Between.{IsOneOf16, MayIndexOneOf};
ghost use Rattle.mxf_partial.specs.Named.{AreNamed};
ghost use Rattle.mxf_partial.specs.SegmentStarts.{IsEvenly16, greatest_so_far, is_between_any, least_so_far, start_of};
ghost use Rattle.mxf_partial.specs.SegmentStarts.{starts_for};
ghost use Rattle.mxf_partial.specs.declared.between.SegmentStart.{SegmentStart};

use mxf_klv::{Keyed, OutOfMemory, below, up_to};
use mxf_restore::NamedPlace;
use mxf_units::Units;
use mxf_views::SegmentInNumbers;
use std::alloc::Global;
use std::marker::Model;

/// The greatest number of places that are asked for because of units that no segment places.
const MOST_CHOSEN: usize = 16;

/// More than any number of a unit: 2^64.
const ABOVE_UNITS: u128 = 18_446_744_073_709_551_616;

/// Where a segment of the index stands, and the unit that it begins with.
#[derive(Clone, Copy)]
struct SegmentStart {
    /// The file offset where the segment's packet begins, in bytes.
    offset: u64,
    /// The number of the unit.
    unit: u64,
}

/// They rise by where the segments stand.
impl Keyed for SegmentStart {
    ghost key = { λ s. s.offset };

    fn key(&self) -> u64 {
        self.offset
    }
}

/// The segments of an index by where they stand and begin, rising.
#[derive(Drop)]
struct Starts {
    starts: Vec<SegmentStart>,
    /// For each count, the greatest unit that one of that many first ones begins with; 0 of none.
    greatest: Vec<u64>,
    /// For each count, the least unit that one of that many last ones begins with; 2^64 of none.
    least: Vec<u128>,
}

impl Model for Starts {
    ghost use Rattle.std.specs.Prelude.{◌≡◌, ◌^◌, List, map, reverse};
    ghost use Rattle.std.specs.List.Sorted.{IsNonDecreasingBy};
    ghost use Rattle.mxf_partial.specs.SegmentStarts.{greatest_so_far, least_so_far};
    ghost use Rattle.mxf_partial.specs.declared.between.SegmentStart.{SegmentStart};

    ghost Value = { List SegmentStart };

    ghost view = { λ s. s.starts.items };

    ghost invariant = { λ s. IsNonDecreasingBy (λ t. t.offset) s.starts.items
        × (s.greatest.items ≡ greatest_so_far 0 (map (λ t. t.unit) s.starts.items))
        × (s.least.items ≡ least_so_far (2 ^ 64) (reverse (map (λ t. t.unit) s.starts.items))) };
}

impl Starts {
    /// Those of the segments of the index. They take memory.
    fn of(alloc: Global, units: &Units<'_>) -> Result<Starts, OutOfMemory>
        ensures { IfOk result (λ s. s ≡ starts_for units.now) }
    {
        let starts = starts_for(alloc, units)?;
        let mut numbers = numbers_of(alloc, &starts)?;
        let greatest = greatest_so_far(alloc, &numbers)?;
        numbers.reverse();
        let least = least_so_far(alloc, &numbers)?;
        Ok(Starts {
            starts,
            greatest,
            least,
        })
    }

    /// The greatest unit that a segment begins with that stands at an offset, in bytes, or before it; 0 without one. It
    /// is a binary search.
    fn low(&self, place: u64) -> u64
        ensures { (u : ℕ) → (result ≤ u)
            ↔ ((s : SegmentStart) → In s self.now → s.offset ≤ place → s.unit ≤ u) }
    {
        self.greatest[up_to(&self.starts, place)]
    }

    /// The least unit that a segment begins with that stands at an offset, in bytes, or after it; 2^64 without one. It
    /// is a binary search.
    fn high(&self, place: u64) -> u128
        ensures { (u : ℕ) → u < 2 ^ 64
            → (u < result) ↔ ((s : SegmentStart) → In s self.now → place ≤ s.offset → u < s.unit) }
    {
        self.least[self.starts.len() - below(&self.starts, place)]
    }

    /// Whether an offset, in bytes, lies between the segments for a unit of one of these numbers, which rise. The first
    /// number that isn't too low decides it. It is three binary searches.
    fn is_between_any(&self, numbers: &[u64], place: u64) -> bool
        requires { IsRising nat_cmp numbers.now }
        ensures { result ≡ is_between_any self.now numbers.now place }
    {
        match numbers.get(below(numbers, self.low(place))) {
            Some(number) => u128::from(*number) < self.high(place),
            None => false,
        }
    }
}

/// Where the segments of the index stand and begin, in their order. They take memory.
fn starts_for(alloc: Global, units: &Units<'_>) -> Result<Vec<SegmentStart>, OutOfMemory>
    ensures starts { IfOk result (λ v. v.items ≡ starts_for units.now) }
    ensures rising { IfOk result (λ v. IsNonDecreasingBy (λ s. s.offset) v.items) }
{
    let index_sid = units.index_sid();
    let segments = units.holdings().views().segments_in_numbers().iter();
    let starts = segments
        .filter(|segment| segment.numbers.index_sid == index_sid)
        .map(start_of);
    Ok(starts.collect(alloc)?)
}

/// Where a segment stands and begins.
fn start_of(segment: &SegmentInNumbers) -> SegmentStart
    ensures { result ≡ start_of segment.now }
{
    SegmentStart {
        offset: segment.offset,
        unit: segment.numbers.start.unsigned_abs(),
    }
}

/// The units that segments begin with. They take memory.
fn numbers_of(alloc: Global, starts: &[SegmentStart]) -> Result<Vec<u64>, OutOfMemory>
    ensures { IfOk result (λ v. v.items ≡ map (λ s. s.unit) starts.now) }
{
    Ok(starts.iter().map(|start| start.unit).collect(alloc)?)
}

/// For each count, the greatest of that many first numbers; 0 of none. They take memory.
fn greatest_so_far(alloc: Global, numbers: &[u64]) -> Result<Vec<u64>, OutOfMemory>
    ensures { IfOk result (λ v. v.items ≡ greatest_so_far 0 numbers.now) }
{
    let mut greatest = 0;
    let mut found = Vec::new(alloc);
    for number in numbers {
        found.push(greatest)?;
        greatest = greatest.max(*number);
    }
    found.push(greatest)?;
    Ok(found)
}

/// For each count, the least of that many first numbers; 2^64 of none. They take memory.
fn least_so_far(alloc: Global, numbers: &[u64]) -> Result<Vec<u128>, OutOfMemory>
    ensures { IfOk result (λ v. v.items ≡ least_so_far (2 ^ 64) numbers.now) }
{
    let mut least = ABOVE_UNITS;
    let mut found = Vec::new(alloc);
    for number in numbers {
        found.push(least)?;
        least = least.min(u128::from(*number));
    }
    found.push(least)?;
    Ok(found)
}

/// Adds the named places where the index may go on to units with these numbers, which rise. Of more than 16, it adds
/// the 16 that lie evenly among them. It takes memory as the segments of the index and the named places do, and time n
/// log n of these and of the numbers.
pub(crate) fn add_chosen(
    alloc: Global,
    asked: &mut Vec<NamedPlace>,
    units: &Units<'_>,
    named: &[NamedPlace],
    numbers: &[u64],
) -> Result<(), OutOfMemory>
    requires named { AreNamed units.now.known.notes named.now }
    requires rising { IsRising nat_cmp numbers.now }
    ensures { OnOk result ((n : NamedPlace) → In n asked.new.items ↔ (In n asked.old.items
        ⊎ (In n named.now × IsOneOf16 (MayIndexOneOf units.now numbers.now) n.place))) }
{
    let starts = Starts::of(alloc, units)?;
    let named = named.iter();
    let between = named.filter(|place| starts.is_between_any(numbers, place.place));
    let places: Vec<NamedPlace> = between.copied().collect(alloc)?;
    add_evenly(asked, &places)
}

/// Adds some places: all if there are 16 at most, otherwise the 16 that lie evenly among them.
fn add_evenly(asked: &mut Vec<NamedPlace>, places: &[NamedPlace]) -> Result<(), OutOfMemory>
    ensures { OnOk result ((n : NamedPlace) → In n asked.new.items
        ↔ (In n asked.old.items ⊎ IsEvenly16 places.now n)) }
{
    if places.len() > MOST_CHOSEN {
        return add_16(asked, places);
    }
    Ok(asked.extend_from_slice(places)?)
}

/// Adds the 16 that lie evenly among some places.
fn add_16(asked: &mut Vec<NamedPlace>, places: &[NamedPlace]) -> Result<(), OutOfMemory>
    requires { 16 < length places.now }
    ensures { OnOk result ((n : NamedPlace) → In n asked.new.items ↔ (In n asked.old.items
        ⊎ ((i : ℕ) × (i < 16) × (slice_get places.now (i * length places.now / 16) ≡ Some n)))) }
{
    for i in 0..MOST_CHOSEN {
        asked.push(places[part_of(places.len(), i)])?;
    }
    Ok(())
}

/// A number of sixteenths of a count.
fn part_of(count: usize, sixteenths: usize) -> usize
    requires { sixteenths < 16 }
    ensures { result ≡ sixteenths * count / 16 }
{
    (count as u128 * sixteenths as u128 / 16) as usize
}
