//! Edit units one after another.
ghost use Rattle.std.specs.Prelude.{◌≡◌, ◌+◌, ◌-◌, ◌<◌, ◌≤◌, ◌⊎◌, IfNone, IfSome};
ghost use Rattle.std.specs.Iterator.{YieldsFirst, item_count};
ghost use Rattle.std.specs.Option.{option_to_list};
ghost use Rattle.mxf_units.specs.Ranges.{least_of, needed_from, units_from};

use crate::unit::EditUnit;
use crate::units::Units;
use std::marker::Model;

/// The greatest edit unit: segments state theirs as signed numbers of eight bytes.
pub(crate) const GREATEST_UNIT: u64 = 9_223_372_036_854_775_807;

/// The greatest number of units that are asked for at once.
const MOST_UNITS: u64 = 1_000_000;

/// A number of edit units, one after another as they are stored.
#[derive(Clone, Copy, Debug, PartialEq, Eq)]
pub struct UnitRange {
    first: u64,
    count: u64,

    ghost some: { 1 ≤ count },
    ghost few: { count ≤ 1000000 },
    ghost in_range: { first + count ≤ 9223372036854775808 },
}

impl UnitRange {
    /// The units from one up to another, that included. None if the last is above 9,223,372,036,854,775,807 or below
    /// the first, or if there are more than 1,000,000.
    pub fn new(first: u64, last: u64) -> Option<UnitRange>
        ensures some { IfSome result (λ r. (r.first ≡ first) × (r.first + r.count ≡ last + 1)) }
        ensures none { IfNone result ((9223372036854775807 < last) ⊎ ((last < first) ⊎ (1000000 ≤ last - first))) }
    {
        if last > GREATEST_UNIT || last < first || last - first >= MOST_UNITS {
            return None;
        }
        let count = last - first + 1;
        Some(UnitRange { first, count })
    }

    /// The first of them.
    pub fn first(&self) -> u64
        ensures { result ≡ self.now.first }
    {
        self.first
    }

    /// How many there are: from 1 to 1,000,000.
    pub fn count(&self) -> u64
        ensures { result ≡ self.now.count }
    {
        self.count
    }

    /// The last of them.
    pub fn last(&self) -> u64
        ensures last { result + 1 ≡ self.now.first + self.now.count }
        ensures order { self.now.first ≤ result }
        ensures bound { result ≤ 9223372036854775807 }
    {
        self.first + (self.count - 1)
    }
}

/// The units of a range that are left, in their order.
#[derive(Drop)]
pub struct UnitsLeft<'a> {
    units: &'a Units<'a>,
    next: u64,
    left: u64,

    ghost in_range: { next + left ≤ 9223372036854775808 },
}

impl<'a> Model for UnitsLeft<'a> {
    ghost use Rattle.std.specs.Prelude.{List};
    ghost use Rattle.mxf_units.specs.declared.unit.EditUnit.{EditUnit};
    ghost use Rattle.mxf_units.specs.Ranges.{units_from};

    ghost Value = { List EditUnit };

    ghost view = { λ s. units_from s.units.now s.next s.left };
}

impl<'a> UnitsLeft<'a> {
    /// All units of a range.
    pub fn of(units: &'a Units<'a>, range: UnitRange) -> UnitsLeft<'a>
        ensures { result ≡ units_from units.now range.first range.count }
    {
        UnitsLeft {
            units,
            next: range.first,
            left: range.count,
        }
    }
}

/// The first unit that some need: a first one, or the least of the key frames that they name.
pub fn needed_from(first: u64, units: &[EditUnit]) -> u64
    ensures first { result ≡ needed_from first units.now }
    ensures bound { result ≤ first }
{
    let mut from = first;
    for unit in units {
        from = needed(from, unit.key);
    }
    from
}

/// The lesser of a unit and of a key frame, if there is one.
fn needed(from: u64, key: Option<u64>) -> u64
    ensures from { result ≡ least_of from (option_to_list key) }
    ensures bound { result ≤ from }
{
    match key {
        Some(key) => from.min(key),
        None => from,
    }
}

impl<'a> Iterator for UnitsLeft<'a> {
    type Item = EditUnit;

    ghost next_gives = { YieldsFirst (λ s. s) };

    ghost remaining = { item_count (λ s. s) };

    fn next(&mut self) -> Option<EditUnit> {
        if self.left == 0 {
            return None;
        }
        let unit = self.units.unit(self.next);
        self.next += 1;
        self.left -= 1;
        Some(unit)
    }

    fn size_hint(&self) -> (usize, Option<usize>) {
        let left = self.left as usize;
        (left, Some(left))
    }
}
