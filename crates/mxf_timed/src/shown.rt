//! Which position each unit shows.
ghost use Rattle.std.specs.Prelude.{◌≡◌, ◌↔◌, ◌≤◌, ◌+◌, ◌-◌, ℕ, max, min, IfOk, MatchOption, vec_len};
ghost use Rattle.std.specs.List.{filter_map, reduce};
ghost use Rattle.mxf_timed.specs.Shown.{AreShown, AreStored, IsGreatestShown, IsLeastShown, IsNoneShown};
ghost use Rattle.mxf_timed.specs.Shown.{IsWithPosition, ShownParts, greatest_shown, least_shown, only_one, shown_by};
ghost use Rattle.mxf_timed.specs.Shown.{stored_within, with_position};

use crate::stored::stored_at;
use mxf_klv::OutOfMemory;
use mxf_units::{UnitRange, Units};
use mxf_views::GREATEST_UNIT;
use std::alloc::Global;
use std::marker::Model;

/// How far before the unit that stores it a position can lie: a TemporalOffset has one byte.
const BEFORE: u64 = 127;

/// How far behind it.
const BEHIND: u64 = 128;

/// What a unit stores.
#[derive(Clone, Copy)]
enum Stored {
    Nothing,
    /// One position alone.
    One(u64),
    /// More than one.
    Several,
}

/// Which position each unit of a range shows: the one that it stores, if that is one alone.
///
/// Positions and units are counted from 0: a position as it is shown, a unit as it is stored.
#[derive(Drop)]
pub struct Shown {
    first: u64,
    /// What each unit from the first one on stores.
    stored: Vec<Stored>,
}

impl Model for Shown {
    ghost use Rattle.mxf_timed.specs.Shown.{ShownParts};

    ghost Value = { ShownParts };

    ghost view = { λ s. record { first = s.first; stored = s.stored.items } };
}

impl Stored {
    /// The position, if it is one alone.
    fn only_one(&self) -> Option<u64>
        ensures { result ≡ only_one self.now }
    {
        match *self {
            Stored::One(position) => Some(position),
            _ => None,
        }
    }

    /// With one position more.
    fn with_position(self, position: u64) -> Stored
        ensures { result ≡ with_position self position }
    {
        match self {
            Stored::Nothing => Stored::One(position),
            _ => Stored::Several,
        }
    }
}

/// The first position that units from a first one on can store.
fn first_position(first: u64) -> u64
    ensures { result ≡ first - 127 }
{
    first.saturating_sub(BEFORE)
}

/// The end of the positions that units up to a last one can store.
fn end_position(last: u64) -> u64
    requires { last ≤ 9223372036854775807 }
    ensures { result ≡ min (last + 129) 9223372036854775808 }
{
    (last + BEHIND).min(GREATEST_UNIT) + 1
}

/// Adds a position that a unit stores, if the unit is one of these, from the first one on.
fn add(stored: &mut [Stored], first: u64, unit: u64, position: u64)
    ensures { IsWithPosition first unit position stored.old stored.new }
{
    if unit >= first && unit - first < stored.len() as u64 {
        let place = (unit - first) as usize;
        stored[place] = stored[place].with_position(position);
    }
}

/// The least position that one of these stores alone.
fn least_of(stored: &[Stored]) -> Option<u64>
    ensures { result ≡ reduce min (filter_map only_one stored.now) }
{
    stored.iter().filter_map(|stored| stored.only_one()).min()
}

/// The greatest one.
fn greatest_of(stored: &[Stored]) -> Option<u64>
    ensures { result ≡ reduce max (filter_map only_one stored.now) }
{
    stored.iter().filter_map(|stored| stored.only_one()).max()
}

/// What each unit of a range stores of the positions from one on up to an end.
fn stored_in(
    alloc: Global,
    units: &Units<'_>,
    range: UnitRange,
    from: u64,
    end: u64,
) -> Result<Vec<Stored>, OutOfMemory>
    requires order { from ≤ end }
    requires asked { end ≤ 9223372036854775808 }
    ensures len { IfOk result (λ v. vec_len v ≡ range.count) }
    ensures each { IfOk result (λ v. AreStored units.now from end range.first v.items) }
{
    let mut stored = vec![in alloc; Stored::Nothing; range.count() as usize]?;
    for position in from..end {
        let unit = stored_at(units, position);
        add(&mut stored, range.first(), unit, position);
    }
    Ok(stored)
}

impl Shown {
    /// Which position each unit of a range shows. It takes memory for each unit, and looks at each position from 127
    /// below the first unit of the range to 128 above its last: no other is stored in it.
    pub fn of(alloc: Global, units: &Units<'_>, range: UnitRange) -> Result<Shown, OutOfMemory>
        ensures { IfOk result (λ s. AreShown units.now range.first range.count s) }
    {
        let from = first_position(range.first());
        let end = end_position(range.last());
        let stored = stored_in(alloc, units, range, from, end)?;
        Ok(Shown {
            first: range.first(),
            stored,
        })
    }

    /// The position that a unit shows. None if the unit stores none or more than one, or isn't one of the range. It
    /// takes no memory, and one look.
    pub fn by(&self, unit: u64) -> Option<u64>
        ensures { result ≡ shown_by self.now unit }
    {
        let place = unit.checked_sub(self.first)?;
        self.stored.get(place as usize)?.only_one()
    }

    /// What the units from one up to another store, as far as they are of the range.
    fn stored_within(&self, first: u64, last: u64) -> &[Stored]
        ensures { result.now ≡ stored_within self.now first last }
    {
        let begin = u128::from(self.first);
        let count = self.stored.len() as u128;
        let end = (u128::from(last) + 1).saturating_sub(begin).min(count);
        let start = u128::from(first).saturating_sub(begin).min(end);
        &self.stored[start as usize..end as usize]
    }

    /// The least position that a unit of the range shows, from one unit up to another. None if none of these shows
    /// any. It looks at each of them.
    pub fn least(&self, first: u64, last: u64) -> Option<u64>
        ensures { result ≡ least_shown self.now first last }
    {
        least_of(self.stored_within(first, last))
    }

    /// The greatest one.
    pub fn greatest(&self, first: u64, last: u64) -> Option<u64>
        ensures { result ≡ greatest_shown self.now first last }
    {
        greatest_of(self.stored_within(first, last))
    }
}

/// A law of [`Shown::least`] and [`Shown::greatest`]: the positions that they answer are shown by one of the units, and
/// none of these shows a lesser or a greater one.
pub fn ends_of_positions_by_definition()
    ensures least { (s : ShownParts) (first last : ℕ)
        → MatchOption (least_shown s first last) (IsNoneShown s first last) (IsLeastShown s first last) }
    ensures greatest { (s : ShownParts) (first last : ℕ)
        → MatchOption (greatest_shown s first last) (IsNoneShown s first last) (IsGreatestShown s first last) }
{}
