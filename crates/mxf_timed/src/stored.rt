//! The units that store positions.
ghost use Rattle.std.specs.Prelude.{◌≡◌, ◌↔◌, ◌⊎◌, ◌≤◌, ◌<◌, ℕ, IfNone, IfSome};
ghost use Rattle.mxf_units.specs.Units.{UnitsParts, unit_of};
ghost use Rattle.mxf_views.specs.Places.{greatest_unit};
ghost use Rattle.mxf_timed.specs.Stored.{IsGreatestStored, IsLeastStored, IsNear, IsStoredAt, moved, stored_at};

use mxf_units::Units;
use mxf_views::GREATEST_UNIT;

/// Positions one behind another: from the first up to the last, neither above the greatest edit unit.
#[derive(Clone, Copy, Debug, PartialEq, Eq)]
pub struct Positions {
    first: u64,
    last: u64,

    ghost some: { first ≤ last },
    ghost greatest: { last ≤ greatest_unit },
}

impl Positions {
    /// From this position up to that; `None` if the last is below the first, or above the greatest edit unit.
    pub fn new(first: u64, last: u64) -> Option<Positions>
        ensures some { IfSome result (λ p. (p.first ≡ first) × (p.last ≡ last)) }
        ensures none { IfNone result ((last < first) ⊎ (greatest_unit < last)) }
    {
        if last < first || last > GREATEST_UNIT {
            return None;
        }
        Some(Positions { first, last })
    }

    /// The first position.
    pub fn first(self) -> u64
        ensures { result ≡ self.first }
    {
        self.first
    }

    /// The last position: the first, or one above it.
    pub fn last(self) -> u64
        ensures last { result ≡ self.last }
        ensures some { self.first ≤ result }
        ensures greatest { result ≤ greatest_unit }
    {
        self.last
    }
}

/// The unit that stores a position: it lies at the TemporalOffset of the position, as [`Units::temporal`] says it.
/// Where that is not known, or no unit lies there that can be asked for, it is the one with the number of the position.
pub fn stored_at(units: &Units<'_>, position: u64) -> u64
    ensures stored { result ≡ stored_at units.now position }
    ensures greatest { position ≤ greatest_unit → result ≤ greatest_unit }
    ensures near { IsNear position result }
{
    moved(position, units.temporal(position))
}

/// The unit at a distance from a position, if it can be asked for; the one with its number otherwise.
fn moved(position: u64, offset: Option<i8>) -> u64
    ensures moved { result ≡ moved position offset }
    ensures greatest { position ≤ greatest_unit → result ≤ greatest_unit }
{
    let Some(offset) = offset else {
        return position;
    };
    let unit = i128::from(position) + i128::from(offset);
    if unit < 0 || unit > i128::from(GREATEST_UNIT) {
        return position;
    }
    unit as u64
}

/// The least unit that stores one of the positions. Only the first 255 of them can be stored there.
pub fn least_stored(units: &Units<'_>, positions: Positions) -> u64
    ensures { IsLeastStored units.now positions.first positions.last result }
{
    let first = positions.first();
    let end = positions.last().min(first + 254) + 1;
    let mut least = stored_at(units, first);
    for position in first + 1..end {
        least = least.min(stored_at(units, position));
    }
    least
}

/// The greatest unit that stores one of the positions. Only the last 255 of them can be stored there.
pub fn greatest_stored(units: &Units<'_>, positions: Positions) -> u64
    ensures { IsGreatestStored units.now positions.first positions.last result }
{
    let last = positions.last();
    let start = positions.first().max(last.saturating_sub(254));
    let mut greatest = stored_at(units, last);
    for position in start..last {
        greatest = greatest.max(stored_at(units, position));
    }
    greatest
}

/// A law of [`stored_at`]: a unit lies at most 128 below the position that it stores, and at most 127 above it, since a
/// TemporalOffset has one byte.
pub fn positions_lie_near_their_units()
    ensures { (u : UnitsParts) (position : ℕ) → IsNear position (stored_at u position) }
{}

/// A law of [`stored_at`]: a position is stored where its TemporalOffset says, or by the unit with its number.
pub fn stored_by_definition()
    ensures { (u : UnitsParts) (position unit : ℕ) → (stored_at u position ≡ unit)
        ↔ IsStoredAt position (unit_of u.known u.index_sid position).temporal unit }
{}
