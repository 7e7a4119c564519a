//! The last edit unit of an index (ST 377-1, Index Table Segment).
ghost use Rattle.std.specs.Prelude.{◌≡◌, ◌+◌, ◌^◌, ◌<◌, ◌≤◌, ◌↔◌, ℕ, IsTrue, List, MatchOption, unsigned_abs};
ghost use Rattle.mxf_klv.specs.Parts.{NoteParts};
ghost use Rattle.mxf_units.specs.LastUnits.{GivesPlace, HasNoLastUnit, IsEndless, IsLastUnit, IsLastWith, NoneWith};

use mxf_sets::Segment;
use mxf_views::Views;

/// The greatest edit unit: segments state theirs as signed numbers of eight bytes.
const GREATEST_UNIT: u64 = 9_223_372_036_854_775_807;

/// The last edit unit of the index of an IndexSID: the greatest one, at or below 9,223,372,036,854,775,807, to which a
/// segment gives a place. None if no segment gives one, or if a segment is endless: its units have one size and its
/// duration is 0. It takes no memory, and time for each segment.
pub fn last_unit(views: &Views, index_sid: u32) -> Option<u64>
    ensures { MatchOption result (HasNoLastUnit views.now index_sid) (IsLastUnit views.now index_sid) }
{
    let mut last = None;
    for segment in views.segments() {
        if segment.segment.numbers().index_sid == index_sid {
            if is_endless(&segment.segment) {
                return None;
            }
            if let Some(unit) = last_of(&segment.segment) {
                last = Some(unit.max(last.unwrap_or(0)));
            }
        }
    }
    last
}

/// Whether a segment is endless: its units have one size, and its duration is 0.
fn is_endless(segment: &Segment<'_>) -> bool
    ensures { IsTrue result ↔ IsEndless segment.now }
{
    let numbers = segment.numbers();
    numbers.unit_bytes > 0 && numbers.duration == 0
}

/// The last unit, of those that can be asked for, to which a segment that isn't endless gives a place.
fn last_of(segment: &Segment<'_>) -> Option<u64>
    requires { ¬ IsEndless segment.now }
    ensures { MatchOption result (NoneWith (GivesPlace segment.now)) (IsLastWith (GivesPlace segment.now)) }
{
    let count = placed_count(segment);
    if count == 0 {
        return None;
    }
    let start = segment.numbers().start.unsigned_abs();
    Some((start + (count - 1)).min(GREATEST_UNIT))
}

/// How many units, one after another from its start on, a segment that isn't endless gives places.
fn placed_count(segment: &Segment<'_>) -> u64
    requires { ¬ IsEndless segment.now }
    ensures units { (unit : ℕ) → GivesPlace segment.now unit
        ↔ ((unsigned_abs segment.now.numbers.start ≤ unit)
        × (unit < unsigned_abs segment.now.numbers.start + result)) }
    ensures bound { result < 2 ^ 63 }
{
    let numbers = segment.numbers();
    let duration = numbers.duration.unsigned_abs();
    if numbers.unit_bytes > 0 {
        duration
    } else {
        duration.min(segment.entry_count() as u64)
    }
}

/// A law of [`last_unit`]: an index that has a last unit has one alone, and isn't one that has none.
pub fn one_last_unit()
    ensures one { (notes : List NoteParts) (index_sid a b : ℕ) → IsLastUnit notes index_sid a
        → IsLastUnit notes index_sid b → a ≡ b }
    ensures none { (notes : List NoteParts) (index_sid last : ℕ) → IsLastUnit notes index_sid last
        → ¬ HasNoLastUnit notes index_sid }
{}
