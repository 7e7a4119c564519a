//! The units that are asked for by timecodes and by numbers.
ghost use Rattle.std.specs.Prelude.{◌≡◌, ◌≤◌, ℕ, IfOk, List, MatchResult, Ok, Some};
ghost use Rattle.mxf_timed.specs.declared.timecode_word.TimecodeWord.{TimecodeWord};
ghost use Rattle.mxf_timed.specs.declared.asked.UnitBound.TheVariants as bounds;
ghost use Rattle.mxf_clocks.specs.Runs.{RunParts};
ghost use Rattle.mxf_units.specs.Units.{UnitsParts};
ghost use Rattle.mxf_views.specs.Places.{greatest_unit};
ghost use Rattle.mxf_timed.specs.Bounds.{AreStoredBounds, BeginsAt, EndsAt, FailsFrom, FailsTo, IsBound, LieBetween};
ghost use Rattle.mxf_timed.specs.Stored.{IsGreatestStored, IsLeastStored};
ghost use Rattle.mxf_timed.specs.declared.asked.StoredBounds.{StoredBounds};

use crate::positions::{ShownAt, shown_at};
use crate::stored::{Positions, greatest_stored, least_stored};
use crate::timecode_word::TimecodeWord;
use mxf_clocks::Run;
use mxf_units::Units;
use mxf_views::GREATEST_UNIT;

/// The first or the last of the edit units that are asked for.
#[derive(Clone, Copy, Debug, PartialEq, Eq)]
pub enum UnitBound {
    /// The unit with this number, as units are stored.
    Number(u64),
    /// The units that are shown from, or up to, this timecode.
    Timecode(TimecodeWord),
}

/// The first and the last unit that are asked for, as they are stored; `None` where nothing is asked.
#[derive(Clone, Copy, Debug, PartialEq, Eq)]
pub struct StoredBounds {
    pub from: Option<u64>,
    pub to: Option<u64>,
}

/// Which of two timecodes.
#[derive(Clone, Copy, Debug, PartialEq, Eq)]
pub enum Bound {
    /// That of the first unit.
    From,
    /// That of the last one.
    To,
}

/// Why timecodes say no units.
#[derive(Clone, Copy, Debug, PartialEq, Eq)]
pub enum TimecodeFault {
    /// No position has the timecode.
    Nowhere(Bound),
    /// More than one range of positions has it.
    Several(Bound),
    /// The positions of the last timecode end before those of the first begin.
    LastBeforeFirst,
}

/// The units that are asked for. A number stands for itself. A timecode for the first stands for the least unit that
/// stores a position from the first one with it on, and one for the last for the greatest that stores a position up to
/// the last one with it: so all that is shown from the one to the other lies in these units. Where one of the two is no
/// timecode, the positions go from 0, or up to the greatest edit unit. The first is asked before the last.
pub fn stored_bounds(
    units: &Units<'_>,
    runs: &[Run],
    from: Option<UnitBound>,
    to: Option<UnitBound>,
) -> Result<StoredBounds, TimecodeFault>
    ensures { AreStoredBounds units.now runs.now from to result }
{
    let first = first_shown(runs, from)?;
    let last = last_shown(runs, to)?;
    match Positions::new(first, last) {
        None => Err(TimecodeFault::LastBeforeFirst),
        Some(positions) => Ok(StoredBounds {
            from: stored_from(units, positions, from),
            to: stored_to(units, positions, to),
        }),
    }
}

/// The first position from which on units are asked for.
fn first_shown(runs: &[Run], from: Option<UnitBound>) -> Result<u64, TimecodeFault>
    ensures { MatchResult result (BeginsAt runs.now from) (FailsFrom runs.now from) }
{
    match from {
        Some(UnitBound::Timecode(word)) => match shown_at(runs, word) {
            ShownAt::Nowhere => Err(TimecodeFault::Nowhere(Bound::From)),
            ShownAt::At { first, .. } => Ok(first),
            ShownAt::Several => Err(TimecodeFault::Several(Bound::From)),
        },
        _ => Ok(0),
    }
}

/// The last position up to which units are asked for.
fn last_shown(runs: &[Run], to: Option<UnitBound>) -> Result<u64, TimecodeFault>
    ensures shown { MatchResult result (EndsAt runs.now to) (FailsTo runs.now to) }
    ensures greatest { IfOk result (λ last. last ≤ greatest_unit) }
{
    match to {
        Some(UnitBound::Timecode(word)) => match shown_at(runs, word) {
            ShownAt::Nowhere => Err(TimecodeFault::Nowhere(Bound::To)),
            ShownAt::At { last, .. } => Ok(last),
            ShownAt::Several => Err(TimecodeFault::Several(Bound::To)),
        },
        _ => Ok(GREATEST_UNIT),
    }
}

/// The first unit, if the positions are asked for.
fn stored_from(units: &Units<'_>, positions: Positions, from: Option<UnitBound>) -> Option<u64>
    ensures { IsBound (IsLeastStored units.now positions.first positions.last) from result }
{
    match from {
        Some(UnitBound::Timecode(_)) => Some(least_stored(units, positions)),
        Some(UnitBound::Number(number)) => Some(number),
        None => None,
    }
}

/// The last unit, if the positions are asked for.
fn stored_to(units: &Units<'_>, positions: Positions, to: Option<UnitBound>) -> Option<u64>
    ensures { IsBound (IsGreatestStored units.now positions.first positions.last) to result }
{
    match to {
        Some(UnitBound::Timecode(_)) => Some(greatest_stored(units, positions)),
        Some(UnitBound::Number(number)) => Some(number),
        None => None,
    }
}

/// A law of [`stored_bounds`]: each position from the first of one timecode up to the last of another is stored in the
/// units that are answered, and both ends of these store one.
pub fn pictures_lie_in_their_units()
    ensures { (u : UnitsParts) (runs : List RunParts) (v w : TimecodeWord) (b : StoredBounds)
        → AreStoredBounds u runs (Some (bounds.Timecode v)) (Some (bounds.Timecode w)) (Ok b)
        → LieBetween u runs v w b }
{}
