//! The edit units that are asked for.
ghost use Rattle.std.specs.Prelude.{◌≡◌};
ghost use Rattle.mxf_hints.specs.AskedUnits.{AreAsked, AreBounded, AreFew, AreUpTo, AreUpToLast, IsFault, bound_of};
ghost use Rattle.mxf_hints.specs.AskedUnits.{word_at};

use crate::fault::{RunFault, ToldClock};
use crate::open_header::is_open;
use mxf_asked::{AskedUnits, NamedUnit};
use mxf_clocks::Run;
use mxf_timed::{Bound, StoredBounds, TimecodeFault, UnitBound, stored_bounds};
use mxf_units::{UnitRange, Units, last_unit};
use mxf_views::Views;

/// The greatest edit unit: segments state theirs as signed numbers of eight bytes.
const GREATEST_UNIT: u64 = 9_223_372_036_854_775_807;

/// Edit units from a first one up to a last one, that included.
#[derive(Clone, Copy, PartialEq, Eq)]
pub struct UnitSpan {
    pub first: u64,
    pub last: u64,
}

impl UnitSpan {
    /// The units one by one, if they are 1,000,000 at most.
    pub fn range<'a>(self) -> Result<UnitRange, RunFault<'a>>
        ensures { AreFew self result }
    {
        match UnitRange::new(self.first, self.last) {
            Some(range) => Ok(range),
            None if self.last < self.first => Err(RunFault::LastBeforeFirst),
            None => Err(RunFault::TooManyUnits),
        }
    }
}

/// The edit units that words ask for, of an index and by the runs of its clock.
pub fn span_of<'a>(
    units: &Units<'_>,
    runs: &[Run],
    asked: AskedUnits<'a>,
) -> Result<UnitSpan, RunFault<'a>>
    ensures { AreAsked units.now runs.now asked.entry result }
{
    match stored_bounds(units, runs, bound_of(asked.from), bound_of(asked.to)) {
        Ok(bounds) => span_within(units, bounds),
        Err(fault) => Err(fault_of(units.holdings().views(), runs, asked, fault)),
    }
}

/// What a word asks for, if there is one.
fn bound_of(named: Option<NamedUnit<'_>>) -> Option<UnitBound>
    ensures { result ≡ bound_of named.entry }
{
    Some(named?.bound)
}

/// The edit units from the first bound, or from unit 0, up to the last one, or that of the index.
fn span_within<'a>(units: &Units<'_>, bounds: StoredBounds) -> Result<UnitSpan, RunFault<'a>>
    ensures { AreBounded units.now bounds result }
{
    let first = bounds.from.unwrap_or(0);
    match bounds.to {
        Some(last) => up_to(first, last),
        None => up_to_last(units.holdings().views(), units.index_sid(), first),
    }
}

/// The edit units from the first up to the last.
fn up_to<'a>(first: u64, last: u64) -> Result<UnitSpan, RunFault<'a>>
    ensures { AreUpTo first last result }
{
    if last < first {
        return Err(RunFault::LastBeforeFirst);
    }
    if last > GREATEST_UNIT {
        return Err(RunFault::TooManyUnits);
    }
    Ok(UnitSpan { first, last })
}

/// The edit units from the first up to the last of the index.
fn up_to_last<'a>(views: &Views, index_sid: u32, first: u64) -> Result<UnitSpan, RunFault<'a>>
    ensures { AreUpToLast views.now index_sid first result }
{
    let Some(last) = last_unit(views, index_sid) else {
        return Err(RunFault::NoLastUnit);
    };
    if last < first {
        return Err(RunFault::NoLastUnit);
    }
    if last > GREATEST_UNIT {
        return Err(RunFault::TooManyUnits);
    }
    Ok(UnitSpan { first, last })
}

/// Why the timecodes among words say no units.
fn fault_of<'a>(
    views: &Views,
    runs: &[Run],
    asked: AskedUnits<'a>,
    fault: TimecodeFault,
) -> RunFault<'a>
    ensures { IsFault asked.entry fault result }
{
    match fault {
        TimecodeFault::Nowhere(bound) => RunFault::NoUnitAt {
            word: word_at(asked, bound),
            clock: ToldClock::of(runs, has_open_metadata(views)),
        },
        TimecodeFault::Several(bound) => RunFault::SeveralUnitsAt {
            word: word_at(asked, bound),
        },
        TimecodeFault::LastBeforeFirst => RunFault::LastBeforeFirst,
    }
}

/// Whether the preferred copy of the header metadata is that of an open partition.
fn has_open_metadata(views: &Views) -> bool {
    match views.preferred() {
        Some(copy) => is_open(&copy),
        None => false,
    }
}

/// The word of a bound; no text if there is none.
fn word_at<'a>(asked: AskedUnits<'a>, bound: Bound) -> &'a str
    ensures { result.now ≡ word_at asked.entry bound }
{
    let named = match bound {
        Bound::From => asked.from,
        Bound::To => asked.to,
    };
    match named {
        Some(named) => named.word,
        None => "",
    }
}
