//! The edit units that are found by what is asked for.
ghost use Rattle.std.specs.Prelude.{◌≡◌};
ghost use Rattle.mxf_hints.specs.FoundUnits.{AreFound, clock_of, runs_of};

use crate::fault::RunFault;
use crate::index::index_of;
use crate::unit_range::{UnitSpan, span_of};
use mxf_asked::IndexedUnits;
use mxf_clocks::{Clocks, Run};
use mxf_places::AtHand;
use mxf_units::Units;
use mxf_views::Views;

/// The edit units of an index, and those of them that are asked for.
#[derive(Drop)]
pub struct FoundUnits<'u> {
    pub units: Units<'u>,
    pub span: UnitSpan,
}

/// The edit units that are asked for, by what is held, what is at hand, and the clocks if a timecode is asked for or
/// told. It reports on standard error if no segment of the index that is named is held.
pub fn found_units<'a, 'u, R: Eprint + AllocGlobal>(
    rt: &R,
    views: &'u Views,
    at_hand: &'u AtHand,
    clocks: &Option<Clocks>,
    asked: IndexedUnits<'a>,
) -> Result<FoundUnits<'u>, RunFault<'a>>
    ensures { AreFound (record { notes = views.now; at = at_hand.now }) clocks.now asked.entry result }
{
    let index = index_of(rt, views, runs_of(clocks), asked)?;
    let units = Units::of(rt.alloc(), views, at_hand, index)?;
    let span = span_of(&units, clock_of(clocks, index), asked.units)?;
    Ok(FoundUnits { units, span })
}

/// The runs of all clocks.
fn runs_of(clocks: &Option<Clocks>) -> &[Run]
    ensures { result.now ≡ runs_of clocks.now }
{
    match clocks {
        Some(clocks) => clocks.runs(),
        None => &[],
    }
}

/// The runs of the clock of an index.
fn clock_of(clocks: &Option<Clocks>, index: u32) -> &[Run]
    ensures { result.now ≡ clock_of clocks.now index }
{
    match clocks {
        Some(clocks) => clocks.of_index(index),
        None => &[],
    }
}
