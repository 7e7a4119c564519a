//! Where edit units lie, and what to restore for them.
ghost use Rattle.std.specs.Prelude.{◌≡◌, IfOk};
ghost use Rattle.mxf_lines.specs.OneRun.{clocks_told};
ghost use Rattle.mxf_tool.specs.Waiting.{waits_for_metadata};

use super::{Inputs, Printed, print_answer};
use mxf_asked::IndexedUnits;
use mxf_clocks::Clocks;
use mxf_hints::{Exit, FoundUnits, RunFault, UnitSpan, found_units, tell_unsettled};
use mxf_klv::OutOfMemory;
use mxf_partial::{ManyUnits, UnitPlan};
use mxf_places::{AtHand, Holdings};
use mxf_sources::HeldBySources;
use mxf_tracks::preferred_tracks;
use mxf_units::{UnitRange, Units};
use mxf_views::Views;
use std::alloc::Global;

/// The clocks of what is held, if timecodes are asked for or told.
pub fn clocks_told(
    alloc: Global,
    views: &Views,
    with_timecodes: bool,
) -> Result<Option<Clocks>, OutOfMemory>
    ensures { IfOk result (λ c. c ≡ clocks_told with_timecodes views.now) }
{
    if !with_timecodes {
        return Ok(None);
    }
    let tracks = preferred_tracks(alloc, views)?;
    Ok(Some(Clocks::of(alloc, views, &tracks)?))
}

/// Edit units one after another of what is known, with its clocks.
pub struct UnitsInRange<'n> {
    pub units: Units<'n>,
    pub range: UnitRange,
    pub clocks: Option<Clocks>,
}

// Written out, a drop is one call wherever units are let go.
impl Drop for UnitsInRange<'_> {
    fn drop(self) {
        let UnitsInRange {
            units: _units,
            range: _range,
            clocks: _clocks,
        } = self;
    }
}

/// The edit units that are asked for of what is known, if each is told by itself.
pub fn units_in_range<'n, 'a>(
    rt: &HostRuntime,
    views: &'n Views,
    at_hand: &'n AtHand,
    asked: IndexedUnits<'a>,
) -> Result<UnitsInRange<'n>, RunFault<'a>> {
    let clocks = clocks_told(rt.alloc(), views, asked.with_timecodes)?;
    let FoundUnits { units, span } = found_units(rt, views, at_hand, &clocks, asked)?;
    Ok(UnitsInRange {
        units,
        range: span.range()?,
        clocks,
    })
}

/// Prints where the edit units lie that are asked for.
pub fn print_units<'a>(
    rt: &HostRuntime,
    inputs: Inputs<'_, 'a>,
    asked: IndexedUnits<'a>,
    held: &HeldBySources,
) -> Result<Exit, RunFault<'a>> {
    let found = units_in_range(rt, &held.gathered.views, &held.at_hand, asked)?;
    let printed = Printed::Units {
        units: &found.units,
        range: found.range,
        clocks: &found.clocks,
    };
    print_answer(rt, printed, inputs.form)
}

/// Prints what to restore for the edit units that are asked for. If no unit is known by the timecode, since no copy of
/// the header metadata is finished, that is what tells of one. If hints are told, it tells that units aren't there while
/// packets of the only source are disputed.
pub fn print_unit_plan<'a>(
    rt: &HostRuntime,
    inputs: Inputs<'_, 'a>,
    asked: IndexedUnits<'a>,
    held: &HeldBySources,
) -> Result<Exit, RunFault<'a>> {
    let views = &held.gathered.views;
    let clocks = clocks_told(rt.alloc(), views, asked.with_timecodes)?;
    let FoundUnits { units, span } = match found_units(rt, views, &held.at_hand, &clocks, asked) {
        Ok(found) => found,
        Err(fault) if waits_for_metadata(views, &fault) => {
            return print_metadata_plan(rt, inputs, held, fault);
        }
        Err(fault) => return Err(fault),
    };
    let exit = print_plan_for(rt, inputs, asked, &units, span)?;
    let is_one = inputs.sources.len() == 1;
    if let Exit::Found = exit {
        if is_one && inputs.telling.has_hints && tell_unsettled(rt, views).is_err() {
            return Err(RunFault::OutOfMemory);
        }
    }
    Ok(exit)
}

/// Prints what to restore for the edit units from a first one up to a last one. By a timecode they may be more than are
/// told one by one, if they lie side by side.
fn print_plan_for<'a>(
    rt: &HostRuntime,
    inputs: Inputs<'_, 'a>,
    asked: IndexedUnits<'a>,
    units: &Units<'_>,
    span: UnitSpan,
) -> Result<Exit, RunFault<'a>> {
    let fault = match span.range() {
        Ok(range) => return print_answer(rt, Printed::UnitPlan { units, range }, inputs.form),
        Err(fault) => fault,
    };
    if asked.units.timecode().is_none() {
        return Err(fault);
    }
    match ManyUnits::of(rt.alloc(), units, span.first, span.last)? {
        Some(many) => print_answer(rt, Printed::ManyPlan(&many), inputs.form),
        None => Err(fault),
    }
}

/// Whether header metadata may come by which there is a unit at a timecode.
fn waits_for_metadata(views: &Views, fault: &RunFault<'_>) -> bool
    ensures { result ≡ waits_for_metadata views.now fault.now }
{
    let is_finished = views.preferred().is_some_and(|copy| copy.finished);
    !is_finished && matches!(fault, RunFault::NoUnitAt { .. })
}

/// Prints what to restore of header metadata; if there is nothing, it ends with the fault.
fn print_metadata_plan<'a>(
    rt: &HostRuntime,
    inputs: Inputs<'_, 'a>,
    held: &HeldBySources,
    fault: RunFault<'a>,
) -> Result<Exit, RunFault<'a>> {
    let holdings = Holdings::of(rt.alloc(), &held.gathered.views)?;
    let plan = UnitPlan::of_metadata(rt.alloc(), &holdings, &held.at_hand)?;
    if plan.orders().is_empty() {
        return Err(fault);
    }
    print_answer(rt, Printed::MetadataPlan(&plan), inputs.form)
}
