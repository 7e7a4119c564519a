//! The clocks of the preferred copy.
use crate::additions::{holds, views_of_pieces};
use crate::files::CLOCKED;
use mxf_clocks::{Clocks, Run};
use mxf_klv::OutOfMemory;
use mxf_places::AtHand;
use mxf_timed::{ShownEnds, ShownTimecodes};
use mxf_tracks::{PackageKind, Timecode, preferred_tracks};
use mxf_units::{UnitRange, Units};
use std::alloc::Global;

/// The timecode 01:00:00:00.
const HOUR: Timecode = Timecode {
    hours: 1,
    minutes: 0,
    seconds: 0,
    frames: 0,
    is_drop: false,
};

/// Whether the run has position 0 of IndexSID 1 alone, at 01:00:00:00.
fn is_of_an_hour(run: &Run) -> bool {
    let position = (run.index_sid(), run.position(), run.count()) == (1, 0, Some(1));
    let number = run.number_at(0) == Some(90000) && run.number_at(1).is_none();
    let timecodes = run.first() == HOUR && run.last() == Some(HOUR);
    position && number && timecodes && run.timecode_at(0) == Some(HOUR)
}

/// Whether the only run is that one, by a material package.
fn are_of_an_hour(clocks: &Clocks) -> bool {
    let is_only = match clocks.of_index(1) {
        [run] => is_of_an_hour(run),
        _ => false,
    };
    is_only
        && clocks.by() == PackageKind::Material
        && clocks.runs().len() == 1
        && clocks.of_index(2).is_empty()
}

/// Whether unit 0 shows 01:00:00:00, and unit 1 a position without a timecode.
fn are_shown(timed: &ShownTimecodes<'_>) -> bool {
    let ends = ShownEnds {
        first: Some(HOUR),
        last: None,
    };
    timed.by(0) == Some(HOUR) && timed.by(1).is_none() && timed.within(0, 1) == ends
}

/// Whether that is so of the units of a range in a piece.
fn units_of_show_an_hour(alloc: Global, range: UnitRange) -> Result<bool, OutOfMemory> {
    let views = views_of_pieces(alloc, &[(0, &CLOCKED)])?;
    let clocks = Clocks::of(alloc, &views, &preferred_tracks(alloc, &views)?)?;
    let at_hand = AtHand::nothing(alloc);
    let units = Units::of(alloc, &views, &at_hand, 1)?;
    Ok(are_shown(&ShownTimecodes::of(alloc, &units, clocks.runs(), range)?))
}

/// Whether that is so of the first two units.
fn units_show_an_hour(alloc: Global) -> Result<bool, OutOfMemory> {
    match UnitRange::new(0, 1) {
        Some(range) => units_of_show_an_hour(alloc, range),
        None => Ok(false),
    }
}

#[test]
fn timecodes_of_units(rt: HostRuntime) {
    assert!(rt; holds(rt.alloc(), units_show_an_hour));
}

/// Whether the clocks of a piece with packages that tell the time are known.
fn an_hour_is_told(alloc: Global) -> Result<bool, OutOfMemory> {
    let views = views_of_pieces(alloc, &[(0, &CLOCKED)])?;
    let clocks = Clocks::of(alloc, &views, &preferred_tracks(alloc, &views)?)?;
    Ok(are_of_an_hour(&clocks))
}

#[test]
fn clocks(rt: HostRuntime) {
    assert!(rt; holds(rt.alloc(), an_hour_is_told));
}
