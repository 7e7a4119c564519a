//! Sources beside a reference: whether they are as it says.
ghost use Rattle.std.specs.Prelude.{◌≡◌, IfOk};
ghost use Rattle.mxf_tool.specs.Verifying.{AreToldOf, open_of};

use super::edit_units::{UnitsInRange, units_in_range};
use super::{Inputs, Printed, print_answer, told};
use mxf_asked::{IndexedUnits, Verifying};
use mxf_hints::{Exit, RunFault, tell_foreign, tell_offsets, tell_on_screen, tell_two_recordings};
use mxf_klv::OutOfMemory;
use mxf_lines::{Verified, timecodes_shown};
use mxf_places::AtHand;
use mxf_read::Gathered;
use mxf_saving::LastFault;
use mxf_skim::Scan;
use mxf_sources::{Opened, hold_opened, open_sources, verify_opened};
use mxf_timed::ShownTimecodes;
use mxf_units::{UnitRange, Units};
use mxf_verify::{Verification, VerifiedUnits};
use mxf_views::Views;
use std::alloc::{AllocError, Global};
use std::fmt;
use std::io::Read;

/// Prints how the sources stand to what those of the reference hold together. All are opened before the first is read,
/// those of the reference first, and are read in that order.
pub fn print_verified<'a>(
    rt: &HostRuntime,
    inputs: Inputs<'_, 'a>,
    asked: Verifying<'a>,
) -> Result<Exit, RunFault<'a>> {
    let last = LastFault::new();
    let reference = open_sources(rt, inputs.telling.screen, Scan::Full, inputs.beside, &last)?;
    let opened = open_sources(rt, inputs.telling.screen, Scan::Full, inputs.sources, &last)?;
    let held = hold_opened(rt, Scan::Full, reference, &last)?;
    let (gathered, _, _) = held.into_parts();
    verify_by(rt, inputs, asked, &gathered, opened, &last)
}

/// Prints how the sources stand that were opened to what was gathered of the reference. The edit units that are asked for
/// are known before the first source is read.
fn verify_by<'a, F: Read + Drop>(
    rt: &HostRuntime,
    inputs: Inputs<'_, 'a>,
    asked: Verifying<'a>,
    gathered: &Gathered,
    opened: Opened<'_, 'a, F>,
    last: &LastFault,
) -> Result<Exit, RunFault<'a>> {
    let at_hand = AtHand::nothing(rt.alloc());
    let wanted = wanted_units(rt, &gathered.views, &at_hand, asked.units)?;
    let verification = verify_opened(rt.alloc(), gathered.views.catalogue(), opened, last)?;
    print_with_units(rt, inputs, asked.is_whole, gathered, &verification, &wanted)
}

/// The edit units of the reference that are asked for, if some are.
fn wanted_units<'n, 'a>(
    rt: &HostRuntime,
    views: &'n Views,
    at_hand: &'n AtHand,
    asked: Option<IndexedUnits<'a>>,
) -> Result<Option<UnitsInRange<'n>>, RunFault<'a>> {
    match asked {
        Some(asked) => Ok(Some(units_in_range(rt, views, at_hand, asked)?)),
        None => Ok(None),
    }
}

/// Prints what was verified of the reference, and how the edit units stand that are asked for.
fn print_with_units<'a>(
    rt: &HostRuntime,
    inputs: Inputs<'_, 'a>,
    is_whole: bool,
    gathered: &Gathered,
    verification: &Verification<'_>,
    wanted: &Option<UnitsInRange<'_>>,
) -> Result<Exit, RunFault<'a>> {
    let told = match wanted {
        Some(wanted) => told_units(rt.alloc(), verification, wanted)?,
        None => ToldUnits {
            units: None,
            shown: None,
        },
    };
    print_by(rt, inputs, is_whole, gathered, verification, &told)
}

/// What is told of edit units of the reference, if some are asked for: how they stand, and which timecodes they show.
#[derive(Drop)]
struct ToldUnits<'c> {
    units: Option<VerifiedUnits>,
    shown: Option<ShownTimecodes<'c>>,
}

/// What is told of the edit units that were found, beside what was verified of the reference.
fn told_units<'c>(
    alloc: Global,
    verification: &Verification<'_>,
    wanted: &'c UnitsInRange<'_>,
) -> Result<ToldUnits<'c>, OutOfMemory> {
    let shown = timecodes_shown(alloc, &wanted.units, wanted.range, &wanted.clocks)?;
    let units = Some(units_beside(alloc, verification, &wanted.units, wanted.range)?);
    Ok(ToldUnits { units, shown })
}

/// The edit units of a range of the reference, beside what was verified of it.
fn units_beside(
    alloc: Global,
    verification: &Verification<'_>,
    units: &Units<'_>,
    range: UnitRange,
) -> Result<VerifiedUnits, OutOfMemory>
    ensures { IfOk result (AreToldOf verification.now units.now range) }
{
    VerifiedUnits::of(alloc, verification, units, range.first(), range.last())
}

/// Prints what was verified of the reference, with the edit units that are told, and if hints are told, what that
/// leaves open.
fn print_by<'a>(
    rt: &HostRuntime,
    inputs: Inputs<'_, 'a>,
    is_whole: bool,
    gathered: &Gathered,
    verification: &Verification<'_>,
    told_units: &ToldUnits<'_>,
) -> Result<Exit, RunFault<'a>> {
    let verified = Verified {
        reports: gathered.reports.as_slice(),
        verification,
        units: match &told_units.units {
            Some(units) => Some(units),
            None => None,
        },
        shown: &told_units.shown,
        is_whole,
    };
    let exit = print_answer(rt, Printed::Verified(&verified), inputs.form)?;
    if inputs.telling.has_hints && tell_open(rt, inputs, is_whole, verification).is_err() {
        return Err(RunFault::OutOfMemory);
    }
    let reports = gathered.reports.as_slice();
    let has_hints = inputs.telling.has_hints;
    told(rt, has_hints, inputs.beside, reports, false, exit)
}

/// What a verification leaves open. It prints as its line.
#[derive(Clone, Copy)]
enum Open {
    /// No packet is the same, though bytes came.
    NoneSame,
    /// Not all of the reference was compared, and that wasn't asked for.
    NotAll,
}

impl fmt::Display for Open {
    fn fmt<W: fmt::Write>(&self, f: &mut fmt::Formatter<W>) -> fmt::Result {
        f.write_str(match self {
            Open::NoneSame => {
                "hint: no packet is as the reference says: is OFFSET right? check range:OFFSET:PATH finds F05 if a partition pack names another"
            }
            Open::NotAll => {
                "hint: the unverified bytes weren't compared: with --whole the status is 1 as long as there are any"
            }
        })
    }
}

/// What a verification leaves open, if it does.
fn open_of(is_whole: bool, verification: &Verification<'_>) -> Option<Open>
    ensures { result ≡ open_of is_whole verification.now }
{
    if verification.counts().packets == 0 && verification.has_come() {
        Some(Open::NoneSame)
    } else if !is_whole && verification.unverified().runs().next().is_some() {
        Some(Open::NotAll)
    } else {
        None
    }
}

/// Tells where packets lie that differ, and what a verification leaves open. If no packet is the same, it
/// says that the sources are of another recording than the reference; or which source has no packet or a run-in, or else asks
/// whether OFFSET is right; and which is wrong by its source.
fn tell_open(
    rt: &HostRuntime,
    inputs: Inputs<'_, '_>,
    is_whole: bool,
    verification: &Verification<'_>,
) -> Result<(), AllocError> {
    let counts = verification.counts();
    if counts.differs != 0 && counts.packets != 0 {
        tell_on_screen(
            rt,
            &"hint: a packet that differs lies from OFFSET up to OFFSET + 16 + WIDTH + LENGTH: restore these bytes again, or renew the reference if they were rewritten since",
        )?;
    }
    let Some(open) = open_of(is_whole, verification) else {
        return Ok(());
    };
    match open {
        Open::NoneSame => {
            if tell_two_recordings(rt, inputs.beside, inputs.sources)? {
                return Ok(());
            }
            if !tell_foreign(rt, inputs.sources)? {
                tell_on_screen(rt, &open)?;
            }
            tell_offsets(rt, inputs.sources)?;
            Ok(())
        }
        Open::NotAll => tell_on_screen(rt, &open),
    }
}
