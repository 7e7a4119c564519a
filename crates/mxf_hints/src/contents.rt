//! What sources hold, each by itself.
ghost use Rattle.std.specs.Prelude.{◌<◌, ◌++◌, ◌≡◌, [], ◌∷◌, length, map, IfErr, IfOk, OnOk};
ghost use Rattle.mxf_views.specs.Headline.{IsTheRun};
ghost use Rattle.mxf_read.specs.Gathering.{AllTell, HandedBy, Tells, reports_in, reports_of};
ghost use Rattle.mxf_hints.specs.Contents.{AreRuns, TakesAlone, numbered};
ghost use Rattle.mxf_hints.specs.Shifts.{AreShifts};

use crate::shift::{Shift, shift_of};
use mxf_catalogue::Catalogue;
use mxf_read::{GatherFault, Gathered, Part, PartFault, PieceReport, gather};
use std::alloc::{AllocError, Global};
use std::io::Read;

/// What each of some parts holds by itself, how far its partitions are from where they say that they lie, and what was
/// noted of each piece.
#[derive(Drop)]
pub struct Contents {
    pub contents: Vec<Catalogue>,
    pub shifts: Vec<Option<Shift>>,
    pub reports: Vec<PieceReport>,
}

/// What the parts hold, each by itself, in their order. The first part that is at fault ends it.
pub fn gather_each<R: Read + Drop>(
    alloc: Global,
    parts: Vec<Part<R>>,
) -> Result<Contents, GatherFault>
    ensures runs { AllTell R.remaining parts.items
        → IfOk result (λ c. AreRuns R.remaining parts.items c.contents.items) }
    ensures reports { AllTell R.remaining parts.items
        → IfOk result (λ c. c.reports.items ≡ reports_of R.remaining parts.items) }
    ensures shifts { IfOk result (λ c. AreShifts c.contents.items c.shifts.items) }
    ensures number { IfErr result (λ f. f.part < length parts.items) }
{
    let mut contents = Contents {
        contents: Vec::new(alloc),
        shifts: Vec::new(alloc),
        reports: Vec::new(alloc),
    };
    let mut number: usize = 0;
    'parts: for part in parts {
        if let Err(fault) = take_alone(alloc, &mut contents, number, part) {
            return Err(GatherFault {
                part: number,
                fault,
            });
        }
        number += 1;
    }
    Ok(contents)
}

/// Takes what the part with a number holds by itself after what those before it do.
fn take_alone<R: Read + Drop>(
    alloc: Global,
    contents: &mut Contents,
    number: usize,
    part: Part<R>,
) -> Result<(), PartFault>
    ensures taken { Tells R.remaining part
        → OnOk result (TakesAlone R.remaining number part contents.old.contents.items contents.new.contents.items
        contents.old.reports.items contents.new.reports.items) }
    ensures shifts { AreShifts contents.old.contents.items contents.old.shifts.items
        → OnOk result (AreShifts contents.new.contents.items contents.new.shifts.items) }
{
    let gathered = gather_one(alloc, part)?;
    keep(contents, number, gathered)?;
    Ok(())
}

/// Keeps what the part with a number holds after what those before it do.
fn keep(contents: &mut Contents, number: usize, gathered: Gathered) -> Result<(), AllocError>
    ensures contents { OnOk result
        (contents.new.contents.items ≡ contents.old.contents.items ++ gathered.views ∷ []) }
    ensures reports { OnOk result
        (contents.new.reports.items ≡ contents.old.reports.items ++ map (numbered number) gathered.reports) }
    ensures shifts { AreShifts contents.old.contents.items contents.old.shifts.items
        → OnOk result (AreShifts contents.new.contents.items contents.new.shifts.items) }
{
    let (views, reports) = gathered.into_parts();
    push_all(&mut contents.reports, number, reports.as_slice())?;
    contents.shifts.push(shift_of(&views))?;
    contents.contents.push(views.into_catalogue())?;
    Ok(())
}

/// What one part holds by itself, and what is reported of it as the part with the number 0.
pub fn gather_one<R: Read + Drop>(alloc: Global, part: Part<R>) -> Result<Gathered, PartFault>
    ensures run { Tells R.remaining part
        → IfOk result (λ g. IsTheRun (HandedBy R.remaining (part ∷ [])) g.views) }
    ensures reports { Tells R.remaining part → IfOk result (λ g. g.reports ≡ reports_in R.remaining 0 part) }
{
    let mut parts = Vec::new(alloc);
    parts.push(part)?;
    match gather(alloc, parts) {
        Ok(gathered) => Ok(gathered),
        Err(fault) => Err(fault.fault),
    }
}

/// Puts reports after others, as those of the part with a number.
fn push_all(
    all: &mut Vec<PieceReport>,
    number: usize,
    reports: &[PieceReport],
) -> Result<(), AllocError>
    ensures { OnOk result (all.new.items ≡ all.old.items ++ map (numbered number) reports.now) }
{
    all.extend(
        reports.iter().map(|report| PieceReport {
            part: number,
            ..*report
        }),
    )
}
