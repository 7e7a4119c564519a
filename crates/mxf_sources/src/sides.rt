//! What is renewed, and what it is renewed by.
ghost use Rattle.std.specs.Prelude.{◌≡◌, IfOk, false};
ghost use Rattle.mxf_views.specs.Headline.{IsTheRun};
ghost use Rattle.mxf_read.specs.Gathering.{AllTell, HandedBy, reports_of};
ghost use Rattle.mxf_readings.specs.Readings.{all_notes};
ghost use Rattle.mxf_sources.specs.Ranges.{has_range, settled_reports};
ghost use Rattle.mxf_sources.specs.Sides.{AreAllOf};

use crate::held::{HeldBySources, completed, hold_opened, settled, settled_reports};
use crate::opened::{Opened, open_sources, ungathered};
use mxf_catalogue::Catalogue;
use mxf_hand::{Extent, PutTogether};
use mxf_hints::{Contents, RunFault, Shift, gather_each};
use mxf_klv::OutOfMemory;
use mxf_read::{PassOver, PieceReports};
use mxf_readings::joined;
use mxf_saving::{LastFault, Source};
use mxf_skim::Scan;
use mxf_views::Views;
use mxf_watching::Screen;
use std::alloc::Global;
use std::io::Read;

/// What the later sources hold together, and what was noted of their pieces.
#[derive(Drop)]
pub struct Later {
    pub views: Views,
    pub reports: PieceReports,
    pub shifts: Vec<Option<Shift>>,
}

/// What is renewed, and what it is renewed by.
#[derive(Drop)]
pub struct Sides {
    pub earlier: HeldBySources,
    pub later: Later,
}

/// What the earlier sources hold together, and what the later ones do. All are opened before the first is read.
pub fn hold_both<'a>(
    rt: &HostRuntime,
    screen: Screen,
    earlier_sources: &[Source<'a>],
    later_sources: &[Source<'a>],
) -> Result<Sides, RunFault<'a>> {
    let last = LastFault::new();
    let earlier = open_sources(rt, screen, Scan::Full, earlier_sources, &last)?;
    let later = open_sources(rt, screen, Scan::Full, later_sources, &last)?;
    hold_sides(rt, earlier, later, &last)
}

/// What earlier sources hold together that were opened, and what later ones do.
pub fn hold_sides<'r, 'a, F: PassOver + Drop>(
    rt: &'r HostRuntime,
    earlier: Opened<'_, 'a, F>,
    later: Opened<'_, 'a, F>,
    last: &'r LastFault,
) -> Result<Sides, RunFault<'a>>
    ensures earlier { has_range earlier.entry.sources.now ≡ false → AllTell F.remaining earlier.entry.parts.items
        → IfOk result (λ s. IsTheRun (HandedBy F.remaining earlier.entry.parts.items) s.earlier.gathered.views) }
    ensures later { has_range later.entry.sources.now ≡ false → AllTell F.remaining later.entry.parts.items
        → IfOk result (λ s. AreAllOf F.remaining later.entry.parts.items s.later.views) }

    // The reports are those of the pieces, with the stops as ends that what is held makes up for.
    ensures earlier_reports { AllTell F.remaining earlier.entry.parts.items
        → IfOk result (λ s. s.earlier.gathered.reports ≡ settled_reports earlier.entry.sources.now s.earlier.gathered.views
        earlier.entry.extents.items (reports_of F.remaining earlier.entry.parts.items)) }
    ensures later_reports { AllTell F.remaining later.entry.parts.items
        → IfOk result (λ s. s.later.reports ≡ settled_reports later.entry.sources.now s.later.views
        later.entry.extents.items (reports_of F.remaining later.entry.parts.items)) }
{
    let sources = earlier.sources;
    let earlier = hold_opened(rt, Scan::Full, earlier, last)?;
    let earlier = settled(rt.alloc(), earlier, sources)?;
    let later = hold_later(rt, later, last)?;
    Ok(Sides { earlier, later })
}

/// What sources hold together that were opened. Each is read by itself, so that it is known what its own partition
/// packs say.
fn hold_later<'r, 'a, F: Read + Drop>(
    rt: &'r HostRuntime,
    opened: Opened<'_, 'a, F>,
    last: &'r LastFault,
) -> Result<Later, RunFault<'a>>
    ensures views { has_range opened.entry.sources.now ≡ false → AllTell F.remaining opened.entry.parts.items
        → IfOk result (λ later. AreAllOf F.remaining opened.entry.parts.items later.views) }
    ensures reports { AllTell F.remaining opened.entry.parts.items
        → IfOk result (λ later. later.reports ≡ settled_reports opened.entry.sources.now later.views
        opened.entry.extents.items (reports_of F.remaining opened.entry.parts.items)) }
{
    let (sources, parts, extents) = opened.into_parts();
    match gather_each(rt.alloc(), parts) {
        Ok(contents) => later_of(rt, contents, extents, sources, last),
        Err(fault) => Err(ungathered(&fault, sources, last)),
    }
}

/// What several contents hold together, with what is put together of bytes at hand.
fn later_of<'r, 'a>(
    rt: &'r HostRuntime,
    contents: Contents,
    extents: Vec<Extent>,
    sources: &[Source<'a>],
    last: &'r LastFault,
) -> Result<Later, RunFault<'a>>
    ensures views { has_range sources.now ≡ false
        → IfOk result (λ later. later.views ≡ all_notes contents.contents.items) }
    ensures reports { IfOk result (λ later. later.reports
        ≡ settled_reports sources.now later.views extents.items contents.reports.items) }
{
    let Contents {
        contents,
        shifts,
        reports,
    } = contents;
    let Ok(views) = views_of_all(rt.alloc(), &contents) else {
        return Err(RunFault::OutOfMemory);
    };
    drop(contents);
    let PutTogether { views, .. } = completed(rt, Scan::Full, views, &extents, sources, last)?;
    let reports = PieceReports::of(reports);
    let reports = settled_reports(rt.alloc(), &views, &extents, reports, sources)?;
    Ok(Later {
        views,
        reports,
        shifts,
    })
}

/// The views of what several contents hold together.
fn views_of_all(alloc: Global, contents: &[Catalogue]) -> Result<Views, OutOfMemory>
    ensures { IfOk result (λ views. views ≡ all_notes contents.now) }
{
    let all = joined(alloc, contents)?;
    all.laws();
    match Views::of(alloc, all) {
        Ok(views) => Ok(views),
        Err(_) => Err(OutOfMemory),
    }
}
