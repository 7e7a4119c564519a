//! What sources hold together, with what is put together of bytes at hand.
ghost use Rattle.std.specs.Prelude.{◌≡◌, IfOk, false};
ghost use Rattle.mxf_views.specs.Headline.{IsTheRun};
ghost use Rattle.mxf_read.specs.Gathering.{AllTell, HandedBy, reports_of};
ghost use Rattle.mxf_read.specs.SkimGathering.{IsTheSkim, SkimHandedBy};
ghost use Rattle.mxf_places.specs.AtHand.{nothing_at_hand};
ghost use Rattle.mxf_skim.specs.declared.scan.Scan.TheVariants.{Full, Skim};
ghost use Rattle.mxf_sources.specs.Ranges.{IsUntouched, fault_of_source, has_range, settled_reports};

use crate::opened::{Opened, open_sources, ungathered};
use crate::reopened::Reopened;
use mxf_hand::{
    Excerpt, Extent, Given, PutTogether, SourceFault, excerpts, put_together_by, settle,
};
use mxf_hints::RunFault;
use mxf_places::AtHand;
use mxf_read::{
    GatherFault, Gathered, Part, PartFault, PassOver, PieceReports, gather, gather_skim,
};
use mxf_saving::{LastFault, Source};
use mxf_skim::Scan;
use mxf_views::Views;
use mxf_watching::Screen;
use std::alloc::Global;

/// What sources hold together, which of their bytes are at hand, and where they lie.
pub struct HeldBySources {
    pub gathered: Gathered,
    pub at_hand: AtHand,
    pub extents: Vec<Extent>,
}

// Written out, a drop is one call wherever what is held is let go.
impl Drop for HeldBySources {
    fn drop(self) {
        let HeldBySources {
            gathered: _gathered,
            at_hand: _at_hand,
            extents: _extents,
        } = self;
    }
}

impl HeldBySources {
    /// What was gathered, which bytes are at hand, and where they lie.
    pub fn into_parts(self) -> (Gathered, AtHand, Vec<Extent>)
        ensures gathered { result.0 ≡ self.gathered }
        ensures hand { result.1 ≡ self.at_hand }
        ensures extents { result.2 ≡ self.extents }
    {
        let HeldBySources {
            gathered,
            at_hand,
            extents,
        } = self;
        (gathered, at_hand, extents)
    }
}

/// What the sources hold together, by a reading or a skim. All are opened before the first is read.
pub fn hold_sources<'a>(
    rt: &HostRuntime,
    screen: Screen,
    scan: Scan,
    sources: &[Source<'a>],
) -> Result<HeldBySources, RunFault<'a>> {
    let last = LastFault::new();
    let opened = open_sources(rt, screen, scan, sources, &last)?;
    hold_opened(rt, scan, opened, &last)
}

/// What sources hold together that were opened. If one of them is a range, packets are put together of bytes at hand.
pub fn hold_opened<'r, 'a, F: PassOver + Drop>(
    rt: &'r HostRuntime,
    scan: Scan,
    opened: Opened<'_, 'a, F>,
    last: &'r LastFault,
) -> Result<HeldBySources, RunFault<'a>>
    ensures run { scan ≡ Full → has_range opened.entry.sources.now ≡ false → AllTell F.remaining opened.entry.parts.items
        → IfOk result (λ held. IsTheRun (HandedBy F.remaining opened.entry.parts.items) held.gathered.views) }
    ensures skim { scan ≡ Skim → has_range opened.entry.sources.now ≡ false → AllTell F.remaining opened.entry.parts.items
        → IfOk result (λ held. IsTheSkim (SkimHandedBy F.remaining opened.entry.parts.items) held.gathered.views) }
    ensures reports { AllTell F.remaining opened.entry.parts.items
        → IfOk result (λ held. held.gathered.reports ≡ reports_of F.remaining opened.entry.parts.items) }
    ensures hand { has_range opened.entry.sources.now ≡ false → IfOk result (λ held. held.at_hand ≡ nothing_at_hand) }
    ensures extents { IfOk result (λ held. held.extents ≡ opened.entry.extents) }
{
    let (sources, parts, extents) = opened.into_parts();
    match gather_by(rt.alloc(), scan, parts) {
        Ok(gathered) => complete(rt, scan, gathered, extents, sources, last),
        Err(fault) => Err(ungathered(&fault, sources, last)),
    }
}

/// What the parts hold together, by a reading or a skim.
fn gather_by<F: PassOver + Drop>(
    alloc: Global,
    scan: Scan,
    parts: Vec<Part<F>>,
) -> Result<Gathered, GatherFault>
    ensures run { scan ≡ Full → AllTell F.remaining parts.items
        → IfOk result (λ g. IsTheRun (HandedBy F.remaining parts.items) g.views) }
    ensures skim { scan ≡ Skim → AllTell F.remaining parts.items
        → IfOk result (λ g. IsTheSkim (SkimHandedBy F.remaining parts.items) g.views) }
    ensures reports { AllTell F.remaining parts.items
        → IfOk result (λ g. g.reports ≡ reports_of F.remaining parts.items) }
{
    match scan {
        Scan::Full => gather(alloc, parts),
        Scan::Skim => gather_skim(alloc, parts),
    }
}

/// The same, with the stops of pieces as ends that what is held makes up for.
pub fn settled<'a>(
    alloc: Global,
    held: HeldBySources,
    sources: &[Source<'_>],
) -> Result<HeldBySources, RunFault<'a>>
    ensures views { IfOk result (λ s. s.gathered.views ≡ held.gathered.views) }
    ensures hand { IfOk result (λ s. s.at_hand ≡ held.at_hand) }
    ensures extents { IfOk result (λ s. s.extents ≡ held.extents) }
    ensures reports { IfOk result (λ s. s.gathered.reports
        ≡ settled_reports sources.now held.gathered.views held.extents.items held.gathered.reports) }
{
    let (gathered, at_hand, extents) = held.into_parts();
    let (views, reports) = gathered.into_parts();
    let reports = settled_reports(alloc, &views, &extents, reports, sources)?;
    Ok(HeldBySources {
        gathered: Gathered { views, reports },
        at_hand,
        extents,
    })
}

/// The reports of pieces, with the stops as ends that what is held makes up for, if one of the sources is a range.
pub fn settled_reports<'a>(
    alloc: Global,
    views: &Views,
    extents: &[Extent],
    reports: PieceReports,
    sources: &[Source<'_>],
) -> Result<PieceReports, RunFault<'a>>
    ensures { IfOk result (λ r. r ≡ settled_reports sources.now views.now extents.now reports) }
{
    if !has_range(sources) {
        return Ok(reports);
    }
    match settle(alloc, views, extents, reports) {
        Ok(settled) => Ok(settled),
        Err(_) => Err(RunFault::OutOfMemory),
    }
}

/// Whether one of the sources is a range.
fn has_range(sources: &[Source<'_>]) -> bool
    ensures { result ≡ has_range sources.now }
{
    sources.iter().any(|source| source.is_range())
}

/// Puts packets together of bytes at hand.
fn complete<'r, 'a>(
    rt: &'r HostRuntime,
    scan: Scan,
    gathered: Gathered,
    extents: Vec<Extent>,
    sources: &[Source<'a>],
    last: &'r LastFault,
) -> Result<HeldBySources, RunFault<'a>>
    ensures reports { IfOk result (λ held. held.gathered.reports ≡ gathered.reports) }
    ensures extents { IfOk result (λ held. held.extents ≡ extents) }
    ensures pieces { has_range sources.now ≡ false
        → IfOk result (λ held. IsUntouched gathered.views held.gathered.views held.at_hand) }
{
    let (views, reports) = gathered.into_parts();
    let PutTogether { views, at_hand } = completed(rt, scan, views, &extents, sources, last)?;
    let gathered = Gathered { views, reports };
    Ok(HeldBySources {
        gathered,
        at_hand,
        extents,
    })
}

/// Puts packets together of bytes at hand, if one of the sources is a range.
pub fn completed<'r, 'a>(
    rt: &'r HostRuntime,
    scan: Scan,
    views: Views,
    extents: &[Extent],
    sources: &[Source<'a>],
    last: &'r LastFault,
) -> Result<PutTogether, RunFault<'a>>
    ensures { has_range sources.now ≡ false → IfOk result (λ p. IsUntouched views p.views p.at_hand) }
{
    if !has_range(sources) {
        let at_hand = AtHand::nothing(rt.alloc());
        return Ok(PutTogether { views, at_hand });
    }
    match put_views_together(rt, scan, views, extents, sources, last) {
        Ok(together) => Ok(together),
        Err(fault) => Err(unread_again(fault, sources, last)),
    }
}

/// Puts packets together of bytes at hand: the files of the sources are opened once more where their bytes are asked
/// for.
fn put_views_together(
    rt: &HostRuntime,
    scan: Scan,
    views: Views,
    extents: &[Extent],
    sources: &[Source<'_>],
    last: &LastFault,
) -> Result<PutTogether, SourceFault> {
    let excerpts = excerpts(rt.alloc(), scan, &views, extents)?;
    let given = Given::of(rt.alloc(), extents_of(rt.alloc(), &excerpts)?)?;
    let mut reopened = Reopened::new(rt, sources, extents, &excerpts, last);
    match put_together_by(rt.alloc(), scan, views, given, &mut reopened) {
        Ok(together) => Ok(together),
        Err(fault) => Err(fault_of_source(fault, &excerpts)),
    }
}

/// Where the bytes of excerpts lie. They take memory.
fn extents_of(alloc: Global, excerpts: &[Excerpt]) -> Result<Vec<Extent>, SourceFault> {
    let mut extents = Vec::new(alloc);
    for excerpt in excerpts {
        extents.push(excerpt.extent)?;
    }
    Ok(extents)
}

/// The fault with the number of the source in place of that of its excerpt.
fn fault_of_source(fault: SourceFault, excerpts: &[Excerpt]) -> SourceFault
    ensures { result ≡ fault_of_source fault excerpts.now }
{
    match fault {
        SourceFault::OutOfMemory => SourceFault::OutOfMemory,
        SourceFault::ReadFault { source_number } => match excerpts.get(source_number) {
            Some(excerpt) => SourceFault::ReadFault {
                source_number: excerpt.source,
            },
            None => SourceFault::ReadFault { source_number },
        },
    }
}

/// Why bytes of the sources weren't read again.
fn unread_again<'a>(fault: SourceFault, sources: &[Source<'a>], last: &LastFault) -> RunFault<'a> {
    match fault {
        SourceFault::OutOfMemory => RunFault::OutOfMemory,
        SourceFault::ReadFault { source_number } => {
            let fault = GatherFault {
                part: source_number,
                fault: PartFault::ReadFault,
            };
            ungathered(&fault, sources, last)
        }
    }
}
