//! Telling what of the sources doesn't go together.
use crate::offsets::{is_contradicted, tell_offsets};
use crate::telling::tell_on_screen;
use mxf_catalogue::Catalogue;
use mxf_klv::Stop;
use mxf_read::PieceReport;
use mxf_saving::Source;
use mxf_sets::PackPart;
use mxf_views::{RipView, Views};
use std::alloc::{AllocError, Global};
use std::fmt;
use std::rt::Files;

/// Tells what of the sources doesn't go together: those that begin elsewhere by their partition packs, a second header
/// partition, those that begin elsewhere by the packet before them or by the end of the recording. Whether it is left
/// to tell that packets of several sources are disputed.
pub fn tell_apart<R: Files + Eprint + AllocGlobal>(
    rt: &R,
    sources: &[Source<'_>],
    reports: &[PieceReport],
    views: &Views,
) -> Result<bool, AllocError> {
    let is_told = is_contradicted(views) && tell_offsets(rt, sources)?;
    if is_told || tell_headers(rt, views)? {
        return Ok(false);
    }
    tell_places(rt, sources, reports, views)?;
    Ok(sources.len() > 1 && views.catalogue().disputed().next().is_some())
}

/// Tells that packets are disputed, if they are, and what tells readings apart that one source has.
pub fn tell_unsettled<R: Eprint + AllocGlobal>(rt: &R, views: &Views) -> Result<(), AllocError> {
    if views.catalogue().disputed().next().is_none() {
        return Ok(());
    }
    tell_on_screen(
        rt,
        &"hint: packets are in dispute, and units may lie in them: renew the catalogue by a reading that is newer, or hand in its sources by themselves",
    )
}

/// Tells of the first two header partitions, if there are two. Whether there are.
fn tell_headers<R: Eprint + AllocGlobal>(rt: &R, views: &Views) -> Result<bool, AllocError> {
    let Some((first, second)) = two_headers(views) else {
        return Ok(false);
    };
    let line = format!(in rt.alloc();
        "hint: header partitions begin at {first} and at {second}: a recording has one, so the bytes from {second} on are of another"
    )?;
    tell_on_screen(rt, &line.as_str())?;
    Ok(true)
}

/// Where the first two header partitions begin, if there are two.
fn two_headers(views: &Views) -> Option<(u64, u64)> {
    let mut first = None;
    for partition in views.partitions_in_numbers() {
        match (partition.part, first) {
            (PackPart::Header, None) => first = Some(partition.offset),
            (PackPart::Header, Some(first)) => return Some((first, partition.offset)),
            _ => {}
        }
    }
    None
}

/// Where a source belongs by the sources beside it. It prints as its line.
#[derive(Clone, Copy)]
enum Misplaced<'a> {
    /// A packet that is cut ends at `end`, within the range, and its first packet begins at `first`, above that.
    Beside {
        source: Source<'a>,
        end: u64,
        first: u64,
    },
    /// The recording ends before the source begins.
    Behind {
        source: Source<'a>,
        end: u64,
    },
}

impl fmt::Display for Misplaced<'_> {
    fn fmt<W: fmt::Write>(&self, f: &mut fmt::Formatter<W>) -> fmt::Result {
        match *self {
            Misplaced::Beside { source, end, first } => {
                let bytes = first.saturating_sub(end);
                write!(
                    f,
                    "hint: a packet that is cut ends at {end}, and the first packet of {source} begins at {first}: is OFFSET {bytes} too high?"
                )
            }
            Misplaced::Behind { source, end } => write!(
                f,
                "hint: the random index pack says that the recording ends at {end}, and {source} lies after it: is OFFSET right?"
            ),
        }
    }
}

/// Tells of each range that doesn't go on where the packet before it ends, and of each source after the end.
fn tell_places<R: Eprint + AllocGlobal>(
    rt: &R,
    sources: &[Source<'_>],
    reports: &[PieceReport],
    views: &Views,
) -> Result<(), AllocError> {
    let cuts = cuts_of(rt.alloc(), reports, views.catalogue())?;
    for report in reports {
        if let Some(source) = sources.get(report.part) {
            if let Some(misplaced) = range_beside(*source, report, &cuts) {
                tell_on_screen(rt, &misplaced)?;
            }
        }
    }
    let Some(end) = stated_end(views) else {
        return Ok(());
    };
    for source in sources {
        let source = *source;
        if matches!(source.place(), Some((offset, _)) if offset >= end) {
            tell_on_screen(rt, &Misplaced::Behind { source, end })?;
        }
    }
    Ok(())
}

/// Where the only random index pack ends, if it can be read. It is the last packet of a recording.
fn stated_end(views: &Views) -> Option<u64> {
    match views.rip() {
        RipView::One(rip) => Some(views.catalogue().clear_at(rip.offset())?.end()),
        _ => None,
    }
}

/// A packet that a source has in part: where it begins and ends, in bytes.
#[derive(Clone, Copy)]
struct Cut {
    start: u64,
    end: u64,
}

/// The packets that are cut in the sources, and that no other source has, by where they begin.
fn cuts_of(
    alloc: Global,
    reports: &[PieceReport],
    catalogue: &Catalogue,
) -> Result<Vec<Cut>, AllocError> {
    let mut cuts = Vec::new(alloc);
    for report in reports {
        if let Some(cut) = cut_of(report, catalogue) {
            cuts.push(cut)?;
        }
    }
    cuts.sort_unstable_by_key(|cut| cut.start);
    Ok(cuts)
}

/// The packet that is cut at the end of a source, if no other source has it.
fn cut_of(report: &PieceReport, catalogue: &Catalogue) -> Option<Cut> {
    let Stop::Truncated(start) = report.report.stop else {
        return None;
    };
    let note = catalogue.undisputed_at(start)?;
    let end = note.end();
    note.is_head().then_some(Cut { start, end })
}

/// The range, if a packet that is cut before its first byte ends within it, and its first packet begins above that end.
/// One that begins below disputes the packet, and isn't told here.
fn range_beside<'a>(
    source: Source<'a>,
    report: &PieceReport,
    cuts: &[Cut],
) -> Option<Misplaced<'a>> {
    if !source.is_range() {
        return None;
    }
    let (offset, _) = source.place()?;
    let begun = cuts.partition_point(|cut| cut.start < offset);
    let end = cuts[..begun].last()?.end;
    let first = report.offset;
    if matches!(report.report.stop, Stop::NoStart(_)) || end < offset || first <= end {
        return None;
    }
    Some(Misplaced::Beside { source, end, first })
}
