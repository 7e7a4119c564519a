//! Which stops of pieces are made up for by what is held.
ghost use Rattle.std.specs.Prelude.{◌≡◌, ◌↔◌, IfOk, IsTrue, List, map};
ghost use Rattle.std.specs.List.Sorted.{IsNonDecreasingBy};
ghost use Rattle.mxf_klv.specs.Parts.{NoteParts};
ghost use Rattle.mxf_read.specs.declared.gathering.report.PieceReport.{PieceReport};
ghost use Rattle.mxf_hand.specs.declared.given.Extent.{Extent};
ghost use Rattle.mxf_hand.specs.Settling.{IsWholeStop, begins_whole, disputed_starts, is_all_held, is_source_held};
ghost use Rattle.mxf_hand.specs.Settling.{is_whole_stop, settled};

use crate::given::Extent;
use mxf_catalogue::{Catalogue, Disputed};
use mxf_klv::{Stop, has_key};
use mxf_read::{PieceReport, PieceReports, Report};
use mxf_views::Views;
use std::alloc::{AllocError, Global};

/// Takes a piece for whole whose stop is made up for by what is held (this project's profile): it gets the stop `End`
/// in place of `Truncated` at an offset at which a whole packet is held, clear or disputed; and, if it is a range that
/// has bytes, in place of `NoStart` if each of them is held. `extents` has for each part of the run, by its number,
/// where its bytes lie.
///
/// The time is that of one pass over the disputed packets and of a few binary searches for each report. The only fault
/// is out of memory.
pub fn settle(
    alloc: Global,
    views: &Views,
    extents: &[Extent],
    reports: PieceReports,
) -> Result<PieceReports, AllocError>
    ensures { IfOk result (λ r. r ≡ map (settled views.now extents.now) reports) }
{
    let catalogue = views.catalogue();
    catalogue.laws();
    let starts = disputed_starts(alloc, catalogue)?;
    let mut reports = reports.into_vec();
    settle_each(catalogue, &starts, extents, &mut reports);
    Ok(PieceReports::of(reports))
}

/// The offsets at which disputed whole packets begin, in bytes, in their order.
fn disputed_starts(alloc: Global, catalogue: &Catalogue) -> Result<Vec<u64>, AllocError>
    ensures { IfOk result (λ s. s.items ≡ disputed_starts catalogue.now) }
{
    let whole = catalogue.disputed().filter(|disputed| is_whole(disputed));
    whole.map(|disputed| disputed.note.offset()).collect(alloc)
}

/// Whether a disputed packet was read whole.
fn is_whole(disputed: &Disputed<'_>) -> bool
    ensures { result ≡ disputed.now.note.whole }
{
    !disputed.note.is_head()
}

/// The same for each report, in its place.
fn settle_each(
    catalogue: &Catalogue,
    starts: &[u64],
    extents: &[Extent],
    reports: &mut Vec<PieceReport>,
)
    requires starts { starts.now ≡ disputed_starts catalogue.now }
    requires order { IsNonDecreasingBy (λ n. n) starts.now }
    ensures { reports.new.items ≡ map (settled catalogue.now extents.now) reports.old.items }
{
    for i in 0..reports.len() {
        reports[i] = settled(catalogue, starts, extents, reports[i]);
    }
}

/// The same for one report.
fn settled(
    catalogue: &Catalogue,
    starts: &[u64],
    extents: &[Extent],
    piece: PieceReport,
) -> PieceReport
    requires starts { starts.now ≡ disputed_starts catalogue.now }
    requires order { IsNonDecreasingBy (λ n. n) starts.now }
    ensures { result ≡ settled catalogue.now extents.now piece }
{
    if !is_whole_stop(catalogue, starts, extents, &piece) {
        return piece;
    }
    PieceReport {
        part: piece.part,
        offset: piece.offset,
        report: Report {
            noted: piece.report.noted,
            stop: Stop::End,
        },
    }
}

/// Whether what is held makes up for the stop of a piece.
fn is_whole_stop(
    catalogue: &Catalogue,
    starts: &[u64],
    extents: &[Extent],
    piece: &PieceReport,
) -> bool
    requires starts { starts.now ≡ disputed_starts catalogue.now }
    requires order { IsNonDecreasingBy (λ n. n) starts.now }
    ensures { result ≡ is_whole_stop catalogue.now extents.now piece.now }
{
    match piece.report.stop {
        Stop::Truncated(at) => begins_whole(catalogue, starts, at),
        Stop::NoStart(_) => is_source_held(catalogue, extents, piece.part),
        Stop::End | Stop::NotUl(_) | Stop::BadLength(_) | Stop::TooFar(_) => false,
    }
}

/// Whether the source of a part has bytes, and each of them is held.
fn is_source_held(catalogue: &Catalogue, extents: &[Extent], part: usize) -> bool
    ensures { result ≡ is_source_held catalogue.now extents.now part }
{
    match extents.get(part) {
        Some(extent) => is_all_held(catalogue, *extent),
        None => false,
    }
}

/// Whether an extent has bytes, and each of them is held.
fn is_all_held(catalogue: &Catalogue, extent: Extent) -> bool
    ensures { result ≡ is_all_held catalogue.now extent }
{
    let start = extent.offset();
    extent.size() > 0 && catalogue.spans().has_all(start, start + extent.size())
}

/// Whether a whole packet is held that begins at an offset, in bytes, clear or disputed. `starts` has those at which
/// disputed ones begin.
fn begins_whole(catalogue: &Catalogue, starts: &[u64], offset: u64) -> bool
    requires starts { starts.now ≡ disputed_starts catalogue.now }
    requires order { IsNonDecreasingBy (λ n. n) starts.now }
    ensures { result ≡ begins_whole catalogue.now offset }
{
    match catalogue.undisputed_at(offset) {
        Some(note) => !note.is_head(),
        None => has_key(starts, offset),
    }
}

/// A law of [`settle`]: for which stops what is held makes up.
pub fn whole_stops_by_definition()
    ensures { (notes : List NoteParts) (extents : List Extent) (piece : PieceReport)
        → IsTrue (is_whole_stop notes extents piece) ↔ IsWholeStop notes extents piece }
{}
