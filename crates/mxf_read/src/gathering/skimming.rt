//! Gathering the parts of a run without reading what a container holds.
ghost use Rattle.std.specs.Prelude.{◌≡◌, ◌+◌, ◌-◌, ◌<◌, ◌≤◌, ◌++◌, ℕ, List, [], length, take, IfOk, IfErr, IfSome, OnOk};
ghost use Rattle.std.specs.List.{AllByRecursion};
ghost use Rattle.mxf_klv.specs.PieceReading.{notes_in};
ghost use Rattle.mxf_catalogue.specs.Content.{reduced_union};
ghost use Rattle.mxf_skim.specs.PassedOver.{noted_by};
ghost use Rattle.mxf_skim.specs.declared.scan.Scan.TheVariants.{Skim};
ghost use Rattle.mxf_read.specs.Absorbs.{report_of};
ghost use Rattle.mxf_read.specs.Gathering.{AllTell, HasFault, IsGatherFault, IsGood, IsOfAnyPart, Tells};
ghost use Rattle.mxf_read.specs.Gathering.{piece_limit, reports_of};
ghost use Rattle.mxf_read.specs.Ranges.{range_notes, range_report};
ghost use Rattle.mxf_read.specs.SkimGathering.{IsTheSkim, SkimHandedBy, TakesSkim};

use super::levels::Levels;
use super::reading::read_up_to;
use super::{
    GREATEST_PIECE, GREATEST_WINDOW, GatherFault, Gathered, Part, PartFault, PieceReport,
    PieceReports, no_start, read_saved,
};
use crate::absorbing::finish;
use crate::pass_over::PassOver;
use crate::piece::Piece;
use crate::range::start_of;
use crate::report::Report;
use crate::skimming::skim_all;
use mxf_catalogue::Catalogue;
use mxf_klv::OutOfMemory;
use mxf_skim::Scan;
use mxf_views::Views;
use std::alloc::Global;

/// The notes of a skim of the piece whose first bytes have begun and whose others a reader gives, and what is reported
/// of it. No more than `limit` bytes are taken of the reader.
fn skim_piece<R: PassOver>(
    alloc: Global,
    offset: u64,
    begun: &[u8],
    from: &mut R,
    limit: u64,
) -> Result<(Catalogue, Report), PartFault>
    ensures report { IfOk result (λ p. IfSome (R.remaining from.old) (λ all.
        p.1 ≡ report_of offset (begun.now ++ take limit all))) }
    ensures notes { IfOk result (λ p. IfSome (R.remaining from.old) (λ all.
        p.0 ≡ reduced_union [] (noted_by Skim (notes_in offset (begun.now ++ take limit all))))) }
    ensures fault { IfErr result IsOfAnyPart }
{
    let mut piece = Piece::by(alloc, Scan::Skim, offset);
    piece.feed(begun)?;
    skim_all(&mut piece, from, limit)?;
    let report = finish(&mut piece)?;
    Ok((piece.into_notes(), report))
}

/// The notes of a skim of the piece of a range that a reader gives, and what is reported of it as the part with a
/// number. The window's bytes fill the buffer, which keeps its room for the next range.
fn skim_range<R: PassOver>(
    alloc: Global,
    part: usize,
    offset: u64,
    from: &mut R,
    window: &mut Vec<u8>,
) -> Result<(Catalogue, PieceReport), PartFault>
    ensures report { IfOk result (λ p. IfSome (R.remaining from.old) (λ all.
        p.1 ≡ range_report part offset (take piece_limit all))) }
    ensures notes { IfOk result (λ p. IfSome (R.remaining from.old) (λ all.
        p.0 ≡ reduced_union [] (noted_by Skim (range_notes offset (take piece_limit all))))) }
    ensures fault { IfErr result IsOfAnyPart }
{
    read_up_to(from, GREATEST_WINDOW, window)?;
    let Some(start) = start_of(offset, window) else {
        let report = no_start(offset, window.len());
        return Ok((
            Catalogue::new(alloc),
            PieceReport {
                part,
                offset,
                report,
            },
        ));
    };
    let offset = offset + start as u64;
    let limit = GREATEST_PIECE - window.len() as u64;
    let (notes, report) = skim_piece(alloc, offset, &window[start..], from, limit)?;
    Ok((
        notes,
        PieceReport {
            part,
            offset,
            report,
        },
    ))
}

/// Takes the part with a number, as a skim: its notes, and the report of a piece or range. The window of a range fills
/// the buffer.
fn skim_part<R: PassOver + Drop>(
    alloc: Global,
    levels: &mut Levels,
    reports: &mut PieceReports,
    window: &mut Vec<u8>,
    number: usize,
    part: &mut Part<R>,
) -> Result<(), PartFault>
    ensures taken { Tells R.remaining part.old
        → OnOk result (TakesSkim R.remaining number part.old levels.old levels.new reports.old reports.new) }
    ensures fault { Tells R.remaining part.old → IfErr result (λ f. HasFault R.remaining f part.old) }
{
    match part {
        Part::Piece { offset, from } => {
            let (notes, report) = skim_piece(alloc, *offset, &[], from, GREATEST_PIECE)?;
            levels.add(notes)?;
            reports.push(PieceReport {
                part: number,
                offset: *offset,
                report,
            })?;
        }
        Part::Range { offset, from } => {
            let (notes, report) = skim_range(alloc, number, *offset, from, window)?;
            levels.add(notes)?;
            reports.push(report)?;
        }
        Part::Saved { from } => {
            let saved = read_saved(alloc, from)?;
            levels.add(saved)?;
        }
    }
    Ok(())
}

/// What all parts hold together by a skim: of each piece and range the values of a container's packets are passed over.
/// All else is as [`gather`](super::gather) does it: the reports are the same, and so are the notes, but that those of
/// packets that were passed over hold no digest. Where a saved catalogue hands a note of such a packet, that is held.
///
/// Whatever the order, the repeats and the joins of the parts, the notes are those of the set that the parts hand, and
/// no byte of a value that is passed over counts.
///
/// The first part that is at fault ends the run. The parts are dropped in every case.
pub fn gather_skim<R: PassOver + Drop>(
    alloc: Global,
    parts: Vec<Part<R>>,
) -> Result<Gathered, GatherFault>
    ensures skim { AllTell R.remaining parts.items
        → IfOk result (λ g. IsTheSkim (SkimHandedBy R.remaining parts.items) g.views) }
    ensures reports { AllTell R.remaining parts.items
        → IfOk result (λ g. g.reports ≡ reports_of R.remaining parts.items) }
    ensures good { AllTell R.remaining parts.items
        → IfOk result (λ _. AllByRecursion (IsGood R.remaining) parts.items) }
    ensures fault { AllTell R.remaining parts.items → IfErr result (IsGatherFault R.remaining parts.items) }

    // Whatever the readers give, a fault has the number of a part.
    ensures number { IfErr result (λ f. f.part < length parts.items) }
{
    let mut levels = Levels::new(alloc);
    let mut reports = PieceReports::new(alloc);
    let mut window = Vec::new(alloc);
    let mut number: usize = 0;
    'parts: for mut part in parts {
        let taken = skim_part(
            alloc,
            &mut levels,
            &mut reports,
            &mut window,
            number,
            &mut part,
        );
        drop(part);
        if let Err(fault) = taken {
            return Err(GatherFault {
                part: number,
                fault,
            });
        }
        number += 1;
    }
    drop(window);
    if number == 0 {
        return Ok(Gathered {
            views: Views::new(alloc),
            reports,
        });
    }
    match levels.into_skim(alloc) {
        Ok(views) => Ok(Gathered { views, reports }),
        Err(OutOfMemory) => Err(GatherFault {
            part: number - 1,
            fault: PartFault::OutOfMemory,
        }),
    }
}
