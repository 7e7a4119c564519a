//! Gathering the parts of a run: pieces, ranges and saved catalogues.
ghost use Rattle.std.specs.Prelude.{◌≡◌, ◌+◌, ◌<◌, ◌≤◌, ◌++◌, ℕ, List, [], length, take, IfOk, IfErr, IfSome};
ghost use Rattle.std.specs.Prelude.{OnOk};
ghost use Rattle.mxf_klv.specs.Parts.{NoteParts};
ghost use Rattle.mxf_klv.specs.PieceReading.{notes_in};
ghost use Rattle.mxf_catalogue.specs.Content.{reduced_union};
ghost use Rattle.mxf_catalogue.specs.CatalogueFile.{IsRefused};
ghost use Rattle.mxf_views.specs.Headline.{IsTheRun};
ghost use Rattle.mxf_read.specs.Absorbs.{report_of};
ghost use Rattle.mxf_read.specs.Feeding.{Fed};
ghost use Rattle.mxf_skim.specs.declared.scan.Scan.TheVariants.{Full};
ghost use Rattle.mxf_read.specs.Ranges.{LeavesTheRest, no_start, range_notes, range_report};
ghost use Rattle.mxf_read.specs.Reads.{Takes};
ghost use Rattle.std.specs.List.{AllByRecursion};
ghost use Rattle.mxf_read.specs.Gathering.{AllTell, HandedBy, HasFault, IsGatherFault, IsGood, IsLeftBy, IsOfAnyPart};
ghost use Rattle.mxf_read.specs.Gathering.{IsSavedAs, IsSavedFault, LeavesOfPart, TakesPart, Tells, piece_limit};
ghost use Rattle.mxf_read.specs.Gathering.{reports_of, saved_limit};

mod fault;
mod levels;
mod part;
mod reading;
mod report;
mod skimming;

use crate::absorbing::finish;
use crate::piece::Piece;
use crate::range::start_of;
use crate::reading::read_through;
use crate::report::Report;
pub use fault::{GatherFault, PartFault};
use levels::Levels;
use mxf_catalogue::{Catalogue, FileFault};
use mxf_klv::{OutOfMemory, Stop};
use mxf_views::Views;
pub use part::Part;
use reading::read_up_to;
pub use report::{PieceReport, PieceReports};
pub use skimming::gather_skim;
use std::alloc::Global;
use std::io::Read;

/// The greatest number of bytes that is read of one piece or range.
pub const GREATEST_PIECE: u64 = 1_099_511_627_776;

/// The greatest number of bytes of a range that are searched for its start.
pub const GREATEST_WINDOW: u64 = 33_554_432;

/// The greatest number of bytes of the file of a catalogue.
const GREATEST_SAVED: u64 = 1_073_741_824;

/// The views of what the parts of a run hold together, and what was noted of each piece, in their order.
pub struct Gathered {
    pub views: Views,
    pub reports: PieceReports,
}

// Written out, a drop is one call wherever what was gathered is let go.
impl Drop for Gathered {
    fn drop(self) {
        let Gathered {
            views: _views,
            reports: _reports,
        } = self;
    }
}

impl Gathered {
    /// The views, and what was noted of the pieces.
    pub fn into_parts(self) -> (Views, PieceReports)
        ensures views { result.0 ≡ self.views }
        ensures reports { result.1 ≡ self.reports }
    {
        let Gathered { views, reports } = self;
        (views, reports)
    }
}

/// The notes of a piece of which a reader gives the bytes to come, and what is reported of it. No more than `limit`
/// bytes are read, through the window.
fn read_on<R: Read>(
    piece: Piece,
    from: &mut R,
    limit: u64,
    window: &mut Vec<u8>,
) -> Result<(Catalogue, Report), PartFault>
    requires { (o : ℕ) × (m : List ℕ) × Fed Full o m piece }
    ensures report { (o : ℕ) (m : List ℕ) → Fed Full o m piece
        → IfOk result (λ p. IfSome (R.remaining from.old) (λ all. p.1 ≡ report_of o (m ++ take limit all))) }
    ensures notes { (o : ℕ) (m : List ℕ) → Fed Full o m piece
        → IfOk result (λ p. IfSome (R.remaining from.old) (λ all.
        p.0 ≡ reduced_union [] (notes_in o (m ++ take limit all)))) }
    ensures left { (taken : List ℕ) × Takes (R.remaining from.old) (R.remaining from.new) limit taken }
    ensures fault { IfErr result IsOfAnyPart }
{
    let mut piece = piece;
    read_through(&mut piece, from, limit, window)?;
    let report = finish(&mut piece)?;
    Ok((piece.into_notes(), report))
}

/// The notes of the piece that a reader gives, and what is reported of it. No more than `limit` bytes are read, through
/// the window, which keeps its room for the next piece.
fn read_piece<R: Read>(
    alloc: Global,
    offset: u64,
    from: &mut R,
    limit: u64,
    window: &mut Vec<u8>,
) -> Result<(Catalogue, Report), PartFault>
    ensures report { IfOk result (λ p. IfSome (R.remaining from.old) (λ all.
        p.1 ≡ report_of offset (take limit all))) }
    ensures notes { IfOk result (λ p. IfSome (R.remaining from.old) (λ all.
        p.0 ≡ reduced_union [] (notes_in offset (take limit all)))) }
    ensures left { (taken : List ℕ) × Takes (R.remaining from.old) (R.remaining from.new) limit taken }
    ensures fault { IfErr result IsOfAnyPart }
{
    read_on(Piece::new(alloc, offset), from, limit, window)
}

/// The notes of the piece of a range that a reader gives, and what is reported of it as the part with a number. After a
/// window without a start nothing is read. What is read of the piece behind the window comes through it, and it keeps
/// its room for the next part.
fn read_range<R: Read>(
    alloc: Global,
    part: usize,
    offset: u64,
    from: &mut R,
    window: &mut Vec<u8>,
) -> Result<(Catalogue, PieceReport), PartFault>
    ensures report { IfOk result (λ p. IfSome (R.remaining from.old) (λ all.
        p.1 ≡ range_report part offset (take piece_limit all))) }
    ensures notes { IfOk result (λ p. IfSome (R.remaining from.old) (λ all.
        p.0 ≡ reduced_union [] (range_notes offset (take piece_limit all)))) }
    ensures left { OnOk result (LeavesTheRest offset (R.remaining from.old) (R.remaining from.new)) }
    ensures fault { IfErr result IsOfAnyPart }
{
    read_up_to(from, GREATEST_WINDOW, window)?;
    let Some(start) = start_of(offset, window) else {
        let report = no_start(offset, window.len());
        return Ok((
            Catalogue::new(alloc),
            PieceReport {
                part,
                offset,
                report,
            },
        ));
    };
    let offset = offset + start as u64;
    let mut piece = Piece::new(alloc, offset);
    piece.feed(&window[start..])?;
    let limit = GREATEST_PIECE - window.len() as u64;
    let (notes, report) = read_on(piece, from, limit, window)?;
    Ok((
        notes,
        PieceReport {
            part,
            offset,
            report,
        },
    ))
}

/// What is reported of a range without a start, whose window has `size` bytes.
fn no_start(offset: u64, size: usize) -> Report
    ensures { result ≡ no_start offset size }
{
    Report {
        noted: 0,
        stop: Stop::NoStart(offset.saturating_add(size as u64)),
    }
}

/// What the fault of a file is for its part.
fn saved_fault(fault: FileFault) -> PartFault
    ensures { (bytes : List ℕ) → length bytes ≤ saved_limit → IsRefused bytes fault → IsSavedFault bytes result }
{
    match fault {
        FileFault::OutOfMemory => PartFault::OutOfMemory,
        other => PartFault::Catalogue(other),
    }
}

/// The catalogue of the file that a reader gives.
fn read_saved<R: Read>(alloc: Global, from: &mut R) -> Result<Catalogue, PartFault>
    ensures left { OnOk result ((taken : List ℕ)
        × Takes (R.remaining from.old) (R.remaining from.new) (saved_limit + 1) taken) }
    ensures saved { IfOk result (λ notes. IfSome (R.remaining from.old) (λ all. IsSavedAs all notes)) }
    ensures fault { IfErr result (λ f. IfSome (R.remaining from.old) (λ all. IsSavedFault all f)) }
{
    let mut bytes = Vec::new(alloc);
    read_up_to(from, GREATEST_SAVED + 1, &mut bytes)?;
    if bytes.len() as u64 > GREATEST_SAVED {
        return Err(PartFault::TooLong);
    }
    match Catalogue::read(alloc, &bytes) {
        Ok(saved) => Ok(saved),
        Err(fault) => Err(saved_fault(fault)),
    }
}

/// Takes the part with a number: its notes, and the report of a piece or range, which is read through the window.
fn take_part<R: Read + Drop>(
    alloc: Global,
    levels: &mut Levels,
    reports: &mut PieceReports,
    window: &mut Vec<u8>,
    number: usize,
    part: &mut Part<R>,
) -> Result<(), PartFault>
    ensures taken { Tells R.remaining part.old
        → OnOk result (TakesPart R.remaining number part.old levels.old levels.new reports.old reports.new) }
    ensures left { OnOk result (LeavesOfPart R.remaining part.old part.new) }
    ensures fault { Tells R.remaining part.old → IfErr result (λ f. HasFault R.remaining f part.old) }
{
    match part {
        Part::Piece { offset, from } => {
            let (notes, report) = read_piece(alloc, *offset, from, GREATEST_PIECE, window)?;
            levels.add(notes)?;
            reports.push(PieceReport {
                part: number,
                offset: *offset,
                report,
            })?;
        }
        Part::Range { offset, from } => {
            let (notes, report) = read_range(alloc, number, *offset, from, window)?;
            levels.add(notes)?;
            reports.push(report)?;
        }
        Part::Saved { from } => {
            let saved = read_saved(alloc, from)?;
            levels.add(saved)?;
        }
    }
    Ok(())
}

/// What all parts hold together. Of each piece or range 1,099,511,627,776 bytes are read at most; the file of a
/// catalogue has 1,073,741,824 bytes at most. A range's start is searched for in its first 33,554,432 bytes, which are
/// held in memory that is kept from range to range. If there is none, the range hands nothing, and nothing more of it
/// is read. A piece is read through 65,536 bytes of memory, which grow up to 16,777,216 for long packets.
///
/// Whatever the order, the repeats and the joins of the parts, the notes are exactly those that the parts hand: any
/// calls that were handed the same notes hold the same and write the same bytes. Each view is its function of the
/// notes. The disputed notes are those that share a byte with a different one. If the notes are those of a well-formed
/// whole file, the views of partitions, copies and indexes are those of reading it from the front.
///
/// The first part that is at fault ends the run. The parts are dropped in every case.
pub fn gather<R: Read + Drop>(alloc: Global, parts: Vec<Part<R>>) -> Result<Gathered, GatherFault>
    ensures run { AllTell R.remaining parts.items
        → IfOk result (λ g. IsTheRun (HandedBy R.remaining parts.items) g.views) }
    ensures history { AllTell R.remaining parts.items
        → IfOk result (λ g. IsLeftBy R.remaining parts.items g.views) }
    ensures reports { AllTell R.remaining parts.items
        → IfOk result (λ g. g.reports ≡ reports_of R.remaining parts.items) }
    ensures good { AllTell R.remaining parts.items
        → IfOk result (λ _. AllByRecursion (IsGood R.remaining) parts.items) }
    ensures fault { AllTell R.remaining parts.items → IfErr result (IsGatherFault R.remaining parts.items) }

    // Whatever the readers give, a fault has the number of a part.
    ensures number { IfErr result (λ f. f.part < length parts.items) }
{
    let mut levels = Levels::new(alloc);
    let mut reports = PieceReports::new(alloc);
    let mut window = Vec::new(alloc);
    let mut number: usize = 0;
    'parts: for mut part in parts {
        let taken = take_part(
            alloc,
            &mut levels,
            &mut reports,
            &mut window,
            number,
            &mut part,
        );
        drop(part);
        if let Err(fault) = taken {
            return Err(GatherFault {
                part: number,
                fault,
            });
        }
        number += 1;
    }
    drop(window);
    if number == 0 {
        return Ok(Gathered {
            views: Views::new(alloc),
            reports,
        });
    }
    match levels.into_views(alloc) {
        Ok(views) => Ok(Gathered { views, reports }),
        Err(OutOfMemory) => Err(GatherFault {
            part: number - 1,
            fault: PartFault::OutOfMemory,
        }),
    }
}
