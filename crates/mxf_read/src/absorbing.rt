//! Noting the packets of a piece, of bytes at hand or from a reader.
ghost use Rattle.std.specs.Prelude.{◌≡◌, ◌≢◌, ◌+◌, ◌-◌, ◌<◌, ◌≤◌, ◌++◌, ℕ, List, [], drop, take, length, IfOk, IfErr};
ghost use Rattle.std.specs.Prelude.{IfSome, Ok, OnOk, OnErr};
ghost use Rattle.mxf_klv.specs.Note.{end_of, greatest_end, note_of};
ghost use Rattle.mxf_klv.specs.Parts.{NoteParts};
ghost use Rattle.mxf_klv.specs.PieceReading.{heads_at, notes_in, packets_in, stop_in};
ghost use Rattle.mxf_catalogue.specs.Content.{IsContent, reduced_union, reduced_with};
ghost use Rattle.mxf_catalogue.specs.Disputes.{AreApart};
ghost use Rattle.mxf_catalogue.specs.History.{History, Absorb, Cut, content};
ghost use Rattle.mxf_read.specs.Absorbs.{Absorbs, AbsorbsFrom, AddsFirst, Finishes, GoesOnAt, first_notes_in};
ghost use Rattle.mxf_read.specs.Absorbs.{history_with};
ghost use Rattle.mxf_read.specs.Feeding.{Fed};
ghost use Rattle.mxf_read.specs.Scanned.{IsScanned};
ghost use Rattle.mxf_skim.specs.declared.scan.Scan.{Scan};
ghost use Rattle.mxf_skim.specs.declared.scan.Scan.TheVariants.{Full};
ghost use Rattle.mxf_read.specs.Reads.{Takes};
ghost use Rattle.mxf_read.specs.declared.report.AbsorbFault.TheVariants as faults;

use crate::piece::Piece;
use crate::reading::{Cause, read_all};
use crate::report::{AbsorbFault, Report};
use crate::ticks::ReadTicks;
use mxf_catalogue::Catalogue;
use mxf_klv::{Note, OutOfMemory, Packet, cut_head, next_packet};
use mxf_views::Views;
use std::alloc::Global;
use std::io::Read;

/// Notes the packets of a piece, the first byte of which lies at a file offset, in bytes.
///
/// Packet after packet is noted, up to the first place where none stands whole or one would end above
/// [`MAX`](mxf_klv::MAX): the report's stop says why and where. A packet that the views hold already is counted too.
///
/// If the piece ends after a whole key and length and inside the value, the head of that packet is noted as well. It is
/// no packet: the report's count is without it, and its place is the stop's.
///
/// The piece's own catalogue is made first and then moved into the views at once. So pieces may come in any order:
/// beside its own packets a piece costs one pass over the held notes, and none if it follows all of them.
///
/// The only fault is out of memory. Then the notes of the packets that it counts were added, and nothing else. If the
/// head alone found no room, all packets are counted, and the fault's place is the head's.
pub fn absorb(
    alloc: Global,
    views: &mut Views,
    offset: u64,
    bytes: &[u8],
) -> Result<Report, AbsorbFault>
    ensures absorbs { Absorbs views.old views.new offset bytes.now result }
    ensures history { (h : History) → views.old ≡ content h
        → views.new ≡ content (history_with h offset bytes.now result) }
{
    let mut piece = Catalogue::new(alloc);
    let absorbed = note_packets(alloc, &mut piece, offset, bytes);
    merge_notes(views, offset, piece)?;
    absorbed
}

/// The notes of a piece, and what is reported of it. After a fault the notes are those that it counts.
#[derive(Drop)]
pub struct PieceNotes {
    pub notes: Catalogue,
    pub outcome: Result<Report, AbsorbFault>,
}

/// The notes of the packets of a piece that a reader gives, the first byte of which lies at a file offset, in bytes, in
/// a catalogue of their own.
///
/// At most `limit` bytes are taken, and those are noted as [`absorb`] does, however they come.
/// [`Stop::End`](mxf_klv::Stop) and [`Stop::Truncated`](mxf_klv::Stop) come only if the reader has ended or `limit`
/// bytes were taken; after any other stop nothing is read. It holds 65,536 bytes of the reader and one value that is
/// kept; another is digested as it passes.
///
/// Each read that it asks for is counted in `ticks`. An interrupted read is repeated, 1,024 times at most. If a read
/// fails, the packets that are whole among the bytes taken were noted, and no head. Out of memory, the notes are those
/// of the packets that the fault counts.
pub fn notes_from<R: Read>(
    alloc: Global,
    offset: u64,
    from: &mut R,
    limit: u64,
    ticks: &mut ReadTicks,
) -> PieceNotes
    ensures reads { ticks.new.count ≤ ticks.old.count + limit + 1026 }
    ensures counts { ticks.old.count ≤ ticks.new.count }
    ensures taken { AbsorbsFrom [] result.notes (R.remaining from.old)
        (R.remaining from.new) offset limit result.outcome }

    // The same by the stream, however its bytes came.
    ensures stream { IfOk result.outcome (λ report. IfSome (R.remaining from.old) (λ all.
        Absorbs [] result.notes offset (take limit all) (Ok report))) }
{
    let mut piece = Piece::new(alloc, offset);
    let outcome = fill(&mut piece, from, limit, ticks);
    PieceNotes {
        notes: piece.into_notes(),
        outcome,
    }
}

/// Notes the packets of a piece that a reader gives, the first byte of which lies at a file offset, in bytes.
///
/// The piece is read as [`notes_from`] does, and its notes are moved into the views at once, as those of [`absorb`]
/// are. If a read fails, the packets that are whole among the bytes taken were noted, and no head. Out of memory, the
/// notes of the packets that the fault counts were added, and nothing else.
pub fn absorb_from<R: Read>(
    alloc: Global,
    views: &mut Views,
    offset: u64,
    from: &mut R,
    limit: u64,
    ticks: &mut ReadTicks,
) -> Result<Report, AbsorbFault>
    ensures reads { ticks.new.count ≤ ticks.old.count + limit + 1026 }
    ensures counts { ticks.old.count ≤ ticks.new.count }
    ensures taken { AbsorbsFrom views.old views.new (R.remaining from.old) (R.remaining from.new) offset limit result }
    ensures history { (h : History) → views.old ≡ content h → (taken : List ℕ)
        × Takes (R.remaining from.old) (R.remaining from.new) limit taken
        × (views.new ≡ content (history_with h offset taken result)) }

    // The same by the stream, however its bytes came.
    ensures stream { IfOk result (λ report. IfSome (R.remaining from.old) (λ all.
        Absorbs views.old views.new offset (take limit all) (Ok report))) }
{
    let PieceNotes { notes, outcome } = notes_from(alloc, offset, from, limit, ticks);
    merge_notes(views, offset, notes)?;
    outcome
}

/// Moves the notes of a piece at a file offset into the views. The only fault is out of memory, at the piece's offset,
/// and only if it has notes; then none was added.
fn merge_notes(views: &mut Views, offset: u64, notes: Catalogue) -> Result<(), AbsorbFault>
    ensures merged { OnOk result (views.new ≡ reduced_union views.old notes) }
    ensures err { OnErr result (views.new ≡ views.old) }
    ensures some { OnErr result (notes ≢ []) }
    ensures fault { IfErr result (λ fault. fault ≡ faults.OutOfMemory 0 offset) }
{
    if notes.is_empty() {
        return Ok(());
    }
    match views.merge(notes) {
        Ok(()) => Ok(()),
        Err(_) => Err(AbsorbFault::OutOfMemory {
            noted: 0,
            at: offset,
        }),
    }
}

/// Feeds the piece from the reader, and says what was noted of it.
fn fill<R: Read>(
    piece: &mut Piece,
    from: &mut R,
    limit: u64,
    ticks: &mut ReadTicks,
) -> Result<Report, AbsorbFault>
    requires { (o : ℕ) × Fed Full o [] piece.old }
    ensures reads { ticks.new.count ≤ ticks.old.count + limit + 1026 }
    ensures counts { ticks.old.count ≤ ticks.new.count }
    ensures taken { (o : ℕ) → Fed Full o [] piece.old
        → AbsorbsFrom [] piece.new.notes (R.remaining from.old) (R.remaining from.new) o limit result }
{
    match read_all(piece, from, limit, ticks) {
        Ok(()) => finish(piece),
        Err(Cause::OutOfMemory) => Err(AbsorbFault::OutOfMemory {
            noted: piece.noted(),
            at: piece.at(),
        }),
        Err(Cause::ReadFault) => Err(AbsorbFault::ReadFault {
            noted: piece.noted(),
            at: piece.at(),
        }),
    }
}

/// Says what was noted of the piece, to which no more bytes come, and adds the head of the packet that its end cuts.
pub(crate) fn finish(piece: &mut Piece) -> Result<Report, AbsorbFault>
    ensures read { (o : ℕ) (m : List ℕ) → Fed Full o m piece.old → Finishes o m piece.new.notes result }
    ensures scanned { (scan : Scan) (o : ℕ) (m : List ℕ) → Fed scan o m piece.old
        → IfOk result (IsScanned scan o m piece.new.notes) }
{
    let report = piece.report();
    match piece.add_head() {
        Ok(()) => Ok(report),
        Err(OutOfMemory) => Err(AbsorbFault::OutOfMemory {
            noted: report.noted,
            at: piece.at(),
        }),
    }
}

/// Adds the notes of the packets of a piece to a catalogue, one after another, and then the head of the packet that the
/// piece's end cuts.
fn note_packets(
    alloc: Global,
    catalogue: &mut Catalogue,
    offset: u64,
    bytes: &[u8],
) -> Result<Report, AbsorbFault>
    ensures { Absorbs catalogue.old catalogue.new offset bytes.now result }
{
    let mut noted: u64 = 0;
    let mut at = offset;
    let mut rest = bytes;
    'packets: loop {
        match next_packet(at, rest) {
            Ok((packet, size)) => {
                let Ok(()) = note_packet(alloc, catalogue, at, &packet) else {
                    return Err(AbsorbFault::OutOfMemory { noted, at });
                };
                noted += 1;
                at += size as u64;
                let (_, after) = rest.split_at(size);
                rest = after;
            }
            Err(stop) => {
                return match note_head(catalogue, at, rest) {
                    Ok(()) => Ok(Report { noted, stop }),
                    Err(OutOfMemory) => Err(AbsorbFault::OutOfMemory { noted, at }),
                };
            }
        }
    }
}

/// Adds the note of a packet at a file offset to a catalogue.
fn note_packet(
    alloc: Global,
    catalogue: &mut Catalogue,
    offset: u64,
    packet: &Packet<'_>,
) -> Result<(), OutOfMemory>
    requires { end_of (note_of offset packet.now) ≤ greatest_end }
    ensures noted { OnOk result (catalogue.new ≡ reduced_with (note_of offset packet.now) catalogue.old) }
    ensures err { OnErr result (catalogue.new ≡ catalogue.old) }
{
    let note = Note::within(alloc, offset, packet)?;
    match catalogue.add(note) {
        Ok(_) => Ok(()),
        Err(_) => Err(OutOfMemory),
    }
}

/// Adds the head of the packet at the front of a piece at a file offset to a catalogue, if key and length are whole and
/// the value is cut.
fn note_head(catalogue: &mut Catalogue, offset: u64, bytes: &[u8]) -> Result<(), OutOfMemory>
    ensures noted { OnOk result (catalogue.new ≡ reduced_union catalogue.old (heads_at offset bytes.now)) }
    ensures err { OnErr result (catalogue.new ≡ catalogue.old) }
    ensures some { OnErr result (heads_at offset bytes.now ≢ []) }
{
    if let Some(head) = cut_head(offset, bytes) {
        catalogue.add(head)?;
    }
    Ok(())
}

/// A law: the notes of a piece, those of its packets and the head of the one that its end cuts, stand in their order,
/// each begins at or after the end of the one before, and the first at or after the piece's offset.
pub fn packets_of_a_piece_stand_apart()
    ensures rising { (offset : ℕ) (bytes : List ℕ) → IsContent (notes_in offset bytes) }
    ensures apart { (offset : ℕ) (bytes : List ℕ) → AreApart offset (notes_in offset bytes) }
{}

/// A law of [`absorb`]: if a piece goes on at an offset after a number of packets, the rest of it from there on is a
/// piece that has the other packets, the same head and the same stop. So what a refused call counts and a call with the
/// rest complete the piece.
pub fn going_on_completes_a_piece()
    ensures within { (noted offset : ℕ) (bytes : List ℕ) (at : ℕ) → GoesOnAt noted offset bytes at
        → (offset ≤ at) × (at < offset + length bytes) }
    ensures notes { (noted offset : ℕ) (bytes : List ℕ) (at : ℕ) → GoesOnAt noted offset bytes at
        → notes_in offset bytes ≡ first_notes_in noted offset bytes ++ notes_in at (drop (at - offset) bytes) }
    ensures stop { (noted offset : ℕ) (bytes : List ℕ) (at : ℕ) → GoesOnAt noted offset bytes at
        → stop_in offset bytes ≡ stop_in at (drop (at - offset) bytes) }
    ensures content { (h : History) (noted offset : ℕ) (bytes : List ℕ) (at : ℕ) → GoesOnAt noted offset bytes at
        → content (Absorb (Cut h offset bytes noted) at (drop (at - offset) bytes)) ≡ content (Absorb h offset bytes) }
{}

/// A law of [`absorb_from`]: if it was refused, out of memory or by a read that failed, absorbing the piece from the
/// place that the fault gives leaves what absorbing the whole piece does, whatever bytes follow those that were taken.
/// Both together count as many packets, and the stop is the same.
pub fn going_on_after_a_fault_completes_a_piece()
    ensures from { (old new : List NoteParts) (offset : ℕ) (taken more : List ℕ) (noted at : ℕ)
        → AddsFirst old new offset taken noted at → offset ≤ at }
    ensures content { (old new : List NoteParts) (offset : ℕ) (taken more : List ℕ) (noted at : ℕ)
        → AddsFirst old new offset taken noted at
        → reduced_union new (notes_in at (drop (at - offset) (taken ++ more)))
        ≡ reduced_union old (notes_in offset (taken ++ more)) }
    ensures count { (old new : List NoteParts) (offset : ℕ) (taken more : List ℕ) (noted at : ℕ)
        → AddsFirst old new offset taken noted at
        → length (packets_in offset (taken ++ more))
        ≡ noted + length (packets_in at (drop (at - offset) (taken ++ more))) }
    ensures stop { (old new : List NoteParts) (offset : ℕ) (taken more : List ℕ) (noted at : ℕ)
        → AddsFirst old new offset taken noted at
        → stop_in offset (taken ++ more) ≡ stop_in at (drop (at - offset) (taken ++ more)) }
{}
