//! A reference beside sources, and its lines.
ghost use Rattle.std.specs.Prelude.{◌≡◌, ◌↔◌, ◌≤◌, [], ◌∷◌, ℕ, IfOk, List, None, Option, Some, codes, false, flat_map};
ghost use Rattle.std.specs.Prelude.{length, map, true};
ghost use Rattle.std.specs.List.{list_all};
ghost use Rattle.mxf_klv.specs.Bytes.{AreBytes};
ghost use Rattle.mxf_klv.specs.Note.{greatest_end};
ghost use Rattle.mxf_klv.specs.Parts.{NoteParts};
ghost use Rattle.mxf_klv.specs.PieceReading.{notes_in, stop_in};
ghost use Rattle.mxf_klv.specs.Written.{Writes};
ghost use Rattle.mxf_klv.specs.declared.piece.Stop.TheVariants as stops;
ghost use Rattle.mxf_units.specs.Units.{UnitsParts};
ghost use Rattle.mxf_verify.specs.Fixities.{AreVerifiedUnits, VerifiedUnitsParts};
ghost use Rattle.mxf_verify.specs.VerificationLaws.{IsWholeReference};
ghost use Rattle.mxf_verify.specs.Verifications.{IsVerification, VerificationParts, differing_in};
ghost use Rattle.mxf_verify.specs.Verifying.{Bytes, Source};
ghost use Rattle.mxf_lines.specs.Printing.{Prints};
ghost use Rattle.mxf_lines.specs.VerificationLines.{cut_line, cut_lines, differing_lines, differs_line, ends_fields};
ghost use Rattle.mxf_lines.specs.VerificationLines.{has_none};
ghost use Rattle.mxf_lines.specs.VerificationLines.{is_all_verified, is_noted, lent_units, other_fields, range_line};
ghost use Rattle.mxf_lines.specs.VerificationLines.{range_lines, runs_of, span_fields, touched_fields};
ghost use Rattle.mxf_lines.specs.VerificationLines.{unit_count_fields, unit_run_line, verification_lines};
ghost use Rattle.mxf_lines.specs.VerificationLines.{verification_status, verified_fields, verified_line};
ghost use Rattle.mxf_lines.specs.VerifiedStatus.{AreAllVerified, AreNoted, IsAllKnown, IsAsItSays};
ghost use Rattle.mxf_forms.specs.Writing.{with_fields};

use super::AnswerFault;
use super::check::StopLines;
use super::line::{write_note_fields, write_word_or};
use super::lines::{Each, Line, Lines, Printer, Series, Then, print_with_status, take_first};
use mxf_catalogue::{Cover, CoverRuns, Run};
use mxf_forms::{FieldWriter, Form};
use mxf_klv::{Note, Stop};
use mxf_read::PieceReport;
use mxf_timed::ShownTimecodes;
use mxf_verify::{
    CutNote, Differing, UnitRun, UnitSpan, Verification, VerifiedCounts, VerifiedUnits,
};
use std::alloc::{AllocError, Global};
use std::io::Write;

/// What is printed of a reference beside sources.
#[derive(Clone, Copy)]
pub struct Verified<'v, 'a, 'c> {
    /// What was noted of each piece of the reference.
    pub reports: &'v [PieceReport],
    pub verification: &'v Verification<'a>,
    /// The edit units of the reference that are asked for, if some are.
    pub units: Option<&'v VerifiedUnits>,
    /// Which timecodes these show, if that is told.
    pub shown: &'v Option<ShownTimecodes<'c>>,
    /// Whether all is to be verified: these units; or without units all bytes of the reference, and the sources are to
    /// have no other.
    pub is_whole: bool,
}

/// Prints in a form the pieces of a reference that don't end with a packet, its notes that differ and that weren't
/// compared, what it says nothing of, what of it wasn't verified, the units that are asked for, and how much was
/// verified.
///
/// The answer is 0 if nothing differs, some note is the same, each piece ends with a packet or with one that is cut,
/// and, if all is to be verified, that was; otherwise it is 1.
///
/// Out of memory, some whole lines have been written; after a write fault the first bytes, which it counts.
pub fn print_verification<W: Write>(
    alloc: Global,
    verified: &Verified<'_, '_, '_>,
    form: Form,
    writer: &mut W,
) -> Result<u8, AnswerFault>
    ensures lines { Prints form (Writes (W.contents writer.old) (W.contents writer.new)) result
        (verification_lines verified.now.reports.now verified.now.verification.now (lent_units verified.now.units)
        verified.now.shown.now) }
    ensures status { IfOk result (λ status. status
        ≡ verification_status verified.now.reports.now verified.now.verification.now (lent_units verified.now.units)
        verified.now.is_whole) }
{
    let mut printer = Printer::new(alloc, form);
    print_with_status(&mut printer, writer, *verified, verified.status())
}

/// A law of [`print_verification`]: its answer is 0 exactly if the pieces of the reference were noted up to their ends,
/// some note of it is the same in a source, and none differs in one; and if all is to be verified, no byte is
/// unverified or unknown, or each of the units that are asked for is verified.
pub fn verified_status_by_definition()
    ensures known { (reports : List PieceReport) (reference : List NoteParts) (sources : List Source)
        (v : VerificationParts) (units : Option VerifiedUnitsParts) → IsVerification reference sources v
        → (verification_status reports v units false ≡ 0) ↔ IsAsItSays reports reference sources }
    ensures whole { (reports : List PieceReport) (reference : List NoteParts) (sources : List Source)
        (v : VerificationParts) → IsVerification reference sources v → (verification_status reports v None true ≡ 0)
        ↔ (IsAsItSays reports reference sources × IsAllKnown reference sources) }
    ensures units { (reports : List PieceReport) (reference : List NoteParts) (sources : List Source)
        (v : VerificationParts) (asked : UnitsParts) (from to : ℕ) (units : VerifiedUnitsParts)
        → IsVerification reference sources v → AreVerifiedUnits v.verified v.altered asked from to units
        → (verification_status reports v (Some units) true ≡ 0)
        ↔ (IsAsItSays reports reference sources × AreAllVerified units.runs) }
{}

/// A law of [`print_verification`]: of all packets of a file, from its first byte on, clear and without a gap, the
/// answer is 0 beside the bytes of one source at 0, if all is to be verified, exactly if the source's packets are those
/// and it ends with the last. The pieces of the reference were noted up to their ends.
pub fn whole_status_by_packets()
    ensures { (reports : List PieceReport) (reference : List NoteParts) (bytes : List ℕ) (v : VerificationParts)
        → AreNoted reports → IsWholeReference reference → AreBytes bytes → length bytes ≤ greatest_end
        → IsVerification reference (Bytes 0 bytes ∷ []) v → (verification_status reports v None true ≡ 0)
        ↔ ((notes_in 0 bytes ≡ reference) × (stop_in 0 bytes ≡ stops.End)) }
{}

/// The lines of a verification, in their order.
impl<'v, 'a, 'c> Lines for Verified<'v, 'a, 'c> {
    ghost lines = { λ v. verification_lines v.reports.now v.verification.now (lent_units v.units) v.shown.now };

    fn print_to<W: Write>(self, printer: &mut Printer, writer: &mut W) -> Result<(), AnswerFault> {
        let verification = self.verification;
        let last = VerifiedLine {
            counts: verification.counts(),
            units: self.units,
        };
        let runs = RunsLeft {
            left: runs_of(self.units),
            shown: self.shown,
        };
        let units = Then(Each(runs), last);
        let unverified = Then(
            Each(Ranges::of("unverified", verification.unverified())),
            units,
        );
        let unknown = Then(
            Each(Ranges::of("unknown", verification.unknown())),
            unverified,
        );
        let cut = Then(Each(CutLeft(verification.cut())), unknown);
        let differing = DifferingLeft {
            left: verification.differing(),
            units: self.units,
        };
        Then(Each(StopLines(self.reports)), Then(Each(differing), cut)).print_to(printer, writer)
    }
}

impl<'v, 'a, 'c> Verified<'v, 'a, 'c> {
    /// 0 if all is well, otherwise 1.
    fn status(&self) -> u8
        ensures { result
            ≡ verification_status self.now.reports.now self.now.verification.now (lent_units self.now.units)
            self.now.is_whole }
    {
        let counts = self.verification.counts();
        let is_good = are_noted(self.reports)
            && counts.differs == 0
            && counts.packets != 0
            && (!self.is_whole || self.is_all_verified());
        u8::from(!is_good)
    }

    /// Whether all was verified that can be asked for.
    fn is_all_verified(&self) -> bool
        ensures { result ≡ is_all_verified self.now.verification.now (lent_units self.now.units) }
    {
        match self.units {
            Some(units) => units.verified() == units.count(),
            None => {
                has_none(self.verification.unverified()) && has_none(self.verification.unknown())
            }
        }
    }
}

/// Whether the pieces were noted up to their ends.
fn are_noted(reports: &[PieceReport]) -> bool
    ensures { result ≡ list_all (λ r. is_noted r.report.stop) reports.now }
{
    reports.iter().all(|piece| is_noted(piece.report.stop))
}

/// Whether a piece that stops so was noted up to its end.
fn is_noted(stop: Stop) -> bool
    ensures { result ≡ is_noted stop }
{
    matches!(stop, Stop::End | Stop::Truncated(_))
}

/// Whether no offset lies in the cover.
fn has_none(cover: &Cover) -> bool
    ensures { result ≡ has_none cover.now }
{
    cover.runs().next().is_none()
}

/// The runs of the units, none if no units are asked for.
fn runs_of<'a>(units: Option<&'a VerifiedUnits>) -> &'a [UnitRun]
    ensures { result.now ≡ runs_of (lent_units units.entry) }
{
    match units {
        Some(units) => units.runs(),
        None => &[],
    }
}

/// A note that differs: the source, what the note says, and if units are asked for, those that it has a byte of.
#[derive(Clone, Copy)]
struct DiffersLine<'v, 'a> {
    differing: Differing<'a>,
    units: Option<&'v VerifiedUnits>,
}

impl<'v, 'a> Line for DiffersLine<'v, 'a> {
    ghost line = { λ l. differs_line (lent_units l.units) l.differing.source l.differing.note.now };

    #[tactic(auto, unfolding(crate::specs::VerificationLines::differs_line))]
    fn write_fields(&self, fields: &mut FieldWriter) -> Result<(), AllocError> {
        let Differing { source, note } = self.differing;
        fields.begin("differs", "differs")?;
        fields.number(" ", "source", source)?;
        write_note_fields(fields, note)?;
        write_touched(fields, self.units, note)?;
        fields.end("")
    }
}

/// Writes if units are asked for the first and the last that a note has a byte of.
fn write_touched(
    fields: &mut FieldWriter,
    units: Option<&VerifiedUnits>,
    note: &Note,
) -> Result<(), AllocError>
    ensures { IfOk result (λ _. fields.new ≡ with_fields (touched_fields (lent_units units.entry) note.now) fields.old) }
{
    match units {
        Some(units) => write_span(fields, units.units_of(note)),
        None => Ok(()),
    }
}

/// Writes the first and the last unit of a span.
fn write_span(fields: &mut FieldWriter, span: Option<UnitSpan>) -> Result<(), AllocError>
    ensures { IfOk result (λ _. fields.new ≡ with_fields (span_fields span) fields.old) }
{
    let first = span.map(|span| span.first);
    let last = span.map(|span| span.last);
    fields.known(" units ", "first", "-", first)?;
    fields.known(" ", "last", "-", last)
}

/// The lines of the notes that differ and are left.
#[derive(Drop)]
struct DifferingLeft<'v, 'a> {
    left: &'v [Differing<'a>],
    units: Option<&'v VerifiedUnits>,
}

impl<'v, 'a> Series for DifferingLeft<'v, 'a> {
    type Item = DiffersLine<'v, 'a>;

    ghost lines_left = { λ s. differing_lines (lent_units s.units)
        (map (λ d. differing_in d.source d.note.now) s.left.now) };

    ghost left = { λ s. length s.left.now };

    fn next_item(&mut self) -> Option<DiffersLine<'v, 'a>> {
        let differing = take_first(&mut self.left)?;
        Some(DiffersLine {
            differing,
            units: self.units,
        })
    }
}

/// A note that wasn't compared: what it says.
impl<'a> Line for CutNote<'a> {
    ghost line = { λ c. cut_line c.note.now };

    #[tactic(auto, unfolding(crate::specs::VerificationLines::cut_line))]
    fn write_fields(&self, fields: &mut FieldWriter) -> Result<(), AllocError> {
        fields.begin("cut", "cut")?;
        write_note_fields(fields, self.note)?;
        fields.end("")
    }
}

/// The lines of the notes that weren't compared and are left.
#[derive(Drop)]
struct CutLeft<'v, 'a>(&'v [CutNote<'a>]);

impl<'v, 'a> Series for CutLeft<'v, 'a> {
    type Item = CutNote<'a>;

    ghost lines_left = { λ s. cut_lines (map (λ c. c.note.now) s.0.now) };

    ghost left = { λ s. length s.0.now };

    fn next_item(&mut self) -> Option<CutNote<'a>> {
        take_first(&mut self.0)
    }
}

/// A range of a name: the offsets where it begins and ends, in bytes.
#[derive(Clone, Copy)]
struct RangeLine<'a> {
    name: &'a str,
    range: Run,
}

impl<'a> Line for RangeLine<'a> {
    ghost line = { λ l. range_line l.name.now l.range };

    #[tactic(auto, unfolding(crate::specs::VerificationLines::range_line))]
    fn write_fields(&self, fields: &mut FieldWriter) -> Result<(), AllocError> {
        fields.begin(self.name, self.name)?;
        fields.number(" ", "start", self.range.start)?;
        fields.number(" ", "end", self.range.end)?;
        fields.end("")
    }
}

/// The lines of the ranges that are left, which have one name.
#[derive(Drop)]
struct Ranges<'a> {
    name: &'a str,
    left: CoverRuns<'a>,
}

impl<'a> Ranges<'a> {
    /// The lines of the maximal ranges of a cover.
    fn of(name: &'a str, cover: &'a Cover) -> Ranges<'a>
        ensures name { result.name.now ≡ name.now }
        ensures left { result.left ≡ cover.now }
    {
        Ranges {
            name,
            left: cover.runs(),
        }
    }
}

impl<'a> Series for Ranges<'a> {
    type Item = RangeLine<'a>;

    ghost lines_left = { λ s. range_lines s.name.now s.left };

    ghost left = { λ s. length s.left };

    fn next_item(&mut self) -> Option<RangeLine<'a>> {
        let range = self.left.next()?;
        Some(RangeLine {
            name: self.name,
            range,
        })
    }
}

/// The lines of the runs of units that are left.
#[derive(Drop)]
struct RunsLeft<'v, 'c> {
    left: &'v [UnitRun],
    shown: &'v Option<ShownTimecodes<'c>>,
}

impl<'v, 'c> Series for RunsLeft<'v, 'c> {
    type Item = UnitRunLine<'v, 'c>;

    ghost lines_left = { λ s. flat_map (λ r. unit_run_line s.shown.now r ∷ []) s.left.now };

    ghost left = { λ s. length s.left.now };

    fn next_item(&mut self) -> Option<UnitRunLine<'v, 'c>> {
        let run = take_first(&mut self.left)?;
        Some(UnitRunLine {
            run,
            shown: self.shown,
        })
    }
}

/// Units that stand alike: the first, the last, how they stand, and between which timecodes lies what they show, if
/// that is told.
#[derive(Clone, Copy)]
struct UnitRunLine<'v, 'c> {
    run: UnitRun,
    shown: &'v Option<ShownTimecodes<'c>>,
}

impl<'v, 'c> Line for UnitRunLine<'v, 'c> {
    ghost line = { λ l. unit_run_line l.shown.now l.run };

    #[tactic(auto, unfolding(crate::specs::VerificationLines::unit_run_line))]
    fn write_fields(&self, fields: &mut FieldWriter) -> Result<(), AllocError> {
        let UnitRun {
            first,
            last,
            fixity,
        } = self.run;
        fields.begin("units", "units")?;
        fields.number(" ", "first", first)?;
        fields.number(" ", "last", last)?;
        fields.word(" ", "standing", fixity)?;
        write_ends(fields, self.shown, first, last)?;
        fields.end("")
    }
}

/// Writes the timecodes of the least and the greatest position that units show, if timecodes are told.
fn write_ends(
    fields: &mut FieldWriter,
    shown: &Option<ShownTimecodes<'_>>,
    first: u64,
    last: u64,
) -> Result<(), AllocError>
    ensures { IfOk result (λ _. fields.new ≡ with_fields (ends_fields shown.now first last) fields.old) }
{
    match shown {
        Some(shown) => {
            let ends = shown.within(first, last);
            write_word_or(fields, " at ", "first-at", ends.first)?;
            write_word_or(fields, " ", "last-at", ends.last)
        }
        None => Ok(()),
    }
}

/// How much was verified: of packets and bytes, what differs, what wasn't compared, and what the reference says nothing
/// of; and of the units that are asked for.
#[derive(Clone, Copy)]
struct VerifiedLine<'a> {
    counts: VerifiedCounts,
    units: Option<&'a VerifiedUnits>,
}

impl<'a> Line for VerifiedLine<'a> {
    ghost line = { λ l. verified_line l.counts (lent_units l.units) };

    #[tactic(auto, unfolding(crate::specs::VerificationLines::verified_line))]
    fn write_fields(&self, fields: &mut FieldWriter) -> Result<(), AllocError> {
        fields.begin("verified", "verified")?;
        write_verified(fields, self.counts)?;
        write_others(fields, self.counts)?;
        write_unit_counts(fields, self.units)?;
        fields.end("")
    }
}

/// Writes how many packets and bytes were verified, of how many.
fn write_verified(fields: &mut FieldWriter, counts: VerifiedCounts) -> Result<(), AllocError>
    ensures { IfOk result (λ _. fields.new ≡ with_fields (verified_fields counts) fields.old) }
{
    fields.number(" ", "packets", counts.packets)?;
    fields.number(" of ", "all-packets", counts.all_packets)?;
    fields.number(" packets ", "bytes", counts.bytes)?;
    fields.number(" of ", "all-bytes", counts.all_bytes)
}

/// Writes how many notes differ, how many weren't compared, and of how many bytes the reference says nothing.
fn write_others(fields: &mut FieldWriter, counts: VerifiedCounts) -> Result<(), AllocError>
    ensures { IfOk result (λ _. fields.new ≡ with_fields (other_fields counts) fields.old) }
{
    fields.number(" bytes differs ", "differs", counts.differs)?;
    fields.number(" cut ", "cut", counts.cut)?;
    fields.number(" unknown ", "unknown", counts.unknown)
}

/// Writes if units are asked for how many of them are verified, of how many.
fn write_unit_counts(
    fields: &mut FieldWriter,
    units: Option<&VerifiedUnits>,
) -> Result<(), AllocError>
    ensures { IfOk result (λ _. fields.new ≡ with_fields (unit_count_fields (lent_units units.entry)) fields.old) }
{
    match units {
        Some(units) => {
            fields.number(" units ", "units", units.verified())?;
            fields.number(" of ", "all-units", units.count())
        }
        None => Ok(()),
    }
}
