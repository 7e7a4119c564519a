//! What the references of the preferred copy lead to.
ghost use Rattle.std.specs.Prelude.{◌≡◌, List, IfNone, IfOk, IfSome, OnOk};
ghost use Rattle.mxf_klv.specs.Parts.{NoteParts};
ghost use Rattle.mxf_klv.specs.Written.{Puts};
ghost use Rattle.mxf_lines.specs.Lines.{lines_where};
ghost use Rattle.mxf_lines.specs.Printing.{Prints};
ghost use Rattle.mxf_lines.specs.ReferenceLines.{AreRecordsIn, IsAmong, IsNotAmong, found_record, lines_of_record};
ghost use Rattle.mxf_lines.specs.ReferenceLines.{lines_of_reference, named_lines, owner_of, record_of, reference_line};
ghost use Rattle.mxf_lines.specs.ReferenceLines.{reference_lines, target_fields};
ghost use Rattle.mxf_forms.specs.Writing.{with_fields};
ghost use Rattle.mxf_lines.specs.declared.printing.line.record.Named.{Named};

use super::AnswerFault;
use super::line::{IdentificationLines, Named, Owner, PackageLines};
use super::lines::{Line, Lines, Printer, Then};
use mxf_catalogue::Catalogue;
use mxf_forms::FieldWriter;
use mxf_klv::{Kind, Note, OutOfMemory};
use mxf_references::{Ref, Resolved, Target};
use mxf_sets::{Identification, Package};
use std::alloc::{AllocError, Global};
use std::collections::BTreeMap;
use std::io::Write;

/// The lines of the references of the preferred copy, to identifications and then to packages; none without one.
#[derive(Clone, Copy)]
pub struct ReferenceLines<'a> {
    pub catalogue: &'a Catalogue,
    pub resolved: &'a Option<Resolved>,
}

impl<'a> Lines for ReferenceLines<'a> {
    ghost lines = { λ l. reference_lines l.catalogue.now l.resolved.now };

    fn print_to<W: Write>(self, printer: &mut Printer, writer: &mut W) -> Result<(), AnswerFault> {
        let catalogue = self.catalogue;
        let Some(resolved) = self.resolved else {
            return Ok(());
        };
        let identifications = NamedLines {
            catalogue,
            named: Named::Identification,
            references: resolved.identifications.as_slice(),
        };
        let packages = NamedLines {
            catalogue,
            named: Named::Package,
            references: resolved.packages.as_slice(),
        };
        Then(identifications, packages).print_to(printer, writer)
    }
}

/// Writes what a reference leads to, and at which offset in bytes.
fn write_target(fields: &mut FieldWriter, target: Target) -> Result<(), AllocError>
    ensures { IfOk result (λ _. fields.new ≡ with_fields (target_fields target) fields.old) }
{
    match target {
        Target::Missing => fields.word(" ", "target", "missing"),
        Target::Several => fields.word(" ", "target", "several"),
        Target::WrongKind(offset) => {
            fields.word(" ", "target", "wrong-kind")?;
            fields.number(" ", "offset", offset)
        }
        Target::Unreadable(offset) => {
            fields.word(" ", "target", "unreadable")?;
            fields.number(" ", "offset", offset)
        }
        Target::Found(offset) => {
            fields.word(" ", "target", "found")?;
            fields.number(" ", "offset", offset)
        }
    }
}

/// The line of a reference: what it names, its identifier, and what it leads to.
#[derive(Clone, Copy)]
struct ReferenceLine {
    named: Named,
    reference: Ref,
}

impl Line for ReferenceLine {
    ghost line = { λ l. reference_line l.named l.reference };

    #[tactic(auto, unfolding(crate::specs::ReferenceLines::reference_line))]
    fn write_fields(&self, fields: &mut FieldWriter) -> Result<(), AllocError> {
        let word = self.named.word();
        fields.begin(word, word)?;
        fields.word(" ", "uid", self.reference.uid)?;
        write_target(fields, self.reference.target)?;
        fields.end("")
    }
}

/// The lines of references that all name identifications, or all packages.
#[derive(Clone, Copy)]
struct NamedLines<'a> {
    catalogue: &'a Catalogue,
    named: Named,
    references: &'a [Ref],
}

impl<'a> Lines for NamedLines<'a> {
    ghost lines = { λ l. named_lines l.catalogue.now l.named l.references.now };

    fn print_to<W: Write>(self, printer: &mut Printer, writer: &mut W) -> Result<(), AnswerFault> {
        // Out of memory not all lines have been written: if there is none, no memory may be asked for.
        if self.references.is_empty() {
            return Ok(());
        }
        let records = records_of(printer.alloc(), self.catalogue, self.named, self.references)?;
        let mut left = self.references;
        'each: while let Some((reference, others)) = left.split_first() {
            self.print_reference(printer, writer, &records, *reference)?;
            left = others;
        }
        Ok(())
    }
}

impl<'a> NamedLines<'a> {
    /// Prints the line of a reference, and the lines of what it leads to: of its record among those that were read, or
    /// of the one that is read now.
    fn print_reference<W: Write>(
        self,
        printer: &mut Printer,
        writer: &mut W,
        records: &BTreeMap<u64, Option<Record<'a>>>,
        reference: Ref,
    ) -> Result<(), AnswerFault>
        requires { AreRecordsIn self.catalogue.now self.named records.now }
        ensures lines { Prints printer.old.fields.form
            (Puts W.contents writer.old writer.new printer.old.progress printer.new.progress)
            result (lines_of_reference self.entry.catalogue.now self.entry.named reference) }
        ensures form { OnOk result (printer.new.fields.form ≡ printer.old.fields.form) }
    {
        let named = self.named;
        let line = ReferenceLine { named, reference };
        let owner = owner_of(named, &reference);
        if let Some(found) = record_among(records, reference.target) {
            return Then(line, RecordLines(owner, found)).print_to(printer, writer);
        }
        let found = record_at(self.catalogue, named, reference.target);
        Then(line, RecordLines(owner, &found)).print_to(printer, writer)
    }
}

/// The set that a reference names.
fn owner_of(named: Named, reference: &Ref) -> Owner
    ensures { result ≡ owner_of named reference.now }
{
    Owner {
        named,
        uid: *reference.uid.as_bytes(),
    }
}

/// The record of a set that a reference names.
#[derive(Drop)]
enum Record<'a> {
    Identification(Identification<'a>),
    /// A package, and the kind of its set.
    Package(Kind, Package<'a>),
}

/// The lines of the record of a set, none without one.
#[derive(Clone, Copy)]
struct RecordLines<'r, 'a>(Owner, &'r Option<Record<'a>>);

impl<'r, 'a> Lines for RecordLines<'r, 'a> {
    ghost lines = { λ l. lines_where (lines_of_record l.0) l.1.now };

    fn print_to<W: Write>(self, printer: &mut Printer, writer: &mut W) -> Result<(), AnswerFault> {
        let RecordLines(owner, record) = self;
        match record {
            Some(Record::Identification(record)) => {
                IdentificationLines(owner, record).print_to(printer, writer)
            }
            Some(Record::Package(kind, record)) => {
                PackageLines(owner, *kind, record).print_to(printer, writer)
            }
            None => Ok(()),
        }
    }
}

/// The records of the sets that references lead to, by their offsets. Each is read once, however often and in whatever
/// order they are named.
fn records_of<'a>(
    alloc: Global,
    catalogue: &'a Catalogue,
    named: Named,
    references: &[Ref],
) -> Result<BTreeMap<u64, Option<Record<'a>>>, OutOfMemory>
    ensures { IfOk result (AreRecordsIn catalogue.now named) }
{
    let mut records = BTreeMap::new(alloc);
    for reference in references {
        add_record(&mut records, catalogue, named, reference.target)?;
    }
    Ok(records)
}

/// Adds the record of a set that was found, unless it is there.
fn add_record<'a>(
    records: &mut BTreeMap<u64, Option<Record<'a>>>,
    catalogue: &'a Catalogue,
    named: Named,
    target: Target,
) -> Result<(), OutOfMemory>
    ensures records { AreRecordsIn catalogue.now named records.old
        → OnOk result (AreRecordsIn catalogue.now named records.new) }
    ensures added { OnOk result (IsAmong records.new target) }
{
    if let Target::Found(offset) = target {
        if !records.contains_key(&offset) {
            records.insert(offset, record_at(catalogue, named, target))?;
        }
    }
    Ok(())
}

/// The record of a set that was found, if it is among these.
fn record_among<'r, 'a>(
    records: &'r BTreeMap<u64, Option<Record<'a>>>,
    target: Target,
) -> Option<&'r Option<Record<'a>>>
    ensures some { (content : List NoteParts) (named : Named) → AreRecordsIn content named records.now
        → IfSome result (λ found. found.now ≡ found_record content named target) }
    ensures none { IfNone result (IsNotAmong records.now target) }
{
    match target {
        Target::Found(offset) => records.get(&offset),
        _ => None,
    }
}

/// The record that was found: that of the clear note at its offset.
fn record_at<'a>(catalogue: &'a Catalogue, named: Named, target: Target) -> Option<Record<'a>>
    ensures { result ≡ found_record catalogue.now named target }
{
    let Target::Found(offset) = target else {
        return None;
    };
    record_in(named, catalogue.clear_at(offset)?)
}

/// The record of a note, if its value is kept and is such a one.
fn record_in<'a>(named: Named, note: &'a Note) -> Option<Record<'a>>
    ensures { result ≡ record_of named note.now }
{
    let value = note.value()?;
    match named {
        Named::Identification => Some(Record::Identification(Identification::read(value).ok()?)),
        Named::Package => Some(Record::Package(note.kind(), Package::read(value).ok()?)),
    }
}
