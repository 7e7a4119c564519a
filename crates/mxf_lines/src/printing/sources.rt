//! Sources beside each other, and their lines.
ghost use Rattle.std.specs.Prelude.{◌≡◌, ◌+◌, ◌^◌, ◌<◌, IfOk, codes, length, map, string_bytes};
ghost use Rattle.mxf_klv.specs.Written.{Puts, Writes};
ghost use Rattle.mxf_forms.specs.Forms.{field};
ghost use Rattle.mxf_lines.specs.Printing.{Prints};
ghost use Rattle.mxf_lines.specs.SourceLines.{digest_value, disputed_line, disputed_lines, named_lines, source_line};
ghost use Rattle.mxf_lines.specs.SourceLines.{sources_line, sources_lines, sources_status};
ghost use Rattle.mxf_forms.specs.Writing.{with_field};

use super::AnswerFault;
use super::line::write_note_fields;
use super::lines::{Each, Line, Printer, Series, Then, print_with_status};
use mxf_catalogue::DisputedNotes;
use mxf_forms::{FieldWriter, Form, HexDigits};
use mxf_klv::{Held, Note};
use mxf_readings::{Readings, SourceCounts};
use sha2::{Digest, Sha256};
use std::alloc::{AllocError, Global};
use std::io::Write;

/// Prints in a form what each source holds, and which source has which disputed note, of sources that these words name.
/// The answer is 1 if a note is disputed, otherwise 0.
///
/// Out of memory, some whole lines have been written; after a write fault the first bytes, which it counts.
pub fn print_sources<W: Write>(
    alloc: Global,
    readings: &Readings<'_>,
    names: &[String],
    form: Form,
    writer: &mut W,
) -> Result<u8, AnswerFault>
    ensures lines { Prints form (Writes (W.contents writer.old) (W.contents writer.new)) result
        (sources_lines readings.now (map string_bytes names.now)) }
    ensures status { IfOk result (λ status. status ≡ sources_status readings.now) }
{
    let mut printer = Printer::new(alloc, form);
    let disputed = readings.all().disputed().count();
    let named = NamedSources {
        readings,
        names,
        number: 1,
    };
    let notes = DisputedSources {
        readings,
        left: readings.all().disputed(),
    };
    let last = SourcesLine {
        sources: readings.len(),
        notes: readings.all().len(),
        disputed,
    };
    let lines = Then(Each(named), Then(Each(notes), last));
    print_with_status(&mut printer, writer, lines, u8::from(disputed != 0))
}

/// A source: its number, what it holds, and the word that names it.
#[derive(Clone, Copy)]
struct SourceLine<'a> {
    number: usize,
    counts: SourceCounts,
    name: &'a str,
}

impl<'a> Line for SourceLine<'a> {
    ghost line = { λ l. source_line l.number l.counts l.name.now };

    #[tactic(auto, unfolding(crate::specs::SourceLines::source_line))]
    fn write_fields(&self, fields: &mut FieldWriter) -> Result<(), AllocError> {
        let counts = self.counts;
        fields.begin("source", "source")?;
        fields.number(" ", "source", self.number)?;
        fields.number(" notes ", "notes", counts.notes)?;
        fields.number(" alone ", "alone", counts.alone)?;
        fields.number(" disputed ", "disputed", counts.disputed)?;
        fields.word(" ", "word", self.name)?;
        fields.end("")
    }
}

/// The lines of the sources from a number on, by the words that name them.
#[derive(Drop)]
struct NamedSources<'a> {
    readings: &'a Readings<'a>,
    names: &'a [String],
    number: usize,

    ghost in_range: { number + length names.now < 2 ^ 64 },
}

impl<'a> Series for NamedSources<'a> {
    type Item = SourceLine<'a>;

    ghost lines_left = { λ s. named_lines s.number s.readings.now (map string_bytes s.names.now) };

    ghost left = { λ s. length s.names.now };

    fn next_item(&mut self) -> Option<SourceLine<'a>> {
        let (name, left) = self.names.split_first()?;
        let number = self.number;
        self.names = left;
        self.number += 1;
        Some(SourceLine {
            number,
            counts: self.readings.counts(number),
            name,
        })
    }
}

/// Writes the SHA-256 of the value of a note, or none of a head.
fn write_digest(fields: &mut FieldWriter, note: &Note) -> Result<(), AllocError>
    ensures { IfOk result (λ _. fields.new ≡ with_field (field (codes " ") (codes "digest") (digest_value note.now))
        fields.old) }
{
    match note.held() {
        Held::Whole(value) => fields.word(" ", "digest", HexDigits(&Sha256::digest(value))),
        Held::Digest(digest) => fields.word(" ", "digest", HexDigits(digest)),
        Held::Head => fields.absent(" ", "digest", "-"),
    }
}

/// A disputed note: what it says, the SHA-256 of its value, and the numbers of the sources that have it.
#[derive(Clone, Copy)]
struct DisputedLine<'a> {
    note: &'a Note,
    sources: &'a [usize],
}

impl<'a> Line for DisputedLine<'a> {
    ghost line = { λ l. disputed_line l.note.now l.sources.now };

    #[tactic(auto, unfolding(crate::specs::SourceLines::disputed_line))]
    fn write_fields(&self, fields: &mut FieldWriter) -> Result<(), AllocError> {
        fields.begin("disputed", "disputed")?;
        write_note_fields(fields, self.note)?;
        write_digest(fields, self.note)?;
        fields.numbers(" from ", "sources", self.sources)?;
        fields.end("")
    }
}

/// The lines of the disputed notes that are left, with their sources.
#[derive(Drop)]
struct DisputedSources<'a> {
    readings: &'a Readings<'a>,
    left: DisputedNotes<'a>,
}

impl<'a> Series for DisputedSources<'a> {
    type Item = DisputedLine<'a>;

    ghost lines_left = { λ s. disputed_lines s.readings.now s.left };

    ghost left = { λ s. length s.left };

    fn next_item(&mut self) -> Option<DisputedLine<'a>> {
        let note = self.left.next()?.note;
        Some(DisputedLine {
            note,
            sources: self.readings.sources_of(note),
        })
    }
}

/// How many sources there are, how many notes they have together, and how many of these are disputed.
#[derive(Clone, Copy)]
struct SourcesLine {
    sources: usize,
    notes: usize,
    disputed: usize,
}

impl Line for SourcesLine {
    ghost line = { λ l. sources_line l.sources l.notes l.disputed };

    #[tactic(auto, unfolding(crate::specs::SourceLines::sources_line))]
    fn write_fields(&self, fields: &mut FieldWriter) -> Result<(), AllocError> {
        fields.begin("sources", "sources")?;
        fields.number(" ", "sources", self.sources)?;
        fields.number(" notes ", "notes", self.notes)?;
        fields.number(" disputed ", "disputed", self.disputed)?;
        fields.end("")
    }
}
