//! Fragments that were looked up in recordings, and their lines.
ghost use Rattle.std.specs.Prelude.{◌≡◌, ◌+◌, ◌^◌, ◌<◌, ◌++◌, [], ◌∷◌, IfOk, count_by, length, map, string_bytes};
ghost use Rattle.mxf_klv.specs.Written.{Writes};
ghost use Rattle.mxf_find.specs.declared.ranking.Ranked.{Ranked};
ghost use Rattle.mxf_lines.specs.FindLines.{find_lines, find_status, found_line, found_lines, fragments_line, is_best};
ghost use Rattle.mxf_lines.specs.FindLines.{match_fields, is_found, recording_word, search_lines, searches_lines};
ghost use Rattle.mxf_lines.specs.FindLines.{unknown_line};
ghost use Rattle.std.specs.Fmt.{signed_decimal};
ghost use Rattle.mxf_forms.specs.Forms.{digits};
ghost use Rattle.mxf_lines.specs.Lines.{lines_where};
ghost use Rattle.mxf_lines.specs.Printing.{Prints};
ghost use Rattle.mxf_forms.specs.Writing.{with_field, with_fields};

use super::AnswerFault;
use super::lines::{Each, Line, Printer, Series, Then, print_with_status};
use mxf_find::{Match, Ranked, Ranking};
use mxf_forms::{FieldWriter, Form};
use std::alloc::{AllocError, Global};
use std::io::Write;
use std::marker::Model;

/// A fragment that was looked up: how many notes it has, and the recordings in which it lies best.
#[derive(Drop)]
pub struct Searched {
    pub notes: usize,
    pub ranking: Ranking,
}

impl Model for Searched {
    ghost use Rattle.mxf_lines.specs.FindLines.{SearchedParts};

    ghost Value = { SearchedParts };

    ghost view = { λ s. record { notes = s.notes; best = s.ranking } };
}

impl Searched {
    /// Whether it lies in one recording with all its notes, and in no other.
    fn is_found(&self) -> bool
        ensures { result ≡ is_found self.now }
    {
        is_best(self.notes, self.ranking.best())
    }
}

/// Prints in a form in which recordings fragments lie, of recordings that these words name: a line for each recording
/// of each fragment, or that the fragment is unknown, and the last. The answer is 0 if each fragment lies with all its
/// notes in one recording, and in no other, otherwise 1.
///
/// Out of memory, some whole lines have been written; after a write fault the first bytes, which it counts.
pub fn print_found<W: Write>(
    alloc: Global,
    fragments: &[Searched],
    names: &[String],
    form: Form,
    writer: &mut W,
) -> Result<u8, AnswerFault>
    ensures lines { Prints form (Writes (W.contents writer.old) (W.contents writer.new)) result
        (find_lines (map string_bytes names.now) fragments.now) }
    ensures status { IfOk result (λ status. status ≡ find_status fragments.now) }
{
    let mut printer = Printer::new(alloc, form);
    let found = fragments
        .iter()
        .filter(|searched| searched.is_found())
        .count();
    let searches = Searches {
        left: fragments,
        names,
        number: 1,
    };
    let last = FragmentsLine {
        fragments: fragments.len(),
        found,
    };
    let status = u8::from(found != fragments.len());
    print_with_status(&mut printer, writer, Then(Each(searches), last), status)
}

/// Whether all of so many notes agree with the first recording, and fewer with the second, if there is one.
fn is_best(notes: usize, best: &[Ranked]) -> bool
    ensures { result ≡ is_best notes best.now }
{
    let Some((first, others)) = best.split_first() else {
        return false;
    };
    match others.first() {
        Some(second) => first.found.agree == notes && second.found.agree < notes,
        None => first.found.agree == notes,
    }
}

/// The word of the recording with a number, from 1 on; none if there is none.
fn recording_word(names: &[String], recording: usize) -> &str
    ensures { result.now ≡ recording_word (map string_bytes names.now) recording }
{
    let Some(index) = recording.checked_sub(1) else {
        return "";
    };
    match names.get(index) {
        Some(name) => name,
        None => "",
    }
}

/// Writes the offset at which a fragment begins, in bytes.
fn write_offset(fields: &mut FieldWriter, offset: i128) -> Result<(), AllocError>
    ensures { IfOk result (λ _. fields.new ≡ with_field (digits " " "offset" (signed_decimal offset)) fields.old) }
{
    fields.number(" ", "offset", offset)
}

/// Writes where a fragment of so many notes begins, and what agrees.
fn write_match(fields: &mut FieldWriter, found: &Match, notes: usize) -> Result<(), AllocError>
    ensures { IfOk result (λ _. fields.new ≡ with_fields (match_fields notes found.now) fields.old) }
{
    write_offset(fields, found.offset)?;
    fields.number(" ", "packets", found.agree)?;
    fields.number(" of ", "all-packets", notes)?;
    fields.number(" heads ", "heads", found.heads)
}

/// A fragment in a recording: the numbers of both, where it begins there, what agrees, and the recording's word.
#[derive(Clone, Copy)]
struct FoundLine<'a> {
    fragment: usize,
    notes: usize,
    ranked: Ranked,
    name: &'a str,
}

impl<'a> Line for FoundLine<'a> {
    ghost line = { λ l. found_line l.fragment l.notes l.name.now l.ranked };

    #[tactic(auto, unfolding(crate::specs::FindLines::found_line))]
    fn write_fields(&self, fields: &mut FieldWriter) -> Result<(), AllocError> {
        fields.begin("found", "found")?;
        fields.number(" ", "fragment", self.fragment)?;
        fields.number(" ", "recording", self.ranked.recording)?;
        write_match(fields, &self.ranked.found, self.notes)?;
        fields.word(" ", "word", self.name)?;
        fields.end("")
    }
}

/// A fragment that no recording knows: its number, and how many notes it has.
#[derive(Clone, Copy)]
struct UnknownLine {
    fragment: usize,
    notes: usize,
}

impl Line for UnknownLine {
    ghost line = { λ l. unknown_line l.fragment l.notes };

    #[tactic(auto, unfolding(crate::specs::FindLines::unknown_line))]
    fn write_fields(&self, fields: &mut FieldWriter) -> Result<(), AllocError> {
        fields.begin("unknown", "unknown")?;
        fields.number(" ", "fragment", self.fragment)?;
        fields.number(" ", "packets", self.notes)?;
        fields.end("")
    }
}

/// The lines of the recordings that are left, in which a fragment lies.
#[derive(Drop)]
struct Places<'a> {
    fragment: usize,
    notes: usize,
    names: &'a [String],
    left: &'a [Ranked],
}

impl<'a> Series for Places<'a> {
    type Item = FoundLine<'a>;

    ghost lines_left = { λ s. found_lines (map string_bytes s.names.now) s.fragment s.notes s.left.now };

    ghost left = { λ s. length s.left.now };

    fn next_item(&mut self) -> Option<FoundLine<'a>> {
        let (ranked, left) = self.left.split_first()?;
        self.left = left;
        Some(FoundLine {
            fragment: self.fragment,
            notes: self.notes,
            ranked: *ranked,
            name: recording_word(self.names, ranked.recording),
        })
    }
}

/// The lines of the fragments from a number on.
#[derive(Drop)]
struct Searches<'a> {
    left: &'a [Searched],
    names: &'a [String],
    number: usize,

    ghost in_range: { number + length left.now < 2 ^ 64 },
}

impl<'a> Series for Searches<'a> {
    type Item = Then<Option<UnknownLine>, Each<Places<'a>>>;

    ghost lines_left = { λ s. searches_lines (map string_bytes s.names.now) s.number s.left.now };

    ghost left = { λ s. length s.left.now };

    fn next_item(&mut self) -> Option<Then<Option<UnknownLine>, Each<Places<'a>>>> {
        let (searched, left) = self.left.split_first()?;
        let fragment = self.number;
        self.left = left;
        self.number += 1;
        Some(lines_of(fragment, searched, self.names))
    }
}

/// The lines of a fragment with a number: one for each recording, or that it is unknown.
fn lines_of<'a>(
    fragment: usize,
    searched: &'a Searched,
    names: &'a [String],
) -> Then<Option<UnknownLine>, Each<Places<'a>>>
    ensures { lines_where (λ l. unknown_line l.fragment l.notes ∷ []) result.0
        ++ found_lines (map string_bytes result.1.0.names.now) result.1.0.fragment result.1.0.notes result.1.0.left.now
        ≡ search_lines (map string_bytes names.now) fragment searched.now }
{
    let notes = searched.notes;
    let left = searched.ranking.best();
    let unknown = if left.is_empty() {
        Some(UnknownLine { fragment, notes })
    } else {
        None
    };
    let places = Places {
        fragment,
        notes,
        names,
        left,
    };
    Then(unknown, Each(places))
}

/// How many fragments there are, and how many of them lie in one recording with all their notes.
#[derive(Clone, Copy)]
struct FragmentsLine {
    fragments: usize,
    found: usize,
}

impl Line for FragmentsLine {
    ghost line = { λ l. fragments_line l.fragments l.found };

    #[tactic(auto, unfolding(crate::specs::FindLines::fragments_line))]
    fn write_fields(&self, fields: &mut FieldWriter) -> Result<(), AllocError> {
        fields.begin("fragments", "fragments")?;
        fields.number(" ", "fragments", self.fragments)?;
        fields.number(" found ", "found", self.found)?;
        fields.end("")
    }
}
