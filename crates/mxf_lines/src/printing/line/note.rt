//! The line of a note.
ghost use Rattle.std.specs.Prelude.{◌≡◌, [], ◌∷◌, IfOk, length, flat_map};
ghost use Rattle.mxf_klv.specs.Rising.{In};
ghost use Rattle.mxf_catalogue.specs.Disputes.{is_disputed};
ghost use Rattle.mxf_lines.specs.Lines.{note_fields, note_line, shown_by};
ghost use Rattle.mxf_skim.specs.declared.scan.Scan.{Scan};
ghost use Rattle.mxf_forms.specs.Writing.{with_fields};

use super::{AllocError, Line, Series};
use mxf_catalogue::{Catalogue, Notes};
use mxf_forms::FieldWriter;
use mxf_klv::Note;
use mxf_skim::{Scan, is_passed_over};
use std::marker::Model;

/// Writes what a note says: its offset in bytes, its kind, the width and value of its length, its key, and whether it
/// is a head.
pub fn write_note_fields(fields: &mut FieldWriter, note: &Note) -> Result<(), AllocError>
    ensures { IfOk result (λ _. fields.new ≡ with_fields (note_fields note.now) fields.old) }
{
    fields.number(" ", "offset", note.offset())?;
    fields.word(" ", "kind", note.kind())?;
    fields.number(" ", "width", note.width())?;
    fields.number(" ", "length", note.length())?;
    fields.label(" ", "key", &note.key().bytes())?;
    fields.flag(" head", "head", note.is_head())
}

/// Writes what a note says by a scan: by a skim a packet that was passed over is said to be a head.
fn write_shown(fields: &mut FieldWriter, scan: Scan, note: &Note) -> Result<(), AllocError>
    ensures { IfOk result (λ _. fields.new ≡ with_fields (note_fields (shown_by scan note.now)) fields.old) }
{
    match scan {
        Scan::Skim if is_passed_over(note) => write_note_fields(fields, &note.to_head()),
        Scan::Full | Scan::Skim => write_note_fields(fields, note),
    }
}

/// A note by a scan: what it says, whether it is disputed, and the offset after its last byte.
#[derive(Clone, Copy)]
pub struct NoteLine<'a> {
    note: &'a Note,
    scan: Scan,
    disputed: bool,
}

impl<'a> Line for NoteLine<'a> {
    ghost line = { λ l. note_line (shown_by l.scan l.note.now) l.disputed };

    #[tactic(auto, unfolding(crate::specs::Lines::note_line))]
    fn write_fields(&self, fields: &mut FieldWriter) -> Result<(), AllocError> {
        fields.begin("note", "note")?;
        write_shown(fields, self.scan, self.note)?;
        fields.flag(" disputed", "disputed", self.disputed)?;
        fields.number_member("end", self.note.end())?;
        fields.end("")
    }
}

/// The lines of the notes that are left, by a scan.
#[derive(Drop)]
pub struct NoteLines<'a> {
    catalogue: &'a Catalogue,
    left: Notes<'a>,
    scan: Scan,
}

impl<'a> Model for NoteLines<'a> {
    ghost use Rattle.std.specs.Prelude.{List};
    ghost use Rattle.mxf_klv.specs.Parts.{NoteParts};
    ghost use Rattle.mxf_klv.specs.Rising.{In};
    ghost use Rattle.mxf_skim.specs.declared.scan.Scan.{Scan};

    ghost Value = { List NoteParts × List NoteParts × Scan };

    ghost view = { λ s. (s.catalogue.now, s.left, s.scan) };

    // What is left are notes of the catalogue.
    ghost invariant = { λ s. (n : NoteParts) → In n s.left → In n s.catalogue.now };
}

impl<'a> NoteLines<'a> {
    /// The lines of all notes of a catalogue, by a scan.
    pub fn of(catalogue: &'a Catalogue, scan: Scan) -> NoteLines<'a>
        ensures { result ≡ (catalogue.now, catalogue.now, scan) }
    {
        NoteLines {
            catalogue,
            left: catalogue.notes(),
            scan,
        }
    }
}

impl<'a> Series for NoteLines<'a> {
    type Item = NoteLine<'a>;

    ghost lines_left = { λ s. flat_map (λ n. note_line (shown_by s.2 n) (is_disputed n s.0) ∷ []) s.1 };

    ghost left = { λ s. length s.1 };

    fn next_item(&mut self) -> Option<NoteLine<'a>> {
        let note = self.left.next()?;
        let disputed = is_disputed(self.catalogue, note);
        Some(NoteLine {
            note,
            scan: self.scan,
            disputed,
        })
    }
}

/// Whether the note of the catalogue is disputed.
fn is_disputed(catalogue: &Catalogue, note: &Note) -> bool
    requires { In note.now catalogue.now }
    ensures { result ≡ is_disputed note.now catalogue.now }
{
    catalogue.disputes(note)
}
