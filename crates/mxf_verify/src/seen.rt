//! What sources said so far of the notes of a reference.
ghost use Rattle.std.specs.Prelude.{◌≡◌, ◌+◌, ◌≤◌, ◌⊎◌, ◌++◌, [], ℕ, IfOk, IsTrue, List, OnOk, length, map};
ghost use Rattle.mxf_klv.specs.Note.{greatest_end};
ghost use Rattle.mxf_klv.specs.Parts.{NoteParts};
ghost use Rattle.mxf_catalogue.specs.Content.{IsCatalogue};
ghost use Rattle.mxf_catalogue.specs.Covers.{IsCover};
ghost use Rattle.mxf_klv.specs.Rising.{In};
ghost use Rattle.mxf_catalogue.specs.declared.run.Run.{Run};
ghost use Rattle.mxf_verify.specs.Telling.{TellsOf, TellsSaved, notes_at};
ghost use Rattle.mxf_verify.specs.Verifications.{IsVerification, differing_in, parts_of};
ghost use Rattle.mxf_verify.specs.Verifying.{Bytes, Saved, Source};

use crate::note_set::NoteSet;
use crate::reference::Reference;
use crate::saved::SavedTold;
use crate::told::Told;
use crate::verification::Differing;
use mxf_catalogue::{Catalogue, Cover, Run};
use mxf_klv::{Note, OutOfMemory};
use std::alloc::Global;

/// What sources said so far of the notes of a reference.
#[derive(Drop)]
pub(crate) struct Seen<'a> {
    pub reference: Reference<'a>,
    /// The notes that are the same in some source.
    pub verified: NoteSet<'a>,
    /// The notes whose heads some catalogue has.
    pub headed: NoteSet<'a>,
    /// The notes that differ: source after source, and of each in their order.
    pub differing: Vec<Differing<'a>>,
    /// The ranges that sources of bytes are.
    pub ranges: Vec<Run>,
    /// What catalogues hold beside the reference.
    pub beside: Vec<Run>,
    /// Whether some source has a byte.
    pub came: bool,

    ghost ranges_within: { (r : Run) → In r ranges.items → r.end ≤ greatest_end },
    ghost beside_within: { (r : Run) → In r beside.items → r.end ≤ greatest_end },
}

impl<'a> Seen<'a> {
    ghost use Rattle.std.specs.Prelude.{◌≡◌, ◌↔◌, ◌+◌, ◌≤◌, [], ℕ, IfOk, IsTrue, List, OnOk, length};
    ghost use Rattle.mxf_klv.specs.Note.{greatest_end};
    ghost use Rattle.mxf_klv.specs.Parts.{NoteParts};
    ghost use Rattle.mxf_catalogue.specs.Content.{IsCatalogue};
    ghost use Rattle.mxf_verify.specs.Seen.{IsSeen, SeesNext};
    ghost use Rattle.mxf_verify.specs.Telling.{TellsOf, TellsSaved};
    ghost use Rattle.mxf_verify.specs.Verifying.{Bytes, Saved, Source};

    /// Nothing was said yet of the notes of a catalogue. It takes memory for each.
    pub(crate) fn of(alloc: Global, catalogue: &'a Catalogue) -> Result<Seen<'a>, OutOfMemory>
        ensures { IfOk result (IsSeen catalogue.now []) }
    {
        catalogue.laws();
        Ok(Seen {
            reference: Reference::of(alloc, catalogue)?,
            verified: NoteSet::new(alloc, catalogue.len()),
            headed: NoteSet::new(alloc, catalogue.len()),
            differing: Vec::new(alloc),
            ranges: Vec::new(alloc),
            beside: Vec::new(alloc),
            came: false,
        })
    }

    /// Takes what the source of a number says, whose bytes lie from `offset` up to `end`, as file offsets.
    pub(crate) fn take_bytes(
        &mut self,
        number: usize,
        offset: u64,
        end: u64,
        told: &Told<'a>,
    ) -> Result<(), OutOfMemory>
        requires { end ≤ greatest_end }
        ensures { OnOk result ((bytes : List ℕ) → TellsOf self.old.reference (Bytes offset bytes) told.now
            → end ≡ offset + length bytes → SeesNext number (Bytes offset bytes) self.old self.new) }
    {
        self.verified.add(&told.same)?;
        put_differing(&mut self.differing, number, &told.differing)?;
        self.ranges.push(Run { start: offset, end })?;
        self.came = self.came | (offset < end);
        Ok(())
    }

    /// Takes what the source of a number says, which is a catalogue, and whether that has no note.
    pub(crate) fn take_saved(
        &mut self,
        number: usize,
        is_empty: bool,
        saved: &SavedTold<'a>,
    ) -> Result<(), OutOfMemory>
        ensures { OnOk result ((notes : List NoteParts) → TellsSaved self.old.reference notes saved.now
            → (IsTrue is_empty ↔ (notes ≡ [])) → SeesNext number (Saved notes) self.old self.new) }
    {
        self.verified.add(&saved.told.same)?;
        self.headed.add(&saved.headed)?;
        put_differing(&mut self.differing, number, &saved.told.differing)?;
        put_runs(&mut self.beside, &saved.beside)?;
        self.came = self.came | !is_empty;
        Ok(())
    }
}

/// Puts notes that differ in the source of a number after others.
fn put_differing<'a>(
    differing: &mut Vec<Differing<'a>>,
    source: usize,
    notes: &[&'a Note],
) -> Result<(), OutOfMemory>
    ensures { OnOk result (parts_of differing.new.items
        ≡ parts_of differing.old.items ++ map (differing_in source) (notes_at notes.now)) }
{
    for note in notes {
        differing.push(Differing {
            source,
            note: *note,
        })?;
    }
    Ok(())
}

/// Puts the runs of a cover after others.
fn put_runs(runs: &mut Vec<Run>, cover: &Cover) -> Result<(), OutOfMemory>
    ensures runs { OnOk result (runs.new.items ≡ runs.old.items ++ cover.now) }

    // Even if it fails.
    ensures members { (r : Run) → In r runs.new.items → In r runs.old.items ⊎ In r cover.now }
    ensures cover { IsCover cover.now }
{
    for run in cover.runs() {
        runs.push(run)?;
    }
    Ok(())
}
