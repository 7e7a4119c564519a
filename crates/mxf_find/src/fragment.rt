//! A fragment, and what it has in common with a recording.
ghost use Rattle.std.specs.Prelude.{◌≡◌, ◌↔◌, ◌≤◌, ◌++◌, [], IfOk, OnOk, IsTrue, flat_map, length, map};
ghost use Rattle.mxf_klv.specs.Note.{greatest_end};
ghost use Rattle.mxf_klv.specs.Parts.{NoteParts};
ghost use Rattle.mxf_find.specs.Votes.{FragmentParts, place, shift, teller_in, votes, votes_by};

use crate::recording::{Recording, Tells};
use mxf_catalogue::Catalogue;
use mxf_klv::{MAX, Note, OutOfMemory};
use std::alloc::Global;
use std::marker::Model;

/// A note of a fragment, and by what it tells.
#[derive(Drop)]
pub(crate) struct Teller<'a> {
    note: &'a Note,
    tells: Tells,
}

impl<'a> Model for Teller<'a> {
    ghost use Rattle.mxf_find.specs.Votes.{TellerParts};

    ghost Value = { TellerParts };

    ghost view = { λ t. record { note = t.note.now; tells = t.tells } };
}

/// What is held of bytes whose recording is looked for: a content, and the offset at which its bytes begin.
#[derive(Drop)]
pub struct Fragment<'a> {
    content: &'a Catalogue,
    offset: u64,
    tellers: Vec<Teller<'a>>,
}

impl<'a> Model for Fragment<'a> {
    ghost use Rattle.std.specs.Prelude.{◌≡◌, map};
    ghost use Rattle.mxf_find.specs.Votes.{FragmentParts, teller_in};

    ghost Value = { FragmentParts };

    ghost view = { λ f. record { notes = f.content.now; offset = f.offset } };

    ghost invariant = { λ f. f.tellers.items ≡ map (teller_in f.content.now) f.content.now };
}

impl<'a> Fragment<'a> {
    /// The fragment of this content that begins at a file offset, in bytes; at 0 for a catalogue. It takes memory, and
    /// n log n of its notes.
    pub fn of(
        alloc: Global,
        content: &'a Catalogue,
        offset: u64,
    ) -> Result<Fragment<'a>, OutOfMemory>
        ensures { IfOk result (λ f. f ≡ record { notes = content.now; offset = offset }) }
    {
        let tellers = tellers_of(alloc, content)?;
        Ok(Fragment {
            content,
            offset,
            tellers,
        })
    }

    /// The number of its notes.
    pub fn len(&self) -> usize
        ensures { result ≡ length self.now.notes }
    {
        self.content.len()
    }

    /// Whether it has no note.
    pub fn is_empty(&self) -> bool
        ensures { IsTrue result ↔ (self.now.notes ≡ []) }
    {
        self.content.is_empty()
    }

    /// Its votes in a recording. They take memory.
    pub(crate) fn votes(
        &self,
        alloc: Global,
        recording: &Recording<'_>,
    ) -> Result<Vec<u64>, OutOfMemory>
        ensures { IfOk result (λ v. v.items ≡ votes self.now recording.now) }
    {
        let mut votes = Vec::new(alloc);
        self.push_votes(&mut votes, &self.tellers, recording)?;
        Ok(votes)
    }

    /// Adds the votes of some of its notes.
    fn push_votes(
        &self,
        votes: &mut Vec<u64>,
        tellers: &[Teller<'_>],
        recording: &Recording<'_>,
    ) -> Result<(), OutOfMemory>
        ensures { OnOk result (votes.new.items
            ≡ votes.old.items ++ flat_map (votes_by self.now recording.now) tellers.now) }
    {
        for teller in tellers {
            self.push_vote(votes, teller, recording)?;
        }
        Ok(())
    }

    /// Adds the vote of one of its notes, if it has one.
    fn push_vote(
        &self,
        votes: &mut Vec<u64>,
        teller: &Teller<'_>,
        recording: &Recording<'_>,
    ) -> Result<(), OutOfMemory>
        ensures { OnOk result (votes.new.items ≡ votes.old.items ++ votes_by self.now recording.now teller.now) }
    {
        let Some(other) = recording.voted(teller.note, teller.tells) else {
            return Ok(());
        };
        votes.push(self.shift(teller.note, other))?;
        Ok(())
    }

    /// How far on a note of a recording lies than one of the fragment does: its offset less the place of the other, and
    /// [`MAX`] more.
    fn shift(&self, note: &Note, other: &Note) -> u64
        ensures { result ≡ shift self.now note.now other.now }
    {
        other.offset() + (MAX - self.place(note))
    }

    /// What it holds.
    pub(crate) fn content(&self) -> &'a Catalogue
        ensures { result.now ≡ self.now.notes }
    {
        self.content
    }

    /// The place of a note: its offset less the fragment's.
    pub(crate) fn place(&self, note: &Note) -> u64
        ensures place { result ≡ place self.now note.now }
        ensures bound { result ≤ greatest_end }
    {
        note.offset().saturating_sub(self.offset)
    }
}

/// The notes of a content in their order, each with that by which it tells.
fn tellers_of<'a>(alloc: Global, content: &'a Catalogue) -> Result<Vec<Teller<'a>>, OutOfMemory>
    ensures { IfOk result (λ v. v.items ≡ map (teller_in content.now) content.now) }
{
    let recording = Recording::of(alloc, content)?;
    let mut tellers = Vec::new(alloc);
    for note in content.notes() {
        let tells = recording.tells(note);
        tellers.push(Teller { note, tells })?;
    }
    Ok(tellers)
}
