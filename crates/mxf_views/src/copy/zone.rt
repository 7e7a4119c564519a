//! The notes of a range of the file.
ghost use Rattle.std.specs.Prelude.{◌≡◌};
ghost use Rattle.mxf_catalogue.specs.Disputes.{AreApart, lies_in};
ghost use Rattle.mxf_views.specs.Copies.{is_fill_note, is_preface_note, is_set_note};
ghost use Rattle.mxf_views.specs.Spans.{sizes};

use mxf_catalogue::ClearNotes;
use mxf_klv::{Kind, Note};

/// What the packets of a range cover, in bytes, and how many Prefaces are among them.
#[derive(Clone, Copy)]
pub(crate) struct Counts {
    pub covered: u64,
    pub prefaces: usize,
}

/// Whether the packet lies wholly in the range.
pub(crate) fn lies_in(start: u64, bytes: u64, note: &Note) -> bool
    ensures { result ≡ lies_in start bytes note.now }
{
    start <= note.offset() && note.end() - start <= bytes
}

/// The bytes of the packets, which share none.
pub(crate) fn covered(notes: ClearNotes<'_>) -> u64
    requires { AreApart 0 notes }
    ensures { result ≡ sizes notes.entry }
{
    let mut covered = 0;
    for note in notes {
        covered += note.end() - note.offset();
    }
    covered
}

/// Whether the packet is a fill.
#[tactic(auto, unfolding(crate::specs::Copies::is_fill_note))]
pub(crate) fn is_fill(note: &Note) -> bool
    ensures { result ≡ is_fill_note note.now }
{
    note.kind() == Kind::Fill
}

/// Whether the packet is a Preface.
#[tactic(auto, unfolding(crate::specs::Copies::is_preface_note))]
pub fn is_preface(note: &Note) -> bool
    ensures { result ≡ is_preface_note note.now }
{
    note.kind() == Kind::Preface
}

/// Whether the packet is a header metadata set.
#[tactic(auto, unfolding(crate::specs::Copies::is_set_note))]
pub fn is_set(note: &Note) -> bool
    ensures { result ≡ is_set_note note.now }
{
    matches!(
        note.kind(),
        Kind::Preface
            | Kind::Identification
            | Kind::ContentStorage
            | Kind::MaterialPackage
            | Kind::SourcePackage
            | Kind::RawSet
    )
}
