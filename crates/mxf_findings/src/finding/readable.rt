//! Packets that should be readable and aren't.
ghost use Rattle.std.specs.Prelude.{◌≡◌};
ghost use Rattle.mxf_findings.specs.Findings.{is_unreadable_segment, is_unreadable_set};

use mxf_klv::{Kind, Note};
use mxf_references::is_unreadable;
use mxf_views::is_set;

/// Whether the note is a primer pack, a metadata set or a raw set that isn't readable.
#[tactic(auto, unfolding(crate::specs::Findings::is_unreadable_set, mxf_views::specs::Copies::is_set_note))]
pub(super) fn is_unreadable_set(note: &Note) -> bool
    ensures { result ≡ is_unreadable_set note.now }
{
    (note.kind() == Kind::Primer || is_set(note)) && is_unreadable(note)
}

/// Whether the note is an index table segment that isn't readable.
#[tactic(auto, unfolding(crate::specs::Findings::is_unreadable_segment))]
pub(super) fn is_unreadable_segment(note: &Note) -> bool
    ensures { result ≡ is_unreadable_segment note.now }
{
    note.kind() == Kind::Segment && is_unreadable(note)
}
