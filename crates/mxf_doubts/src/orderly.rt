//! Copies of the header metadata without any other packet between.
ghost use Rattle.std.specs.Prelude.{◌≡◌, Some};
ghost use Rattle.mxf_doubts.specs.Header.{is_orderly, is_orderly_from, is_orderly_note};

use mxf_klv::{Kind, Note};
use mxf_views::{CopyInfo, Views, is_set};

/// Whether the packet is a primer pack at the start of a copy, a set, a fill, or of no known kind.
fn is_orderly_note(start: u64, note: &Note) -> bool
    ensures { result ≡ is_orderly_note start note.now }
{
    is_set(note)
        || match note.kind() {
            Kind::Fill | Kind::Other => true,
            Kind::Primer => note.offset() == start,
            _ => false,
        }
}

/// Whether all packets of a zone are such.
fn are_orderly(views: &Views, start: u64, bytes: u64) -> bool
    ensures { result ≡ is_orderly_from views.now bytes (Some start) }
{
    for note in views.catalogue().clear_within(start, bytes) {
        if !is_orderly_note(start, note) {
            return false;
        }
    }
    true
}

/// Whether a copy is finished, and each packet in its zone is its primer, a set, a fill, or of no known kind.
#[tactic(auto, unfolding(crate::specs::Header::is_orderly))]
pub(crate) fn is_orderly(views: &Views, copy: &CopyInfo) -> bool
    ensures { result ≡ is_orderly views.now copy.now }
{
    match copy.start {
        Some(start) => copy.finished && are_orderly(views, start, copy.bytes),
        None => false,
    }
}
