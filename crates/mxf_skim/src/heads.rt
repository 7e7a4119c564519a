//! What is saved of packets that were passed over.
ghost use Rattle.std.specs.Prelude.{◌≡◌, IfOk};
ghost use Rattle.mxf_skim.specs.PassedOver.{is_passed_over};
ghost use Rattle.mxf_skim.specs.Saving.{saved_note, with_heads};

use crate::passed::is_passed_over;
use mxf_catalogue::Catalogue;
use mxf_klv::{Note, OutOfMemory};
use std::alloc::Global;

/// The notes with the heads of packets that were passed over in place of their notes: what is saved of a skim. They
/// take memory.
pub fn with_heads(alloc: Global, catalogue: &Catalogue) -> Result<Catalogue, OutOfMemory>
    ensures { IfOk result (λ c. c ≡ with_heads catalogue.now) }
{
    let mut saved = Catalogue::new(alloc);
    for note in catalogue.notes() {
        saved.add(saved_note(alloc, note)?)?;
    }
    Ok(saved)
}

/// What is saved of a note: the head of its packet, if that was passed over; otherwise an equal note.
fn saved_note(alloc: Global, note: &Note) -> Result<Note, OutOfMemory>
    ensures { IfOk result (λ n. n ≡ saved_note note.now) }
{
    if is_passed_over(note) {
        Ok(note.to_head())
    } else {
        note.clone_in(alloc)
    }
}
