//! What is held together where some readings passed over what others read.
ghost use Rattle.std.specs.Prelude.{◌≡◌, ◌↔◌, ◌⊎◌, IfOk, OnOk, true, false};
ghost use Rattle.mxf_klv.specs.Note.{head_note};
ghost use Rattle.mxf_klv.specs.Parts.{NoteParts};
ghost use Rattle.mxf_catalogue.specs.Content.{has_note, reduced_with};
ghost use Rattle.mxf_skim.specs.PassedOver.{is_passed_over, was_read};
ghost use Rattle.mxf_skim.specs.Preferring.{AreHeadsRead, prefer_read};

use crate::passed::{is_of_container, is_passed_over};
use mxf_catalogue::Catalogue;
use mxf_klv::{Note, OutOfMemory};
use std::alloc::Global;

/// The notes without those of packets that were passed over, where another note of the same packet was read. They take
/// memory if there are such notes.
pub fn prefer_read(alloc: Global, catalogue: Catalogue) -> Result<Catalogue, OutOfMemory>
    ensures { IfOk result (λ c. c ≡ prefer_read catalogue) }
{
    let read = heads_read(alloc, &catalogue)?;
    if read.is_empty() {
        return Ok(catalogue);
    }
    without_outread(alloc, &catalogue, &read)
}

/// The notes without those of packets that were passed over and whose heads are among these.
fn without_outread(
    alloc: Global,
    catalogue: &Catalogue,
    read: &Catalogue,
) -> Result<Catalogue, OutOfMemory>
    requires { AreHeadsRead catalogue.now read.now }
    ensures { IfOk result (λ c. c ≡ prefer_read catalogue.now) }
{
    let mut kept = Catalogue::new(alloc);
    for note in catalogue.notes() {
        keep_unless_read(alloc, &mut kept, note, read)?;
    }
    Ok(kept)
}

/// Keeps an equal note, unless its packet was passed over and its head is among these.
fn keep_unless_read(
    alloc: Global,
    kept: &mut Catalogue,
    note: &Note,
    read: &Catalogue,
) -> Result<(), OutOfMemory>
    ensures left { is_passed_over note.now ≡ true → has_note read.now (head_note note.now)
        → OnOk result (kept.new ≡ kept.old) }
    ensures kept { (is_passed_over note.now ≡ true → has_note read.now (head_note note.now) → ⊥)
        → OnOk result (kept.new ≡ reduced_with note.now kept.old) }
{
    if gives_way(note, read) {
        return Ok(());
    }
    kept.add(note.clone_in(alloc)?)?;
    Ok(())
}

/// Whether the note's packet was passed over, and its head is among these.
fn gives_way(note: &Note, read: &Catalogue) -> bool
    ensures yes { result ≡ true → (is_passed_over note.now ≡ true) × has_note read.now (head_note note.now) }
    ensures no { result ≡ false → is_passed_over note.now ≡ true → has_note read.now (head_note note.now) → ⊥ }
{
    if !is_passed_over(note) {
        return false;
    }
    let head = note.to_head();
    read.has(&head)
}

/// The heads of the packets of a container that were read, of which another note is held that shares a byte.
fn heads_read(alloc: Global, catalogue: &Catalogue) -> Result<Catalogue, OutOfMemory>
    ensures { IfOk result (AreHeadsRead catalogue.now) }
{
    let mut read = Catalogue::new(alloc);
    for disputed in catalogue.disputed() {
        add_if_read(&mut read, disputed.note)?;
    }
    Ok(read)
}

/// Adds the head of the note's packet, if it is one of a container that was read.
fn add_if_read(read: &mut Catalogue, note: &Note) -> Result<(), OutOfMemory>
    ensures { OnOk result ((h : NoteParts) → has_note read.new h
        ↔ (has_note read.old h ⊎ ((was_read note.now ≡ true) × (h ≡ head_note note.now)))) }
{
    if was_read(note) {
        read.add(note.to_head())?;
    }
    Ok(())
}

/// Whether the note is that of a container's packet that was read.
fn was_read(note: &Note) -> bool
    ensures { result ≡ was_read note.now }
{
    !note.is_head() && is_of_container(&note.key(), note.length()) && !is_passed_over(note)
}
