//! The notes of a reference beside a saved catalogue.
ghost use Rattle.std.specs.Prelude.{◌≡◌, IfOk, filter};
ghost use Rattle.mxf_verify.specs.Opposing.{is_had};
ghost use Rattle.mxf_verify.specs.Others.{is_headed, is_touched};
ghost use Rattle.mxf_verify.specs.Telling.{TellsOf, TellsSaved, notes_at};
ghost use Rattle.mxf_verify.specs.Verifying.{Saved};

use crate::others::{Others, is_had};
use crate::ranges::rest_of;
use crate::told::Told;
use mxf_catalogue::{Catalogue, Cover};
use mxf_klv::{Note, OutOfMemory};
use std::alloc::Global;

/// What a saved catalogue says of the notes of a reference.
#[derive(Drop)]
pub(crate) struct SavedTold<'a> {
    pub told: Told<'a>,
    /// The notes of whole packets whose heads the catalogue has, in their order.
    pub headed: Vec<&'a Note>,
    /// The bytes that the catalogue holds and no note of the reference does.
    pub beside: Cover,
}

/// Compares the notes of a reference with those of a saved catalogue. It takes n log n of both.
pub(crate) fn compare_saved<'a>(
    alloc: Global,
    reference: &'a Catalogue,
    saved: &Catalogue,
) -> Result<SavedTold<'a>, OutOfMemory>
    ensures { IfOk result (TellsSaved reference.now saved.now) }
{
    reference.laws();
    let beside = rest_of(alloc, saved.spans(), reference.spans())?;
    let headed = headed_notes(alloc, reference, saved)?;
    let told = told_by(alloc, reference, saved)?;
    Ok(SavedTold {
        told,
        headed,
        beside,
    })
}

/// Which notes of a reference a saved catalogue has, and which differ there.
fn told_by<'a>(
    alloc: Global,
    reference: &'a Catalogue,
    saved: &Catalogue,
) -> Result<Told<'a>, OutOfMemory>
    ensures { IfOk result (TellsOf reference.now (Saved saved.now)) }
{
    reference.laws();
    saved.laws();
    let same = had_notes(alloc, reference, saved)?;
    let others = Others::of(alloc, saved, reference)?;
    let differing = touched_notes(alloc, reference, &others)?;
    Ok(Told { same, differing })
}

/// The notes of a reference that a saved catalogue has.
fn had_notes<'a>(
    alloc: Global,
    reference: &'a Catalogue,
    saved: &Catalogue,
) -> Result<Vec<&'a Note>, OutOfMemory>
    ensures { IfOk result (λ v. notes_at v.items ≡ filter (λ n. is_had n saved.now) reference.now) }
{
    let had = reference.notes().filter(|note| is_had(saved, note));
    Ok(had.collect(alloc)?)
}

/// The notes of whole packets of a reference whose heads a saved catalogue holds.
fn headed_notes<'a>(
    alloc: Global,
    reference: &'a Catalogue,
    saved: &Catalogue,
) -> Result<Vec<&'a Note>, OutOfMemory>
    ensures { IfOk result (λ v. notes_at v.items ≡ filter (λ n. is_headed n saved.now) reference.now) }
{
    let headed = reference.notes().filter(|note| is_headed(saved, note));
    Ok(headed.collect(alloc)?)
}

/// Whether a note is that of a whole packet whose head a catalogue holds.
fn is_headed(catalogue: &Catalogue, note: &Note) -> bool
    ensures { result ≡ is_headed note.now catalogue.now }
{
    !note.is_head() && catalogue.holds(&note.to_head())
}

/// The notes of a reference that share a held byte with one of other notes, whose head they aren't.
fn touched_notes<'a>(
    alloc: Global,
    reference: &'a Catalogue,
    others: &Others<'_>,
) -> Result<Vec<&'a Note>, OutOfMemory>
    ensures { IfOk result (λ v. notes_at v.items ≡ filter (λ n. is_touched n others.now) reference.now) }
{
    let touched = reference.notes().filter(|note| others.touch(note));
    Ok(touched.collect(alloc)?)
}
