//! The references of the preferred copy.
ghost use Rattle.std.specs.Prelude.{◌≡◌, ◌↔◌, List, Option, find, filter, IfOk, []};
ghost use Rattle.mxf_klv.specs.Parts.{NoteParts};
ghost use Rattle.mxf_catalogue.specs.Content.{IsContent};
ghost use Rattle.std.specs.Option.{option_copied};
ghost use Rattle.mxf_views.specs.Copies.{is_preface_note, sets_of};
ghost use Rattle.mxf_references.specs.References.{has_uid};
ghost use Rattle.mxf_references.specs.Resolved.{ResolvedParts, preface_in, resolved_by, resolved_of, storage_among};
ghost use Rattle.mxf_references.specs.Resolved.{storage_in};
ghost use Rattle.mxf_references.specs.ResolvedView.{IsResolved};

use crate::reference::Found;
use crate::reference::identified::CopySets;
use crate::reference::target::{Ref, Refs, Wanted, refs_of, target_of};
use mxf_klv::{Kind, Note, OutOfMemory};
use mxf_sets::{ContentStorage, Preface};
use mxf_views::{Sets, Views, is_preface};
use std::alloc::Global;
use std::marker::Model;
use uuid::Uuid;

/// What the Preface of the preferred copy names, and what its storage names (ST 377-1, structural metadata).
///
/// The Preface is the root of the header metadata. It names the identifications, one for each program that wrote the
/// file, and the content storage, which names the packages: the material that is played and the sources it is from.
/// Each name comes with what it leads to, in the order of the file.
pub struct Resolved {
    /// The file offset of the partition, in bytes.
    pub partition: u64,
    /// The file offset of the Preface, in bytes.
    pub preface: u64,
    /// None if the Preface isn't readable.
    pub storage: Option<Ref>,
    pub identifications: Refs,
    /// None if the storage isn't found.
    pub packages: Refs,
}

// Written out, a drop is one call wherever what is resolved is let go.
impl Drop for Resolved {
    fn drop(self) {
        let Resolved {
            partition: _,
            preface: _,
            storage: _storage,
            identifications: _identifications,
            packages: _packages,
        } = self;
    }
}

impl Model for Resolved {
    ghost use Rattle.mxf_references.specs.Resolved.{ResolvedParts};

    ghost Value = { ResolvedParts };

    ghost view = { λ r. record {
      partition = r.partition;
      preface = r.preface;
      storage = r.storage;
      identifications =
          r.identifications;
      packages = r.packages;
    } };
}

/// The first Preface of the sets.
pub(crate) fn preface_among(mut sets: Sets<'_>) -> Option<&Note>
    ensures { option_copied result ≡ find is_preface_note sets.entry }
{
    sets.find(|note| is_preface(note))
}

#[tactic(auto, unfolding(crate::specs::Resolved::preface_in))]
fn preface_in(note: &Note) -> Option<Preface<'_>>
    ensures { result ≡ preface_in note.now }
{
    Preface::read(note.value()?).ok()
}

#[tactic(auto, unfolding(crate::specs::Resolved::storage_in))]
fn storage_in(note: &Note) -> Option<ContentStorage<'_>>
    ensures { result ≡ storage_in note.now }
{
    if !Wanted::Storage.fits(note.kind()) {
        return None;
    }
    ContentStorage::read(note.value()?).ok()
}

/// The storage with the identifier, if it is the only set of the copy that has it.
fn storage_of<'a>(sets: &CopySets<'a>, uid: &Uuid) -> Option<ContentStorage<'a>>
    ensures { result ≡ storage_among (filter (has_uid uid.now) (sets_of sets.now.notes sets.now.partition)) }
{
    match sets.find(uid) {
        Found::One(offset) => storage_in(sets.note_at(offset)?),
        _ => None,
    }
}

/// What the Preface of a copy names.
pub(crate) fn resolved_by(
    alloc: Global,
    views: &Views,
    partition: u64,
    note: &Note,
) -> Result<Resolved, OutOfMemory>
    ensures { IfOk result (λ r. r ≡ resolved_by views.now partition note.now.offset (preface_in note.now)) }
{
    let Some(preface) = preface_in(note) else {
        return Ok(Resolved {
            partition,
            preface: note.offset(),
            storage: None,
            identifications: Refs::new(alloc),
            packages: Refs::new(alloc),
        });
    };
    let sets = CopySets::of(alloc, views, partition)?;
    let uid = preface.content_storage();
    let target = target_of(&sets, Wanted::Storage, &uid);
    let names = preface.identifications();
    let identifications = refs_of(alloc, &sets, Wanted::Identification, names)?;
    let packages = match storage_of(&sets, &uid) {
        Some(storage) => refs_of(alloc, &sets, Wanted::Package, storage.packages())?,
        None => Refs::new(alloc),
    };
    Ok(Resolved {
        partition,
        preface: note.offset(),
        storage: Some(Ref { uid, target }),
        identifications,
        packages,
    })
}

/// A law of [`resolved`](crate::resolved): it is what the only Preface of the preferred copy names, each
/// reference in its place with what it leads to; there is none only if no copy is preferred.
pub fn resolved_by_definition()
    ensures { (notes : List NoteParts) (resolved : Option ResolvedParts) → IsContent notes
        → (resolved_of notes ≡ resolved) ↔ IsResolved notes resolved }
{}
