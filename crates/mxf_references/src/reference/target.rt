//! What references in header metadata lead to.
ghost use Rattle.std.specs.Prelude.{◌≡◌, ◌↔◌, ℕ, List, [], IfOk};
ghost use Rattle.mxf_klv.specs.Parts.{NoteParts};
ghost use Rattle.mxf_klv.specs.Rising.{In};
ghost use Rattle.mxf_catalogue.specs.Content.{IsContent};
ghost use Rattle.mxf_views.specs.Copies.{sets_of};
ghost use Rattle.mxf_references.specs.declared.reference.target.Wanted.{Wanted};
ghost use Rattle.mxf_references.specs.declared.reference.target.Target.{Target};
ghost use Rattle.mxf_references.specs.Targets.{IsTarget, fits, refs_of, target_at, target_of};

use crate::reference::Found;
use crate::reference::identified::CopySets;
use mxf_klv::{Kind, Note, OutOfMemory};
use mxf_sets::References;
use std::alloc::Global;
use std::marker::Model;
use uuid::Uuid;

/// What a reference leads to, with file offsets in bytes: a set of the kind that the reference wants, in the same copy.
///
/// A reference is of use if exactly one set has the identifier and that set is of the kind and readable. Otherwise the
/// target says which of these fails first.
#[derive(Clone, Copy, Debug, PartialEq, Eq)]
pub enum Target {
    /// No set of the copy has the identifier.
    Missing,
    /// More than one has it.
    Several,
    /// The only one, at this offset, is of another kind than the reference names.
    WrongKind(u64),
    /// The only one, at this offset, is of that kind and can't be read.
    Unreadable(u64),
    /// The only one, at this offset, is of that kind and can be read.
    Found(u64),
}

/// A reference and what it leads to.
#[derive(Clone, Copy, Debug, PartialEq, Eq)]
pub struct Ref {
    pub uid: Uuid,
    pub target: Target,
}

/// What a reference names.
#[derive(Clone, Copy)]
pub enum Wanted {
    Storage,
    Identification,
    Package,
}

impl Wanted {
    pub(crate) fn fits(self, kind: Kind) -> bool
        ensures { result ≡ fits self kind }
    {
        match (self, kind) {
            (Wanted::Storage, Kind::ContentStorage) => true,
            (Wanted::Identification, Kind::Identification) => true,
            (Wanted::Package, Kind::MaterialPackage) => true,
            (Wanted::Package, Kind::SourcePackage) => true,
            _ => false,
        }
    }
}

/// References with what they lead to, in order.
#[derive(Drop)]
pub struct Refs {
    items: Vec<Ref>,
}

impl Model for Refs {
    ghost use Rattle.std.specs.Prelude.{List};
    ghost use Rattle.mxf_references.specs.declared.reference.target.Ref.{Ref};

    ghost Value = { List Ref };

    ghost view = { λ r. r.items.items };
}

impl Refs {
    pub(crate) fn new(alloc: Global) -> Refs
        ensures { result ≡ [] }
    {
        Refs {
            items: Vec::new(alloc),
        }
    }

    /// The references.
    pub fn as_slice(&self) -> &[Ref]
        ensures { result.now ≡ self.now }
    {
        self.items.as_slice()
    }
}

/// What the only set with an identifier is to a reference.
#[tactic(auto, unfolding(crate::specs::Targets::target_at))]
fn target_at(sets: &CopySets<'_>, wanted: Wanted, set: &Note) -> Target
    requires { In set.now (sets_of sets.now.notes sets.now.partition) }
    ensures { result ≡ target_at wanted set.now }
{
    let offset = set.offset();
    if !wanted.fits(set.kind()) {
        return Target::WrongKind(offset);
    }
    if sets.is_unreadable(set) {
        Target::Unreadable(offset)
    } else {
        Target::Found(offset)
    }
}

/// What a reference leads to, among the sets of a copy.
#[tactic(auto, unfolding(crate::specs::Targets::target_of))]
pub(crate) fn target_of(sets: &CopySets<'_>, wanted: Wanted, uid: &Uuid) -> Target
    ensures { result ≡ target_of sets.now.notes sets.now.partition wanted uid.now }
{
    match sets.find(uid) {
        Found::Absent => Target::Missing,
        Found::One(offset) => match sets.note_at(offset) {
            Some(set) => target_at(sets, wanted, set),
            None => unreachable!(),
        },
        Found::Several => Target::Several,
    }
}

/// What each of the references leads to.
pub(crate) fn refs_of(
    alloc: Global,
    sets: &CopySets<'_>,
    wanted: Wanted,
    references: References<'_>,
) -> Result<Refs, OutOfMemory>
    ensures { IfOk result (λ refs. refs ≡ refs_of sets.now.notes sets.now.partition wanted references.entry) }
{
    let refs = references.map(|uid| {
        let target = target_of(sets, wanted, &uid);
        Ref { uid, target }
    });
    let items = refs.collect(alloc)?;
    Ok(Refs { items })
}

/// A law of [`resolved`](crate::resolved): what a reference leads to is determined by the sets of the
/// copy that have its identifier.
pub fn targets_by_definition()
    ensures { (notes : List NoteParts) (partition : ℕ) (wanted : Wanted) (uid : List ℕ) (target : Target)
        → IsContent notes
        → (target_of notes partition wanted uid ≡ target) ↔ IsTarget (sets_of notes partition) wanted uid target }
{}
