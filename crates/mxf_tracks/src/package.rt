//! Packages.
ghost use Rattle.std.specs.Prelude.{◌≡◌, ◌↔◌, ◌==◌, ℕ, List, [], Option, Some, find, map, IfOk};
ghost use Rattle.mxf_klv.specs.Parts.{NoteParts};
ghost use Rattle.mxf_klv.specs.Rising.{In};
ghost use Rattle.mxf_klv.specs.declared.kinds.Kind.TheVariants.{MaterialPackage};
ghost use Rattle.std.specs.List.{AllByRecursion};
ghost use Rattle.mxf_catalogue.specs.Content.{IsContent};
ghost use Rattle.mxf_catalogue.specs.Disputes.{clear_notes};
ghost use Rattle.mxf_klv.specs.Kind.{kind_of};
ghost use Rattle.mxf_references.specs.Resolved.{ResolvedParts, resolved_of};
ghost use Rattle.mxf_views.specs.Copies.{sets_of};
ghost use Rattle.mxf_tracks.specs.Containers.{AreContainersOf};
ghost use Rattle.mxf_tracks.specs.FoundSets.{IsPackageThere};
ghost use Rattle.mxf_tracks.specs.NamedContainers.{IsContainerOf};
ghost use Rattle.mxf_tracks.specs.References.{AreTargets, LeadsTo, Named, Reference, references_of};
ghost use Rattle.mxf_tracks.specs.Starts.{AreOneBehindAnother, IsPackageIn, IsSequenceIn, IsStartBehind};
ghost use Rattle.mxf_tracks.specs.declared.component.Component.{Component};
ghost use Rattle.mxf_tracks.specs.declared.container.Container.{Container};
ghost use Rattle.mxf_tracks.specs.declared.package.FoundPackage.{FoundPackage};
ghost use Rattle.mxf_tracks.specs.declared.package.PackageKind.TheVariants.{Material};
ghost use Rattle.mxf_tracks.specs.declared.sequence.FoundSequence.{FoundSequence};
ghost use Rattle.mxf_tracks.specs.declared.target.Target.{Target};
ghost use Rattle.mxf_tracks.specs.declared.target.Target.TheVariants.{Found};
ghost use Rattle.mxf_tracks.specs.Once.{AreOnce, read_of_packages};
ghost use Rattle.mxf_tracks.specs.Walk.{found_package, package_by, package_in, package_kind, package_of, packages_from};
ghost use Rattle.mxf_tracks.specs.Walk.{package_there, target_unfollowed, tracks_from_resolved, tracks_in};

use crate::container::{Container, Containers};
use crate::descriptor::{DescriptorAt, descriptor_named};
use crate::reached::Reached;
use crate::target::Target;
use crate::track::{TracksOf, tracks_of};
use mxf_klv::{Kind, Note, OutOfMemory};
use mxf_references::{CopySets, Ref, Resolved, Target as ResolvedTarget, resolved};
use mxf_sets::Package;
use mxf_views::Views;
use std::alloc::Global;
use std::marker::Model;
use uuid::Uuid;

/// Which package it is.
#[derive(Clone, Copy, Debug, PartialEq, Eq)]
pub enum PackageKind {
    /// What is played.
    Material,
    /// What it is made from: essence in this file, or another file or tape.
    Source,
}

/// A package that was found.
#[derive(Drop)]
pub struct FoundPackage<'a> {
    pub kind: PackageKind,
    /// Its record.
    pub properties: Package<'a>,
    /// Where its essence is in this file. None if no container data name it, or they differ.
    pub container: Option<Container>,
    pub tracks: TracksOf<'a>,
    /// None if it names none.
    pub descriptor: Option<DescriptorAt<'a>>,
}

/// A reference of the storage, and the package that it leads to.
#[derive(Drop)]
pub struct PackageAt<'a> {
    /// The instance identifier that the reference names.
    pub uid: Uuid,
    pub target: Target,
    /// None unless the target is found.
    pub found: Option<FoundPackage<'a>>,
}

/// What the header metadata say of a recording: the packages of a copy, each with its tracks, their sequences and
/// components, and its descriptor.
#[derive(Drop)]
pub struct Tracks<'a> {
    packages: Vec<PackageAt<'a>>,
}

impl<'a> Model for Tracks<'a> {
    ghost use Rattle.std.specs.Prelude.{List};
    ghost use Rattle.mxf_tracks.specs.declared.package.PackageAt.{PackageAt};

    ghost Value = { List PackageAt };

    ghost view = { λ t. t.packages.items };
}

/// What the set of a package is read as.
#[tactic(auto, unfolding(crate::specs::Walk::package_in))]
fn package_in(note: &Note) -> Option<Package<'_>>
    ensures { result ≡ package_in note.now }
{
    Package::read(note.value()?).ok()
}

fn package_kind(kind: Kind) -> PackageKind
    ensures { result ≡ package_kind kind }
{
    match kind {
        Kind::MaterialPackage => PackageKind::Material,
        _ => PackageKind::Source,
    }
}

/// A package with its tracks and its descriptor.
fn found_package<'a>(
    alloc: Global,
    copy: &CopySets<'a>,
    containers: &Containers,
    reached: &mut Reached,
    kind: Kind,
    properties: Package<'a>,
) -> Result<FoundPackage<'a>, OutOfMemory>
    requires { AreContainersOf (sets_of copy.now.notes copy.now.partition) containers.now.by_package }
    ensures { IfOk result (λ p. (p, reached.new)
        ≡ found_package (sets_of copy.now.notes copy.now.partition) reached.old kind properties.entry) }
{
    let tracks = tracks_of(alloc, copy, reached, properties.tracks())?;
    let descriptor = descriptor_named(alloc, copy, reached, properties.descriptor())?;
    Ok(FoundPackage {
        kind: package_kind(kind),
        container: containers.get(&properties.package_uid()),
        properties,
        tracks,
        descriptor,
    })
}

/// The package of a note at an offset, in bytes.
fn package_there<'a>(
    alloc: Global,
    copy: &CopySets<'a>,
    containers: &Containers,
    reached: &mut Reached,
    uid: &Uuid,
    offset: u64,
) -> Result<PackageAt<'a>, OutOfMemory>
    requires { AreContainersOf (sets_of copy.now.notes copy.now.partition) containers.now.by_package }
    ensures { IfOk result (λ p. (p, reached.new)
        ≡ package_there (sets_of copy.now.notes copy.now.partition) uid.now offset reached.old
        (find (λ n. n.offset == offset) (clear_notes copy.now.notes))) }
{
    let unreadable = Target::Unreadable(offset);
    let Some(note) = copy.note_at(offset) else {
        return Ok(PackageAt {
            uid: *uid,
            target: unreadable,
            found: None,
        });
    };
    let Some(package) = package_in(note) else {
        return Ok(PackageAt {
            uid: *uid,
            target: unreadable,
            found: None,
        });
    };
    let found = found_package(alloc, copy, containers, reached, note.kind(), package)?;
    Ok(PackageAt {
        uid: *uid,
        target: Target::Found(offset),
        found: Some(found),
    })
}

/// What a reference that isn't followed leads to: a package that was found, and reached before, among these.
fn target_of(target: ResolvedTarget) -> Target
    ensures { result ≡ target_unfollowed target }
{
    match target {
        ResolvedTarget::Missing => Target::Missing,
        ResolvedTarget::Several => Target::Several,
        ResolvedTarget::WrongKind(offset) => Target::WrongKind(offset),
        ResolvedTarget::Unreadable(offset) => Target::Unreadable(offset),
        ResolvedTarget::Found(offset) => Target::Again(offset),
    }
}

/// The package that a reference leads to.
#[tactic(auto, unfolding(crate::specs::Walk::package_of))]
fn package_of<'a>(
    alloc: Global,
    copy: &CopySets<'a>,
    containers: &Containers,
    reached: &mut Reached,
    reference: &Ref,
) -> Result<PackageAt<'a>, OutOfMemory>
    requires { AreContainersOf (sets_of copy.now.notes copy.now.partition) containers.now.by_package }
    ensures { IfOk result (λ p. (p, reached.new)
        ≡ package_of (clear_notes copy.now.notes) (sets_of copy.now.notes copy.now.partition) reached.old
        reference.now) }
{
    if let ResolvedTarget::Found(offset) = reference.target {
        if !reached.has(offset) {
            reached.add(offset)?;
            return package_there(alloc, copy, containers, reached, &reference.uid, offset);
        }
    }
    Ok(PackageAt {
        uid: reference.uid,
        target: target_of(reference.target),
        found: None,
    })
}

/// The packages that references lead to, in order.
fn packages_of<'a>(
    alloc: Global,
    copy: &CopySets<'a>,
    containers: &Containers,
    references: &[Ref],
) -> Result<Vec<PackageAt<'a>>, OutOfMemory>
    requires { AreContainersOf (sets_of copy.now.notes copy.now.partition) containers.now.by_package }
    ensures { IfOk result (λ p. p.items
        ≡ (packages_from (clear_notes copy.now.notes) (sets_of copy.now.notes copy.now.partition) []
        references.now).0) }
{
    let mut reached = Reached::new(alloc);
    let mut items = Vec::new(alloc);
    for reference in references {
        items.push(package_of(alloc, copy, containers, &mut reached, reference)?)?;
    }
    Ok(items)
}

impl<'a> Tracks<'a> {
    /// Those of the packages that the storage of a copy names ([`resolved`](mxf_references::resolved)). It takes memory.
    pub fn of(
        alloc: Global,
        views: &'a Views,
        resolved: &Resolved,
    ) -> Result<Tracks<'a>, OutOfMemory>
        ensures { IfOk result (λ t. t ≡ tracks_in views.now resolved.now) }
    {
        let copy = CopySets::of(alloc, views, resolved.partition)?;
        let containers = Containers::of(alloc, views.sets(resolved.partition))?;
        let packages = packages_of(alloc, &copy, &containers, resolved.packages.as_slice())?;
        Ok(Tracks { packages })
    }

    /// The packages, in the order in which the storage names them.
    pub fn packages(&self) -> &[PackageAt<'a>]
        ensures { result.now ≡ self.now }
    {
        self.packages.as_slice()
    }
}

/// What the preferred copy says of the recording: nothing without such a copy. It takes memory.
pub fn preferred_tracks(alloc: Global, views: &Views) -> Result<Tracks<'_>, OutOfMemory>
    ensures { IfOk result (λ t. t ≡ tracks_from_resolved views.now (resolved_of views.now)) }
{
    match resolved(alloc, views)? {
        Some(resolved) => Tracks::of(alloc, views, &resolved),
        None => Ok(Tracks {
            packages: Vec::new(alloc),
        }),
    }
}

/// A law of [`Tracks::of`]: no set is read for two references, whatever lists repeat.
pub fn each_set_is_read_once()
    ensures { (notes : List NoteParts) (r : ResolvedParts) → AreOnce (read_of_packages (tracks_in notes r)) }
{}

/// A law of [`Tracks::of`]: there is a record exactly where a target is found, and it is what the set there is read as,
/// a set of the copy with the key that the reference wants. The references behind it are those that it names, in order.
pub fn what_is_found_is_read_there()
    ensures there { (notes : List NoteParts) (r : ResolvedParts)
        → AllByRecursion (IsPackageThere (clear_notes notes) (sets_of notes r.partition)) (tracks_in notes r) }
    ensures named { (notes : List NoteParts) (r : ResolvedParts)
        → map (λ p. p.uid) (tracks_in notes r) ≡ map (λ f. f.uid) r.packages }
{}

/// A law of [`preferred_tracks`]: each reference of the walk leads to what the sets of the copy and the references
/// before it say. The number of sets with its identifier, the kind and the key of the only one, whether a reference
/// before it reached that set, and whether the set can be read tell its target. There is one that they tell.
pub fn each_target_is_by_the_references_before()
    ensures told { (notes : List NoteParts) (r : ResolvedParts) → IsContent notes → resolved_of notes ≡ Some r
        → AreTargets (sets_of notes r.partition) (references_of (tracks_in notes r)) }
    ensures one { (notes : List NoteParts) (partition : ℕ) (before : List Reference) (named : Named) (uid : List ℕ)
        (t u : Target) → IsContent notes → LeadsTo (sets_of notes partition) before named uid t
        → LeadsTo (sets_of notes partition) before named uid u → t ≡ u }
{}

/// A law of [`Tracks::of`]: a component begins where the durations of all components before it in its sequence add up to.
/// If one of these isn't found, or its duration isn't known, it begins at no known place. Components before it tell one
/// start.
pub fn components_begin_behind_those_before()
    ensures begin { (notes : List NoteParts) (r : ResolvedParts) (s : FoundSequence)
        → IsSequenceIn (tracks_in notes r) s → AreOneBehindAnother s.components }
    ensures one { (before : List Component) (s t : Option ℕ) → IsStartBehind before s → IsStartBehind before t
        → s ≡ t }
{}

/// A law of [`Tracks::of`]: a package has a container exactly if at least one Essence Container Data set of the copy
/// names it for the package's identifier, and none names another.
pub fn containers_are_those_that_sets_name()
    ensures { (notes : List NoteParts) (r : ResolvedParts) (f : FoundPackage) (c : Container)
        → IsPackageIn (tracks_in notes r) f
        → (f.container ≡ Some c) ↔ IsContainerOf (sets_of notes r.partition) f.properties.package_uid c }
{}

/// A law of [`Tracks::of`]: a package that is found is a material package exactly if the clear note at its offset is a
/// Material Package.
pub fn packages_are_of_the_kind_of_their_notes()
    ensures { (notes : List NoteParts) (r : ResolvedParts) (f : FoundPackage)
        → (i : IsPackageIn (tracks_in notes r) f) → (n : NoteParts) × In n (clear_notes notes)
        × (i.0.target ≡ Found n.offset) × ((f.kind ≡ Material) ↔ (kind_of n.key ≡ MaterialPackage)) }
{}
