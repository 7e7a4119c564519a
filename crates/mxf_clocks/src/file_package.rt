//! File packages: the source packages whose essence, with an index, is in this file.
ghost use Rattle.std.specs.Prelude.{◌≡◌, ℕ, List, IfOk, None, OnOk, Some, if◌then◌else◌};
ghost use Rattle.std.specs.BTreeMap.{get};
ghost use Rattle.std.specs.Cmp.Lexicographic.{slice_cmp};
ghost use Rattle.std.specs.Ordering.{nat_cmp};
ghost use Rattle.mxf_clocks.specs.FilePackages.{has_identifier, index_in, is_material, is_zeros};
ghost use Rattle.mxf_clocks.specs.Lookups.{index_kept, index_of, own_index, with_index};

use mxf_klv::OutOfMemory;
use mxf_tracks::{Container, FoundPackage, PackageAt, PackageKind};
use std::alloc::Global;
use std::collections::BTreeMap;

/// Whether it is a material package.
pub(crate) fn is_material(kind: PackageKind) -> bool
    ensures { result ≡ is_material kind }
{
    kind == PackageKind::Material
}

/// Whether an identifier is zeros, and names no package.
fn is_zeros(uid: &[u8; 32]) -> bool
    ensures { result ≡ is_zeros uid.now }
{
    uid.iter().all(|byte| *byte == 0)
}

/// The IndexSID of a container, if it is above 0.
fn index_in(container: Option<Container>) -> Option<u32>
    ensures { result ≡ index_in container }
{
    match container {
        Some(container) if container.index_sid > 0 => Some(container.index_sid),
        _ => None,
    }
}

/// The IndexSID of a package that no other one has the identifier of, if it is a file package.
fn own_index(found: &FoundPackage<'_>) -> Option<u32>
    ensures { result ≡ own_index found.now }
{
    if is_material(found.kind) || is_zeros(&found.properties.package_uid()) {
        return None;
    }
    index_in(found.container)
}

/// What is kept of an identifier, with one more package.
fn with_index(is_kept: bool, found: &FoundPackage<'_>) -> Option<u32>
    ensures { result ≡ (if is_kept then None else own_index found.now) }
{
    if is_kept { None } else { own_index(found) }
}

/// The IndexSIDs of file packages by the identifiers of packages: None for any other package, and where several
/// packages have one identifier.
#[derive(Drop)]
pub(crate) struct FileIndexes {
    by_package: BTreeMap<[u8; 32], Option<u32>>,
}

impl FileIndexes {
    /// Those of the packages that are found: n log n steps for n packages.
    pub fn of(alloc: Global, packages: &[PackageAt<'_>]) -> Result<FileIndexes, OutOfMemory>
        ensures { IfOk result (λ f. (uid : List ℕ) → index_kept f.by_package uid ≡ index_of packages.now uid) }
    {
        let mut indexes = FileIndexes {
            by_package: BTreeMap::new(alloc),
        };
        for package in packages {
            if let Some(found) = &package.found {
                indexes.add(found)?;
            }
        }
        Ok(indexes)
    }

    /// Adds one more package.
    fn add(&mut self, found: &FoundPackage<'_>) -> Result<(), OutOfMemory>
        ensures { OnOk result ((uid : List ℕ) → get (slice_cmp nat_cmp) self.new.by_package uid
            ≡ (if has_identifier uid found.now
            then Some (with_index (get (slice_cmp nat_cmp) self.old.by_package uid) found.now)
            else get (slice_cmp nat_cmp) self.old.by_package uid)) }
    {
        let uid = found.properties.package_uid();
        let index = with_index(self.by_package.contains_key(&uid), found);
        self.by_package.insert(uid, index)?;
        Ok(())
    }

    /// That of the package with an identifier: one look-up.
    pub fn get(&self, uid: &[u8; 32]) -> Option<u32>
        ensures { result ≡ index_kept self.now.by_package uid.now }
    {
        self.by_package.get(uid).copied().flatten()
    }
}
