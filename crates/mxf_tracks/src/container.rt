//! The containers of packages.
ghost use Rattle.std.specs.Prelude.{◌≡◌, ◌++◌, ◌∷◌, [], List, IfOk, OnOk};
ghost use Rattle.mxf_klv.specs.Parts.{NoteParts};
ghost use Rattle.mxf_tracks.specs.Containers.{AreContainersOf, container_data_in, container_of, with_container};

use crate::keys::is_container_data;
use mxf_klv::{Note, OutOfMemory};
use mxf_sets::EssenceContainerData;
use mxf_views::Sets;
use std::alloc::Global;
use std::collections::BTreeMap;

/// The container of a package: the streams that hold its essence and its index.
#[derive(Clone, Copy, Debug, PartialEq, Eq)]
pub struct Container {
    /// The identifier of the essence's stream; 0, none.
    pub body_sid: u32,
    /// The identifier of the index's stream; 0, none.
    pub index_sid: u32,
}

/// What the container data of a copy say, by the identifiers of packages: None where they differ.
#[derive(Drop)]
pub(crate) struct Containers {
    by_package: BTreeMap<[u8; 32], Option<Container>>,
}

/// The container data that a set is read as.
#[tactic(auto, unfolding(crate::specs::Containers::container_data_in))]
fn container_data_in(note: &Note) -> Option<EssenceContainerData>
    ensures { result ≡ container_data_in note.now }
{
    if !is_container_data(&note.key()) {
        return None;
    }
    EssenceContainerData::read(note.value()?).ok()
}

/// What is kept with one more: the same, or none where they differ.
fn with_container(kept: Option<Option<Container>>, container: Container) -> Option<Container>
    ensures { result ≡ with_container kept container }
{
    match kept {
        None => Some(container),
        Some(Some(other)) if other == container => Some(other),
        Some(_) => None,
    }
}

impl Containers {
    /// Those of the sets of a copy.
    pub fn of(alloc: Global, sets: Sets<'_>) -> Result<Containers, OutOfMemory>
        ensures { IfOk result (λ c. AreContainersOf sets.entry c.by_package) }
    {
        let mut containers = Containers {
            by_package: BTreeMap::new(alloc),
        };
        for set in sets {
            containers.add(set)?;
        }
        Ok(containers)
    }

    /// Adds what one more set says.
    fn add(&mut self, set: &Note) -> Result<(), OutOfMemory>
        ensures { (sets : List NoteParts) → AreContainersOf sets self.old.by_package
            → OnOk result (AreContainersOf (sets ++ set.now ∷ []) self.new.by_package) }
    {
        let Some(data) = container_data_in(set) else {
            return Ok(());
        };
        let package = data.linked_package();
        let container = Container {
            body_sid: data.body_sid(),
            index_sid: data.index_sid(),
        };
        let kept = with_container(self.by_package.get(&package).copied(), container);
        self.by_package.insert(package, kept)?;
        Ok(())
    }

    /// That of the package with an identifier.
    pub fn get(&self, uid: &[u8; 32]) -> Option<Container>
        ensures { (sets : List NoteParts) → AreContainersOf sets self.now.by_package
            → result ≡ container_of sets uid.now }
    {
        self.by_package.get(uid).copied().flatten()
    }
}
