//! Where packets of a kind begin, and sets of offsets.
ghost use Rattle.std.specs.Prelude.{◌≡◌, ◌<◌, IfOk};
ghost use Rattle.std.specs.List.{AllByRecursion};
ghost use Rattle.mxf_klv.specs.Note.{greatest_end};
ghost use Rattle.mxf_klv.specs.Rising.{In};
ghost use Rattle.mxf_catalogue.specs.Disputes.{clear_notes};
ghost use Rattle.mxf_views.specs.Partitions.{partitions_of};
ghost use Rattle.mxf_map.specs.Layers.{AreOffsets, BeginsPartition, BeginsRandomIndex, LiesInZone, is_of_zone, is_part};
ghost use Rattle.mxf_map.specs.Layers.{partition_offsets, random_index_offsets};

use mxf_catalogue::{Catalogue, Cover};
use mxf_klv::{Kind, OutOfMemory};
use mxf_places::Zone;
use mxf_sets::PackPart;
use mxf_views::Views;
use std::alloc::Global;

/// The offsets, in bytes, as a set. Each lies below the greatest end of a packet.
pub(super) fn set_of(alloc: Global, offsets: &[u64]) -> Result<Cover, OutOfMemory>
    requires { AllByRecursion (λ x. x < greatest_end) offsets.now }
    ensures { IfOk result (λ c. AreOffsets (λ x. In x offsets.now) c) }
{
    let mut set = Cover::new(alloc);
    for offset in offsets {
        set.add(*offset, *offset + 1)?;
    }
    Ok(set)
}

/// Where the partitions of a part of the file begin. It takes memory.
pub(super) fn partitions(alloc: Global, views: &Views, part: PackPart) -> Result<Cover, OutOfMemory>
    ensures { IfOk result (λ c. AreOffsets (BeginsPartition views.now part) c) }
{
    let offsets = partition_offsets(alloc, views, part)?;
    // Each pack ends where a packet may.
    views.catalogue().laws();
    set_of(alloc, &offsets)
}

/// Where the clear random index packs begin. It takes memory.
pub(super) fn random_index(alloc: Global, catalogue: &Catalogue) -> Result<Cover, OutOfMemory>
    ensures { IfOk result (λ c. AreOffsets (BeginsRandomIndex catalogue.now) c) }
{
    let offsets = random_index_offsets(alloc, catalogue)?;
    // Each pack ends where a packet may.
    catalogue.laws();
    set_of(alloc, &offsets)
}

/// Where the partitions of a part of the file begin, in bytes, rising.
fn partition_offsets(alloc: Global, views: &Views, part: PackPart) -> Result<Vec<u64>, OutOfMemory>
    ensures { IfOk result (λ v. v.items ≡ partition_offsets part (partitions_of views.now)) }
{
    let partitions = views.partitions_in_numbers().iter();
    let offsets = partitions
        .filter(|partition| is_part(partition.part, part))
        .map(|partition| partition.offset);
    Ok(offsets.collect(alloc)?)
}

/// Whether the parts are one.
fn is_part(part: PackPart, other: PackPart) -> bool
    ensures { result ≡ is_part part other }
{
    match part {
        PackPart::Header => other == PackPart::Header,
        PackPart::Body => other == PackPart::Body,
        PackPart::Footer => other == PackPart::Footer,
    }
}

/// Where the clear random index packs begin, in bytes, rising.
fn random_index_offsets(alloc: Global, catalogue: &Catalogue) -> Result<Vec<u64>, OutOfMemory>
    ensures { IfOk result (λ v. v.items ≡ random_index_offsets (clear_notes catalogue.now)) }
{
    let offsets = catalogue
        .clear()
        .filter(|pack| pack.kind() == Kind::Rip)
        .map(|pack| pack.offset());
    Ok(offsets.collect(alloc)?)
}

/// The offsets that lie in a clear packet of a zone. It takes memory.
pub(super) fn zone(alloc: Global, catalogue: &Catalogue, zone: Zone) -> Result<Cover, OutOfMemory>
    ensures { IfOk result (λ c. AreOffsets (LiesInZone catalogue.now zone) c) }
{
    let mut set = Cover::new(alloc);
    for note in catalogue.clear() {
        if is_of_zone(zone, note.kind()) {
            set.add(note.offset(), note.end())?;
        }
    }
    Ok(set)
}

/// Whether a zone is made of packets of the kind: primer packs, metadata sets and raw sets, or index table segments.
fn is_of_zone(zone: Zone, kind: Kind) -> bool
    ensures { result ≡ is_of_zone zone kind }
{
    match zone {
        Zone::Metadata => matches!(
            kind,
            Kind::Primer
                | Kind::Preface
                | Kind::Identification
                | Kind::ContentStorage
                | Kind::MaterialPackage
                | Kind::SourcePackage
                | Kind::RawSet
        ),
        Zone::Index => kind == Kind::Segment,
    }
}
