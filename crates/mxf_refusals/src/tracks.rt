//! Tracks of the preferred copy, and its sets by their identifiers.
use crate::additions::{holds, views_of_pieces};
use crate::files::TRACKED;
use mxf_klv::OutOfMemory;
use mxf_references::{CopySets, Found, resolved};
use mxf_tracks::{
    Container, DescriptorAt, FoundPackage, PackageAt, Target, TrackAt, Tracks, preferred_tracks,
};
use std::alloc::Global;
use uuid::Uuid;

/// Whether the track is found at 404, its sequence at 476, and of that the only component at 564.
fn has_a_component(track: &TrackAt<'_>) -> Option<bool> {
    let sequence = &track.found.as_ref()?.sequence;
    let components = sequence.found.as_ref()?.components.as_slice();
    let component = components.get(0)?;
    let placed = (track.target, sequence.target) == (Target::Found(404), Target::Found(476));
    let only = component.target == Target::Found(564) && components.len() == 1;
    Some(placed && only && component.part.is_some())
}

/// Whether the descriptor is found at 622, and the only one of a part at 690.
fn has_a_part(descriptor: &DescriptorAt<'_>) -> Option<bool> {
    let parts = descriptor.found.as_ref()?.subdescriptors.as_slice();
    let only = parts.get(0)?.target == Target::Found(690) && parts.len() == 1;
    Some(descriptor.target == Target::Found(622) && only)
}

/// Whether the package has that track and that descriptor, and its essence has BodySID 2.
fn is_followed(package: &FoundPackage<'_>) -> Option<bool> {
    let tracks = package.tracks.as_slice();
    let followed = has_a_component(tracks.get(0)?)? && has_a_part(package.descriptor.as_ref()?)?;
    let container = Container {
        body_sid: 2,
        index_sid: 0,
    };
    Some(followed && package.container == Some(container) && tracks.len() == 1)
}

/// Whether the package is found at 280 with all that it leads to, and named again.
fn are_found(packages: &[PackageAt<'_>]) -> Option<bool> {
    let package = packages.get(0)?;
    let again = packages.get(1)?.target == Target::Again(280) && packages.len() == 2;
    Some(package.target == Target::Found(280) && again && is_followed(package.found.as_ref()?)?)
}

/// Whether these are the tracks of the preferred copy, and those of the packages that are resolved.
fn tracks_are_found(alloc: Global) -> Result<bool, OutOfMemory> {
    let views = views_of_pieces(alloc, &[(0, &TRACKED)])?;
    let preferred = preferred_tracks(alloc, &views)?;
    let Some(resolved) = resolved(alloc, &views)? else {
        return Ok(false);
    };
    let tracks = Tracks::of(alloc, &views, &resolved)?;
    let are_preferred = are_found(preferred.packages()) == Some(true);
    Ok(are_preferred && are_found(tracks.packages()) == Some(true))
}

#[test]
fn tracks(rt: HostRuntime) {
    assert!(rt; holds(rt.alloc(), tracks_are_found));
}

/// Whether the track is found by its identifier, and no set by another one.
fn sets_are_identified(alloc: Global) -> Result<bool, OutOfMemory> {
    let views = views_of_pieces(alloc, &[(0, &TRACKED)])?;
    let sets = CopySets::of(alloc, &views, 0)?;
    let track = sets.find(&Uuid::from_bytes([0x44; 16])) == Found::One(404);
    let none = sets.find(&Uuid::from_bytes([0xAA; 16])) == Found::Absent;
    Ok(track && none && sets.note_at(404).is_some())
}

#[test]
fn sets_by_their_identifiers(rt: HostRuntime) {
    assert!(rt; holds(rt.alloc(), sets_are_identified));
}
