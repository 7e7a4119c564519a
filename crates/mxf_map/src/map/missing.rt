//! The places that packs name and that are missing.
ghost use Rattle.std.specs.Prelude.{◌≡◌, IfOk};
ghost use Rattle.std.specs.List.{filter_map};
ghost use Rattle.mxf_klv.specs.Rising.{In, SameMembers};
ghost use Rattle.mxf_restore.specs.Missing.{missing_places};
ghost use Rattle.mxf_map.specs.Layers.{AreOffsets, missing_place};

use super::offsets::set_of;
use mxf_catalogue::Cover;
use mxf_klv::OutOfMemory;
use mxf_places::{Claim, Holdings, claims};
use mxf_restore::is_missing;
use std::alloc::Global;

/// The places that packs name and that are missing. It takes memory.
pub(super) fn missing(alloc: Global, holdings: &Holdings<'_>) -> Result<Cover, OutOfMemory>
    ensures { IfOk result (λ c. AreOffsets (λ x. In x (missing_places holdings.now)) c) }
{
    let places = missing_places(alloc, holdings)?;
    set_of(alloc, &places)
}

/// The places that packs name and that are missing, in bytes, rising.
fn missing_places(alloc: Global, holdings: &Holdings<'_>) -> Result<Vec<u64>, OutOfMemory>
    ensures { IfOk result (λ v. SameMembers v.items (missing_places holdings.now)) }
{
    let claims = claims(alloc, holdings)?;
    let mut places = places_of(alloc, holdings, &claims)?;
    places.sort_unstable();
    Ok(places)
}

/// The places of claims that are missing, in the order of the claims.
fn places_of(
    alloc: Global,
    holdings: &Holdings<'_>,
    claims: &[Claim],
) -> Result<Vec<u64>, OutOfMemory>
    ensures { IfOk result (λ v. v.items ≡ filter_map (missing_place holdings.now) claims.now) }
{
    let places = claims
        .iter()
        .filter_map(|claim| missing_place(holdings, claim));
    Ok(places.collect(alloc)?)
}

/// The place that a claim names, in bytes, if it is missing.
fn missing_place(holdings: &Holdings<'_>, claim: &Claim) -> Option<u64>
    ensures { result ≡ missing_place holdings.now claim.now }
{
    let place = claim.named_place()?;
    if is_missing(holdings, place) {
        Some(place)
    } else {
        None
    }
}
