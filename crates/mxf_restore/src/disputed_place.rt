//! Places that matter and are held in two readings.
ghost use Rattle.std.specs.Prelude.{◌≡◌, IfOk};
ghost use Rattle.std.specs.List.{filter_map};
ghost use Rattle.mxf_places.specs.Claims.{claims_of};
ghost use Rattle.mxf_restore.specs.Plan.{disputed_place_of, first_by_place, found_disputed_places, point_of};

use crate::plan::DisputedPlace;
use mxf_klv::OutOfMemory;
use mxf_places::{Claim, Holdings};
use std::alloc::Global;
use std::collections::BTreeSet;

/// The disputed places, each place once, in the order of the claims. They take memory.
#[tactic(auto, unfolding(crate::specs::Plan::found_disputed_places))]
pub(crate) fn found_disputed_places(
    alloc: Global,
    holdings: &Holdings<'_>,
    claims: &[Claim],
) -> Result<Vec<DisputedPlace>, OutOfMemory>
    requires { claims.now ≡ claims_of holdings.now }
    ensures { IfOk result (λ v. v.items ≡ found_disputed_places holdings.now) }
{
    let disputed_places = disputed_places_of(alloc, holdings, claims)?;
    first_by_place(alloc, &disputed_places)
}

/// The disputed places of the claims, in the order of these.
fn disputed_places_of(
    alloc: Global,
    holdings: &Holdings<'_>,
    claims: &[Claim],
) -> Result<Vec<DisputedPlace>, OutOfMemory>
    ensures { IfOk result (λ v. v.items ≡ filter_map (disputed_place_of holdings.now) claims.now) }
{
    let disputed_places = claims
        .iter()
        .filter_map(|claim| disputed_place_of(holdings, claim));
    Ok(disputed_places.collect(alloc)?)
}

/// The disputed place of the claim, if what covers its place is disputed.
#[tactic(auto, unfolding(crate::specs::Plan::disputed_place_of))]
fn disputed_place_of(holdings: &Holdings<'_>, claim: &Claim) -> Option<DisputedPlace>
    ensures { result ≡ disputed_place_of holdings.now claim.now }
{
    let place = u64::try_from(point_of(claim)?).ok()?;
    if holdings.is_in_file(place) && holdings.is_disputed_at(place) {
        Some(DisputedPlace {
            reason: claim.reason,
            place,
            source: claim.source,
        })
    } else {
        None
    }
}

/// The place that the claim speaks of, in bytes: one that a pack names, or where an open stretch ends.
fn point_of(claim: &Claim) -> Option<u128>
    ensures { result ≡ point_of claim.now }
{
    if !claim.reason.is_of_stretch() {
        return Some(u128::from(claim.from));
    }
    if claim.is_open {
        Some(claim.end.saturating_sub(1))
    } else {
        None
    }
}

/// The disputed places, each place once, as it stands first.
fn first_by_place(
    alloc: Global,
    disputed_places: &[DisputedPlace],
) -> Result<Vec<DisputedPlace>, OutOfMemory>
    ensures { IfOk result (λ v. v.items ≡ first_by_place disputed_places.now) }
{
    let mut seen = BTreeSet::new(alloc);
    let mut first = Vec::new(alloc);
    for disputed_place in disputed_places {
        if seen.insert(disputed_place.place)? {
            first.push(*disputed_place)?;
        }
    }
    Ok(first)
}
