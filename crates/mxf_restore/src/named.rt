//! The places that packs name and that are missing.
ghost use Rattle.std.specs.Prelude.{◌≡◌, ◌↔◌, ℕ, IfOk, IsTrue, List, map};
ghost use Rattle.std.specs.List.{filter_map};
ghost use Rattle.std.specs.List.Sorted.{IsStrictlySortedBy};
ghost use Rattle.std.specs.Map.{keys_of};
ghost use Rattle.std.specs.Ordering.{nat_cmp};
ghost use Rattle.mxf_klv.specs.Parts.{NoteParts};
ghost use Rattle.mxf_klv.specs.Rising.{In, IsRising};
ghost use Rattle.mxf_places.specs.Claims.{claims_of};
ghost use Rattle.mxf_restore.specs.Missing.{IsMissing, IsMissingPlace, is_missing, missing_places};
ghost use Rattle.mxf_restore.specs.NamedPlaces.{AreFirst, IsNamedPlace, entry_place, is_header, named_place_of};
ghost use Rattle.mxf_restore.specs.NamedPlaces.{place_cmp};
ghost use Rattle.mxf_restore.specs.declared.named.NamedPlace.{NamedPlace};

use mxf_klv::{Keyed, OutOfMemory};
use mxf_places::{Claim, Holdings, Reason};
use std::alloc::Global;
use std::collections::BTreeMap;

/// A place that packs name and that is missing: it may lie in the file, and what begins there isn't held whole.
#[derive(Clone, Copy, Debug, PartialEq, Eq, PartialOrd, Ord)]
pub struct NamedPlace {
    /// A file offset, in bytes.
    pub place: u64,
    /// The file offset of the pack that names it first, by reason and then source.
    pub source: Option<u64>,
}

/// Named places rise by where they lie.
impl Keyed for NamedPlace {
    ghost key = { λ n. n.place };

    fn key(&self) -> u64 {
        self.place
    }
}

/// The places that packs name and that are missing, rising, each once; that of the header partition, which no pack
/// names, isn't one of them. They take memory as the claims do, and time n log n of these.
pub fn named_places(
    alloc: Global,
    holdings: &Holdings<'_>,
    claims: &[Claim],
) -> Result<Vec<NamedPlace>, OutOfMemory>
    requires { claims.now ≡ claims_of holdings.now }
    ensures rising { IfOk result (λ v. IsRising place_cmp v.items) }
    ensures members { IfOk result (λ v. (n : NamedPlace) → In n v.items ↔ IsNamedPlace holdings.now n) }
{
    let places = places_of(alloc, holdings, claims)?;
    let sources = first_sources(alloc, places)?;
    places_in(alloc, &sources)
}

/// The missing places that claims name, in the order of the claims.
fn places_of(
    alloc: Global,
    holdings: &Holdings<'_>,
    claims: &[Claim],
) -> Result<Vec<NamedPlace>, OutOfMemory>
    ensures { IfOk result (λ v. v.items ≡ filter_map (named_place_of holdings.now) claims.now) }
{
    let places = claims
        .iter()
        .filter_map(|claim| named_place_of(holdings, claim));
    Ok(places.collect(alloc)?)
}

/// The place that a claim names and that is missing, with the claim's source.
#[tactic(auto, unfolding(crate::specs::NamedPlaces::named_place_of))]
fn named_place_of(holdings: &Holdings<'_>, claim: &Claim) -> Option<NamedPlace>
    ensures { result ≡ named_place_of holdings.now claim.now }
{
    if is_header(claim.reason) {
        return None;
    }
    let place = claim.named_place()?;
    if is_missing(holdings, place) {
        Some(NamedPlace {
            place,
            source: claim.source,
        })
    } else {
        None
    }
}

/// Whether it is that of the header partition.
fn is_header(reason: Reason) -> bool
    ensures { result ≡ is_header reason }
{
    matches!(reason, Reason::Header)
}

/// For each of the places the source with which it stands first.
fn first_sources(
    alloc: Global,
    mut places: Vec<NamedPlace>,
) -> Result<BTreeMap<u64, Option<u64>>, OutOfMemory>
    ensures { IfOk result (λ sources. AreFirst places.items sources.entries) }
{
    let mut sources = BTreeMap::new(alloc);
    while let Some(named) = places.pop() {
        sources.insert(named.place, named.source)?;
    }
    Ok(sources)
}

/// The places of a table with their sources, rising.
fn places_in(
    alloc: Global,
    sources: &BTreeMap<u64, Option<u64>>,
) -> Result<Vec<NamedPlace>, OutOfMemory>
    ensures items { IfOk result (λ v. v.items ≡ map entry_place sources.now.entries) }
    ensures rising { IsStrictlySortedBy nat_cmp (keys_of sources.now.entries) }
{
    let places = sources.iter().map(|(place, source)| NamedPlace {
        place: *place,
        source: *source,
    });
    Ok(places.collect(alloc)?)
}

/// Whether an offset, in bytes, may lie in the file, and what begins there isn't held whole.
pub fn is_missing(holdings: &Holdings<'_>, offset: u64) -> bool
    ensures { result ≡ is_missing holdings.now offset }
{
    holdings.is_in_file(offset)
        && !holdings.is_disputed_at(offset)
        && (holdings.begins_clear_head(offset) || !holdings.is_held(offset))
}

/// A law of [`is_missing`] and [`named_places`]: a missing place is one that a pack names and that may lie in the file,
/// that no disputed packet covers, and where not all that begins there is held.
pub fn missing_places_by_definition()
    ensures test { (notes : List NoteParts) (x : ℕ) → IsTrue (is_missing notes x) ↔ IsMissing notes x }
    ensures places { (notes : List NoteParts) (x : ℕ) → In x (missing_places notes) ↔ IsMissingPlace notes x }
{}
