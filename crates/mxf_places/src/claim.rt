//! What packs say of places (ST 377-1, Partition Pack and Random Index Pack).
ghost use Rattle.std.specs.Prelude.{◌≡◌, ◌↔◌, ◌++◌, ◌∷◌, ◌<◌, ℕ, [], IfOk, OnOk, List, None, Some, map};
ghost use Rattle.mxf_klv.specs.Parts.{NoteParts};
ghost use Rattle.mxf_klv.specs.Rising.{In};
ghost use Rattle.mxf_catalogue.specs.Content.{IsContent};
ghost use Rattle.std.specs.List.{filter_map};
ghost use Rattle.mxf_views.specs.Partitions.{partitions_of};
ghost use Rattle.mxf_views.specs.RandomIndexView.{rip_view_of};
ghost use Rattle.mxf_places.specs.FirstClaims.{AreInOrder, IsFirstClaim, SpeaksOf, reason_rank};
ghost use Rattle.mxf_places.specs.declared.reason.Reason.{Reason};
ghost use Rattle.mxf_places.specs.Claims.{claim_at, claims_of, entry_claim, entry_claims, footer_claim, named_place};
ghost use Rattle.mxf_places.specs.Claims.{place_claim, previous_claim, zone_claim, zone_reason};
ghost use Rattle.mxf_places.specs.Named.{IsClaim, Names};
ghost use Rattle.mxf_places.specs.declared.claim.Claim.{Claim};

use crate::held::Holdings;
use crate::reason::Reason;
use crate::stretch::{Zone, zone_of};
use mxf_klv::OutOfMemory;
use mxf_sets::RipEntry;
use mxf_views::{Partition, RipAt, RipView, Views};
use std::alloc::Global;

/// What a pack claims of offsets: from where up to which end, in bytes. If the claim is open, nothing is known from the
/// last byte on.
#[derive(Clone, Copy, Debug, PartialEq, Eq)]
pub struct Claim {
    pub reason: Reason,
    /// The offset of the pack; none for the header partition, which no pack names.
    pub source: Option<u64>,
    /// A file offset, in bytes.
    pub from: u64,
    /// The file offset after the last byte.
    pub end: u128,
    /// Whether more may follow after the end, so that the end isn't known.
    pub is_open: bool,
}

impl Claim {
    /// The place that it names, in bytes; none if it is that of a stretch.
    #[tactic(auto, unfolding(crate::specs::Claims::named_place))]
    pub fn named_place(&self) -> Option<u64>
        ensures { result ≡ named_place self.now }
    {
        if self.reason.is_of_stretch() {
            None
        } else {
            Some(self.from)
        }
    }
}

/// The claims of all packs of the views, by reason and then source. It takes memory.
#[tactic(auto, unfolding(crate::specs::Claims::claims_of))]
pub fn claims(alloc: Global, holdings: &Holdings<'_>) -> Result<Vec<Claim>, OutOfMemory>
    ensures { IfOk result (λ claims. claims.items ≡ claims_of holdings.now) }
{
    let mut claims = Vec::new(alloc);
    claims.push(place_claim(Reason::Header, None, 0))?;
    add_footers(&mut claims, holdings.views())?;
    add_zones(&mut claims, holdings, Zone::Metadata)?;
    add_zones(&mut claims, holdings, Zone::Index)?;
    add_entries(&mut claims, holdings.views())?;
    add_previous(&mut claims, holdings.views())?;
    Ok(claims)
}

/// The claim of a place that a pack names.
fn place_claim(reason: Reason, source: Option<u64>, place: u64) -> Claim
    ensures { result ≡ place_claim reason source place }
{
    Claim {
        reason,
        source,
        from: place,
        end: u128::from(place) + 1,
        is_open: false,
    }
}

/// Adds what partition packs say of the footer partition above them.
fn add_footers(claims: &mut Vec<Claim>, views: &Views) -> Result<(), OutOfMemory>
    ensures { OnOk result (claims.new.items ≡ claims.old.items ++ filter_map footer_claim (partitions_of views.now)) }
{
    let partitions = views.partitions_in_numbers().iter();
    let found = partitions.filter_map(|partition| footer_claim(partition));
    Ok(claims.extend(found)?)
}

/// What a partition pack says of the footer partition above it.
#[tactic(auto, unfolding(crate::specs::Claims::footer_claim))]
fn footer_claim(partition: &Partition) -> Option<Claim>
    ensures { result ≡ footer_claim partition.now }
{
    let place = partition.numbers.footer_partition;
    if place <= partition.offset {
        return None;
    }
    Some(place_claim(Reason::Footer, Some(partition.offset), place))
}

/// Adds where the zones of partitions lie.
fn add_zones(
    claims: &mut Vec<Claim>,
    holdings: &Holdings<'_>,
    zone: Zone,
) -> Result<(), OutOfMemory>
    ensures { OnOk result (claims.new.items
        ≡ claims.old.items ++ filter_map (zone_claim zone holdings.now) (partitions_of holdings.now)) }
{
    let partitions = holdings.views().partitions_in_numbers().iter();
    let found = partitions.filter_map(|partition| zone_claim(holdings, zone, partition));
    Ok(claims.extend(found)?)
}

/// Where the zone of a partition lies.
#[tactic(auto, unfolding(crate::specs::Claims::zone_claim))]
fn zone_claim(holdings: &Holdings<'_>, zone: Zone, partition: &Partition) -> Option<Claim>
    ensures { result ≡ zone_claim zone holdings.now partition.now }
{
    let stretch = zone_of(holdings, zone, partition)?;
    Some(Claim {
        reason: zone_reason(zone),
        source: Some(partition.offset),
        from: stretch.from,
        end: stretch.end,
        is_open: stretch.is_open,
    })
}

/// The reason by which bytes of the zone are restored.
fn zone_reason(zone: Zone) -> Reason
    ensures { result ≡ zone_reason zone }
{
    match zone {
        Zone::Metadata => Reason::Metadata,
        Zone::Index => Reason::Index,
    }
}

/// Adds what the entries of the only random index pack say.
fn add_entries(claims: &mut Vec<Claim>, views: &Views) -> Result<(), OutOfMemory>
    ensures { OnOk result (claims.new.items ≡ claims.old.items ++ entry_claims (rip_view_of views.now)) }
{
    match views.rip() {
        RipView::One(rip) => add_entries_of(claims, &rip),
        _ => Ok(()),
    }
}

/// Adds what the entries of a random index pack say.
fn add_entries_of(claims: &mut Vec<Claim>, rip: &RipAt<'_>) -> Result<(), OutOfMemory>
    ensures { OnOk result (claims.new.items
        ≡ claims.old.items ++ filter_map (entry_claim rip.now.offset) (map (λ e. e.0) rip.now.entries)) }
{
    let found = rip
        .listed()
        .filter_map(|entry| entry_claim(rip.offset(), entry));
    Ok(claims.extend(found)?)
}

/// What an entry of the random index pack at an offset says. One at 0 says no more than is known.
#[tactic(auto, unfolding(crate::specs::Claims::entry_claim))]
fn entry_claim(offset: u64, entry: RipEntry) -> Option<Claim>
    ensures { result ≡ entry_claim offset entry }
{
    let place = entry.offset;
    if place == 0 {
        return None;
    }
    Some(place_claim(Reason::Entry, Some(offset), place))
}

/// Adds what partition packs say of the partition before them.
fn add_previous(claims: &mut Vec<Claim>, views: &Views) -> Result<(), OutOfMemory>
    ensures { OnOk result (claims.new.items ≡ claims.old.items ++ filter_map previous_claim (partitions_of views.now)) }
{
    let partitions = views.partitions_in_numbers().iter();
    let found = partitions.filter_map(|partition| previous_claim(partition));
    Ok(claims.extend(found)?)
}

/// What a partition pack says of the partition before it.
#[tactic(auto, unfolding(crate::specs::Claims::previous_claim))]
fn previous_claim(partition: &Partition) -> Option<Claim>
    ensures { result ≡ previous_claim partition.now }
{
    let place = partition.numbers.previous_partition;
    if place == 0 || partition.offset <= place {
        return None;
    }
    Some(place_claim(Reason::Previous, Some(partition.offset), place))
}

/// A law: the claims are the header partition at 0, the footer and previous partitions that packs name, the zones of
/// partitions, and the entries of the only random index pack.
pub fn claims_by_definition()
    ensures { (notes : List NoteParts) (c : Claim) → IsContent notes → In c (claims_of notes) ↔ IsClaim notes c }
{}

/// A law: the claims stand in the order of their reasons, what helps most first, and then of their sources. The first
/// claim of an offset is the one of those that speak of it that goes first.
pub fn claims_in_order()
    ensures rising { (notes : List NoteParts) → IsContent notes → AreInOrder (claims_of notes) }
    ensures first { (notes : List NoteParts) (x : ℕ) (c : Claim) → IsContent notes
        → (claim_at notes x ≡ Some c) ↔ IsFirstClaim notes x c }
    ensures none { (notes : List NoteParts) (x : ℕ) → IsContent notes
        → (claim_at notes x ≡ None) ↔ ((c : Claim) → IsClaim notes c → ¬ SpeaksOf c x) }

    // What no pack says goes after all claims.
    ensures gap { (notes : List NoteParts) (c : Claim) → IsClaim notes c
        → reason_rank c.reason < reason_rank Reason.Gap }
    ensures names { (c : Claim) (x : ℕ) → (named_place c ≡ Some x) ↔ Names c x }
{}
