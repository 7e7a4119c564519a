//! Where a partition ends at the latest.
ghost use Rattle.std.specs.Prelude.{◌≡◌, ◌==◌, ◌++◌, [], IfOk, OnOk, find, map};
ghost use Rattle.std.specs.List.{filter_map};
ghost use Rattle.std.specs.Option.{option_map};
ghost use Rattle.std.specs.Ordering.{nat_cmp};
ghost use Rattle.mxf_klv.specs.Rising.{IsRising, union};
ghost use Rattle.mxf_views.specs.Partitions.{partitions_of, previous_of};
ghost use Rattle.mxf_views.specs.RandomIndexView.{rip_view_of};
ghost use Rattle.mxf_places.specs.Held.{end_of_file};
ghost use Rattle.mxf_units.specs.EssenceZones.{bounds_of, is_one, is_open_place, names_before, open_place};
ghost use Rattle.mxf_units.specs.EssenceZones.{rip_place_by};
ghost use Rattle.mxf_units.specs.Streams.{least_above};

use mxf_klv::{OutOfMemory, sort_once, up_to};
use mxf_places::{Claim, Holdings, claims};
use mxf_views::{RipView, Views};
use std::alloc::Global;

/// Where partitions stand, or may stand, in bytes, rising. They take memory.
pub(crate) fn bounds(alloc: Global, holdings: &Holdings<'_>) -> Result<Vec<u64>, OutOfMemory>
    ensures { IfOk result (λ v. v.items ≡ union nat_cmp [] (bounds_of holdings.now)) }
{
    let mut bounds = partition_offsets(alloc, holdings.views())?;
    let claims = claims(alloc, holdings)?;
    add_open_places(&mut bounds, holdings, &claims)?;
    Ok(rising(bounds))
}

/// The offsets, each once, rising.
pub(crate) fn rising(mut offsets: Vec<u64>) -> Vec<u64>
    ensures { result.items ≡ union nat_cmp [] offsets.items }
{
    sort_once(&mut offsets);
    offsets
}

/// Where the partitions stand, in bytes, rising.
fn partition_offsets(alloc: Global, views: &Views) -> Result<Vec<u64>, OutOfMemory>
    ensures { IfOk result (λ v. v.items ≡ map (λ p. p.offset) (partitions_of views.now)) }
{
    let partitions = views.partitions_in_numbers().iter();
    let offsets = partitions.map(|partition| partition.offset);
    Ok(offsets.collect(alloc)?)
}

/// Adds the places that claims name, if it isn't known whole what begins there.
fn add_open_places(
    bounds: &mut Vec<u64>,
    holdings: &Holdings<'_>,
    claims: &[Claim],
) -> Result<(), OutOfMemory>
    ensures { OnOk result (bounds.new.items
        ≡ bounds.old.items ++ filter_map (open_place holdings.now) claims.now) }
{
    let places = claims
        .iter()
        .filter_map(|claim| open_place(holdings, claim));
    Ok(bounds.extend(places)?)
}

/// The place that a claim names, in bytes, if it isn't known whole what begins there.
#[tactic(auto, unfolding(crate::specs::EssenceZones::open_place))]
fn open_place(holdings: &Holdings<'_>, claim: &Claim) -> Option<u64>
    ensures { result ≡ open_place holdings.now claim.now }
{
    let place = claim.named_place()?;
    if is_open_place(holdings, place) {
        Some(place)
    } else {
        None
    }
}

/// Whether an offset, in bytes, may lie in the file, and it isn't known whole what begins there.
fn is_open_place(holdings: &Holdings<'_>, offset: u64) -> bool
    ensures { result ≡ is_open_place holdings.now offset }
{
    holdings.is_in_file(offset)
        && (holdings.is_disputed_at(offset)
            || holdings.begins_clear_head(offset)
            || !holdings.is_held(offset))
}

/// The first of rising offsets above another: a binary search.
pub(crate) fn bound_above(bounds: &[u64], offset: u64) -> Option<u64>
    requires { IsRising nat_cmp bounds.now }
    ensures { result ≡ least_above offset bounds.now }
{
    let (_, above) = bounds.split_at(up_to(bounds, offset));
    above.first().copied()
}

/// The offset of the only random index pack, in bytes, if the end of the file is known.
pub(crate) fn rip_place(holdings: &Holdings<'_>) -> Option<u64>
    ensures { result ≡ rip_place_by (end_of_file holdings.now) (rip_view_of holdings.now) }
{
    match holdings.views().rip() {
        RipView::One(rip) if holdings.end().is_some() => Some(rip.offset()),
        _ => None,
    }
}

/// Whether there is only one random index pack, and it can be read.
pub(crate) fn has_one_rip(views: &Views) -> bool
    ensures { result ≡ is_one (rip_view_of views.now) }
{
    matches!(views.rip(), RipView::One(_))
}

/// Whether a partition stands at a file offset and names another as the one before it.
pub(crate) fn names_before(views: &Views, offset: u64, before: u64) -> bool
    ensures { result ≡ names_before views.now offset before }
{
    match previous_at(views, offset) {
        Some(previous) => previous == before,
        None => false,
    }
}

/// What the partition at a file offset names as the one before it.
fn previous_at(views: &Views, offset: u64) -> Option<u64>
    ensures { result ≡ option_map previous_of (find (λ p. p.offset == offset) (partitions_of views.now)) }
{
    let partition = views.partition_at(offset)?;
    Some(partition.numbers.previous_partition)
}
