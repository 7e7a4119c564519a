//! Which indexes there are, by their IndexSIDs (ST 377-1, Index Table Segment and Partition Pack).
ghost use Rattle.std.specs.Prelude.{◌≡◌, ◌↔◌, ◌==◌, ℕ, IfOk, List, filter, map, not};
ghost use Rattle.std.specs.List.{filter_map, list_any};
ghost use Rattle.std.specs.Ordering.{nat_cmp};
ghost use Rattle.mxf_klv.specs.Parts.{NoteParts};
ghost use Rattle.mxf_klv.specs.Rising.{In, IsRising};
ghost use Rattle.mxf_views.specs.Partitions.{partitions_of};
ghost use Rattle.mxf_views.specs.Places.{segments_of};
ghost use Rattle.mxf_units.specs.Indexes.{HasSegment, IsNamedIndex, index_sid_named, index_sids_of};
ghost use Rattle.mxf_units.specs.Indexes.{named_index_sids_of};

use mxf_klv::{OutOfMemory, sort_once};
use mxf_views::{Partition, Views};
use std::alloc::Global;

/// The IndexSIDs that index table segments have, each once, rising. They take memory.
#[tactic(auto, unfolding(crate::specs::Indexes::index_sids_of))]
pub fn index_sids(alloc: Global, views: &Views) -> Result<Vec<u32>, OutOfMemory>
    ensures { IfOk result (λ v. v.items ≡ index_sids_of views.now) }
{
    let mut index_sids = index_sids_in(alloc, views)?;
    sort_once(&mut index_sids);
    Ok(index_sids)
}

/// The IndexSIDs of all segments, in the order of these.
fn index_sids_in(alloc: Global, views: &Views) -> Result<Vec<u32>, OutOfMemory>
    ensures { IfOk result (λ v. v.items ≡ map (λ s. s.segment.numbers.index_sid) (segments_of views.now)) }
{
    let segments = views.segments_in_numbers().iter();
    let index_sids = segments.map(|segment| segment.numbers.index_sid);
    Ok(index_sids.collect(alloc)?)
}

/// The IndexSIDs that partitions with index table segments name, but for 0 and for those that segments have
/// ([`index_sids`]): each once, rising. The segments of these indexes aren't held, or can't be read. They take memory.
#[tactic(auto, unfolding(crate::specs::Indexes::named_index_sids_of))]
pub fn named_index_sids(alloc: Global, views: &Views) -> Result<Vec<u32>, OutOfMemory>
    ensures { IfOk result (λ v. v.items ≡ named_index_sids_of views.now) }
{
    let held = index_sids(alloc, views)?;
    let mut named = index_sids_named(alloc, views)?;
    drop_held(&mut named, &held);
    sort_once(&mut named);
    Ok(named)
}

/// The IndexSIDs that partitions name for their index table segments, in the order of these.
fn index_sids_named(alloc: Global, views: &Views) -> Result<Vec<u32>, OutOfMemory>
    ensures { IfOk result (λ v. v.items ≡ filter_map index_sid_named (partitions_of views.now)) }
{
    let partitions = views.partitions_in_numbers().iter();
    let index_sids = partitions.filter_map(|partition| index_sid_named(partition));
    Ok(index_sids.collect(alloc)?)
}

/// The IndexSID that a partition names for its index table segments, if it says that it has some.
fn index_sid_named(partition: &Partition) -> Option<u32>
    ensures { result ≡ index_sid_named partition.now }
{
    let numbers = &partition.numbers;
    if numbers.index_byte_count > 0 && numbers.index_sid > 0 {
        Some(numbers.index_sid)
    } else {
        None
    }
}

/// Takes out those that are held. These rise.
fn drop_held(index_sids: &mut Vec<u32>, held: &[u32])
    requires { IsRising nat_cmp held.now }
    ensures { index_sids.new.items ≡ filter (λ sid. not (list_any (λ h. h == sid) held.now)) index_sids.old.items }
{
    index_sids.retain(|index_sid| !is_among(held, *index_sid));
}

/// Whether an IndexSID is one of those that rise: a binary search.
fn is_among(index_sids: &[u32], index_sid: u32) -> bool
    requires { IsRising nat_cmp index_sids.now }
    ensures { result ≡ list_any (λ held. held == index_sid) index_sids.now }
{
    index_sids.binary_search(&index_sid).is_ok()
}

/// A law of [`index_sids`]: they are the IndexSIDs that segments have, and they rise.
pub fn index_sids_by_definition()
    ensures members { (notes : List NoteParts) (sid : ℕ) → In sid (index_sids_of notes) ↔ HasSegment notes sid }
    ensures rising { (notes : List NoteParts) → IsRising nat_cmp (index_sids_of notes) }
{}

/// A law of [`named_index_sids`]: they are the IndexSIDs that a partition names for its index table segments and no
/// segment has, and they rise.
pub fn named_index_sids_by_definition()
    ensures members { (notes : List NoteParts) (sid : ℕ)
        → In sid (named_index_sids_of notes) ↔ (IsNamedIndex notes sid × ¬ HasSegment notes sid) }
    ensures rising { (notes : List NoteParts) → IsRising nat_cmp (named_index_sids_of notes) }
{}
