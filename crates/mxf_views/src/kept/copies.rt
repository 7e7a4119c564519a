//! The copies of the header metadata, kept by their partitions, which rise.
ghost use Rattle.std.specs.Prelude.{◌≡◌, ◌<◌, ℕ, List, map, vec_len, vec_capacity};
ghost use Rattle.mxf_klv.specs.Parts.{NoteParts};
ghost use Rattle.mxf_klv.specs.Rising.{In};
ghost use Rattle.mxf_catalogue.specs.Content.{IsContent};
ghost use Rattle.mxf_catalogue.specs.Disputes.{clear_notes};
ghost use Rattle.mxf_views.specs.Changes.{IsUnmet, SameOutside};
ghost use Rattle.mxf_views.specs.Copies.{CopiesRise, copy_of};
ghost use Rattle.mxf_views.specs.Kept.{copies_followed, may_change, renewed};
ghost use Rattle.mxf_views.specs.Partitions.{PartitionParts, partitions_of};

use crate::copy::{CopyInfo, copy_there};
use crate::kept::arrival::Arrival;
use crate::kept::keyed::{leave, put};
use mxf_catalogue::Catalogue;
use mxf_klv::Keyed;

/// Whether what comes and goes with an arrival may change the copy.
fn may_change(copy: &CopyInfo, arrival: &Arrival) -> bool
    ensures { result ≡ may_change arrival.now.start arrival.now.end arrival.now.can_bring_start copy.now copy.now.start }
{
    match copy.start {
        Some(zone) => {
            copy.partition < arrival.end && arrival.start.saturating_sub(zone) < copy.bytes
        }
        None => arrival.can_bring_start,
    }
}

/// The copy, counted anew if it may have changed.
fn renewed(catalogue: &Catalogue, arrival: &Arrival, copy: &CopyInfo) -> CopyInfo
    ensures { result ≡ renewed catalogue.now arrival.now.start arrival.now.end arrival.now.can_bring_start copy.now }
{
    if !may_change(copy, arrival) {
        return *copy;
    }
    match copy_there(catalogue, copy.partition) {
        Some(copy) => copy,
        None => *copy,
    }
}

/// Counts anew the copies that may have changed.
fn renew(copies: &mut Vec<CopyInfo>, catalogue: &Catalogue, arrival: &Arrival)
    ensures items { copies.new.items ≡ map
        (renewed catalogue.now arrival.now.start arrival.now.end arrival.now.can_bring_start) copies.old.items }
    ensures len { vec_len copies.new ≡ vec_len copies.old }
    ensures capacity { vec_capacity copies.new ≡ vec_capacity copies.old }
{
    for copy in copies.iter_mut() {
        *copy = renewed(catalogue, arrival, copy);
    }
}

/// Copies rise by their partitions.
impl Keyed for CopyInfo {
    ghost key = { λ c. c.partition };

    fn key(&self) -> u64 {
        self.partition
    }
}

/// Takes out the copies that an arrival moves, counts anew those that may have changed, and puts that of the arrival's
/// partition among them.
pub(super) fn follow_copies(copies: &mut Vec<CopyInfo>, catalogue: &Catalogue, arrival: &Arrival)
    requires rising { CopiesRise copies.old.items }
    requires room { vec_len copies.old < vec_capacity copies.old }
    ensures { copies.new.items ≡ copies_followed catalogue.now arrival.now.offset arrival.now.start arrival.now.end
        arrival.now.can_bring_start copies.old.items }
{
    leave(copies, arrival);
    renew(copies, catalogue, arrival);
    if let Some(copy) = copy_there(catalogue, arrival.offset) {
        put(copies, copy);
    }
}

/// A law: a copy that a change in a range doesn't meet stays as it is.
pub(super) fn unmet_copies_stay()
    ensures { (start end : ℕ) (before after : List NoteParts) (p : PartitionParts) → IsContent before → IsContent after
        → SameOutside start end before after → In p (partitions_of before)
        → 0 < p.pack.numbers.header_byte_count → IsUnmet start end before after p
        → copy_of (clear_notes after) p ≡ copy_of (clear_notes before) p }
{}
