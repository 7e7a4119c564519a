//! Where the essence of a partition lies (ST 377-1, BodyOffset; sureness is this project's profile).
ghost use Rattle.std.specs.Prelude.{◌≡◌, ◌==◌, [], IfOk, List, None, Some};
ghost use Rattle.mxf_klv.specs.Parts.{NoteParts};
ghost use Rattle.mxf_views.specs.Partitions.{PartitionParts};
ghost use Rattle.mxf_units.specs.Limits.{IsEssenceZone};
ghost use Rattle.std.specs.Ordering.{nat_cmp};
ghost use Rattle.mxf_klv.specs.Rising.{union};
ghost use Rattle.mxf_views.specs.Places.{segments_of};
ghost use Rattle.mxf_views.specs.RandomIndexView.{rip_view_of};
ghost use Rattle.mxf_places.specs.Held.{end_of_file};
ghost use Rattle.mxf_units.specs.Streams.{in_order, next_of, places_above};
ghost use Rattle.mxf_units.specs.EssenceZones.{begins_inside, bounds_of, first_packet, is_clip_wrapped, is_one};
ghost use Rattle.mxf_units.specs.EssenceZones.{is_sure, limit_of, rip_place_by, zone_by, zone_of};
ghost use Rattle.mxf_units.specs.declared.essence_zone.EssenceZone.{EssenceZone};

pub(crate) mod part;

use crate::bounds::{bound_above, bounds, has_one_rip, names_before, rip_place};
use crate::first_packet::first_packet;
use crate::segments::{all_segments, places_above_0};
use crate::stream::first_above;
use mxf_klv::{Kind, Note, OutOfMemory};
use mxf_places::Holdings;
use mxf_views::{Partition, StreamPlace};
use std::alloc::Global;
use std::marker::Model;

/// Where the essence of a partition lies, as far as that is known.
#[derive(Clone, Copy, Debug, PartialEq, Eq, PartialOrd, Ord)]
pub struct EssenceZone {
    /// The offset in its stream that lies at the origin, in bytes.
    pub body_offset: u64,
    /// The file offset of the origin, in bytes.
    pub origin: u64,
    /// The file offset up to which the essence may lie, if one is known.
    pub limit: Option<u64>,
    /// Whether the essence lies up to there, and no unknown partition in between.
    pub is_sure: bool,
}

/// What gives the essence zones of partitions: what is held, the first places of the streams, where partitions stand or
/// may stand, and the random index pack.
#[derive(Drop)]
pub(crate) struct Evidence<'a> {
    holdings: &'a Holdings<'a>,
    firsts: Vec<StreamPlace>,
    bounds: Vec<u64>,
    rip_place: Option<u64>,
    has_one_rip: bool,
}

impl<'a> Model for Evidence<'a> {
    ghost use Rattle.std.specs.Prelude.{List, ◌≡◌, []};
    ghost use Rattle.std.specs.Ordering.{nat_cmp};
    ghost use Rattle.mxf_klv.specs.Parts.{NoteParts};
    ghost use Rattle.mxf_klv.specs.Rising.{union};
    ghost use Rattle.mxf_views.specs.Places.{segments_of};
    ghost use Rattle.mxf_views.specs.RandomIndexView.{rip_view_of};
    ghost use Rattle.mxf_places.specs.Held.{end_of_file};
    ghost use Rattle.mxf_units.specs.Streams.{in_order, places_above};
    ghost use Rattle.mxf_units.specs.EssenceZones.{bounds_of, is_one, rip_place_by};

    ghost Value = { List NoteParts };

    ghost view = { λ e. e.holdings.now };

    ghost invariant = { λ e. (e.firsts.items ≡ in_order (places_above 0 (segments_of e.holdings.now)))
        × (e.bounds.items ≡ union nat_cmp [] (bounds_of e.holdings.now))
        × (e.rip_place ≡ rip_place_by (end_of_file e.holdings.now) (rip_view_of e.holdings.now))
        × (e.has_one_rip ≡ is_one (rip_view_of e.holdings.now)) };
}

impl<'a> Evidence<'a> {
    /// The evidence of what is held. It takes memory.
    pub fn of(alloc: Global, holdings: &'a Holdings<'a>) -> Result<Evidence<'a>, OutOfMemory>
        ensures { IfOk result (λ e. e ≡ holdings.now) }
    {
        let segments = all_segments(alloc, holdings.views())?;
        let firsts = places_above_0(alloc, &segments)?;
        let bounds = bounds(alloc, holdings)?;
        Ok(Evidence {
            holdings,
            firsts,
            bounds,
            rip_place: rip_place(holdings),
            has_one_rip: has_one_rip(holdings.views()),
        })
    }

    /// Whether all units of a partition lie in its first packet.
    fn is_clip_wrapped(&self, partition: &Partition, first: &Note) -> bool
        ensures { result ≡ is_clip_wrapped self.now partition.now first.now }
    {
        let numbers = &partition.numbers;
        first.kind() == Kind::Essence
            && numbers.body_offset == 0
            && begins_inside(first, self.second_place(numbers.body_sid))
    }

    /// The place of the second unit of a stream, in bytes: the first above 0.
    fn second_place(&self, body_sid: u32) -> Option<u128>
        ensures { result ≡ next_of (segments_of self.now) body_sid 0 }
    {
        first_above(&self.firsts, body_sid, 0)
    }

    /// Where a partition ends at the latest, in bytes.
    fn limit_of(&self, partition: &Partition) -> Option<u64>
        ensures { result ≡ limit_of self.now partition.now }
    {
        bound_above(&self.bounds, partition.offset).or(self.rip_place)
    }

    /// Whether no unknown partition lies between a partition and a limit, in bytes.
    fn is_sure(&self, partition: &Partition, limit: Option<u64>) -> bool
        ensures { result ≡ is_sure self.now partition.now limit }
    {
        match limit {
            Some(limit) => {
                self.has_one_rip || names_before(self.holdings.views(), limit, partition.offset)
            }
            None => false,
        }
    }

    /// Where the essence of a partition lies that begins with a packet.
    fn zone_by(&self, partition: &Partition, first: &Note) -> EssenceZone
        ensures { result ≡ zone_by self.now partition.now first.now }
    {
        if self.is_clip_wrapped(partition, first) {
            return EssenceZone {
                body_offset: 0,
                origin: first.end() - first.length(),
                limit: Some(first.end()),
                is_sure: true,
            };
        }
        let limit = self.limit_of(partition);
        EssenceZone {
            body_offset: partition.numbers.body_offset,
            origin: first.offset(),
            limit,
            is_sure: self.is_sure(partition, limit),
        }
    }

    /// Where the essence of a partition lies, if its first packet is known.
    #[tactic(auto, unfolding(crate::specs::EssenceZones::zone_of))]
    pub fn zone_of(&self, partition: &Partition) -> Option<EssenceZone>
        ensures { result ≡ zone_of self.now partition.now }
    {
        let first = first_packet(self.holdings, partition)?;
        Some(self.zone_by(partition, first))
    }
}

/// Whether the second unit of a stream begins inside a packet, by its place in bytes.
fn begins_inside(first: &Note, second: Option<u128>) -> bool
    ensures { result ≡ begins_inside first.now second }
{
    match second {
        Some(offset) => offset < u128::from(first.end() - first.offset()),
        None => false,
    }
}

/// A law of [`Units::unit`](crate::Units::unit): where the essence of a partition lies is by its first packet, by what
/// stands or may stand above it, and by what is sure of that.
pub fn limits_by_definition()
    ensures zone { (notes : List NoteParts) (p : PartitionParts) (n : NoteParts)
        → IsEssenceZone notes p n (zone_by notes p n) }
    ensures known { (notes : List NoteParts) (p : PartitionParts) (n : NoteParts)
        → first_packet notes p ≡ Some n → zone_of notes p ≡ Some (zone_by notes p n) }
    ensures unknown { (notes : List NoteParts) (p : PartitionParts)
        → first_packet notes p ≡ None → zone_of notes p ≡ None }

    // By one first packet it lies at one place.
    ensures one { (notes : List NoteParts) (p : PartitionParts) (n : NoteParts) (y z : EssenceZone)
        → IsEssenceZone notes p n y → IsEssenceZone notes p n z → y ≡ z }
{}
