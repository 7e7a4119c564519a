//! The next place after another in its stream (ST 377-1, Index Table Segment).
ghost use Rattle.std.specs.Prelude.{◌≡◌, ◌+◌, ◌^◌, ◌<◌, ◌≤◌, IfOk, IfSome, List};
ghost use Rattle.std.specs.List.{AllByRecursion, filter_map};
ghost use Rattle.std.specs.List.Sorted.{IsNonDecreasingBy};
ghost use Rattle.std.specs.Option.{ForSome};
ghost use Rattle.mxf_units.specs.NextPlaces.{AreNextPlaces, AreSized, first_number, next_by, number_of, place_above};
ghost use Rattle.mxf_units.specs.Streams.{IsSmall, least_above, lesser, offsets_in};

use crate::constant_units::{ConstantUnits, constant_units, number_of};
use crate::intervals::Intervals;
use crate::segments::listed_places;
use crate::stream::{first_above, lesser};
use mxf_klv::OutOfMemory;
use mxf_views::{SegmentAt, StreamPlace};
use std::alloc::Global;
use std::marker::Model;

/// The places of segments, asked for the next one.
#[derive(Drop)]
pub(crate) struct NextPlaces {
    /// The places of units that segments list, in their order.
    listed: Vec<StreamPlace>,
    /// The units of segments that list none, since they have one size.
    constant: Intervals<ConstantUnits>,
}

impl Model for NextPlaces {
    ghost use Rattle.std.specs.List.{AllByRecursion};
    ghost use Rattle.mxf_klv.specs.Rising.{IsRising};
    ghost use Rattle.mxf_units.specs.NextPlaces.{AreSized, NextPlacesParts};
    ghost use Rattle.mxf_units.specs.Streams.{IsSmall};
    ghost use Rattle.mxf_views.specs.Places.{place_cmp};

    ghost Value = { NextPlacesParts };

    ghost view = { λ n. record { listed = n.listed.items; units = n.constant } };

    ghost invariant = { λ n. IsRising place_cmp n.listed.items × AllByRecursion IsSmall n.listed.items
        × AllByRecursion AreSized n.constant };
}

impl NextPlaces {
    /// The places of these segments. They take memory: n log n of the segments and their entries, as their time does.
    pub(crate) fn of(alloc: Global, segments: &[SegmentAt<'_>]) -> Result<NextPlaces, OutOfMemory>
        ensures { IfOk result (λ n. AreNextPlaces segments.now n) }
    {
        let listed = listed_places(alloc, segments)?;
        let constant = Intervals::of(alloc, constant_units(alloc, segments)?)?;
        Ok(NextPlaces { listed, constant })
    }

    /// The next place after another, in bytes from the start of its stream: three binary searches, and a look at each
    /// segment of units of one size that overlaps there.
    pub(crate) fn behind(&self, place: StreamPlace) -> Option<u128>
        requires { IsSmall place }
        ensures next { result ≡ next_by self.now place.body_sid place.offset }
        ensures small { IfSome result (λ n. n + 2 ^ 96 ≤ 2 ^ 128) }
    {
        let listed = first_above(&self.listed, place.body_sid, place.offset);
        let (near, above) = self
            .constant
            .around(number_of(place.body_sid, place.offset));
        let next = lesser_above(listed, near, place);
        lesser(next, first_behind(above, place))
    }
}

/// The lesser of an offset, in bytes, and of the first ones above a place that units have.
fn lesser_above(next: Option<u128>, near: &[ConstantUnits], place: StreamPlace) -> Option<u128>
    requires sized { AllByRecursion AreSized near.now }
    requires small { IsSmall place }
    requires small_next { ForSome next (λ n. n + 2 ^ 96 ≤ 2 ^ 128) }
    ensures next { result ≡ lesser next (least_above place.offset
        (offsets_in place.body_sid (filter_map (place_above place.offset) near.now))) }
    ensures small { IfSome result (λ n. n + 2 ^ 96 ≤ 2 ^ 128) }
{
    let mut least = next;
    for units in near {
        least = lesser(least, units.offset_above(place));
    }
    least
}

/// The first offset after a place, in bytes, of units that begin after it: that of the first of them.
fn first_behind(above: &[ConstantUnits], place: StreamPlace) -> Option<u128>
    requires sized { AllByRecursion AreSized above.now }
    requires small { IsSmall place }
    requires behind { AllByRecursion (λ c. number_of place.body_sid place.offset < first_number c) above.now }
    requires rising { IsNonDecreasingBy first_number above.now }
    ensures next { result ≡ least_above place.offset
        (offsets_in place.body_sid (filter_map (place_above place.offset) above.now)) }
    ensures small { IfSome result (λ n. n + 2 ^ 96 ≤ 2 ^ 128) }
{
    above.first()?.offset_above(place)
}
