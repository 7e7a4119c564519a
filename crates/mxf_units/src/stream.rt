//! Places in essence streams (ST 377-1, Index Table Segment).
ghost use Rattle.std.specs.Prelude.{◌≡◌, ◌&&◌, ◌||◌, ◌==◌, nat_le, nat_lt, [], IfOk, IfSome, ◌<◌, ◌^◌};
ghost use Rattle.mxf_klv.specs.Rising.{IsRising};
ghost use Rattle.mxf_views.specs.Places.{place_cmp};
ghost use Rattle.mxf_units.specs.Streams.{in_order, least_above, lesser, offset_in, offsets_in};

use mxf_klv::sort_once;
use mxf_views::StreamPlace;

/// The places in their order, each once.
pub(crate) fn in_order(mut places: Vec<StreamPlace>) -> Vec<StreamPlace>
    ensures { result.items ≡ in_order places.items }
{
    sort_once(&mut places);
    places
}

/// The lesser of two offsets, if there are any.
pub(crate) fn lesser(first: Option<u128>, second: Option<u128>) -> Option<u128>
    ensures { result ≡ lesser first second }
{
    match (first, second) {
        (Some(first), Some(second)) => Some(first.min(second)),
        (Some(first), None) => Some(first),
        (None, second) => second,
    }
}

/// The offset of the place, if it is one of the stream.
pub(crate) fn offset_in(place: StreamPlace, body_sid: u32) -> Option<u128>
    ensures { result ≡ offset_in body_sid place }
{
    if place.body_sid == body_sid {
        Some(place.offset)
    } else {
        None
    }
}

/// The least offset above another of places in a stream, in bytes: a binary search.
pub(crate) fn first_above(places: &[StreamPlace], body_sid: u32, offset: u128) -> Option<u128>
    requires { IsRising place_cmp places.now }
    ensures { result ≡ least_above offset (offsets_in body_sid places.now) }
{
    let passed = places.partition_point(|place| {
        place.body_sid < body_sid || (place.body_sid == body_sid && place.offset <= offset)
    });
    let (_, above) = places.split_at(passed);
    offset_in(*above.first()?, body_sid)
}
