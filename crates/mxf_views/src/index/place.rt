//! The places that index table segments give for an edit unit (ST 377-1, Index Table Segment; what stands if segments
//! disagree is this project's profile).
ghost use Rattle.std.specs.Prelude.{◌≡◌, ◌↔◌, ℕ, List, [], ◌∷◌};
ghost use Rattle.mxf_klv.specs.Rising.{In, IsRising, with_one};
ghost use Rattle.mxf_views.specs.declared.index.place.StreamPlace.{StreamPlace};
ghost use Rattle.mxf_views.specs.declared.index.place.Place.{Place};
ghost use Rattle.mxf_views.specs.Places.{IsGiven, IsPlace, SegmentAtParts, place_cmp, given_by, place_by, place_of};

use crate::index::SegmentAt;
use std::cmp::Ordering;
use thiserror::Error;

/// The greatest edit unit: segments state theirs as signed numbers of eight bytes.
pub const GREATEST_UNIT: u64 = 9_223_372_036_854_775_807;

/// A place in an essence stream.
#[derive(Clone, Copy, Debug, PartialEq, Eq, PartialOrd, Ord)]
pub struct StreamPlace {
    /// The BodySID of the stream.
    pub body_sid: u32,
    /// In bytes from the start of the stream.
    pub offset: u128,
}

/// Where the index puts an edit unit (ST 377-1, index tables).
///
/// An edit unit is the smallest part of the essence that can be cut out, mostly a frame of the picture with its sound.
/// An index table segment gives, for a run of them, where in the essence stream each begins: by one size that all of
/// them have, or by an entry for each.
///
/// Segments can repeat each other, as a footer repeats those of the body, and are used if they agree. If they put a
/// unit at different places, no place can be relied on.
#[derive(Clone, Copy, Debug, PartialEq, Eq)]
pub enum Place {
    /// No segment gives a place.
    NotIndexed,
    /// All segments that give a place give this one.
    At {
        /// The BodySID of the essence stream.
        body_sid: u32,
        /// In bytes from the start of the stream.
        offset: u128,
    },
    /// Segments give different places.
    Ambiguous {
        /// The least, by BodySID and then by offset.
        first: StreamPlace,
        /// The second least.
        second: StreamPlace,
    },
}

/// No edit unit has so great a number: it is above 9,223,372,036,854,775,807.
#[derive(Clone, Copy, Debug, PartialEq, Eq, Error)]
#[error("bad unit")]
pub struct BadUnit;

impl StreamPlace {
    /// Where the index puts a unit for which both are given.
    fn beside(self, other: StreamPlace) -> Place
        ensures { result ≡ place_by (with_one place_cmp self (other ∷ [])) }
    {
        match self.cmp(&other) {
            Ordering::Less => Place::Ambiguous {
                first: self,
                second: other,
            },
            Ordering::Equal => Place::At {
                body_sid: other.body_sid,
                offset: other.offset,
            },
            Ordering::Greater => Place::Ambiguous {
                first: other,
                second: self,
            },
        }
    }
}

/// The place that a segment gives for an edit unit, if it is one of the IndexSID and covers the unit.
#[tactic(auto, unfolding(crate::specs::Places::given_by))]
pub(super) fn given_by(segment: &SegmentAt<'_>, index_sid: u32, unit: u64) -> Option<StreamPlace>
    ensures { result ≡ given_by index_sid unit segment.now }
{
    let numbers = segment.segment.numbers();
    if numbers.index_sid != index_sid {
        return None;
    }
    let offset = segment.segment.offset_of(unit)?;
    Some(StreamPlace {
        body_sid: numbers.body_sid,
        offset,
    })
}

impl Place {
    /// The place with one more that is given.
    pub(super) fn with(self, given: StreamPlace) -> Place
        ensures { (places : List StreamPlace) → IsRising place_cmp places → self ≡ place_by places
            → result ≡ place_by (with_one place_cmp given places) }
    {
        match self {
            Place::NotIndexed => Place::At {
                body_sid: given.body_sid,
                offset: given.offset,
            },
            Place::At { body_sid, offset } => given.beside(StreamPlace { body_sid, offset }),
            Place::Ambiguous { first, second } => match given.cmp(&first) {
                Ordering::Less => Place::Ambiguous {
                    first: given,
                    second: first,
                },
                Ordering::Equal => self,
                Ordering::Greater => match given.cmp(&second) {
                    Ordering::Less => Place::Ambiguous {
                        first,
                        second: given,
                    },
                    _ => self,
                },
            },
        }
    }
}

/// A law of [`Views::locate`](crate::Views::locate): its place is determined by the set of the places that the segments
/// of the IndexSID give for the unit, whatever their order and however often they give one.
pub fn places_by_definition()
    ensures place { (segments : List SegmentAtParts) (index_sid unit : ℕ) (place : Place)
        → (place_of segments index_sid unit ≡ place) ↔ IsPlace segments index_sid unit place }

    // It is that of the rising list of exactly these places.
    ensures places { (segments : List SegmentAtParts) (index_sid unit : ℕ) (places : List StreamPlace)
        → IsRising place_cmp places → ((p : StreamPlace) → In p places ↔ IsGiven segments index_sid unit p)
        → place_of segments index_sid unit ≡ place_by places }
{}
