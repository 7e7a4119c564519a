//! Timeline tracks (ST 377-1, Timeline Track set).
ghost use Rattle.std.specs.Prelude.{◌≡◌};
ghost use Rattle.std.specs.Option.{option_map};
ghost use Rattle.mxf_sets.specs.Track.{track_at};

use super::values::{optional_i64, optional_u32, required_identifier, required_value};
use super::{Field, FieldFault, INSTANCE_UID, Rate, Shape, read_fields};
use std::marker::Model;
use uuid::Uuid;

// The tags (ST 377-1, Timeline Track set).
const TRACK_ID: u16 = 0x4801;

const TRACK_NUMBER: u16 = 0x4804;

const TRACK_NAME: u16 = 0x4802;

const EDIT_RATE: u16 = 0x4B01;

const ORIGIN: u16 = 0x4B02;

const SEQUENCE: u16 = 0x4803;

/// The fields that are read, in the order of testing.
#[rattlefmt::skip]
const FIELDS: [Field; 7] = [
    Field { tag: INSTANCE_UID, shape: Shape::Exactly(16), required: true },
    Field { tag: TRACK_ID, shape: Shape::Exactly(4), required: false },
    Field { tag: TRACK_NUMBER, shape: Shape::Exactly(4), required: false },
    Field { tag: TRACK_NAME, shape: Shape::Any, required: false },
    Field { tag: EDIT_RATE, shape: Shape::Exactly(8), required: true },
    Field { tag: ORIGIN, shape: Shape::Exactly(8), required: false },
    Field { tag: SEQUENCE, shape: Shape::Exactly(16), required: true },
];

/// A timeline track of a package (ST 377-1, Timeline Track set): a picture, a sound, data or a timecode along a time.
///
/// Its edit rate is the clock that positions and durations of its sequence are counted by. Tracks of other packages
/// refer to it by the package's identifier and its track identifier; its track number links it to the keys of essence
/// elements.
///
/// The name is the bytes of its item, for [`text`](crate::text).
#[derive(Debug, Drop)]
pub struct Track<'a> {
    instance_uid: Uuid,
    id: u32,
    number: u32,
    name: Option<&'a [u8]>,
    edit_rate: Rate,
    origin: i64,
    sequence: Uuid,
}

impl<'a> Model for Track<'a> {
    ghost use Rattle.std.specs.Option.{option_map};
    ghost use Rattle.mxf_sets.specs.Track.{TrackParts};

    ghost Value = { TrackParts };

    ghost view = { λ r. record {
      instance_uid = r.instance_uid;
      id = r.id;
      number = r.number;
      name = option_map (λ v. v.now) r.name;
      edit_rate = r.edit_rate;
      origin = r.origin;
      sequence = r.sequence;
    } };
}

impl<'a> Track<'a> {
    /// Reads the value of a Timeline Track set. The edit rate and the sequence have to be there.
    pub fn read(value: &'a [u8]) -> Result<Track<'a>, FieldFault>
        ensures { result ≡ track_at value.now }
    {
        let items = read_fields(value, &FIELDS)?;
        Ok(Track {
            instance_uid: required_identifier(&items, INSTANCE_UID),
            id: optional_u32(&items, TRACK_ID),
            number: optional_u32(&items, TRACK_NUMBER),
            name: items.first(TRACK_NAME),
            edit_rate: Rate::of(required_value(&items, EDIT_RATE, 8)),
            origin: optional_i64(&items, ORIGIN),
            sequence: required_identifier(&items, SEQUENCE),
        })
    }

    /// The identifier of this set.
    pub fn instance_uid(&self) -> Uuid
        ensures { result ≡ self.now.instance_uid }
    {
        self.instance_uid
    }

    /// The identifier by which source clips name the track; 0 if it isn't there.
    pub fn id(&self) -> u32
        ensures { result ≡ self.now.id }
    {
        self.id
    }

    /// The track number, bytes 13 to 16 of the keys of its essence elements; 0 if it isn't there.
    pub fn number(&self) -> u32
        ensures { result ≡ self.now.number }
    {
        self.number
    }

    /// The name of the track, a text in UTF-16.
    pub fn name(&self) -> Option<&'a [u8]>
        ensures { option_map (λ v. v.now) result ≡ self.now.name }
    {
        self.name
    }

    /// Edit units a second.
    pub fn edit_rate(&self) -> Rate
        ensures { result ≡ self.now.edit_rate }
    {
        self.edit_rate
    }

    /// The position of the first edit unit as the track counts them, in edit units; 0 if it isn't there.
    pub fn origin(&self) -> i64
        ensures { result ≡ self.now.origin }
    {
        self.origin
    }

    /// The reference to the sequence of the track.
    pub fn sequence(&self) -> Uuid
        ensures { result ≡ self.now.sequence }
    {
        self.sequence
    }
}
