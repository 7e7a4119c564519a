//! Sequences (ST 377-1, Sequence set).
ghost use Rattle.std.specs.Prelude.{◌≡◌};
ghost use Rattle.mxf_sets.specs.Sequence.{sequence_at};

use super::values::{duration, required_identifier, required_sixteen};
use super::{Field, FieldFault, INSTANCE_UID, References, Shape, read_fields};
use std::marker::Model;
use uuid::Uuid;

// The tags (ST 377-1, Sequence set).
const DATA_DEFINITION: u16 = 0x0201;

const DURATION: u16 = 0x0202;

const COMPONENTS: u16 = 0x1001;

/// The fields that are read, in the order of testing.
#[rattlefmt::skip]
const FIELDS: [Field; 4] = [
    Field { tag: INSTANCE_UID, shape: Shape::Exactly(16), required: true },
    Field { tag: DATA_DEFINITION, shape: Shape::Exactly(16), required: true },
    Field { tag: DURATION, shape: Shape::Exactly(8), required: false },
    Field { tag: COMPONENTS, shape: Shape::References, required: true },
];

/// The sequence of a track (ST 377-1, Sequence set): what the track holds, how long it is, and its components in order.
#[derive(Debug, Drop)]
pub struct Sequence<'a> {
    instance_uid: Uuid,
    data_definition: [u8; 16],
    duration: Option<u64>,
    components: References<'a>,
}

impl<'a> Model for Sequence<'a> {
    ghost use Rattle.mxf_sets.specs.Sequence.{SequenceParts};

    ghost Value = { SequenceParts };

    ghost view = { λ r. record {
      instance_uid = r.instance_uid;
      data_definition = r.data_definition;
      duration = r.duration;
      components = r.components;
    } };
}

impl<'a> Sequence<'a> {
    /// Reads the value of a Sequence set. The data definition and the components have to be there.
    pub fn read(value: &'a [u8]) -> Result<Sequence<'a>, FieldFault>
        ensures { result ≡ sequence_at value.now }
    {
        let items = read_fields(value, &FIELDS)?;
        Ok(Sequence {
            instance_uid: required_identifier(&items, INSTANCE_UID),
            data_definition: required_sixteen(&items, DATA_DEFINITION),
            duration: duration(&items, DURATION),
            components: References::of(&items, COMPONENTS),
        })
    }

    /// The identifier of this set.
    pub fn instance_uid(&self) -> Uuid
        ensures { result ≡ self.now.instance_uid }
    {
        self.instance_uid
    }

    /// The label of what the track holds, as picture, sound or timecode.
    pub fn data_definition(&self) -> [u8; 16]
        ensures { result ≡ self.now.data_definition }
    {
        self.data_definition
    }

    /// The duration in edit units of the track. None if it isn't there or negative, as in a file that grows.
    pub fn duration(&self) -> Option<u64>
        ensures { result ≡ self.now.duration }
    {
        self.duration
    }

    /// The references to the components, in order.
    pub fn components(&self) -> References<'a>
        ensures { result ≡ self.now.components }
    {
        self.components.again()
    }
}
