//! Fillers (ST 377-1, Filler set).
ghost use Rattle.std.specs.Prelude.{◌≡◌};
ghost use Rattle.mxf_sets.specs.Component.{filler_at};

use super::values::{duration, required_identifier};
use super::{Field, FieldFault, INSTANCE_UID, Shape, read_fields};
use std::marker::Model;
use uuid::Uuid;

// The tag (ST 377-1, Structural Component).
const DURATION: u16 = 0x0202;

/// The fields that are read, in the order of testing.
#[rattlefmt::skip]
const FIELDS: [Field; 2] = [
    Field { tag: INSTANCE_UID, shape: Shape::Exactly(16), required: true },
    Field { tag: DURATION, shape: Shape::Exactly(8), required: false },
];

/// A component that shows nothing for a time (ST 377-1, Filler set).
#[derive(Debug, Drop)]
pub struct Filler {
    instance_uid: Uuid,
    duration: Option<u64>,
}

impl Model for Filler {
    ghost use Rattle.mxf_sets.specs.Component.{FillerParts};

    ghost Value = { FillerParts };

    ghost view = { λ r. record {
      instance_uid = r.instance_uid;
      duration = r.duration;
    } };
}

impl Filler {
    /// Reads the value of a Filler set. The duration may be absent.
    pub fn read(value: &[u8]) -> Result<Filler, FieldFault>
        ensures { result ≡ filler_at value.now }
    {
        let items = read_fields(value, &FIELDS)?;
        Ok(Filler {
            instance_uid: required_identifier(&items, INSTANCE_UID),
            duration: duration(&items, DURATION),
        })
    }

    /// The identifier of this set.
    pub fn instance_uid(&self) -> Uuid
        ensures { result ≡ self.now.instance_uid }
    {
        self.instance_uid
    }

    /// The duration in edit units of the track. None if it isn't there or negative.
    pub fn duration(&self) -> Option<u64>
        ensures { result ≡ self.now.duration }
    {
        self.duration
    }
}
