//! Source clips (ST 377-1, Source Clip set).
ghost use Rattle.std.specs.Prelude.{◌≡◌};
ghost use Rattle.mxf_sets.specs.Component.{clip_at};

use super::values::{
    duration, optional_i64, optional_thirty_two, optional_u32, required_identifier,
};
use super::{Field, FieldFault, INSTANCE_UID, Shape, read_fields};
use std::marker::Model;
use uuid::Uuid;

// The tags (ST 377-1, Source Clip set).
const DURATION: u16 = 0x0202;

const START_POSITION: u16 = 0x1201;

const SOURCE_PACKAGE: u16 = 0x1101;

const SOURCE_TRACK: u16 = 0x1102;

/// The fields that are read, in the order of testing.
#[rattlefmt::skip]
const FIELDS: [Field; 5] = [
    Field { tag: INSTANCE_UID, shape: Shape::Exactly(16), required: true },
    Field { tag: DURATION, shape: Shape::Exactly(8), required: false },
    Field { tag: START_POSITION, shape: Shape::Exactly(8), required: false },
    Field { tag: SOURCE_PACKAGE, shape: Shape::Exactly(32), required: false },
    Field { tag: SOURCE_TRACK, shape: Shape::Exactly(4), required: false },
];

/// A component that shows a part of another package (ST 377-1, Source Clip set).
///
/// A clip of a material package names the package whose essence is shown; one of a file's source package names the
/// tape or file that it was made from, or 32 zero bytes where nothing came before it.
#[derive(Debug, Drop)]
pub struct SourceClip {
    instance_uid: Uuid,
    duration: Option<u64>,
    start_position: i64,
    source_package: [u8; 32],
    source_track: u32,
}

impl Model for SourceClip {
    ghost use Rattle.mxf_sets.specs.Component.{ClipParts};

    ghost Value = { ClipParts };

    ghost view = { λ r. record {
      instance_uid = r.instance_uid;
      duration = r.duration;
      start_position = r.start_position;
      source_package = r.source_package;
      source_track = r.source_track;
    } };
}

impl SourceClip {
    /// Reads the value of a Source Clip set. All fields but the instance identifier may be absent.
    pub fn read(value: &[u8]) -> Result<SourceClip, FieldFault>
        ensures { result ≡ clip_at value.now }
    {
        let items = read_fields(value, &FIELDS)?;
        Ok(SourceClip {
            instance_uid: required_identifier(&items, INSTANCE_UID),
            duration: duration(&items, DURATION),
            start_position: optional_i64(&items, START_POSITION),
            source_package: optional_thirty_two(&items, SOURCE_PACKAGE),
            source_track: optional_u32(&items, SOURCE_TRACK),
        })
    }

    /// The identifier of this set.
    pub fn instance_uid(&self) -> Uuid
        ensures { result ≡ self.now.instance_uid }
    {
        self.instance_uid
    }

    /// The duration in edit units of the track. None if it isn't there or negative.
    pub fn duration(&self) -> Option<u64>
        ensures { result ≡ self.now.duration }
    {
        self.duration
    }

    /// The position in the source, in edit units of the clip's own track; 0 if it isn't there.
    pub fn start_position(&self) -> i64
        ensures { result ≡ self.now.start_position }
    {
        self.start_position
    }

    /// The identifier of the source package; zeros if it isn't there.
    pub fn source_package(&self) -> [u8; 32]
        ensures { result ≡ self.now.source_package }
    {
        self.source_package
    }

    /// The identifier of the track in the source package; 0 if it isn't there.
    pub fn source_track(&self) -> u32
        ensures { result ≡ self.now.source_track }
    {
        self.source_track
    }
}
