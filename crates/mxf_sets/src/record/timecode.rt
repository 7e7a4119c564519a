//! Timecode components (ST 377-1, Timecode Component set).
ghost use Rattle.std.specs.Prelude.{◌≡◌};
ghost use Rattle.mxf_sets.specs.Component.{is_drop, timecode_at};

use super::values::{duration, optional_u8, required_identifier, required_value};
use super::{Field, FieldFault, INSTANCE_UID, Shape, read_fields};
use byteorder::{BigEndian, ByteOrder};
use std::marker::Model;
use uuid::Uuid;

// The tags (ST 377-1, Timecode Component set).
const DURATION: u16 = 0x0202;

const START_TIMECODE: u16 = 0x1501;

const BASE: u16 = 0x1502;

const DROP_FRAME: u16 = 0x1503;

/// The fields that are read, in the order of testing.
#[rattlefmt::skip]
const FIELDS: [Field; 5] = [
    Field { tag: INSTANCE_UID, shape: Shape::Exactly(16), required: true },
    Field { tag: DURATION, shape: Shape::Exactly(8), required: false },
    Field { tag: START_TIMECODE, shape: Shape::Exactly(8), required: true },
    Field { tag: BASE, shape: Shape::Exactly(2), required: true },
    Field { tag: DROP_FRAME, shape: Shape::Exactly(1), required: false },
];

/// A component that labels a time (ST 377-1, Timecode Component set; ST 12-1): from a first label on, one a frame.
#[derive(Debug, Drop)]
pub struct TimecodeComponent {
    instance_uid: Uuid,
    duration: Option<u64>,
    start: i64,
    base: u16,
    drop_frame: u8,
}

impl Model for TimecodeComponent {
    ghost use Rattle.mxf_sets.specs.Component.{TimecodeParts};

    ghost Value = { TimecodeParts };

    ghost view = { λ r. record {
      instance_uid = r.instance_uid;
      duration = r.duration;
      start = r.start;
      base = r.base;
      drop_frame = r.drop_frame;
    } };
}

impl TimecodeComponent {
    /// Reads the value of a Timecode Component set. The first number and the frames in a second have to be there.
    pub fn read(value: &[u8]) -> Result<TimecodeComponent, FieldFault>
        ensures { result ≡ timecode_at value.now }
    {
        let items = read_fields(value, &FIELDS)?;
        Ok(TimecodeComponent {
            instance_uid: required_identifier(&items, INSTANCE_UID),
            duration: duration(&items, DURATION),
            start: BigEndian::read_i64(required_value(&items, START_TIMECODE, 8)),
            base: BigEndian::read_u16(required_value(&items, BASE, 2)),
            drop_frame: optional_u8(&items, DROP_FRAME),
        })
    }

    /// The identifier of this set.
    pub fn instance_uid(&self) -> Uuid
        ensures { result ≡ self.now.instance_uid }
    {
        self.instance_uid
    }

    /// The duration in edit units of the track. None if it isn't there or negative.
    pub fn duration(&self) -> Option<u64>
        ensures { result ≡ self.now.duration }
    {
        self.duration
    }

    /// The number of the first label, in frames from that of midnight.
    pub fn start(&self) -> i64
        ensures { result ≡ self.now.start }
    {
        self.start
    }

    /// Frames in a second, a whole number, as 30 for a rate of 30000 over 1001.
    pub fn base(&self) -> u16
        ensures { result ≡ self.now.base }
    {
        self.base
    }

    /// The byte that says whether labels are dropped, as stored; 0 if it isn't there.
    pub fn drop_frame(&self) -> u8
        ensures { result ≡ self.now.drop_frame }
    {
        self.drop_frame
    }

    /// Whether labels are dropped, so that they keep up with a rate of 30000 over 1001 or twice that: at 30 and 60
    /// frames in a second, where the byte isn't 0.
    pub fn is_drop(&self) -> bool
        ensures { result ≡ is_drop self.now }
    {
        self.drop_frame != 0 && (self.base == 30 || self.base == 60)
    }
}
