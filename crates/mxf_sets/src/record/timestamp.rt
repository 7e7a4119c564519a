//! Timestamps (ST 377-1, timestamp).
ghost use Rattle.std.specs.Prelude.{◌≡◌, length};
ghost use Rattle.mxf_sets.specs.Timestamp.{timestamp_of};

use byteorder::{BigEndian, ByteOrder};

/// A timestamp (ST 377-1, Timestamp): seven numbers, which aren't checked as a date.
///
/// It says when a file or a package was made or changed, in universal time to 4 milliseconds. A writer that doesn't
/// know stores zeros.
#[derive(Clone, Copy, Debug, PartialEq, Eq)]
pub struct Timestamp {
    pub year: i16,
    pub month: u8,
    pub day: u8,
    pub hour: u8,
    pub minute: u8,
    pub second: u8,
    /// The milliseconds divided by 4, as stored.
    pub milliseconds_by_four: u8,
}

impl Timestamp {
    /// The timestamp that eight bytes are.
    pub(super) fn of(value: &[u8]) -> Timestamp
        requires { length value.now ≡ 8 }
        ensures { result ≡ timestamp_of value.now }
    {
        Timestamp {
            year: BigEndian::read_i16(value),
            month: value[2],
            day: value[3],
            hour: value[4],
            minute: value[5],
            second: value[6],
            milliseconds_by_four: value[7],
        }
    }
}
