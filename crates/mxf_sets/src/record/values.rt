//! The values of fields, once the items of a set have met the table of its fields.
ghost use Rattle.std.specs.Prelude.{◌≡◌, length};
ghost use Rattle.std.specs.Option.{ForSome, option_map};
ghost use Rattle.mxf_sets.specs.Lookup.{bytes_of, value_of};
ghost use Rattle.mxf_sets.specs.Fields.{Passes, optional, required};
ghost use Rattle.mxf_sets.specs.Numbers.{bytes_or_zeros, duration_in, known, number_in, signed_in, some_number_in};
ghost use Rattle.mxf_sets.specs.Rate.{rate_in, rate_of};
ghost use Rattle.mxf_sets.specs.Timestamp.{timestamp_of};
ghost use Rattle.mxf_sets.specs.declared.record.Shape.TheVariants.{Exactly};

use super::{Rate, Timestamp};
use crate::Items;
use byteorder::{BigEndian, ByteOrder};
use uuid::Uuid;

/// The value of a field that has to be there, `width` bytes.
pub(crate) fn required_value<'a>(items: &Items<'a>, tag: u16, width: usize) -> &'a [u8]
    requires { Passes items.now (required tag (Exactly width)) }
    ensures value { result.now ≡ bytes_of tag items.now }
    ensures width { length result.now ≡ width }
{
    items.first(tag).unwrap()
}

/// The value of a field that may be absent, `width` bytes.
pub(crate) fn optional_value<'a>(items: &Items<'a>, tag: u16, width: usize) -> Option<&'a [u8]>
    requires { Passes items.now (optional tag (Exactly width)) }
    ensures value { option_map (λ v. v.now) result ≡ value_of tag items.now }
    ensures width { ForSome result (λ v. length v.now ≡ width) }
{
    items.first(tag)
}

/// The identifier that sixteen bytes are.
pub(super) fn identifier(value: &[u8]) -> Uuid
    requires { length value.now ≡ 16 }
    ensures { result ≡ value.now }
{
    Uuid::from_bytes(sixteen(value))
}

/// Sixteen bytes.
fn sixteen(value: &[u8]) -> [u8; 16]
    requires { length value.now ≡ 16 }
    ensures { result ≡ value.now }
{
    let mut bytes = [0; 16];
    bytes.copy_from_slice(value);
    bytes
}

/// The sixteen bytes of a field that has to be there.
pub(super) fn required_sixteen(items: &Items<'_>, tag: u16) -> [u8; 16]
    requires { Passes items.now (required tag (Exactly 16)) }
    ensures { result ≡ bytes_of tag items.now }
{
    sixteen(required_value(items, tag, 16))
}

/// The thirty-two bytes of a field that has to be there.
pub(super) fn required_thirty_two(items: &Items<'_>, tag: u16) -> [u8; 32]
    requires { Passes items.now (required tag (Exactly 32)) }
    ensures { result ≡ bytes_of tag items.now }
{
    let mut bytes = [0; 32];
    bytes.copy_from_slice(required_value(items, tag, 32));
    bytes
}

/// The sixteen bytes of a field that may be absent.
pub(super) fn optional_sixteen(items: &Items<'_>, tag: u16) -> Option<[u8; 16]>
    requires { Passes items.now (optional tag (Exactly 16)) }
    ensures { result ≡ value_of tag items.now }
{
    optional_value(items, tag, 16).map(sixteen)
}

/// The identifier in a field that has to be there.
pub(super) fn required_identifier(items: &Items<'_>, tag: u16) -> Uuid
    requires { Passes items.now (required tag (Exactly 16)) }
    ensures { result ≡ bytes_of tag items.now }
{
    identifier(required_value(items, tag, 16))
}

/// The identifier in a field that may be absent.
pub(super) fn optional_identifier(items: &Items<'_>, tag: u16) -> Option<Uuid>
    requires { Passes items.now (optional tag (Exactly 16)) }
    ensures { result ≡ value_of tag items.now }
{
    optional_value(items, tag, 16).map(identifier)
}

/// The timestamp in a field that may be absent.
pub(super) fn optional_timestamp(items: &Items<'_>, tag: u16) -> Option<Timestamp>
    requires { Passes items.now (optional tag (Exactly 8)) }
    ensures { result ≡ option_map timestamp_of (value_of tag items.now) }
{
    optional_value(items, tag, 8).map(Timestamp::of)
}

/// The thirty-two bytes of a field that may be absent, and zeros if it is.
pub(super) fn optional_thirty_two(items: &Items<'_>, tag: u16) -> [u8; 32]
    requires { Passes items.now (optional tag (Exactly 32)) }
    ensures { result ≡ bytes_or_zeros 32 tag items.now }
{
    let mut bytes = [0; 32];
    if let Some(value) = optional_value(items, tag, 32) {
        bytes.copy_from_slice(value);
    }
    bytes
}

/// The number in a field that may be absent, and 0 if it is.
pub(crate) fn optional_u32(items: &Items<'_>, tag: u16) -> u32
    requires { Passes items.now (optional tag (Exactly 4)) }
    ensures { result ≡ number_in 4 tag items.now }
{
    optional_value(items, tag, 4).map_or(0, BigEndian::read_u32)
}

/// The number in a field that may be absent, and 0 if it is.
pub(crate) fn optional_u8(items: &Items<'_>, tag: u16) -> u8
    requires { Passes items.now (optional tag (Exactly 1)) }
    ensures { result ≡ number_in 1 tag items.now }
{
    optional_value(items, tag, 1).map_or(0, |value| value[0])
}

/// The signed number in a field that may be absent, and 0 if it is.
pub(super) fn optional_i64(items: &Items<'_>, tag: u16) -> i64
    requires { Passes items.now (optional tag (Exactly 8)) }
    ensures { result ≡ signed_in tag items.now }
{
    optional_value(items, tag, 8).map_or(0, BigEndian::read_i64)
}

/// The number in a field that may be absent.
pub(super) fn some_u32(items: &Items<'_>, tag: u16) -> Option<u32>
    requires { Passes items.now (optional tag (Exactly 4)) }
    ensures { result ≡ some_number_in 4 tag items.now }
{
    optional_value(items, tag, 4).map(BigEndian::read_u32)
}

/// The number in a field that may be absent.
pub(super) fn some_u8(items: &Items<'_>, tag: u16) -> Option<u8>
    requires { Passes items.now (optional tag (Exactly 1)) }
    ensures { result ≡ some_number_in 1 tag items.now }
{
    optional_value(items, tag, 1).map(|value| value[0])
}

/// The rate in a field that may be absent.
pub(super) fn some_rate(items: &Items<'_>, tag: u16) -> Option<Rate>
    requires { Passes items.now (optional tag (Exactly 8)) }
    ensures { result ≡ rate_in tag items.now }
{
    optional_value(items, tag, 8).map(Rate::of)
}

/// The duration that a number says; None if it is negative.
fn known(number: i64) -> Option<u64>
    ensures { result ≡ known number }
{
    if number < 0 {
        return None;
    }
    Some(number.unsigned_abs())
}

/// The duration in a field that may be absent; None also if it isn't known.
pub(super) fn duration(items: &Items<'_>, tag: u16) -> Option<u64>
    requires { Passes items.now (optional tag (Exactly 8)) }
    ensures { result ≡ duration_in tag items.now }
{
    known(BigEndian::read_i64(optional_value(items, tag, 8)?))
}
