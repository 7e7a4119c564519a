//! Numbers of fixed widths, one after another, the highest byte of each first.
ghost use Rattle.std.specs.Prelude.{◌≡◌, ◌+◌, ◌^◌, ◌<◌, ◌≤◌, ◌++◌, [], length};
ghost use Rattle.byteorder.specs.Endian.{big_bytes};

use byteorder::{BigEndian, ByteOrder};
use std::marker::Model;

/// The number in the first 2 bytes, and the bytes after them.
pub(super) fn take_u16(bytes: &[u8]) -> (u16, &[u8])
    requires { 2 ≤ length bytes.now }
    ensures number { bytes.now ≡ big_bytes 2 result.0 ++ result.1.now }
    ensures left { length result.1.now + 2 ≡ length bytes.now }
{
    let (front, rest) = bytes.split_at(2);
    (BigEndian::read_u16(front), rest)
}

/// The number in the first 4 bytes, and the bytes after them.
pub(super) fn take_u32(bytes: &[u8]) -> (u32, &[u8])
    requires { 4 ≤ length bytes.now }
    ensures number { bytes.now ≡ big_bytes 4 result.0 ++ result.1.now }
    ensures left { length result.1.now + 4 ≡ length bytes.now }
{
    let (front, rest) = bytes.split_at(4);
    (BigEndian::read_u32(front), rest)
}

/// The number in the first 8 bytes, and the bytes after them.
pub(super) fn take_u64(bytes: &[u8]) -> (u64, &[u8])
    requires { 8 ≤ length bytes.now }
    ensures number { bytes.now ≡ big_bytes 8 result.0 ++ result.1.now }
    ensures left { length result.1.now + 8 ≡ length bytes.now }
{
    let (front, rest) = bytes.split_at(8);
    (BigEndian::read_u64(front), rest)
}

/// Sixty-four bytes that numbers are written to from the front.
#[derive(Drop)]
pub(super) struct NumberWriter {
    bytes: [u8; 64],
    written: usize,
}

impl Model for NumberWriter {
    ghost use Rattle.std.specs.Prelude.{ℕ, ◌≤◌, List, take};

    ghost Value = { List ℕ };

    ghost view = { λ w. take w.written w.bytes };

    ghost invariant = { λ w. w.written ≤ 64 };
}

impl NumberWriter {
    pub(super) fn new() -> NumberWriter
        ensures { result ≡ [] }
    {
        NumberWriter {
            bytes: [0; 64],
            written: 0,
        }
    }

    pub(super) fn u16(&mut self, number: u16)
        requires { length self.old + 2 ≤ 64 }
        ensures number { self.new ≡ self.old ++ big_bytes 2 number }
        ensures left { length self.new ≡ length self.old + 2 }
        ensures fits { number < 2 ^ 16 }
    {
        BigEndian::write_u16(&mut self.bytes[self.written..], number);
        self.written += 2;
    }

    pub(super) fn u32(&mut self, number: u32)
        requires { length self.old + 4 ≤ 64 }
        ensures number { self.new ≡ self.old ++ big_bytes 4 number }
        ensures left { length self.new ≡ length self.old + 4 }
        ensures fits { number < 2 ^ 32 }
    {
        BigEndian::write_u32(&mut self.bytes[self.written..], number);
        self.written += 4;
    }

    pub(super) fn u64(&mut self, number: u64)
        requires { length self.old + 8 ≤ 64 }
        ensures number { self.new ≡ self.old ++ big_bytes 8 number }
        ensures left { length self.new ≡ length self.old + 8 }
        ensures fits { number < 2 ^ 64 }
    {
        BigEndian::write_u64(&mut self.bytes[self.written..], number);
        self.written += 8;
    }

    /// The bytes, once all of them are written.
    pub(super) fn into_bytes(self) -> [u8; 64]
        requires { length self ≡ 64 }
        ensures { result ≡ self }
    {
        self.bytes
    }
}
