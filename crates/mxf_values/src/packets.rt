//! Lengths and packets.
use crate::row::{Row, bad_row, tell};
use crate::writing::tell_written;
use mxf_klv::{Ber, kind, next_packet, read_ber, read_packet};
use std::io;

/// `read`, `of WIDTH VALUE`, or how the length is written.
pub fn tell_length<R: Print + AllocGlobal>(rt: &R, row: &Row<'_>) -> io::Result<()> {
    match row.call {
        "read" => tell(rt, &read_ber(row.bytes)),
        "of" => tell(rt, &Ber::new(row.width(), row.numbers[1])),
        _ => match read_ber(row.bytes) {
            Ok(ber) => tell_written(rt, &ber, row),
            Err(_) => Err(bad_row()),
        },
    }
}

/// Prints the kind of a key.
fn tell_kind(rt: &impl Print, row: &Row<'_>) -> io::Result<()> {
    match row.key_and_rest() {
        Some((key, _rest)) => tell(rt, &kind(&key)),
        None => Err(bad_row()),
    }
}

/// `read`, `next OFFSET`, `kind` of a key, or how the packet is written.
pub fn tell_packet<R: Print + AllocGlobal>(rt: &R, row: &Row<'_>) -> io::Result<()> {
    match row.call {
        "read" => tell(rt, &read_packet(row.bytes)),
        "next" => tell(rt, &next_packet(row.numbers[0], row.bytes)),
        "kind" => tell_kind(rt, row),
        _ => match read_packet(row.bytes) {
            Ok((packet, _size)) => tell_written(rt, &packet, row),
            Err(_) => Err(bad_row()),
        },
    }
}
