//! Prints what the public readers and writers of mxf_klv and mxf_sets answer, what additions to a catalogue move, and
//! how a catalogue is written, a row of a table at a time. Other rows of catalogues, and those of views, take notes in,
//! for benches/run, and print what is held then.
//!
//! A row is a line of standard input: `SUBJECT CALL NUMBERS DIGITS`, as `batch read 16 0000000000000010`. DIGITS are
//! the bytes that are read, as hexadecimal digits, or `-` for none. NUMBERS are up to four, in the order in which the
//! call takes them; those that aren't written are 0. The answer is printed as `{:?}` shows it. A line that is empty or
//! begins with `#` is printed as it stands, so that both tables have the same headings.
#![tactic(auto)]

mod batches;
mod catalogues;
mod notes;
mod packets;
mod packs;
mod records;
mod row;
mod segments;
mod views;
mod writing;

use mxf_sets::{pattern_name, text};
use row::{Row, bad_row, bytes_of, tell};
use std::alloc::Global;
use std::io;

/// Prints the answer to a row.
fn tell_row<R: Print + AllocGlobal>(rt: &R, row: &Row<'_>) -> io::Result<()> {
    match row.subject {
        "length" => packets::tell_length(rt, row),
        "packet" => packets::tell_packet(rt, row),
        "note" => notes::tell_note(rt, row),
        "set" => batches::tell_set(rt, row),
        "batch" => batches::tell_batch(rt, row),
        "partition" => packs::tell_partition(rt, row),
        "primer" => packs::tell_primer(rt, row),
        "rip" => packs::tell_rip(rt, row),
        "record" => records::tell_record(rt, row),
        "segment" => segments::tell_segment(rt, row),
        "catalogue" => catalogues::tell_catalogue(rt, row),
        "views" => views::tell_views(rt, row),
        "text" => tell(rt, &text(rt.alloc(), row.bytes)),
        "pattern" => tell_pattern(rt, row),
        _ => Err(bad_row()),
    }
}

/// Prints the name of an operational pattern.
fn tell_pattern(rt: &impl Print, row: &Row<'_>) -> io::Result<()> {
    match row.bytes.as_array::<16>() {
        Some(label) => tell(rt, &pattern_name(label)),
        None => Err(bad_row()),
    }
}

/// Prints a heading, or the answer to a row.
fn tell_line<R: Print + AllocGlobal>(rt: &R, line: &str) -> io::Result<()> {
    if line.is_empty() || line.starts_with('#') {
        return println!(rt; "{line}");
    }
    let Some((front, digits)) = line.rsplit_once(' ') else {
        return Err(bad_row());
    };
    tell_row(rt, &Row::of(front, &bytes_of(rt.alloc(), digits)?)?)
}

fn main(rt: HostRuntime) -> io::Result<()> {
    for line in rt.lines(rt.alloc()) {
        tell_line(&rt, line?.as_str())?;
    }
    Ok(())
}
