//! Notes of packets, and heads.
use crate::row::{Row, bad_row, tell};
use mxf_klv::{Held, Kind, Note, OutOfMemory, Packet, Ul, cut_head, read_packet};
use std::alloc::Global;
use std::io;

/// What a note says.
#[derive(Clone, Copy, Debug)]
struct Told<'a> {
    offset: u64,
    covered_end: u64,
    end: u64,
    kind: Kind,
    key: Ul,
    width: u8,
    length: u64,
    is_head: bool,
    held: Held<'a>,
}

impl<'a> Told<'a> {
    fn of(note: &'a Note) -> Told<'a> {
        Told {
            offset: note.offset(),
            covered_end: note.covered_end(),
            end: note.end(),
            kind: note.kind(),
            key: note.key(),
            width: note.width(),
            length: note.length(),
            is_head: note.is_head(),
            held: note.held(),
        }
    }
}

/// Prints a note, or that there is none.
fn tell_made(rt: &impl Print, note: &Option<Note>) -> io::Result<()> {
    match note {
        Some(note) => tell(rt, &Told::of(note)),
        None => tell(rt, note),
    }
}

/// Prints the note that keeps the value after the key, or why there is none.
fn tell_kept(rt: &impl Print, row: &Row<'_>, key: Ul, value: Vec<u8>) -> io::Result<()> {
    match Note::kept(row.numbers[2], key, row.width(), value) {
        Ok(note) => tell(rt, &Told::of(&note)),
        Err(fault) => tell(rt, &fault),
    }
}

/// Prints the note that has the digest after the key, or otherwise the head.
fn tell_front(rt: &impl Print, row: &Row<'_>, key: Ul, rest: &[u8]) -> io::Result<()> {
    let [_, length, offset, _] = row.numbers;
    match rest.as_array::<32>() {
        Some(digest) => {
            let note = Note::digested(offset, key, row.width(), length, *digest);
            tell_made(rt, &note)
        }
        None => tell_made(rt, &Note::head(offset, key, row.width(), length)),
    }
}

/// `kept`, `front`: a note or a head of the key.
fn tell_by_key<R: Print + AllocGlobal>(rt: &R, row: &Row<'_>) -> io::Result<()> {
    match row.key_and_rest() {
        Some((key, rest)) => match row.call {
            "kept" => tell_kept(rt, row, key, Vec::from_slice(rt.alloc(), rest)?),
            _ => tell_front(rt, row, key, rest),
        },
        None => Err(bad_row()),
    }
}

/// How many bytes those fronts of a packet have whose head is the note's.
fn fronts_with_head(alloc: Global, note: &Note, bytes: &[u8]) -> Result<Vec<usize>, OutOfMemory> {
    let mut sizes = Vec::new(alloc);
    for size in 0..=bytes.len() {
        if cut_head(note.offset(), &bytes[..size]).is_some_and(|cut| cut == note.to_head()) {
            sizes.push(size)?;
        }
    }
    Ok(sizes)
}

/// Prints whether a copy of a note is the same.
fn tell_copy(alloc: Global, rt: &impl Print, note: &Note) -> io::Result<()> {
    match note.clone_in(alloc) {
        Ok(copy) => tell(rt, &(copy == *note)),
        Err(fault) => tell(rt, &fault),
    }
}

/// `of OFFSET`, `head_of OFFSET`; `copy OFFSET`: whether a copy is the same; `fronts OFFSET`: how many bytes those
/// fronts have whose head is the note's.
fn tell_read<R: Print + AllocGlobal>(rt: &R, note: &Note, row: &Row<'_>) -> io::Result<()> {
    match row.call {
        "of" => tell(rt, &Told::of(note)),
        "head_of" => tell(rt, &Told::of(&note.to_head())),
        "copy" => tell_copy(rt.alloc(), rt, note),
        "fronts" => tell(rt, &fronts_with_head(rt.alloc(), note, row.bytes)),
        _ => Err(bad_row()),
    }
}

/// Prints what is said of the note of a packet.
fn tell_of_packet<R: Print + AllocGlobal>(
    rt: &R,
    packet: &Packet<'_>,
    row: &Row<'_>,
) -> io::Result<()> {
    match Note::of(rt.alloc(), row.numbers[0], packet) {
        Ok(note) => tell_read(rt, &note, row),
        Err(fault) => tell(rt, &fault),
    }
}

/// Prints what is said of the head of a packet that is cut.
fn tell_of_head<R: Print + AllocGlobal>(
    rt: &R,
    head: &Option<Note>,
    row: &Row<'_>,
) -> io::Result<()> {
    match head {
        Some(head) => tell_read(rt, head, row),
        None => Err(bad_row()),
    }
}

/// The note of a packet, or its head if it is cut.
fn note_or_head(alloc: Global, offset: u64, bytes: &[u8]) -> Option<Note> {
    match read_packet(bytes) {
        Ok((packet, _size)) => Note::of(alloc, offset, &packet).ok(),
        Err(_) => cut_head(offset, bytes),
    }
}

/// Prints how a note stands to another, and which of the two tells the other.
fn tell_standing(rt: &impl Print, first: &Option<Note>, second: &Option<Note>) -> io::Result<()> {
    match (first, second) {
        (Some(first), Some(second)) => {
            let tells = (first.tells(second), second.tells(first));
            tell(rt, &(first.cmp(second), tells.0, tells.1))
        }
        _ => Err(bad_row()),
    }
}

/// `compare OFFSET OFFSET SIZE`: the notes of two packets, the first of which has SIZE bytes.
fn tell_both<R: Print + AllocGlobal>(rt: &R, row: &Row<'_>) -> io::Result<()> {
    let [first, second, size, _] = row.numbers;
    let (one, other) = row.bytes.split_at(row.bytes.len().min(size as usize));
    tell_standing(
        rt,
        &note_or_head(rt.alloc(), first, one),
        &note_or_head(rt.alloc(), second, other),
    )
}

/// `front WIDTH LENGTH OFFSET` and `kept WIDTH 0 OFFSET` of a key and what follows it: a digest, a value, or nothing
/// for a head; `cut OFFSET`, `compare`, or what is said of the note of a packet or of the head of a cut one.
pub fn tell_note<R: Print + AllocGlobal>(rt: &R, row: &Row<'_>) -> io::Result<()> {
    match row.call {
        "front" | "kept" => tell_by_key(rt, row),
        "cut" => tell_made(rt, &cut_head(row.numbers[0], row.bytes)),
        "compare" => tell_both(rt, row),
        _ => match read_packet(row.bytes) {
            Ok((packet, _size)) => tell_of_packet(rt, &packet, row),
            Err(_) => tell_of_head(rt, &cut_head(row.numbers[0], row.bytes), row),
        },
    }
}
