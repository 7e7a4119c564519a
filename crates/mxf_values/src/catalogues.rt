//! Notes that are added to a catalogue one by one, and how a catalogue is written.
use crate::row::{Row, bad_row, tell};
use crate::writing::tell_written;
use mxf_catalogue::{Catalogue, Change};
use mxf_klv::{MAX, Note, Ul};
use std::io;

/// The note of a packet of twenty bytes at an offset, all bytes of its digest 0.
pub fn note_at(offset: u64, key: Ul) -> Option<Note> {
    Note::digested(offset, key, 1, 3, [0; 32])
}

/// A head at an offset that claims all bytes up to the greatest end. Its key and its length take 25 bytes.
fn head_at(offset: u64, key: Ul) -> Option<Note> {
    Note::head(offset, key, 9, MAX.checked_sub(25)?.checked_sub(offset)?)
}

/// Where the note with the number stands, of those that go on by a step and begin anew at the end of their span.
fn offset_of([_, first, step, span]: [u64; 4], number: u64) -> Option<u64> {
    number
        .checked_mul(step)?
        .checked_add(first)?
        .checked_rem(span)
}

/// The note with the number.
fn note_of(row: &Row<'_>, key: Ul, number: u64) -> Option<Note> {
    let offset = offset_of(row.numbers, number)?;
    match row.call {
        "heads" => head_at(offset, key),
        _ => note_at(offset, key),
    }
}

/// Adds a note, if there is one, and answers whether it was added.
pub fn adds(catalogue: &mut Catalogue, note: Option<Note>) -> bool {
    match note {
        Some(note) => catalogue.add(note).is_ok(),
        None => false,
    }
}

/// Adds the notes of the row, and answers whether all were added.
fn adds_all(catalogue: &mut Catalogue, row: &Row<'_>, key: Ul) -> bool {
    for number in 0..row.numbers[0] {
        if !adds(catalogue, note_of(row, key, number)) {
            return false;
        }
    }
    true
}

/// `notes COUNT FIRST STEP SPAN` or `heads` with the same numbers, of a key: how many notes are held once they are
/// added one by one, and how many of them are disputed.
fn tell_count(rt: &impl Print, catalogue: &mut Catalogue, row: &Row<'_>) -> io::Result<()> {
    match row.key_and_rest() {
        Some((key, _rest)) if adds_all(catalogue, row, key) => {
            tell(rt, &(catalogue.len(), catalogue.disputed().count()))
        }
        _ => Err(bad_row()),
    }
}

/// The note of an addition, which three bytes spell: its offset, the length of its value, and 1 if it is a head.
/// Seventeen bytes of key and length stand before a value, and all bytes of a digest are 0.
fn addition_of(key: Ul, [offset, length, is_head]: [u8; 3]) -> Option<Note> {
    match is_head {
        0 => Note::digested(offset as u64, key, 1, length as u64, [0; 32]),
        _ => Note::head(offset as u64, key, 1, length as u64),
    }
}

/// Adds a note, and prints the offsets of the clear notes that it moved, or that it was held.
fn tell_change(rt: &impl Print, catalogue: &mut Catalogue, note: Option<Note>) -> io::Result<()> {
    let Some(note) = note else {
        return Err(bad_row());
    };
    match catalogue.add(note) {
        Ok(Change::Added { moved }) => tell(rt, &moved.as_slice()),
        Ok(Change::Repeated) => tell(rt, &"repeated"),
        Err(_) => Err(bad_row()),
    }
}

/// Adds one note after another, and prints what each moved.
fn tell_changes(
    rt: &impl Print,
    catalogue: &mut Catalogue,
    key: Ul,
    additions: &[[u8; 3]],
) -> io::Result<()> {
    for addition in additions {
        tell_change(rt, catalogue, addition_of(key, *addition))?;
    }
    Ok(())
}

/// Prints each disputed note, as its offset, whether it is a head, and whether it is disputed by a like offset and by
/// an overlap; and then the runs that are covered, and the greatest end.
fn tell_disputes(rt: &impl Print, catalogue: &Catalogue) -> io::Result<()> {
    for it in catalogue.disputed() {
        let (offset, is_head) = (it.note.offset(), it.note.is_head());
        tell(rt, &(offset, is_head, it.same_offset, it.overlaps))?;
    }
    for run in catalogue.spans().runs() {
        tell(rt, &(run.start, run.end))?;
    }
    tell(rt, &catalogue.end())
}

/// `changes`, of a key and three bytes for each addition: what each moved, and what is held and disputed then.
fn tell_additions(rt: &impl Print, catalogue: &mut Catalogue, row: &Row<'_>) -> io::Result<()> {
    let Some((key, additions)) = row.key_and_rest() else {
        return Err(bad_row());
    };
    tell_changes(rt, catalogue, key, additions.as_chunks().0)?;
    tell_disputes(rt, catalogue)
}

/// How the catalogue of a file is written.
fn tell_file<R: Print + AllocGlobal>(rt: &R, row: &Row<'_>) -> io::Result<()> {
    match Catalogue::read(rt.alloc(), row.bytes) {
        Ok(catalogue) => tell_written(rt, &catalogue, row),
        Err(_) => Err(bad_row()),
    }
}

/// Prints the answer to a row of a catalogue.
pub fn tell_catalogue<R: Print + AllocGlobal>(rt: &R, row: &Row<'_>) -> io::Result<()> {
    match row.call {
        "notes" | "heads" => tell_count(rt, &mut Catalogue::new(rt.alloc()), row),
        "changes" => tell_additions(rt, &mut Catalogue::new(rt.alloc()), row),
        _ => tell_file(rt, row),
    }
}
