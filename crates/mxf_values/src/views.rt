//! Views of a recording that is taken in note by note, or piece by piece.
use crate::catalogues::{adds, note_at};
use crate::row::{Row, bad_row, tell};
use mxf_catalogue::Catalogue;
use mxf_klv::{Note, Ul, read_packet};
use mxf_views::Views;
use std::alloc::Global;
use std::io;

/// The notes of a piece.
const PIECE: u64 = 10;

/// The bytes of a packet.
const SIZE: u64 = 20;

/// Puts the packet at the front of bytes into a catalogue, and answers the bytes after it.
fn put_packet<'a>(
    alloc: Global,
    catalogue: &mut Catalogue,
    offset: u64,
    bytes: &'a [u8],
) -> Option<&'a [u8]> {
    let (packet, size) = read_packet(bytes).ok()?;
    match adds(catalogue, Note::of(alloc, offset, &packet).ok()) {
        true => bytes.get(size..),
        false => None,
    }
}

/// Puts a partition pack and the primer pack after it into a catalogue, and answers whether both were there.
fn puts_partition(alloc: Global, catalogue: &mut Catalogue, offset: u64, bytes: &[u8]) -> bool {
    match put_packet(alloc, catalogue, offset, bytes) {
        Some(primer) => {
            let behind = (bytes.len() as u64).saturating_sub(primer.len() as u64);
            put_packet(alloc, catalogue, offset.saturating_add(behind), primer).is_some()
        }
        None => false,
    }
}

/// Merges a partition with its primer pack into views.
fn merges_partition(alloc: Global, views: &mut Views, offset: u64, bytes: &[u8]) -> bool {
    let mut piece = Catalogue::new(alloc);
    let is_put = puts_partition(alloc, &mut piece, offset, bytes);
    views.merge(piece).is_ok() && is_put
}

/// Where the packet with the number stands after `size` bytes.
fn offset_behind(size: usize, number: u64) -> Option<u64> {
    number.checked_mul(SIZE)?.checked_add(size as u64)
}

/// The note of the packet with the number after `size` bytes.
fn note_behind(size: usize, number: u64, key: Ul) -> Option<Note> {
    note_at(offset_behind(size, number)?, key)
}

/// Adds `count` notes to views one by one, after `size` bytes.
fn adds_notes(views: &mut Views, count: u64, key: Ul, size: usize) -> bool {
    for number in 0..count {
        let Some(note) = note_behind(size, number, key) else {
            return false;
        };
        if views.add(note).is_err() {
            return false;
        }
    }
    true
}

/// Adds the ten notes of the piece with the number to a catalogue.
fn adds_piece(piece: &mut Catalogue, number: u64, key: Ul, size: usize) -> bool {
    let first = number.saturating_mul(PIECE);
    for place in 0..PIECE {
        if !adds(piece, note_behind(size, first.saturating_add(place), key)) {
            return false;
        }
    }
    true
}

/// Merges the piece with the number into views.
fn merges_piece(alloc: Global, views: &mut Views, number: u64, key: Ul, size: usize) -> bool {
    let mut piece = Catalogue::new(alloc);
    let is_put = adds_piece(&mut piece, number, key, size);
    views.merge(piece).is_ok() && is_put
}

/// Merges `count` pieces of ten notes into views, one after the other.
fn merges_pieces(alloc: Global, views: &mut Views, count: u64, key: Ul, size: usize) -> bool {
    for number in 0..count {
        if !merges_piece(alloc, views, number, key, size) {
            return false;
        }
    }
    true
}

/// Merges `count` partitions into views, one after the other.
fn merges_partitions(alloc: Global, views: &mut Views, count: u64, bytes: &[u8]) -> bool {
    for number in 0..count {
        let offset = number.saturating_mul(bytes.len() as u64);
        if !merges_partition(alloc, views, offset, bytes) {
            return false;
        }
    }
    true
}

/// Fills the copy of a partition, by the notes or the pieces of the row.
fn fills_copy(alloc: Global, views: &mut Views, row: &Row<'_>) -> bool {
    let (Some((key, head)), [count, ..]) = (row.key_and_rest(), row.numbers) else {
        return false;
    };
    merges_partition(alloc, views, 0, head)
        && match row.call {
            "notes" => adds_notes(views, count, key, head.len()),
            "pieces" => merges_pieces(alloc, views, count, key, head.len()),
            _ => false,
        }
}

/// Prints how many notes views hold, how many of these are disputed, how many bytes of the first copy are covered, and
/// how many copies are finished.
fn tell_held(rt: &impl Print, views: &Views) -> io::Result<()> {
    let notes = views.catalogue();
    let covered = views.copies().first().map(|copy| copy.covered);
    let finished = views.copies().iter().filter(|copy| copy.finished).count();
    tell(
        rt,
        &(notes.len(), notes.disputed().count(), covered, finished),
    )
}

/// `notes COUNT`, `pieces COUNT`: views of a copy that is filled by notes, or by pieces of ten; the bytes are the key
/// of these notes, and the partition pack and the primer pack at the front. `copies COUNT`: views of that many
/// partitions with a copy each; the bytes are those of one.
fn tell_filled<R: Print + AllocGlobal>(rt: &R, views: &mut Views, row: &Row<'_>) -> io::Result<()> {
    let is_filled = match row.call {
        "copies" => merges_partitions(rt.alloc(), views, row.numbers[0], row.bytes),
        _ => fills_copy(rt.alloc(), views, row),
    };
    match is_filled {
        true => tell_held(rt, views),
        false => Err(bad_row()),
    }
}

/// Prints the answer to a row of views.
pub fn tell_views<R: Print + AllocGlobal>(rt: &R, row: &Row<'_>) -> io::Result<()> {
    tell_filled(rt, &mut Views::new(rt.alloc()), row)
}
