//! Notes that are added: a refused addition changes nothing, and the note comes back.
use crate::files::ESSENCE_KEY;
use mxf_catalogue::{Catalogue, Change, Cover};
use mxf_klv::{Note, OutOfMemory, Ul};
use mxf_read::absorb;
use mxf_views::Views;
use std::alloc::Global;

/// The note of an essence packet with a value of this length, all bytes of its digest 0. Seventeen bytes of key and
/// length stand before the value.
pub(crate) fn essence(offset: u64, length: u64) -> Option<Note> {
    Note::digested(offset, Ul::from_bytes(ESSENCE_KEY)?, 1, length, [0; 32])
}

/// Whether what is asked holds, even if one growth is refused: if memory runs out, it is asked once more.
pub(crate) fn holds<F: Fn(Global) -> Result<bool, OutOfMemory>>(alloc: Global, asked: F) -> bool
    requires { F.IsAlwaysCallable asked }
{
    match asked(alloc) {
        Err(OutOfMemory) => asked(alloc) == Ok(true),
        answer => answer == Ok(true),
    }
}

/// The catalogue of essence packets, each by its offset and the length of its value.
pub(crate) fn catalogue_of(
    alloc: Global,
    packets: &[(u64, u64)],
) -> Result<Catalogue, OutOfMemory> {
    let mut all = Catalogue::new(alloc);
    for &(offset, length) in packets {
        let note = essence(offset, length).ok_or(OutOfMemory)?;
        if all.add(note).is_err() {
            return Err(OutOfMemory);
        }
    }
    Ok(all)
}

/// The views of essence packets, each by its offset and the length of its value.
pub(crate) fn views_of_packets(
    alloc: Global,
    packets: &[(u64, u64)],
) -> Result<Views, OutOfMemory> {
    match Views::of(alloc, catalogue_of(alloc, packets)?) {
        Ok(views) => Ok(views),
        Err(_) => Err(OutOfMemory),
    }
}

/// The views of pieces, each by the offset of its first byte.
pub(crate) fn views_of_pieces(
    alloc: Global,
    pieces: &[(u64, &[u8])],
) -> Result<Views, OutOfMemory> {
    let mut views = Views::new(alloc);
    for &(offset, bytes) in pieces {
        if absorb(alloc, &mut views, offset, bytes).is_err() {
            return Err(OutOfMemory);
        }
    }
    Ok(views)
}

/// Adds a note, even if one growth is refused. Whether it is added.
pub(crate) fn add(all: &mut Catalogue, note: Option<Note>) -> bool {
    let Some(note) = note else {
        return false;
    };
    match all.add(note) {
        Ok(_) => true,
        Err(fault) => all.add(fault.note).is_ok(),
    }
}

/// Adds a note to views, even if one growth is refused. Whether it is added.
pub(crate) fn add_to_views(views: &mut Views, note: Option<Note>) -> bool {
    let Some(note) = note else {
        return false;
    };
    match views.add(note) {
        Ok(_) => true,
        Err(fault) => views.add(fault.note).is_ok(),
    }
}

/// Adds two packets apart, from 0 to 100 and from 200 to 300.
fn add_two(all: &mut Catalogue) -> bool {
    add(all, essence(0, 83)) && add(all, essence(200, 83))
}

/// A packet from 90 to 210, over both.
fn between() -> Option<Note> {
    essence(90, 103)
}

/// The head of the packet between the two.
pub(crate) fn head_between() -> Option<Note> {
    Some(between()?.to_head())
}

/// Whether the packet between the two was new, and disputes both.
fn disputes_both(change: &Change) -> bool {
    match change {
        Change::Added { moved } => moved.as_slice() == [0u64, 200].as_slice(),
        Change::Repeated => false,
    }
}

/// Whether the two packets alone are held, and clear.
fn holds_two(all: &Catalogue) -> bool {
    all.len() == 2 && all.clear().count() == 2 && all.spans().gaps().count() == 1
}

/// Adds the note between the two. Whether it disputes both; if its addition is refused, both stand, and the note
/// comes back.
fn dispute_both(all: &mut Catalogue, note: Note, same: &Note) -> bool {
    match all.add(note) {
        Ok(change) => disputes_both(&change),
        Err(fault) => {
            let kept = holds_two(all) && fault.note == *same;
            match all.add(fault.note) {
                Ok(change) => disputes_both(&change) && kept,
                Err(_) => false,
            }
        }
    }
}

/// Adds a note that is held. Whether nothing is new about it.
fn repeat(all: &mut Catalogue, note: Option<Note>) -> bool {
    let Some(note) = note else {
        return false;
    };
    match all.add(note) {
        Ok(change) => change == Change::Repeated,
        Err(_) => false,
    }
}

/// Adds the two and the head between them. Whether that disputes both.
fn add_head(all: &mut Catalogue) -> bool {
    match (head_between(), head_between()) {
        (Some(head), Some(same)) => add_two(all) && dispute_both(all, head, &same),
        _ => false,
    }
}

/// Whether the note was new, and moved none.
fn moves_none(change: &Change) -> bool {
    match change {
        Change::Added { moved } => moved.as_slice().is_empty(),
        Change::Repeated => false,
    }
}

/// Adds the packet of a head. Whether it moves none; if its addition is refused, the head stands, and the packet
/// comes back.
fn replace(all: &mut Catalogue, note: Note, head: &Note, same: &Note) -> bool {
    match all.add(note) {
        Ok(change) => moves_none(&change),
        Err(fault) => {
            let kept = all.holds(head) && fault.note == *same;
            match all.add(fault.note) {
                Ok(change) => moves_none(&change) && kept,
                Err(_) => false,
            }
        }
    }
}

/// Adds the packet between the two, the head of which is held.
fn replace_head(all: &mut Catalogue) -> bool {
    match (between(), head_between(), between()) {
        (Some(note), Some(head), Some(same)) => replace(all, note, &head, &same),
        _ => false,
    }
}

/// Adds a head and its packet to the two, one after the other, and both again. Whether all is reported and held. The
/// head covers the bytes from 90 to 107 alone.
fn add_both(all: &mut Catalogue) -> bool {
    let lacking = add_head(all) && all.spans().gaps().count() == 1;
    let replaced = lacking && replace_head(all);
    let counted = all.disputed().count() == 3 && all.spans().gaps().count() == 0;
    replaced && counted && repeat(all, between()) && repeat(all, head_between())
}

#[test]
fn additions_to_a_catalogue(rt: HostRuntime) {
    let added = add_both(&mut Catalogue::new(rt.alloc()));
    assert!(rt; added);
}

/// The views of a catalogue of the two. If they are refused, it comes back.
fn views_of(alloc: Global, all: Catalogue) -> Option<Views> {
    match Views::of(alloc, all) {
        Ok(views) => Some(views),
        Err(fault) => {
            if !holds_two(&fault.catalogue) {
                return None;
            }
            Views::of(alloc, fault.catalogue).ok()
        }
    }
}

/// Adds the note between the two to their views. Whether it disputes both; if its addition is refused, both stand,
/// and the note comes back.
fn dispute_both_in(views: &mut Views, note: Note, same: &Note) -> bool {
    match views.add(note) {
        Ok(change) => disputes_both(&change),
        Err(fault) => {
            let kept = holds_two(views.catalogue()) && fault.note == *same;
            match views.add(fault.note) {
                Ok(change) => disputes_both(&change) && kept,
                Err(_) => false,
            }
        }
    }
}

/// Adds a note that the views hold. Whether nothing is new about it.
fn repeat_in(views: &mut Views, note: Note) -> bool {
    match views.add(note) {
        Ok(change) => change == Change::Repeated,
        Err(_) => false,
    }
}

/// Adds the packet between the two to their views, twice.
fn add_between(views: &mut Views) -> bool {
    match (between(), between(), between()) {
        (Some(note), Some(same), Some(again)) => {
            dispute_both_in(views, note, &same) && repeat_in(views, again)
        }
        _ => false,
    }
}

/// The same when the two are added first.
fn add_three(alloc: Global, mut all: Catalogue) -> bool {
    if !add_two(&mut all) {
        return false;
    }
    match views_of(alloc, all) {
        Some(mut views) => add_between(&mut views),
        None => false,
    }
}

#[test]
fn an_addition_to_views(rt: HostRuntime) {
    assert!(rt; add_three(rt.alloc(), Catalogue::new(rt.alloc())));
}

/// Adds five runs to a cover, and one that touches two of them. If one is refused, the cover has those before it.
/// Whether all are added, and the three that touch are one.
fn add_runs(cover: &mut Cover) -> bool {
    let mut added = true;
    for (start, end) in [
        (0u64, 10u64),
        (20, 30),
        (40, 50),
        (60, 70),
        (80, 90),
        (10, 20),
    ] {
        let before = cover.runs().count();
        if let Err(OutOfMemory) = cover.add(start, end) {
            added = cover.runs().count() == before && !cover.has(start) && added;
            added = cover.add(start, end).is_ok() && added;
        }
        added = cover.has(start) && added;
    }
    let one = cover.has_all(0, 30) && !cover.has(30);
    added && one && cover.runs().count() == 4 && cover.gaps().count() == 3
}

#[test]
fn additions_to_a_cover(rt: HostRuntime) {
    let added = add_runs(&mut Cover::new(rt.alloc()));
    assert!(rt; added);
}
