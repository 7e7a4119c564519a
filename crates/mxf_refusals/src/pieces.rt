//! Pieces, whole and cut: out of memory, the packets that were counted are held, and the rest can be absorbed.
use crate::files::M;
use mxf_catalogue::Run;
use mxf_read::{AbsorbFault, ReadTicks, Report, Stop, absorb, absorb_from};
use mxf_views::{Chain, Views};
use std::alloc::Global;

/// What is reported of M.
const WHOLE: Report = Report {
    noted: 3,
    stop: Stop::End,
};

/// What is reported of M's first 128 bytes.
const CUT: Report = Report {
    noted: 1,
    stop: Stop::Truncated(108),
};

/// How many packets of M may be noted when memory runs out, each with the place of the next.
const PLACES: [(u64, u64); 3] = [(0, 0), (1, 108), (2, 216)];

/// Whether M is held, its three packets clear.
fn holds_m(views: &Views) -> bool {
    views.catalogue().len() == 3
        && views.catalogue().clear().count() == 3
        && views.chain() == Chain::Whole
}

/// Whether M's first packet is held, and the head of its second: the bytes of that from 128 to 216 are missing.
fn holds_the_cut(views: &Views) -> bool {
    views.catalogue().len() == 2
        && views.catalogue().clear().count() == 1
        && views.catalogue().disputed().count() == 0
        && views.gaps().next()
            == Some(Run {
                start: 128,
                end: 216,
            })
        && views.partitions().count() == 1
        && views.chain() == Chain::Broken
}

/// Whether as many packets are held as were noted when memory ran out, up to one of these places.
fn is_counted(views: &Views, noted: u64, at: u64, places: &[(u64, u64)]) -> bool {
    views.catalogue().len() as u64 == noted && places.contains(&(noted, at))
}

/// Notes the rest of a piece, after some packets. Whether it is reported as what the report of the whole leaves.
fn note_rest(
    alloc: Global,
    views: &mut Views,
    piece: &[u8],
    behind: (u64, u64),
    whole: Report,
) -> bool {
    let (noted, at) = behind;
    let Some(rest) = piece.get(at as usize..) else {
        return false;
    };
    match absorb(alloc, views, at, rest) {
        Ok(report) => {
            report.stop == whole.stop && report.noted.checked_add(noted) == Some(whole.noted)
        }
        Err(_) => false,
    }
}

/// Notes a piece at hand. Whether it is reported so, even if memory ran out at one of these places.
fn note(
    alloc: Global,
    views: &mut Views,
    piece: &[u8],
    whole: Report,
    places: &[(u64, u64)],
) -> bool {
    match absorb(alloc, views, 0, piece) {
        Ok(report) => report == whole,
        Err(AbsorbFault::OutOfMemory { noted, at }) => {
            is_counted(views, noted, at, places)
                && note_rest(alloc, views, piece, (noted, at), whole)
        }
        // Nothing is read of bytes at hand.
        Err(AbsorbFault::ReadFault { .. }) => false,
    }
}

/// Absorbs what a reader of these bytes gives.
fn read_into(alloc: Global, views: &mut Views, piece: &[u8]) -> Result<Report, AbsorbFault> {
    let mut from = piece;
    absorb_from(alloc, views, 0, &mut from, 1000, &mut ReadTicks::new())
}

/// Notes the piece of a reader. Whether it is reported so, even if memory ran out and it is read again.
fn read(
    alloc: Global,
    views: &mut Views,
    piece: &[u8],
    whole: Report,
    places: &[(u64, u64)],
) -> bool {
    match read_into(alloc, views, piece) {
        Ok(report) => report == whole,
        Err(AbsorbFault::OutOfMemory { noted, at }) => {
            is_counted(views, noted, at, places) && read_into(alloc, views, piece) == Ok(whole)
        }
        // A slice can always be read.
        Err(AbsorbFault::ReadFault { .. }) => false,
    }
}

/// Notes M at hand. Whether it is held.
fn note_m(alloc: Global) -> bool {
    let mut views = Views::new(alloc);
    note(alloc, &mut views, &M, WHOLE, &PLACES) && holds_m(&views)
}

/// Notes M over its front. Whether it is held, even if memory ran out at one of its places, and the rest was noted.
fn note_over_front(alloc: Global, views: &mut Views) -> bool {
    match absorb(alloc, views, 0, &M) {
        Ok(_) => holds_m(views),
        Err(AbsorbFault::OutOfMemory { noted, at }) => {
            let counted = PLACES.contains(&(noted, at));
            match M.get(at as usize..) {
                Some(rest) => {
                    counted && absorb(alloc, views, at, rest).is_ok() && holds_m(views)
                }
                None => false,
            }
        }
        // Nothing is read of bytes at hand.
        Err(AbsorbFault::ReadFault { .. }) => false,
    }
}

/// Notes M's first 128 bytes at hand, and then M. Whether they are held: when memory runs out, no packet is, or that
/// ahead of the head.
fn note_front(alloc: Global) -> bool {
    let mut views = Views::new(alloc);
    note(alloc, &mut views, &M[..128], CUT, &PLACES[..2])
        && holds_the_cut(&views)
        && note_over_front(alloc, &mut views)
}

#[test]
fn a_piece_at_hand(rt: HostRuntime) {
    let alloc = rt.alloc();
    assert!(rt; note_m(alloc) && note_front(alloc));
}

/// Notes M of a reader. Whether it is held.
fn read_m(alloc: Global) -> bool {
    let mut views = Views::new(alloc);
    read(alloc, &mut views, &M, WHOLE, &PLACES) && holds_m(&views)
}

/// The same of M's first 128 bytes.
fn read_front(alloc: Global) -> bool {
    let mut views = Views::new(alloc);
    read(alloc, &mut views, &M[..128], CUT, &PLACES[..2]) && holds_the_cut(&views)
}

#[test]
fn a_piece_of_a_reader(rt: HostRuntime) {
    let alloc = rt.alloc();
    assert!(rt; read_m(alloc) && read_front(alloc));
}
