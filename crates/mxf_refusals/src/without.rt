//! What takes no memory: it answers while every growth is refused.
use crate::additions::essence;
use crate::files::{M, R, SEGMENT};
use mxf_catalogue::{Catalogue, Change};
use mxf_klv::{Encode, Held, Note, OutOfMemory, cut_head, read_packet};
use mxf_read::absorb;
use mxf_references::{Found, find};
use mxf_views::{BadUnit, Chain, Link, Place, RipView, Views, set_items};
use std::alloc::Global;
use uuid::Uuid;

/// The note of M's footer, at 108. None if a growth is refused.
fn footer(alloc: Global) -> Option<Note> {
    let (packet, _) = read_packet(&M[108..]).ok()?;
    Note::of(alloc, 108, &packet).ok()
}

/// Whether M's notes are found, all of them clear.
fn holds_m(all: &Catalogue) -> bool {
    all.len() == 3
        && all.notes().count() == 3
        && all.clear().count() == 3
        && all.disputed().count() == 0
        && all.spans().gaps().count() == 0
        && all.clear_at(108).is_some_and(|note| all.holds(note))
        && all.clear_within(0, 263).count() == 2
}

/// Whether M's partitions hang together.
fn hangs_together(views: &Views) -> bool {
    views.partitions().count() == 2
        && views.chain() == Chain::Whole
        && views.link(108) == Some(Link::Held)
        && views.gaps().count() == 0
        && views.segments().count() == 0
        && matches!(&views.rip(), RipView::One(rip) if rip.entries().count() == 2)
}

/// Adds a note. Whether nothing is new about it.
fn repeat(views: &mut Views, note: Note) -> bool {
    match views.add(note) {
        Ok(change) => change == Change::Repeated,
        Err(_) => false,
    }
}

/// Whether a packet from 100 to 117 touches the first packet and the second, over the ends of which it is.
fn touches_two(all: &Catalogue) -> bool {
    match essence(100, 0) {
        Some(over) => all.clear_touching(&over).count() == 2,
        None => false,
    }
}

/// Whether the file of a catalogue has 322 bytes, if there is room for them.
fn has_322_bytes(alloc: Global, all: &Catalogue) -> bool {
    match Vec::with_capacity(alloc, 322) {
        Ok(mut file) => all.write_to(&mut file) == Ok(()) && file.len() == 322,
        Err(_) => true,
    }
}

/// Adds the note of M's footer and its head, when M is held. Whether nothing is new about either, and M's notes and
/// partitions are found, and written.
fn repeat_footer(alloc: Global, views: &mut Views, note: Note) -> bool {
    let Some(head) = cut_head(108, &M[108..128]) else {
        return false;
    };
    repeat(views, note)
        && repeat(views, head)
        && holds_m(views.catalogue())
        && hangs_together(views)
        && touches_two(views.catalogue())
        && has_322_bytes(alloc, views.catalogue())
}

/// The same, if M can be noted.
fn note_and_repeat(alloc: Global) -> bool {
    let mut views = Views::new(alloc);
    if absorb(alloc, &mut views, 0, &M).is_err() {
        return true;
    }
    match footer(alloc) {
        Some(note) => repeat_footer(alloc, &mut views, note),
        None => true,
    }
}

#[test]
fn without_memory_held_notes_are_added_and_written(rt: HostRuntime) {
    assert!(rt; note_and_repeat(rt.alloc()));
}

/// Whether M's header is held, and the head of its footer, which claims the bytes up to 216.
fn holds_the_cut(views: &Views, head: &Note) -> bool {
    let all = views.catalogue();
    all.len() == 2
        && all.clear().count() == 1
        && all.holds(head)
        && !all.disputes(head)
        && all.clear_at(108).is_none()
        && all.end() == 216
        && views.gaps().count() == 1
}

/// Whether a head that is made and one of cut bytes are the same.
fn are_alike(alloc: Global, made: &Note, head: &Note) -> bool {
    let copied = match made.to_head().clone_in(alloc) {
        Ok(copy) => copy == *head,
        Err(OutOfMemory) => false,
    };
    let told = *made == *head && made.is_head() && made.tells(head);
    copied && told && matches!(&head.held(), Held::Head)
}

/// Makes the head of M's footer as cut bytes have it, and adds it. Whether it is held.
fn make_head(alloc: Global, views: &mut Views, head: &Note) -> bool {
    let Some(made) = Note::head(108, head.key(), 4, 88) else {
        return false;
    };
    let alike = are_alike(alloc, &made, head) && (head.covered_end(), head.end()) == (128, 216);
    repeat(views, made) && alike && holds_the_cut(views, head)
}

/// The same, if the bytes up to it can be noted.
fn add_head(alloc: Global) -> bool {
    let mut views = Views::new(alloc);
    if absorb(alloc, &mut views, 0, &M[..128]).is_err() {
        return true;
    }
    match cut_head(108, &M[108..128]) {
        Some(head) => make_head(alloc, &mut views, &head),
        None => false,
    }
}

#[test]
fn without_memory_heads_are_made_and_a_held_one_is_added(rt: HostRuntime) {
    assert!(rt; add_head(rt.alloc()));
}

/// Whether units of a segment are located.
fn locates_units(views: &Views) -> bool {
    let place = Place::At {
        body_sid: 2,
        offset: 2_500_000,
    };
    views.locate(1, 10) == Ok(place)
        && views.locate(1, 100) == Ok(Place::NotIndexed)
        && views.locate(1, 9_223_372_036_854_775_808) == Err(BadUnit)
}

/// Whether the copy of R is found with a set and its primer pack.
fn has_its_sets(views: &Views) -> Option<bool> {
    let preferred = views.preferred()?;
    let set = views.sets(0).next()?;
    let labelled = views.primer_for(set)?.label(0x8001) == Some([0xAA; 16]);
    let found = find(views, 0, Uuid::from_bytes([0x33; 16])) == Found::One(298);
    let copied = (preferred.partition, preferred.start) == (0, Some(108));
    Some(labelled && found && copied && views.copies().len() == 1)
}

/// Whether the copy of a set is found, with its items and its primer pack.
fn has_its_copy(views: &Views) -> Option<bool> {
    let header = views.partitions().next()?;
    let set = views.sets(0).next()?;
    let items = set_items(set)?.next().is_some();
    let copy = views.copy_with(set)?;
    let labelled = views.primer_of(&copy)?.label(0x8001) == Some([0xAA; 16]);
    Some(views.link_of(&header) == Link::First && items && copy.partition == 0 && labelled)
}

/// Whether these are found in R and a segment after it, if both can be noted.
fn note_and_ask(alloc: Global) -> bool {
    let mut views = Views::new(alloc);
    absorb(alloc, &mut views, 0, &R).is_err()
        || absorb(alloc, &mut views, 374, &SEGMENT).is_err()
        || (locates_units(&views)
            && has_its_sets(&views) == Some(true)
            && has_its_copy(&views) == Some(true))
}

#[test]
fn without_memory_views_are_asked(rt: HostRuntime) {
    assert!(rt; note_and_ask(rt.alloc()));
}
