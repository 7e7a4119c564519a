//! Catalogues that are joined, merged and read: what was handed stands, or comes back.
ghost use Rattle.std.specs.Prelude.{◌<◌, ◌≤◌};

use crate::additions::{add, holds};
use crate::files::{M, M_OF_VERSION_1};
use mxf_catalogue::{Catalogue, Cover, FileFault, Semilattice};
use mxf_klv::{Encode, Note, OutOfMemory, Packet, cut_head, read_packet};
use mxf_views::Views;
use std::alloc::{AllocError, Global};

/// The note of a packet, even if one growth is refused.
fn note_of(alloc: Global, offset: u64, packet: &Packet<'_>) -> Option<Note> {
    match Note::of(alloc, offset, packet) {
        Ok(note) => Some(note),
        Err(_) => Note::of(alloc, offset, packet).ok(),
    }
}

/// The note of M's packet at an offset, even if one growth is refused.
fn note_of_m(alloc: Global, offset: usize) -> Option<Note> {
    let (packet, _) = read_packet(M.get(offset..)?).ok()?;
    note_of(alloc, offset as u64, &packet)
}

/// Adds the packets of M at these offsets, even if one growth is refused. Whether they are added.
fn add_of_m(alloc: Global, all: &mut Catalogue, offsets: &[usize]) -> bool {
    for offset in offsets {
        if !add(all, note_of_m(alloc, *offset)) {
            return false;
        }
    }
    true
}

/// The catalogue of these, or of those before one that can't be added.
fn of_m(alloc: Global, offsets: &[usize]) -> Catalogue {
    let mut all = Catalogue::new(alloc);
    add_of_m(alloc, &mut all, offsets);
    all
}

/// Adds M's first packet and the head of its second, even if one growth is refused. Whether they are added.
fn add_cut_m(alloc: Global, all: &mut Catalogue) -> bool {
    add_of_m(alloc, all, &[0]) && add(all, cut_head(108, &M[108..128]))
}

/// Adds the packet after them too.
fn add_around(alloc: Global, all: &mut Catalogue) -> bool {
    add_cut_m(alloc, all) && add_of_m(alloc, all, &[216])
}

/// Whether the join is the wanted one, even if one growth is refused.
fn joins_to(alloc: Global, one: &Catalogue, other: &Catalogue, wanted: &Catalogue) -> bool {
    match Catalogue::join(alloc, one, other) {
        Ok(joined) => joined.same(wanted),
        Err(OutOfMemory) => match Catalogue::join(alloc, one, other) {
            Ok(joined) => joined.same(wanted),
            Err(OutOfMemory) => false,
        },
    }
}

/// Merges. Whether that leaves the wanted notes; if it is refused, those before it are left, and these come back.
fn merge_to(
    all: &mut Catalogue,
    other: Catalogue,
    before: &Catalogue,
    same: &Catalogue,
    wanted: &Catalogue,
) -> bool {
    match all.merge(other) {
        Ok(()) => all.same(wanted),
        Err(fault) => {
            let kept = all.same(before) && fault.other.same(same);
            all.merge(fault.other).is_ok() && all.same(wanted) && kept
        }
    }
}

/// Whether a join with the packets around a head, which stand, and a merge into them, leave the whole.
fn a_head_gives_way(alloc: Global) -> bool {
    let mut around = Catalogue::new(alloc);
    let mut before = Catalogue::new(alloc);
    let middle = of_m(alloc, &[108]);
    let whole = of_m(alloc, &[0, 108, 216]);
    add_around(alloc, &mut around)
        && add_around(alloc, &mut before)
        && joins_to(alloc, &middle, &around, &whole)
        && around.same(&before)
        && merge_to(&mut around, of_m(alloc, &[108]), &before, &middle, &whole)
}

#[test]
fn a_join_and_a_merge_of_catalogues(rt: HostRuntime) {
    assert!(rt; a_head_gives_way(rt.alloc()));
}

/// The catalogue of a file, even if one growth is refused.
fn read(alloc: Global, file: &[u8]) -> Result<Catalogue, FileFault> {
    match Catalogue::read(alloc, file) {
        Err(FileFault::OutOfMemory) => Catalogue::read(alloc, file),
        answer => answer,
    }
}

/// Whether a file is read as this catalogue.
fn is_read_as(alloc: Global, file: &[u8], all: &Catalogue) -> bool {
    match read(alloc, file) {
        Ok(again) => again.same(all),
        Err(_) => false,
    }
}

/// Room for the file of M's catalogue, even if one growth is refused.
fn room(alloc: Global) -> Result<Vec<u8>, AllocError> {
    match Vec::with_capacity(alloc, 322) {
        Ok(room) => Ok(room),
        Err(_) => Vec::with_capacity(alloc, 322),
    }
}

/// Saves a catalogue. Whether its file has `size` bytes, and is read back.
fn save(alloc: Global, all: &Catalogue, size: usize) -> bool {
    match room(alloc) {
        Ok(mut file) => {
            all.write_to(&mut file) == Ok(()) && file.len() == size && is_read_as(alloc, &file, all)
        }
        Err(_) => false,
    }
}

/// Saves that of M's first packet and a head, and reads that of version 1 when M's other packets were added.
fn save_and_read(alloc: Global) -> bool {
    let mut all = Catalogue::new(alloc);
    add_cut_m(alloc, &mut all)
        && save(alloc, &all, 172)
        && add_of_m(alloc, &mut all, &[108, 216])
        && is_read_as(alloc, &M_OF_VERSION_1, &all)
}

/// Whether a file of version 1 that is cut is refused, even if one growth is refused.
fn cut_is_refused(alloc: Global) -> bool {
    match read(alloc, &M_OF_VERSION_1[..318]) {
        Ok(_) => false,
        Err(fault) => fault == FileFault::Truncated(258),
    }
}

#[test]
fn catalogues_that_are_read(rt: HostRuntime) {
    let alloc = rt.alloc();
    assert!(rt; save_and_read(alloc) && cut_is_refused(alloc));
}

/// The views of M's packets at these offsets.
fn views_of_m(alloc: Global, offsets: &[usize]) -> Result<Views, OutOfMemory> {
    match Views::of(alloc, of_m(alloc, offsets)) {
        Ok(views) => Ok(views),
        Err(_) => Err(OutOfMemory),
    }
}

/// Whether the views of a front and of what follows it are joined to those of the whole.
fn views_are_joined(alloc: Global) -> Result<bool, OutOfMemory> {
    let front = views_of_m(alloc, &[0])?;
    let back = views_of_m(alloc, &[108, 216])?;
    let joined = Views::join(alloc, &front, &back)?;
    Ok(joined.catalogue().same(&of_m(alloc, &[0, 108, 216])))
}

/// Whether a front into whose views two notes are merged is the whole; if they are refused, all stand.
fn notes_are_merged(alloc: Global) -> Result<bool, OutOfMemory> {
    let whole = of_m(alloc, &[0, 108, 216]);
    let mut front = views_of_m(alloc, &[0])?;
    match front.merge(of_m(alloc, &[108, 216])) {
        Ok(()) => Ok(front.catalogue().same(&whole)),
        Err(fault) => {
            let kept = front.catalogue().len() == 1 && fault.other.len() == 2;
            Ok(front.merge(fault.other).is_ok() && front.catalogue().same(&whole) && kept)
        }
    }
}

#[test]
fn a_join_and_a_merge_of_views(rt: HostRuntime) {
    let alloc = rt.alloc();
    assert!(rt; holds(alloc, views_are_joined) && holds(alloc, notes_are_merged));
}

/// Adds a run to a cover, even if one growth is refused. Whether it is added.
fn add_run(cover: &mut Cover, start: u64, end: u64) -> bool
    requires rising { start < end }
    requires within { end ≤ 9223372036854775807 }
{
    match cover.add(start, end) {
        Ok(()) => true,
        Err(OutOfMemory) => cover.add(start, end).is_ok(),
    }
}

/// Whether the join of covers of one run each has two runs, and they stand.
fn covers_are_joined(alloc: Global) -> Result<bool, OutOfMemory> {
    let mut front = Cover::new(alloc);
    let mut back = Cover::new(alloc);
    let added = add_run(&mut front, 0, 30) && add_run(&mut back, 40, 50);
    let joined = Cover::join(alloc, &front, &back)?;
    let counted = joined.runs().count() == 2 && joined.gaps().count() == 1;
    Ok(added && counted && front.runs().count() == 1)
}

#[test]
fn a_join_of_covers(rt: HostRuntime) {
    assert!(rt; holds(rt.alloc(), covers_are_joined));
}
