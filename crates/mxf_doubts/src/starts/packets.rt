//! Where packets of the essence containers begin, and what lies inside of them.
ghost use Rattle.std.specs.Prelude.{◌≡◌, IfOk};
ghost use Rattle.mxf_doubts.specs.UnitStarts.{AreMisses, begins_packet, leads_to_packet};

use crate::strange::is_container_packet;
use mxf_catalogue::{Catalogue, Cover};
use mxf_klv::{Kind, Note, OutOfMemory};
use std::alloc::Global;

/// Whether a clear packet of an essence container begins at an offset: a binary search.
pub(super) fn begins_packet(catalogue: &Catalogue, offset: u64) -> bool
    ensures { result ≡ begins_packet catalogue.now offset }
{
    catalogue.laws();
    match catalogue.clear_at(offset) {
        Some(note) => is_container_packet(note),
        None => false,
    }
}

/// Whether it is a packet of an essence container, or a fill that one follows.
#[tactic(auto, unfolding(crate::specs::UnitStarts::leads_to_packet))]
fn leads_to_packet(catalogue: &Catalogue, note: &Note) -> bool
    ensures { result ≡ leads_to_packet catalogue.now note.now }
{
    is_container_packet(note) || (note.kind() == Kind::Fill && begins_packet(catalogue, note.end()))
}

/// The offsets above the first bytes of such clear packets.
pub(super) fn misses_in(alloc: Global, catalogue: &Catalogue) -> Result<Cover, OutOfMemory>
    ensures { IfOk result (λ c. AreMisses catalogue.now c) }
{
    let mut cover = Cover::new(alloc);
    for note in catalogue.clear() {
        if leads_to_packet(catalogue, note) {
            cover.add(note.offset() + 1, note.end())?;
        }
    }
    Ok(cover)
}
