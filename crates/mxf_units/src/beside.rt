//! The offsets where no essence can lie: those of packets that are neither essence nor of a kind that isn't known.
ghost use Rattle.std.specs.Prelude.{◌≡◌, IfOk, List};
ghost use Rattle.mxf_klv.specs.Parts.{NoteParts};
ghost use Rattle.mxf_units.specs.Units.{AreBesideEssence, is_beside_essence};

use crate::first_packet::may_be_essence;
use mxf_catalogue::Cover;
use mxf_klv::OutOfMemory;
use mxf_places::Holdings;
use std::alloc::Global;

/// The offsets, in bytes, that packets cover which can't be essence and share no byte with another: the whole packet,
/// or the key and length of a head. They take memory.
pub(crate) fn beside_essence(alloc: Global, holdings: &Holdings<'_>) -> Result<Cover, OutOfMemory>
    ensures { IfOk result (λ c. AreBesideEssence holdings.now c) }
{
    let mut cover = Cover::new(alloc);
    for note in holdings.views().catalogue().undisputed() {
        if !may_be_essence(note.kind()) {
            cover.add(note.offset(), note.covered_end())?;
        }
    }
    Ok(cover)
}

/// Whether an offset, in bytes, is one of these: a binary search.
pub(crate) fn is_beside_essence(beside: &Cover, offset: u128) -> bool
    ensures { (notes : List NoteParts) → AreBesideEssence notes beside.now → result ≡ is_beside_essence notes offset }
{
    offset < u128::from(beside.end()) && beside.has(offset as u64)
}
