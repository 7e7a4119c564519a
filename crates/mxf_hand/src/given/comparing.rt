//! Comparing sources where they overlap.
ghost use Rattle.std.specs.Prelude.{◌≡◌, ◌+◌, ◌<◌, ◌^◌, ℕ, List, length, IfOk, IfSome, OnOk};
ghost use Rattle.mxf_klv.specs.Rising.{In};
ghost use Rattle.mxf_catalogue.specs.Runs.{LiesIn};
ghost use Rattle.mxf_hand.specs.Differing.{AreCompared, GivesAll, IsCompared, IsOverlap, IsPartCompared};
ghost use Rattle.mxf_hand.specs.Given.{AreAtHand, AreTold, SourceParts, StandAt};
ghost use Rattle.mxf_hand.specs.Places.{IsPlaceOf, place};
ghost use Rattle.mxf_hand.specs.declared.given.Place.{Place};

use super::differing::Differing;
use super::outside::outside;
use super::place_at::place_in;
use super::stepping::read_source;
use super::{Extent, Given, Place, SourceFault, Sources};
use mxf_catalogue::Cover;
use std::alloc::Global;

impl Given {
    /// The offsets at hand: those that sources give and around which they don't differ. If several sources give a byte,
    /// that of the first is read beside that of each other; no other byte is read. They take memory.
    pub fn hand<S: Sources>(&self, alloc: Global, sources: &mut S) -> Result<Cover, SourceFault>
        ensures told { S.told sources.new ≡ S.told sources.old }
        ensures hand { (given : List SourceParts) → AreTold (S.told sources.old) self.now.extents given
            → IfOk result (λ hand. AreAtHand given hand) }
        ensures given { IfOk result (λ hand. (x : ℕ) → LiesIn hand x → LiesIn self.now.given x) }
    {
        let noted = compare_all(alloc, sources, &self.extents, &self.places, &self.overlaps)?;
        let joined = noted.joined(alloc)?;
        let differing = joined.cover(alloc)?;
        Ok(outside(alloc, &self.given, &differing)?)
    }
}

/// Notes where the sources of overlaps differ from those of the places.
fn compare_all<S: Sources>(
    alloc: Global,
    sources: &mut S,
    extents: &[Extent],
    places: &[Place],
    overlaps: &[Place],
) -> Result<Differing, SourceFault>
    requires { (q : Place) → In q overlaps.now → IsOverlap extents.now places.now q }
    ensures told { S.told sources.new ≡ S.told sources.old }
    ensures noted { (given : List SourceParts) → AreTold (S.told sources.old) extents.now given
        → IfOk result (λ d. AreCompared given places.now overlaps.now d) }
{
    let mut differing = Differing::new(alloc);
    let mut one = [0u8; 65536];
    let mut other = [0u8; 65536];
    for overlap in overlaps {
        compare(
            &mut differing,
            sources,
            extents,
            places,
            *overlap,
            &mut one,
            &mut other,
        )?;
    }
    Ok(differing)
}

/// Notes where the source of an overlap differs from those of the places, by parts that fit two rooms of one size.
fn compare<S: Sources>(
    differing: &mut Differing,
    sources: &mut S,
    extents: &[Extent],
    places: &[Place],
    overlap: Place,
    one: &mut [u8],
    other: &mut [u8],
) -> Result<(), SourceFault>
    requires overlap { IsOverlap extents.now places.now overlap }
    requires room { 0 < length one.old }
    requires alike { length other.old ≡ length one.old }
    ensures told { S.told sources.new ≡ S.told sources.old }
    ensures noted { (given : List SourceParts) → AreTold (S.told sources.old) extents.now given
        → OnOk result (IsCompared given places.now overlap differing.old differing.new) }
{
    let mut at = overlap.start;
    'parts: while at < overlap.end {
        // Some place has each offset of an overlap.
        let Some(place) = place_in(places, at) else {
            unreachable!()
        };
        let size = (overlap.end.min(place.end) - at).min(one.len() as u64) as usize;
        let pair = (place.source, overlap.source);
        compare_part(
            differing,
            sources,
            extents,
            pair,
            at,
            &mut one[..size],
            &mut other[..size],
        )?;
        at += size as u64;
    }
    Ok(())
}

/// Notes where two sources differ, from a file offset on, over as many bytes as there is room.
fn compare_part<S: Sources>(
    differing: &mut Differing,
    sources: &mut S,
    extents: &[Extent],
    pair: (usize, usize),
    start: u64,
    one: &mut [u8],
    other: &mut [u8],
) -> Result<(), SourceFault>
    requires one { IsPlaceOf extents.now (place start (start + length one.old) pair.0) }
    requires other { IsPlaceOf extents.now (place start (start + length one.old) pair.1) }
    requires alike { length other.old ≡ length one.old }
    ensures told { S.told sources.new ≡ S.told sources.old }
    ensures noted { (given : List SourceParts) → AreTold (S.told sources.old) extents.now given
        → OnOk result (IsPartCompared given pair.0 pair.1 start (start + length one.old) differing.old differing.new) }
{
    read_range(sources, extents, pair.0, start, one)?;
    read_range(sources, extents, pair.1, start, other)?;
    differing.note_bytes(start, one, other)?;
    Ok(())
}

/// Reads as many bytes of a source as there is room, from a file offset on. All of them lie in its extent.
fn read_range<S: Sources>(
    sources: &mut S,
    extents: &[Extent],
    source_number: usize,
    start: u64,
    room: &mut [u8],
) -> Result<(), SourceFault>
    requires { IsPlaceOf extents.now (place start (start + length room.old) source_number) }
    ensures told { S.told sources.new ≡ S.told sources.old }
    ensures bytes { (given : List SourceParts) → AreTold (S.told sources.old) extents.now given
        → OnOk result (GivesAll given source_number start room.new) }
{
    let position = start - extents[source_number].offset;
    read_exactly(sources, source_number, position, room)
}

/// Reads as many bytes of a source as there is room, after its first `position` bytes.
fn read_exactly<S: Sources>(
    sources: &mut S,
    source_number: usize,
    position: u64,
    room: &mut [u8],
) -> Result<(), SourceFault>
    requires some { 0 < length room.old }
    requires fits { position + length room.old < 2 ^ 64 }
    ensures told { S.told sources.new ≡ S.told sources.old }
    ensures bytes { OnOk result (IfSome (S.told sources.old) (λ given. StandAt given source_number position room.new)) }
{
    let mut filled = 0;
    'reads: while filled < room.len() {
        let from = position + filled as u64;
        filled += read_source(sources, source_number, from, &mut room[filled..])?;
    }
    Ok(())
}
