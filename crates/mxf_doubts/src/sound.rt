//! The zones of finished copies of the header metadata.
ghost use Rattle.std.specs.Prelude.{◌≡◌, ◌↔◌, List, IfOk, IsTrue};
ghost use Rattle.std.specs.List.{filter_map};
ghost use Rattle.std.specs.List.Sorted.{IsNonDecreasingBy, IsPermutation};
ghost use Rattle.mxf_catalogue.specs.Content.{IsContent};
ghost use Rattle.mxf_klv.specs.Parts.{NoteParts};
ghost use Rattle.mxf_doubts.specs.declared.sound.Zone.{Zone};
ghost use Rattle.mxf_doubts.specs.Sound.{IsInSoundZone};
ghost use Rattle.mxf_doubts.specs.Sound.{AreReachesOf, filled_by, is_first_primer, is_in_sound_zone, lie_in, reaches_from, sound_zones};

use mxf_klv::{Keyed, Kind, Note, OutOfMemory, has_key, up_to};
use mxf_views::{CopyInfo, Views};
use std::alloc::Global;
use std::marker::Model;

/// The bytes that a finished copy of the header metadata fills, from an offset up to an end.
#[derive(Clone, Copy)]
struct Zone {
    start: u64,
    end: u128,
}

impl Keyed for Zone {
    ghost key = { λ z. z.start };

    fn key(&self) -> u64 {
        self.start
    }
}

/// The bytes that a copy fills, if it is finished.
fn filled_by(copy: &CopyInfo) -> Option<Zone>
    ensures { result ≡ filled_by copy.now }
{
    match copy.start {
        Some(start) if copy.finished => Some(Zone {
            start,
            end: u128::from(start) + u128::from(copy.bytes),
        }),
        _ => None,
    }
}

/// The zones of the finished ones of copies, in their order.
fn listed(alloc: Global, copies: &[CopyInfo]) -> Result<Vec<Zone>, OutOfMemory>
    ensures { IfOk result (λ v. v.items ≡ filter_map filled_by copies.now) }
{
    Ok(
        copies
            .iter()
            .filter_map(|copy| filled_by(copy))
            .collect(alloc)?,
    )
}

/// The same by their starts.
fn by_start(alloc: Global, copies: &[CopyInfo]) -> Result<Vec<Zone>, OutOfMemory>
    ensures permutation { IfOk result (λ v. IsPermutation (filter_map filled_by copies.now) v.items) }
    ensures rising { IfOk result (λ v. IsNonDecreasingBy (λ (z : Zone). z.start) v.items) }
{
    let mut zones = listed(alloc, copies)?;
    zones.sort_unstable_by_key(|zone| zone.start);
    Ok(zones)
}

/// Each zone with the greatest end so far.
fn with_reaches(alloc: Global, zones: &[Zone]) -> Result<Vec<Zone>, OutOfMemory>
    ensures { IfOk result (λ v. v.items ≡ reaches_from 0 zones.now) }
{
    let mut reaches = Vec::new(alloc);
    let mut end = 0;
    for zone in zones {
        end = end.max(zone.end);
        reaches.push(Zone {
            start: zone.start,
            end,
        })?;
    }
    Ok(reaches)
}

/// The zones of the finished ones of copies, each with the greatest end so far.
fn zones_of(alloc: Global, copies: &[CopyInfo]) -> Result<Vec<Zone>, OutOfMemory>
    ensures { IfOk result (λ v. AreReachesOf (filter_map filled_by copies.now) v.items) }
{
    let zones = by_start(alloc, copies)?;
    with_reaches(alloc, &zones)
}

/// Whether the bytes from an offset up to an end lie wholly in one of the zones: a binary search.
fn lie_in(zones: &[Zone], offset: u64, end: u64) -> bool
    requires starts { IsNonDecreasingBy (λ (z : Zone). z.start) zones.now }
    requires ends { IsNonDecreasingBy (λ (z : Zone). z.end) zones.now }
    ensures { result ≡ lie_in offset end zones.now }
{
    let Some(last) = up_to(zones, offset).checked_sub(1) else {
        return false;
    };
    match zones.get(last) {
        Some(zone) => u128::from(end) <= zone.end,
        None => false,
    }
}

/// The zones of the finished copies of the header metadata of a file.
pub struct SoundZones<'a> {
    views: &'a Views,
    zones: Vec<Zone>,
}

impl Drop for SoundZones<'_> {
    fn drop(self) {
        let SoundZones {
            views: _,
            zones: _zones,
        } = self;
    }
}

impl<'a> Model for SoundZones<'a> {
    ghost use Rattle.std.specs.Prelude.{List};
    ghost use Rattle.mxf_klv.specs.Parts.{NoteParts};
    ghost use Rattle.mxf_doubts.specs.Sound.{AreReachesOf, sound_zones};

    ghost Value = { List NoteParts };

    ghost view = { λ z. z.views.now };

    ghost invariant = { λ z. AreReachesOf (sound_zones z.views.now) z.zones.items };
}

impl<'a> SoundZones<'a> {
    /// Those of the copies of the views. It takes memory.
    pub fn of(alloc: Global, views: &'a Views) -> Result<SoundZones<'a>, OutOfMemory>
        ensures { IfOk result (λ z. z ≡ views.now) }
    {
        let zones = zones_of(alloc, views.copies())?;
        Ok(SoundZones { views, zones })
    }

    /// Whether the packet of a note lies wholly in one of them: a binary search.
    pub fn has(&self, note: &Note) -> bool
        ensures { result ≡ is_in_sound_zone self.now note.now }
    {
        lie_in(&self.zones, note.offset(), note.end())
    }

    /// Whether a finished copy begins with the packet of a note, its primer pack: a binary search.
    pub fn begins_with(&self, note: &Note) -> bool
        ensures { result ≡ is_first_primer self.now note.now }
    {
        match note.kind() {
            Kind::Primer => has_key(&self.zones, note.offset()),
            _ => false,
        }
    }
}

/// A law of [`SoundZones::has`]: a packet lies wholly in the bytes that some finished copy fills.
pub fn sound_zones_by_definition()
    ensures { (notes : List NoteParts) (n : NoteParts) → IsContent notes
        → IsTrue (is_in_sound_zone notes n) ↔ IsInSoundZone notes n }
{}
