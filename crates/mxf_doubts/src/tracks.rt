//! The tracks that header metadata name (ST 377-1, TrackNumber).
ghost use Rattle.std.specs.Prelude.{◌≡◌, ◌||◌, ◌==◌, if◌then◌else◌, ℕ, List, Some, None, IfOk, OnOk, length};
ghost use Rattle.std.specs.BTreeSet.{contains};
ghost use Rattle.std.specs.Cmp.Lexicographic.{slice_cmp};
ghost use Rattle.std.specs.List.{filter_map, list_any};
ghost use Rattle.std.specs.Ordering.{nat_cmp};
ghost use Rattle.std.specs.Str.{bytes_eq};
ghost use Rattle.mxf_klv.specs.Parts.{NoteParts};
ghost use Rattle.mxf_doubts.specs.Tracks.{AreNamed, is_no_track, numbers_in, track_number};

use crate::sound::SoundZones;
use mxf_klv::{Kind, Note, OutOfMemory};
use mxf_sets::{Item, Items};
use mxf_views::{Views, set_items};
use std::alloc::Global;
use std::collections::BTreeSet;

/// The tag of the number of a track.
const TRACK_NUMBER: u16 = 0x4804;

/// The bytes, if there are four.
fn four(bytes: &[u8]) -> Option<[u8; 4]>
    ensures { result ≡ (if length bytes.now == 4 then Some bytes.now else None) }
{
    if bytes.len() != 4 {
        return None;
    }
    let mut all = [0; 4];
    all.copy_from_slice(bytes);
    Some(all)
}

/// The track number that an item is.
fn track_number(item: &Item<'_>) -> Option<[u8; 4]>
    ensures { result ≡ track_number item.now }
{
    if item.tag != TRACK_NUMBER {
        return None;
    }
    match four(item.value) {
        Some(number) if number != [0; 4] => Some(number),
        _ => None,
    }
}

/// Adds the track numbers that items are.
fn add_numbers(numbers: &mut BTreeSet<[u8; 4]>, items: Items<'_>) -> Result<(), OutOfMemory>
    ensures { OnOk result ((number : List ℕ) → contains (slice_cmp nat_cmp) numbers.new number
        ≡ (contains (slice_cmp nat_cmp) numbers.old number || list_any (bytes_eq number)
        (filter_map track_number items.entry))) }
{
    for item in items {
        if let Some(number) = track_number(&item) {
            numbers.insert(number)?;
        }
    }
    Ok(())
}

/// Adds the track numbers that a packet names, if it is a raw set.
#[tactic(auto, unfolding(crate::specs::Tracks::numbers_in))]
fn add_numbers_of(numbers: &mut BTreeSet<[u8; 4]>, note: &Note) -> Result<(), OutOfMemory>
    ensures { OnOk result ((number : List ℕ) → contains (slice_cmp nat_cmp) numbers.new number
        ≡ (contains (slice_cmp nat_cmp) numbers.old number || list_any (bytes_eq number) (numbers_in note.now))) }
{
    if note.kind() != Kind::RawSet {
        return Ok(());
    }
    match set_items(note) {
        Some(items) => add_numbers(numbers, items),
        None => Ok(()),
    }
}

/// The numbers of named tracks. They take memory.
pub(crate) fn named_tracks(
    alloc: Global,
    views: &Views,
    zones: &SoundZones<'_>,
) -> Result<BTreeSet<[u8; 4]>, OutOfMemory>
    requires { zones.now ≡ views.now }
    ensures { IfOk result (AreNamed views.now) }
{
    let mut numbers = BTreeSet::new(alloc);
    for note in views.catalogue().clear() {
        if zones.has(note) {
            add_numbers_of(&mut numbers, note)?;
        }
    }
    Ok(numbers)
}

/// Whether none of these numbers is the one, although there are some.
pub(crate) fn is_no_track(numbers: &BTreeSet<[u8; 4]>, number: [u8; 4]) -> bool
    ensures { (notes : List NoteParts) → AreNamed notes numbers.now → result ≡ is_no_track notes number }
{
    !numbers.is_empty() && !numbers.contains(&number)
}
