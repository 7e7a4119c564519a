//! Places at which partitions may stand, each with the streams that it may be of (ST 377-1, Random Index Pack).
ghost use Rattle.std.specs.Prelude.{◌≡◌, ◌++◌, ◌≤◌, ◌^◌, IfOk, MatchOption, List, map};
ghost use Rattle.mxf_klv.specs.Parts.{NoteParts};
ghost use Rattle.mxf_views.specs.Partitions.{partitions_of};
ghost use Rattle.mxf_partial.specs.NearTable.{AreListed, AreOfStreams, IsOfNoStream, IsOfStreams, named_of, entry_of};
ghost use Rattle.mxf_partial.specs.NearTable.{partition_place, rank};

use crate::in_streams::{Bound, InStream, first_from, last_below};
use mxf_klv::{OutOfMemory, sort_once};
use mxf_restore::NamedPlace;
use mxf_sets::RipEntry;
use mxf_views::{RipAt, RipView, Views};
use std::alloc::Global;

/// An entry of the random index pack, by where the partition that it lists stands.
#[derive(Clone, Copy, PartialEq, Eq, PartialOrd, Ord)]
pub(crate) struct ListedStream {
    /// A file offset, in bytes.
    offset: u64,
    body_sid: u32,
}

/// Entries are looked up by their file offsets: those of one stand in a row, by BodySID.
impl InStream for ListedStream {
    ghost stream = { λ e. e.offset };

    ghost offset = { λ e. 0 };

    ghost tie = { λ e. e.body_sid };

    fn stream(&self) -> u64 {
        self.offset
    }

    fn offset(&self) -> u128 {
        0
    }
}

/// A place at which a partition may stand, with the stream that it is of.
#[derive(Clone, Copy, PartialEq, Eq, PartialOrd, Ord)]
pub(crate) struct PlaceOf {
    /// The BodySID that is listed for the place; none if no entry lists it, and it may be of any stream.
    pub body_sid: Option<u32>,
    /// A file offset, in bytes.
    pub place: u64,
    /// The file offset of the pack that names the place, in bytes.
    pub source: Option<u64>,
}

/// Places are looked up by stream, those of any stream before all others.
impl InStream for PlaceOf {
    ghost use Rattle.mxf_partial.specs.NearTable.{rank};

    ghost stream = { λ p. rank p.body_sid };

    ghost offset = { λ p. p.place };

    ghost tie = { λ p. 0 };

    fn stream(&self) -> u64 {
        rank(self.body_sid)
    }

    fn offset(&self) -> u128 {
        u128::from(self.place)
    }
}

impl PlaceOf {
    /// The place by itself.
    pub fn named(&self) -> NamedPlace
        ensures { result ≡ named_of self.now }
    {
        NamedPlace {
            place: self.place,
            source: self.source,
        }
    }
}

/// The number by which places of a stream are found, those of any stream before all others.
pub(crate) fn rank(body_sid: Option<u32>) -> u64
    ensures rank { result ≡ rank body_sid }
    ensures bound { result ≤ 2 ^ 32 }
{
    match body_sid {
        Some(body_sid) => u64::from(body_sid) + 1,
        None => 0,
    }
}

/// The entries of the only random index pack, by where the partitions that they list stand. They take memory.
pub(crate) fn listed_streams(alloc: Global, views: &Views) -> Result<Vec<ListedStream>, OutOfMemory>
    ensures { IfOk result (λ v. AreListed views.now v.items) }
{
    let mut listed = match views.rip() {
        RipView::One(rip) => entries_of(alloc, &rip)?,
        _ => Vec::new(alloc),
    };
    sort_once(&mut listed);
    Ok(listed)
}

/// The entries of a random index pack. They take memory.
fn entries_of(alloc: Global, rip: &RipAt<'_>) -> Result<Vec<ListedStream>, OutOfMemory>
    ensures { IfOk result (λ v. v.items ≡ map entry_of (map (λ e. e.0) rip.now.entries)) }
{
    let entries = rip.listed().map(|entry| entry_of(entry));
    Ok(entries.collect(alloc)?)
}

/// An entry, by where the partition that it lists stands.
fn entry_of(entry: RipEntry) -> ListedStream
    ensures { result ≡ entry_of entry }
{
    ListedStream {
        offset: entry.offset,
        body_sid: entry.body_sid,
    }
}

/// The BodySID that all entries which list a place, in bytes, give, or none if no entry does: two binary searches. No
/// answer if entries give different ones.
fn stream_of(listed: &[ListedStream], place: u64) -> Option<Option<u32>>
    ensures { (notes : List NoteParts) → AreListed notes listed.now
        → MatchOption result (IsOfNoStream notes place) (IsOfStreams notes place) }
{
    let Some(first) = first_from(listed, place, Bound { from: 0, more: 0 }) else {
        return Some(None);
    };
    match last_below(listed, place, Bound { from: 1, more: 0 }) {
        Some(last) if first.body_sid != last.body_sid => None,
        _ => Some(Some(first.body_sid)),
    }
}

/// The places, each with the streams that it may be of, by these. They take memory, and time n log n of places and
/// entries.
pub(crate) fn of_streams(
    alloc: Global,
    listed: &[ListedStream],
    places: &[NamedPlace],
) -> Result<Vec<PlaceOf>, OutOfMemory>
    ensures { IfOk result (λ v. (notes : List NoteParts) → AreListed notes listed.now
        → AreOfStreams notes places.now v.items) }
{
    let mut items = Vec::new(alloc);
    for place in places {
        if let Some(body_sid) = stream_of(listed, place.place) {
            items.push(PlaceOf {
                body_sid,
                place: place.place,
                source: place.source,
            })?;
        }
    }
    sort_once(&mut items);
    Ok(items)
}

/// The named places, and where partitions stand. They take memory.
pub(crate) fn all_places(
    alloc: Global,
    named: &[NamedPlace],
    views: &Views,
) -> Result<Vec<NamedPlace>, OutOfMemory>
    ensures { IfOk result (λ v. v.items ≡ named.now ++ map partition_place (partitions_of views.now)) }
{
    let mut places = Vec::new(alloc);
    places.extend(named.iter().copied())?;
    let partitions = views.partitions_in_numbers().iter();
    places.extend(partitions.map(|partition| NamedPlace {
        place: partition.offset,
        source: None,
    }))?;
    Ok(places)
}
