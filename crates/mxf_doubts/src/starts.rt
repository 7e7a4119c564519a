//! Edit units at whose place no packet begins (ST 377-1, Stream Offset and BodyOffset; what is in doubt is this project's
//! profile).
ghost use Rattle.std.specs.Prelude.{◌≡◌, ◌≤◌, ◌<◌, ◌+◌, IfNone, IfOk, IfSome, None, Ok};
ghost use Rattle.std.specs.List.{filter_map};
ghost use Rattle.mxf_klv.specs.Note.{greatest_end};
ghost use Rattle.mxf_units.specs.EssenceZones.{parts_of, zone_at};
ghost use Rattle.mxf_units.specs.Units.{are_all_held, file_offset};
ghost use Rattle.mxf_doubts.specs.UnitStarts.{begins_alone, counts, first_misses, goes_on, is_inside, is_below};
ghost use Rattle.mxf_doubts.specs.UnitStarts.{is_asked, is_uneven, missed_starts, misses_packet, start_by, start_in, start_of, starts_of};

mod index;
mod packets;
mod stream_index;
mod units;

use crate::sizes::Sizes;
use index::{Index, Indexes};
use mxf_catalogue::Cover;
use mxf_klv::{MAX, OutOfMemory, sort_once};
use mxf_places::Holdings;
use mxf_units::{EssenceZone, StreamPart, parts_of, zone_at};
use mxf_views::{StreamPlace, Views};
use packets::{begins_packet, misses_in};
use std::alloc::Global;
use std::marker::Model;
use stream_index::StreamIndexes;
use units::{Unit, asked_units, is_among, listed_units};

/// Where a unit begins, if a packet begins there or the place lies inside of one.
#[derive(Clone, Copy, PartialEq, Eq, PartialOrd, Ord)]
pub(crate) struct UnitStart {
    body_sid: u32,
    /// The BodyOffset of its partition.
    body_offset: u64,
    unit: u64,
    /// The file offset, in bytes.
    offset: u64,
    /// Whether a packet begins there.
    is_good: bool,
}

/// The file offset, in bytes, at which an offset of a stream lies by an essence zone, if a packet can have it.
fn file_offset(zone: EssenceZone, offset: u128) -> Option<u64>
    ensures some { IfSome result (λ x. x ≡ file_offset zone offset) }
    ensures small { IfSome result (λ x. x < greatest_end) }
    ensures none { IfNone result (greatest_end ≤ file_offset zone offset) }
{
    let above = offset.saturating_sub(u128::from(zone.body_offset));
    if above >= u128::from(MAX) {
        return None;
    }
    let at = u128::from(zone.origin) + above;
    if at < u128::from(MAX) {
        Some(at as u64)
    } else {
        None
    }
}

/// Whether an offset lies below a limit, if there is one.
fn is_below(offset: u64, limit: Option<u64>) -> bool
    ensures { result ≡ is_below offset limit }
{
    limit.is_none_or(|limit| offset < limit)
}

/// Whether a start is one that misses its packet behind one of the same partition that does.
fn goes_on(before: Option<UnitStart>, start: UnitStart) -> bool
    ensures { result ≡ goes_on before start }
{
    match before {
        Some(before) => {
            !before.is_good
                && before.body_sid == start.body_sid
                && before.body_offset == start.body_offset
        }
        None => false,
    }
}

/// The file offsets of the first of rows of starts that miss their packets.
fn first_misses(alloc: Global, starts: &[UnitStart]) -> Result<Vec<u64>, OutOfMemory>
    ensures { IfOk result (λ v. v.items ≡ first_misses None starts.now) }
{
    let mut offsets = Vec::new(alloc);
    let mut before = None;
    for start in starts {
        if !start.is_good && !goes_on(before, *start) {
            offsets.push(start.offset)?;
        }
        before = Some(*start);
    }
    Ok(offsets)
}

/// What is asked for each unit.
struct UnitStarts<'a> {
    holdings: Holdings<'a>,
    parts: Vec<StreamPart>,
    sizes: Sizes<'a>,
    streams: StreamIndexes,
    sized: StreamIndexes,
    listed: Vec<Unit>,
    misses: Cover,
}

// Written out, a drop is one call wherever it is let go.
impl Drop for UnitStarts<'_> {
    fn drop(self) {
        let UnitStarts {
            holdings: _holdings,
            parts: _parts,
            sizes: _sizes,
            streams: _streams,
            sized: _sized,
            listed: _listed,
            misses: _misses,
        } = self;
    }
}

impl<'a> Model for UnitStarts<'a> {
    ghost use Rattle.std.specs.Prelude.{◌≡◌, List};
    ghost use Rattle.mxf_klv.specs.Parts.{NoteParts};
    ghost use Rattle.mxf_views.specs.Places.{segments_of};
    ghost use Rattle.mxf_units.specs.EssenceZones.{parts_of};
    ghost use Rattle.mxf_doubts.specs.UnitStarts.{AreMisses, listed_units, sized_segments, stream_indexes};

    ghost Value = { List NoteParts };

    ghost view = { λ s. s.sizes };

    ghost invariant = { λ s. (s.holdings ≡ s.sizes) × (s.parts.items ≡ parts_of s.sizes)
        × (s.streams ≡ stream_indexes (segments_of s.sizes)) × (s.sized ≡ stream_indexes (sized_segments s.sizes))
        × (s.listed.items ≡ listed_units s.sizes) × AreMisses s.sizes s.misses };
}

impl<'a> UnitStarts<'a> {
    /// What is asked of what views know. It takes memory.
    fn of(alloc: Global, views: &'a Views) -> Result<UnitStarts<'a>, OutOfMemory>
        ensures { IfOk result (λ s. s ≡ views.now) }
    {
        let holdings = Holdings::of(alloc, views)?;
        let parts = parts_of(alloc, &holdings)?;
        let sizes = Sizes::of(alloc, views)?;
        let streams = StreamIndexes::of(alloc, views)?;
        let sized = StreamIndexes::of_sized(alloc, views)?;
        let listed = listed_units(alloc, views)?;
        let misses = misses_in(alloc, views.catalogue())?;
        Ok(UnitStarts {
            holdings,
            parts,
            sizes,
            streams,
            sized,
            listed,
            misses,
        })
    }

    /// Whether a packet that shares no byte with another begins at an offset.
    fn begins_alone(&self, offset: u64) -> bool
        ensures { result ≡ begins_alone self.now offset }
    {
        let catalogue = self.holdings.views().catalogue();
        catalogue.undisputed_at(offset).is_some()
    }

    /// Whether packets cover all offsets from one up to another, that included.
    fn are_held(&self, from: u64, to: u64) -> bool
        requires { to < greatest_end }
        ensures { result ≡ are_all_held self.now from (to + 1) }
    {
        self.holdings.are_all_held(from, to + 1)
    }

    /// Whether an offset lies in a zone, as far as what is held says.
    fn is_inside(&self, zone: EssenceZone, offset: u64) -> bool
        requires { offset < greatest_end }
        ensures { result ≡ is_inside self.now zone offset }
    {
        self.begins_alone(zone.origin)
            && is_below(offset, zone.limit)
            && (zone.is_sure || self.are_held(zone.origin, offset))
    }

    /// Whether an offset lies inside of a packet, above its first byte.
    fn misses_packet(&self, offset: u64) -> bool
        ensures { result ≡ misses_packet self.now offset }
    {
        self.misses.has(offset)
    }

    /// The start of a unit that lies at a file offset, if a packet begins there or the place lies inside of one.
    fn start_by(
        &self,
        body_sid: u32,
        unit: u64,
        zone: EssenceZone,
        offset: u64,
    ) -> Option<UnitStart>
        requires { offset < greatest_end }
        ensures { result ≡ start_by self.now body_sid unit zone offset }
    {
        let is_good = begins_packet(self.holdings.views().catalogue(), offset);
        if self.is_inside(zone, offset) && (is_good || self.misses_packet(offset)) {
            Some(UnitStart {
                body_sid,
                body_offset: zone.body_offset,
                unit,
                offset,
                is_good,
            })
        } else {
            None
        }
    }

    /// The start of a unit by its place in its stream, and the zone in which that is to be found.
    fn start_in(&self, unit: u64, place: StreamPlace, zone: EssenceZone) -> Option<UnitStart>
        ensures { result ≡ start_in self.now unit place (Ok zone) }
    {
        match file_offset(zone, place.offset) {
            Some(offset) => self.start_by(place.body_sid, unit, zone, offset),
            None => {
                // No packet begins there.
                self.holdings.views().catalogue().laws();
                None
            }
        }
    }

    /// The start of a unit by its place in its stream.
    fn start_at(&self, unit: u64, place: StreamPlace) -> Option<UnitStart>
        ensures { result ≡ start_in self.now unit place (zone_at (parts_of self.now) place.body_sid place.offset) }
    {
        match zone_at(&self.parts, place.body_sid, place.offset) {
            Ok(zone) => self.start_in(unit, place, zone),
            Err(_) => None,
        }
    }

    /// Whether the place that an index gives a unit in a stream counts.
    fn counts(&self, index_sid: u32, unit: u64, body_sid: u32) -> bool
        ensures { result ≡ counts self.now index_sid unit body_sid }
    {
        self.is_asked(index_sid, body_sid)
            && (is_among(&self.listed, index_sid, unit) || !self.is_uneven(body_sid))
    }

    /// Whether an index is the one that is asked of a stream.
    fn is_asked(&self, index_sid: u32, body_sid: u32) -> bool
        ensures { result ≡ is_asked self.now index_sid body_sid }
    {
        match self.streams.first_of(body_sid) {
            Some(stream) => stream.index_sid == index_sid,
            None => false,
        }
    }

    /// Whether segments of the first index of a stream with units of one size state more sizes than one.
    fn is_uneven(&self, body_sid: u32) -> bool
        ensures { result ≡ is_uneven self.now body_sid }
    {
        match self.sized.first_of(body_sid) {
            Some(stream) => {
                self.sizes
                    .has_other_than(stream.index_sid, stream.body_sid, stream.unit_bytes)
            }
            None => false,
        }
    }

    /// The start of a unit of an index.
    #[tactic(auto, unfolding(crate::specs::UnitStarts::start_of))]
    fn start_of(&self, index: &Index<'_>, unit: u64) -> Option<UnitStart>
        requires { index.now.0 ≡ self.now }
        ensures { result ≡ start_of self.now (index.now.1, unit) }
    {
        let Ok(place) = index.place(unit) else {
            return None;
        };
        if self.counts(index.index_sid(), unit, place.body_sid) {
            self.start_at(unit, place)
        } else {
            None
        }
    }

    /// The starts of units, in their order.
    fn starts_of(
        &self,
        alloc: Global,
        indexes: &Indexes<'a>,
        units: &[Unit],
    ) -> Result<Vec<UnitStart>, OutOfMemory>
        requires { indexes.now ≡ self.now }
        ensures { IfOk result (λ v. v.items ≡ filter_map (start_of self.now) units.now) }
    {
        let mut starts = Vec::new(alloc);
        let mut index = indexes.index(alloc, 0)?;
        for (index_sid, unit) in units {
            if index.index_sid() != *index_sid {
                index = indexes.index(alloc, *index_sid)?;
            }
            if let Some(start) = self.start_of(&index, *unit) {
                starts.push(start)?;
            }
        }
        Ok(starts)
    }

    /// The starts of the units that are asked, in their order.
    fn all(&self, alloc: Global) -> Result<Vec<UnitStart>, OutOfMemory>
        ensures { IfOk result (λ v. v.items ≡ starts_of self.now) }
    {
        let views = self.holdings.views();
        let units = asked_units(alloc, views, &self.parts, &self.sized)?;
        let indexes = Indexes::of(alloc, views)?;
        let mut starts = self.starts_of(alloc, &indexes, &units)?;
        sort_once(&mut starts);
        Ok(starts)
    }
}

/// Where units miss their packets: of those that do so in a row the first, by file offsets in bytes. It takes memory.
#[tactic(auto, unfolding(crate::specs::UnitStarts::missed_starts))]
pub(crate) fn missed_starts(alloc: Global, views: &Views) -> Result<Vec<u64>, OutOfMemory>
    ensures { IfOk result (λ v. v.items ≡ missed_starts views.now) }
{
    let asked = UnitStarts::of(alloc, views)?;
    let starts = asked.all(alloc)?;
    first_misses(alloc, &starts)
}
