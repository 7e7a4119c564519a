//! The segments of one index after another.
ghost use Rattle.std.specs.Prelude.{◌≡◌, IfOk, map};
ghost use Rattle.std.specs.List.{filter_map};
ghost use Rattle.mxf_units.specs.Streams.{place_of, segments_for};
ghost use Rattle.mxf_views.specs.Places.{segments_of};
ghost use Rattle.mxf_doubts.specs.UnitStarts.{own_segment, own_segments, segment_there};

use mxf_klv::{Keyed, OutOfMemory, between, sort_once};
use mxf_units::{IndexSegments, UnitStanding};
use mxf_views::{SegmentAt, SegmentInNumbers, StreamPlace, Views};
use std::alloc::Global;
use std::marker::Model;

/// The IndexSID of a segment, and where it begins.
#[derive(Clone, Copy, PartialEq, Eq, PartialOrd, Ord)]
struct OwnSegment {
    index_sid: u32,
    offset: u64,
}

impl Keyed for OwnSegment {
    ghost key = { λ s. s.index_sid };

    fn key(&self) -> u64 {
        u64::from(self.index_sid)
    }
}

/// The segments of an index.
#[derive(Drop)]
pub(super) struct Index<'a> {
    views: &'a Views,
    index_sid: u32,
    segments: IndexSegments<'a>,
}

impl<'a> Model for Index<'a> {
    ghost use Rattle.std.specs.Prelude.{ℕ, List};
    ghost use Rattle.mxf_klv.specs.Parts.{NoteParts};
    ghost use Rattle.mxf_units.specs.Repeated.{SayAll};
    ghost use Rattle.mxf_units.specs.Streams.{segments_for};

    ghost Value = { List NoteParts × ℕ };

    ghost view = { λ i. (i.views.now, i.index_sid) };

    ghost invariant = { λ i. SayAll (segments_for i.views.now i.index_sid) i.segments };
}

impl<'a> Index<'a> {
    /// The IndexSID.
    pub fn index_sid(&self) -> u32
        ensures { result ≡ self.now.1 }
    {
        self.index_sid
    }

    /// The place of a unit in its stream, if the segments that give one agree.
    pub fn place(&self, unit: u64) -> Result<StreamPlace, UnitStanding>
        ensures { result ≡ place_of (segments_for self.now.0 self.now.1) unit }
    {
        self.segments.place(unit)
    }
}

/// The IndexSID of a segment, and where it begins.
fn own_segment(segment: &SegmentInNumbers) -> OwnSegment
    ensures { result ≡ own_segment segment.now }
{
    OwnSegment {
        index_sid: segment.numbers.index_sid,
        offset: segment.offset,
    }
}

/// Those of all segments, in the order of these.
fn own_segments(alloc: Global, views: &Views) -> Result<Vec<OwnSegment>, OutOfMemory>
    ensures { IfOk result (λ v. v.items ≡ map own_segment (segments_of views.now)) }
{
    let segments = views.segments_in_numbers().iter();
    Ok(segments.map(|segment| own_segment(segment)).collect(alloc)?)
}

/// The segments that begin there.
fn segments_at<'a>(
    alloc: Global,
    views: &'a Views,
    own: &[OwnSegment],
) -> Result<Vec<SegmentAt<'a>>, OutOfMemory>
    ensures { IfOk result (λ v. v.items ≡ filter_map (segment_there views.now) own.now) }
{
    let segments = own
        .iter()
        .filter_map(|segment| views.segment_at(segment.offset));
    Ok(segments.collect(alloc)?)
}

/// The segments of all indexes.
#[derive(Drop)]
pub(super) struct Indexes<'a> {
    views: &'a Views,
    segments: Vec<OwnSegment>,
}

impl<'a> Model for Indexes<'a> {
    ghost use Rattle.std.specs.Prelude.{◌≡◌, List};
    ghost use Rattle.mxf_klv.specs.Parts.{NoteParts};
    ghost use Rattle.mxf_doubts.specs.UnitStarts.{own_segments};

    ghost Value = { List NoteParts };

    ghost view = { λ i. i.views.now };

    ghost invariant = { λ i. i.segments.items ≡ own_segments i.views.now };
}

impl<'a> Indexes<'a> {
    /// Those that views know. They take memory.
    pub fn of(alloc: Global, views: &'a Views) -> Result<Indexes<'a>, OutOfMemory>
        ensures { IfOk result (λ i. i ≡ views.now) }
    {
        let mut segments = own_segments(alloc, views)?;
        sort_once(&mut segments);
        Ok(Indexes { views, segments })
    }

    /// The index of an IndexSID. It takes memory, and two binary searches beside what its segments take.
    pub fn index(&self, alloc: Global, index_sid: u32) -> Result<Index<'a>, OutOfMemory>
        ensures { IfOk result (λ i. i ≡ (self.now, index_sid)) }
    {
        let sid = u64::from(index_sid);
        let own = between(&self.segments, sid, Some(sid + 1));
        let found = segments_at(alloc, self.views, own)?;
        let segments = IndexSegments::of(alloc, found)?;
        Ok(Index {
            views: self.views,
            index_sid,
            segments,
        })
    }
}
