//! The indexes of streams that segments state (ST 377-1, IndexSID and BodySID).
ghost use Rattle.std.specs.Prelude.{◌≡◌, ◌==◌, IfOk, map};
ghost use Rattle.mxf_views.specs.Places.{segments_of};
ghost use Rattle.mxf_doubts.specs.UnitStarts.{first_of, sized_segments, stream_index, stream_index_in, stream_indexes};

use mxf_klv::{Keyed, OutOfMemory, below, sort_once};
use mxf_sets::SegmentNumbers;
use mxf_views::Views;
use std::alloc::Global;
use std::marker::Model;

/// An index of a stream, and the bytes of each unit, or 0.
#[derive(Clone, Copy, PartialEq, Eq, PartialOrd, Ord)]
pub(super) struct StreamIndex {
    pub body_sid: u32,
    pub index_sid: u32,
    pub unit_bytes: u32,
}

impl Keyed for StreamIndex {
    ghost key = { λ s. s.body_sid };

    fn key(&self) -> u64 {
        u64::from(self.body_sid)
    }
}

/// What a segment states.
fn stream_index(numbers: &SegmentNumbers) -> StreamIndex
    ensures { result ≡ stream_index numbers.now }
{
    StreamIndex {
        body_sid: numbers.body_sid,
        index_sid: numbers.index_sid,
        unit_bytes: numbers.unit_bytes,
    }
}

/// What all segments state, in the order of these.
fn stated(alloc: Global, views: &Views) -> Result<Vec<StreamIndex>, OutOfMemory>
    ensures { IfOk result (λ v. v.items ≡ map stream_index_in (segments_of views.now)) }
{
    let segments = views.segments_in_numbers().iter();
    let streams = segments.map(|segment| stream_index(&segment.numbers));
    Ok(streams.collect(alloc)?)
}

/// The same of segments with units of one size.
fn stated_sized(alloc: Global, views: &Views) -> Result<Vec<StreamIndex>, OutOfMemory>
    ensures { IfOk result (λ v. v.items ≡ map stream_index_in (sized_segments views.now)) }
{
    let mut streams = stated(alloc, views)?;
    streams.retain(|stream| stream.unit_bytes > 0);
    Ok(streams)
}

/// The indexes of streams, by BodySID, then by IndexSID, then by the bytes of a unit, each once.
#[derive(Drop)]
pub(super) struct StreamIndexes {
    streams: Vec<StreamIndex>,
}

impl Model for StreamIndexes {
    ghost use Rattle.std.specs.Prelude.{List};
    ghost use Rattle.mxf_klv.specs.Rising.{IsRising};
    ghost use Rattle.mxf_doubts.specs.declared.starts.stream_index.StreamIndex.{StreamIndex};
    ghost use Rattle.mxf_doubts.specs.UnitStarts.{stream_index_cmp};

    ghost Value = { List StreamIndex };

    ghost view = { λ s. s.streams.items };

    ghost invariant = { λ s. IsRising stream_index_cmp s.streams.items };
}

impl StreamIndexes {
    /// Those of all segments. They take memory.
    pub fn of(alloc: Global, views: &Views) -> Result<StreamIndexes, OutOfMemory>
        ensures { IfOk result (λ s. s ≡ stream_indexes (segments_of views.now)) }
    {
        let mut streams = stated(alloc, views)?;
        sort_once(&mut streams);
        Ok(StreamIndexes { streams })
    }

    /// Those of segments with units of one size. They take memory.
    pub fn of_sized(alloc: Global, views: &Views) -> Result<StreamIndexes, OutOfMemory>
        ensures { IfOk result (λ s. s ≡ stream_indexes (sized_segments views.now)) }
    {
        let mut streams = stated_sized(alloc, views)?;
        sort_once(&mut streams);
        Ok(StreamIndexes { streams })
    }

    /// The first of a stream: a binary search.
    pub fn first_of(&self, body_sid: u32) -> Option<StreamIndex>
        ensures { result ≡ first_of body_sid self.now }
    {
        let key = u64::from(body_sid);
        let stream = self.streams.get(below(&self.streams, key))?;
        if stream.key() == key {
            Some(*stream)
        } else {
            None
        }
    }
}
