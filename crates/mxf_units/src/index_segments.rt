//! The segments of an index, among which those are found that may have a unit (ST 377-1, Index Table Segment).
ghost use Rattle.std.specs.Prelude.{◌≡◌, IfOk};
ghost use Rattle.mxf_views.specs.declared.index.place.StreamPlace.{StreamPlace};
ghost use Rattle.mxf_units.specs.Repeated.{SayAll};
ghost use Rattle.mxf_units.specs.Streams.{entry_of, is_given, place_of};

use crate::intervals::Intervals;
use crate::repeated::without_repeated;
use crate::segments::place_of;
use crate::standing::UnitStanding;
use mxf_klv::OutOfMemory;
use mxf_views::{SegmentAt, StreamPlace};
use std::alloc::Global;
use std::marker::Model;

/// The segments of an index, by which the places of its units are looked up. Of segments that say the same, one is kept.
#[derive(Drop)]
pub struct IndexSegments<'a> {
    segments: Intervals<SegmentAt<'a>>,
}

impl<'a> Model for IndexSegments<'a> {
    ghost use Rattle.std.specs.Prelude.{List};
    ghost use Rattle.mxf_views.specs.Places.{SegmentAtParts};

    ghost Value = { List SegmentAtParts };

    ghost view = { λ s. s.segments };
}

impl<'a> IndexSegments<'a> {
    /// Those of the segments that say all that any of them says. They take memory, and n log n of the segments.
    pub fn of(alloc: Global, segments: Vec<SegmentAt<'a>>) -> Result<IndexSegments<'a>, OutOfMemory>
        ensures { IfOk result (λ s. SayAll segments.entry.items s) }
    {
        let left = without_repeated(alloc, segments)?;
        let segments = Intervals::of(alloc, left)?;
        Ok(IndexSegments { segments })
    }

    /// All of them.
    pub fn all(&self) -> &[SegmentAt<'a>]
        ensures { result.now ≡ self.now }
    {
        self.segments.all()
    }

    /// Those that may have a unit: two binary searches. The segments that give the unit a place and an entry are among them.
    pub fn near(&self, unit: u64) -> &[SegmentAt<'a>]
        ensures place { place_of result.now unit ≡ place_of self.now unit }
        ensures entry { entry_of result.now unit ≡ entry_of self.now unit }
        ensures given { (p : StreamPlace) → is_given p unit result.now ≡ is_given p unit self.now }
    {
        let (near, _) = self.segments.around(u128::from(unit));
        near
    }

    /// The place of a unit in its stream, if the segments that give one agree, or how it stands without. It takes no memory.
    pub fn place(&self, unit: u64) -> Result<StreamPlace, UnitStanding>
        ensures { result ≡ place_of self.now unit }
    {
        place_of(self.near(unit), unit)
    }
}
