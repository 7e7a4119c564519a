//! Placing the extents of sources in the file.
ghost use Rattle.std.specs.Prelude.{◌≡◌, ◌↔◌, ◌++◌, ℕ, [], IfOk, OnOk, map};
ghost use Rattle.std.specs.List.Sorted.{IsNonDecreasingBy, IsPermutation};
ghost use Rattle.mxf_klv.specs.Rising.{In};
ghost use Rattle.mxf_catalogue.specs.Covers.{IsCover, IsRun, union_of_runs};
ghost use Rattle.mxf_catalogue.specs.Runs.{LiesIn};
ghost use Rattle.mxf_hand.specs.Places.{AreSpans, LiesInExtent, overlaps_below, places_above, run_of, some_place};
ghost use Rattle.mxf_hand.specs.Places.{spans_from};
ghost use Rattle.mxf_hand.specs.declared.given.Extent.{Extent};
ghost use Rattle.mxf_hand.specs.declared.given.Place.{Place};

use super::{Extent, Given, Place};
use mxf_catalogue::Cover;
use mxf_klv::OutOfMemory;
use std::alloc::Global;

impl Given {
    /// The extents of sources, which have the numbers of their places in the list. They take memory.
    pub fn of(alloc: Global, extents: Vec<Extent>) -> Result<Given, OutOfMemory>
        ensures { IfOk result (λ g. g.extents ≡ extents.items) }
    {
        let spans = spans_of(alloc, &extents)?;
        let places = places_of(alloc, &spans)?;
        let overlaps = overlaps_of(alloc, &spans)?;
        let given = cover_of(alloc, &places)?;
        Ok(Given {
            extents,
            places,
            overlaps,
            given,
        })
    }

    /// The offsets that sources give.
    pub fn given(&self) -> &Cover
        ensures given { result.now ≡ self.now.given }
        ensures cover { IsCover self.now.given }
        ensures offsets { (x : ℕ) → LiesIn self.now.given x
            ↔ ((e : Extent) × In e self.now.extents × LiesInExtent e x) }
    {
        &self.given
    }
}

/// All offsets of each extent, by their starts.
fn spans_of(alloc: Global, extents: &[Extent]) -> Result<Vec<Place>, OutOfMemory>
    ensures { IfOk result (λ v. AreSpans extents.now v.items) }
{
    let mut spans = spans_in_turn(alloc, extents)?;
    sort_by_start(&mut spans);
    Ok(spans)
}

/// All offsets of each extent, in the order of sources.
fn spans_in_turn(alloc: Global, extents: &[Extent]) -> Result<Vec<Place>, OutOfMemory>
    ensures { IfOk result (λ v. v.items ≡ spans_from 0 extents.now) }
{
    let mut spans = Vec::new(alloc);
    for (source, extent) in extents.iter().enumerate() {
        add_place(
            &mut spans,
            extent.offset,
            extent.offset + extent.size,
            source,
        )?;
    }
    Ok(spans)
}

/// Puts places in the order of their starts.
fn sort_by_start(places: &mut Vec<Place>)
    ensures all { IsPermutation places.old.items places.new.items }
    ensures rise { IsNonDecreasingBy (λ p. p.start) places.new.items }
{
    places.sort_unstable_by_key(|place| place.start);
}

/// Of each span, by their starts, what lies above the spans before it.
fn places_of(alloc: Global, spans: &[Place]) -> Result<Vec<Place>, OutOfMemory>
    ensures { IfOk result (λ v. v.items ≡ places_above 0 spans.now) }
{
    let mut places = Vec::new(alloc);
    let mut reached = 0;
    for span in spans {
        add_place(&mut places, reached.max(span.start), span.end, span.source)?;
        reached = reached.max(span.end);
    }
    Ok(places)
}

/// Of each span, by their starts, what lies below the end of a span before it.
fn overlaps_of(alloc: Global, spans: &[Place]) -> Result<Vec<Place>, OutOfMemory>
    ensures { IfOk result (λ v. v.items ≡ overlaps_below 0 spans.now) }
{
    let mut overlaps = Vec::new(alloc);
    let mut reached = 0;
    for span in spans {
        add_place(
            &mut overlaps,
            span.start,
            reached.min(span.end),
            span.source,
        )?;
        reached = reached.max(span.end);
    }
    Ok(overlaps)
}

/// Adds the place, if it has an offset.
fn add_place(
    places: &mut Vec<Place>,
    start: u64,
    end: u64,
    source: usize,
) -> Result<(), OutOfMemory>
    ensures { OnOk result (places.new.items ≡ places.old.items ++ some_place start end source) }
{
    if start < end {
        places.push(Place { start, end, source })?;
    }
    Ok(())
}

/// The offsets of places, as maximal runs.
fn cover_of(alloc: Global, places: &[Place]) -> Result<Cover, OutOfMemory>
    requires { (p : Place) → In p places.now → IsRun (run_of p) }
    ensures { IfOk result (λ c. c ≡ union_of_runs [] (map run_of places.now)) }
{
    let mut cover = Cover::new(alloc);
    for place in places {
        cover.add(place.start, place.end)?;
    }
    Ok(cover)
}
