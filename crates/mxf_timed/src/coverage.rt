//! The timecode of a position by the runs of a clock.
ghost use Rattle.std.specs.Prelude.{◌≡◌, ◌↔◌, ◌∷◌, [], ℕ, IfOk, List, MatchOption, Some};
ghost use Rattle.mxf_tracks.specs.declared.timecode.Timecode.{Timecode};
ghost use Rattle.mxf_clocks.specs.Runs.{RunParts};
ghost use Rattle.mxf_timed.specs.Coverage.{HasNoOneRun, IsOneRunAt, IsTimecodeAt, one_timecode_at};
ghost use Rattle.mxf_timed.specs.Spans.{is_alone_at, latest_from, no_latest, span_of, spans_from, with_span};

use mxf_clocks::Run;
use mxf_klv::{Keyed, OutOfMemory, up_to};
use mxf_tracks::Timecode;
use std::alloc::Global;
use std::marker::Model;

/// As many positions as there can be, and one more: 2^64.
const POSITIONS: u128 = 18_446_744_073_709_551_616;

/// The positions from a first one up to an end, and at which place of its list the run stands that has them.
#[derive(Clone, Copy)]
struct Span {
    first: u64,
    end: u128,
    place: usize,
}

/// Spans rise by their first positions.
impl Keyed for Span {
    ghost key = { λ s. s.first };

    fn key(&self) -> u64 {
        self.first
    }
}

/// Of some spans the one that ends last, at which place its run stands, and where the last of the others ends.
#[derive(Clone, Copy)]
struct Latest {
    place: usize,
    end: u128,
    other: u128,
}

/// The runs of a clock, asked which one has a position.
#[derive(Drop)]
pub struct Coverage<'a> {
    runs: &'a [Run],
    /// Their positions, by where they begin.
    spans: Vec<Span>,
    /// Of no span, of the first, of the first two and so on the one that ends last.
    latest: Vec<Latest>,
}

impl<'a> Model for Coverage<'a> {
    ghost use Rattle.std.specs.Prelude.{List};
    ghost use Rattle.mxf_clocks.specs.Runs.{RunParts};
    ghost use Rattle.mxf_timed.specs.Spans.{AreSpans};

    ghost Value = { List RunParts };

    ghost view = { λ c. c.runs.now };

    ghost invariant = { λ c. AreSpans c.runs.now c.spans.items c.latest.items };
}

/// The positions of a run that stands at a place of its list.
fn span_of(place: usize, run: &Run) -> Span
    ensures { result ≡ span_of place run.now }
{
    let count = run.count().unwrap_or(POSITIONS).min(POSITIONS);
    Span {
        first: run.position(),
        end: u128::from(run.position()) + count,
        place,
    }
}

/// The positions of each run.
fn spans_of(alloc: Global, runs: &[Run]) -> Result<Vec<Span>, OutOfMemory>
    ensures { IfOk result (λ v. v.items ≡ spans_from 0 runs.now) }
{
    let mut spans = Vec::new(alloc);
    for (place, run) in runs.iter().enumerate() {
        spans.push(span_of(place, run))?;
    }
    Ok(spans)
}

/// The one that ends last, with one more.
fn with_span(latest: Latest, span: Span) -> Latest
    ensures { result ≡ with_span latest span }
{
    if latest.end < span.end {
        Latest {
            place: span.place,
            end: span.end,
            other: latest.end,
        }
    } else {
        Latest {
            other: latest.other.max(span.end),
            ..latest
        }
    }
}

/// Whether of spans that begin up to a position the one that ends last has it, and no other.
fn is_alone_at(latest: Latest, position: u128) -> bool
    ensures { result ≡ is_alone_at latest position }
{
    latest.other <= position && position < latest.end
}

/// The one that ends last of no span, of the first, of the first two and so on.
fn latest_of(alloc: Global, spans: &[Span]) -> Result<Vec<Latest>, OutOfMemory>
    ensures { IfOk result (λ v. v.items ≡ latest_from no_latest spans.now) }
{
    let mut all = Vec::new(alloc);
    let mut latest = Latest {
        place: 0,
        end: 0,
        other: 0,
    };
    for span in spans {
        all.push(latest)?;
        latest = with_span(latest, *span);
    }
    all.push(latest)?;
    Ok(all)
}

impl<'a> Coverage<'a> {
    /// The runs, by where they begin. It takes memory and time: n log n of the runs.
    pub fn of(alloc: Global, runs: &'a [Run]) -> Result<Coverage<'a>, OutOfMemory>
        ensures { IfOk result (λ c. c ≡ runs.now) }
    {
        let mut spans = spans_of(alloc, runs)?;
        spans.sort_unstable_by_key(|span| span.first);
        let latest = latest_of(alloc, &spans)?;
        Ok(Coverage {
            runs,
            spans,
            latest,
        })
    }

    /// The run that has a position, if it is one alone.
    fn run_at(&self, position: u64) -> Option<&'a Run>
        ensures { MatchOption result (HasNoOneRun self.now position) (λ r. IsOneRunAt self.now position r.now) }
    {
        let begun = up_to(&self.spans, position);
        let latest = self.latest.get(begun)?;
        if is_alone_at(*latest, u128::from(position)) {
            self.runs.get(latest.place)
        } else {
            None
        }
    }

    /// The timecode of a position, counted from 0 as it is shown, by the one run that has it. None if no run has it, or
    /// more than one, as runs are listed. It takes no memory, and a binary search.
    pub fn timecode_at(&self, position: u64) -> Option<Timecode>
        ensures { result ≡ one_timecode_at self.now position }
    {
        self.run_at(position)?.timecode_at(position)
    }
}

/// A law of [`Coverage::timecode_at`]: a position has a timecode exactly if one run alone has the position, and gives it
/// this one.
pub fn timecodes_of_positions_by_definition()
    ensures { (runs : List RunParts) (position : ℕ) (t : Timecode)
        → (one_timecode_at runs position ≡ Some t) ↔ IsTimecodeAt runs position t }
{}
