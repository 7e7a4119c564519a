//! Where packets of some kinds lie: the sets of the header metadata, and what doesn't belong to index tables.
ghost use Rattle.std.specs.Prelude.{◌≡◌, List, Some, IfOk, filter, map};
ghost use Rattle.std.specs.List.{list_any};
ghost use Rattle.mxf_klv.specs.Parts.{NoteParts};
ghost use Rattle.mxf_catalogue.specs.Disputes.{clear_notes};
ghost use Rattle.mxf_doubts.specs.IndexFit.{is_foreign};
ghost use Rattle.mxf_doubts.specs.Header.{is_within, is_without_one_preface, lacks_preface, set_spans, span_of};

use crate::strange::Keys;
use mxf_catalogue::Catalogue;
use mxf_klv::{Keyed, Kind, Note, OutOfMemory, below};
use mxf_views::{CopyInfo, Views, is_set};
use std::alloc::Global;
use std::marker::Model;

/// Where a packet begins and ends.
#[derive(Clone, Copy)]
struct Span {
    start: u64,
    end: u64,
}

impl Keyed for Span {
    ghost key = { λ s. s.start };

    fn key(&self) -> u64 {
        self.start
    }
}

/// Where the packet of a note begins and ends.
fn span_of(note: &Note) -> Span
    ensures { result ≡ span_of note.now }
{
    Span {
        start: note.offset(),
        end: note.end(),
    }
}

/// Where the clear sets of a catalogue lie, in their order.
fn set_spans(alloc: Global, catalogue: &Catalogue) -> Result<Vec<Span>, OutOfMemory>
    ensures { IfOk result (λ v. v.items ≡ set_spans catalogue.now) }
{
    let sets = catalogue.clear().filter(|note| is_set(note));
    Ok(sets.map(|note| span_of(note)).collect(alloc)?)
}

/// Whether index tables don't have the packet of a clear note, by the keys of all notes.
#[tactic(auto, unfolding(crate::specs::IndexFit::is_foreign))]
fn is_foreign(keys: &Keys<'_>, note: &Note) -> bool
    ensures { result ≡ is_foreign keys.now note.now }
{
    !matches!(note.kind(), Kind::Segment | Kind::Fill) && !keys.is_dark(note)
}

/// Where the clear packets of a catalogue lie that index tables don't have, in their order.
fn foreign_spans(
    alloc: Global,
    catalogue: &Catalogue,
    keys: &Keys<'_>,
) -> Result<Vec<Span>, OutOfMemory>
    requires { keys.now ≡ catalogue.now }
    ensures { IfOk result (λ v. v.items ≡ map span_of (filter (is_foreign catalogue.now) (clear_notes catalogue.now))) }
{
    let foreign = catalogue.clear().filter(|note| is_foreign(keys, note));
    Ok(foreign.map(|note| span_of(note)).collect(alloc)?)
}

/// Where packets that share no byte lie, in their order.
#[derive(Drop)]
pub(crate) struct Spans {
    spans: Vec<Span>,
}

impl Model for Spans {
    ghost use Rattle.std.specs.Prelude.{List};
    ghost use Rattle.std.specs.List.Sorted.{IsNonDecreasingBy};
    ghost use Rattle.mxf_doubts.specs.declared.spans.Span.{Span};

    ghost Value = { List Span };

    ghost view = { λ s. s.spans.items };

    ghost invariant = { λ s. IsNonDecreasingBy (λ (x : Span). x.start) s.spans.items
        × IsNonDecreasingBy (λ (x : Span). x.end) s.spans.items };
}

impl Spans {
    /// Where the clear sets lie that views know. They take memory.
    pub fn of_sets(alloc: Global, views: &Views) -> Result<Spans, OutOfMemory>
        ensures { IfOk result (λ s. s ≡ set_spans views.now) }
    {
        views.catalogue().laws();
        let spans = set_spans(alloc, views.catalogue())?;
        Ok(Spans { spans })
    }

    /// Where the clear packets lie that index tables don't have, by the keys of all notes. They take memory.
    pub fn of_foreign(
        alloc: Global,
        catalogue: &Catalogue,
        keys: &Keys<'_>,
    ) -> Result<Spans, OutOfMemory>
        requires { keys.now ≡ catalogue.now }
        ensures { IfOk result (λ s. s ≡ map span_of (filter (is_foreign catalogue.now) (clear_notes catalogue.now))) }
    {
        catalogue.laws();
        let spans = foreign_spans(alloc, catalogue, keys)?;
        Ok(Spans { spans })
    }

    /// Whether one of the packets lies wholly in the zone of a copy.
    fn has_one_in(&self, copy: &CopyInfo) -> bool
        ensures { result ≡ list_any (is_within copy.now.bytes copy.now.start) self.now }
    {
        match copy.start {
            Some(start) => self.has_one_from(start, copy.bytes),
            None => false,
        }
    }

    /// Whether one of the packets lies wholly in so many bytes from an offset on: a binary search.
    pub fn has_one_from(&self, start: u64, bytes: u64) -> bool
        ensures { result ≡ list_any (is_within bytes (Some start)) self.now }
    {
        match self.spans.get(below(&self.spans, start)) {
            Some(packet) => u128::from(packet.end) <= u128::from(start) + u128::from(bytes),
            None => false,
        }
    }
}

/// Whether the copy is finished and has not exactly one Preface.
fn is_without_one_preface(copy: &CopyInfo) -> bool
    ensures { result ≡ is_without_one_preface copy.now }
{
    copy.finished && copy.prefaces != 1
}

/// Whether a finished copy has one of the sets, and not exactly one Preface.
pub(crate) fn lacks_preface(sets: &Spans, copy: &CopyInfo) -> bool
    ensures { (notes : List NoteParts) → sets.now ≡ set_spans notes → result ≡ lacks_preface notes copy.now }
{
    is_without_one_preface(copy) && sets.has_one_in(copy)
}
