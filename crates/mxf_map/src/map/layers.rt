//! What lies in a cell of a map.
ghost use Rattle.std.specs.Prelude.{◌≡◌, ◌↔◌, ◌≤◌, IfOk, IsTrue};
ghost use Rattle.mxf_map.specs.Map.{IsMark, Says, map_end};
ghost use Rattle.mxf_map.specs.Layers.{marks_in_order};

use super::Mark;
use super::missing::missing;
use super::offsets::{partitions, random_index, zone};
use mxf_catalogue::Cover;
use mxf_klv::OutOfMemory;
use mxf_places::{AtHand, Holdings, Zone};
use mxf_sets::PackPart;
use std::alloc::Global;
use std::marker::Model;

/// The marks but the last, the first to be tested first.
const MARKS: [Mark; 11] = [
    Mark::Disputed,
    Mark::Header,
    Mark::Footer,
    Mark::Body,
    Mark::RandomIndex,
    Mark::Missing,
    Mark::Hand,
    Mark::Empty,
    Mark::Part,
    Mark::Metadata,
    Mark::Index,
];

/// What may lie in a cell of a map of what is held, each as a set of offsets.
pub(super) struct Layers<'a> {
    holdings: Holdings<'a>,
    at_hand: &'a AtHand,
    headers: Cover,
    footers: Cover,
    bodies: Cover,
    random_index: Cover,
    missing: Cover,
    metadata: Cover,
    index: Cover,
}

// Written out, a drop is one call wherever layers are let go.
impl Drop for Layers<'_> {
    fn drop(self) {
        let Layers {
            holdings: _holdings,
            at_hand: _,
            headers: _headers,
            footers: _footers,
            bodies: _bodies,
            random_index: _random_index,
            missing: _missing,
            metadata: _metadata,
            index: _index,
        } = self;
    }
}

impl<'a> Model for Layers<'a> {
    ghost use Rattle.mxf_places.specs.AtHand.{KnownParts};
    ghost use Rattle.mxf_map.specs.Layers.{AreLayers};

    ghost Value = { KnownParts };

    ghost view = { λ l. record { notes = l.holdings; at = l.at_hand.now } };

    ghost invariant = { λ l. AreLayers l.holdings l.headers l.footers l.bodies l.random_index l.missing l.metadata
        l.index };
}

impl<'a> Layers<'a> {
    /// What may lie in a cell of a map of what is held and at hand. It takes memory.
    pub fn of(
        alloc: Global,
        holdings: Holdings<'a>,
        at_hand: &'a AtHand,
    ) -> Result<Layers<'a>, OutOfMemory>
        ensures { IfOk result (λ l. l ≡ record { notes = holdings.entry; at = at_hand.now }) }
    {
        let views = holdings.views();
        let headers = partitions(alloc, views, PackPart::Header)?;
        let footers = partitions(alloc, views, PackPart::Footer)?;
        let bodies = partitions(alloc, views, PackPart::Body)?;
        let random_index = random_index(alloc, views.catalogue())?;
        let missing = missing(alloc, &holdings)?;
        let metadata = zone(alloc, views.catalogue(), Zone::Metadata)?;
        let index = zone(alloc, views.catalogue(), Zone::Index)?;
        Ok(Layers {
            holdings,
            at_hand,
            headers,
            footers,
            bodies,
            random_index,
            missing,
            metadata,
            index,
        })
    }

    /// What is held.
    pub fn holdings(&self) -> &Holdings<'a>
        ensures { result.now ≡ self.now.notes }
    {
        &self.holdings
    }

    /// What is at hand.
    pub fn at_hand(&self) -> &'a AtHand
        ensures { result.now ≡ self.now.at }
    {
        self.at_hand
    }

    /// How far the map goes, in bytes: as far as the file is known to, and beyond each missing place.
    pub fn end(&self) -> u64
        ensures end { result ≡ map_end self.now }
        ensures some { 1 ≤ result }
    {
        self.holdings
            .edge(self.at_hand)
            .max(self.missing.end())
            .max(1)
    }

    /// The mark of the cell from `from` up to `to`, in bytes, the end excluded: a few binary searches.
    pub fn mark(&self, from: u64, to: u64) -> Mark
        ensures { IsMark self.now from to result }
    {
        self.first_of(&MARKS, from, to)
    }

    /// The first of the marks that says something true of the cell.
    fn first_of(&self, marks: &[Mark], from: u64, to: u64) -> Mark
        requires { marks.now ≡ marks_in_order }
        ensures { IsMark self.now from to result }
    {
        for mark in marks {
            if self.says(*mark, from, to) {
                return *mark;
            }
        }
        Mark::Whole
    }

    /// Whether what the mark says is true of the cell.
    fn says(&self, mark: Mark, from: u64, to: u64) -> bool
        ensures { IsTrue result ↔ Says self.now from to mark }
    {
        match mark {
            Mark::Disputed => self.holdings.is_any_disputed(from, to),
            Mark::Header => self.headers.meets(from, to),
            Mark::Footer => self.footers.meets(from, to),
            Mark::Body => self.bodies.meets(from, to),
            Mark::RandomIndex => self.random_index.meets(from, to),
            Mark::Missing => self.missing.meets(from, to),
            Mark::Hand => {
                !self.holdings.is_any_held(from, to) && self.at_hand.hand().meets(from, to)
            }
            Mark::Empty => !self.holdings.is_any_held(from, to),
            Mark::Part => !self.holdings.are_all_held(from, to),
            Mark::Metadata => self.metadata.meets(from, to),
            Mark::Index => self.index.meets(from, to),
            Mark::Whole => true,
        }
    }
}
