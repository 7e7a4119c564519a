//! What is held of a file, as a picture of cells.
ghost use Rattle.std.specs.Prelude.{◌≡◌, ◌≤◌, ℕ, IfOk, length};
ghost use Rattle.mxf_catalogue.specs.Covers.{IsCover};
ghost use Rattle.mxf_catalogue.specs.Disputes.{disputed_notes};
ghost use Rattle.mxf_places.specs.AtHand.{KnownParts};
ghost use Rattle.mxf_places.specs.Held.{bytes_of};
ghost use Rattle.mxf_map.specs.Map.{AreMarks, IsMap, IsMark, MapParts, cell_size, gaps_below, hand_below, held_below};
ghost use Rattle.mxf_map.specs.Map.{map_end};
ghost use Rattle.mxf_map.specs.declared.map.Mark.{Mark};

mod layers;
mod missing;
mod offsets;

use layers::Layers;
use mxf_catalogue::{Catalogue, Cover};
use mxf_klv::OutOfMemory;
use mxf_places::{AtHand, Holdings};
use mxf_restore::holes;
use mxf_views::Views;
use std::alloc::Global;
use std::marker::Model;

/// What stands for a cell of a map: the first of these that says something true of it.
#[derive(Clone, Copy, Debug, PartialEq, Eq)]
pub enum Mark {
    /// A byte of it lies in a disputed packet.
    Disputed,
    /// A header partition begins in it.
    Header,
    /// A footer partition does.
    Footer,
    /// A body partition does.
    Body,
    /// A clear random index pack does.
    RandomIndex,
    /// A place that a pack names and that isn't held lies in it.
    Missing,
    /// None of it is held, and a byte of it is at hand.
    Hand,
    /// None of it is held.
    Empty,
    /// Some of it is held.
    Part,
    /// All of it is held, and a byte of it is one of header metadata.
    Metadata,
    /// All of it is held, and a byte of it is one of an index table segment.
    Index,
    /// All of it is held.
    Whole,
}

/// What is held of a file, and what is at hand beside it, as a picture of cells (this project's profile).
///
/// The map goes as far as the file is known to, and beyond each place that a pack names and that is missing. It is cut
/// into cells of one size, the last of which may be shorter.
#[derive(Drop)]
pub struct Map {
    end: u64,
    held: u64,
    hand: u64,
    gaps: u64,
    disputed: u64,
    cell: u64,
    marks: Vec<Mark>,
}

impl Model for Map {
    ghost use Rattle.std.specs.Prelude.{◌≤◌};
    ghost use Rattle.mxf_map.specs.Map.{MapParts};

    ghost Value = { MapParts };

    ghost view = { λ m. record {
      end = m.end;
      held = m.held;
      hand = m.hand;
      gaps = m.gaps;
      disputed = m.disputed;
      cell = m.cell;
      marks = m.marks.items;
    } };

    ghost invariant = { λ m. 1 ≤ m.end };
}

impl Map {
    /// The map of the file of the views, some of whose bytes are at hand beside what is held, of at most a given number
    /// of cells, and at least one.
    ///
    /// The only fault is out of memory.
    pub fn of(
        alloc: Global,
        views: &Views,
        at_hand: &AtHand,
        cells: u64,
    ) -> Result<Map, OutOfMemory>
        requires { 1 ≤ cells }
        ensures { IfOk result (λ m. IsMap (record { notes = views.now; at = at_hand.now }) cells m) }
    {
        let layers = Layers::of(alloc, Holdings::of(alloc, views)?, at_hand)?;
        Map::of_layers(alloc, &layers, cells)
    }

    /// The same by what may lie in a cell.
    fn of_layers(alloc: Global, layers: &Layers<'_>, cells: u64) -> Result<Map, OutOfMemory>
        requires { 1 ≤ cells }
        ensures { IfOk result (λ m. IsMap layers.now cells m) }
    {
        let holdings = layers.holdings();
        let end = layers.end();
        let cell = cell_size(end, cells);
        let gaps = gaps_below(alloc, holdings, end)?;
        let marks = marks(alloc, layers, cell, end)?;
        Ok(Map {
            end,
            held: held_bytes(layers),
            hand: hand_bytes(layers, end),
            gaps,
            disputed: disputed(holdings.views().catalogue()),
            cell,
            marks,
        })
    }

    /// The file offset, in bytes, where the map ends.
    pub fn end(&self) -> u64
        ensures end { result ≡ self.now.end }
        ensures some { 1 ≤ result }
    {
        self.end
    }

    /// How many bytes below the end are held: lie in a whole packet, or in the key or the length of a head.
    pub fn held(&self) -> u64
        ensures { result ≡ self.now.held }
    {
        self.held
    }

    /// How many bytes below the end are at hand and not held.
    pub fn hand(&self) -> u64
        ensures { result ≡ self.now.hand }
    {
        self.hand
    }

    /// How many maximal ranges below the end aren't held.
    pub fn gaps(&self) -> u64
        ensures { result ≡ self.now.gaps }
    {
        self.gaps
    }

    /// How many packets are disputed, heads among them.
    pub fn disputed(&self) -> u64
        ensures { result ≡ self.now.disputed }
    {
        self.disputed
    }

    /// The bytes of a cell; the last cell may have fewer.
    pub fn cell(&self) -> u64
        ensures { result ≡ self.now.cell }
    {
        self.cell
    }

    /// The marks of the cells, one after another from offset 0.
    pub fn marks(&self) -> &[Mark]
        ensures { result.now ≡ self.now.marks }
    {
        &self.marks
    }
}

/// The bytes of a cell, if at most a given number of cells are to reach the end, in bytes.
fn cell_size(end: u64, cells: u64) -> u64
    requires some { 1 ≤ end }
    requires cells { 1 ≤ cells }
    ensures size { result ≡ cell_size end cells }
    ensures some { 1 ≤ result }
    ensures within { result ≤ end }
{
    (end - 1) / cells + 1
}

/// The marks of the cells of a given size up to the end, both in bytes. They take memory.
fn marks(alloc: Global, layers: &Layers<'_>, size: u64, end: u64) -> Result<Vec<Mark>, OutOfMemory>
    requires { 1 ≤ size }
    ensures { IfOk result (λ v. AreMarks layers.now size end 0 v.items) }
{
    let mut marks = Vec::new(alloc);
    let mut from = 0;
    while from < end {
        let to = from + size.min(end - from);
        marks.push(layers.mark(from, to))?;
        from = to;
    }
    Ok(marks)
}

/// How many bytes are held: all of them lie below the end of the map.
fn held_bytes(layers: &Layers<'_>) -> u64
    ensures { result ≡ held_below layers.now.notes (map_end layers.now) }
{
    bytes_of(layers.holdings().views().catalogue().spans())
}

/// How many bytes below the end, in bytes, are at hand and not held.
fn hand_bytes(layers: &Layers<'_>, end: u64) -> u64
    ensures { result ≡ hand_below layers.now end }
{
    let held = layers.holdings().views().catalogue().spans();
    layers.at_hand().count_outside(held, end)
}

/// How many offsets lie in the set.
fn bytes_of(set: &Cover) -> u64
    ensures bytes { result ≡ bytes_of set.now }
    ensures cover { IsCover set.now }
{
    let mut bytes = 0;
    for run in set.runs() {
        bytes += run.end - run.start;
    }
    bytes
}

/// How many packets are disputed, heads among them.
fn disputed(catalogue: &Catalogue) -> u64
    ensures { result ≡ length (disputed_notes catalogue.now) }
{
    catalogue.disputed().count() as u64
}

/// How many holes begin below the end, in bytes. It takes memory.
fn gaps_below(alloc: Global, holdings: &Holdings<'_>, end: u64) -> Result<u64, OutOfMemory>
    ensures { IfOk result (λ n. n ≡ gaps_below holdings.now end) }
{
    let holes = holes(alloc, holdings)?;
    Ok(holes.iter().filter(|hole| hole.start < end).count() as u64)
}

/// A law of [`Map::marks`]: for each cell exactly one mark fits.
pub fn one_mark()
    ensures some { (known : KnownParts) (from to : ℕ) → (m : Mark) × IsMark known from to m }
    ensures one { (known : KnownParts) (from to : ℕ) (a b : Mark)
        → IsMark known from to a → IsMark known from to b → a ≡ b }
{}

/// A law of [`Map::of`]: of a content two maps of as many cells are one.
pub fn one_map()
    ensures { (known : KnownParts) (cells : ℕ) (m n : MapParts)
        → IsMap known cells m → IsMap known cells n → m ≡ n }
{}
