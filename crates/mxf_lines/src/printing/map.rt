//! What is held of a file, as a picture, and its lines.
ghost use Rattle.std.specs.Prelude.{◌≡◌, ◌+◌, ◌-◌, ◌*◌, ◌/◌, ◌^◌, ◌<◌, ◌≤◌, ◌∷◌, ℕ, List, Some, decimal, flat_map};
ghost use Rattle.std.specs.Prelude.{length, IfNone, IfOk, IfSome, ◌⊎◌};
ghost use Rattle.mxf_klv.specs.Written.{Writes};
ghost use Rattle.mxf_map.specs.Map.{IsMap, MapParts};
ghost use Rattle.mxf_map.specs.declared.extent.MapExtent.{MapExtent};
ghost use Rattle.mxf_lines.specs.MapLines.{AreToldExtents, extent_line, map_line, map_lines, mark_text, row_line};
ghost use Rattle.mxf_lines.specs.MapLines.{row_width, rows_of, share_text};
ghost use Rattle.mxf_lines.specs.Printing.{Prints};

use super::AnswerFault;
use super::lines::{Each, Line, Lines, Printer, Series, Then};
use mxf_asked::Grid;
use mxf_forms::{FieldWriter, Form};
use mxf_klv::OutOfMemory;
use mxf_map::{Map, MapExtent, Mark, extents};
use mxf_places::AtHand;
use mxf_views::Views;
use std::alloc::{AllocError, Global};
use std::fmt;
use std::io::Write;

/// The character of a mark.
fn mark_text(mark: Mark) -> &'static str
    ensures { result.now ≡ mark_text mark }
{
    match mark {
        Mark::Disputed => "!",
        Mark::Header => "H",
        Mark::Footer => "F",
        Mark::Body => "B",
        Mark::RandomIndex => "R",
        Mark::Missing => "o",
        Mark::Hand => "~",
        Mark::Empty => ".",
        Mark::Part => "+",
        Mark::Metadata => "m",
        Mark::Index => "i",
        Mark::Whole => "#",
    }
}

/// Thousandths, as a hundredth part with a digit after the point.
#[derive(Clone, Copy)]
struct ShareText(u128);

impl fmt::Display for ShareText {
    ghost output = { λ s. Some (share_text s.0) };

    fn fmt<W: fmt::Write>(&self, f: &mut fmt::Formatter<W>) -> fmt::Result {
        write!(f, "{}.{}", self.0 / 10, self.0 % 10)
    }
}

/// A map in rows of this number of cells, and ranges of its bytes.
#[derive(Drop)]
struct Picture<'a> {
    map: &'a Map,
    columns: u32,
    extents: &'a [MapExtent],

    ghost some: { 1 ≤ columns },
}

impl<'a> Lines for Picture<'a> {
    ghost lines = { λ p. map_lines p.columns p.map.now p.extents.now };

    fn print_to<W: Write>(self, printer: &mut Printer, writer: &mut W) -> Result<(), AnswerFault> {
        let Picture {
            map,
            columns,
            extents,
        } = self;
        let columns = columns as usize;
        let rows = Rows {
            left: map.marks(),
            passed: 0,
            columns,
            cell: map.cell(),
            width: row_width(columns, map.cell(), map.marks().len()),
        };
        Then(MapLine(map), Then(Each(rows), Each(extents))).print_to(printer, writer)
    }
}

/// Prints what is held of the file of the views, and what is at hand beside that, as a picture, in a form; and if they
/// are asked for, the ranges of bytes that stand alike.
///
/// Out of memory, some whole lines have been written; after a write fault the first bytes, which it counts.
pub fn print_map<W: Write>(
    alloc: Global,
    views: &Views,
    at_hand: &AtHand,
    grid: Grid,
    with_extents: bool,
    form: Form,
    writer: &mut W,
) -> Result<(), AnswerFault>
    ensures lines { (m : MapParts) (extents : List MapExtent)
        → IsMap (record { notes = views.now; at = at_hand.now }) (grid.columns * grid.rows) m
        → AreToldExtents (record { notes = views.now; at = at_hand.now }) m.end with_extents extents
        → Prints form (Writes (W.contents writer.old) (W.contents writer.new)) result
        (map_lines grid.columns m extents) }
    ensures some { IfOk result (λ _. (m : MapParts) × (extents : List MapExtent)
        × IsMap (record { notes = views.now; at = at_hand.now }) (grid.columns * grid.rows) m
        × AreToldExtents (record { notes = views.now; at = at_hand.now }) m.end with_extents extents) }
{
    let columns = grid.columns();
    let cells = u64::from(columns) * u64::from(grid.rows());
    let map = Map::of(alloc, views, at_hand, cells)?;
    let extents = told_extents(alloc, views, at_hand, map.end(), with_extents)?;
    print_picture(alloc, &map, &extents, columns, form, writer)
}

/// The ranges of bytes below the end of a map, in bytes, that stand alike, if they are asked for.
fn told_extents(
    alloc: Global,
    views: &Views,
    at_hand: &AtHand,
    end: u64,
    with_extents: bool,
) -> Result<Vec<MapExtent>, OutOfMemory>
    ensures { IfOk result (λ v.
        AreToldExtents (record { notes = views.now; at = at_hand.now }) end with_extents v.items) }
{
    if with_extents {
        extents(alloc, views, at_hand, end)
    } else {
        Ok(Vec::new(alloc))
    }
}

/// Prints a map in rows of this number of cells, and ranges of its bytes.
fn print_picture<W: Write>(
    alloc: Global,
    map: &Map,
    extents: &[MapExtent],
    columns: u32,
    form: Form,
    writer: &mut W,
) -> Result<(), AnswerFault>
    requires { 1 ≤ columns }
    ensures { Prints form (Writes (W.contents writer.old) (W.contents writer.new)) result
        (map_lines columns map.now extents.now) }
{
    let mut printer = Printer::new(alloc, form);
    let picture = Picture {
        map,
        columns,
        extents,
    };
    picture.print_to(&mut printer, writer)
}

/// A range of bytes that stand alike: where it begins and ends, in bytes, how they stand, and how many they are.
impl Line for MapExtent {
    ghost line = { extent_line };

    #[tactic(auto, unfolding(crate::specs::MapLines::extent_line))]
    fn write_fields(&self, fields: &mut FieldWriter) -> Result<(), AllocError> {
        fields.begin("extent", "extent")?;
        fields.number(" ", "start", self.start)?;
        fields.number(" ", "end", self.end)?;
        fields.word(" ", "standing", self.standing)?;
        fields.number_member("length", self.end.saturating_sub(self.start))?;
        fields.end("")
    }
}

/// Where the map ends, how many bytes are held, how many others are at hand, how many are neither, how much is either,
/// how many ranges aren't held, how many packets are disputed, and the bytes of a cell.
#[derive(Clone, Copy)]
struct MapLine<'a>(&'a Map);

impl<'a> Line for MapLine<'a> {
    ghost line = { λ l. map_line l.0.now };

    #[tactic(auto, unfolding(crate::specs::MapLines::map_line))]
    fn write_fields(&self, fields: &mut FieldWriter) -> Result<(), AllocError> {
        let map = self.0;
        let (end, held, hand) = (map.end(), map.held(), map.hand());
        let missing = end.saturating_sub(held).saturating_sub(hand);
        fields.begin("map", "map")?;
        fields.number(" ", "end", end)?;
        fields.number(" held ", "held", held)?;
        fields.number(" hand ", "hand", hand)?;
        fields.number(" missing ", "missing", missing)?;
        fields.fraction(" share ", "share", ShareText(share_of(held, hand, end)))?;
        fields.number(" gaps ", "gaps", map.gaps())?;
        fields.number(" disputed ", "disputed", map.disputed())?;
        fields.number(" cell ", "cell", map.cell())?;
        fields.end("")
    }
}

/// How much of the bytes up to an end is held or at hand, in thousandths, rounded down.
fn share_of(held: u64, hand: u64, end: u64) -> u128
    requires { 1 ≤ end }
    ensures { result ≡ 1000 * (held + hand) / end }
{
    1000 * (u128::from(held) + u128::from(hand)) / u128::from(end)
}

/// A row of cells: the offset of its first byte, after as many spaces, and the characters of the marks.
#[derive(Clone, Copy)]
struct RowLine<'a> {
    spaces: usize,
    offset: u128,
    marks: &'a [Mark],
}

impl<'a> Line for RowLine<'a> {
    ghost line = { λ l. row_line l.spaces l.offset l.marks.now };

    #[tactic(auto, unfolding(crate::specs::MapLines::row_line))]
    fn write_fields(&self, fields: &mut FieldWriter) -> Result<(), AllocError> {
        fields.begin("row", "row")?;
        fields.number_behind(self.spaces, "offset", self.offset)?;
        fields.word(" ", "cells", MarksText(self.marks))?;
        fields.end("")
    }
}

/// The characters of marks.
#[derive(Clone, Copy)]
struct MarksText<'a>(&'a [Mark]);

impl<'a> fmt::Display for MarksText<'a> {
    ghost output = { λ m. Some (flat_map mark_text m.0.now) };

    fn fmt<W: fmt::Write>(&self, f: &mut fmt::Formatter<W>) -> fmt::Result {
        'marks: for mark in self.0 {
            f.write_str(mark_text(*mark))?;
        }
        Ok(())
    }
}

/// The rows that are left of a map in rows of this number of cells, after those that were passed. Offsets have at
/// least this width.
#[derive(Drop)]
struct Rows<'a> {
    left: &'a [Mark],
    passed: usize,
    columns: usize,
    cell: u64,
    width: usize,

    ghost in_range: { passed + length left.now < 2 ^ 64 },
    ghost some: { 0 < columns },
}

impl<'a> Series for Rows<'a> {
    type Item = RowLine<'a>;

    ghost lines_left = { λ s. rows_of s.columns s.cell s.width s.passed s.left.now };

    ghost left = { λ s. length s.left.now };

    fn next_item(&mut self) -> Option<RowLine<'a>> {
        if self.left.is_empty() {
            return None;
        }
        let offset = offset_of(self.passed, self.cell);
        let count = self.columns.min(self.left.len());
        let (marks, left) = self.left.split_at(count);
        self.left = left;
        self.passed += count;
        Some(RowLine {
            spaces: self.width.saturating_sub(digits_of(offset)),
            offset,
            marks,
        })
    }
}

/// The offset after this number of cells, in bytes.
fn offset_of(passed: usize, cell: u64) -> u128
    ensures { result ≡ passed * cell }
{
    passed as u128 * u128::from(cell)
}

/// How many digits the number has.
fn digits_of(number: u128) -> usize
    ensures { result ≡ length (decimal number) }
{
    let mut digits = 1;
    let mut left = number;
    while left >= 10 {
        left /= 10;
        digits += 1;
    }
    digits
}

/// The digits of the offset of the last row.
fn row_width(columns: usize, cell: u64, count: usize) -> usize
    requires { 0 < columns }
    ensures { result ≡ row_width columns cell count }
{
    let last = count.saturating_sub(1);
    digits_of(offset_of(last - last % columns, cell))
}
