//! The lines of index table segments, of places, and of the random index pack.
ghost use Rattle.std.specs.Prelude.{◌≡◌, IfOk, [], ◌∷◌, length, flat_map};
ghost use Rattle.mxf_lines.specs.IndexLines.{place_line, rip_entry_line, rip_entry_lines, rip_fields, rip_line};
ghost use Rattle.mxf_lines.specs.IndexLines.{rip_lines, segment_line, stream_fields};
ghost use Rattle.mxf_forms.specs.Writing.{with_fields};

use super::{AllocError, AnswerFault, Each, Line, Lines, Printer, Series, Then, Write};
use mxf_forms::FieldWriter;
use mxf_sets::{RipEntry, SegmentNumbers};
use mxf_views::{Place, RipView, SegmentAt, Segments, Standing, Standings};

/// Writes which index and which essence stream a segment is of, and its edit rate.
fn write_stream(fields: &mut FieldWriter, n: SegmentNumbers) -> Result<(), AllocError>
    ensures { IfOk result (λ _. fields.new ≡ with_fields (stream_fields n) fields.old) }
{
    let (numerator, denominator) = n.edit_rate;
    fields.number(" index-sid ", "index-sid", n.index_sid)?;
    fields.number(" body-sid ", "body-sid", n.body_sid)?;
    fields.number(" rate ", "rate", numerator)?;
    fields.number("/", "base", denominator)
}

/// An index table segment: its offset in bytes, its numbers, and how many entries it has.
impl<'a> Line for SegmentAt<'a> {
    ghost line = { segment_line };

    #[tactic(auto, unfolding(crate::specs::IndexLines::segment_line))]
    fn write_fields(&self, fields: &mut FieldWriter) -> Result<(), AllocError> {
        let n = self.segment.numbers();
        fields.begin("segment", "segment")?;
        fields.number(" ", "offset", self.offset)?;
        write_stream(fields, n)?;
        fields.number(" start ", "start", n.start)?;
        fields.number(" duration ", "duration", n.duration)?;
        fields.number(" unit-bytes ", "unit-bytes", n.unit_bytes)?;
        fields.number(" entries ", "entries", self.segment.entry_count())?;
        fields.end("")
    }
}

impl<'a> Series for Segments<'a> {
    type Item = SegmentAt<'a>;

    ghost lines_left = { λ s. flat_map (λ s. segment_line s ∷ []) s };

    ghost left = { λ s. length s };

    fn next_item(&mut self) -> Option<SegmentAt<'a>> {
        self.next()
    }
}

/// The places of an edit unit: none, the one, or the two least. An offset is in bytes of the essence stream.
impl Line for Place {
    ghost line = { place_line };

    #[tactic(auto, unfolding(crate::specs::IndexLines::place_line))]
    fn write_fields(&self, fields: &mut FieldWriter) -> Result<(), AllocError> {
        match *self {
            Place::NotIndexed => {
                fields.begin("place", "not indexed")?;
                fields.fixed("", "place", "not-indexed")?;
                fields.end("")
            }
            Place::At { body_sid, offset } => {
                fields.begin("place", "")?;
                fields.word("", "place", "at")?;
                fields.number(" ", "body-sid", body_sid)?;
                fields.number(" ", "offset", offset)?;
                fields.end("")
            }
            Place::Ambiguous { first, second } => {
                fields.begin("place", "")?;
                fields.word("", "place", "ambiguous")?;
                fields.number(" ", "body-sid", first.body_sid)?;
                fields.number(" ", "offset", first.offset)?;
                fields.number(" ", "second-body-sid", second.body_sid)?;
                fields.number(" ", "second-offset", second.offset)?;
                fields.end("")
            }
        }
    }
}

/// What is known of the random index pack, with its offset in bytes.
#[derive(Clone, Copy)]
struct RipLine<'a>(&'a RipView<'a>);

impl<'a> Line for RipLine<'a> {
    ghost line = { λ l. rip_line l.0.now };

    #[tactic(auto, unfolding(crate::specs::IndexLines::rip_line))]
    fn write_fields(&self, fields: &mut FieldWriter) -> Result<(), AllocError> {
        fields.begin("rip", "rip")?;
        write_rip(fields, self.0)?;
        fields.end("")
    }
}

/// Writes what is known of the random index pack.
fn write_rip(fields: &mut FieldWriter, rip: &RipView<'_>) -> Result<(), AllocError>
    ensures { IfOk result (λ _. fields.new ≡ with_fields (rip_fields rip.now) fields.old) }
{
    match rip {
        RipView::Absent => fields.word(" ", "standing", "none"),
        RipView::Several => fields.word(" ", "standing", "several"),
        RipView::Unreadable(offset) => {
            fields.word(" ", "standing", "unreadable")?;
            fields.number(" ", "offset", *offset)
        }
        RipView::One(rip) => {
            fields.fixed("", "standing", "one")?;
            fields.number(" ", "offset", rip.offset())
        }
    }
}

/// The line of the random index pack, and a line for each of its entries.
impl<'a> Lines for RipView<'a> {
    ghost lines = { λ r. rip_lines r };

    fn print_to<W: Write>(self, printer: &mut Printer, writer: &mut W) -> Result<(), AnswerFault> {
        match &self {
            RipView::One(rip) => {
                let entries = RipEntryLines {
                    rip: rip.offset(),
                    left: rip.entries(),
                };
                Then(RipLine(&self), Each(entries)).print_to(printer, writer)
            }
            _ => RipLine(&self).print_to(printer, writer),
        }
    }
}

/// An entry of the random index pack at an offset, with its own offset in bytes, and how it stands to the partitions.
#[derive(Clone, Copy)]
struct RipEntryLine {
    rip: u64,
    entry: RipEntry,
    standing: Standing,
}

impl Line for RipEntryLine {
    ghost line = { λ l. rip_entry_line l.rip l.entry l.standing };

    #[tactic(auto, unfolding(crate::specs::IndexLines::rip_entry_line))]
    fn write_fields(&self, fields: &mut FieldWriter) -> Result<(), AllocError> {
        fields.begin("rip-entry", "rip-entry")?;
        fields.number(" ", "body-sid", self.entry.body_sid)?;
        fields.number(" ", "offset", self.entry.offset)?;
        fields.word(" ", "standing", self.standing)?;
        fields.number_member("rip", self.rip)?;
        fields.end("")
    }
}

/// The lines of the entries that are left, of the random index pack at an offset.
#[derive(Drop)]
struct RipEntryLines<'a> {
    rip: u64,
    left: Standings<'a>,
}

impl<'a> Series for RipEntryLines<'a> {
    type Item = RipEntryLine;

    ghost lines_left = { λ s. rip_entry_lines s.rip s.left };

    ghost left = { λ s. length s.left };

    fn next_item(&mut self) -> Option<RipEntryLine> {
        let (entry, standing) = self.left.next()?;
        Some(RipEntryLine {
            rip: self.rip,
            entry,
            standing,
        })
    }
}
