//! Edit units of an index, and their lines.
ghost use Rattle.std.specs.Prelude.{◌≡◌, ◌==◌, ◌+◌, ◌-◌, ◌<◌, ◌≤◌, ◌⊎◌, ◌∷◌, [], if◌then◌else◌, IfNone, IfOk, IfSome};
ghost use Rattle.std.specs.Prelude.{Option, codes, length};
ghost use Rattle.std.specs.Option.{option_and_then, option_map};
ghost use Rattle.mxf_klv.specs.Written.{Puts, Writes};
ghost use Rattle.mxf_units.specs.Ranges.{needed_from, units_from};
ghost use Rattle.mxf_lines.specs.Printing.{Prints};
ghost use Rattle.mxf_timed.specs.Shown.{TimedParts};
ghost use Rattle.mxf_lines.specs.UnitLines.{AreToldTimes, entry_fields, extent_fields, extent_length, flags_value};
ghost use Rattle.mxf_lines.specs.UnitLines.{hand_count, held_count, shown_fields, unit_line, unit_lines, units_line};
ghost use Rattle.mxf_lines.specs.UnitLines.{units_status};
ghost use Rattle.mxf_forms.specs.Forms.{field};
ghost use Rattle.mxf_forms.specs.Writing.{with_field, with_fields};

use super::AnswerFault;
use super::line::write_word_or;
use super::lines::{Line, Lines, Printer};
use mxf_clocks::Clocks;
use mxf_forms::{FieldWriter, Form, HexDigits};
use mxf_klv::OutOfMemory;
use mxf_timed::ShownTimecodes;
use mxf_units::{EditUnit, Extent, UnitCounts, UnitRange, UnitStanding, Units, UnitsLeft};
use std::alloc::{AllocError, Global};
use std::io::Write;

/// Prints the edit units of a range in a form, with the timecode that each shows if there are clocks, and how many there
/// are and how they stand. The answer is 0 if all bytes of each are held or at hand, otherwise 1.
///
/// Out of memory, some whole lines have been written; after a write fault the first bytes, which it counts.
pub fn print_edit_units<W: Write>(
    alloc: Global,
    units: &Units<'_>,
    range: UnitRange,
    clocks: &Option<Clocks>,
    form: Form,
    writer: &mut W,
) -> Result<u8, AnswerFault>
    ensures lines { (shown : Option TimedParts)
        → AreToldTimes units.now range.first range.count clocks.now shown
        → Prints form (Writes (W.contents writer.old) (W.contents writer.new)) result
        (unit_lines shown range.first (units_from units.now range.first range.count)) }
    ensures some { IfOk result (λ _. (shown : Option TimedParts)
        × AreToldTimes units.now range.first range.count clocks.now shown) }
    ensures status { IfOk result (λ status. status ≡ units_status (units_from units.now range.first range.count)) }
{
    let shown = timecodes_shown(alloc, units, range, clocks)?;
    print_shown(alloc, units, range, &shown, form, writer)
}

/// Prints the units of a range in a form, with the timecode that each shows, if that is told.
fn print_shown<W: Write>(
    alloc: Global,
    units: &Units<'_>,
    range: UnitRange,
    shown: &Option<ShownTimecodes<'_>>,
    form: Form,
    writer: &mut W,
) -> Result<u8, AnswerFault>
    ensures lines { Prints form (Writes (W.contents writer.old) (W.contents writer.new)) result
        (unit_lines shown.now range.first (units_from units.now range.first range.count)) }
    ensures status { IfOk result (λ status. status ≡ units_status (units_from units.now range.first range.count)) }
{
    let mut printer = Printer::new(alloc, form);
    print_units(&mut printer, writer, units, range, shown)
}

/// Which timecode each unit of a range shows, if there are clocks.
pub fn timecodes_shown<'c>(
    alloc: Global,
    units: &Units<'_>,
    range: UnitRange,
    clocks: &'c Option<Clocks>,
) -> Result<Option<ShownTimecodes<'c>>, OutOfMemory>
    ensures { IfOk result (AreToldTimes units.now range.first range.count clocks.now) }
{
    match clocks {
        Some(clocks) => {
            let runs = clocks.of_index(units.index_sid());
            Ok(Some(ShownTimecodes::of(alloc, units, runs, range)?))
        }
        None => Ok(None),
    }
}

/// Prints the units of a range, and the last line; answers 0 if all bytes of each are held or at hand, otherwise 1.
fn print_units<W: Write>(
    printer: &mut Printer,
    writer: &mut W,
    units: &Units<'_>,
    range: UnitRange,
    shown: &Option<ShownTimecodes<'_>>,
) -> Result<u8, AnswerFault>
    ensures lines { Prints printer.old.fields.form
        (Puts W.contents writer.old writer.new printer.old.progress printer.new.progress)
        result (unit_lines shown.now range.first (units_from units.now range.first range.count)) }
    ensures status { IfOk result (λ status. status ≡ units_status (units_from units.now range.first range.count)) }
{
    let mut last = UnitsLine::of_none(range.first(), range.count());
    for unit in UnitsLeft::of(units, range) {
        UnitLine { unit, shown }.print_to(printer, writer)?;
        last.add(&unit);
    }
    last.print_to(printer, writer)?;
    Ok(last.status())
}

/// An edit unit, and which timecode each shows, if that is told.
#[derive(Clone, Copy)]
struct UnitLine<'s, 'c> {
    unit: EditUnit,
    shown: &'s Option<ShownTimecodes<'c>>,
}

/// A unit: its number, how its bytes stand, from where up to where they lie, in bytes, what its entry says, which
/// timecode it shows, and how many bytes it has.
impl<'s, 'c> Line for UnitLine<'s, 'c> {
    ghost line = { λ l. unit_line l.shown.now l.unit };

    #[tactic(auto, unfolding(crate::specs::UnitLines::unit_line))]
    fn write_fields(&self, fields: &mut FieldWriter) -> Result<(), AllocError> {
        let unit = self.unit;
        fields.begin("unit", "unit")?;
        fields.number(" ", "unit", unit.number)?;
        fields.word(" ", "standing", unit.standing)?;
        write_extent(fields, unit.extent)?;
        write_entry(fields, &unit)?;
        write_shown(fields, self.shown, unit.number)?;
        fields.known_member("length", length_of(unit.extent))?;
        fields.end("")
    }
}

/// Writes the timecode that a unit shows, if timecodes are told.
fn write_shown(
    fields: &mut FieldWriter,
    shown: &Option<ShownTimecodes<'_>>,
    unit: u64,
) -> Result<(), AllocError>
    ensures { IfOk result (λ _. fields.new ≡ with_fields (shown_fields shown.now unit) fields.old) }
{
    match shown {
        Some(shown) => write_word_or(fields, " at ", "at", shown.by(unit)),
        None => Ok(()),
    }
}

/// Writes from where up to where bytes lie.
fn write_extent(fields: &mut FieldWriter, extent: Option<Extent>) -> Result<(), AllocError>
    ensures { IfOk result (λ _. fields.new ≡ with_fields (extent_fields extent) fields.old) }
{
    fields.known(" ", "start", "-", start_of(extent))?;
    fields.known(" ", "end", "-", end_of(extent))
}

/// Writes what the entry of a unit says.
fn write_entry(fields: &mut FieldWriter, unit: &EditUnit) -> Result<(), AllocError>
    ensures { IfOk result (λ _. fields.new ≡ with_fields (entry_fields unit.now) fields.old) }
{
    fields.known(" key ", "key", "-", unit.key)?;
    fields.known(" temporal ", "temporal", "-", unit.temporal)?;
    write_flags(fields, unit.flags)
}

/// The file offset where an extent begins, if there is one.
fn start_of(extent: Option<Extent>) -> Option<u128>
    ensures { result ≡ option_map (λ e. e.start) extent }
{
    Some(extent?.start)
}

/// The file offset where an extent ends, if that is known.
fn end_of(extent: Option<Extent>) -> Option<u128>
    ensures { result ≡ option_and_then (λ e. e.end) extent }
{
    extent?.end
}

/// How many bytes an extent has, if its end is known.
fn length_of(extent: Option<Extent>) -> Option<u128>
    ensures { result ≡ extent_length extent }
{
    let extent = extent?;
    Some(extent.end?.saturating_sub(extent.start))
}

/// Writes the two digits of flags.
fn write_flags(fields: &mut FieldWriter, flags: Option<u8>) -> Result<(), AllocError>
    ensures { IfOk result (λ _. fields.new
        ≡ with_field (field (codes " flags ") (codes "flags") (flags_value flags)) fields.old) }
{
    match flags {
        Some(flags) => fields.word(" flags ", "flags", HexDigits(&[flags])),
        None => fields.absent(" flags ", "flags", "-"),
    }
}

/// The last line of units: how many there are, how many of them are held, how many others are at hand, and from which
/// on they need units.
#[derive(Clone, Copy)]
pub struct UnitsLine {
    units: u64,
    held: u64,
    hand: u64,
    from: u64,
}

impl UnitsLine {
    /// That of some units, the first of which has this number.
    pub fn of(first: u64, units: &[EditUnit]) -> UnitsLine
        ensures units { result.units ≡ length units.now }
        ensures held { result.held ≡ held_count units.now }
        ensures hand { result.hand ≡ hand_count units.now }
        ensures from { result.from ≡ needed_from first units.now }
        ensures bound { result.held + result.hand ≤ result.units }
    {
        let mut last = UnitsLine::of_none(first, units.len() as u64);
        for unit in units {
            last.add(unit);
        }
        last
    }

    /// That of so many units from one on, by how many of them are held and at hand.
    pub fn of_counts(first: u64, count: u64, counts: UnitCounts) -> UnitsLine
        ensures { result ≡ record { units = count; held = counts.held; hand = counts.hand; from = first } }
    {
        UnitsLine {
            units: count,
            held: counts.held,
            hand: counts.hand,
            from: first,
        }
    }

    /// That of so many units from one on, before any is counted.
    fn of_none(first: u64, count: u64) -> UnitsLine
        ensures { result ≡ record { units = count; held = 0; hand = 0; from = first } }
    {
        UnitsLine {
            units: count,
            held: 0,
            hand: 0,
            from: first,
        }
    }

    /// Counts a unit.
    fn add(&mut self, unit: &EditUnit)
        requires { self.old.held + self.old.hand < self.old.units }
        ensures units { self.new.units ≡ self.old.units }
        ensures held { self.new.held ≡ held_count (unit.now ∷ []) + self.old.held }
        ensures hand { self.new.hand ≡ hand_count (unit.now ∷ []) + self.old.hand }
        ensures from { self.new.from ≡ needed_from self.old.from (unit.now ∷ []) }
    {
        match unit.standing {
            UnitStanding::Held => self.held += 1,
            UnitStanding::Hand => self.hand += 1,
            _ => {}
        }
        if let Some(key) = unit.key {
            self.from = self.from.min(key);
        }
    }

    /// 0 if each unit is held or at hand, otherwise 1.
    pub fn status(&self) -> u8
        requires { self.now.held + self.now.hand ≤ self.now.units }
        ensures { result ≡ if self.now.held + self.now.hand == self.now.units then 0 else 1 }
    {
        u8::from(self.held + self.hand != self.units)
    }
}

impl Line for UnitsLine {
    ghost line = { λ l. units_line l.units l.held l.hand l.from };

    #[tactic(auto, unfolding(crate::specs::UnitLines::units_line))]
    fn write_fields(&self, fields: &mut FieldWriter) -> Result<(), AllocError> {
        fields.begin("units", "units")?;
        fields.number(" ", "units", self.units)?;
        fields.number(" held ", "held", self.held)?;
        fields.number(" hand ", "hand", self.hand)?;
        fields.number(" from ", "from", self.from)?;
        fields.end("")
    }
}
