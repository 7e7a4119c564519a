//! The lines of clocks.
ghost use Rattle.std.specs.Prelude.{◌≡◌, IfOk};
ghost use Rattle.mxf_forms.specs.Writing.{with_fields};
ghost use Rattle.mxf_lines.specs.DescriptionLines.{clock_line, position_fields, timecode_fields};

use super::described::{package_word, write_word_or};
use super::{AllocError, Line};
use mxf_clocks::Run;
use mxf_forms::FieldWriter;
use mxf_tracks::PackageKind;

/// A run of a clock: which positions of an index have which timecodes, and which packages say so.
#[derive(Clone, Copy)]
pub struct ClockLine<'r> {
    pub by: PackageKind,
    pub run: &'r Run,
}

impl<'r> Line for ClockLine<'r> {
    ghost line = { λ l. clock_line l.by l.run.now };

    #[tactic(auto, unfolding(crate::specs::DescriptionLines::clock_line))]
    fn write_fields(&self, fields: &mut FieldWriter) -> Result<(), AllocError> {
        fields.begin("clock", "clock")?;
        write_positions(fields, self.run)?;
        write_timecodes(fields, self.run)?;
        fields.word(" by ", "by", package_word(self.by))?;
        fields.end("")
    }
}

/// Writes the index of a run, its first position, and how many positions it has.
fn write_positions(fields: &mut FieldWriter, run: &Run) -> Result<(), AllocError>
    ensures { IfOk result (λ _. fields.new ≡ with_fields (position_fields run.now) fields.old) }
{
    fields.number(" ", "index-sid", run.index_sid())?;
    fields.number(" ", "position", run.position())?;
    fields.known(" ", "count", "-", run.count())
}

/// Writes the timecodes of its first and its last position, and frames in a second.
fn write_timecodes(fields: &mut FieldWriter, run: &Run) -> Result<(), AllocError>
    ensures { IfOk result (λ _. fields.new ≡ with_fields (timecode_fields run.now) fields.old) }
{
    write_word_or(fields, " at ", "first", Some(run.first()))?;
    write_word_or(fields, " to ", "last", run.last())?;
    fields.number(" base ", "base", run.base())
}
