//! The lines of tracks, and of the components of their sequences.
ghost use Rattle.std.specs.Prelude.{◌≡◌, IfOk};
ghost use Rattle.std.specs.Option.{option_map};
ghost use Rattle.mxf_forms.specs.Writing.{with_fields};
ghost use Rattle.mxf_lines.specs.DescriptionLines.{clip_line, component_line, filler_line, first_fields, length_at};
ghost use Rattle.mxf_lines.specs.DescriptionLines.{sequence_duration, source_fields, span_of_component};
ghost use Rattle.mxf_lines.specs.DescriptionLines.{time_fields, timecode_line};
ghost use Rattle.mxf_sets.specs.Component.{is_drop};
ghost use Rattle.mxf_tracks.specs.Timecodes.{timecode_of};
ghost use Rattle.mxf_lines.specs.DescriptionLines.{track_fields, track_line};

use super::described::{RateText, Within, write_word_or};
use super::record::{Value, write_owned};
use super::{AllocError, Line};
use mxf_forms::{FieldWriter, HexDigits};
use mxf_sets::{Filler, Rate, SourceClip, TimecodeComponent, Track};
use mxf_tracks::{FoundSequence, Length, Target, Timecode};

/// A track, and what its sequence holds.
#[derive(Clone, Copy)]
pub struct TrackLine<'r, 'a> {
    pub track: &'r Track<'a>,
    pub sequence: &'r Option<FoundSequence>,
    pub within: Within,
}

impl<'r, 'a> Line for TrackLine<'r, 'a> {
    ghost line = { λ l. track_line l.track.now l.sequence.now l.within };

    #[tactic(auto, unfolding(crate::specs::DescriptionLines::track_line))]
    fn write_fields(&self, fields: &mut FieldWriter) -> Result<(), AllocError> {
        fields.begin("track", "track")?;
        write_track(fields, self.track, self.sequence)?;
        write_times(fields, self.track, self.sequence)?;
        self.within.write_to(fields)?;
        fields.end("")
    }
}

/// Writes the identifier of a track, what its sequence holds, and its number.
fn write_track(
    fields: &mut FieldWriter,
    track: &Track<'_>,
    sequence: &Option<FoundSequence>,
) -> Result<(), AllocError>
    ensures { IfOk result (λ _. fields.new ≡ with_fields (track_fields track.now sequence.now) fields.old) }
{
    let number = track.number().to_be_bytes();
    let kind = sequence.as_ref().map(|sequence| sequence.kind);
    fields.number(" ", "id", track.id())?;
    write_word_or(fields, " ", "kind", kind)?;
    fields.word(" number ", "number", HexDigits(&number))
}

/// Writes its edit rate and origin, its duration in edit units and its length.
fn write_times(
    fields: &mut FieldWriter,
    track: &Track<'_>,
    sequence: &Option<FoundSequence>,
) -> Result<(), AllocError>
    ensures { IfOk result (λ _. fields.new ≡ with_fields (time_fields track.now sequence.now) fields.old) }
{
    let rate = track.edit_rate();
    let duration = duration_of(sequence);
    fields.word(" rate ", "rate", RateText(rate))?;
    fields.number(" origin ", "origin", track.origin())?;
    fields.known(" duration ", "duration", "-", duration)?;
    write_word_or(fields, " length ", "length", length_of(duration, rate))
}

/// The duration of a sequence in edit units, if it is found and its duration is known.
fn duration_of(sequence: &Option<FoundSequence>) -> Option<u64>
    ensures { result ≡ sequence_duration sequence.now }
{
    sequence.as_ref()?.duration
}

/// How long a duration in edit units lasts.
fn length_of(duration: Option<u64>, rate: Rate) -> Option<Length>
    ensures { option_map (λ l. l.thousandths) result ≡ length_at duration rate }
{
    Length::of(duration?, rate)
}

/// Writes where a component begins and its duration, in edit units.
fn write_span(
    fields: &mut FieldWriter,
    start: Option<u128>,
    duration: Option<u64>,
) -> Result<(), AllocError>
    ensures { IfOk result (λ _. fields.new ≡ with_fields (span_of_component start duration) fields.old) }
{
    fields.known(" ", "start", "-", start)?;
    fields.known(" ", "duration", "-", duration)
}

/// A clip: where what it shows stands.
#[derive(Clone, Copy)]
pub struct ClipLine<'r> {
    pub start: Option<u128>,
    pub clip: &'r SourceClip,
    pub within: Within,
}

impl<'r> Line for ClipLine<'r> {
    ghost line = { λ l. clip_line l.start l.clip.now l.within };

    #[tactic(auto, unfolding(crate::specs::DescriptionLines::clip_line))]
    fn write_fields(&self, fields: &mut FieldWriter) -> Result<(), AllocError> {
        fields.begin("clip", "clip")?;
        write_span(fields, self.start, self.clip.duration())?;
        write_source(fields, self.clip)?;
        self.within.write_to(fields)?;
        fields.end("")
    }
}

/// Writes where what a clip shows stands: the package, its track, and the position there.
fn write_source(fields: &mut FieldWriter, clip: &SourceClip) -> Result<(), AllocError>
    ensures { IfOk result (λ _. fields.new ≡ with_fields (source_fields clip.now) fields.old) }
{
    let package = clip.source_package();
    fields.word(" package ", "package", HexDigits(&package))?;
    fields.number(" track ", "track", clip.source_track())?;
    fields.number(" from ", "from", clip.start_position())
}

/// A timecode component: the timecode of its first frame, and frames in a second.
#[derive(Clone, Copy)]
pub struct TimecodeLine<'r> {
    pub start: Option<u128>,
    pub timecode: &'r TimecodeComponent,
    pub within: Within,
}

impl<'r> Line for TimecodeLine<'r> {
    ghost line = { λ l. timecode_line l.start l.timecode.now l.within };

    #[tactic(auto, unfolding(crate::specs::DescriptionLines::timecode_line))]
    fn write_fields(&self, fields: &mut FieldWriter) -> Result<(), AllocError> {
        fields.begin("timecode", "timecode")?;
        write_span(fields, self.start, self.timecode.duration())?;
        write_first(fields, self.timecode)?;
        self.within.write_to(fields)?;
        fields.end("")
    }
}

/// The timecode of the first frame of a component, none at base 0.
fn first_timecode(timecode: &TimecodeComponent) -> Option<Timecode>
    ensures { result ≡ timecode_of timecode.now.start timecode.now.base (is_drop timecode.now) }
{
    Timecode::of(timecode.start(), timecode.base(), timecode.is_drop())
}

/// Writes the timecode of the first frame, and frames in a second.
fn write_first(fields: &mut FieldWriter, timecode: &TimecodeComponent) -> Result<(), AllocError>
    ensures { IfOk result (λ _. fields.new ≡ with_fields (first_fields timecode.now) fields.old) }
{
    write_word_or(fields, " at ", "at", first_timecode(timecode))?;
    fields.number(" base ", "base", timecode.base())
}

/// A filler.
#[derive(Clone, Copy)]
pub struct FillerLine<'r> {
    pub start: Option<u128>,
    pub filler: &'r Filler,
    pub within: Within,
}

impl<'r> Line for FillerLine<'r> {
    ghost line = { λ l. filler_line l.start l.filler.now l.within };

    #[tactic(auto, unfolding(crate::specs::DescriptionLines::filler_line))]
    fn write_fields(&self, fields: &mut FieldWriter) -> Result<(), AllocError> {
        fields.begin("filler", "filler")?;
        write_span(fields, self.start, self.filler.duration())?;
        self.within.write_to(fields)?;
        fields.end("")
    }
}

/// A component that isn't found: what the reference to it leads to.
#[derive(Clone, Copy)]
pub struct ComponentLine {
    pub start: Option<u128>,
    pub target: Target,
    pub within: Within,
}

impl Line for ComponentLine {
    ghost line = { λ l. component_line l.start l.target l.within };

    #[tactic(auto, unfolding(crate::specs::DescriptionLines::component_line))]
    fn write_fields(&self, fields: &mut FieldWriter) -> Result<(), AllocError> {
        fields.begin("component", "component")?;
        fields.known(" ", "start", "-", self.start)?;
        write_owned(fields, &self.target, &self.within)?;
        fields.end("")
    }
}
