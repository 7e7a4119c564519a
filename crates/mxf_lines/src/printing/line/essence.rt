//! The lines of what descriptors say.
ghost use Rattle.std.specs.Prelude.{◌≡◌, IfOk};
ghost use Rattle.mxf_forms.specs.Writing.{with_fields};
ghost use Rattle.mxf_lines.specs.DescriptionLines.{essence_line, picture_line, sample_fields, size_fields, sound_line};

use super::described::{Within, write_word_or};
use super::record::Value;
use super::{AllocError, Line};
use mxf_forms::FieldWriter;
use mxf_sets::{Descriptor, PictureFields, SoundFields};

/// The essence that a descriptor is of: its track, its sample rate, its duration in samples, and its container.
#[derive(Clone, Copy)]
pub struct EssenceLine<'r, 'a> {
    pub descriptor: &'r Descriptor<'a>,
    pub within: Within,
}

impl<'r, 'a> Line for EssenceLine<'r, 'a> {
    ghost line = { λ l. essence_line l.descriptor.now l.within };

    #[tactic(auto, unfolding(crate::specs::DescriptionLines::essence_line))]
    fn write_fields(&self, fields: &mut FieldWriter) -> Result<(), AllocError> {
        let descriptor = self.descriptor;
        fields.begin("essence", "essence")?;
        fields.known(" ", "track", "-", descriptor.linked_track())?;
        write_word_or(fields, " rate ", "rate", descriptor.sample_rate())?;
        fields.known(" duration ", "duration", "-", descriptor.duration())?;
        write_word_or(
            fields,
            " container ",
            "container",
            descriptor.essence_container(),
        )?;
        self.within.write_to(fields)?;
        fields.end("")
    }
}

/// A picture.
#[derive(Clone, Copy)]
pub struct PictureLine {
    pub picture: PictureFields,
    pub within: Within,
}

impl Line for PictureLine {
    ghost line = { λ l. picture_line l.picture l.within };

    #[tactic(auto, unfolding(crate::specs::DescriptionLines::picture_line))]
    fn write_fields(&self, fields: &mut FieldWriter) -> Result<(), AllocError> {
        fields.begin("picture", "picture")?;
        write_sizes(fields, &self.picture)?;
        write_samples(fields, &self.picture)?;
        self.within.write_to(fields)?;
        fields.end("")
    }
}

/// Writes its width in pixels and its height in lines, as stored and as shown, how its lines lie, and its aspect ratio.
fn write_sizes(fields: &mut FieldWriter, picture: &PictureFields) -> Result<(), AllocError>
    ensures { IfOk result (λ _. fields.new ≡ with_fields (size_fields picture.now) fields.old) }
{
    fields.known(" ", "width", "-", picture.stored_width)?;
    fields.known(" ", "height", "-", picture.stored_height)?;
    fields.known(" display ", "display-width", "-", picture.display_width)?;
    fields.known(" ", "display-height", "-", picture.display_height)?;
    fields.known(" layout ", "layout", "-", picture.frame_layout)?;
    write_word_or(fields, " aspect ", "aspect", picture.aspect_ratio)
}

/// Writes the bits of its samples, how many of luminance there are for each of colour, and its coding.
fn write_samples(fields: &mut FieldWriter, picture: &PictureFields) -> Result<(), AllocError>
    ensures { IfOk result (λ _. fields.new ≡ with_fields (sample_fields picture.now) fields.old) }
{
    fields.known(" depth ", "depth", "-", picture.component_depth)?;
    fields.known(
        " sampling ",
        "horizontal",
        "-",
        picture.horizontal_subsampling,
    )?;
    fields.known(" ", "vertical", "-", picture.vertical_subsampling)?;
    write_word_or(fields, " coding ", "coding", picture.coding)
}

/// A sound: samples a second, channels, bits of a sample, and its coding.
#[derive(Clone, Copy)]
pub struct SoundLine {
    pub sound: SoundFields,
    pub within: Within,
}

impl Line for SoundLine {
    ghost line = { λ l. sound_line l.sound l.within };

    #[tactic(auto, unfolding(crate::specs::DescriptionLines::sound_line))]
    fn write_fields(&self, fields: &mut FieldWriter) -> Result<(), AllocError> {
        let sound = self.sound;
        fields.begin("sound", "sound")?;
        write_word_or(fields, " rate ", "rate", sound.sampling_rate)?;
        fields.known(" channels ", "channels", "-", sound.channel_count)?;
        fields.known(" bits ", "bits", "-", sound.quantization_bits)?;
        write_word_or(fields, " coding ", "coding", sound.coding)?;
        self.within.write_to(fields)?;
        fields.end("")
    }
}
