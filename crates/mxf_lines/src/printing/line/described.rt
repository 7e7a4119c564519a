//! The lines of what a recording is, down to its packages.
ghost use Rattle.std.specs.Prelude.{◌≡◌, ℕ, List, IfOk, Some, flat_map};
ghost use Rattle.std.specs.Option.{option_to_list};
ghost use Rattle.mxf_forms.specs.Forms.{Characters, field};
ghost use Rattle.mxf_forms.specs.Hexadecimal.{hex_of};
ghost use Rattle.mxf_forms.specs.Writing.{with_field, with_fields};
ghost use Rattle.mxf_lines.specs.DescriptionLines.{described_line, kind_text, package_container_line, package_kind_text};
ghost use Rattle.mxf_lines.specs.DescriptionLines.{package_line, packages_line, placed, rate_text};
ghost use Rattle.mxf_lines.specs.DescriptionLines.{target_line};
ghost use Rattle.mxf_lines.specs.DescriptionLines.{track_target_fields, within_fields, word_or};
ghost use Rattle.mxf_tracks.specs.Digits.{length_text, timecode_text};

use super::copy::finished_word;
use super::record::{Value, write_owned};
use super::{AllocError, Line};
use mxf_forms::{FieldWriter, HexDigits};
use mxf_sets::Rate;
use mxf_tracks::{Container, Length, PackageKind, SequenceKind, Target, Timecode};
use mxf_views::CopyInfo;
use std::fmt;

/// What a line is of: a package, by its identifier, and one of its tracks, by its number among them.
#[derive(Clone, Copy)]
pub struct Within {
    pub uid: [u8; 32],
    pub track: Option<u32>,
}

/// Its members of JSON.
impl Value for Within {
    ghost fields = { within_fields };

    fn write_to(&self, to: &mut FieldWriter) -> Result<(), AllocError> {
        to.word_member("of-package", HexDigits(&self.uid))?;
        match self.track {
            Some(id) => to.number_member("of-track", id),
            None => Ok(()),
        }
    }
}

/// Those of what a line is of, if it is of something.
impl Value for Option<Within> {
    ghost fields = { λ w. flat_map within_fields (option_to_list w) };

    fn write_to(&self, to: &mut FieldWriter) -> Result<(), AllocError> {
        match self {
            Some(within) => within.write_to(to),
            None => Ok(()),
        }
    }
}

/// What a reference leads to, and at which offset in bytes.
impl Value for Target {
    ghost fields = { track_target_fields };

    fn write_to(&self, to: &mut FieldWriter) -> Result<(), AllocError> {
        write_target(to, *self)
    }
}

/// Writes what a reference leads to, and at which offset in bytes.
fn write_target(fields: &mut FieldWriter, target: Target) -> Result<(), AllocError>
    ensures { IfOk result (λ _. fields.new ≡ with_fields (track_target_fields target) fields.old) }
{
    match target {
        Target::Missing => fields.word(" ", "target", "missing"),
        Target::Several => fields.word(" ", "target", "several"),
        Target::WrongKind(offset) => write_placed(fields, "wrong-kind", offset),
        Target::Other(offset) => write_placed(fields, "other", offset),
        Target::Again(offset) => write_placed(fields, "again", offset),
        Target::Unreadable(offset) => write_placed(fields, "unreadable", offset),
        Target::Found(offset) => write_placed(fields, "found", offset),
    }
}

/// Writes the word for what a reference leads to at an offset.
fn write_placed(fields: &mut FieldWriter, word: &str, offset: u64) -> Result<(), AllocError>
    ensures { IfOk result (λ _. fields.new ≡ with_fields (placed word.now offset) fields.old) }
{
    fields.word(" ", "target", word)?;
    fields.number(" ", "offset", offset)
}

/// What is printed as a word.
pub trait Word: Copy {
    // The word.
    ghost text: { Self → List ℕ };

    /// Writes it as a field.
    fn write_word(
        self,
        fields: &mut FieldWriter,
        before: &str,
        name: &str,
    ) -> Result<(), AllocError>
        ensures { IfOk result (λ _. fields.new
            ≡ with_field (field before.now name.now (Characters (text self))) fields.old) };
}

/// Writes a word, or a hyphen if there is none.
pub fn write_word_or<T: Word>(
    fields: &mut FieldWriter,
    before: &str,
    name: &str,
    value: Option<T>,
) -> Result<(), AllocError>
    ensures { IfOk result (λ _. fields.new ≡ with_field (word_or before.now name.now T.text value) fields.old) }
{
    match value {
        Some(value) => value.write_word(fields, before, name),
        None => fields.absent(before, name, "-"),
    }
}

/// A rate, as one number over the other.
#[derive(Clone, Copy)]
pub struct RateText(pub Rate);

impl fmt::Display for RateText {
    ghost output = { λ r. Some (rate_text r.0) };

    fn fmt<W: fmt::Write>(&self, f: &mut fmt::Formatter<W>) -> fmt::Result {
        write!(f, "{}/{}", self.0.numerator, self.0.denominator)
    }
}

impl Word for Rate {
    ghost text = { rate_text };

    fn write_word(
        self,
        fields: &mut FieldWriter,
        before: &str,
        name: &str,
    ) -> Result<(), AllocError> {
        fields.word(before, name, RateText(self))
    }
}

impl Word for [u8; 16] {
    ghost text = { hex_of };

    fn write_word(
        self,
        fields: &mut FieldWriter,
        before: &str,
        name: &str,
    ) -> Result<(), AllocError> {
        fields.word(before, name, HexDigits(&self))
    }
}

impl Word for Length {
    ghost text = { λ l. length_text l.thousandths };

    fn write_word(
        self,
        fields: &mut FieldWriter,
        before: &str,
        name: &str,
    ) -> Result<(), AllocError> {
        fields.word(before, name, self)
    }
}

impl Word for Timecode {
    ghost text = { timecode_text };

    fn write_word(
        self,
        fields: &mut FieldWriter,
        before: &str,
        name: &str,
    ) -> Result<(), AllocError> {
        fields.word(before, name, self)
    }
}

impl Word for SequenceKind {
    ghost text = { kind_text };

    fn write_word(
        self,
        fields: &mut FieldWriter,
        before: &str,
        name: &str,
    ) -> Result<(), AllocError> {
        let word = match self {
            SequenceKind::Picture => "picture",
            SequenceKind::Sound => "sound",
            SequenceKind::Data => "data",
            SequenceKind::Timecode => "timecode",
            SequenceKind::Descriptive => "descriptive",
            SequenceKind::Other(label) => return label.write_word(fields, before, name),
        };
        fields.word(before, name, word)
    }
}

/// The preferred copy: its partition, and whether it is finished.
#[derive(Clone, Copy)]
pub struct DescribedLine(pub Option<CopyInfo>);

impl Line for DescribedLine {
    ghost line = { λ l. described_line l.0 };

    #[tactic(auto, unfolding(crate::specs::DescriptionLines::described_line))]
    fn write_fields(&self, fields: &mut FieldWriter) -> Result<(), AllocError> {
        fields.begin("described", "described")?;
        match self.0 {
            Some(copy) => {
                fields.number(" ", "partition", copy.partition)?;
                fields.word(" ", "state", finished_word(copy.finished))?;
            }
            None => fields.absent(" ", "partition", "none")?,
        }
        fields.end("")
    }
}

/// A reference with a name, words before it, and what it leads to; and what it is of.
#[derive(Clone, Copy)]
pub struct TargetLine {
    pub name: &'static str,
    pub first: &'static str,
    pub target: Target,
    pub within: Option<Within>,
}

impl Line for TargetLine {
    ghost line = { λ l. target_line l.name.now l.first.now l.target l.within };

    #[tactic(auto, unfolding(crate::specs::DescriptionLines::target_line))]
    fn write_fields(&self, fields: &mut FieldWriter) -> Result<(), AllocError> {
        fields.begin(self.name, self.first)?;
        write_owned(fields, &self.target, &self.within)?;
        fields.end("")
    }
}

/// A package: which it is, and its identifier.
#[derive(Clone, Copy)]
pub struct PackageLine {
    pub kind: PackageKind,
    pub uid: [u8; 32],
}

impl Line for PackageLine {
    ghost line = { λ l. package_line l.kind l.uid };

    #[tactic(auto, unfolding(crate::specs::DescriptionLines::package_line))]
    fn write_fields(&self, fields: &mut FieldWriter) -> Result<(), AllocError> {
        fields.begin("package", "package")?;
        fields.word(" ", "kind", package_word(self.kind))?;
        fields.word(" ", "uid", HexDigits(&self.uid))?;
        fields.end("")
    }
}

/// The word for a package.
pub fn package_word(kind: PackageKind) -> &'static str
    ensures { result.now ≡ package_kind_text kind }
{
    match kind {
        PackageKind::Material => "material",
        PackageKind::Source => "source",
    }
}

/// The streams of the essence and of the index of a package.
#[derive(Clone, Copy)]
pub struct PackageContainerLine {
    pub container: Container,
    pub within: Within,
}

impl Line for PackageContainerLine {
    ghost line = { λ l. package_container_line l.container l.within };

    #[tactic(auto, unfolding(crate::specs::DescriptionLines::package_container_line))]
    fn write_fields(&self, fields: &mut FieldWriter) -> Result<(), AllocError> {
        fields.begin("container", "container")?;
        fields.number(" ", "body-sid", self.container.body_sid)?;
        fields.number(" ", "index-sid", self.container.index_sid)?;
        self.within.write_to(fields)?;
        fields.end("")
    }
}

/// How many packages and tracks are found, and how many runs the clocks have.
#[derive(Clone, Copy)]
pub struct PackagesLine {
    pub packages: usize,
    pub tracks: u128,
    pub clocks: usize,
}

impl Line for PackagesLine {
    ghost line = { λ l. packages_line l.packages l.tracks l.clocks };

    #[tactic(auto, unfolding(crate::specs::DescriptionLines::packages_line))]
    fn write_fields(&self, fields: &mut FieldWriter) -> Result<(), AllocError> {
        fields.begin("packages", "packages")?;
        fields.number(" ", "packages", self.packages)?;
        fields.number(" tracks ", "tracks", self.tracks)?;
        fields.number(" clocks ", "clocks", self.clocks)?;
        fields.end("")
    }
}
