//! What a recording is, by the preferred copy of its header metadata.
ghost use Rattle.std.specs.Prelude.{◌≡◌, ◌&&◌, ◌∷◌, [], if◌then◌else◌, IfOk, Some, None, filter, flat_map, is_some};
ghost use Rattle.std.specs.Prelude.{length, option_map, unwrap_or};
ghost use Rattle.std.specs.List.{list_all};
ghost use Rattle.mxf_klv.specs.Written.{Puts};
ghost use Rattle.mxf_lines.specs.DescriptionLines.{all_right, clock_line, clock_lines, component_lines};
ghost use Rattle.mxf_lines.specs.DescriptionLines.{description_lines, description_of, runs_told};
ghost use Rattle.mxf_lines.specs.DescriptionLines.{description_status, description_status_of, descriptor_lines};
ghost use Rattle.mxf_lines.specs.DescriptionLines.{essence_lines, finds_storage, found_descriptor_lines, found_packages};
ghost use Rattle.mxf_lines.specs.DescriptionLines.{found_package_lines, found_track_lines, found_tracks, has_picture};
ghost use Rattle.mxf_lines.specs.DescriptionLines.{has_size, has_sound, is_finished, is_right, line_of_component};
ghost use Rattle.mxf_lines.specs.DescriptionLines.{lost_lines, lost_storage, package_at_lines, package_container_line};
ghost use Rattle.mxf_lines.specs.DescriptionLines.{picture_lines, right_components, sound_lines};
ghost use Rattle.mxf_clocks.specs.Clocks.{clocks_of};
ghost use Rattle.mxf_tracks.specs.Walk.{tracks_in};
ghost use Rattle.mxf_lines.specs.DescriptionLines.{right_descriptor, right_parts, right_sequence, right_tracks};
ghost use Rattle.mxf_lines.specs.DescriptionLines.{sequence_lines_by, subdescriptor_lines, track_lines, tracks_found};
ghost use Rattle.mxf_lines.specs.Lines.{lines_where};
ghost use Rattle.mxf_lines.specs.Printing.{Prints};

use super::AnswerFault;
use super::line::{
    ClipLine, ClockLine, ComponentLine, DescribedLine, EssenceLine, FillerLine,
    PackageContainerLine, PackageLine, PackagesLine, PictureLine, Property, SoundLine, TargetLine,
    TextLines, TimecodeLine, TrackLine, ValueLines, Within,
};
use super::lines::{Each, Lent, Lines, Printer, Series, Then, print_with_status};
use mxf_clocks::{Clocks, Run};
use mxf_klv::OutOfMemory;
use mxf_references::{Resolved, Target as StorageTarget, resolved};
use mxf_sets::{Descriptor, PictureFields, SoundFields};
use mxf_tracks::{
    Component, Container, DescriptorAt, FoundDescriptor, FoundPackage, FoundSequence, FoundTrack,
    PackageAt, PackageKind, Part, SequenceAt, SubdescriptorAt, Target, TrackAt, Tracks,
};
use mxf_views::{CopyInfo, Views};
use std::alloc::Global;
use std::io::Write;

/// Prints what a recording is, and answers 0 where the preferred copy is finished and each reference leads where it
/// may, otherwise 1. Memory is taken before the first line, but for that of texts.
pub fn print_description<W: Write>(
    printer: &mut Printer,
    writer: &mut W,
    views: &Views,
) -> Result<u8, AnswerFault>
    ensures lines { Prints printer.old.fields.form
        (Puts W.contents writer.old writer.new printer.old.progress printer.new.progress)
        result (description_lines views.now) }
    ensures status { IfOk result (λ status. status ≡ description_status views.now) }
{
    let resolved = resolved(printer.alloc(), views)?;
    let tracks = tracks_of(printer.alloc(), views, &resolved)?;
    let clocks = clocks_of(printer.alloc(), views, &tracks)?;
    let description = Description {
        copy: views.preferred(),
        resolved: &resolved,
        packages: packages_of(&tracks),
        clocks: &clocks,
    };
    print_with_status(printer, writer, description, description.status())
}

/// What a copy says of the recording, if there is one.
fn tracks_of<'a>(
    alloc: Global,
    views: &'a Views,
    resolved: &Option<Resolved>,
) -> Result<Option<Tracks<'a>>, OutOfMemory>
    ensures { IfOk result (λ t. t ≡ option_map (tracks_in views.now) resolved.now) }
{
    match resolved {
        Some(resolved) => Ok(Some(Tracks::of(alloc, views, resolved)?)),
        None => Ok(None),
    }
}

/// The clocks by these tracks, if there are any.
fn clocks_of(
    alloc: Global,
    views: &Views,
    tracks: &Option<Tracks<'_>>,
) -> Result<Option<Clocks>, OutOfMemory>
    ensures { IfOk result (λ c. c ≡ option_map (clocks_of views.now) tracks.now) }
{
    match tracks {
        Some(tracks) => Ok(Some(Clocks::of(alloc, views, tracks)?)),
        None => Ok(None),
    }
}

/// The packages of tracks, none without these.
fn packages_of<'r, 'a>(tracks: &'r Option<Tracks<'a>>) -> &'r [PackageAt<'a>]
    ensures { result.now ≡ unwrap_or tracks.now [] }
{
    match tracks {
        Some(tracks) => tracks.packages(),
        None => &[],
    }
}

/// What the preferred copy says of a recording.
#[derive(Clone, Copy)]
struct Description<'r, 'a> {
    copy: Option<CopyInfo>,
    resolved: &'r Option<Resolved>,
    packages: &'r [PackageAt<'a>],
    clocks: &'r Option<Clocks>,
}

impl<'r, 'a> Lines for Description<'r, 'a> {
    ghost lines = { λ d. description_of d.copy d.resolved.now d.packages.now d.clocks.now };

    fn print_to<W: Write>(self, printer: &mut Printer, writer: &mut W) -> Result<(), AnswerFault> {
        let packages = self.packages;
        let found = PackagesLine {
            packages: found_packages(packages),
            tracks: found_tracks(packages),
            clocks: runs_told(self.clocks),
        };
        let clocks = Then(ClockLines(self.clocks), found);
        let packages = Then(Each(PackageLines(Lent(packages))), clocks);
        let lost = LostLines(self.resolved);
        Then(DescribedLine(self.copy), Then(lost, packages)).print_to(printer, writer)
    }
}

impl<'r, 'a> Description<'r, 'a> {
    /// 0 where the copy is finished and each reference leads where it may, otherwise 1.
    fn status(&self) -> u8
        ensures { result ≡ description_status_of self.now.copy self.now.resolved.now self.now.packages.now }
    {
        let is_whole = is_finished(self.copy)
            && finds_storage(self.resolved)
            && all_right(self.packages);
        u8::from(!is_whole)
    }
}

/// How many runs clocks have.
fn runs_told(clocks: &Option<Clocks>) -> usize
    ensures { result ≡ runs_told clocks.now }
{
    match clocks {
        Some(clocks) => clocks.runs().len(),
        None => 0,
    }
}

/// The lines of clocks, none without a preferred copy.
#[derive(Clone, Copy)]
struct ClockLines<'r>(&'r Option<Clocks>);

impl<'r> Lines for ClockLines<'r> {
    ghost lines = { λ c. lines_where clock_lines c.0.now };

    fn print_to<W: Write>(self, printer: &mut Printer, writer: &mut W) -> Result<(), AnswerFault> {
        match self.0 {
            Some(clocks) => {
                let (by, left) = (clocks.by(), Lent(clocks.runs()));
                Each(RunLines { by, left }).print_to(printer, writer)
            }
            None => Ok(()),
        }
    }
}

/// The lines of the runs that are left of clocks.
#[derive(Drop)]
struct RunLines<'r> {
    by: PackageKind,
    left: Lent<'r, Run>,
}

impl<'r> Series for RunLines<'r> {
    type Item = ClockLine<'r>;

    ghost lines_left = { λ s. flat_map (λ r. clock_line s.by r ∷ []) s.left.0.now };

    ghost left = { λ s. length s.left.0.now };

    fn next_item(&mut self) -> Option<ClockLine<'r>> {
        let run = self.left.next()?;
        Some(ClockLine { by: self.by, run })
    }
}

/// Why the packages of a copy aren't known: its Preface can't be read, or the storage that it names isn't found.
#[derive(Clone, Copy)]
struct LostLines<'r>(&'r Option<Resolved>);

impl<'r> Lines for LostLines<'r> {
    ghost lines = { λ l. lines_where lost_lines l.0.now };

    fn print_to<W: Write>(self, printer: &mut Printer, writer: &mut W) -> Result<(), AnswerFault> {
        let Some(resolved) = self.0 else {
            return Ok(());
        };
        let Some(storage) = &resolved.storage else {
            let target = Target::Unreadable(resolved.preface);
            return named_target("preface", target, None).print_to(printer, writer);
        };
        match lost_storage(storage.target) {
            Some(target) => named_target("storage", target, None).print_to(printer, writer),
            None => Ok(()),
        }
    }
}

/// What the reference to a storage leads to, unless the storage is found.
fn lost_storage(target: StorageTarget) -> Option<Target>
    ensures { result ≡ lost_storage target }
{
    match target {
        StorageTarget::Missing => Some(Target::Missing),
        StorageTarget::Several => Some(Target::Several),
        StorageTarget::WrongKind(offset) => Some(Target::WrongKind(offset)),
        StorageTarget::Unreadable(offset) => Some(Target::Unreadable(offset)),
        StorageTarget::Found(_) => None,
    }
}

/// The line of a reference whose name is all that stands before its target.
fn named_target(name: &'static str, target: Target, within: Option<Within>) -> TargetLine
    ensures name { result.name.now ≡ name.now }
    ensures first { result.first.now ≡ name.now }
    ensures target { result.target ≡ target }
    ensures within { result.within ≡ within }
{
    TargetLine {
        name,
        first: name,
        target,
        within,
    }
}

/// The lines of the packages that are left.
#[derive(Drop)]
struct PackageLines<'r, 'a>(Lent<'r, PackageAt<'a>>);

impl<'r, 'a> Series for PackageLines<'r, 'a> {
    type Item = &'r PackageAt<'a>;

    ghost lines_left = { λ s. flat_map package_at_lines s.0.0.now };

    ghost left = { λ s. length s.0.0.now };

    fn next_item(&mut self) -> Option<&'r PackageAt<'a>> {
        self.0.next()
    }
}

/// A package, or what the reference to it leads to.
impl<'r, 'a> Lines for &'r PackageAt<'a> {
    ghost lines = { λ p. package_at_lines p.now };

    fn print_to<W: Write>(self, printer: &mut Printer, writer: &mut W) -> Result<(), AnswerFault> {
        match &self.found {
            Some(found) => found.print_to(printer, writer),
            None => TargetLine {
                name: "package",
                first: "package -",
                target: self.target,
                within: None,
            }
            .print_to(printer, writer),
        }
    }
}

/// A package with its tracks and its descriptor.
impl<'r, 'a> Lines for &'r FoundPackage<'a> {
    ghost lines = { λ p. found_package_lines p.now };

    fn print_to<W: Write>(self, printer: &mut Printer, writer: &mut W) -> Result<(), AnswerFault> {
        let properties = &self.properties;
        let uid = properties.package_uid();
        let within = Within { uid, track: None };
        let package = PackageLine {
            kind: self.kind,
            uid,
        };
        let name = TextLines(within, Property::Name, properties.name());
        let created = ValueLines(within, Property::Created, properties.creation_date());
        let tracks = TrackLines {
            uid,
            left: Lent(self.tracks.as_slice()),
        };
        let container = ContainerLines(self.container, within);
        let descriptor = DescriptorLines(within, &self.descriptor);
        let essence = Then(container, Then(Each(tracks), descriptor));
        Then(package, Then(name, Then(created, essence))).print_to(printer, writer)
    }
}

/// The container of a package, if it is known.
#[derive(Clone, Copy)]
struct ContainerLines(Option<Container>, Within);

impl Lines for ContainerLines {
    ghost lines = { λ c. lines_where (λ container. package_container_line container c.1 ∷ []) c.0 };

    fn print_to<W: Write>(self, printer: &mut Printer, writer: &mut W) -> Result<(), AnswerFault> {
        let ContainerLines(container, within) = self;
        match container {
            Some(container) => {
                PackageContainerLine { container, within }.print_to(printer, writer)
            }
            None => Ok(()),
        }
    }
}

/// The lines of the tracks that are left of a package.
#[derive(Drop)]
struct TrackLines<'r, 'a> {
    uid: [u8; 32],
    left: Lent<'r, TrackAt<'a>>,
}

impl<'r, 'a> Series for TrackLines<'r, 'a> {
    type Item = TrackAtLines<'r, 'a>;

    ghost lines_left = { λ s. flat_map (track_lines s.uid) s.left.0.now };

    ghost left = { λ s. length s.left.0.now };

    fn next_item(&mut self) -> Option<TrackAtLines<'r, 'a>> {
        let track = self.left.next()?;
        Some(TrackAtLines(self.uid, track))
    }
}

/// A track of a package, or what the reference to it leads to.
#[derive(Clone, Copy)]
struct TrackAtLines<'r, 'a>([u8; 32], &'r TrackAt<'a>);

impl<'r, 'a> Lines for TrackAtLines<'r, 'a> {
    ghost lines = { λ t. track_lines t.0 t.1.now };

    fn print_to<W: Write>(self, printer: &mut Printer, writer: &mut W) -> Result<(), AnswerFault> {
        let TrackAtLines(uid, at) = self;
        let within = Within { uid, track: None };
        let Some(found) = &at.found else {
            let line = TargetLine {
                name: "track",
                first: "track -",
                target: at.target,
                within: Some(within),
            };
            return line.print_to(printer, writer);
        };
        let of_track = Within {
            uid,
            track: Some(found.track.id()),
        };
        let track = TrackLine {
            track: &found.track,
            sequence: &found.sequence.found,
            within,
        };
        let name = TextLines(of_track, Property::TrackName, found.track.name());
        let sequence = SequenceLines(of_track, &found.sequence);
        Then(track, Then(name, sequence)).print_to(printer, writer)
    }
}

/// The components of a sequence, or what the reference to it leads to.
#[derive(Clone, Copy)]
struct SequenceLines<'r>(Within, &'r SequenceAt);

impl<'r> Lines for SequenceLines<'r> {
    ghost lines = { λ s. sequence_lines_by s.0 s.1.now.target s.1.now.found };

    fn print_to<W: Write>(self, printer: &mut Printer, writer: &mut W) -> Result<(), AnswerFault> {
        let SequenceLines(within, at) = self;
        match &at.found {
            Some(found) => {
                let components = Lent(found.components.as_slice());
                Each(ComponentLines(within, components)).print_to(printer, writer)
            }
            None => named_target("sequence", at.target, Some(within)).print_to(printer, writer),
        }
    }
}

/// The lines of the components that are left of a sequence.
#[derive(Drop)]
struct ComponentLines<'r>(Within, Lent<'r, Component>);

impl<'r> Series for ComponentLines<'r> {
    type Item = ComponentAtLine<'r>;

    ghost lines_left = { λ s. component_lines s.0 s.1.0.now };

    ghost left = { λ s. length s.1.0.now };

    fn next_item(&mut self) -> Option<ComponentAtLine<'r>> {
        let component = self.1.next()?;
        Some(ComponentAtLine(self.0, component))
    }
}

/// A component, or what the reference to it leads to.
#[derive(Clone, Copy)]
struct ComponentAtLine<'r>(Within, &'r Component);

impl<'r> Lines for ComponentAtLine<'r> {
    ghost lines = { λ c. line_of_component c.0 c.1.now.start c.1.now.target c.1.now.part ∷ [] };

    fn print_to<W: Write>(self, printer: &mut Printer, writer: &mut W) -> Result<(), AnswerFault> {
        let ComponentAtLine(within, component) = self;
        let start = component.start;
        match &component.part {
            Some(Part::Clip(clip)) => ClipLine {
                start,
                clip,
                within,
            }
            .print_to(printer, writer),
            Some(Part::Timecode(timecode)) => TimecodeLine {
                start,
                timecode,
                within,
            }
            .print_to(printer, writer),
            Some(Part::Filler(filler)) => FillerLine {
                start,
                filler,
                within,
            }
            .print_to(printer, writer),
            None => ComponentLine {
                start,
                target: component.target,
                within,
            }
            .print_to(printer, writer),
        }
    }
}

/// The descriptor of a package, if it names one: what the reference to it leads to, and what it says.
#[derive(Clone, Copy)]
struct DescriptorLines<'r, 'a>(Within, &'r Option<DescriptorAt<'a>>);

impl<'r, 'a> Lines for DescriptorLines<'r, 'a> {
    ghost lines = { λ d. lines_where (descriptor_lines d.0) d.1.now };

    fn print_to<W: Write>(self, printer: &mut Printer, writer: &mut W) -> Result<(), AnswerFault> {
        let DescriptorLines(within, at) = self;
        let Some(at) = at else {
            return Ok(());
        };
        let target = named_target("descriptor", at.target, Some(within));
        Then(target, FoundDescriptorLines(within, &at.found)).print_to(printer, writer)
    }
}

/// What a descriptor says that is found, and those of its parts.
#[derive(Clone, Copy)]
struct FoundDescriptorLines<'r, 'a>(Within, &'r Option<FoundDescriptor<'a>>);

impl<'r, 'a> Lines for FoundDescriptorLines<'r, 'a> {
    ghost lines = { λ d. lines_where (found_descriptor_lines d.0) d.1.now };

    fn print_to<W: Write>(self, printer: &mut Printer, writer: &mut W) -> Result<(), AnswerFault> {
        let FoundDescriptorLines(within, found) = self;
        let Some(found) = found else {
            return Ok(());
        };
        let parts = SubdescriptorLines(within, Lent(found.subdescriptors.as_slice()));
        let essence = EssenceLines(within, &found.descriptor);
        Then(essence, Each(parts)).print_to(printer, writer)
    }
}

/// What a descriptor says of its essence.
#[derive(Clone, Copy)]
struct EssenceLines<'r, 'a>(Within, &'r Descriptor<'a>);

impl<'r, 'a> Lines for EssenceLines<'r, 'a> {
    ghost lines = { λ e. essence_lines e.0 e.1.now };

    fn print_to<W: Write>(self, printer: &mut Printer, writer: &mut W) -> Result<(), AnswerFault> {
        let EssenceLines(within, descriptor) = self;
        let essence = EssenceLine { descriptor, within };
        let picture = PictureLines(descriptor.picture(), within);
        let sound = SoundLines(descriptor.sound(), within);
        Then(essence, Then(picture, sound)).print_to(printer, writer)
    }
}

/// The lines of the descriptors of parts that are left.
#[derive(Drop)]
struct SubdescriptorLines<'r, 'a>(Within, Lent<'r, SubdescriptorAt<'a>>);

impl<'r, 'a> Series for SubdescriptorLines<'r, 'a> {
    type Item = SubdescriptorAtLines<'r, 'a>;

    ghost lines_left = { λ s. flat_map (subdescriptor_lines s.0) s.1.0.now };

    ghost left = { λ s. length s.1.0.now };

    fn next_item(&mut self) -> Option<SubdescriptorAtLines<'r, 'a>> {
        let part = self.1.next()?;
        Some(SubdescriptorAtLines(self.0, part))
    }
}

/// The descriptor of a part: what the reference to it leads to, and what it says.
#[derive(Clone, Copy)]
struct SubdescriptorAtLines<'r, 'a>(Within, &'r SubdescriptorAt<'a>);

impl<'r, 'a> Lines for SubdescriptorAtLines<'r, 'a> {
    ghost lines = { λ s. subdescriptor_lines s.0 s.1.now };

    fn print_to<W: Write>(self, printer: &mut Printer, writer: &mut W) -> Result<(), AnswerFault> {
        let SubdescriptorAtLines(within, at) = self;
        let target = TargetLine {
            name: "subdescriptor",
            first: "subdescriptor",
            target: at.target,
            within: Some(within),
        };
        Then(target, PartLines(within, &at.found)).print_to(printer, writer)
    }
}

/// What the descriptor of a part says, if it is found.
#[derive(Clone, Copy)]
struct PartLines<'r, 'a>(Within, &'r Option<Descriptor<'a>>);

impl<'r, 'a> Lines for PartLines<'r, 'a> {
    ghost lines = { λ p. lines_where (essence_lines p.0) p.1.now };

    fn print_to<W: Write>(self, printer: &mut Printer, writer: &mut W) -> Result<(), AnswerFault> {
        let PartLines(within, found) = self;
        match found {
            Some(descriptor) => EssenceLines(within, descriptor).print_to(printer, writer),
            None => Ok(()),
        }
    }
}

/// Whether a descriptor says something of the sizes of a picture.
fn has_size(picture: &PictureFields) -> bool
    ensures { result ≡ has_size picture.now }
{
    picture.stored_width.is_some()
        || picture.stored_height.is_some()
        || picture.display_width.is_some()
        || picture.display_height.is_some()
        || picture.frame_layout.is_some()
        || picture.aspect_ratio.is_some()
}

/// Whether a descriptor says something of a picture.
fn has_picture(picture: &PictureFields) -> bool
    ensures { result ≡ has_picture picture.now }
{
    has_size(picture)
        || picture.component_depth.is_some()
        || picture.horizontal_subsampling.is_some()
        || picture.vertical_subsampling.is_some()
        || picture.coding.is_some()
}

/// The line of a picture, if something is said of it.
#[derive(Clone, Copy)]
struct PictureLines(PictureFields, Within);

impl Lines for PictureLines {
    ghost lines = { λ p. picture_lines p.0 p.1 };

    fn print_to<W: Write>(self, printer: &mut Printer, writer: &mut W) -> Result<(), AnswerFault> {
        let PictureLines(picture, within) = self;
        if !has_picture(&picture) {
            return Ok(());
        }
        PictureLine { picture, within }.print_to(printer, writer)
    }
}

/// Whether a descriptor says something of a sound.
fn has_sound(sound: &SoundFields) -> bool
    ensures { result ≡ has_sound sound.now }
{
    sound.sampling_rate.is_some()
        || sound.channel_count.is_some()
        || sound.quantization_bits.is_some()
        || sound.coding.is_some()
}

/// The line of a sound, if something is said of it.
#[derive(Clone, Copy)]
struct SoundLines(SoundFields, Within);

impl Lines for SoundLines {
    ghost lines = { λ s. sound_lines s.0 s.1 };

    fn print_to<W: Write>(self, printer: &mut Printer, writer: &mut W) -> Result<(), AnswerFault> {
        let SoundLines(sound, within) = self;
        if !has_sound(&sound) {
            return Ok(());
        }
        SoundLine { sound, within }.print_to(printer, writer)
    }
}

/// How many packages are found.
fn found_packages(packages: &[PackageAt<'_>]) -> usize
    ensures { result ≡ length (found_packages packages.now) }
{
    packages
        .iter()
        .filter(|package| package.found.is_some())
        .count()
}

/// How many of these tracks are found.
fn count_found(tracks: &[TrackAt<'_>]) -> usize
    ensures { result ≡ length (filter (λ t. is_some t.found) tracks.now) }
{
    tracks.iter().filter(|track| track.found.is_some()).count()
}

/// How many tracks are found of a package, if it is found itself.
fn tracks_found(found: &Option<FoundPackage<'_>>) -> usize
    ensures { result ≡ length (tracks_found found.now) }
{
    match found {
        Some(found) => count_found(found.tracks.as_slice()),
        None => 0,
    }
}

/// How many tracks are found.
fn found_tracks(packages: &[PackageAt<'_>]) -> u128
    ensures { result ≡ length (found_tracks packages.now) }
{
    let mut count = 0u128;
    for one in packages {
        count += tracks_found(&one.found) as u128;
    }
    count
}

/// Whether a reference leads to what it names, or to a set of another key, which may stand there by right.
fn is_right(target: Target) -> bool
    ensures { result ≡ is_right target }
{
    matches!(target, Target::Found(_) | Target::Other(_))
}

/// Whether the references of a sequence to its components do, if it is found.
fn right_components(found: &Option<FoundSequence>) -> bool
    ensures { result ≡ right_components found.now }
{
    match found {
        Some(sequence) => all_components(sequence.components.as_slice()),
        None => true,
    }
}

fn all_components(components: &[Component]) -> bool
    ensures { result ≡ list_all (λ c. is_right c.target) components.now }
{
    components
        .iter()
        .all(|component| is_right(component.target))
}

/// Whether those of a track to its sequence and below do, if it is found.
fn right_sequence(found: &Option<FoundTrack<'_>>) -> bool
    ensures { result ≡ right_sequence found.now }
{
    match found {
        Some(track) => {
            is_right(track.sequence.target) && right_components(&track.sequence.found)
        }
        None => true,
    }
}

/// Whether those of a descriptor to those of its parts do, if it is found.
fn right_parts(found: &Option<FoundDescriptor<'_>>) -> bool
    ensures { result ≡ right_parts found.now }
{
    match found {
        Some(descriptor) => all_parts(descriptor.subdescriptors.as_slice()),
        None => true,
    }
}

fn all_parts(parts: &[SubdescriptorAt<'_>]) -> bool
    ensures { result ≡ list_all (λ s. is_right s.target) parts.now }
{
    parts.iter().all(|part| is_right(part.target))
}

/// Whether those of a package to its descriptor and below do, if it names one.
fn right_descriptor(named: &Option<DescriptorAt<'_>>) -> bool
    ensures { result ≡ right_descriptor named.now }
{
    match named {
        Some(descriptor) => is_right(descriptor.target) && right_parts(&descriptor.found),
        None => true,
    }
}

/// Whether those of a package to its tracks and below do.
fn all_tracks(tracks: &[TrackAt<'_>]) -> bool
    ensures { result ≡ list_all (λ t. is_right t.target && right_sequence t.found) tracks.now }
{
    tracks.iter().all(|track| is_right(track.target) && right_sequence(&track.found))
}

/// Whether those of a package do, if it is found.
fn right_tracks(found: &Option<FoundPackage<'_>>) -> bool
    ensures { result ≡ right_tracks found.now }
{
    match found {
        Some(package) => {
            all_tracks(package.tracks.as_slice()) && right_descriptor(&package.descriptor)
        }
        None => true,
    }
}

/// Whether all of a recording do.
fn all_right(packages: &[PackageAt<'_>]) -> bool
    ensures { result ≡ all_right packages.now }
{
    packages
        .iter()
        .all(|one| is_right(one.target) && right_tracks(&one.found))
}

/// Whether a copy is preferred and finished.
fn is_finished(copy: Option<CopyInfo>) -> bool
    ensures { result ≡ is_finished copy }
{
    copy.is_some_and(|copy| copy.finished)
}

/// Whether the storage is found, where a copy is preferred.
fn finds_storage(resolved: &Option<Resolved>) -> bool
    ensures { result ≡ finds_storage resolved.now }
{
    match resolved {
        Some(resolved) => match &resolved.storage {
            Some(storage) => lost_storage(storage.target).is_none(),
            None => false,
        },
        None => true,
    }
}
