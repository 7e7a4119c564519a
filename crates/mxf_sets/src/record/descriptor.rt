//! Descriptors of essence (ST 377-1, File Descriptor sets).
ghost use Rattle.std.specs.Prelude.{◌≡◌};
ghost use Rattle.std.specs.List.{AllByRecursion};
ghost use Rattle.mxf_sets.specs.Descriptor.{descriptor_at, descriptor_fields, picture_of, sound_of};
ghost use Rattle.mxf_sets.specs.Fields.{Passes};

use super::values::{
    duration, optional_sixteen, required_identifier, some_rate, some_u8, some_u32,
};
use super::{Field, FieldFault, INSTANCE_UID, Rate, References, Shape, read_fields};
use crate::Items;
use std::marker::Model;
use uuid::Uuid;

// The tags (ST 377-1, File Descriptor, Generic Picture and Generic Sound Essence Descriptor, Multiple Descriptor sets).
const LINKED_TRACK: u16 = 0x3006;

const SAMPLE_RATE: u16 = 0x3001;

const DURATION: u16 = 0x3002;

const CONTAINER: u16 = 0x3004;

const STORED_WIDTH: u16 = 0x3203;

const STORED_HEIGHT: u16 = 0x3202;

const DISPLAY_WIDTH: u16 = 0x3209;

const DISPLAY_HEIGHT: u16 = 0x3208;

const FRAME_LAYOUT: u16 = 0x320C;

const ASPECT_RATIO: u16 = 0x320E;

const PICTURE_CODING: u16 = 0x3201;

const COMPONENT_DEPTH: u16 = 0x3301;

const HORIZONTAL_SUBSAMPLING: u16 = 0x3302;

const VERTICAL_SUBSAMPLING: u16 = 0x3308;

const AUDIO_RATE: u16 = 0x3D03;

const CHANNEL_COUNT: u16 = 0x3D07;

const QUANTIZATION_BITS: u16 = 0x3D01;

const SOUND_CODING: u16 = 0x3D06;

const SUBDESCRIPTORS: u16 = 0x3F01;

/// The fields that are read, in the order of testing.
#[rattlefmt::skip]
const FIELDS: [Field; 20] = [
    Field { tag: INSTANCE_UID, shape: Shape::Exactly(16), required: true },
    Field { tag: LINKED_TRACK, shape: Shape::Exactly(4), required: false },
    Field { tag: SAMPLE_RATE, shape: Shape::Exactly(8), required: false },
    Field { tag: DURATION, shape: Shape::Exactly(8), required: false },
    Field { tag: CONTAINER, shape: Shape::Exactly(16), required: false },
    Field { tag: STORED_WIDTH, shape: Shape::Exactly(4), required: false },
    Field { tag: STORED_HEIGHT, shape: Shape::Exactly(4), required: false },
    Field { tag: DISPLAY_WIDTH, shape: Shape::Exactly(4), required: false },
    Field { tag: DISPLAY_HEIGHT, shape: Shape::Exactly(4), required: false },
    Field { tag: FRAME_LAYOUT, shape: Shape::Exactly(1), required: false },
    Field { tag: ASPECT_RATIO, shape: Shape::Exactly(8), required: false },
    Field { tag: PICTURE_CODING, shape: Shape::Exactly(16), required: false },
    Field { tag: COMPONENT_DEPTH, shape: Shape::Exactly(4), required: false },
    Field { tag: HORIZONTAL_SUBSAMPLING, shape: Shape::Exactly(4), required: false },
    Field { tag: VERTICAL_SUBSAMPLING, shape: Shape::Exactly(4), required: false },
    Field { tag: AUDIO_RATE, shape: Shape::Exactly(8), required: false },
    Field { tag: CHANNEL_COUNT, shape: Shape::Exactly(4), required: false },
    Field { tag: QUANTIZATION_BITS, shape: Shape::Exactly(4), required: false },
    Field { tag: SOUND_CODING, shape: Shape::Exactly(16), required: false },
    Field { tag: SUBDESCRIPTORS, shape: Shape::References, required: false },
];

/// What a descriptor says of a picture (ST 377-1, Generic Picture Essence Descriptor); each field may be absent.
#[derive(Clone, Copy, Debug, PartialEq, Eq)]
pub struct PictureFields {
    /// The width of what is stored, in pixels.
    pub stored_width: Option<u32>,
    /// The height of what is stored, of a field where fields are apart, in lines.
    pub stored_height: Option<u32>,
    /// The width of what is shown, in pixels.
    pub display_width: Option<u32>,
    /// The height of what is shown, in lines.
    pub display_height: Option<u32>,
    /// How lines lie in the picture, as stored: 0 whole pictures, 1 fields apart, 3 fields mixed.
    pub frame_layout: Option<u8>,
    /// Width over height of what is shown.
    pub aspect_ratio: Option<Rate>,
    /// The label of the coding.
    pub coding: Option<[u8; 16]>,
    /// The bits of a sample.
    pub component_depth: Option<u32>,
    /// Samples of luminance across for each of colour.
    pub horizontal_subsampling: Option<u32>,
    /// Samples of luminance down for each of colour.
    pub vertical_subsampling: Option<u32>,
}

/// What a descriptor says of a sound (ST 377-1, Generic Sound Essence Descriptor); each field may be absent.
#[derive(Clone, Copy, Debug, PartialEq, Eq)]
pub struct SoundFields {
    /// Samples a second.
    pub sampling_rate: Option<Rate>,
    /// The number of channels.
    pub channel_count: Option<u32>,
    /// The bits of a sample.
    pub quantization_bits: Option<u32>,
    /// The label of the coding.
    pub coding: Option<[u8; 16]>,
}

impl PictureFields {
    /// The fields in items that have met the table.
    fn of(items: &Items<'_>) -> PictureFields
        requires { AllByRecursion (Passes items.now) descriptor_fields }
        ensures { result ≡ picture_of items.now }
    {
        PictureFields {
            stored_width: some_u32(items, STORED_WIDTH),
            stored_height: some_u32(items, STORED_HEIGHT),
            display_width: some_u32(items, DISPLAY_WIDTH),
            display_height: some_u32(items, DISPLAY_HEIGHT),
            frame_layout: some_u8(items, FRAME_LAYOUT),
            aspect_ratio: some_rate(items, ASPECT_RATIO),
            coding: optional_sixteen(items, PICTURE_CODING),
            component_depth: some_u32(items, COMPONENT_DEPTH),
            horizontal_subsampling: some_u32(items, HORIZONTAL_SUBSAMPLING),
            vertical_subsampling: some_u32(items, VERTICAL_SUBSAMPLING),
        }
    }
}

impl SoundFields {
    /// The fields in items that have met the table.
    fn of(items: &Items<'_>) -> SoundFields
        requires { AllByRecursion (Passes items.now) descriptor_fields }
        ensures { result ≡ sound_of items.now }
    {
        SoundFields {
            sampling_rate: some_rate(items, AUDIO_RATE),
            channel_count: some_u32(items, CHANNEL_COUNT),
            quantization_bits: some_u32(items, QUANTIZATION_BITS),
            coding: optional_sixteen(items, SOUND_CODING),
        }
    }
}

/// A descriptor of the essence of a package (ST 377-1, File Descriptor): its container, and of a picture or a sound
/// what it says of it.
///
/// Each kind of essence has a set of its own, of the same fields where they mean the same; so any set can be read as a
/// descriptor. Where essences of several tracks are interleaved, a Multiple Descriptor refers to one descriptor each.
#[derive(Debug, Drop)]
pub struct Descriptor<'a> {
    instance_uid: Uuid,
    linked_track: Option<u32>,
    sample_rate: Option<Rate>,
    duration: Option<u64>,
    essence_container: Option<[u8; 16]>,
    picture: PictureFields,
    sound: SoundFields,
    subdescriptors: References<'a>,
}

impl<'a> Model for Descriptor<'a> {
    ghost use Rattle.mxf_sets.specs.Descriptor.{DescriptorParts};

    ghost Value = { DescriptorParts };

    ghost view = { λ r. record {
      instance_uid = r.instance_uid;
      linked_track = r.linked_track;
      sample_rate = r.sample_rate;
      duration = r.duration;
      essence_container = r.essence_container;
      picture = r.picture;
      sound = r.sound;
      subdescriptors = r.subdescriptors;
    } };
}

impl<'a> Descriptor<'a> {
    /// Reads the value of a descriptor, or of any set as one. All fields but the instance identifier may be absent.
    pub fn read(value: &'a [u8]) -> Result<Descriptor<'a>, FieldFault>
        ensures { result ≡ descriptor_at value.now }
    {
        let items = read_fields(value, &FIELDS)?;
        Ok(Descriptor {
            instance_uid: required_identifier(&items, INSTANCE_UID),
            linked_track: some_u32(&items, LINKED_TRACK),
            sample_rate: some_rate(&items, SAMPLE_RATE),
            duration: duration(&items, DURATION),
            essence_container: optional_sixteen(&items, CONTAINER),
            picture: PictureFields::of(&items),
            sound: SoundFields::of(&items),
            subdescriptors: References::of(&items, SUBDESCRIPTORS),
        })
    }

    /// The identifier of this set.
    pub fn instance_uid(&self) -> Uuid
        ensures { result ≡ self.now.instance_uid }
    {
        self.instance_uid
    }

    /// The identifier of the track of the package that it describes.
    pub fn linked_track(&self) -> Option<u32>
        ensures { result ≡ self.now.linked_track }
    {
        self.linked_track
    }

    /// Samples a second, most often edit units.
    pub fn sample_rate(&self) -> Option<Rate>
        ensures { result ≡ self.now.sample_rate }
    {
        self.sample_rate
    }

    /// The duration of the essence container in samples. None if it isn't there or negative.
    pub fn duration(&self) -> Option<u64>
        ensures { result ≡ self.now.duration }
    {
        self.duration
    }

    /// The label of the essence container.
    pub fn essence_container(&self) -> Option<[u8; 16]>
        ensures { result ≡ self.now.essence_container }
    {
        self.essence_container
    }

    /// What it says of a picture.
    pub fn picture(&self) -> PictureFields
        ensures { result ≡ self.now.picture }
    {
        self.picture
    }

    /// What it says of a sound.
    pub fn sound(&self) -> SoundFields
        ensures { result ≡ self.now.sound }
    {
        self.sound
    }

    /// The references to the descriptors of its parts, in order; none if it names none.
    pub fn subdescriptors(&self) -> References<'a>
        ensures { result ≡ self.now.subdescriptors }
    {
        self.subdescriptors.again()
    }
}
