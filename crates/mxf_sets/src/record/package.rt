//! Packages of both kinds (ST 377-1, Material Package and Source Package sets).
ghost use Rattle.std.specs.Prelude.{◌≡◌};
ghost use Rattle.std.specs.Option.{option_map};
ghost use Rattle.mxf_sets.specs.Package.{package_at};

use super::values::{
    optional_identifier, optional_timestamp, required_identifier, required_thirty_two,
};
use super::{Field, FieldFault, INSTANCE_UID, References, Shape, Timestamp, read_fields};
use std::marker::Model;
use uuid::Uuid;

// The tags (ST 377-1, Generic Package set).
const PACKAGE_UID: u16 = 0x4401;

const NAME: u16 = 0x4402;

const CREATION_DATE: u16 = 0x4405;

const MODIFIED_DATE: u16 = 0x4404;

const TRACKS: u16 = 0x4403;

const DESCRIPTOR: u16 = 0x4701;

/// The fields that are read, in the order of testing.
#[rattlefmt::skip]
const FIELDS: [Field; 7] = [
    Field { tag: INSTANCE_UID, shape: Shape::Exactly(16), required: true },
    Field { tag: PACKAGE_UID, shape: Shape::Exactly(32), required: true },
    Field { tag: NAME, shape: Shape::Any, required: false },
    Field { tag: CREATION_DATE, shape: Shape::Exactly(8), required: false },
    Field { tag: MODIFIED_DATE, shape: Shape::Exactly(8), required: false },
    Field { tag: TRACKS, shape: Shape::References, required: false },
    Field { tag: DESCRIPTOR, shape: Shape::Exactly(16), required: false },
];

/// A package, material or source (ST 377-1, Material Package and Source Package sets).
///
/// A material package is what a viewer is to see: the programme, put together from tracks. A source package is what
/// there is: the essence in this file, or the tape or file that it came from. Tracks of the one refer to tracks of the
/// other. The package identifier (ST 330, UMID) is the same wherever the package is copied.
///
/// The name is the bytes of its item, for [`text`](crate::text).
#[derive(Debug, Drop)]
pub struct Package<'a> {
    instance_uid: Uuid,
    package_uid: [u8; 32],
    name: Option<&'a [u8]>,
    creation_date: Option<Timestamp>,
    modified_date: Option<Timestamp>,
    tracks: References<'a>,
    descriptor: Option<Uuid>,
}

impl<'a> Model for Package<'a> {
    ghost use Rattle.std.specs.Option.{option_map};
    ghost use Rattle.mxf_sets.specs.Package.{PackageParts};

    ghost Value = { PackageParts };

    ghost view = { λ p. record {
      instance_uid = p.instance_uid;
      package_uid = p.package_uid;
      name = option_map (λ v. v.now) p.name;
      creation_date = p.creation_date;
      modified_date = p.modified_date;
      tracks = p.tracks;
      descriptor = p.descriptor;
    } };
}

impl<'a> Package<'a> {
    /// Reads the value of a Material Package or Source Package set. The package identifier has to be there; the
    /// descriptor is read of either kind.
    pub fn read(value: &'a [u8]) -> Result<Package<'a>, FieldFault>
        ensures { result ≡ package_at value.now }
    {
        let items = read_fields(value, &FIELDS)?;
        Ok(Package {
            instance_uid: required_identifier(&items, INSTANCE_UID),
            package_uid: required_thirty_two(&items, PACKAGE_UID),
            name: items.first(NAME),
            creation_date: optional_timestamp(&items, CREATION_DATE),
            modified_date: optional_timestamp(&items, MODIFIED_DATE),
            tracks: References::of(&items, TRACKS),
            descriptor: optional_identifier(&items, DESCRIPTOR),
        })
    }

    /// The identifier of this set.
    pub fn instance_uid(&self) -> Uuid
        ensures { result ≡ self.now.instance_uid }
    {
        self.instance_uid
    }

    /// The identifier of the package (ST 330, basic UMID), thirty-two bytes.
    pub fn package_uid(&self) -> [u8; 32]
        ensures { result ≡ self.now.package_uid }
    {
        self.package_uid
    }

    /// The name of the package, a text in UTF-16.
    pub fn name(&self) -> Option<&'a [u8]>
        ensures { option_map (λ v. v.now) result ≡ self.now.name }
    {
        self.name
    }

    /// When the package was made.
    pub fn creation_date(&self) -> Option<Timestamp>
        ensures { result ≡ self.now.creation_date }
    {
        self.creation_date
    }

    /// When the package was last changed.
    pub fn modified_date(&self) -> Option<Timestamp>
        ensures { result ≡ self.now.modified_date }
    {
        self.modified_date
    }

    /// The references to the tracks, in order; none if the package names none.
    pub fn tracks(&self) -> References<'a>
        ensures { result ≡ self.now.tracks }
    {
        self.tracks.again()
    }

    /// The reference to the descriptor of the essence.
    pub fn descriptor(&self) -> Option<Uuid>
        ensures { result ≡ self.now.descriptor }
    {
        self.descriptor
    }
}
