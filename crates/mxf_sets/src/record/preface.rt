//! The Preface, the root of a file's header metadata (ST 377-1, Preface set).
ghost use Rattle.std.specs.Prelude.{◌≡◌};
ghost use Rattle.mxf_sets.specs.Instance.{instance_uid_at};
ghost use Rattle.mxf_sets.specs.Preface.{preface_at};

use super::values::required_identifier;
use super::{Field, FieldFault, INSTANCE_UID, References, Shape, read_fields};
use std::marker::Model;
use uuid::Uuid;

// The tags (ST 377-1, Preface set).
const CONTENT_STORAGE: u16 = 0x3B03;

const IDENTIFICATIONS: u16 = 0x3B06;

/// The fields that are read, in the order of testing.
#[rattlefmt::skip]
const FIELDS: [Field; 3] = [
    Field { tag: INSTANCE_UID, shape: Shape::Exactly(16), required: true },
    Field { tag: CONTENT_STORAGE, shape: Shape::Exactly(16), required: true },
    Field { tag: IDENTIFICATIONS, shape: Shape::References, required: false },
];

/// The Preface of a file (ST 377-1, Preface set): the set that all others of the header metadata hang on.
///
/// It names the content storage, under which the packages stand, and the identifications of the programs that wrote the
/// file. So a reader begins here, and a copy of the header metadata without its Preface leads nowhere.
#[derive(Debug, Drop)]
pub struct Preface<'a> {
    instance_uid: Uuid,
    content_storage: Uuid,
    identifications: References<'a>,
}

impl<'a> Model for Preface<'a> {
    ghost use Rattle.mxf_sets.specs.Preface.{PrefaceParts};

    ghost Value = { PrefaceParts };

    ghost view = { λ p. record {
      instance_uid = p.instance_uid;
      content_storage = p.content_storage;
      identifications = p.identifications;
    } };
}

impl<'a> Preface<'a> {
    /// Reads the value of a Preface set. The content storage has to be there; the identifications may be absent.
    pub fn read(value: &'a [u8]) -> Result<Preface<'a>, FieldFault>
        ensures { result ≡ preface_at value.now }
    {
        let items = read_fields(value, &FIELDS)?;
        Ok(Preface {
            instance_uid: required_identifier(&items, INSTANCE_UID),
            content_storage: required_identifier(&items, CONTENT_STORAGE),
            identifications: References::of(&items, IDENTIFICATIONS),
        })
    }

    /// The identifier of this set.
    pub fn instance_uid(&self) -> Uuid
        ensures { result ≡ self.now.instance_uid }
    {
        self.instance_uid
    }

    /// The reference to the ContentStorage.
    pub fn content_storage(&self) -> Uuid
        ensures { result ≡ self.now.content_storage }
    {
        self.content_storage
    }

    /// The references to the Identifications, one for each program that wrote the file, in order.
    pub fn identifications(&self) -> References<'a>
        ensures { result ≡ self.now.identifications }
    {
        self.identifications.again()
    }
}
