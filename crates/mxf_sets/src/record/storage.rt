//! The ContentStorage, which lists a file's packages (ST 377-1, Content Storage set).
ghost use Rattle.std.specs.Prelude.{◌≡◌};
ghost use Rattle.mxf_sets.specs.Storage.{storage_at};

use super::values::required_identifier;
use super::{Field, FieldFault, INSTANCE_UID, References, Shape, read_fields};
use std::marker::Model;
use uuid::Uuid;

// The tag (ST 377-1, Content Storage set).
const PACKAGES: u16 = 0x1901;

/// The fields that are read, in the order of testing.
#[rattlefmt::skip]
const FIELDS: [Field; 2] = [
    Field { tag: INSTANCE_UID, shape: Shape::Exactly(16), required: true },
    Field { tag: PACKAGES, shape: Shape::References, required: true },
];

/// The ContentStorage of a file (ST 377-1, Content Storage set): the packages that the file names.
///
/// One of them is the material package, what the file plays; the others are the packages that it is made from, whether
/// their essence is in this file or not.
#[derive(Debug, Drop)]
pub struct ContentStorage<'a> {
    instance_uid: Uuid,
    packages: References<'a>,
}

impl<'a> Model for ContentStorage<'a> {
    ghost use Rattle.mxf_sets.specs.Storage.{StorageParts};

    ghost Value = { StorageParts };

    ghost view = { λ s. record { instance_uid = s.instance_uid; packages = s.packages } };
}

impl<'a> ContentStorage<'a> {
    /// Reads the value of a Content Storage set. The packages have to be there.
    pub fn read(value: &'a [u8]) -> Result<ContentStorage<'a>, FieldFault>
        ensures { result ≡ storage_at value.now }
    {
        let items = read_fields(value, &FIELDS)?;
        Ok(ContentStorage {
            instance_uid: required_identifier(&items, INSTANCE_UID),
            packages: References::of(&items, PACKAGES),
        })
    }

    /// The identifier of this set.
    pub fn instance_uid(&self) -> Uuid
        ensures { result ≡ self.now.instance_uid }
    {
        self.instance_uid
    }

    /// The references to the packages, in order.
    pub fn packages(&self) -> References<'a>
        ensures { result ≡ self.now.packages }
    {
        self.packages.again()
    }
}
