//! Identifications, each of which names a program that wrote a file (ST 377-1, Identification set).
ghost use Rattle.std.specs.Prelude.{◌≡◌};
ghost use Rattle.std.specs.Option.{option_map};
ghost use Rattle.mxf_sets.specs.Identification.{identification_at};

use super::values::{
    optional_identifier, optional_sixteen, optional_timestamp, required_identifier,
};
use super::{Field, FieldFault, INSTANCE_UID, Shape, Timestamp, read_fields};
use std::marker::Model;
use uuid::Uuid;

// The tags (ST 377-1, Identification set).
const THIS_GENERATION_UID: u16 = 0x3C09;

const COMPANY_NAME: u16 = 0x3C01;

const PRODUCT_NAME: u16 = 0x3C02;

const VERSION_STRING: u16 = 0x3C04;

const PRODUCT_UID: u16 = 0x3C05;

const MODIFICATION_DATE: u16 = 0x3C06;

/// The fields that are read, in the order of testing.
#[rattlefmt::skip]
const FIELDS: [Field; 7] = [
    Field { tag: INSTANCE_UID, shape: Shape::Exactly(16), required: true },
    Field { tag: THIS_GENERATION_UID, shape: Shape::Exactly(16), required: false },
    Field { tag: COMPANY_NAME, shape: Shape::Any, required: false },
    Field { tag: PRODUCT_NAME, shape: Shape::Any, required: false },
    Field { tag: VERSION_STRING, shape: Shape::Any, required: false },
    Field { tag: PRODUCT_UID, shape: Shape::Exactly(16), required: false },
    Field { tag: MODIFICATION_DATE, shape: Shape::Exactly(8), required: false },
];

/// The Identification of a program that wrote or changed a file (ST 377-1, Identification set).
///
/// Each program that modifies the header metadata adds one, so the list of a file's identifications is its history: who
/// wrote it, with which version, and when. Texts are the bytes of their items, for [`text`](crate::text).
#[derive(Debug, Drop)]
pub struct Identification<'a> {
    instance_uid: Uuid,
    this_generation_uid: Option<Uuid>,
    company_name: Option<&'a [u8]>,
    product_name: Option<&'a [u8]>,
    version_string: Option<&'a [u8]>,
    product_uid: Option<[u8; 16]>,
    modification_date: Option<Timestamp>,
}

impl<'a> Model for Identification<'a> {
    ghost use Rattle.std.specs.Option.{option_map};
    ghost use Rattle.mxf_sets.specs.Identification.{IdentificationParts};

    ghost Value = { IdentificationParts };

    ghost view = { λ p. record {
      instance_uid = p.instance_uid;
      this_generation_uid = p.this_generation_uid;
      company_name = option_map (λ v. v.now) p.company_name;
      product_name = option_map (λ v. v.now) p.product_name;
      version_string = option_map (λ v. v.now) p.version_string;
      product_uid = p.product_uid;
      modification_date = p.modification_date;
    } };
}

impl<'a> Identification<'a> {
    /// Reads the value of an Identification set. All fields but the instance identifier may be absent.
    pub fn read(value: &'a [u8]) -> Result<Identification<'a>, FieldFault>
        ensures { result ≡ identification_at value.now }
    {
        let items = read_fields(value, &FIELDS)?;
        Ok(Identification {
            instance_uid: required_identifier(&items, INSTANCE_UID),
            this_generation_uid: optional_identifier(&items, THIS_GENERATION_UID),
            company_name: items.first(COMPANY_NAME),
            product_name: items.first(PRODUCT_NAME),
            version_string: items.first(VERSION_STRING),
            product_uid: optional_sixteen(&items, PRODUCT_UID),
            modification_date: optional_timestamp(&items, MODIFICATION_DATE),
        })
    }

    /// The identifier of this set.
    pub fn instance_uid(&self) -> Uuid
        ensures { result ≡ self.now.instance_uid }
    {
        self.instance_uid
    }

    /// The identifier of this state of the file, which the sets that were written then name.
    pub fn this_generation_uid(&self) -> Option<Uuid>
        ensures { result ≡ self.now.this_generation_uid }
    {
        self.this_generation_uid
    }

    /// The maker of the program, a text in UTF-16.
    pub fn company_name(&self) -> Option<&'a [u8]>
        ensures { option_map (λ v. v.now) result ≡ self.now.company_name }
    {
        self.company_name
    }

    /// The name of the program, a text in UTF-16.
    pub fn product_name(&self) -> Option<&'a [u8]>
        ensures { option_map (λ v. v.now) result ≡ self.now.product_name }
    {
        self.product_name
    }

    /// The version of the program, a text in UTF-16.
    pub fn version_string(&self) -> Option<&'a [u8]>
        ensures { option_map (λ v. v.now) result ≡ self.now.version_string }
    {
        self.version_string
    }

    /// The identifier of the program, sixteen bytes.
    pub fn product_uid(&self) -> Option<[u8; 16]>
        ensures { result ≡ self.now.product_uid }
    {
        self.product_uid
    }

    /// When the file was written.
    pub fn modification_date(&self) -> Option<Timestamp>
        ensures { result ≡ self.now.modification_date }
    {
        self.modification_date
    }
}
