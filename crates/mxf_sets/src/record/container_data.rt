//! Which streams hold the essence of a package (ST 377-1, Essence Container Data set).
ghost use Rattle.std.specs.Prelude.{◌≡◌};
ghost use Rattle.mxf_sets.specs.ContainerData.{container_data_at};

use super::values::{optional_u32, required_identifier, required_thirty_two};
use super::{Field, FieldFault, INSTANCE_UID, Shape, read_fields};
use std::marker::Model;
use uuid::Uuid;

// The tags (ST 377-1, Essence Container Data set).
const LINKED_PACKAGE: u16 = 0x2701;

const INDEX_SID: u16 = 0x3F06;

const BODY_SID: u16 = 0x3F07;

/// The fields that are read, in the order of testing.
#[rattlefmt::skip]
const FIELDS: [Field; 4] = [
    Field { tag: INSTANCE_UID, shape: Shape::Exactly(16), required: true },
    Field { tag: LINKED_PACKAGE, shape: Shape::Exactly(32), required: true },
    Field { tag: INDEX_SID, shape: Shape::Exactly(4), required: false },
    Field { tag: BODY_SID, shape: Shape::Exactly(4), required: false },
];

/// What ties a package to its essence in the file (ST 377-1, Essence Container Data set): the stream of the essence and
/// that of its index.
#[derive(Debug, Drop)]
pub struct EssenceContainerData {
    instance_uid: Uuid,
    linked_package: [u8; 32],
    index_sid: u32,
    body_sid: u32,
}

impl Model for EssenceContainerData {
    ghost use Rattle.mxf_sets.specs.ContainerData.{ContainerDataParts};

    ghost Value = { ContainerDataParts };

    ghost view = { λ r. record {
      instance_uid = r.instance_uid;
      linked_package = r.linked_package;
      index_sid = r.index_sid;
      body_sid = r.body_sid;
    } };
}

impl EssenceContainerData {
    /// Reads the value of an Essence Container Data set. The package has to be there.
    pub fn read(value: &[u8]) -> Result<EssenceContainerData, FieldFault>
        ensures { result ≡ container_data_at value.now }
    {
        let items = read_fields(value, &FIELDS)?;
        Ok(EssenceContainerData {
            instance_uid: required_identifier(&items, INSTANCE_UID),
            linked_package: required_thirty_two(&items, LINKED_PACKAGE),
            index_sid: optional_u32(&items, INDEX_SID),
            body_sid: optional_u32(&items, BODY_SID),
        })
    }

    /// The identifier of this set.
    pub fn instance_uid(&self) -> Uuid
        ensures { result ≡ self.now.instance_uid }
    {
        self.instance_uid
    }

    /// The identifier of the package whose essence it is.
    pub fn linked_package(&self) -> [u8; 32]
        ensures { result ≡ self.now.linked_package }
    {
        self.linked_package
    }

    /// The identifier of the index's stream (IndexSID); 0, none, if it isn't there.
    pub fn index_sid(&self) -> u32
        ensures { result ≡ self.now.index_sid }
    {
        self.index_sid
    }

    /// The identifier of the essence's stream (BodySID); 0, none, if it isn't there.
    pub fn body_sid(&self) -> u32
        ensures { result ≡ self.now.body_sid }
    {
        self.body_sid
    }
}
