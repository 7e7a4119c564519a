//! The instance identifiers of header metadata sets (ST 377-1, Interchange Object).
ghost use Rattle.std.specs.Prelude.{◌≡◌};
ghost use Rattle.mxf_sets.specs.Instance.{instance_uid_at};

use super::values::required_identifier;
use super::{Field, FieldFault, INSTANCE_UID, Shape, read_fields};
use uuid::Uuid;

/// The fields that are read, in the order of testing.
#[rattlefmt::skip]
const FIELDS: [Field; 1] = [
    Field { tag: INSTANCE_UID, shape: Shape::Exactly(16), required: true },
];

/// The instance identifier of a header metadata set of any kind, by the set's value. Other tags aren't looked at.
pub fn instance_uid(value: &[u8]) -> Result<Uuid, FieldFault>
    ensures { result ≡ instance_uid_at value.now }
{
    let items = read_fields(value, &FIELDS)?;
    Ok(required_identifier(&items, INSTANCE_UID))
}
