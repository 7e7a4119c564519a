//! Header metadata sets (ST 377-1, structural metadata) as records: a table names a set's fields, and the check of the
//! set's items under the table comes before any field is taken.
ghost use Rattle.std.specs.Prelude.{◌≡◌, ◌↔◌, ℕ, List, Ok, true, IfOk, OnOk};
ghost use Rattle.std.specs.List.{AllByRecursion};
ghost use Rattle.mxf_klv.specs.Bytes.{AreBytes};
ghost use Rattle.mxf_sets.specs.Batch.{BatchParts, HasItemsOf, IsBatch};
ghost use Rattle.mxf_sets.specs.Faults.{set_fault};
ghost use Rattle.mxf_sets.specs.Fields.{Meets, Passes, checked, fields_at, first_tag, has_shape, is_batch, is_missing};
ghost use Rattle.mxf_sets.specs.Fields.{is_repeated, is_wrong};
ghost use Rattle.mxf_sets.specs.Items.{AreItems, IsItem, ItemParts};
ghost use Rattle.mxf_sets.specs.declared.record.Field.{Field};

mod clip;
mod container_data;
mod descriptor;
mod filler;
mod identification;
mod instance;
mod package;
mod preface;
mod rate;
mod references;
mod sequence;
mod storage;
mod timecode;
mod timestamp;
mod track;
mod values;

use crate::batch::is_batch;
use crate::{Items, SetFault, items};
pub use clip::SourceClip;
pub use container_data::EssenceContainerData;
pub use descriptor::{Descriptor, PictureFields, SoundFields};
pub use filler::Filler;
pub use identification::Identification;
pub use instance::instance_uid;
pub use package::Package;
pub use preface::Preface;
pub use rate::Rate;
pub use references::{References, references_are_the_items_of_their_batch};
pub use sequence::Sequence;
pub use storage::ContentStorage;
use thiserror::Error;
pub use timecode::TimecodeComponent;
pub use timestamp::Timestamp;
pub use track::Track;
pub(crate) use values::{optional_u8, optional_u32, required_value};

/// The tag of the instance identifier, which each header metadata set has.
const INSTANCE_UID: u16 = 0x3C0A;

/// What the value of a field has to be.
#[derive(Clone, Copy)]
pub(crate) enum Shape {
    /// This many bytes.
    Exactly(usize),
    /// A batch of references, sixteen bytes each.
    References,
    /// Any bytes.
    Any,
}

/// A field of a set.
#[derive(Clone, Copy)]
pub(crate) struct Field {
    pub(crate) tag: u16,
    pub(crate) shape: Shape,
    pub(crate) required: bool,
}

/// Why a value is no record. Each cause is tested over all tags that the record reads, in their order, before the next
/// cause; tags that it doesn't read may repeat.
#[derive(Clone, Copy, Debug, PartialEq, Eq, Error)]
pub enum FieldFault {
    /// The tag, length or value of the item at this position isn't whole.
    #[error("the item at {0} is cut")]
    Set(usize),
    /// More than one item has this tag.
    #[error("the tag {0:04x} is repeated")]
    RepeatedTag(u16),
    /// No item has this tag, which has to be there.
    #[error("the tag {0:04x} is missing")]
    Missing(u16),
    /// The value of this tag has another width, or is no batch of references.
    #[error("the value of the tag {0:04x} has another width")]
    WrongWidth(u16),
}

impl From<SetFault> for FieldFault {
    ghost from_gives = { λ s f. f ≡ set_fault s };

    fn from(fault: SetFault) -> FieldFault {
        match fault {
            SetFault::CutItem(position) => FieldFault::Set(position),
        }
    }
}

impl Shape {
    fn has_shape(self, value: &[u8]) -> bool
        ensures { result ≡ has_shape self value.now }
    {
        match self {
            Shape::Exactly(n) => value.len() == n,
            Shape::References => is_batch(16, value),
            Shape::Any => true,
        }
    }
}

fn is_repeated(items: &Items<'_>, field: &Field) -> bool
    ensures { result ≡ is_repeated items.now field.now }
{
    items.only(field.tag).is_err()
}

fn is_missing(items: &Items<'_>, field: &Field) -> bool
    ensures { result ≡ is_missing items.now field.now }
{
    field.required && items.first(field.tag).is_none()
}

fn is_wrong(items: &Items<'_>, field: &Field) -> bool
    ensures { result ≡ is_wrong items.now field.now }
{
    match items.first(field.tag) {
        Some(value) => !field.shape.has_shape(value),
        None => false,
    }
}

/// The first tag of the table that more than one item has.
fn first_repeated(items: &Items<'_>, fields: &[Field]) -> Option<u16>
    ensures { result ≡ first_tag (is_repeated items.now) fields.now }
{
    fields
        .iter()
        .find(|field| is_repeated(items, field))
        .map(|field| field.tag)
}

/// The first tag of the table that has to be there and isn't.
fn first_missing(items: &Items<'_>, fields: &[Field]) -> Option<u16>
    ensures { result ≡ first_tag (is_missing items.now) fields.now }
{
    fields
        .iter()
        .find(|field| is_missing(items, field))
        .map(|field| field.tag)
}

/// The first tag of the table whose value doesn't have its shape.
fn first_wrong(items: &Items<'_>, fields: &[Field]) -> Option<u16>
    ensures { result ≡ first_tag (is_wrong items.now) fields.now }
{
    fields
        .iter()
        .find(|field| is_wrong(items, field))
        .map(|field| field.tag)
}

/// Whether the items meet the table. Each cause is sought over the whole table before the next.
fn check(items: &Items<'_>, fields: &[Field]) -> Result<(), FieldFault>
    ensures fault { result ≡ checked fields.now items.now tt }
    ensures passes { OnOk result (AllByRecursion (Passes items.now) fields.now) }
{
    if let Some(tag) = first_repeated(items, fields) {
        return Err(FieldFault::RepeatedTag(tag));
    }
    if let Some(tag) = first_missing(items, fields) {
        return Err(FieldFault::Missing(tag));
    }
    if let Some(tag) = first_wrong(items, fields) {
        return Err(FieldFault::WrongWidth(tag));
    }
    Ok(())
}

/// The items of a value, if they are whole and meet the table.
pub(crate) fn read_fields<'a>(value: &'a [u8], fields: &[Field]) -> Result<Items<'a>, FieldFault>
    ensures value { result ≡ fields_at fields.now value.now }
    ensures passes { IfOk result (λ items. AllByRecursion (Passes items) fields.now) }
    ensures small { IfOk result (λ items. AllByRecursion IsItem items) }
{
    let items = items(value)?;
    check(&items, fields)?;
    Ok(items)
}

/// A law of the readers of records and of [`Segment::read`](crate::Segment::read): the items of a value are read under
/// a table of fields exactly if they make up the value and meet each field of the table.
pub fn records_are_read_where_their_fields_are_met()
    ensures { (fields : List Field) (bytes : List ℕ) (items : List ItemParts) → AreBytes bytes
        → (fields_at fields bytes ≡ Ok items) ↔ (AreItems bytes items × AllByRecursion (Meets items) fields) }
{}

/// A law of the fields whose value is a batch: the test of their shape passes exactly the batches of items of that
/// size.
pub fn batch_fields_are_batches()
    ensures { (size : ℕ) (bytes : List ℕ) → AreBytes bytes
        → (is_batch size bytes ≡ true) ↔ ((batch : BatchParts) × IsBatch bytes batch × HasItemsOf size batch) }
{}
