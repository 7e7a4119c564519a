//! The line of an item of a header metadata set.
ghost use Rattle.std.specs.Prelude.{◌≡◌, IfOk, codes, take};
ghost use Rattle.mxf_forms.specs.Forms.{field};
ghost use Rattle.mxf_lines.specs.ItemLines.{item_line, label_shown, value_shown};
ghost use Rattle.mxf_forms.specs.Writing.{with_field};

use super::{AllocError, Line};
use mxf_forms::{FieldWriter, HexDigits};
use mxf_sets::Item;

/// Writes the label of a tag, or none.
fn write_label(fields: &mut FieldWriter, label: Option<[u8; 16]>) -> Result<(), AllocError>
    ensures { IfOk result (λ _. fields.new
        ≡ with_field (field (codes " ") (codes "label") (label_shown label)) fields.old) }
{
    match label {
        Some(label) => fields.label(" ", "label", &label),
        None => fields.absent(" ", "label", "-"),
    }
}

/// The first 32 bytes, or all if there are fewer.
fn front(value: &[u8]) -> &[u8]
    ensures { result.now ≡ take 32 value.now }
{
    match value.split_at_checked(32) {
        Some((front, _)) => front,
        None => value,
    }
}

/// Writes the first 32 bytes of a value, or none of an empty one.
fn write_value(fields: &mut FieldWriter, value: &[u8]) -> Result<(), AllocError>
    ensures { IfOk result (λ _. fields.new ≡ with_field (field (codes " ") (codes "value") (value_shown value.now))
        fields.old) }
{
    if value.is_empty() {
        return fields.absent(" ", "value", "-");
    }
    fields.word(" ", "value", HexDigits(front(value)))
}

/// The line of an item of the set at an offset, in bytes: its tag, the length of its value, the label of the tag, and
/// the first bytes of its value.
#[derive(Drop)]
pub struct ItemLine<'a> {
    pub offset: u64,
    pub label: Option<[u8; 16]>,
    pub item: Item<'a>,
}

impl<'a> Line for ItemLine<'a> {
    ghost line = { λ l. item_line l.offset l.label l.item };

    #[tactic(auto, unfolding(crate::specs::ItemLines::item_line))]
    fn write_fields(&self, fields: &mut FieldWriter) -> Result<(), AllocError> {
        let item = &self.item;
        let tag = item.tag.to_be_bytes();
        fields.begin("item", "item")?;
        fields.number(" ", "offset", self.offset)?;
        fields.word(" ", "tag", HexDigits(&tag))?;
        fields.number(" ", "length", item.value.len())?;
        write_label(fields, self.label)?;
        write_value(fields, item.value)?;
        fields.end("")
    }
}
