//! Writing index table segments (ST 377-1, Index Table Segment).
ghost use Rattle.std.specs.Prelude.{◌≡◌, ◌+◌, ◌<◌, ◌^◌, ◌++◌, length};
ghost use Rattle.std.specs.Int.{w16, to_be_bytes};
ghost use Rattle.std.specs.List.{AllByRecursion, flat_map};
ghost use Rattle.byteorder.specs.Endian.{big_bytes};
ghost use Rattle.mxf_klv.specs.Written.{Puts};
ghost use Rattle.mxf_sets.specs.Items.{IsItem, ItemParts, item, item_bytes};
ghost use Rattle.mxf_sets.specs.Segment.{entry_item, number_items, segment_bytes, signed_bytes_4};

use super::numbers::{
    BODY_SID, DURATION, EDIT_RATE, ENTRIES, INDEX_SID, POSITIONS, SLICES, START, UNIT_BYTES,
};
use super::{Segment, SegmentNumbers};
use crate::Item;
use byteorder::{BigEndian, ByteOrder};
use mxf_klv::{Encode, Progress, WriteFault};
use std::io::Write;

/// The tag and length of an item.
fn item_head(tag: u16, len: u16) -> [u8; 4]
    ensures { result ≡ to_be_bytes w16 tag ++ to_be_bytes w16 len }
{
    let mut head = [0; 4];
    BigEndian::write_u16(&mut head, tag);
    BigEndian::write_u16(&mut head[2..], len);
    head
}

/// The count and item size of a batch.
fn batch_head(count: u32, size: u32) -> [u8; 8]
    ensures { result ≡ big_bytes 4 count ++ big_bytes 4 size }
{
    let mut head = [0; 8];
    BigEndian::write_u32(&mut head, count);
    BigEndian::write_u32(&mut head[4..], size);
    head
}

fn rate_bytes(rate: (i32, i32)) -> [u8; 8]
    ensures { result ≡ signed_bytes_4 rate.0 ++ signed_bytes_4 rate.1 }
{
    let mut bytes = [0; 8];
    BigEndian::write_i32(&mut bytes, rate.0);
    BigEndian::write_i32(&mut bytes[4..], rate.1);
    bytes
}

fn put_item<W: Write>(
    item: &Item<'_>,
    progress: &mut Progress,
    writer: &mut W,
) -> Result<(), WriteFault>
    requires { length item.now.value < 2 ^ 16 }
    ensures { Puts W.contents writer.old writer.new progress.old progress.new result (item_bytes item.now) }
{
    let value = item.value;
    progress.put(writer, &item_head(item.tag, value.len() as u16))?;
    progress.put(writer, value)
}

fn put_items<W: Write>(
    items: &[Item<'_>],
    progress: &mut Progress,
    writer: &mut W,
) -> Result<(), WriteFault>
    requires { AllByRecursion IsItem items.now }
    ensures { Puts W.contents writer.old writer.new progress.old progress.new result (flat_map item_bytes items.now) }
{
    'items: for item in items {
        put_item(item, progress, writer)?;
    }
    Ok(())
}

/// The item of this tag and value.
fn numbered(tag: u16, value: &[u8]) -> Item<'_>
    ensures { result ≡ item tag value.now }
{
    Item { tag, value }
}

/// Writes the items of the numbers.
fn put_numbers<W: Write>(
    numbers: &SegmentNumbers,
    progress: &mut Progress,
    writer: &mut W,
) -> Result<(), WriteFault>
    ensures { let bytes = flat_map item_bytes (number_items numbers.now) in
        Puts W.contents writer.old writer.new progress.old progress.new result bytes }
{
    let rate = rate_bytes(numbers.edit_rate);
    let start = numbers.start.to_be_bytes();
    let duration = numbers.duration.to_be_bytes();
    let unit_bytes = numbers.unit_bytes.to_be_bytes();
    let index_sid = numbers.index_sid.to_be_bytes();
    let body_sid = numbers.body_sid.to_be_bytes();
    let slices = [numbers.slices];
    let positions = [numbers.positions];
    let items = [
        numbered(EDIT_RATE, &rate),
        numbered(START, &start),
        numbered(DURATION, &duration),
        numbered(UNIT_BYTES, &unit_bytes),
        numbered(INDEX_SID, &index_sid),
        numbered(BODY_SID, &body_sid),
        numbered(SLICES, &slices),
        numbered(POSITIONS, &positions),
    ];
    put_items(&items, progress, writer)
}

/// The numbers always, and the entry array if edit units have no constant size.
impl<'a> Encode for Segment<'a> {
    ghost encoding = { segment_bytes };

    fn put_to<W: Write>(&self, progress: &mut Progress, writer: &mut W) -> Result<(), WriteFault> {
        put_numbers(&self.numbers, progress, writer)?;
        if self.numbers.unit_bytes > 0 {
            return Ok(());
        }
        self.put_entries(progress, writer)
    }
}

impl<'a> Segment<'a> {
    /// Writes the item of the entries.
    fn put_entries<W: Write>(
        &self,
        progress: &mut Progress,
        writer: &mut W,
    ) -> Result<(), WriteFault>
        ensures { Puts W.contents writer.old writer.new progress.old progress.new result (item_bytes
            (entry_item self.now)) }
    {
        let len = self.entries.len();
        let size = self.numbers.entry_size();
        let count = (len / (size as usize)) as u32;
        progress.put(writer, &item_head(ENTRIES, (8 + len) as u16))?;
        progress.put(writer, &batch_head(count, size))?;
        progress.put(writer, self.entries)
    }
}
