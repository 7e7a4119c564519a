//! Local sets and batches.
use crate::row::{Row, bad_row, tell};
use crate::writing::tell_written;
use mxf_sets::{Batch, Items, items};
use std::io;

/// Prints each item of a set.
fn tell_items(rt: &impl Print, items: Items<'_>) -> io::Result<()> {
    for item in items {
        tell(rt, &item)?;
    }
    Ok(())
}

/// Prints the only item of a tag after the first item.
fn tell_behind(rt: &impl Print, mut items: Items<'_>, tag: u16) -> io::Result<()> {
    items.next();
    tell(rt, &items.only(tag))
}

/// `items`, `only TAG`; `behind TAG`: the same after the first item.
pub fn tell_set(rt: &impl Print, row: &Row<'_>) -> io::Result<()> {
    match (row.call, items(row.bytes)) {
        ("items", Ok(items)) => tell_items(rt, items),
        ("only", Ok(items)) => tell(rt, &items.only(row.tag())),
        ("behind", Ok(items)) => tell_behind(rt, items, row.tag()),
        (_, Ok(_items)) => Err(bad_row()),
        (_, Err(fault)) => tell(rt, &fault),
    }
}

/// Prints each item of a batch.
fn tell_each(rt: &impl Print, batch: &Batch<'_>) -> io::Result<()> {
    for item in batch.items() {
        tell(rt, &item)?;
    }
    Ok(())
}

/// Prints how many items a batch has, whether it has none, how long they are, and the one at a place.
fn tell_item(rt: &impl Print, batch: &Batch<'_>, place: u64) -> io::Result<()> {
    let item = batch.get(place as usize);
    tell(
        rt,
        &(batch.len(), batch.is_empty(), batch.item_size(), item),
    )
}

/// `items SIZE`, `get SIZE PLACE`, or how the batch is written.
fn tell_read<R: Print + AllocGlobal>(rt: &R, batch: &Batch<'_>, row: &Row<'_>) -> io::Result<()> {
    match row.call {
        "items" => tell_each(rt, batch),
        "get" => tell_item(rt, batch, row.numbers[1]),
        _ => tell_written(rt, batch, row),
    }
}

/// `of SIZE` items; `read SIZE`, or what is said of a batch that is read.
pub fn tell_batch<R: Print + AllocGlobal>(rt: &R, row: &Row<'_>) -> io::Result<()> {
    match row.call {
        "of" => tell(rt, &Batch::of(row.bytes, row.size())),
        "read" => tell(rt, &Batch::read(row.bytes, row.size())),
        _ => match Batch::read(row.bytes, row.size()) {
            Ok(batch) => tell_read(rt, &batch, row),
            Err(_) => Err(bad_row()),
        },
    }
}
