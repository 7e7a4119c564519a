//! Partition packs, primer packs and random index packs.
use crate::row::{Row, bad_row, tell};
use crate::writing::tell_written;
use mxf_klv::Ul;
use mxf_sets::{Batch, PartitionPack, Primer, PrimerLabels, Rip};
use std::io;

/// The pack with these labels, otherwise equal to a pack without any.
fn with<'a>(pack: &PartitionPack<'_>, labels: Batch<'a>) -> Option<PartitionPack<'a>> {
    PartitionPack::of(
        pack.part(),
        pack.status(),
        pack.numbers(),
        pack.pattern(),
        labels,
    )
}

/// Prints the key of a pack, and the pack.
fn tell_pack(rt: &impl Print, pack: &Option<PartitionPack<'_>>) -> io::Result<()> {
    match pack {
        Some(pack) => tell(rt, &(pack.key(), pack)),
        None => tell(rt, pack),
    }
}

/// `with SIZE`: a pack of the labels after the 88 bytes of a value that has none; or how a pack is written.
fn tell_read_pack<R: Print + AllocGlobal>(
    rt: &R,
    key: &Ul,
    value: &[u8],
    row: &Row<'_>,
) -> io::Result<()> {
    let (front, labels) = value.split_at(value.len().min(88));
    match (
        PartitionPack::read(key, front),
        Batch::of(labels, row.size()),
    ) {
        (Ok(pack), Some(labels)) if row.call == "with" => tell_pack(rt, &with(&pack, labels)),
        (Ok(pack), _) => tell_written(rt, &pack, &row.of_bytes(front)),
        _ => Err(bad_row()),
    }
}

/// `read`, or what is said of a pack that is read. The bytes are the key and the value.
pub fn tell_partition<R: Print + AllocGlobal>(rt: &R, row: &Row<'_>) -> io::Result<()> {
    match row.key_and_rest() {
        Some((key, value)) => match row.call {
            "read" => tell(rt, &PartitionPack::read(&key, value)),
            _ => tell_read_pack(rt, &key, value, row),
        },
        None => Err(bad_row()),
    }
}

/// The primer pack of these entries.
fn primer_of(entries: Option<Batch<'_>>) -> Option<Primer<'_>> {
    Primer::of(entries?)
}

/// Prints how many entries a primer pack has, whether it has none, and the label of a tag in it and in a table of it.
fn tell_label(
    rt: &impl Print,
    primer: &Primer<'_>,
    table: &PrimerLabels,
    tag: u16,
) -> io::Result<()> {
    let labels = [primer.label(tag), table.label(tag)];
    tell(rt, &(primer.len(), primer.is_empty(), labels))
}

/// `label TAG`, or how the primer pack is written.
fn tell_read_primer<R: Print + AllocGlobal>(
    rt: &R,
    primer: &Primer<'_>,
    row: &Row<'_>,
) -> io::Result<()> {
    match row.call {
        "label" => match PrimerLabels::of(rt.alloc(), primer) {
            Ok(table) => tell_label(rt, primer, &table, row.tag()),
            Err(fault) => tell(rt, &fault),
        },
        _ => tell_written(rt, primer, row),
    }
}

/// `of SIZE` items; `read`, or what is said of a primer pack that is read.
pub fn tell_primer<R: Print + AllocGlobal>(rt: &R, row: &Row<'_>) -> io::Result<()> {
    match row.call {
        "of" => tell(rt, &primer_of(Batch::of(row.bytes, row.size()))),
        "read" => tell(rt, &Primer::read(row.bytes)),
        _ => match Primer::read(row.bytes) {
            Ok(primer) => tell_read_primer(rt, &primer, row),
            Err(_) => Err(bad_row()),
        },
    }
}

/// Prints each entry.
fn tell_entries(rt: &impl Print, rip: &Rip<'_>) -> io::Result<()> {
    for entry in rip.entries() {
        tell(rt, &entry)?;
    }
    Ok(())
}

/// `entries WIDTH`; `get WIDTH PLACE`: how many entries there are, whether there are none, and the one at a place; or
/// how the random index pack is written.
fn tell_read_rip<R: Print + AllocGlobal>(rt: &R, rip: &Rip<'_>, row: &Row<'_>) -> io::Result<()> {
    match row.call {
        "entries" => tell_entries(rt, rip),
        "get" => {
            let entry = rip.get(row.numbers[1] as usize);
            tell(rt, &(rip.len(), rip.is_empty(), entry))
        }
        _ => tell_written(rt, rip, row),
    }
}

/// `of WIDTH` entries; `read WIDTH`, or what is said of a random index pack that is read.
pub fn tell_rip<R: Print + AllocGlobal>(rt: &R, row: &Row<'_>) -> io::Result<()> {
    match row.call {
        "of" => tell(rt, &Rip::of(row.width(), row.bytes)),
        "read" => tell(rt, &Rip::read(row.width(), row.bytes)),
        _ => match Rip::read(row.width(), row.bytes) {
            Ok(rip) => tell_read_rip(rt, &rip, row),
            Err(_) => Err(bad_row()),
        },
    }
}
