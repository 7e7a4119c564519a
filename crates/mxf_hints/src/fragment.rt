//! Telling what packs and keys say of packets without header metadata.
use crate::packets::{MOST, TrackPackets, track_packets};
use crate::telling::tell_on_screen;
use mxf_forms::HexDigits;
use mxf_klv::OutOfMemory;
use mxf_sets::{PartitionPack, pattern_name};
use mxf_views::{PartitionAt, Views};
use std::fmt;

/// What is told of packets without header metadata. It prints as its line.
#[derive(Drop)]
struct Fragment<'a> {
    /// The first partition.
    first: Option<PartitionAt<'a>>,
    counted: Vec<TrackPackets>,
}

impl fmt::Display for Fragment<'_> {
    fn fmt<W: fmt::Write>(&self, f: &mut fmt::Formatter<W>) -> fmt::Result {
        f.write_str("hint: no header metadata say what this is")?;
        if let Some(first) = &self.first {
            write!(f, "; the partition pack at {} states ", first.offset)?;
            write_pack(f, &first.pack)?;
        }
        let mut joint = "; essence packets that begin here: ";
        for one in &self.counted {
            write!(f, "{joint}{} of {}", one.packets, HexDigits(&one.number))?;
            joint = ", ";
        }
        Ok(())
    }
}

/// Writes the operational pattern and the labels of the essence containers that a partition pack states.
fn write_pack<W: fmt::Write>(f: &mut fmt::Formatter<W>, pack: &PartitionPack<'_>) -> fmt::Result {
    let label = pack.pattern();
    match pattern_name(&label) {
        Some(name) => write!(f, "pattern {name} {}", HexDigits(&[label[14]]))?,
        None => write!(f, "pattern {}", HexDigits(&label))?,
    }
    for label in pack.containers().items().take(MOST) {
        write!(f, ", container {}", HexDigits(label))?;
    }
    Ok(())
}

/// Tells what the first partition pack states, and how many essence packets are held of which track number, if something
/// of the two is held.
pub fn tell_fragment<R: Eprint + AllocGlobal>(rt: &R, views: &Views) -> Result<(), OutOfMemory> {
    let counted = track_packets(rt.alloc(), views.catalogue())?;
    let first = views.partitions().next();
    if first.is_none() && counted.is_empty() {
        return Ok(());
    }
    tell_on_screen(rt, &Fragment { first, counted })?;
    Ok(())
}
