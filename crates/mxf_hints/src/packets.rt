//! How many essence packets are held of which track number.
use mxf_catalogue::Catalogue;
use mxf_klv::Kind;
use std::alloc::{AllocError, Global};

/// How many track numbers are counted, and how many labels are told, at most.
pub const MOST: usize = 16;

/// The last four bytes of the keys of essence packets, which are the number of their track (ST 379), and how many such
/// packets are held.
#[derive(Clone, Copy)]
pub struct TrackPackets {
    pub number: [u8; 4],
    pub packets: u64,
}

/// How many essence packets begin in what is held, of the first 16 track numbers that come. No disputed packet counts.
pub fn track_packets(
    alloc: Global,
    catalogue: &Catalogue,
) -> Result<Vec<TrackPackets>, AllocError> {
    let mut counted = Vec::new(alloc);
    for note in catalogue.undisputed() {
        if note.kind() == Kind::Essence {
            let key = note.key().bytes();
            count_packet(&mut counted, [key[12], key[13], key[14], key[15]])?;
        }
    }
    Ok(counted)
}

/// Counts one more packet of a track number.
fn count_packet(counted: &mut Vec<TrackPackets>, number: [u8; 4]) -> Result<(), AllocError> {
    for one in counted.iter_mut() {
        if one.number == number {
            one.packets = one.packets.saturating_add(1);
            return Ok(());
        }
    }
    if counted.len() < MOST {
        let packets = 1;
        counted.push(TrackPackets { number, packets })?;
    }
    Ok(())
}
