//! Telling how much essence there is behind header metadata that state no duration.
use crate::packets::{TrackPackets, track_packets};
use crate::telling::tell_on_screen;
use mxf_klv::{OutOfMemory, Status};
use mxf_sets::Rate;
use mxf_tracks::{Length, TrackAt, Tracks, preferred_tracks};
use mxf_views::{CopyInfo, Views};
use std::fmt;

/// The greatest number of edit units a second of which each may be a packet: samples of sound aren't.
const GREATEST_RATE: u64 = 1_000;

/// A track whose duration isn't known, and the packets of its essence. It prints as its line.
#[derive(Clone, Copy)]
struct OpenTrack {
    id: u32,
    packets: u64,
    rate: Rate,
    length: Length,
}

impl fmt::Display for OpenTrack {
    fn fmt<W: fmt::Write>(&self, f: &mut fmt::Formatter<W>) -> fmt::Result {
        write!(
            f,
            "hint: the header metadata are open, and state no duration: {} packets of track {} begin here, {} if each is an edit unit of {}/{} a second",
            self.packets, self.id, self.length, self.rate.numerator, self.rate.denominator
        )
    }
}

/// Whether the header metadata are those of an open partition, whose numbers may still change.
pub fn is_open(copy: &CopyInfo) -> bool {
    matches!(copy.status, Status::OpenIncomplete | Status::OpenComplete)
}

/// Tells of the longest track whose duration isn't known how many packets of its essence begin in what is held, if one
/// package alone has essence in this file.
pub fn tell_open_header<R: Eprint + AllocGlobal>(rt: &R, views: &Views) -> Result<(), OutOfMemory> {
    let tracks = preferred_tracks(rt.alloc(), views)?;
    let counted = track_packets(rt.alloc(), views.catalogue())?;
    if let Some(longest) = longest_open(&tracks, &counted) {
        tell_on_screen(rt, &longest)?;
    }
    Ok(())
}

/// The tracks of the package whose essence is in this file, if there is one alone.
fn tracks_in_file<'r, 'a>(tracks: &'r Tracks<'a>) -> Option<&'r [TrackAt<'a>]> {
    let mut only = None;
    for package in tracks.packages() {
        match &package.found {
            Some(found) if found.container.is_some() => {
                if only.is_some() {
                    return None;
                }
                only = Some(found.tracks.as_slice());
            }
            _ => {}
        }
    }
    only
}

/// The longest track whose duration isn't known, by the packets of its essence.
fn longest_open(tracks: &Tracks<'_>, counted: &[TrackPackets]) -> Option<OpenTrack> {
    let mut longest: Option<OpenTrack> = None;
    for track in tracks_in_file(tracks)? {
        if let Some(open) = open_track(track, counted) {
            match longest {
                Some(other) if other.length.thousandths >= open.length.thousandths => {}
                _ => longest = Some(open),
            }
        }
    }
    longest
}

/// The track, if its duration isn't known, and several packets of its essence begin in what is held that may be an edit
/// unit each.
fn open_track(track: &TrackAt<'_>, counted: &[TrackPackets]) -> Option<OpenTrack> {
    let found = track.found.as_ref()?;
    let number = found.track.number().to_be_bytes();
    let packets = counted.iter().find(|one| one.number == number)?.packets;
    let rate = found.track.edit_rate();
    let length = Length::of(packets, rate)?;
    let most = u64::from(rate.denominator.unsigned_abs()) * GREATEST_RATE;
    let is_open = found.sequence.found.as_ref()?.duration.is_none();
    let may_be_units = packets > 1 && u64::from(rate.numerator.unsigned_abs()) <= most;
    (is_open && may_be_units).then_some(OpenTrack {
        id: found.track.id(),
        packets,
        rate,
        length,
    })
}
