//! Clock tracks: the track of a package that tells its time.
ghost use Rattle.std.specs.Prelude.{◌≡◌, IfSome, find};
ghost use Rattle.std.specs.Option.{option_map};
ghost use Rattle.mxf_clocks.specs.ClockTracks.{IsClock, begins_at_zero, clock_by, clock_of, components_of, found_tracks};
ghost use Rattle.mxf_clocks.specs.ClockTracks.{is_essence, is_of_kind, is_timecode, only_timecode};

use mxf_sets::{Rate, TimecodeComponent};
use mxf_tracks::{Component, FoundTrack, Part, SequenceKind, TrackAt};

/// What a clock track says (ST 377-1, Timecode Component set).
#[derive(Clone, Copy)]
pub(crate) struct ClockTrack {
    /// The edit rate of the track, both numbers above 0: timecodes a second.
    pub rate: Rate,
    /// The number of the first timecode, in frames from midnight.
    pub start: i64,
    /// The duration in timecodes, if it is known.
    pub duration: Option<u64>,
    /// Frames in a second, above 0.
    pub base: u16,
    /// Whether labels are left out.
    pub is_drop: bool,
}

/// Whether the sequence of a track holds a timecode.
pub(crate) fn is_of_timecode(track: &FoundTrack<'_>) -> bool
    ensures { result ≡ is_of_kind is_timecode track.now }
{
    match &track.sequence.found {
        Some(sequence) => matches!(sequence.kind, SequenceKind::Timecode),
        None => false,
    }
}

/// Whether it holds picture, sound or data.
pub(crate) fn is_of_essence(track: &FoundTrack<'_>) -> bool
    ensures { result ≡ is_of_kind is_essence track.now }
{
    match &track.sequence.found {
        Some(sequence) => match sequence.kind {
            SequenceKind::Picture | SequenceKind::Sound | SequenceKind::Data => true,
            _ => false,
        },
        None => false,
    }
}

/// The components of a track, none if its sequence isn't found.
pub(crate) fn components_of<'b>(track: &'b FoundTrack<'_>) -> &'b [Component]
    ensures { result.now ≡ components_of track.now }
{
    match &track.sequence.found {
        Some(sequence) => sequence.components.as_slice(),
        None => &[],
    }
}

/// Whether the Origin of a track is 0.
pub(crate) fn begins_at_zero(track: &FoundTrack<'_>) -> bool
    ensures { result ≡ begins_at_zero track.now }
{
    track.track.origin().unsigned_abs() == 0
}

/// The timecode component that is the only component.
fn only_timecode(components: &[Component]) -> Option<&TimecodeComponent>
    ensures { option_map (λ t. t.now) result ≡ only_timecode components.now }
{
    let (first, others) = components.split_first()?;
    if !others.is_empty() {
        return None;
    }
    match &first.part {
        Some(Part::Timecode(timecode)) => Some(timecode),
        _ => None,
    }
}

/// The clock of a track of timecode.
#[tactic(auto, unfolding(crate::specs::ClockTracks::clock_by))]
fn clock_by(track: &FoundTrack<'_>) -> Option<ClockTrack>
    ensures clock { result ≡ clock_by track.now }
    ensures some { IfSome result IsClock }
{
    let rate = track.track.edit_rate();
    if !rate.is_good() || !begins_at_zero(track) {
        return None;
    }
    let timecode = only_timecode(components_of(track))?;
    if timecode.base() == 0 {
        return None;
    }
    Some(ClockTrack {
        rate,
        start: timecode.start(),
        duration: timecode.duration(),
        base: timecode.base(),
        is_drop: timecode.is_drop(),
    })
}

/// The first track of timecode.
fn first_of_timecode<'a, 'b>(tracks: &'b [TrackAt<'a>]) -> Option<&'b FoundTrack<'a>>
    ensures { option_map (λ t. t.now) result ≡ find (is_of_kind is_timecode) (found_tracks tracks.now) }
{
    for track in tracks {
        if let Some(found) = &track.found {
            if is_of_timecode(found) {
                return Some(found);
            }
        }
    }
    None
}

/// The clock track of a package, by its tracks.
#[tactic(auto, unfolding(crate::specs::ClockTracks::clock_of))]
pub(crate) fn clock_of(tracks: &[TrackAt<'_>]) -> Option<ClockTrack>
    ensures clock { result ≡ clock_of tracks.now }
    ensures some { IfSome result IsClock }
{
    clock_by(first_of_timecode(tracks)?)
}
