//! Which track of a package shows the units of an index.
ghost use Rattle.std.specs.Prelude.{◌≡◌, IfSome, find, true};
ghost use Rattle.std.specs.Option.{option_map};
ghost use Rattle.mxf_sets.specs.Rate.{is_good};
ghost use Rattle.mxf_clocks.specs.ClockTracks.{found_tracks};
ghost use Rattle.mxf_clocks.specs.Lookups.{index_beside, index_kept, started_in, timed_in};
ghost use Rattle.mxf_clocks.specs.TracksFor.{is_below, is_beside};

use crate::clock_track::{begins_at_zero, is_of_essence};
use crate::index_rates::IndexRates;
use crate::tables::Tables;
use mxf_sets::{Rate, SourceClip};
use mxf_tracks::{Component, FoundTrack, Part, TrackAt};
use std::marker::Model;

/// Whether the first of two good rates is less.
fn is_below(a: Rate, b: Rate) -> bool
    ensures { result ≡ is_below a b }
{
    let across = u64::from(a.numerator.unsigned_abs()) * u64::from(b.denominator.unsigned_abs());
    let back = u64::from(b.numerator.unsigned_abs()) * u64::from(a.denominator.unsigned_abs());
    across < back
}

/// Whether a track has essence, at a rate at which the index is timed and which isn't below that of the clock.
#[tactic(auto, unfolding(crate::specs::TracksFor::is_beside))]
fn is_beside(rates: &IndexRates, index_sid: u32, clock_rate: Rate, track: &FoundTrack<'_>) -> bool
    ensures beside { result ≡ is_beside (timed_in rates.now.by_index) index_sid clock_rate track.now }
    ensures good { result ≡ true → is_good track.now.track.edit_rate ≡ true }
{
    let rate = track.track.edit_rate();
    is_of_essence(track)
        && rate.is_good()
        && !is_below(rate, clock_rate)
        && rates.is_timed(index_sid, rate)
}

/// The first of the tracks that has it so.
pub(crate) fn first_beside<'a, 'b>(
    rates: &IndexRates,
    index_sid: u32,
    clock_rate: Rate,
    tracks: &'b [TrackAt<'a>],
) -> Option<&'b FoundTrack<'a>>
    ensures first { option_map (λ t. t.now) result
        ≡ find (is_beside (timed_in rates.now.by_index) index_sid clock_rate) (found_tracks tracks.now) }
    ensures good { IfSome result (λ t. is_good t.now.track.edit_rate ≡ true) }
{
    for track in tracks {
        if let Some(found) = &track.found {
            if is_beside(rates, index_sid, clock_rate, found) {
                return Some(found);
            }
        }
    }
    None
}

/// A clip, and where it starts in its track.
#[derive(Drop)]
pub(crate) struct ClipAt<'b> {
    /// In edit units of the track.
    pub start: u128,
    pub clip: &'b SourceClip,
}

impl<'b> Model for ClipAt<'b> {
    ghost use Rattle.mxf_clocks.specs.TracksFor.{StartedClip};

    ghost Value = { StartedClip };

    ghost view = { λ c. record { start = c.start; clip = c.clip.now } };
}

/// The clip that a component is, if its start is known.
#[tactic(auto, unfolding(crate::specs::Lookups::started_in))]
pub(crate) fn started_in(component: &Component) -> Option<ClipAt<'_>>
    ensures { result ≡ started_in component.now }
{
    let start = component.start?;
    let clip = match component.part.as_ref()? {
        Part::Clip(clip) => clip,
        _ => return None,
    };
    Some(ClipAt { start, clip })
}

/// The index of the file package that a clip of a track names, if the track is one for it.
pub(crate) fn index_beside(
    tables: &Tables,
    clock_rate: Rate,
    track: &FoundTrack<'_>,
    at: &ClipAt<'_>,
) -> Option<u32>
    ensures index { result ≡ index_beside (timed_in tables.now.rates.by_index)
        (index_kept tables.now.indexes.by_package) clock_rate track.now at.now }
    ensures good { IfSome result (λ _. is_good track.now.track.edit_rate ≡ true) }
{
    let index_sid = tables.indexes.get(&at.clip.source_package())?;
    if is_beside(&tables.rates, index_sid, clock_rate, track) && begins_at_zero(track) {
        Some(index_sid)
    } else {
        None
    }
}
