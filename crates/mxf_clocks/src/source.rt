//! Runs by the file packages themselves, if no material package tells the time.
ghost use Rattle.std.specs.Prelude.{◌≡◌, IfOk};
ghost use Rattle.mxf_clocks.specs.ClockTracks.{IsClock};
ghost use Rattle.mxf_clocks.specs.Clocks.{run_by_own_clock, runs_by_sources};
ghost use Rattle.mxf_clocks.specs.Lookups.{index_kept, run_by_index, timed_in};
ghost use Rattle.mxf_clocks.specs.TracksFor.{is_timed};

use crate::clock_track::{ClockTrack, clock_of};
use crate::fraction::{rate_over, units_left};
use crate::index_rates::IndexRates;
use crate::run::{Run, run_from};
use crate::tables::Tables;
use crate::track_for::first_beside;
use mxf_klv::OutOfMemory;
use mxf_tracks::{FoundPackage, PackageAt, TrackAt};
use mxf_views::SegmentInNumbers;
use std::alloc::Global;

/// The run that a clock of a file package gives its own index.
fn run_by_own_clock(
    rates: &IndexRates,
    tracks: &[TrackAt<'_>],
    index_sid: u32,
    clock: &ClockTrack,
) -> Option<Run>
    requires { IsClock clock.now }
    ensures { result ≡ run_by_own_clock (timed_in rates.now.by_index) tracks.now index_sid clock.now }
{
    let track = first_beside(rates, index_sid, clock.rate, tracks)?;
    let step = rate_over(clock.rate, track.track.edit_rate());
    let count = units_left(step, 0, clock.duration);
    let first = i128::from(track.track.origin());
    run_from(index_sid, clock, step, first, 0, count)
}

/// The run that a package gives, if it is a file package with a clock track.
#[tactic(auto, unfolding(crate::specs::Lookups::run_by_index))]
fn run_by_index(tables: &Tables, file: &FoundPackage<'_>) -> Option<Run>
    ensures { result ≡ run_by_index (timed_in tables.now.rates.by_index) (index_kept tables.now.indexes.by_package)
        file.now }
{
    let index_sid = tables.indexes.get(&file.properties.package_uid())?;
    let tracks = file.tracks.as_slice();
    let clock = clock_of(tracks)?;
    run_by_own_clock(&tables.rates, tracks, index_sid, &clock)
}

/// The runs that file packages give.
pub(crate) fn runs_by_sources(
    alloc: Global,
    segments: &[SegmentInNumbers],
    packages: &[PackageAt<'_>],
) -> Result<Vec<Run>, OutOfMemory>
    ensures { IfOk result (λ v. v.items ≡ runs_by_sources (is_timed segments.now) packages.now) }
{
    let tables = Tables::of(alloc, segments, packages)?;
    let mut runs = Vec::new(alloc);
    for package in packages {
        if let Some(file) = &package.found {
            if let Some(run) = run_by_index(&tables, file) {
                runs.push(run)?;
            }
        }
    }
    Ok(runs)
}
