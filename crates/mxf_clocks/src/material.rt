//! Runs by material packages: of their clips that name the file packages.
ghost use Rattle.std.specs.Prelude.{◌≡◌, ◌++◌, ◌+ℤ◌, ◌||◌, ℕ, List, IfOk, OnOk, true};
ghost use Rattle.std.specs.BTreeSet.{contains};
ghost use Rattle.std.specs.Cmp.Lexicographic.{slice_cmp};
ghost use Rattle.std.specs.List.{filter_map, list_any};
ghost use Rattle.std.specs.Ordering.{nat_cmp};
ghost use Rattle.mxf_klv.specs.Rising.{SameMembers};
ghost use Rattle.mxf_sets.specs.Rate.{is_good};
ghost use Rattle.mxf_tracks.specs.declared.package.PackageAt.{PackageAt};
ghost use Rattle.mxf_views.specs.Places.{SegmentAtParts};
ghost use Rattle.mxf_clocks.specs.ClockTracks.{IsClock, components_of};
ghost use Rattle.mxf_clocks.specs.Clocks.{run_by, runs_by_clock, runs_by_material, runs_by_package};
ghost use Rattle.mxf_clocks.specs.Lookups.{AreTablesOf, index_kept, new_run, origin_kept, run_beside, run_with_origin};
ghost use Rattle.mxf_clocks.specs.Lookups.{shows_file, timed_in};
ghost use Rattle.mxf_clocks.specs.TracksFor.{is_timed};

use crate::clock_track::{ClockTrack, clock_of, components_of};
use crate::file_package::is_material;
use crate::fraction::{lesser, rate_over, units_left};
use crate::run::{Run, run_from};
use crate::tables::Tables;
use crate::track_for::{ClipAt, index_beside, started_in};
use mxf_klv::OutOfMemory;
use mxf_sets::Rate;
use mxf_tracks::{Component, FoundPackage, FoundTrack, PackageAt, TrackAt};
use mxf_views::SegmentInNumbers;
use std::alloc::Global;
use std::collections::BTreeSet;

/// The position of an Origin and a StartPosition, in edit units.
fn position_of(start: i64, origin: i64) -> i128
    ensures { result ≡ start +ℤ origin }
{
    i128::from(start) + i128::from(origin)
}

/// The run of a clip of a track of this rate, if the track that it names has an Origin.
fn run_by(
    index_sid: u32,
    clock: &ClockTrack,
    rate: Rate,
    at: &ClipAt<'_>,
    origin: i64,
) -> Option<Run>
    requires clock { IsClock clock.now }
    requires good { is_good rate ≡ true }
    ensures { result ≡ run_by index_sid clock.now rate at.now origin }
{
    let step = rate_over(clock.rate, rate);
    let first = position_of(at.clip.start_position(), origin);
    let left = units_left(step, at.start, clock.duration);
    let count = lesser(at.clip.duration(), left);
    run_from(index_sid, clock, step, first, at.start, count)
}

/// The run of a clip for an index, if the file package has the track that it names, at an equal rate.
fn run_with_origin(
    tables: &Tables,
    index_sid: u32,
    clock: &ClockTrack,
    rate: Rate,
    at: &ClipAt<'_>,
) -> Option<Run>
    requires clock { IsClock clock.now }
    requires good { is_good rate ≡ true }
    ensures { result
        ≡ run_with_origin (origin_kept tables.now.origins.by_track) index_sid clock.now rate at.now }
{
    let file = at.clip.source_package();
    let origin = tables.origins.get(&file, at.clip.source_track(), rate)?;
    run_by(index_sid, clock, rate, at, origin)
}

/// The run of a clip of a track, if the track is one for the file package that the clip names.
fn run_beside(
    tables: &Tables,
    clock: &ClockTrack,
    track: &FoundTrack<'_>,
    at: &ClipAt<'_>,
) -> Option<Run>
    requires { IsClock clock.now }
    ensures { result ≡ run_beside (timed_in tables.now.rates.by_index) (index_kept tables.now.indexes.by_package)
        (origin_kept tables.now.origins.by_track) clock.now track.now at.now }
{
    let index_sid = index_beside(tables, clock.rate, track, at)?;
    run_with_origin(tables, index_sid, clock, track.track.edit_rate(), at)
}

/// The run of a component, if it is a clip of a file package that no track before shows.
fn new_run(
    tables: &Tables,
    shown: &BTreeSet<[u8; 32]>,
    clock: &ClockTrack,
    track: &FoundTrack<'_>,
    component: &Component,
) -> Option<Run>
    requires { IsClock clock.now }
    ensures { result ≡ new_run (timed_in tables.now.rates.by_index) (index_kept tables.now.indexes.by_package)
        (origin_kept tables.now.origins.by_track) (contains (slice_cmp nat_cmp) shown.now) clock.now track.now
        component.now }
{
    let at = started_in(component)?;
    if shown.contains(&at.clip.source_package()) {
        return None;
    }
    run_beside(tables, clock, track, &at)
}

/// Adds the runs of a track's clips, of those file packages that no track before shows.
fn add_runs_of_track(
    runs: &mut Vec<Run>,
    tables: &Tables,
    shown: &BTreeSet<[u8; 32]>,
    clock: &ClockTrack,
    track: &FoundTrack<'_>,
) -> Result<(), OutOfMemory>
    requires { IsClock clock.now }
    ensures { OnOk result (runs.new.items ≡ runs.old.items
        ++ filter_map (new_run (timed_in tables.now.rates.by_index) (index_kept tables.now.indexes.by_package)
        (origin_kept tables.now.origins.by_track) (contains (slice_cmp nat_cmp) shown.now) clock.now track.now)
        (components_of track.now)) }
{
    for component in components_of(track) {
        if let Some(run) = new_run(tables, shown, clock, track, component) {
            runs.push(run)?;
        }
    }
    Ok(())
}

/// Notes the file package that a clip of a track shows, if it shows one.
fn note_shown(
    shown: &mut BTreeSet<[u8; 32]>,
    tables: &Tables,
    clock_rate: Rate,
    track: &FoundTrack<'_>,
    component: &Component,
) -> Result<(), OutOfMemory>
    ensures { OnOk result ((uid : List ℕ) → contains (slice_cmp nat_cmp) shown.new uid
        ≡ (contains (slice_cmp nat_cmp) shown.old uid || shows_file (timed_in tables.now.rates.by_index)
        (index_kept tables.now.indexes.by_package) clock_rate track.now uid component.now)) }
{
    let Some(at) = started_in(component) else {
        return Ok(());
    };
    if index_beside(tables, clock_rate, track, &at).is_some() {
        shown.insert(at.clip.source_package())?;
    }
    Ok(())
}

/// Notes the file packages that the clips of a track show.
fn note_all_shown(
    shown: &mut BTreeSet<[u8; 32]>,
    tables: &Tables,
    clock_rate: Rate,
    track: &FoundTrack<'_>,
) -> Result<(), OutOfMemory>
    ensures { OnOk result ((uid : List ℕ) → contains (slice_cmp nat_cmp) shown.new uid
        ≡ (contains (slice_cmp nat_cmp) shown.old uid || list_any (shows_file (timed_in tables.now.rates.by_index)
        (index_kept tables.now.indexes.by_package) clock_rate track.now uid) (components_of track.now))) }
{
    for component in components_of(track) {
        note_shown(shown, tables, clock_rate, track, component)?;
    }
    Ok(())
}

/// Adds the runs that tracks with a clock give the indexes of all file packages. Of each file package the first track
/// that shows it gives them.
fn add_runs_by_clock(
    alloc: Global,
    runs: &mut Vec<Run>,
    tables: &Tables,
    tracks: &[TrackAt<'_>],
    clock: &ClockTrack,
) -> Result<(), OutOfMemory>
    requires { IsClock clock.now }
    ensures { (segments : List SegmentAtParts) (packages : List PackageAt)
        → AreTablesOf segments packages tables.now → OnOk result (SameMembers runs.new.items
        (runs.old.items ++ runs_by_clock (is_timed segments) packages tracks.now clock.now)) }
{
    let mut shown = BTreeSet::new(alloc);
    for track in tracks {
        if let Some(found) = &track.found {
            add_runs_of_track(runs, tables, &shown, clock, found)?;
            note_all_shown(&mut shown, tables, clock.rate, found)?;
        }
    }
    Ok(())
}

/// Adds the runs that a package gives, if it is a material package with a clock track.
fn add_runs_by_package(
    alloc: Global,
    runs: &mut Vec<Run>,
    tables: &Tables,
    material: &FoundPackage<'_>,
) -> Result<(), OutOfMemory>
    ensures { (segments : List SegmentAtParts) (packages : List PackageAt)
        → AreTablesOf segments packages tables.now → OnOk result (SameMembers runs.new.items
        (runs.old.items ++ runs_by_package (is_timed segments) packages material.now)) }
{
    if !is_material(material.kind) {
        return Ok(());
    }
    let tracks = material.tracks.as_slice();
    let Some(clock) = clock_of(tracks) else {
        return Ok(());
    };
    add_runs_by_clock(alloc, runs, tables, tracks, &clock)
}

/// The runs that material packages give, in no order.
pub(crate) fn runs_by_material(
    alloc: Global,
    segments: &[SegmentInNumbers],
    packages: &[PackageAt<'_>],
) -> Result<Vec<Run>, OutOfMemory>
    ensures { IfOk result (λ v. SameMembers v.items (runs_by_material (is_timed segments.now) packages.now)) }
{
    let tables = Tables::of(alloc, segments, packages)?;
    let mut runs = Vec::new(alloc);
    for package in packages {
        if let Some(found) = &package.found {
            add_runs_by_package(alloc, &mut runs, &tables, found)?;
        }
    }
    Ok(runs)
}
