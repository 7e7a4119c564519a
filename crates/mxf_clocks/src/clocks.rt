//! The clocks of the indexes of a file.
ghost use Rattle.std.specs.Prelude.{◌≡◌, ◌↔◌, ◌≤◌, ◌+◌, ◌==◌, Some, IfOk, ℕ, List, filter, length};
ghost use Rattle.std.specs.List.{list_any};
ghost use Rattle.mxf_klv.specs.Parts.{NoteParts};
ghost use Rattle.mxf_klv.specs.Rising.{In, IsRising, SameMembers};
ghost use Rattle.mxf_tracks.specs.declared.package.PackageAt.{PackageAt};
ghost use Rattle.mxf_clocks.specs.ClockTracks.{found_packages, found_tracks, is_of_kind, is_timecode};
ghost use Rattle.mxf_clocks.specs.Clocks.{clips_found, clocks_of, files_found, is_finished, runs_by, runs_of, teller};
ghost use Rattle.mxf_clocks.specs.Clocks.{tells_time};
ghost use Rattle.mxf_clocks.specs.RunOrder.{run_cmp};
ghost use Rattle.mxf_clocks.specs.Runs.{RunParts, number_at};
ghost use Rattle.mxf_clocks.specs.Shown.{IsShown};
ghost use Rattle.mxf_clocks.specs.TracksFor.{is_timed};

use crate::clock_track::is_of_timecode;
use crate::file_package::is_material;
use crate::material::runs_by_material;
use crate::run::Run;
use crate::source::runs_by_sources;
use mxf_klv::{OutOfMemory, between, sort_once};
use mxf_tracks::{FoundPackage, PackageAt, PackageKind, TrackAt, Tracks};
use mxf_views::{SegmentInNumbers, Views};
use std::alloc::Global;
use std::marker::Model;

/// The clocks of all indexes of a file: for each position that a clip shows, or that a file package has, which timecode
/// the first timecode track of the package gives it.
#[derive(Drop)]
pub struct Clocks {
    by: PackageKind,
    runs: Vec<Run>,
}

impl Model for Clocks {
    ghost use Rattle.mxf_klv.specs.Rising.{IsRising};
    ghost use Rattle.mxf_clocks.specs.Clocks.{ClocksParts};
    ghost use Rattle.mxf_clocks.specs.RunOrder.{run_cmp};

    ghost Value = { ClocksParts };

    ghost view = { λ c. record { by = c.by; runs = c.runs.items } };

    ghost invariant = { λ c. IsRising run_cmp c.runs.items };
}

/// Whether a package has a track of timecode.
fn has_timecode(tracks: &[TrackAt<'_>]) -> bool
    ensures { result ≡ list_any (is_of_kind is_timecode) (found_tracks tracks.now) }
{
    for track in tracks {
        if let Some(found) = &track.found {
            if is_of_timecode(found) {
                return true;
            }
        }
    }
    false
}

/// Whether a package is a material package that has one.
fn tells_time(found: &FoundPackage<'_>) -> bool
    ensures { result ≡ tells_time found.now }
{
    is_material(found.kind) && has_timecode(found.tracks.as_slice())
}

/// Whose the clocks are.
fn teller(packages: &[PackageAt<'_>]) -> PackageKind
    ensures { result ≡ teller packages.now }
{
    for package in packages {
        if let Some(found) = &package.found {
            if tells_time(found) {
                return PackageKind::Material;
            }
        }
    }
    PackageKind::Source
}

/// The runs that packages of a kind give, in no order.
fn runs_by(
    alloc: Global,
    by: PackageKind,
    segments: &[SegmentInNumbers],
    packages: &[PackageAt<'_>],
) -> Result<Vec<Run>, OutOfMemory>
    ensures { IfOk result (λ v. SameMembers v.items (runs_by by (is_timed segments.now) packages.now)) }
{
    match by {
        PackageKind::Material => runs_by_material(alloc, segments, packages),
        PackageKind::Source => runs_by_sources(alloc, segments, packages),
    }
}

/// Whether the preferred copy is finished.
fn is_finished(views: &Views) -> bool
    ensures { result ≡ is_finished views.now }
{
    match views.preferred() {
        Some(copy) => copy.finished,
        None => false,
    }
}

/// The runs that the packages give, in their order, each once.
#[tactic(auto, unfolding(crate::specs::Clocks::runs_of))]
fn runs_of(
    alloc: Global,
    by: PackageKind,
    views: &Views,
    packages: &[PackageAt<'_>],
) -> Result<Vec<Run>, OutOfMemory>
    requires { by ≡ teller packages.now }
    ensures runs { IfOk result (λ v. v.items ≡ runs_of views.now packages.now) }
    ensures rising { IfOk result (λ v. IsRising run_cmp v.items) }
{
    if !is_finished(views) {
        return Ok(Vec::new(alloc));
    }
    let mut runs = runs_by(alloc, by, views.segments_in_numbers(), packages)?;
    sort_once(&mut runs);
    Ok(runs)
}

impl Clocks {
    /// Those that the packages of the preferred copy give ([`preferred_tracks`](mxf_tracks::preferred_tracks)): none
    /// unless that copy is finished, since a set that is missing could be the one that shifts the clock. They take
    /// memory, and n log n steps for n packages, tracks, clips and index table segments.
    pub fn of(alloc: Global, views: &Views, tracks: &Tracks<'_>) -> Result<Clocks, OutOfMemory>
        ensures { IfOk result (λ c. c ≡ clocks_of views.now tracks.now) }
    {
        let packages = tracks.packages();
        let by = teller(packages);
        let runs = runs_of(alloc, by, views, packages)?;
        Ok(Clocks { by, runs })
    }

    /// Which packages tell the time: material packages, or file packages if no material package has a timecode track.
    pub fn by(&self) -> PackageKind
        ensures { result ≡ self.now.by }
    {
        self.by
    }

    /// The runs of all indexes, in their order.
    pub fn runs(&self) -> &[Run]
        ensures { result.now ≡ self.now.runs }
    {
        &self.runs
    }

    /// The runs of the index with an IndexSID: two binary searches.
    pub fn of_index(&self, index_sid: u32) -> &[Run]
        ensures { result.now ≡ filter (λ r. r.index_sid == index_sid) self.now.runs }
    {
        let from = u64::from(index_sid);
        between(&self.runs, from, Some(from + 1))
    }
}

/// A law of [`Clocks::of`]: a run of an index tells the number of a position exactly where the position is shown at
/// that number.
pub fn positions_are_shown_at_their_numbers()
    ensures { (notes : List NoteParts) (packages : List PackageAt) (index_sid position number : ℕ)
        → IsShown notes packages index_sid position number
        ↔ ((r : RunParts) × In r (clocks_of notes packages).runs × (r.index_sid ≡ index_sid)
        × (number_at r position ≡ Some number)) }
{}

/// A law of [`Clocks::of`]: there are no more runs than clips and file packages that are found.
pub fn no_more_runs_than_clips_and_files()
    ensures { (notes : List NoteParts) (packages : List PackageAt)
        → length (clocks_of notes packages).runs ≤ length (clips_found packages) + length (files_found packages) }
{}
