//! The law of what clocks go by: each choice is that of its relation.
ghost use Rattle.std.specs.Prelude.{◌≡◌, ◌↔◌, ℕ, ℤ, List, Some, find, true};
ghost use Rattle.mxf_klv.specs.Parts.{NoteParts};
ghost use Rattle.mxf_klv.specs.Rising.{In};
ghost use Rattle.mxf_catalogue.specs.Content.{IsContent};
ghost use Rattle.mxf_sets.specs.declared.record.rate.Rate.{Rate};
ghost use Rattle.mxf_views.specs.Copies.{IsBest, copies_of};
ghost use Rattle.mxf_views.specs.Places.{SegmentAtParts};
ghost use Rattle.mxf_views.specs.declared.copy.CopyInfo.{CopyInfo};
ghost use Rattle.mxf_tracks.specs.declared.component.Component.{Component};
ghost use Rattle.mxf_tracks.specs.declared.package.FoundPackage.{FoundPackage};
ghost use Rattle.mxf_tracks.specs.declared.package.PackageAt.{PackageAt};
ghost use Rattle.mxf_tracks.specs.declared.package.PackageKind.{PackageKind};
ghost use Rattle.mxf_tracks.specs.declared.track.FoundTrack.{FoundTrack};
ghost use Rattle.mxf_tracks.specs.declared.track.TrackAt.{TrackAt};
ghost use Rattle.mxf_clocks.specs.declared.clock_track.ClockTrack.{ClockTrack};
ghost use Rattle.mxf_clocks.specs.Choices.{IsClipOf, IsClockOf, IsFileIndex, IsFinished, IsOriginOf, IsOwnTrack};
ghost use Rattle.mxf_clocks.specs.Choices.{IsTeller, IsTrackFor};
ghost use Rattle.mxf_clocks.specs.ClockTracks.{clock_of, found_packages, found_tracks};
ghost use Rattle.mxf_clocks.specs.Clocks.{is_finished, teller};
ghost use Rattle.mxf_clocks.specs.FilePackages.{file_index};
ghost use Rattle.mxf_clocks.specs.TracksFor.{StartedClip, clip_of, is_beside, is_timed, origin_of, track_for};

/// A law of [`Clocks::of`](crate::Clocks::of): what it goes by is what relations say. The clock of a package is that of
/// its first track of timecode. The track that shows a file package, and the one beside a file package's own clock, is the
/// first that fits. An Origin is that of the first track with its TrackID. Relations also say which clips name a file
/// package, which packages are file packages, whose the clocks are, and whether the preferred copy is finished: a candidate
/// that no candidate stands above.
pub fn choices_by_definition()
    ensures clock { (tracks : List TrackAt) (c : ClockTrack) → (clock_of tracks ≡ Some c) ↔ IsClockOf tracks c }
    ensures track { (segments : List SegmentAtParts) (index_sid : ℕ) (clock_rate : Rate) (uid : List ℕ)
        (tracks : List TrackAt) (t : FoundTrack)
        → (track_for (is_timed segments) index_sid clock_rate uid tracks ≡ Some t)
        ↔ IsTrackFor segments index_sid clock_rate uid tracks t }
    ensures own_track { (segments : List SegmentAtParts) (index_sid : ℕ) (clock_rate : Rate) (tracks : List TrackAt)
        (t : FoundTrack) → (find (is_beside (is_timed segments) index_sid clock_rate) (found_tracks tracks) ≡ Some t)
        ↔ IsOwnTrack segments index_sid clock_rate tracks t }
    ensures clip { (uid : List ℕ) (component : Component) (s : StartedClip)
        → (clip_of uid component ≡ Some s) ↔ IsClipOf uid component s }
    ensures origin { (tracks : List TrackAt) (track_id : ℕ) (rate : Rate) (origin : ℤ)
        → (origin_of tracks track_id rate ≡ Some origin) ↔ IsOriginOf tracks track_id rate origin }
    ensures index { (packages : List PackageAt) (f : FoundPackage) (index_sid : ℕ)
        → (In f (found_packages packages) × (file_index packages f ≡ Some index_sid))
        ↔ IsFileIndex packages f index_sid }
    ensures teller { (packages : List PackageAt) (by : PackageKind) → (teller packages ≡ by) ↔ IsTeller packages by }
    ensures finished { (notes : List NoteParts) → (is_finished notes ≡ true) ↔ IsFinished notes }
    ensures best { (notes : List NoteParts) → IsContent notes
        → IsFinished notes ↔ ((c : CopyInfo) × IsBest (copies_of notes) c × (c.finished ≡ true)) }
{}
