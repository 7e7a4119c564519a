//! The Origins of the tracks of packages.
ghost use Rattle.std.specs.Prelude.{◌≡◌, ◌∷◌, [], ℕ, List, IfOk, OnOk, if◌then◌else◌};
ghost use Rattle.std.specs.BTreeMap.{get};
ghost use Rattle.std.specs.Option.{option_or};
ghost use Rattle.std.specs.Str.{bytes_eq};
ghost use Rattle.mxf_sets.specs.declared.record.rate.Rate.{Rate};
ghost use Rattle.mxf_clocks.specs.ClockTracks.{found_tracks};
ghost use Rattle.mxf_clocks.specs.Lookups.{first_origin, origin_kept, origin_key_cmp, origin_with, track_origin};

use mxf_klv::OutOfMemory;
use mxf_sets::Rate;
use mxf_tracks::{FoundTrack, PackageAt, TrackAt};
use std::alloc::Global;
use std::collections::BTreeMap;

/// The rate of a track and its Origin, in its edit units.
#[derive(Clone, Copy)]
pub(crate) struct TrackOrigin {
    pub rate: Rate,
    pub origin: i64,
}

/// What the first track with a TrackID says, by the identifier of its package and the TrackID.
#[derive(Drop)]
pub(crate) struct Origins {
    by_track: BTreeMap<([u8; 32], u32), TrackOrigin>,
}

/// What a track says of its units.
fn track_origin(track: &FoundTrack<'_>) -> TrackOrigin
    ensures { result ≡ track_origin track.now }
{
    TrackOrigin {
        rate: track.track.edit_rate(),
        origin: track.track.origin(),
    }
}

impl Origins {
    /// Those of all packages that are found: n log n steps for n tracks.
    pub fn of(alloc: Global, packages: &[PackageAt<'_>]) -> Result<Origins, OutOfMemory>
        ensures { IfOk result (λ o. (uid : List ℕ) (id : ℕ) (rate : Rate)
            → origin_kept o.by_track uid id rate ≡ origin_with packages.now uid id rate) }
    {
        let mut origins = Origins {
            by_track: BTreeMap::new(alloc),
        };
        for package in packages {
            if let Some(found) = &package.found {
                origins.add_tracks(&found.properties.package_uid(), found.tracks.as_slice())?;
            }
        }
        Ok(origins)
    }

    /// Adds the tracks of one more package.
    fn add_tracks(&mut self, uid: &[u8; 32], tracks: &[TrackAt<'_>]) -> Result<(), OutOfMemory>
        ensures { OnOk result ((other : List ℕ) (id : ℕ) → get origin_key_cmp self.new.by_track (other, id)
            ≡ (if bytes_eq uid.now other
            then option_or (get origin_key_cmp self.old.by_track (other, id)) (first_origin id (found_tracks tracks.now))
            else get origin_key_cmp self.old.by_track (other, id))) }
    {
        for track in tracks {
            if let Some(found) = &track.found {
                self.add(uid, found)?;
            }
        }
        Ok(())
    }

    /// Adds one more track, unless its package has one with its TrackID.
    fn add(&mut self, uid: &[u8; 32], track: &FoundTrack<'_>) -> Result<(), OutOfMemory>
        ensures { OnOk result ((other : List ℕ) (id : ℕ) → get origin_key_cmp self.new.by_track (other, id)
            ≡ (if bytes_eq uid.now other
            then option_or (get origin_key_cmp self.old.by_track (other, id)) (first_origin id (track.now ∷ []))
            else get origin_key_cmp self.old.by_track (other, id))) }
    {
        let key = (*uid, track.track.id());
        if !self.by_track.contains_key(&key) {
            self.by_track.insert(key, track_origin(track))?;
        }
        Ok(())
    }

    /// The Origin of the first track with a TrackID, if its rate is good and equal to this one: one look-up.
    pub fn get(&self, uid: &[u8; 32], id: u32, rate: Rate) -> Option<i64>
        ensures { result ≡ origin_kept self.now.by_track uid.now id rate }
    {
        let track = self.by_track.get(&(*uid, id))?;
        if !track.rate.is_same(&rate) {
            return None;
        }
        Some(track.origin)
    }
}
