//! Tracks.
ghost use Rattle.std.specs.Prelude.{◌≡◌, IfOk};
ghost use Rattle.mxf_views.specs.Copies.{sets_of};
ghost use Rattle.mxf_tracks.specs.Walk.{track_in, track_of, tracks_from};

use crate::reached::Reached;
use crate::sequence::{SequenceAt, sequence_of};
use crate::target::{Target, Wanted, set_of};
use mxf_klv::{Note, OutOfMemory};
use mxf_references::CopySets;
use mxf_sets::{References, Track};
use std::alloc::Global;
use std::marker::Model;
use uuid::Uuid;

/// A track that was found.
#[derive(Debug, Drop)]
pub struct FoundTrack<'a> {
    /// Its record.
    pub track: Track<'a>,
    pub sequence: SequenceAt,
}

/// A reference of a package, and the track that it leads to.
#[derive(Debug, Drop)]
pub struct TrackAt<'a> {
    /// The instance identifier that the reference names.
    pub uid: Uuid,
    pub target: Target,
    /// None unless the target is found.
    pub found: Option<FoundTrack<'a>>,
}

/// References of a package with the tracks that they lead to, in order.
#[derive(Drop)]
pub struct TracksOf<'a> {
    items: Vec<TrackAt<'a>>,
}

impl<'a> Model for TracksOf<'a> {
    ghost use Rattle.std.specs.Prelude.{List};
    ghost use Rattle.mxf_tracks.specs.declared.track.TrackAt.{TrackAt};

    ghost Value = { List TrackAt };

    ghost view = { λ t. t.items.items };
}

impl<'a> TracksOf<'a> {
    /// The tracks.
    pub fn as_slice(&self) -> &[TrackAt<'a>]
        ensures { result.now ≡ self.now }
    {
        self.items.as_slice()
    }
}

/// What the set of a track is read as.
#[tactic(auto, unfolding(crate::specs::Walk::track_in))]
fn track_in(note: &Note) -> Option<Track<'_>>
    ensures { result ≡ track_in note.now }
{
    Track::read(note.value()?).ok()
}

/// The track that a reference leads to.
#[tactic(auto, unfolding(crate::specs::Walk::track_of))]
fn track_of<'a>(
    alloc: Global,
    copy: &CopySets<'a>,
    reached: &mut Reached,
    uid: &Uuid,
) -> Result<TrackAt<'a>, OutOfMemory>
    ensures { IfOk result (λ t. (t, reached.new)
        ≡ track_of (sets_of copy.now.notes copy.now.partition) reached.old uid.now) }
{
    let note = match set_of(copy, Wanted::Track, reached, uid) {
        Ok(note) => note,
        Err(target) => {
            return Ok(TrackAt {
                uid: *uid,
                target,
                found: None,
            });
        }
    };
    let offset = note.offset();
    reached.add(offset)?;
    let Some(track) = track_in(note) else {
        return Ok(TrackAt {
            uid: *uid,
            target: Target::Unreadable(offset),
            found: None,
        });
    };
    let sequence = sequence_of(alloc, copy, reached, &track.sequence())?;
    Ok(TrackAt {
        uid: *uid,
        target: Target::Found(offset),
        found: Some(FoundTrack { track, sequence }),
    })
}

/// The tracks that references lead to, in order.
pub(crate) fn tracks_of<'a>(
    alloc: Global,
    copy: &CopySets<'a>,
    reached: &mut Reached,
    references: References<'_>,
) -> Result<TracksOf<'a>, OutOfMemory>
    ensures { IfOk result (λ t. (t, reached.new)
        ≡ tracks_from (sets_of copy.now.notes copy.now.partition) reached.old references.entry) }
{
    let mut items = Vec::new(alloc);
    for uid in references {
        items.push(track_of(alloc, copy, reached, &uid)?)?;
    }
    Ok(TracksOf { items })
}
