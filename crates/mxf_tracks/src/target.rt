//! What the references from package to component lead to.
ghost use Rattle.std.specs.Prelude.{◌≡◌};
ghost use Rattle.std.specs.Result.{result_map_both};
ghost use Rattle.mxf_views.specs.Copies.{sets_of};
ghost use Rattle.mxf_tracks.specs.Keys.{fits};
ghost use Rattle.mxf_tracks.specs.Targets.{set_at, set_of};

use crate::keys::{is_clip, is_filler, is_sequence, is_timecode, is_track};
use crate::reached::Reached;
use mxf_klv::{Kind, Note, Ul};
use mxf_references::{CopySets, Found};
use uuid::Uuid;

/// What a reference leads to, with file offsets in bytes: the first of these that fits.
///
/// Sets of other keys and sets that were reached before are no fault of the file: static tracks and dark metadata stand
/// where tracks do.
#[derive(Clone, Copy, Debug, PartialEq, Eq)]
pub enum Target {
    /// No set of the copy has the identifier.
    Missing,
    /// More than one has it.
    Several,
    /// The only one, at this offset, is no raw set; of a package, no package.
    WrongKind(u64),
    /// The only one, at this offset, is a raw set of another key than the reference wants.
    Other(u64),
    /// The only one, at this offset, was reached by a reference before this one. It isn't followed again.
    Again(u64),
    /// The only one, at this offset, can't be read.
    Unreadable(u64),
    /// The only one, at this offset, is the set that is wanted, and it is followed.
    Found(u64),
}

/// What a reference names.
#[derive(Clone, Copy)]
pub(crate) enum Wanted {
    Track,
    Sequence,
    /// A source clip, a timecode component or a filler.
    Component,
    /// Any raw set.
    Descriptor,
}

impl Wanted {
    fn fits(self, key: &Ul) -> bool
        ensures { result ≡ fits self key.now }
    {
        match self {
            Wanted::Track => is_track(key),
            Wanted::Sequence => is_sequence(key),
            Wanted::Component => is_clip(key) || is_timecode(key) || is_filler(key),
            Wanted::Descriptor => true,
        }
    }
}

/// What the only set with an identifier is to a reference.
#[tactic(auto, unfolding(crate::specs::Targets::set_at))]
fn set_at<'a>(wanted: Wanted, reached: &Reached, set: &'a Note) -> Result<&'a Note, Target>
    ensures { result_map_both (λ n. n.now) (λ t. t) result ≡ set_at wanted reached.now set.now }
{
    let offset = set.offset();
    if set.kind() != Kind::RawSet {
        return Err(Target::WrongKind(offset));
    }
    if !wanted.fits(&set.key()) {
        return Err(Target::Other(offset));
    }
    if reached.has(offset) {
        return Err(Target::Again(offset));
    }
    Ok(set)
}

/// The set that a reference leads to, to be read; otherwise what it leads to.
#[tactic(auto, unfolding(crate::specs::Targets::set_of))]
pub(crate) fn set_of<'a>(
    copy: &CopySets<'a>,
    wanted: Wanted,
    reached: &Reached,
    uid: &Uuid,
) -> Result<&'a Note, Target>
    ensures { result_map_both (λ n. n.now) (λ t. t) result
        ≡ set_of (sets_of copy.now.notes copy.now.partition) wanted reached.now uid.now }
{
    match copy.find(uid) {
        Found::Absent => Err(Target::Missing),
        Found::One(offset) => match copy.note_at(offset) {
            Some(set) => set_at(wanted, reached, set),
            None => unreachable!(),
        },
        Found::Several => Err(Target::Several),
    }
}
