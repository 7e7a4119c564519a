//! What is listed once, and asked for each packet.
ghost use Rattle.std.specs.Prelude.{◌≡◌, IfOk, drop};
ghost use Rattle.mxf_doubts.specs.Doubts.{is_note_cause, is_of_header, is_strange_inside, is_strange_outside};
ghost use Rattle.mxf_doubts.specs.Tracks.{is_untracked};

use super::Code;
use crate::classes::is_misfit;
use crate::sound::SoundZones;
use crate::strange::Keys;
use crate::tracks::{is_no_track, named_tracks};
use mxf_klv::{Kind, Note, OutOfMemory};
use mxf_views::{Views, is_set};
use std::alloc::Global;
use std::collections::BTreeSet;
use std::marker::Model;

/// The keys, the zones of finished copies, and the named tracks of what views know.
pub(super) struct Asked<'a> {
    views: &'a Views,
    keys: Keys<'a>,
    zones: SoundZones<'a>,
    tracks: BTreeSet<[u8; 4]>,
}

impl Drop for Asked<'_> {
    fn drop(self) {
        let Asked {
            views: _,
            keys: _keys,
            zones: _zones,
            tracks: _tracks,
        } = self;
    }
}

impl<'a> Model for Asked<'a> {
    ghost use Rattle.std.specs.Prelude.{◌≡◌, List};
    ghost use Rattle.mxf_klv.specs.Parts.{NoteParts};
    ghost use Rattle.mxf_doubts.specs.Tracks.{AreNamed};

    ghost Value = { List NoteParts };

    ghost view = { λ a. a.views.now };

    ghost invariant = { λ a. (a.keys ≡ a.views.now) × ((a.zones ≡ a.views.now) × AreNamed a.views.now a.tracks) };
}

impl<'a> Asked<'a> {
    /// Those of what views know. They take memory.
    pub fn of(alloc: Global, views: &'a Views) -> Result<Asked<'a>, OutOfMemory>
        ensures { IfOk result (λ a. a ≡ views.now) }
    {
        let keys = Keys::of(alloc, views.catalogue())?;
        let zones = SoundZones::of(alloc, views)?;
        let tracks = named_tracks(alloc, views, &zones)?;
        Ok(Asked {
            views,
            keys,
            zones,
            tracks,
        })
    }

    /// The views.
    pub fn views(&self) -> &'a Views
        ensures { result.now ≡ self.now }
    {
        self.views
    }

    /// The keys of the notes.
    pub fn keys(&self) -> &Keys<'a>
        ensures { result.now ≡ self.now }
    {
        &self.keys
    }

    /// Whether the code is that of what is in doubt about the clear note.
    pub fn is_note_cause(&self, code: Code, note: &Note) -> bool
        ensures { result ≡ is_note_cause code self.now note.now }
    {
        match code {
            Code::G02 => self.is_strange_inside(note),
            Code::G06 => self.is_strange_outside(note),
            Code::G07 => self.is_untracked(note),
            Code::G08 => is_misfit(note),
            _ => false,
        }
    }

    /// Whether a packet lies in header metadata, and is strange or nothing that header metadata have.
    #[tactic(auto, unfolding(crate::specs::Doubts::is_strange_inside))]
    fn is_strange_inside(&self, note: &Note) -> bool
        ensures { result ≡ is_strange_inside self.now note.now }
    {
        self.zones.has(note) && (self.keys.is_strange(note) || !self.is_of_header(note))
    }

    /// Whether a strange packet lies anywhere else.
    #[tactic(auto, unfolding(crate::specs::Doubts::is_strange_outside))]
    fn is_strange_outside(&self, note: &Note) -> bool
        ensures { result ≡ is_strange_outside self.now note.now }
    {
        !self.zones.has(note) && self.keys.is_strange(note)
    }

    /// Whether header metadata have such a packet: a set, a fill, one of no known kind, or the primer pack of a finished copy.
    fn is_of_header(&self, note: &Note) -> bool
        ensures { result ≡ is_of_header self.now note.now }
    {
        is_set(note)
            || matches!(note.kind(), Kind::Fill | Kind::Other)
            || self.zones.begins_with(note)
    }

    /// Whether no other packet has the key of an essence element, and no named track its number, although there are some.
    #[tactic(auto, unfolding(crate::specs::Tracks::is_untracked))]
    fn is_untracked(&self, note: &Note) -> bool
        ensures { result ≡ is_untracked self.now note.now }
    {
        note.kind() == Kind::Essence
            && self.keys.is_lone(note)
            && is_no_track(&self.tracks, number_of(note))
    }
}

/// The last four bytes of the key of a packet.
fn number_of(note: &Note) -> [u8; 4]
    ensures { result ≡ drop 12 note.now.key }
{
    let key = note.key().bytes();
    [key[12], key[13], key[14], key[15]]
}
