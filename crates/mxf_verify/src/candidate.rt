//! Notes that are compared with the bytes of a source as these come.
use crate::agreement::{agree_on, part_of};
use mxf_klv::{Keyed, Note};

/// A note, and whether all bytes that were compared with it are as it says.
#[derive(Clone, Copy)]
pub(crate) struct Candidate<'a> {
    pub note: &'a Note,
    pub is_same: bool,
}

/// Candidates rise by the offsets of their notes, in bytes.
impl Keyed for Candidate<'_> {
    ghost key = { λ c. c.note.now.offset };

    fn key(&self) -> u64 {
        self.note.offset()
    }
}

impl<'a> Candidate<'a> {
    ghost use Rattle.std.specs.Prelude.{◌≡◌, map};
    ghost use Rattle.mxf_verify.specs.Candidates.{also, compared};

    /// The candidate, compared with further bytes, the first of which lies at an offset.
    #[tactic(auto, unfolding(crate::specs::Candidates::compared))]
    pub(crate) fn compared(&self, at: u64, bytes: &[u8]) -> Candidate<'a>
        ensures { result ≡ compared at bytes.now self.now }
    {
        let seen = at.saturating_sub(self.note.offset());
        let part = part_of(self.note, at, bytes);
        Candidate {
            note: self.note,
            is_same: self.is_same & agree_on(self.note, seen as usize, part),
        }
    }

    /// The candidate, of which something more is the same, or isn't.
    #[tactic(auto, unfolding(crate::specs::Candidates::also))]
    pub(crate) fn also(&self, is_same: bool) -> Candidate<'a>
        ensures { result ≡ also is_same self.now }
    {
        Candidate {
            note: self.note,
            is_same: self.is_same & is_same,
        }
    }
}
