//! What is said of a reference beside sources.
ghost use Rattle.std.specs.Prelude.{◌≡◌, length, map};
ghost use Rattle.mxf_places.specs.Held.{bytes_of};

use mxf_catalogue::{Cover, Run};
use mxf_klv::Note;
use std::marker::Model;

/// A note that differs in a source.
#[derive(Clone, Copy, Debug)]
pub struct Differing<'a> {
    /// The number of the source, from 1 on.
    pub source: usize,
    pub note: &'a Note,
}

/// A note that wasn't compared, though some of its bytes came.
#[derive(Clone, Copy, Debug)]
pub struct CutNote<'a> {
    pub note: &'a Note,
}

/// How much of a reference was verified.
#[derive(Clone, Copy, Debug, PartialEq, Eq)]
pub struct VerifiedCounts {
    /// How many notes are the same in some source.
    pub packets: usize,
    /// How many notes the reference has.
    pub all_packets: usize,
    /// How many bytes those notes hold that are the same in some source.
    pub bytes: u64,
    /// How many bytes the reference holds.
    pub all_bytes: u64,
    /// How many notes differ in some source.
    pub differs: usize,
    /// How many notes weren't compared, though some of their bytes came.
    pub cut: usize,
    /// How many bytes of the sources the reference says nothing of.
    pub unknown: u64,
}

/// A reference beside sources: which of its notes are the same there, which differ, and what wasn't compared (this
/// project's profile).
pub struct Verification<'a> {
    pub(crate) all_packets: usize,
    pub(crate) packets: usize,
    pub(crate) damaged: usize,
    pub(crate) differing: Vec<Differing<'a>>,
    pub(crate) cut: Vec<CutNote<'a>>,
    pub(crate) held: &'a Cover,
    pub(crate) verified: Cover,
    pub(crate) altered: Cover,
    pub(crate) unverified: Cover,
    pub(crate) unknown: Cover,
    pub(crate) came: bool,
}

// Written out, a drop is one call wherever a verification is let go.
impl Drop for Verification<'_> {
    fn drop(self) {
        let Verification {
            all_packets: _,
            packets: _,
            damaged: _,
            differing: _differing,
            cut: _cut,
            held: _,
            verified: _verified,
            altered: _altered,
            unverified: _unverified,
            unknown: _unknown,
            came: _,
        } = self;
    }
}

impl<'a> Model for Verification<'a> {
    ghost use Rattle.std.specs.Prelude.{map};
    ghost use Rattle.mxf_verify.specs.Verifications.{VerificationParts, differing_in};

    ghost Value = { VerificationParts };

    ghost view = { λ v. record {
      all_packets = v.all_packets;
      packets = v.packets;
      damaged = v.damaged;
      differing = map (λ d. differing_in d.source d.note.now) v.differing.items;
      cut = map (λ c. c.note.now) v.cut.items;
      held = v.held.now;
      verified = v.verified;
      altered = v.altered;
      unverified = v.unverified;
      unknown = v.unknown;
      came = v.came;
    } };
}

impl<'a> Verification<'a> {
    ghost use Rattle.mxf_verify.specs.Verifications.{counts_of, differing_in};

    /// The notes that differ: source after source, and of each in their order.
    pub fn differing(&self) -> &[Differing<'a>]
        ensures { map (λ d. differing_in d.source d.note.now) result.now ≡ self.now.differing }
    {
        self.differing.as_slice()
    }

    /// The notes that weren't compared, though some of their bytes came, in their order.
    pub fn cut(&self) -> &[CutNote<'a>]
        ensures { map (λ c. c.note.now) result.now ≡ self.now.cut }
    {
        self.cut.as_slice()
    }

    /// The bytes of the sources that no note of the reference holds.
    pub fn unknown(&self) -> &Cover
        ensures { result.now ≡ self.now.unknown }
    {
        &self.unknown
    }

    /// The bytes of the reference that are neither verified nor differ.
    pub fn unverified(&self) -> &Cover
        ensures { result.now ≡ self.now.unverified }
    {
        &self.unverified
    }

    /// The bytes of notes that are the same in some source.
    pub fn verified(&self) -> &Cover
        ensures { result.now ≡ self.now.verified }
    {
        &self.verified
    }

    /// The bytes of notes that differ in some source.
    pub fn altered(&self) -> &Cover
        ensures { result.now ≡ self.now.altered }
    {
        &self.altered
    }

    /// Whether some source has a byte.
    pub fn has_come(&self) -> bool
        ensures { result ≡ self.now.came }
    {
        self.came
    }

    /// How much was verified.
    pub fn counts(&self) -> VerifiedCounts
        ensures { result ≡ counts_of self.now }
    {
        VerifiedCounts {
            packets: self.packets,
            all_packets: self.all_packets,
            bytes: bytes_in(&self.verified),
            all_bytes: bytes_in(self.held),
            differs: self.damaged,
            cut: self.cut.len(),
            unknown: bytes_in(&self.unknown),
        }
    }
}

/// How many offsets lie in a cover.
fn bytes_in(cover: &Cover) -> u64
    ensures { result ≡ bytes_of cover.now }
{
    let mut bytes = 0;
    for run in cover.runs() {
        bytes += run.end - run.start;
    }
    bytes
}
