//! Heads, by the offset at which their key and length end.
ghost use Rattle.std.specs.Prelude.{◌≡◌, ◌==◌, ◌&&◌, IfOk, filter, map};
ghost use Rattle.mxf_klv.specs.Note.{covered_end};
ghost use Rattle.mxf_places.specs.Heads.{heads_to, needed_of, start_of};
ghost use Rattle.mxf_places.specs.Held.{top_of};

use mxf_catalogue::Catalogue;
use mxf_klv::{KEY_AND_LENGTH, Note, OutOfMemory, between};
use std::alloc::Global;
use std::marker::Model;

/// The first of the heads whose key and length end at one offset.
#[derive(Clone, Copy)]
pub struct Head {
    /// Its file offset, in bytes.
    pub offset: u64,
    /// The greatest end, in bytes, that one of these heads with its offset claims.
    pub needed: u64,
}

/// The heads of a catalogue: packets whose key and length alone are held.
#[derive(Drop)]
pub struct Heads<'a> {
    catalogue: &'a Catalogue,
    heads: Vec<&'a Note>,
}

impl<'a> Model for Heads<'a> {
    ghost use Rattle.std.specs.Prelude.{List};
    ghost use Rattle.mxf_klv.specs.Parts.{NoteParts};
    ghost use Rattle.mxf_places.specs.Heads.{AreHeads};

    ghost Value = { List NoteParts };

    ghost view = { λ h. h.catalogue.now };

    ghost invariant = { λ h. AreHeads h.catalogue.now h.heads.items };
}

impl<'a> Heads<'a> {
    /// The heads of the catalogue. They take memory.
    pub fn of(alloc: Global, catalogue: &'a Catalogue) -> Result<Heads<'a>, OutOfMemory>
        ensures { IfOk result (λ h. h ≡ catalogue.now) }
    {
        let heads = catalogue.notes().filter(|note| note.is_head());
        Ok(Heads {
            catalogue,
            heads: heads.collect(alloc)?,
        })
    }

    /// The heads whose key and length end at an offset, in bytes, in the order of notes. They take memory; the time is
    /// that of two binary searches and of the heads that begin up to 25 bytes before it.
    pub fn ending_at(&self, alloc: Global, end: u64) -> Result<Vec<&'a Note>, OutOfMemory>
        ensures { IfOk result (λ v. map (λ r. r.now) v.items ≡ heads_to end self.now) }
    {
        let near = self.near(end);
        let ending = near.iter().filter(|head| head.covered_end() == end);
        Ok(ending.copied().collect(alloc)?)
    }

    /// Where a packet begins whose rest is the bytes from this offset on: at the first head whose key and length end
    /// there, or else at the offset itself. Also the greatest end that such a head there claims, otherwise 0. All are
    /// in bytes. The time is that of [`Heads::ending_at`].
    pub fn around(&self, first: u64) -> Head
        ensures start { result.offset ≡ start_of self.now first }
        ensures needed { result.needed ≡ needed_of self.now (start_of self.now first) first }
    {
        let near = self.near(first);
        let head = near.iter().find(|head| head.covered_end() == first);
        let offset = head.map_or(first, |head| head.offset());
        let needed = needed_among(near, offset, first);
        Head { offset, needed }
    }

    /// The heads that begin up to 25 bytes before an offset, in bytes: those whose key and length end there are among
    /// them.
    fn near(&self, end: u64) -> &[&'a Note]
        ensures { filter (λ n. covered_end n == end) (map (λ r. r.now) result.now) ≡ heads_to end self.now }
    {
        between(&self.heads, end.saturating_sub(KEY_AND_LENGTH), Some(end))
    }
}

/// The greatest end, in bytes, that heads claim of those that begin at one offset, and whose key and length end at
/// another.
fn needed_among(heads: &[&Note], start: u64, first: u64) -> u64
    ensures { result ≡ top_of (filter (λ n. (covered_end n == first) && (n.offset == start))
        (map (λ r. r.now) heads.now)) }
{
    let mut needed = 0;
    for head in heads {
        if head.covered_end() == first && head.offset() == start {
            needed = needed.max(head.end());
        }
    }
    needed
}
