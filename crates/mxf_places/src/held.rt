//! Which offsets of a file are held, where the file ends, and how an offset stands.
ghost use Rattle.std.specs.Prelude.{◌≡◌, ◌↔◌, ◌<◌, ◌≤◌, ℕ, IfOk, IsTrue, List, Some};
ghost use Rattle.mxf_klv.specs.Parts.{NoteParts};
ghost use Rattle.mxf_places.specs.Held.{AreDisputed, begins_clear_head, end_of_file, held_end, is_disputed_at};
ghost use Rattle.mxf_places.specs.Held.{IsDisputedAt, IsEndOfFile, IsHeld, is_held, is_in_file, rip_end_by, top_of};
ghost use Rattle.mxf_catalogue.specs.Covers.{IsCover};
ghost use Rattle.mxf_places.specs.AtHand.{AtHandParts, IsEdge, edge_of};
ghost use Rattle.mxf_places.specs.Named.{IsInFile, IsUnknown};
ghost use Rattle.mxf_views.specs.RandomIndexView.{rip_view_of};
ghost use Rattle.mxf_places.specs.Claims.{is_unknown, over_fills};

use crate::at_hand::AtHand;
use crate::fills::Fills;
use mxf_catalogue::{Catalogue, Cover};
use mxf_klv::{MAX, OutOfMemory};
use mxf_views::{RipView, Views};
use std::alloc::Global;
use std::marker::Model;

/// What is held of a file: the offsets that packets cover, those that disputed ones do, and the end of the file.
pub struct Holdings<'a> {
    views: &'a Views,
    disputed: Cover,
    fills: Fills,
    end: Option<u64>,
}

// Written out, a drop is one call wherever holdings are let go.
impl Drop for Holdings<'_> {
    fn drop(self) {
        let Holdings {
            views: _,
            disputed: _disputed,
            fills: _fills,
            end: _,
        } = self;
    }
}

impl<'a> Model for Holdings<'a> {
    ghost use Rattle.std.specs.Prelude.{List, ◌≡◌, ℕ};
    ghost use Rattle.mxf_klv.specs.Parts.{NoteParts};
    ghost use Rattle.mxf_places.specs.Held.{AreDisputed, end_of_file};
    ghost use Rattle.mxf_places.specs.Claims.{over_fills};
    ghost use Rattle.mxf_places.specs.Fills.{over_in};

    ghost Value = { List NoteParts };

    ghost view = { λ h. h.views.now };

    ghost invariant = { λ h. AreDisputed h.views.now h.disputed × (h.end ≡ end_of_file h.views.now)
        × ((x : ℕ) → over_in h.fills.ends x ≡ over_fills h.views.now x) };
}

impl<'a> Holdings<'a> {
    /// What is held of the file of the views. It takes memory.
    pub fn of(alloc: Global, views: &'a Views) -> Result<Holdings<'a>, OutOfMemory>
        ensures { IfOk result (λ h. h ≡ views.now) }
    {
        let disputed = disputed_in(alloc, views.catalogue())?;
        let fills = Fills::of(alloc, views.catalogue())?;
        let end = end_of_file(views);
        Ok(Holdings {
            views,
            disputed,
            fills,
            end,
        })
    }

    /// The views.
    pub fn views(&self) -> &'a Views
        ensures { result.now ≡ self.now }
    {
        self.views
    }

    /// The offsets that disputed packets cover.
    pub fn disputed(&self) -> &Cover
        ensures { AreDisputed self.now result.now }
    {
        &self.disputed
    }

    /// Whether some packet covers the offset, in bytes: the whole packet, or the key and length of a head.
    pub fn is_held(&self, offset: u64) -> bool
        ensures { result ≡ is_held self.now offset }
    {
        self.views.catalogue().spans().has(offset)
    }

    /// Whether a disputed packet does.
    pub fn is_disputed_at(&self, offset: u64) -> bool
        ensures { result ≡ is_disputed_at self.now offset }
    {
        self.disputed.has(offset)
    }

    /// Whether some packet covers an offset from `from` up to `to`, in bytes, the end excluded.
    pub fn is_any_held(&self, from: u64, to: u64) -> bool
        ensures { IsTrue result ↔ ((at : ℕ) × IsHeld self.now at × (from ≤ at) × (at < to)) }
    {
        self.views.catalogue().spans().meets(from, to)
    }

    /// Whether packets cover all offsets from `from` up to `to`, in bytes, the end excluded.
    pub fn are_all_held(&self, from: u64, to: u64) -> bool
        ensures { IsTrue result ↔ ((at : ℕ) → from ≤ at → at < to → IsHeld self.now at) }
    {
        self.views.catalogue().spans().has_all(from, to)
    }

    /// Whether a disputed packet covers an offset from `from` up to `to`, in bytes, the end excluded.
    pub fn is_any_disputed(&self, from: u64, to: u64) -> bool
        ensures { IsTrue result ↔ ((at : ℕ) × IsDisputedAt self.now at × (from ≤ at) × (at < to)) }
    {
        self.disputed.meets(from, to)
    }

    /// Where one comes to from an offset, in bytes, by going on over the fills that begin there.
    pub fn over_fills(&self, offset: u64) -> u64
        ensures { result ≡ over_fills self.now offset }
    {
        self.fills.over(offset)
    }

    /// Whether it isn't known what begins at an offset, in bytes, that may lie in the file: nothing is held there, or
    /// what is held is disputed.
    pub fn is_unknown(&self, offset: u64) -> bool
        ensures { result ≡ is_unknown self.now offset }
    {
        self.is_in_file(offset) && (self.is_disputed_at(offset) || !self.is_held(offset))
    }

    /// Whether a head that shares no byte with another packet begins at an offset, in bytes: the rest of its packet
    /// isn't held.
    pub fn begins_clear_head(&self, offset: u64) -> bool
        ensures { result ≡ begins_clear_head self.now offset }
    {
        match self.views.catalogue().undisputed_at(offset) {
            Some(note) => note.is_head(),
            None => false,
        }
    }

    /// The end of the file, in bytes, if it is known.
    pub fn end(&self) -> Option<u64>
        ensures { result ≡ end_of_file self.now }
    {
        self.end
    }

    /// The greatest end of a packet, in bytes, even if a head claims it; 0 if there is none.
    pub fn greatest_end(&self) -> u64
        ensures { result ≡ top_of self.now }
    {
        self.views.catalogue().end()
    }

    /// How far the file reaches, in bytes, as far as it is known: to its end, or to the greatest end of a packet or of
    /// what sources give.
    pub fn edge(&self, at_hand: &AtHand) -> u64
        ensures { result ≡ edge_of at_hand.now self.now }
    {
        let known = self.greatest_end().max(at_hand.given().end());
        self.end.unwrap_or(known)
    }

    /// The first offset above all that is held, in bytes.
    pub fn held_end(&self) -> u64
        ensures { result ≡ held_end self.now }
    {
        self.views.catalogue().spans().end()
    }

    /// Whether the offset, in bytes, may lie in the file.
    pub fn is_in_file(&self, offset: u64) -> bool
        ensures { result ≡ is_in_file self.now offset }
    {
        offset < MAX && self.end.is_none_or(|end| offset < end)
    }
}

/// The offsets that disputed packets cover, in bytes.
fn disputed_in(alloc: Global, catalogue: &Catalogue) -> Result<Cover, OutOfMemory>
    ensures { IfOk result (λ c. AreDisputed catalogue.now c) }
{
    let mut cover = Cover::new(alloc);
    for disputed in catalogue.disputed() {
        cover.add(disputed.note.offset(), disputed.note.covered_end())?;
    }
    Ok(cover)
}

/// The end of the only random index pack, in bytes, if it can be read.
fn rip_end(views: &Views) -> Option<u64>
    ensures { result ≡ rip_end_by views.now (rip_view_of views.now) }
{
    let RipView::One(rip) = views.rip() else {
        return None;
    };
    let pack = views.catalogue().clear_at(rip.offset())?;
    Some(pack.end())
}

/// The end of the file of the views, in bytes, if it is known: that of the only random index pack, if nothing is held
/// at or above it (ST 377-1, Random Index Pack).
#[tactic(auto, unfolding(crate::specs::Held::end_of_file))]
fn end_of_file(views: &Views) -> Option<u64>
    ensures { result ≡ end_of_file views.now }
{
    let end = rip_end(views)?;
    if views.catalogue().spans().end() > end {
        return None;
    }
    Some(end)
}

/// A law: what is held and what is disputed, where the file ends, what may lie in it, and at which offsets it isn't
/// known what begins.
pub fn held_by_definition()
    ensures held { (notes : List NoteParts) (x : ℕ) → IsTrue (is_held notes x) ↔ IsHeld notes x }
    ensures disputed { (notes : List NoteParts) (x : ℕ) → IsTrue (is_disputed_at notes x) ↔ IsDisputedAt notes x }
    ensures ends { (notes : List NoteParts) (end : ℕ) → (end_of_file notes ≡ Some end) ↔ IsEndOfFile notes end }
    ensures in_file { (notes : List NoteParts) (x : ℕ) → IsTrue (is_in_file notes x) ↔ IsInFile notes x }
    ensures unknown { (notes : List NoteParts) (x : ℕ) → IsTrue (is_unknown notes x) ↔ IsUnknown notes x }
{}

/// A law of [`Holdings::edge`]: the file reaches to its end or, if that isn't known, to the least offset to which all
/// ends of notes reach at most, and below which all given offsets lie.
pub fn edges_by_definition()
    ensures { (at : AtHandParts) (notes : List NoteParts) (edge : ℕ) → IsCover at.given
        → (edge_of at notes ≡ edge) ↔ IsEdge at notes edge }
{}
