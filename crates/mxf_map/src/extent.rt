//! The offsets of a map as ranges that stand alike.
ghost use Rattle.std.specs.Prelude.{◌≡◌, ◌≢◌, ◌↔◌, ◌⊎◌, ◌<◌, ◌≤◌, ℕ, IfOk, List};
ghost use Rattle.mxf_klv.specs.Rising.{In};
ghost use Rattle.mxf_catalogue.specs.Covers.{IsCover};
ghost use Rattle.mxf_catalogue.specs.Runs.{LiesIn};
ghost use Rattle.mxf_places.specs.AtHand.{KnownParts};
ghost use Rattle.mxf_map.specs.Extents.{AreExtents, IsExtent, IsOfExtent, StandsAs, standing_at};
ghost use Rattle.mxf_map.specs.declared.extent.ByteStanding.{ByteStanding};
ghost use Rattle.mxf_map.specs.declared.extent.MapExtent.{MapExtent};

use mxf_catalogue::Cover;
use mxf_klv::OutOfMemory;
use mxf_places::{AtHand, Holdings};
use mxf_views::Views;
use std::alloc::Global;
use std::fmt;
use std::marker::Model;

/// How a byte of a file stands: the first of these that is so (this project's profile).
#[derive(Clone, Copy, Debug, PartialEq, Eq)]
pub enum ByteStanding {
    /// It is doubtful: a disputed packet covers it.
    Disputed,
    /// It is held: it lies in a whole packet, or in the key or the length of a head.
    Held,
    /// It is at hand, and in no noted packet.
    Hand,
    /// It is to be restored.
    Missing,
}

/// The word for the standing, as in `held`.
impl fmt::Display for ByteStanding {
    ghost use Rattle.std.specs.Prelude.{Some};
    ghost use Rattle.mxf_map.specs.Words.{byte_standing_name};

    ghost output = { λ standing. Some (byte_standing_name standing) };

    fn fmt<W: fmt::Write>(&self, f: &mut fmt::Formatter<W>) -> fmt::Result {
        f.write_str(match *self {
            ByteStanding::Disputed => "disputed",
            ByteStanding::Held => "held",
            ByteStanding::Hand => "hand",
            ByteStanding::Missing => "missing",
        })
    }
}

/// A maximal range of file offsets, in bytes, the end excluded, that stand alike.
#[derive(Clone, Copy, Debug, PartialEq, Eq)]
pub struct MapExtent {
    pub start: u64,
    pub end: u64,
    pub standing: ByteStanding,
}

/// The maximal ranges of offsets below an end, in bytes, that stand alike, rising. It takes memory; the time is that of
/// a few binary searches for each range of what is held, disputed or at hand.
pub fn extents(
    alloc: Global,
    views: &Views,
    at_hand: &AtHand,
    end: u64,
) -> Result<Vec<MapExtent>, OutOfMemory>
    ensures { IfOk result (λ v. AreExtents (standing_at (record { notes = views.now; at = at_hand.now })) end 0 v.items) }
{
    let holdings = Holdings::of(alloc, views)?;
    let standings = ByteStandings { holdings, at_hand };
    extents_below(alloc, &standings, end)
}

/// The maximal ranges of offsets below an end, in bytes, that stand alike.
fn extents_below(
    alloc: Global,
    standings: &ByteStandings<'_>,
    end: u64,
) -> Result<Vec<MapExtent>, OutOfMemory>
    ensures { IfOk result (λ v. AreExtents (standing_at standings.now) end 0 v.items) }
{
    let mut extents = Vec::new(alloc);
    let mut from = 0;
    while from < end {
        let to = standings.end_of(from, end);
        extents.push(MapExtent {
            start: from,
            end: to,
            standing: standings.at(from),
        })?;
        from = to;
    }
    Ok(extents)
}

/// What is asked how bytes stand.
#[derive(Drop)]
struct ByteStandings<'a> {
    holdings: Holdings<'a>,
    at_hand: &'a AtHand,
}

impl<'a> Model for ByteStandings<'a> {
    ghost use Rattle.mxf_places.specs.AtHand.{KnownParts};

    ghost Value = { KnownParts };

    ghost view = { λ s. record { notes = s.holdings; at = s.at_hand.now } };
}

impl<'a> ByteStandings<'a> {
    /// How the byte at an offset stands.
    fn at(&self, offset: u64) -> ByteStanding
        ensures { result ≡ standing_at self.now offset }
    {
        if self.holdings.is_disputed_at(offset) {
            ByteStanding::Disputed
        } else if self.holdings.is_held(offset) {
            ByteStanding::Held
        } else if self.at_hand.has(offset) {
            ByteStanding::Hand
        } else {
            ByteStanding::Missing
        }
    }

    /// The first offset above `from` that stands otherwise than it, or the end if there is none below that, in bytes.
    fn end_of(&self, from: u64, end: u64) -> u64
        requires { from < end }
        ensures above { from < result }
        ensures within { result ≤ end }
        ensures same { (x : ℕ) → from ≤ x → x < result → standing_at self.now x ≡ standing_at self.now from }
        ensures last { (result ≡ end) ⊎ (standing_at self.now result ≢ standing_at self.now from) }
    {
        let standing = self.at(from);
        let mut to = self.next_change(from, end);
        while to < end && self.at(to) == standing {
            to = self.next_change(to, end);
        }
        to
    }

    /// An offset above `from`, and no greater than the end, in bytes, below which offsets stand as that at `from`.
    fn next_change(&self, from: u64, end: u64) -> u64
        requires { from < end }
        ensures above { from < result }
        ensures within { result ≤ end }
        ensures same { (x : ℕ) → from ≤ x → x < result → standing_at self.now x ≡ standing_at self.now from }
    {
        let disputed = next_change(self.holdings.disputed(), from, end);
        let held = next_change(self.holdings.views().catalogue().spans(), from, end);
        let hand = next_change(self.at_hand.hand(), from, end);
        disputed.min(held).min(hand)
    }
}

/// The first offset above `from` that is in the cover where `from` isn't, or isn't where it is, in bytes; the end if
/// there is none below that: two binary searches.
fn next_change(cover: &Cover, from: u64, end: u64) -> u64
    requires { from < end }
    ensures above { from < result }
    ensures within { result ≤ end }
    ensures same { (x : ℕ) → from ≤ x → x < result → LiesIn cover.now x ↔ LiesIn cover.now from }
{
    match cover.runs_between(from, Some(end)).next() {
        Some(run) if from < run.start => run.start,
        Some(run) => run.end.min(end),
        None => end,
    }
}

/// A law of [`extents`]: how a byte stands, by what is held and at hand.
pub fn byte_standings_by_definition()
    ensures { (known : KnownParts) (x : ℕ) (standing : ByteStanding)
        → (standing_at known x ≡ standing) ↔ StandsAs known x standing }
{}

/// A law of [`extents`]: they are the maximal ranges that stand alike, and there is one list of them. Each offset below
/// the end lies in exactly one.
pub fn extents_by_definition()
    ensures members { (stands : ℕ → ByteStanding) (end : ℕ) (extents : List MapExtent) (e : MapExtent)
        → AreExtents stands end 0 extents → In e extents ↔ IsExtent stands end e }
    ensures offsets { (stands : ℕ → ByteStanding) (end : ℕ) (extents : List MapExtent) (x : ℕ)
        → AreExtents stands end 0 extents → x < end → (e : MapExtent) × In e extents × IsOfExtent e x }
    ensures alone { (stands : ℕ → ByteStanding) (end x : ℕ) (d e : MapExtent)
        → IsExtent stands end d → IsExtent stands end e → IsOfExtent d x → IsOfExtent e x → d ≡ e }
    ensures one { (stands : ℕ → ByteStanding) (end : ℕ) (a b : List MapExtent)
        → AreExtents stands end 0 a → AreExtents stands end 0 b → a ≡ b }
{}
