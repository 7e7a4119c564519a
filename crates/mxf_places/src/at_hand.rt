//! What sources give of a file beside the packets that are noted of it.
ghost use Rattle.std.specs.Prelude.{◌≡◌, ◌↔◌, ◌+◌, ◌-◌, ◌++◌, ◌<◌, ◌≤◌, ◌&&◌, ℕ, IfOk, IsTrue, List, OnOk, Option};
ghost use Rattle.std.specs.Prelude.{count_by};
ghost use Rattle.std.specs.List.{range_with_len};
ghost use Rattle.mxf_klv.specs.Rising.{In};
ghost use Rattle.mxf_catalogue.specs.declared.run.Run.{Run};
ghost use Rattle.mxf_catalogue.specs.Covers.{IsCover};
ghost use Rattle.mxf_catalogue.specs.Runs.{LiesIn};
ghost use Rattle.mxf_places.specs.AtHand.{IsLacking, LiesBetween, LiesInRange, has_offset, has_offsets, lacking};
ghost use Rattle.mxf_places.specs.AtHand.{nothing_at_hand, outside_below, some_range, up_to_bound};
ghost use Rattle.mxf_places.specs.declared.at_hand.OffsetRange.{OffsetRange};

use mxf_catalogue::Cover;
use mxf_klv::{KEY_AND_LENGTH, OutOfMemory};
use std::alloc::Global;
use std::marker::Model;

/// A range of file offsets, in bytes, the end excluded; without an end it has all from its start on.
#[derive(Clone, Copy, Debug, PartialEq, Eq)]
pub struct OffsetRange {
    pub start: u64,
    pub end: Option<u64>,
}

/// The offsets whose bytes the sources of a run give, and those of them at which no source differs from another: the
/// latter are at hand (this project's profile).
pub struct AtHand {
    given: Cover,
    hand: Cover,
}

// Written out, a drop is one call wherever the bytes at hand are let go.
impl Drop for AtHand {
    fn drop(self) {
        let AtHand {
            given: _given,
            hand: _hand,
        } = self;
    }
}

impl Model for AtHand {
    ghost use Rattle.mxf_places.specs.AtHand.{AreAtHand, AtHandParts};

    ghost Value = { AtHandParts };

    ghost view = { λ a. record { given = a.given; hand = a.hand } };

    ghost invariant = { λ a. AreAtHand (record { given = a.given; hand = a.hand }) };
}

impl AtHand {
    /// No byte of the file is at hand.
    pub fn nothing(alloc: Global) -> AtHand
        ensures { result ≡ nothing_at_hand }
    {
        AtHand {
            given: Cover::new(alloc),
            hand: Cover::new(alloc),
        }
    }

    /// The offsets that sources give, and those of them at which none differs from another.
    pub fn of(given: Cover, hand: Cover) -> AtHand
        requires { (x : ℕ) → LiesIn hand x → LiesIn given x }
        ensures given { result.given ≡ given }
        ensures hand { result.hand ≡ hand }
    {
        AtHand { given, hand }
    }

    /// The offsets that some source gives.
    pub fn given(&self) -> &Cover
        ensures given { result.now ≡ self.now.given }
        ensures cover { IsCover self.now.given }
    {
        &self.given
    }

    /// The offsets that are at hand.
    pub fn hand(&self) -> &Cover
        ensures hand { result.now ≡ self.now.hand }
        ensures cover { IsCover self.now.hand }
        ensures within { (x : ℕ) → LiesIn self.now.hand x → LiesIn self.now.given x }
    {
        &self.hand
    }

    /// Whether the offset, in bytes, is at hand: a binary search.
    pub fn has(&self, offset: u64) -> bool
        ensures { result ≡ has_offset self.now.hand offset }
    {
        self.hand.has(offset)
    }

    /// Whether as many bytes from `start` on are at hand as key and length of a packet can have.
    pub fn has_key_and_length(&self, start: u64) -> bool
        ensures { result ≡ has_offsets self.now.hand start (start + 25) }
    {
        match start.checked_add(KEY_AND_LENGTH) {
            Some(end) => self.hand.has_all(start, end),
            None => false,
        }
    }

    /// Whether all offsets from `start` up to `end`, in bytes, the end excluded, are given: a binary search.
    pub fn gives_all(&self, start: u64, end: u64) -> bool
        ensures { result ≡ has_offsets self.now.given start end }
    {
        self.given.has_all(start, end)
    }

    /// The maximal ranges of offsets from `start` up to `end`, in bytes, that aren't at hand, rising; without an end as
    /// far as offsets go. They take memory; the time is that of two binary searches and of the runs between the two.
    pub fn lacking(
        &self,
        alloc: Global,
        start: u64,
        end: Option<u64>,
    ) -> Result<Vec<OffsetRange>, OutOfMemory>
        ensures { IfOk result (λ v. v.items ≡ lacking self.now.hand start end) }
    {
        ranges_lacking(alloc, &self.hand, start, end)
    }

    /// How many offsets below `end`, in bytes, are at hand and not in the cover: two binary searches for each run of
    /// it, and the runs of both.
    pub fn count_outside(&self, cover: &Cover, end: u64) -> u64
        ensures { result ≡ outside_below self.now.hand cover.now end }
    {
        count_within(&self.hand, 0, end) - count_shared(&self.hand, cover, end)
    }
}

/// How many offsets below an end, in bytes, lie in both covers.
fn count_shared(hand: &Cover, cover: &Cover, end: u64) -> u64
    requires { IsCover hand.now }
    ensures { result ≡ count_by (λ x. has_offset cover.now x && has_offset hand.now x) (range_with_len 0 end) }
{
    let mut count = 0;
    for run in cover.runs() {
        count += count_within(hand, run.start, run.end.min(end));
    }
    count
}

/// How many offsets from a start up to an end, in bytes, lie in a cover.
fn count_within(cover: &Cover, start: u64, end: u64) -> u64
    requires { IsCover cover.now }
    ensures { result ≡ count_by (has_offset cover.now) (range_with_len start (end - start)) }
{
    let mut count = 0;
    for run in cover.runs_between(start, Some(end)) {
        count += run.end.min(end).saturating_sub(run.start.max(start));
    }
    count
}

/// The maximal ranges of offsets from a start up to an end, in bytes, that a cover lacks, rising; without an end as far
/// as offsets go. They take memory; the time is that of two binary searches and of the runs between the two.
pub fn ranges_lacking(
    alloc: Global,
    cover: &Cover,
    start: u64,
    end: Option<u64>,
) -> Result<Vec<OffsetRange>, OutOfMemory>
    requires { IsCover cover.now }
    ensures { IfOk result (λ v. v.items ≡ lacking cover.now start end) }
{
    let mut ranges = Vec::new(alloc);
    let mut reached = start;
    for run in cover.runs_between(start, end) {
        add_range(&mut ranges, reached, Some(up_to_bound(run.start, end)))?;
        reached = reached.max(run.end);
    }
    add_range(&mut ranges, reached, end)?;
    Ok(ranges)
}

/// Adds the range, if it has an offset.
fn add_range(ranges: &mut Vec<OffsetRange>, start: u64, end: Option<u64>) -> Result<(), OutOfMemory>
    ensures { OnOk result (ranges.new.items ≡ ranges.old.items ++ some_range start end) }
{
    if end.is_none_or(|end| start < end) {
        ranges.push(OffsetRange { start, end })?;
    }
    Ok(())
}

/// The offset, in bytes, and no more than the bound.
pub fn up_to_bound(offset: u64, bound: Option<u64>) -> u64
    ensures { result ≡ up_to_bound offset bound }
{
    match bound {
        Some(bound) => offset.min(bound),
        None => offset,
    }
}

/// A law of [`AtHand::lacking`]: they are the maximal ranges from the start up to the end that have no offset of the
/// runs; and of whether runs have an offset, or all of a range.
pub fn lacking_by_definition()
    ensures members { (runs : List Run) (start : ℕ) (end : Option ℕ) (r : OffsetRange) → IsCover runs
        → In r (lacking runs start end) ↔ IsLacking runs start end r }
    ensures offsets { (runs : List Run) (start : ℕ) (end : Option ℕ) (x : ℕ) → IsCover runs
        → LiesBetween start end x → ¬ LiesIn runs x
        → (r : OffsetRange) × In r (lacking runs start end) × LiesInRange r x }
    ensures has { (runs : List Run) (x : ℕ) → IsTrue (has_offset runs x) ↔ LiesIn runs x }
    ensures has_all { (runs : List Run) (from to : ℕ) → IsCover runs
        → IsTrue (has_offsets runs from to) ↔ ((x : ℕ) → from ≤ x → x < to → LiesIn runs x) }
{}
