//! Offsets at which sources differ, as they are noted.
ghost use Rattle.std.specs.Prelude.{◌≡◌, ◌+◌, ◌<◌, ◌≤◌, List, [], length, map, IfOk, OnErr, OnOk};
ghost use Rattle.std.specs.List.{AllByRecursion};
ghost use Rattle.std.specs.List.Sorted.{IsNonDecreasingBy, IsPermutation};
ghost use Rattle.mxf_klv.specs.Note.{greatest_end};
ghost use Rattle.mxf_catalogue.specs.Covers.{IsCover, union_of_runs};
ghost use Rattle.mxf_hand.specs.Differing.{AreJoined, IsDifference, is_near, run_of_difference, with_all, with_bytes};
ghost use Rattle.mxf_hand.specs.Differing.{with_near};
ghost use Rattle.mxf_hand.specs.declared.given.differing.Difference.{Difference};

use mxf_catalogue::Cover;
use mxf_klv::OutOfMemory;
use std::alloc::Global;
use std::marker::Model;

/// Two offsets at which sources differ belong to one difference if they lie less than this apart.
const NEAR: u64 = 512;

/// Offsets, in bytes, from a first to a last. Sources differ at both, and from each offset between at which they differ
/// it is less than 512 to the next.
#[derive(Clone, Copy, PartialEq, Eq)]
pub(crate) struct Difference {
    pub first: u64,
    pub last: u64,
}

/// Offsets at which sources differ, in the order in which they were noted. If one lies near after the last, the two are
/// one difference.
#[derive(Drop)]
pub(super) struct Differing {
    noted: Vec<Difference>,
}

impl Model for Differing {
    ghost use Rattle.std.specs.Prelude.{List};
    ghost use Rattle.std.specs.List.{AllByRecursion};
    ghost use Rattle.mxf_hand.specs.Differing.{IsDifference};
    ghost use Rattle.mxf_hand.specs.declared.given.differing.Difference.{Difference};

    ghost Value = { List Difference };

    ghost view = { λ d. d.noted.items };

    ghost invariant = { λ d. AllByRecursion IsDifference d.noted.items };
}

impl Differing {
    /// Nothing is noted.
    pub(super) fn new(alloc: Global) -> Differing
        ensures { result ≡ [] }
    {
        Differing {
            noted: Vec::new(alloc),
        }
    }

    /// Notes each offset, from a file offset on, at which bytes differ from others.
    pub(super) fn note_bytes(
        &mut self,
        start: u64,
        bytes: &[u8],
        others: &[u8],
    ) -> Result<(), OutOfMemory>
        requires { start + length bytes.now ≤ greatest_end }
        ensures { OnOk result (self.new ≡ with_bytes self.old start bytes.now others.now) }
    {
        // Most are alike, and this is quick.
        if bytes == others {
            return Ok(());
        }
        let mut at = start;
        for (byte, other) in bytes.iter().zip(others) {
            if byte != other {
                self.note(Difference {
                    first: at,
                    last: at,
                })?;
            }
            at += 1;
        }
        Ok(())
    }

    /// Notes the difference, or extends the last by it if it is near.
    fn note(&mut self, next: Difference) -> Result<(), OutOfMemory>
        requires { IsDifference next }
        ensures { OnOk result (self.new ≡ with_near self.old next) }
    {
        add_near(&mut self.noted, next)
    }

    /// The same differences by their first offsets, those that are near each other as one. They take memory.
    pub(super) fn joined(self, alloc: Global) -> Result<Differing, OutOfMemory>
        ensures { IfOk result (λ d. AreJoined self d) }
    {
        let mut sorted = self.noted;
        sort_by_first(&mut sorted);
        let mut joined = Differing::new(alloc);
        for next in &sorted {
            joined.note(*next)?;
        }
        Ok(joined)
    }

    /// All offsets of the differences. They take memory.
    pub(super) fn cover(&self, alloc: Global) -> Result<Cover, OutOfMemory>
        ensures offsets { IfOk result (λ c. c ≡ union_of_runs [] (map run_of_difference self.now)) }
        ensures cover { IfOk result IsCover }
    {
        let mut cover = Cover::new(alloc);
        for difference in &self.noted {
            cover.add(difference.first, difference.last + 1)?;
        }
        Ok(cover)
    }
}

/// Adds the difference after others, or extends the last of them by it if it is near.
fn add_near(noted: &mut Vec<Difference>, next: Difference) -> Result<(), OutOfMemory>
    ensures added { OnOk result (noted.new.items ≡ with_near noted.old.items next) }
    ensures err { OnErr result (noted.new.items ≡ noted.old.items) }
{
    let count = noted.len();
    match noted.last() {
        Some(last) if is_near(*last, next) => noted[count - 1].last = last.last.max(next.last),
        _ => noted.push(next)?,
    }
    Ok(())
}

/// Whether the next begins in the difference, or near above its last offset.
fn is_near(difference: Difference, next: Difference) -> bool
    ensures { result ≡ is_near difference next }
{
    difference.first <= next.first && next.first.saturating_sub(difference.last) < NEAR
}

/// Puts differences in the order of their first offsets.
fn sort_by_first(differences: &mut Vec<Difference>)
    ensures members { IsPermutation differences.old.items differences.new.items }
    ensures rise { IsNonDecreasingBy (λ d. d.first) differences.new.items }
{
    differences.sort_unstable_by_key(|difference| difference.first);
}
