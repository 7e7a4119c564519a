//! How far the copies of the header metadata reach, and which of them is the first that has a packet.
ghost use Rattle.std.specs.Prelude.{◌≡◌, ◌≤◌, ◌∷◌, find, get_or, length, take, vec_capacity, vec_len};
ghost use Rattle.mxf_views.specs.Kept.{StartsRise, reach_of, reaches_of};
ghost use Rattle.mxf_views.specs.Labels.{is_in_copy};

use super::keyed::push;
use crate::copy::CopyInfo;
use mxf_klv::{Note, below};

/// Where the zone of a copy ends; 0 without a start.
fn reach_of(copy: &CopyInfo) -> u64
    ensures { result ≡ reach_of copy.now }
{
    match copy.start {
        Some(start) => start.saturating_add(copy.bytes),
        None => 0,
    }
}

/// The greatest of the first reaches; 0 of none.
fn greatest(reaches: &[u64], count: usize) -> u64
    requires { count ≤ length reaches.now }
    ensures { result ≡ get_or (0 ∷ reaches.now) count 0 }
{
    if count == 0 { 0 } else { reaches[count - 1] }
}

/// Puts how far copies reach in place of what is there, if there is room. Those of the first copies stay.
pub(super) fn refill_reaches(reaches: &mut Vec<u64>, copies: &[CopyInfo], settled: usize)
    requires room { length copies.now ≤ vec_capacity reaches.old }
    requires bound { settled ≤ length copies.now }
    requires reaches { settled ≤ vec_len reaches.old }
    requires settled { take settled reaches.old.items ≡ take settled (reaches_of copies.now) }
    ensures { reaches.new.items ≡ reaches_of copies.now }
{
    let mut greatest = greatest(reaches, settled);
    reaches.truncate(settled);
    for copy in &copies[settled..] {
        greatest = greatest.max(reach_of(copy));
        push(reaches, greatest);
    }
}

/// The first copy whose zone has the packet of the note: the first that reaches the packet's end, or none.
pub(crate) fn copy_around(copies: &[CopyInfo], reaches: &[u64], note: &Note) -> Option<CopyInfo>
    requires starts { StartsRise copies.now }
    requires reaches { reaches.now ≡ reaches_of copies.now }
    ensures { result ≡ find (is_in_copy note.now) copies.now }
{
    let at = below(reaches, note.end());
    let copy = copies.get(at)?;
    copy.has(note).then_some(*copy)
}
