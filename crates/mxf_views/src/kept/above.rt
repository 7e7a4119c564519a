//! What is kept once notes are there that begin where all others end, or above: only what is new is counted.
ghost use Rattle.std.specs.Prelude.{◌≡◌, ◌≤◌, ◌+◌, ◌-◌, ◌++◌, ◌∷◌, ℕ, List, [], IfSome, Some, count_by, filter, length};
ghost use Rattle.std.specs.Prelude.{map, take, vec_len, vec_capacity};
ghost use Rattle.std.specs.List.{AllWithin, filter_map};
ghost use Rattle.mxf_klv.specs.Parts.{NoteParts};
ghost use Rattle.mxf_klv.specs.Rising.{In};
ghost use Rattle.mxf_views.specs.declared.copy.CopyInfo.{CopyInfo};
ghost use Rattle.mxf_views.specs.Copies.{CopiesRise, copies_of};
ghost use Rattle.mxf_views.specs.Kept.{MeetAt, kept_partition, reaches_of, states_metadata};
ghost use Rattle.mxf_views.specs.KeptAbove.{CountsFit, EndsBy, IsOfNone, IsStarting, IsUnionAt, clear_from};
ghost use Rattle.mxf_views.specs.KeptAbove.{counted_above, counted_on, started};

use super::sums::{Sums, append_copies};
use crate::copy::{CopyInfo, copy_there, start_of};
use crate::partition::Partition;
use mxf_catalogue::Catalogue;
use mxf_klv::{Note, below};

/// Where the notes of a catalogue end, if those of another begin there or above.
pub(crate) fn boundary(own: &Catalogue, other: &Catalogue) -> Option<u64>
    ensures { IfSome result (λ b. MeetAt b own.now other.now) }
{
    own.laws();
    other.laws();
    let end = own.end();
    match other.spans().runs().next() {
        Some(first) if first.start < end => None,
        _ => Some(end),
    }
}

/// The same, if a note begins there or above.
pub(super) fn boundary_below(catalogue: &Catalogue, note: &Note) -> Option<u64>
    ensures { IfSome result (λ b. MeetAt b catalogue.now (note.now ∷ [])) }
{
    catalogue.laws();
    let end = catalogue.end();
    if end <= note.offset() {
        Some(end)
    } else {
        None
    }
}

/// The number of the copies before the last whose zones end at the boundary or below, as those of all before them do:
/// notes from the boundary on leave these copies as they are.
pub(super) fn settled(copies: &[CopyInfo], reaches: &[u64], boundary: u64) -> usize
    requires { reaches.now ≡ reaches_of copies.now }
    ensures bound { result ≤ length copies.now - 1 }
    ensures ended { AllWithin (EndsBy boundary) copies.now 0 result }
{
    let ended = below(reaches, boundary.saturating_add(1));
    ended.min(copies.len().saturating_sub(1))
}

/// The partition whose copy can get a start by the notes from the boundary on: only that of the last copy can, and only
/// if these notes begin with a start.
fn starting(copies: &[CopyInfo], catalogue: &Catalogue, boundary: u64) -> Option<u64>
    requires { CopiesRise copies.now }
    ensures starting { IsStarting catalogue.now boundary copies.now result }
    ensures last { IsOfNone copies.now (length copies.now - 1) result }
{
    start_of(catalogue, boundary)?;
    let last = copies.last()?;
    Some(last.partition)
}

/// The copy that begins below the boundary, with what lies in its zone from the boundary on.
fn counted_on(sums: &Sums<'_>, copy: &CopyInfo, start: u64) -> CopyInfo
    requires { CountsFit sums.now.notes sums.now.boundary copy.now start }
    ensures { result ≡ counted_on sums.now.notes sums.now.boundary copy.now start }
{
    let boundary = sums.boundary();
    let bytes = copy.bytes.saturating_sub(boundary.saturating_sub(start));
    if bytes == 0 {
        return *copy;
    }
    let counts = sums.counts(boundary, bytes);
    let covered = copy.covered + counts.covered;
    CopyInfo {
        covered,
        finished: covered == copy.bytes,
        prefaces: copy.prefaces + counts.prefaces,
        ..*copy
    }
}

/// The copy without a start, counted anew if it is that of the partition that can get one.
fn started(catalogue: &Catalogue, starting: Option<u64>, copy: &CopyInfo) -> CopyInfo
    ensures { result ≡ started catalogue.now starting copy.now }
{
    match starting {
        Some(partition) if partition == copy.partition => match copy_there(catalogue, partition) {
            Some(copy) => copy,
            None => *copy,
        },
        _ => *copy,
    }
}

/// The copy once the notes from the boundary on are there.
fn counted_above(sums: &Sums<'_>, starting: Option<u64>, copy: &CopyInfo) -> CopyInfo
    requires { (start : ℕ) → copy.now.start ≡ Some start → CountsFit sums.now.notes sums.now.boundary copy.now start }
    ensures { result ≡ counted_above sums.now.notes sums.now.boundary starting copy.now copy.now.start }
{
    match copy.start {
        Some(start) => counted_on(sums, copy, start),
        None => started(sums.catalogue(), starting, copy),
    }
}

/// Counts what lies in the zones of the copies from the boundary on.
fn count_above(copies: &mut [CopyInfo], sums: &Sums<'_>, starting: Option<u64>)
    requires { (c : CopyInfo) (start : ℕ) → In c copies.old → c.start ≡ Some start
        → CountsFit sums.now.notes sums.now.boundary c start }
    ensures { copies.new
        ≡ map (λ c. counted_above sums.now.notes sums.now.boundary starting c c.start) copies.old }
{
    for copy in copies.iter_mut() {
        *copy = counted_above(sums, starting, copy);
    }
}

/// Follows the arrival of notes from the boundary on, if there is room: from the copies of the notes below it to those
/// of all notes, by the new partitions. The new notes are summed up once for all copies; those that are settled stay.
pub(super) fn follow_copies_above(
    copies: &mut Vec<CopyInfo>,
    settled: usize,
    sums: &Sums<'_>,
    new: &[Partition],
)
    requires kept { (own : List NoteParts) × IsUnionAt sums.now.boundary sums.now.notes own
        × (copies.old.items ≡ copies_of own) }
    requires new { new.now ≡ filter_map kept_partition (clear_from sums.now.boundary sums.now.notes) }
    requires bound { settled ≤ vec_len copies.old - 1 }
    requires ended { AllWithin (EndsBy sums.now.boundary) copies.old.items 0 settled }
    requires room { vec_len copies.old + count_by states_metadata (clear_from sums.now.boundary sums.now.notes)
        ≤ vec_capacity copies.old }
    ensures copies { copies.new.items ≡ copies_of sums.now.notes }
    ensures settled { take settled copies.new.items ≡ take settled copies.old.items }
    ensures len { settled ≤ length copies.new.items }
{
    sums.catalogue().laws();
    let starting = starting(copies, sums.catalogue(), sums.boundary());
    count_above(&mut copies[settled..], sums, starting);
    append_copies(copies, sums, new);
}
