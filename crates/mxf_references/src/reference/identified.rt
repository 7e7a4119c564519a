//! The sets of a copy, sorted by their instance identifiers.
ghost use Rattle.std.specs.Prelude.{◌≡◌, ◌↔◌, ◌==◌, ◌≤◌, true, false, IfOk, IsTrue, filter, find, length, map};
ghost use Rattle.std.specs.List.{AllWithin, filter_map};
ghost use Rattle.std.specs.Option.{option_copied};
ghost use Rattle.mxf_catalogue.specs.Disputes.{clear_notes};
ghost use Rattle.mxf_klv.specs.Rising.{In, IsRising};
ghost use Rattle.std.specs.Ordering.{nat_cmp};
ghost use Rattle.mxf_sets.specs.Instance.{instance_uid_at};
ghost use Rattle.mxf_sets.specs.Readable.{read_as};
ghost use Rattle.mxf_references.specs.Identified.{AreByUid, AreSorted, found_at, is_below, is_of, unreadable_offsets};
ghost use Rattle.mxf_references.specs.Identified.{with_uid};
ghost use Rattle.mxf_references.specs.Readable.{is_unreadable};
ghost use Rattle.mxf_views.specs.Copies.{sets_of};
ghost use Rattle.mxf_references.specs.References.{found_in};

use crate::readable::is_unreadable;
use crate::reference::Found;
use mxf_catalogue::Catalogue;
use mxf_klv::{Note, OutOfMemory, has_key};
use mxf_sets::instance_uid;
use mxf_views::{Sets, Views};
use std::alloc::Global;
use std::marker::Model;
use uuid::Uuid;

/// A set that has a readable instance identifier.
#[derive(Clone, Copy)]
pub(crate) struct Identified {
    pub uid: Uuid,
    /// Its file offset, in bytes.
    pub offset: u64,
}

/// The instance identifier of a set, if the set is kept and the identifier can be read.
fn uid_of(note: &Note) -> Option<Uuid>
    ensures { result ≡ read_as instance_uid_at note.now }
{
    instance_uid(note.value()?).ok()
}

/// The set, if it has a readable identifier.
fn with_uid(note: &Note) -> Option<Identified>
    ensures { result ≡ with_uid note.now }
{
    let uid = uid_of(note)?;
    let offset = note.offset();
    Some(Identified { uid, offset })
}

/// The sets that have one, in their order.
fn gathered(alloc: Global, sets: Sets<'_>) -> Result<Vec<Identified>, OutOfMemory>
    ensures { IfOk result (λ v. v.items ≡ filter_map with_uid sets.entry) }
{
    Ok(sets.filter_map(|note| with_uid(note)).collect(alloc)?)
}

/// The same, sorted by their identifiers.
fn sorted(alloc: Global, sets: Sets<'_>) -> Result<Vec<Identified>, OutOfMemory>
    ensures { IfOk result (λ v. AreByUid sets.entry v.items) }
{
    let mut items = gathered(alloc, sets)?;
    items.sort_unstable_by_key(|set| set.uid);
    Ok(items)
}

/// The file offsets of the sets that can't be read, in their order: each set is read once, however many references name
/// it.
fn unreadable_offsets(alloc: Global, sets: Sets<'_>) -> Result<Vec<u64>, OutOfMemory>
    ensures { IfOk result (λ v. v.items ≡ unreadable_offsets sets.entry) }
{
    let unreadable = sets.filter(|note| is_unreadable(note));
    Ok(unreadable.map(|note| note.offset()).collect(alloc)?)
}

/// The number of the sets whose identifiers stand below one.
fn count_below(sets: &[Identified], uid: &Uuid) -> usize
    requires { AreSorted sets.now }
    ensures bound { result ≤ length sets.now }
    ensures below { AllWithin (λ e. is_below uid.now e ≡ true) sets.now 0 result }
    ensures above { AllWithin (λ e. is_below uid.now e ≡ false) sets.now result (length sets.now) }
{
    sets.partition_point(|set| set.uid < *uid)
}

/// What is found of an identifier among sorted sets: the first that isn't below it and the next one show it.
fn find_sorted(sets: &[Identified], uid: &Uuid) -> Found
    requires { AreSorted sets.now }
    ensures { result ≡ found_at (map (λ e. e.offset) (filter (is_of uid.now) sets.now)) }
{
    let at = count_below(sets, uid);
    let Some(first) = sets.get(at) else {
        return Found::Absent;
    };
    if first.uid != *uid {
        return Found::Absent;
    }
    match sets.get(at + 1) {
        Some(second) if second.uid == *uid => Found::Several,
        _ => Found::One(first.offset),
    }
}

/// The sets of the copy of a partition, to be found by their instance identifiers.
///
/// They are sorted once. [`find`](crate::find) answers the same without memory, and goes over all sets each time.
pub struct CopySets<'a> {
    catalogue: &'a Catalogue,
    partition: u64,
    by_uid: Vec<Identified>,
    /// The file offsets, in bytes, of those that can't be read.
    unreadable: Vec<u64>,
}

// Written out, a drop is one call wherever the sets are let go.
impl Drop for CopySets<'_> {
    fn drop(self) {
        let CopySets {
            catalogue: _,
            partition: _,
            by_uid: _by_uid,
            unreadable: _unreadable,
        } = self;
    }
}

impl<'a> Model for CopySets<'a> {
    ghost use Rattle.mxf_views.specs.Copies.{sets_of};
    ghost use Rattle.mxf_references.specs.Identified.{AreByUid, CopySetsParts, unreadable_offsets};
    ghost use Rattle.std.specs.Prelude.{◌≡◌};

    ghost Value = { CopySetsParts };

    ghost view = { λ s. record { notes = s.catalogue.now; partition = s.partition } };

    ghost invariant = { λ s. AreByUid (sets_of s.catalogue.now s.partition) s.by_uid.items
        × (s.unreadable.items ≡ unreadable_offsets (sets_of s.catalogue.now s.partition)) };
}

impl<'a> CopySets<'a> {
    /// Those of the copy of the partition at a file offset, in bytes; none if there is no such copy. It takes memory.
    pub fn of(alloc: Global, views: &'a Views, partition: u64) -> Result<CopySets<'a>, OutOfMemory>
        ensures { IfOk result (λ s. s ≡ record { notes = views.now; partition = partition }) }
    {
        let by_uid = sorted(alloc, views.sets(partition))?;
        let unreadable = unreadable_offsets(alloc, views.sets(partition))?;
        let catalogue = views.catalogue();
        Ok(CopySets {
            catalogue,
            partition,
            by_uid,
            unreadable,
        })
    }

    /// What is found of an identifier: a binary search.
    pub fn find(&self, uid: &Uuid) -> Found
        ensures { result ≡ found_in self.now.notes self.now.partition uid.now }
    {
        find_sorted(&self.by_uid, uid)
    }

    /// Whether the set isn't kept, or can't be read by its kind: a binary search.
    pub(crate) fn is_unreadable(&self, set: &Note) -> bool
        requires { In set.now (sets_of self.now.notes self.now.partition) }
        ensures { result ≡ is_unreadable set.now }
    {
        self.catalogue.laws();
        has_key(&self.unreadable, set.offset())
    }

    /// The clear note at a file offset, in bytes: a binary search.
    pub fn note_at(&self, offset: u64) -> Option<&'a Note>
        ensures { option_copied result ≡ find (λ n. n.offset == offset) (clear_notes self.now.notes) }
    {
        self.catalogue.clear_at(offset)
    }
}
