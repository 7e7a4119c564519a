//! Findings of random index packs.
ghost use Rattle.std.specs.Prelude.{◌≡◌, ◌++◌, OnOk};
ghost use Rattle.mxf_catalogue.specs.Disputes.{clear_notes};
ghost use Rattle.mxf_findings.specs.Findings.{ends_above, findings_for, has_other_rip, is_unfit_rip, are_entries_of};
ghost use Rattle.mxf_findings.specs.Findings.{is_index_of};
ghost use Rattle.mxf_views.specs.Partitions.{partitions_of};
ghost use Rattle.mxf_views.specs.RandomIndex.{rip_in};

use super::Code;
use super::collected::Collected;
use mxf_catalogue::Notes;
use mxf_klv::{Note, OutOfMemory};
use mxf_sets::RipEntries;
use mxf_views::{Partition, Views, is_rip, read_rip};

/// Whether the entries are the BodySIDs and the offsets of the partitions, one after another.
fn are_entries_of(mut entries: RipEntries<'_>, partitions: &[Partition]) -> bool
    ensures { result ≡ are_entries_of partitions.now entries.entry }
{
    for partition in partitions {
        let Some(entry) = entries.next() else {
            return false;
        };
        let body_sid = partition.numbers.body_sid;
        if entry.body_sid != body_sid || entry.offset != partition.offset {
            return false;
        }
    }
    entries.next().is_none()
}

/// Whether the random index pack of a note lists the partitions.
fn is_index(views: &Views, note: &Note) -> bool
    ensures { result ≡ is_index_of (partitions_of views.now) (rip_in note.now) }
{
    match read_rip(note) {
        Some(rip) => are_entries_of(rip.entries(), views.partitions_in_numbers()),
        None => false,
    }
}

/// Whether another clear note has a random index pack. It reads two of them at most.
fn has_other_rip(views: &Views, note: &Note) -> bool
    ensures { result ≡ has_other_rip note.now (clear_notes views.now) }
{
    let mut packs = views.random_index_packs();
    packs.any(|other| other.offset() != note.offset())
}

/// Whether one of the whole notes ends above a file offset.
fn ends_above(end: u64, mut notes: Notes<'_>) -> bool
    ensures { result ≡ ends_above end notes.entry }
{
    notes.any(|note| !note.is_head() && end < note.end())
}

/// Whether the note has a random index pack that doesn't fit: another clear note has one too, some whole note ends
/// above its end, or it can't be read or doesn't list the partitions.
fn is_unfit_rip(views: &Views, note: &Note) -> bool
    ensures { result ≡ is_unfit_rip views.now note.now }
{
    is_rip(note)
        && (has_other_rip(views, note)
            || ends_above(note.end(), views.catalogue().notes())
            || !is_index(views, note))
}

impl Collected {
    /// Random index packs that don't fit.
    pub(super) fn add_random_index(&mut self, views: &Views) -> Result<(), OutOfMemory>
        ensures { OnOk result (self.new ≡ self.old ++ findings_for Code.F12 views.now) }
    {
        for note in views.random_index_packs() {
            if is_unfit_rip(views, note) {
                self.add(Code::F12, note.offset())?;
            }
        }
        Ok(())
    }
}
