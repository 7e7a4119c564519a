//! Findings of partitions: their packs, links and footer, and their chain.
ghost use Rattle.std.specs.Prelude.{◌≡◌, ◌++◌, OnOk, map};
ghost use Rattle.mxf_findings.specs.Codes.{finding};
ghost use Rattle.mxf_findings.specs.Findings.{findings_for, footer_stands_at, is_misplaced, is_open, is_open_footer};
ghost use Rattle.mxf_findings.specs.Findings.{is_partition_cause, is_unfit, lacks_footer, partitions_at};
ghost use Rattle.mxf_views.specs.Partitions.{is_footer, link_of, partitions_of};

use super::Code;
use super::collected::Collected;
use mxf_klv::{OutOfMemory, Status};
use mxf_sets::PackPart;
use mxf_views::{Chain, Link, Partition, Views};

/// Whether the partition names another offset as its own.
fn is_misplaced(partition: &Partition) -> bool
    ensures { result ≡ is_misplaced partition.now }
{
    partition.numbers.this_partition != partition.offset
}

/// Whether the link is neither `First` nor `Held`.
fn is_unfit(link: Link) -> bool
    ensures { result ≡ is_unfit link }
{
    matches!(&link, Link::Skips | Link::Missing | Link::Wrong)
}

/// Whether the partition's link is such a one.
fn is_unlinked(views: &Views, partition: &Partition) -> bool
    ensures { result ≡ is_unfit (link_of (partitions_of views.now) partition.now) }
{
    is_unfit(views.link_by(partition.offset, partition.numbers.previous_partition))
}

fn is_open(status: Status) -> bool
    ensures { result ≡ is_open status }
{
    matches!(&status, Status::OpenIncomplete | Status::OpenComplete)
}

/// Whether it is a footer partition that isn't closed.
fn is_open_footer(partition: &Partition) -> bool
    ensures { result ≡ is_open_footer partition.now }
{
    is_footer(partition) && is_open(partition.status)
}

fn is_footer(partition: &Partition) -> bool
    ensures { result ≡ is_footer partition.now.pack.part }
{
    partition.part == PackPart::Footer
}

/// Whether a footer partition stands at a file offset.
fn footer_stands_at(views: &Views, offset: u64) -> bool
    ensures { result ≡ footer_stands_at offset (partitions_of views.now) }
{
    match views.partition_at(offset) {
        Some(partition) => is_footer(partition),
        None => false,
    }
}

/// Whether the partition names an offset, 0 aside, as that of the footer partition, and none stands there.
fn lacks_footer(views: &Views, partition: &Partition) -> bool
    ensures { result ≡ lacks_footer (partitions_of views.now) partition.now }
{
    let footer = partition.numbers.footer_partition;
    footer != 0 && !footer_stands_at(views, footer)
}

/// Whether the code is that of what is wrong with the partition.
fn is_partition_cause(code: Code, views: &Views, partition: &Partition) -> bool
    ensures { result ≡ is_partition_cause code (partitions_of views.now) partition.now }
{
    match code {
        Code::F05 => is_misplaced(partition),
        Code::F06 => is_unlinked(views, partition),
        Code::F07 => is_open_footer(partition),
        Code::F08 => lacks_footer(views, partition),
        _ => false,
    }
}

impl Collected {
    /// Partition packs that aren't readable.
    pub(super) fn add_packs(&mut self, views: &Views) -> Result<(), OutOfMemory>
        ensures { OnOk result (self.new ≡ self.old ++ findings_for Code.F04 views.now) }
    {
        for note in views.unreadable_packs() {
            self.add(Code::F04, note.offset())?;
        }
        Ok(())
    }

    /// Partitions that the code says something about.
    pub(super) fn add_partitions(&mut self, code: Code, views: &Views) -> Result<(), OutOfMemory>
        ensures { OnOk result (self.new ≡ self.old ++ map (finding code) (partitions_at code views.now)) }
    {
        for partition in views.partitions_in_numbers() {
            if is_partition_cause(code, views, partition) {
                self.add(code, partition.offset)?;
            }
        }
        Ok(())
    }

    /// A broken chain.
    pub(super) fn add_chain(&mut self, views: &Views) -> Result<(), OutOfMemory>
        ensures { OnOk result (self.new ≡ self.old ++ findings_for Code.F14 views.now) }
    {
        match views.chain() {
            Chain::Whole => Ok(()),
            Chain::Broken => self.add(Code::F14, 0),
        }
    }
}
