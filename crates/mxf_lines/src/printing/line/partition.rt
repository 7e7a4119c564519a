//! The lines of gaps, of partitions, and of their chain.
ghost use Rattle.std.specs.Prelude.{[], ◌∷◌, length, flat_map, ◌≡◌, IfOk};
ghost use Rattle.mxf_views.specs.Partitions.{link_of, partitions_of};
ghost use Rattle.mxf_lines.specs.Lines.{chain_line, gap_line};
ghost use Rattle.mxf_lines.specs.PartitionLines.{container_line, container_lines, linked_fields, pack_fields};
ghost use Rattle.mxf_lines.specs.PartitionLines.{part_fields, partition_line, partition_lines, pattern_fields};
ghost use Rattle.mxf_lines.specs.PartitionLines.{place_fields};
ghost use Rattle.mxf_forms.specs.Writing.{with_fields};

use super::{AllocError, Each, Line, Series, Then};
use mxf_catalogue::Run;
use mxf_forms::{FieldWriter, HexDigits};
use mxf_sets::{BatchItems, PartitionNumbers, PartitionPack, pattern_name};
use mxf_views::{Chain, Gaps, Link, PartitionAt, Partitions, Views};

/// A gap: the offsets where it begins and ends, and how many bytes it has.
impl Line for Run {
    ghost line = { gap_line };

    #[tactic(auto, unfolding(crate::specs::Lines::gap_line))]
    fn write_fields(&self, fields: &mut FieldWriter) -> Result<(), AllocError> {
        fields.begin("gap", "gap")?;
        fields.number(" ", "start", self.start)?;
        fields.number(" ", "end", self.end)?;
        fields.number_member("length", self.end.saturating_sub(self.start))?;
        fields.end("")
    }
}

impl<'a> Series for Gaps<'a> {
    type Item = Run;

    ghost lines_left = { λ s. flat_map (λ gap. gap_line gap ∷ []) s };

    ghost left = { λ s. length s };

    fn next_item(&mut self) -> Option<Run> {
        self.next()
    }
}

/// Whether the partitions hang together.
impl Line for Chain {
    ghost line = { chain_line };

    #[tactic(auto, unfolding(crate::specs::Lines::chain_line))]
    fn write_fields(&self, fields: &mut FieldWriter) -> Result<(), AllocError> {
        fields.begin("chain", "chain")?;
        fields.word(" ", "chain", *self)?;
        fields.end("")
    }
}

/// Writes the version of a partition pack, its KAG size, and where the partitions stand that it names.
fn write_places(fields: &mut FieldWriter, n: PartitionNumbers) -> Result<(), AllocError>
    ensures { IfOk result (λ _. fields.new ≡ with_fields (place_fields n) fields.old) }
{
    fields.number(" version ", "major", n.major_version)?;
    fields.number(".", "minor", n.minor_version)?;
    fields.number(" kag ", "kag", n.kag_size)?;
    fields.number(" this ", "this", n.this_partition)?;
    fields.number(" previous ", "previous", n.previous_partition)?;
    fields.number(" footer ", "footer", n.footer_partition)
}

/// Writes what a partition pack says of its header metadata, its index and its essence.
fn write_parts(fields: &mut FieldWriter, n: PartitionNumbers) -> Result<(), AllocError>
    ensures { IfOk result (λ _. fields.new ≡ with_fields (part_fields n) fields.old) }
{
    fields.number(" header-bytes ", "header-bytes", n.header_byte_count)?;
    fields.number(" index-bytes ", "index-bytes", n.index_byte_count)?;
    fields.number(" index-sid ", "index-sid", n.index_sid)?;
    fields.number(" body-offset ", "body-offset", n.body_offset)?;
    fields.number(" body-sid ", "body-sid", n.body_sid)
}

/// Writes the label of an operational pattern: its name and qualifier, or its digits if it has no name.
fn write_pattern(fields: &mut FieldWriter, label: [u8; 16]) -> Result<(), AllocError>
    ensures { IfOk result (λ _. fields.new ≡ with_fields (pattern_fields label) fields.old) }
{
    match pattern_name(&label) {
        Some(name) => {
            fields.word(" pattern ", "pattern", name)?;
            fields.word(" ", "qualifier", HexDigits(&[label[14]]))
        }
        None => fields.word(" pattern ", "pattern", HexDigits(&label)),
    }
}

/// The line of a partition: its offset in bytes, what its pack states, and how it names the one before it.
#[derive(Drop)]
pub struct PartitionLine<'a> {
    partition: PartitionAt<'a>,
    link: Link,
}

impl<'a> Line for PartitionLine<'a> {
    ghost line = { λ l. partition_line l.partition l.link };

    #[tactic(auto, unfolding(crate::specs::PartitionLines::partition_line))]
    fn write_fields(&self, fields: &mut FieldWriter) -> Result<(), AllocError> {
        fields.begin("partition", "partition")?;
        fields.number(" ", "offset", self.partition.offset)?;
        write_linked(fields, &self.partition.pack, self.link)?;
        fields.end("")
    }
}

/// Writes what a partition pack states, and how it names the partition before it.
fn write_linked(
    fields: &mut FieldWriter,
    pack: &PartitionPack<'_>,
    link: Link,
) -> Result<(), AllocError>
    ensures { IfOk result (λ _. fields.new ≡ with_fields (linked_fields pack.now link) fields.old) }
{
    write_pack(fields, pack)?;
    fields.word(" link ", "link", link)
}

/// Writes what a partition pack states.
fn write_pack(fields: &mut FieldWriter, pack: &PartitionPack<'_>) -> Result<(), AllocError>
    ensures { IfOk result (λ _. fields.new ≡ with_fields (pack_fields pack.now) fields.old) }
{
    fields.word(" ", "part", pack.part())?;
    fields.word(" ", "status", pack.status())?;
    write_places(fields, pack.numbers())?;
    write_parts(fields, pack.numbers())?;
    write_pattern(fields, pack.pattern())
}

/// The line of a label of an essence container, with the offset of its partition.
#[derive(Clone, Copy)]
pub struct ContainerLine<'a> {
    partition: u64,
    label: &'a [u8],
}

impl<'a> Line for ContainerLine<'a> {
    ghost line = { λ l. container_line l.partition l.label.now };

    #[tactic(auto, unfolding(crate::specs::PartitionLines::container_line))]
    fn write_fields(&self, fields: &mut FieldWriter) -> Result<(), AllocError> {
        fields.begin("container", "container")?;
        fields.word(" ", "label", HexDigits(self.label))?;
        fields.number_member("partition", self.partition)?;
        fields.end("")
    }
}

/// The lines of the labels that are left, of the essence containers of the partition at an offset.
#[derive(Drop)]
pub struct ContainerLines<'a> {
    partition: u64,
    left: BatchItems<'a>,
}

impl<'a> Series for ContainerLines<'a> {
    type Item = ContainerLine<'a>;

    ghost lines_left = { λ s. container_lines s.partition s.left };

    ghost left = { λ s. length s.left };

    fn next_item(&mut self) -> Option<ContainerLine<'a>> {
        let label = self.left.next()?;
        let partition = self.partition;
        Some(ContainerLine { partition, label })
    }
}

/// The lines of the partitions that are left: of each its own, and one for each label of its essence containers.
#[derive(Drop)]
pub struct PartitionLines<'a> {
    pub views: &'a Views,
    pub left: Partitions<'a>,
}

impl<'a> Series for PartitionLines<'a> {
    type Item = Then<PartitionLine<'a>, Each<ContainerLines<'a>>>;

    ghost lines_left = { λ s. flat_map (partition_lines (partitions_of s.views.now)) s.left };

    ghost left = { λ s. length s.left };

    fn next_item(&mut self) -> Option<Then<PartitionLine<'a>, Each<ContainerLines<'a>>>> {
        let partition = self.left.next()?;
        let link = self.views.link_of(&partition);
        let containers = ContainerLines {
            partition: partition.offset,
            left: partition.pack.containers().items(),
        };
        Some(Then(PartitionLine { partition, link }, Each(containers)))
    }
}
