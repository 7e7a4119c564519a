//! The packs that stand at the end of a file alone.
ghost use Rattle.std.specs.Prelude.{◌≡◌, not};
ghost use Rattle.mxf_restore.specs.EndPacks.{has_end_pack, has_footer, is_absent};
ghost use Rattle.mxf_views.specs.Partitions.{partitions_of};
ghost use Rattle.mxf_views.specs.RandomIndexView.{rip_view_of};

use mxf_sets::PackPart;
use mxf_views::{Partition, RipView, Views};

/// Whether a footer partition pack is held that is clear and can be read, or a clear random index pack, readable or
/// not. Either stands at the end of a file alone (ST 377-1, Partition Pack and Random Index Pack).
#[tactic(auto, unfolding(crate::specs::EndPacks::has_end_pack))]
pub(crate) fn has_end_pack(views: &Views) -> bool
    ensures { result ≡ has_end_pack views.now }
{
    has_footer(views) || has_rip(views)
}

/// Whether one of the partitions is a footer partition.
fn has_footer(views: &Views) -> bool
    ensures { result ≡ has_footer (partitions_of views.now) }
{
    has_footer_among(views.partitions_in_numbers())
}

fn has_footer_among(partitions: &[Partition]) -> bool
    ensures { result ≡ has_footer partitions.now }
{
    partitions
        .iter()
        .any(|partition| partition.part == PackPart::Footer)
}

/// Whether there is a clear random index pack, readable or not.
fn has_rip(views: &Views) -> bool
    ensures { result ≡ not (is_absent (rip_view_of views.now)) }
{
    !matches!(views.rip(), RipView::Absent)
}
