//! How much there can be to keep of a catalogue.
ghost use Rattle.std.specs.Prelude.{◌≡◌, ◌≤◌, if◌then◌else◌, count_by};
ghost use Rattle.mxf_catalogue.specs.Disputes.{clear_notes};
ghost use Rattle.mxf_views.specs.Kept.{is_kept, kept_partition, kept_random_index_pack, kept_segment};
ghost use Rattle.mxf_views.specs.Kept.{kept_unreadable_pack, states_metadata};
ghost use Rattle.mxf_views.specs.Places.{is_segment};

use crate::partition::is_pack;
use crate::random_index::is_rip;
use mxf_catalogue::Catalogue;
use mxf_klv::Kind;

/// The numbers of the clear notes of the kinds that something can be kept of, readable or not.
#[derive(Clone, Copy)]
pub(super) struct Tally {
    /// Of partition packs: each is a partition, with a copy at most, or unreadable.
    pub packs: usize,
    pub segments: usize,
    pub random_index_packs: usize,
}

impl Tally {
    /// Counts them, in one pass and by their kinds alone.
    pub fn of(catalogue: &Catalogue) -> Tally
        ensures partitions { count_by (is_kept kept_partition) (clear_notes catalogue.now) ≤ result.packs }
        ensures unreadable { count_by (is_kept kept_unreadable_pack) (clear_notes catalogue.now) ≤ result.packs }
        ensures copies { count_by states_metadata (clear_notes catalogue.now) ≤ result.packs }
        ensures segments { count_by (is_kept kept_segment) (clear_notes catalogue.now) ≤ result.segments }
        ensures random_index_packs { count_by (is_kept kept_random_index_pack) (clear_notes catalogue.now)
            ≤ result.random_index_packs }
    {
        let mut packs = 0;
        let mut segments = 0;
        let mut random_index_packs = 0;
        for note in catalogue.clear() {
            packs += one_if(is_pack(note.kind()));
            segments += one_if(is_segment(note.kind()));
            random_index_packs += one_if(is_rip(note));
        }
        Tally {
            packs,
            segments,
            random_index_packs,
        }
    }
}

/// Whether packets of the kind have an index table segment.
fn is_segment(kind: Kind) -> bool
    ensures { result ≡ is_segment kind }
{
    matches!(&kind, Kind::Segment)
}

/// One if it is so.
fn one_if(so: bool) -> usize
    ensures { result ≡ if so then 1 else 0 }
{
    if so { 1 } else { 0 }
}
