//! What the views keep of a note.
ghost use Rattle.std.specs.Prelude.{◌≡◌};
ghost use Rattle.mxf_views.specs.Kept.{kept_at, kept_partition, kept_random_index_pack, kept_segment};
ghost use Rattle.mxf_views.specs.Kept.{kept_unreadable_pack};
ghost use Rattle.mxf_views.specs.KeptNotes.{kept_note, partition_in, random_index_pack_in, segment_in};
ghost use Rattle.mxf_views.specs.KeptNotes.{unreadable_pack_in};

use crate::index::{SegmentInNumbers, kept_segment};
use crate::partition::{Partition, partition_at};
use mxf_catalogue::Catalogue;
use mxf_klv::{Kind, Note};

/// What the views keep of a note: a partition or a segment by what it states in numbers, or the file offset of a random
/// index pack or of a partition pack that isn't readable.
#[derive(Drop)]
pub(crate) enum Kept {
    Partition(Partition),
    UnreadablePack(u64),
    Segment(SegmentInNumbers),
    RandomIndexPack(u64),
}

impl Kept {
    /// What is kept of the note.
    #[tactic(auto, unfolding(crate::specs::KeptNotes::kept_note))]
    pub fn of(note: &Note) -> Option<Kept>
        ensures { result ≡ kept_note note.now }
    {
        match note.kind() {
            Kind::Header(_) | Kind::Body(_) | Kind::Footer(_) => Some(match partition_at(note) {
                Some(partition) => Kept::Partition(partition.in_numbers()),
                None => Kept::UnreadablePack(note.offset()),
            }),
            Kind::Segment => Some(Kept::Segment(kept_segment(note)?)),
            Kind::Rip => Some(Kept::RandomIndexPack(note.offset())),
            _ => None,
        }
    }

    /// What is kept of the clear note at a file offset.
    pub fn at(catalogue: &Catalogue, offset: u64) -> Option<Kept>
        ensures partition { partition_in result ≡ kept_at kept_partition catalogue.now offset }
        ensures segment { segment_in result ≡ kept_at kept_segment catalogue.now offset }
        ensures random_index_pack { random_index_pack_in result
            ≡ kept_at kept_random_index_pack catalogue.now offset }
        ensures unreadable_pack { unreadable_pack_in result ≡ kept_at kept_unreadable_pack catalogue.now offset }
    {
        Kept::of(catalogue.clear_at(offset)?)
    }
}
