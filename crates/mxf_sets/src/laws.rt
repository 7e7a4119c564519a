//! The laws of batches, packs, records and segments: functions that do nothing, whose clauses hold of all values.
pub use crate::batch::{batches_are_read_as_written, one_batch, one_batch_reading};
pub use crate::local_set::split::whole_items_stand_at_the_front;
pub use crate::pack::{
    entries_make_up_their_bytes, one_pack, one_pack_reading, one_primer_reading, one_rip,
    one_rip_reading, packs_are_read_by_their_places, partition_packs_are_read_as_written,
    primers_are_read_as_batches, primers_are_read_as_written,
    random_index_packs_are_read_as_written, random_index_packs_are_read_by_their_places,
};
pub use crate::record::{
    batch_fields_are_batches, records_are_read_where_their_fields_are_met,
    references_are_the_items_of_their_batch,
};
pub use crate::segment::segments_are_read_as_written;
