//! The laws of lengths, packets, notes and pieces: functions that do nothing, whose clauses hold of all values.
pub use crate::ber::{lengths_are_read_as_written, one_length_at_front};
pub use crate::note::notes_that_compare_alike_are_one;
pub use crate::packet::{one_packet, one_reading, packets_are_read_as_written};
pub use crate::piece::{
    each_piece_has_its_head, each_piece_has_one_stop, each_piece_is_read_one_way,
    more_bytes_go_on_with_a_piece,
};
