//! Index table segments.
use crate::row::{Row, bad_row, tell};
use crate::writing::tell_written;
use mxf_sets::{Segment, SegmentNumbers};
use std::io;

/// The numbers of a segment of edit rate 25/1 and BodySID 2, without a position table. Those that are too great for
/// their fields are the greatest.
fn numbers_of(row: &Row<'_>, duration: i64) -> SegmentNumbers {
    let [start, unit_bytes, index_sid, slices] = row.numbers;
    SegmentNumbers {
        edit_rate: (25, 1),
        start: start.min(0xFFFF_FFFF) as i64,
        duration,
        unit_bytes: unit_bytes.min(0xFFFF_FFFF) as u32,
        index_sid: index_sid.min(0xFFFF_FFFF) as u32,
        body_sid: 2,
        slices: slices.min(0xFF) as u8,
        positions: 0,
    }
}

/// The segment of the row's numbers. The bytes are its duration, eight of them, and its entries.
fn segment_of<'a>(row: &Row<'a>) -> Option<Segment<'a>> {
    let (duration, entries) = row.bytes.split_first_chunk::<8>()?;
    Segment::of(numbers_of(row, i64::from_be_bytes(*duration)), entries)
}

/// `numbers`, with how many entries there are; `unit UNIT`: its offset and its entry; or how the segment is written.
fn tell_read<R: Print + AllocGlobal>(
    rt: &R,
    segment: &Segment<'_>,
    row: &Row<'_>,
) -> io::Result<()> {
    let unit = row.numbers[0];
    match row.call {
        "numbers" => tell(rt, &(segment.numbers(), segment.entry_count())),
        "unit" => tell(rt, &(segment.offset_of(unit), segment.entry_of(unit))),
        _ => tell_written(rt, segment, row),
    }
}

/// `of START UNIT_BYTES INDEX_SID SLICES`; `read`, or what is said of a segment that is read.
pub fn tell_segment<R: Print + AllocGlobal>(rt: &R, row: &Row<'_>) -> io::Result<()> {
    match row.call {
        "of" => tell(rt, &segment_of(row)),
        "read" => tell(rt, &Segment::read(row.bytes)),
        _ => match Segment::read(row.bytes) {
            Ok(segment) => tell_read(rt, &segment, row),
            Err(_) => Err(bad_row()),
        },
    }
}
