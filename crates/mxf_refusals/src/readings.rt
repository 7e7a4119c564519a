//! Which source holds which note.
use crate::additions::{catalogue_of, essence, holds};
use mxf_klv::{Note, OutOfMemory};
use mxf_readings::{Readings, SourceCounts};
use std::alloc::Global;

/// Whether these are the sources of a note.
fn has_sources(readings: &Readings<'_>, note: Option<Note>, sources: &[usize]) -> bool {
    match note {
        Some(note) => readings.sources_of(&note) == sources,
        None => false,
    }
}

/// Whether the first source has one packet, which the second has too, beside one of its own that shares bytes with it.
fn tells_of_two(readings: &Readings<'_>) -> bool {
    let first = SourceCounts {
        notes: 1,
        alone: 0,
        disputed: 1,
    };
    let second = SourceCounts {
        notes: 2,
        alone: 1,
        disputed: 2,
    };
    readings.all().len() == 2
        && readings.counts(1) == first
        && readings.counts(2) == second
        && has_sources(readings, essence(0, 83), [1usize, 2].as_slice())
        && has_sources(readings, essence(90, 83), [2usize].as_slice())
        && has_sources(readings, essence(200, 83), [].as_slice())
}

/// Whether that is told of two sources beside each other.
fn two_are_told(alloc: Global) -> Result<bool, OutOfMemory> {
    let first = catalogue_of(alloc, &[(0, 83)])?;
    let second = catalogue_of(alloc, &[(0, 83), (90, 83)])?;
    let contents = Vec::from_array(alloc, [first, second])?;
    Ok(tells_of_two(&Readings::of(alloc, &contents)?))
}

#[test]
fn readings(rt: HostRuntime) {
    assert!(rt; holds(rt.alloc(), two_are_told));
}
