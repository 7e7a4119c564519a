//! A fragment that is looked up in a recording.
use crate::additions::{catalogue_of, holds};
use mxf_find::{Fragment, Match, Ranking, Recording, find};
use mxf_klv::OutOfMemory;
use std::alloc::Global;

/// Whether a ranking has one recording alone, in which two notes agree, 90 bytes ahead.
fn is_ahead(ranking: &Ranking) -> bool {
    let there = Match {
        offset: -90,
        agree: 2,
        heads: 0,
    };
    match ranking.best().first() {
        Some(first) => ranking.best().len() == 1 && first.recording == 1 && first.found == there,
        None => false,
    }
}

/// Whether packets are found 90 bytes ahead of where they lie, if they begin at 10: those of the recording lie 100 bytes
/// before those of the fragment.
fn a_fragment_is_found(alloc: Global) -> Result<bool, OutOfMemory> {
    let content = catalogue_of(alloc, &[(110, 83), (210, 84)])?;
    let catalogue = catalogue_of(alloc, &[(10, 83), (110, 84)])?;
    let fragment = Fragment::of(alloc, &content, 10)?;
    let recording = Recording::of(alloc, &catalogue)?;
    let mut ranking = Ranking::new(alloc);
    if let Some(found) = find(alloc, &fragment, &recording)? {
        ranking.add(1, found)?;
    }
    Ok(is_ahead(&ranking))
}

#[test]
fn finds(rt: HostRuntime) {
    assert!(rt; holds(rt.alloc(), a_fragment_is_found));
}
