//! What the front of a source has.
use crate::contents::gather_one;
use mxf_klv::{Kind, Stop};
use mxf_read::{GREATEST_WINDOW, Gathered, Part};
use mxf_saving::{Beginning, Source};
use std::fs;
use std::io::{Read, Seek, SeekFrom, Take};
use std::rt::Files;

/// What the front of a source has.
#[derive(Clone, Copy)]
pub enum Front {
    /// It is empty.
    Empty,
    /// It is a catalogue.
    Catalogue,
    /// The header partition pack is its first packet, and begins after this number of bytes: a run-in (ST 377-1).
    RunIn(u64),
    /// Another packet is its first, or it wasn't read.
    Midst,
    /// No packet begins in it.
    Nothing,
}

impl Front {
    /// What the source in a regular file has. Of anything else nothing is read.
    pub fn of<R: Files + AllocGlobal>(rt: &R, source: &Source<'_>) -> Front {
        match Beginning::of(rt, source.path()) {
            Ok(Some(Beginning::Nothing)) => Front::Empty,
            Ok(Some(Beginning::Catalogue)) if source.size().is_none() => Front::Catalogue,
            Ok(Some(_)) => match gathered_front(rt, source) {
                Some(gathered) => Front::of_gathered(&gathered),
                None => Front::Midst,
            },
            _ => Front::Midst,
        }
    }

    /// What a front has that was read as a range from 0 on.
    fn of_gathered(gathered: &Gathered) -> Front {
        let Some(report) = gathered.reports.as_slice().first() else {
            return Front::Midst;
        };
        if let Stop::NoStart(_) = report.report.stop {
            return Front::Nothing;
        }
        match gathered.views.catalogue().undisputed_at(report.offset) {
            Some(first) if report.offset > 0 && matches!(first.kind(), Kind::Header(_)) => {
                Front::RunIn(report.offset)
            }
            _ => Front::Midst,
        }
    }
}

/// What the front of the source holds, read as a range from 0 on.
fn gathered_front<R: Files + AllocGlobal>(rt: &R, source: &Source<'_>) -> Option<Gathered> {
    let from = open_front(rt, source, GREATEST_WINDOW)?;
    gather_one(rt.alloc(), Part::Range { offset: 0, from }).ok()
}

/// The first bytes of the source, `most` at most.
pub fn open_front<R: Files>(rt: &R, source: &Source<'_>, most: u64) -> Option<Take<R::File>> {
    let mut file = fs::open(rt, source.path()).ok()?;
    let Source::Slice { offset, length, .. } = *source else {
        return Some(file.take(most));
    };
    file.seek(SeekFrom::Start(offset)).ok()?;
    Some(file.take(most.min(length)))
}
