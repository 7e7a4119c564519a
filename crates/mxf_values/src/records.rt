//! The records of header metadata.
use crate::row::{Row, bad_row, tell};
use mxf_sets::{
    ContentStorage, Descriptor, EssenceContainerData, Filler, Identification, Package, Preface,
    Rate, References, Sequence, SourceClip, TimecodeComponent, Track, instance_uid,
};
use std::io;

/// Prints how many references there are, the one at a place, and then each of them.
fn tell_references(rt: &impl Print, references: References<'_>, place: u64) -> io::Result<()> {
    tell(rt, &(references.len(), references.get(place as usize)))?;
    for reference in references {
        tell(rt, &reference)?;
    }
    Ok(())
}

/// The references of a record that the call names.
fn references_of<'a>(row: &Row<'a>) -> Option<References<'a>> {
    match row.call {
        "identifications" => Some(Preface::read(row.bytes).ok()?.identifications()),
        "packages" => Some(ContentStorage::read(row.bytes).ok()?.packages()),
        "tracks" => Some(Package::read(row.bytes).ok()?.tracks()),
        "components" => Some(Sequence::read(row.bytes).ok()?.components()),
        "subdescriptors" => Some(Descriptor::read(row.bytes).ok()?.subdescriptors()),
        _ => None,
    }
}

/// `identifications PLACE` of a preface, `packages PLACE` of a storage, `tracks PLACE` of a package, `components PLACE`
/// of a sequence, `subdescriptors PLACE` of a descriptor.
fn tell_list(rt: &impl Print, row: &Row<'_>) -> io::Result<()> {
    match references_of(row) {
        Some(references) => tell_references(rt, references, row.numbers[0]),
        None => Err(bad_row()),
    }
}

/// The greatest number of a rate if a number is greater.
fn rate_number(number: u64) -> i32 {
    number.min(0x7FFF_FFFF) as i32
}

/// `rate NUMERATOR DENOMINATOR`: whether the edit rate of a track is good, and whether it is the same as that one.
fn tell_rate(rt: &impl Print, row: &Row<'_>) -> io::Result<()> {
    let Ok(track) = Track::read(row.bytes) else {
        return Err(bad_row());
    };
    let rate = track.edit_rate();
    let other = Rate {
        numerator: rate_number(row.numbers[0]),
        denominator: rate_number(row.numbers[1]),
    };
    tell(rt, &(rate.is_good(), rate.is_same(&other)))
}

/// `drop`: whether a timecode component drops labels.
fn tell_drop(rt: &impl Print, row: &Row<'_>) -> io::Result<()> {
    match TimecodeComponent::read(row.bytes) {
        Ok(timecode) => tell(rt, &timecode.is_drop()),
        Err(_) => Err(bad_row()),
    }
}

/// The name of a record of a track, or the references of a record.
fn tell_track(rt: &impl Print, row: &Row<'_>) -> io::Result<()> {
    match row.call {
        "track" => tell(rt, &Track::read(row.bytes)),
        "sequence" => tell(rt, &Sequence::read(row.bytes)),
        "clip" => tell(rt, &SourceClip::read(row.bytes)),
        "timecode" => tell(rt, &TimecodeComponent::read(row.bytes)),
        "filler" => tell(rt, &Filler::read(row.bytes)),
        "container" => tell(rt, &EssenceContainerData::read(row.bytes)),
        "descriptor" => tell(rt, &Descriptor::read(row.bytes)),
        "rate" => tell_rate(rt, row),
        "drop" => tell_drop(rt, row),
        _ => tell_list(rt, row),
    }
}

/// `uid`, the name of a record, or the references of one.
pub fn tell_record(rt: &impl Print, row: &Row<'_>) -> io::Result<()> {
    match row.call {
        "uid" => tell(rt, &instance_uid(row.bytes)),
        "preface" => tell(rt, &Preface::read(row.bytes)),
        "storage" => tell(rt, &ContentStorage::read(row.bytes)),
        "identification" => tell(rt, &Identification::read(row.bytes)),
        "package" => tell(rt, &Package::read(row.bytes)),
        _ => tell_track(rt, row),
    }
}
