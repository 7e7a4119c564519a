//! Telling of pieces, ranges and slices that end before their bytes do, or have none.
use crate::filled::write_filled;
use crate::front::Front;
use crate::telling::tell_on_screen;
use mxf_klv::Stop;
use mxf_read::{GREATEST_WINDOW, PieceReport};
use mxf_saving::Source;
use std::alloc::AllocError;
use std::fmt;
use std::rt::Files;

/// That the packets of a source stop at a place.
#[derive(Clone, Copy)]
struct StoppedSource<'a> {
    source: Source<'a>,
    stop: Stop,
    place: u64,
}

impl fmt::Display for StoppedSource<'_> {
    fn fmt<W: fmt::Write>(&self, f: &mut fmt::Formatter<W>) -> fmt::Result {
        let StoppedSource {
            source,
            stop,
            place,
        } = *self;
        write!(f, "{source}: stop {stop} {place}")
    }
}

/// What to do about a piece of which a packet is damaged, and what lies behind that isn't read.
#[derive(Clone, Copy)]
struct DamagedPiece<'a> {
    offset: u64,
    path: &'a str,
    place: u64,
}

impl fmt::Display for DamagedPiece<'_> {
    fn fmt<W: fmt::Write>(&self, f: &mut fmt::Formatter<W>) -> fmt::Result {
        let DamagedPiece {
            offset,
            path,
            place,
        } = *self;
        write!(
            f,
            "hint: damaged at {place}: name it range:{offset}:{path}, which is read on behind the damage"
        )
    }
}

/// What to do about a piece or slice that doesn't begin at a packet, or a range without a start.
#[derive(Clone, Copy)]
struct FrontHint<'a> {
    source: Source<'a>,
    front: Front,
}

impl fmt::Display for FrontHint<'_> {
    fn fmt<W: fmt::Write>(&self, f: &mut fmt::Formatter<W>) -> fmt::Result {
        let path = self.source.path();
        match self.front {
            Front::Empty => write_filled(f, "hint: {} is empty", path),
            Front::Catalogue => {
                write_filled(f, "hint: {} looks like a catalogue: name it cat:{}", path)
            }
            Front::RunIn(bytes) if begins_at_0(self.source) => {
                let first = bytes.saturating_add(1);
                write!(
                    f,
                    "hint: {path} has {bytes} bytes before its first packet: name it at:0:<(tail -c +{first} '{path}')"
                )
            }
            Front::RunIn(_) | Front::Midst => write_midst(f, self.source),
            Front::Nothing => write_nothing(f, self.source),
        }
    }
}

/// Whether the source is a piece or slice from byte 0 on.
fn begins_at_0(source: Source<'_>) -> bool {
    matches!(
        source,
        Source::Piece { offset: 0, .. } | Source::Slice { offset: 0, .. }
    )
}

/// Writes what to do about a source that doesn't begin at a packet.
fn write_midst<W: fmt::Write>(f: &mut fmt::Formatter<W>, source: Source<'_>) -> fmt::Result {
    match source {
        Source::Piece { offset: 0, path } => write_filled(
            f,
            "hint: {} doesn't begin at a packet: if its front is damaged, name it range:0:{}; if it begins inside a packet, OFFSET isn't 0",
            path,
        ),
        Source::Piece { offset, path } => write!(
            f,
            "hint: {path} doesn't begin at a packet: if it begins inside one, name it range:{offset}:{path}"
        ),
        Source::Slice { offset, path, .. } => write!(
            f,
            "hint: no packet begins at byte {offset} of {path}: name a slice from the beginning of a packet on"
        ),
        _ => write_nothing(f, source),
    }
}

/// Writes that no packet begins in a source.
fn write_nothing<W: fmt::Write>(f: &mut fmt::Formatter<W>, source: Source<'_>) -> fmt::Result {
    match source {
        Source::Piece { offset: 0, path } => write!(
            f,
            "hint: no packet begins in {path}, or its first {GREATEST_WINDOW} bytes: it is no MXF file, or begins inside a longer packet"
        ),
        Source::Slice { .. } => write!(
            f,
            "hint: no packet begins in {source}, or its first {GREATEST_WINDOW} bytes"
        ),
        Source::Piece { path, .. } | Source::Range { path, .. } | Source::Saved { path } => write!(
            f,
            "hint: no packet begins in {path}, or its first {GREATEST_WINDOW} bytes"
        ),
    }
}

/// The place of a stop before the end of the bytes that are there; `None` if all packets of the source are noted.
fn place_of(stop: Stop) -> Option<u64> {
    match stop {
        Stop::End | Stop::Truncated(_) => None,
        Stop::NotUl(place) | Stop::BadLength(place) | Stop::TooFar(place) | Stop::NoStart(place) =>
            Some(place),
    }
}

/// Whether none of a source's bytes are a packet's, as far as its stop says: it stops at its first byte, or has no
/// start.
fn is_without_packets(report: &PieceReport) -> bool {
    match report.report.stop {
        Stop::NotUl(place) => place == report.offset,
        Stop::NoStart(_) => true,
        _ => false,
    }
}

/// Tells on a terminal of each piece, range and slice whose packets weren't all noted, if stops are asked for, and what
/// to do about one that has none.
pub fn tell_stops<R: Files + Eprint + AllocGlobal>(
    rt: &R,
    sources: &[Source<'_>],
    reports: &[PieceReport],
    with_stops: bool,
) -> Result<(), AllocError> {
    for report in reports {
        if let Some(source) = sources.get(report.part) {
            tell_stop(rt, *source, report, with_stops)?;
        }
    }
    Ok(())
}

/// Tells on a terminal of each piece, range and slice that has no packet, a run-in, or is a catalogue. Whether one is.
pub fn tell_foreign<R: Files + Eprint + AllocGlobal>(
    rt: &R,
    sources: &[Source<'_>],
) -> Result<bool, AllocError> {
    let mut is_told = false;
    for source in sources {
        let source = *source;
        if let Source::Saved { .. } = source {
            continue;
        }
        let front = Front::of(rt, &source);
        let is_foreign = match front {
            Front::Nothing | Front::Empty | Front::Catalogue => true,
            Front::RunIn(_) => begins_at_0(source),
            Front::Midst => false,
        };
        if is_foreign {
            tell_on_screen(rt, &FrontHint { source, front })?;
            is_told = true;
        }
    }
    Ok(is_told)
}

/// Tells of a piece that has no byte.
fn tell_empty<R: Files + Eprint + AllocGlobal>(
    rt: &R,
    source: Source<'_>,
    report: &PieceReport,
) -> Result<(), AllocError> {
    if report.report.noted > 0 {
        return Ok(());
    }
    match Front::of(rt, &source) {
        Front::Empty => {
            let front = Front::Empty;
            tell_on_screen(rt, &FrontHint { source, front })
        }
        _ => Ok(()),
    }
}

/// Tells of one piece, range or slice.
fn tell_stop<R: Files + Eprint + AllocGlobal>(
    rt: &R,
    source: Source<'_>,
    report: &PieceReport,
    with_stops: bool,
) -> Result<(), AllocError> {
    let stop = report.report.stop;
    let Some(place) = place_of(stop) else {
        return tell_empty(rt, source, report);
    };
    if with_stops {
        tell_on_screen(
            rt,
            &StoppedSource {
                source,
                stop,
                place,
            },
        )?;
    }
    if is_without_packets(report) {
        let front = Front::of(rt, &source);
        return tell_on_screen(rt, &FrontHint { source, front });
    }
    match (source, stop) {
        (Source::Piece { offset, path }, Stop::NotUl(_) | Stop::BadLength(_)) => {
            tell_on_screen(
                rt,
                &DamagedPiece {
                    offset,
                    path,
                    place,
                },
            )
        }
        _ => Ok(()),
    }
}
