//! Telling of sources that begin elsewhere than their OFFSET says, by their partition packs.
use crate::contents::gather_one;
use crate::front::open_front;
use crate::shift::{Shift, are_shifted, shift_of};
use crate::telling::tell_on_screen;
use mxf_catalogue::Catalogue;
use mxf_klv::Note;
use mxf_read::Part;
use mxf_saving::Source;
use mxf_sets::PartitionPack;
use mxf_views::Views;
use std::alloc::AllocError;
use std::rt::Files;
use std::{fmt, fs};

/// How many bytes of a source are read once more, at most.
const FRONT: u64 = 268_435_456;

/// That a source begins at another offset than the one that is named. It prints as its line.
#[derive(Clone, Copy)]
struct WrongOffset<'a> {
    source: Source<'a>,
    right: u64,
    shift: Shift,
}

impl fmt::Display for WrongOffset<'_> {
    fn fmt<W: fmt::Write>(&self, f: &mut fmt::Formatter<W>) -> fmt::Result {
        let WrongOffset {
            source,
            right,
            shift,
        } = *self;
        f.write_str("hint: by its partition packs ")?;
        match source {
            Source::Slice { .. } => write!(f, "{source}")?,
            _ => f.write_str(source.path())?,
        }
        write!(f, " begins at {right}: OFFSET is {shift}")
    }
}

/// Tells of each piece, range and slice that begins at another offset by its partition packs. Their fronts are read once
/// more, those of regular files alone. Of one that isn't read nothing is told. Whether something is told.
pub fn tell_offsets<R: Files + Eprint + AllocGlobal>(
    rt: &R,
    sources: &[Source<'_>],
) -> Result<bool, AllocError> {
    let mut is_told = false;
    for source in sources {
        if let Some(wrong) = wrong_offset(rt, source) {
            tell_on_screen(rt, &wrong)?;
            is_told = true;
        }
    }
    Ok(is_told)
}

/// Whether some partition pack of what is held, even a disputed one, says that it stands elsewhere.
pub fn is_contradicted(views: &Views) -> bool {
    !are_shifted(views, Shift::High(0)) || is_any_disputed_elsewhere(views.catalogue())
}

/// Whether some disputed partition pack says that it stands elsewhere.
fn is_any_disputed_elsewhere(catalogue: &Catalogue) -> bool {
    for disputed in catalogue.disputed() {
        let note = disputed.note;
        if matches!(stated_offset(note), Some(stated) if stated != note.offset()) {
            return true;
        }
    }
    false
}

/// Where a note stands by its own words, in bytes, if it is that of a readable partition pack.
fn stated_offset(note: &Note) -> Option<u64> {
    let pack = PartitionPack::read(&note.key(), note.value()?).ok()?;
    Some(pack.numbers().this_partition)
}

/// Where a piece, range or slice begins by its partition packs, if elsewhere.
fn wrong_offset<'a, R: Files + AllocGlobal>(
    rt: &R,
    source: &Source<'a>,
) -> Option<WrongOffset<'a>> {
    let (offset, _) = source.place()?;
    let shift = shift_of(&views_of(rt, source)?)?;
    let right = shift.right(offset)?;
    Some(WrongOffset {
        source: *source,
        right,
        shift,
    })
}

/// What a source in a regular file has: the front of a piece or slice, read as a range, or of a range; all of a catalogue.
pub fn views_of<R: Files + AllocGlobal>(rt: &R, source: &Source<'_>) -> Option<Views> {
    if !fs::metadata(rt, source.path()).ok()?.is_file() {
        return None;
    }
    let part = match source.place() {
        Some((offset, _)) => Part::Range {
            offset,
            from: open_front(rt, source, FRONT)?,
        },
        None => Part::Saved {
            from: open_front(rt, source, u64::MAX)?,
        },
    };
    let (views, _) = gather_one(rt.alloc(), part).ok()?.into_parts();
    Some(views)
}
