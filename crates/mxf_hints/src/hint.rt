//! What to do about a fault, told in a second line if standard error is a terminal.
use crate::fault::{RunFault, ToldClock};
use crate::filled::write_filled;
use crate::refusal::is_timecode;
use crate::shift::Shift;
use crate::sized::sized_source;
use mxf_saving::{
    Beginning, NOT_FOUND, OutputRefusal, SaveFault, Source, SystemFault, TOO_MANY_FILES,
    begins_with_scheme,
};
use mxf_timed::TimecodeWord;
use mxf_tracks::Timecode;
use std::fmt;

/// What to do about a fault. Of a file that is refused as a catalogue or a list, or of a word that names no source and
/// a file, it is known what it begins with.
#[derive(Clone, Copy)]
pub struct Hint<'f, 'a> {
    pub fault: &'f RunFault<'a>,
    pub beginning: Option<Beginning>,
    /// How many bytes the file of a short slice has.
    pub size: Option<u64>,
}

impl fmt::Display for Hint<'_, '_> {
    fn fmt<W: fmt::Write>(&self, f: &mut fmt::Formatter<W>) -> fmt::Result {
        f.write_str("hint: ")?;
        match self.fault {
            RunFault::NoUnitAt { word, clock } => write_clock(f, *word, *clock),
            RunFault::BadSource { word } => write_source(f, *word, self.beginning),
            RunFault::BadLine { path, .. } => write_list(f, *path, self.beginning),
            RunFault::BadOutput { path, why } => write_refusal(f, *path, *why),
            RunFault::NothingToKeep { path } => {
                write_filled(f, "no source has a packet: {} stays as it was", *path)
            }
            RunFault::WrongOffset { word, shift } => write_shift(f, word, *shift),
            RunFault::Unread { path, cause } => write_unread(f, *path, *cause),
            RunFault::ShortSlice {
                path,
                offset,
                length,
            } => match self.size {
                Some(size) => write!(
                    f,
                    "{path} has {size} bytes, and {length} from byte {offset} on are asked for"
                ),
                None => write_cause(f, *path, None),
            },
            RunFault::BadCatalogue { path, .. } => {
                write_filled(f, advice_on_catalogue(self.beginning), *path)
            }
            RunFault::Unwritten { cause } => write_cause(f, "standard output", *cause),
            RunFault::Unsaved { path, fault } => write_unsaved(f, *path, fault),
            fault => f.write_str(advice_on_fault(fault)),
        }
    }
}

/// What to do about a fault whose hint names nothing of the run.
fn advice_on_fault(fault: &RunFault<'_>) -> &'static str {
    match fault {
        RunFault::OutOfMemory =>
            "join fewer sources at once, and then the catalogues of these joins",
        RunFault::Signed { .. } => "write the number without a sign",
        RunFault::BadUnitWord { text, .. } => advice_on_unit(*text),
        RunFault::BadLastUnit { .. } =>
            "name by --from a first unit that isn't above --to, and ask for 1000000 units at most",
        RunFault::SeveralUnitsAt { .. } =>
            "it is shown more than once: describe prints the clocks; name edit units by their numbers",
        RunFault::LastBeforeFirst =>
            "name by --to a unit that isn't below that of --from, or a timecode that isn't shown before it",
        RunFault::NoLastUnit =>
            "no segment that is held gives this index a last unit from the first on: name the last by --to, or another index by --index",
        RunFault::TooManyUnits => "ask for 1000000 units at most, by --from and --to",
        RunFault::NoIndex => "no index table segment is held: plan says what to restore",
        RunFault::SeveralIndexes { .. } => "name one of them by --index",
        RunFault::NoSource => "name a source as a word, or in a line of the list",
        RunFault::TwoLists => "name one of the two lists by its path",
        RunFault::BadUnit => "the greatest edit unit is 9223372036854775807",
        // `fmt` writes the hints on these
        RunFault::NoUnitAt { .. }
        | RunFault::BadSource { .. }
        | RunFault::BadLine { .. }
        | RunFault::BadOutput { .. }
        | RunFault::NothingToKeep { .. }
        | RunFault::WrongOffset { .. }
        | RunFault::Unread { .. }
        | RunFault::ShortSlice { .. }
        | RunFault::BadCatalogue { .. }
        | RunFault::Unwritten { .. }
        | RunFault::Unsaved { .. } => "",
    }
}

/// What to do after a check that read no essence.
pub const SKIM_HINT: &str =
    "hint: essence wasn't read: check without --skim reads it, and verify says whether it is as it was";

/// What a word was meant for that is no edit unit.
fn advice_on_unit(word: &str) -> &'static str {
    if word.contains(".") && word.contains(":") {
        "write ':' before the frames of a timecode, or ';' in quotes where it is one of drop frame"
    } else if is_timecode(word) {
        "a timecode has four numbers of two digits each, HH:MM:SS:FF"
    } else {
        "an edit unit is a number, counted from 0 as they are stored, or a timecode HH:MM:SS:FF"
    }
}

/// The timecode that a clock of drop frame shows next after one that the clock leaves out; `None` if the clock leaves out no
/// such one. The first two frames of 30 are left out, and the first four of 60, of each minute that isn't a tenth one (SMPTE
/// ST 12-1).
fn next_shown(word: TimecodeWord, base: u16) -> Option<Timecode> {
    let left_out = u32::from(base / 15);
    let is_left_out = word.hours < 24
        && word.minutes < 60
        && word.minutes % 10 != 0
        && word.seconds == 0
        && word.frames < left_out;
    is_left_out.then_some(Timecode {
        hours: u64::from(word.hours),
        minutes: u64::from(word.minutes),
        seconds: 0,
        frames: u64::from(left_out),
        is_drop: true,
    })
}

/// Writes which timecodes a clock has that hasn't this one.
fn write_clock<W: fmt::Write>(
    f: &mut fmt::Formatter<W>,
    word: &str,
    clock: ToldClock,
) -> fmt::Result {
    let ToldClock::Runs {
        first,
        base,
        is_one,
        ..
    } = clock
    else {
        return f.write_str(
            "no clock of the index is known: describe prints those that are; name edit units by their numbers",
        );
    };
    let word = TimecodeWord::read(word);
    if let Some(next) = word
        .filter(|_| first.is_drop)
        .and_then(|word| next_shown(word, base))
    {
        return write!(
            f,
            "drop frame leaves this timecode out: the next one is {next}"
        );
    }
    match word {
        Some(word) if word.frames >= u32::from(base) => {
            write!(f, "the clock has {base} frames a second, counted from 00")
        }
        Some(word) if word.is_drop && !first.is_drop && is_one => {
            f.write_str("the clock isn't one of drop frame: write ':' before the frames")
        }
        _ => write_runs(f, clock),
    }
}

/// Writes from which timecode up to which the first run of a clock goes, and what may go on behind it.
fn write_runs<W: fmt::Write>(f: &mut fmt::Formatter<W>, clock: ToldClock) -> fmt::Result {
    let ToldClock::Runs {
        first,
        last,
        is_one,
        is_open,
        ..
    } = clock
    else {
        return Ok(());
    };
    write!(f, "the clock has {first}")?;
    match last {
        Some(last) => write!(f, " to {last}")?,
        None => f.write_str(" and all behind it")?,
    }
    if !is_one {
        f.write_str(", and others, which describe prints")?;
    }
    if is_open && last.is_some() {
        f.write_str(
            ", by header metadata that are open: a later copy may say more, which plan without --from and --to orders if it isn't held",
        )?;
    }
    Ok(())
}

/// Writes why no catalogue is saved at a path.
fn write_refusal<W: fmt::Write>(
    f: &mut fmt::Formatter<W>,
    path: &str,
    why: OutputRefusal,
) -> fmt::Result {
    let what = match why {
        OutputRefusal::StandardOutput => "standard output, into which lines go",
        OutputRefusal::Source => "the file of a source",
        OutputRefusal::Recording => "a recording, or a part of one",
        OutputRefusal::Other => "no catalogue, and not empty",
    };
    write!(
        f,
        "{path} is {what}, which a catalogue would replace: name another file"
    )
}

/// Writes at which OFFSET a source belongs by its partition packs.
fn write_shift<W: fmt::Write>(
    f: &mut fmt::Formatter<W>,
    word: &Source<'_>,
    shift: Shift,
) -> fmt::Result {
    let Some(right) = right_of(word, shift) else {
        return f.write_str(
            "its partition packs say that it begins below 0: is there something before its first packet?",
        );
    };
    match word.at(right) {
        Some(moved) => write!(
            f,
            "by its partition packs it is {moved}; --drop saves it at this OFFSET all the same"
        ),
        // a slice lies in the recording where it lies in its file, so another OFFSET names other bytes of the file
        None => write!(
            f,
            "by its partition packs it begins at {right}: name a copy of these bytes at:{right}:PATH; --drop saves them at this OFFSET all the same"
        ),
    }
}

/// The OFFSET of a source by its partition packs, if it can have it.
fn right_of(word: &Source<'_>, shift: Shift) -> Option<u64> {
    let (offset, _) = word.place()?;
    shift.right(offset)
}

/// Writes what the word may have been meant for, which names no source.
fn write_source<W: fmt::Write>(
    f: &mut fmt::Formatter<W>,
    word: &str,
    beginning: Option<Beginning>,
) -> fmt::Result {
    match (beginning, sized_source(word)) {
        (Some(Beginning::Label), _) => write_filled(
            f,
            "{} begins with a packet: name it at:0:{}, or at:OFFSET:{} if it isn't the recording's beginning",
            word,
        ),
        (Some(Beginning::Catalogue), _) => {
            write_filled(f, "{} looks like a catalogue: name it cat:{}", word)
        }
        (_, Some(slice @ Source::Slice { .. })) => write!(
            f,
            "OFFSET and LENGTH are numbers of bytes: name it {slice}"
        ),
        (_, Some(sized)) => write!(f, "OFFSET is a number of bytes: name it {sized}"),
        _ => f.write_str(advice_on_word(word)),
    }
}

/// What a word was meant for that names neither a source nor a file that begins as one.
fn advice_on_word(word: &str) -> &'static str {
    if word.as_bytes().starts_with(b"\xef\xbb\xbf") {
        "the list begins with a byte order mark: save it without one"
    } else if word.ends_with("\r") {
        "the lines of the list end with a carriage return: end them with a line feed alone"
    } else {
        "a source is at:OFFSET:PATH, range:OFFSET:PATH or slice:OFFSET:LENGTH:PATH, with numbers in decimal digits alone, or cat:PATH"
    }
}

/// Writes what the file that was read as a list looks like.
fn write_list<W: fmt::Write>(
    f: &mut fmt::Formatter<W>,
    path: &str,
    beginning: Option<Beginning>,
) -> fmt::Result {
    match beginning {
        Some(Beginning::Label | Beginning::Catalogue) => {
            write_source(f, path, beginning)?;
            f.write_str(", without --sources")
        }
        _ => f.write_str("a line of a list is a source in UTF-8"),
    }
}

/// Writes what the system says of a path, and what to do about it if nothing stands there.
fn write_unread<W: fmt::Write>(
    f: &mut fmt::Formatter<W>,
    path: &str,
    cause: Option<SystemFault>,
) -> fmt::Result {
    write_cause(f, path, cause)?;
    match cause {
        Some(NOT_FOUND) => f.write_str(advice_on(path)),
        _ => Ok(()),
    }
}

/// What to do about a path that is spelled as no file's is, after what the system says of it.
fn advice_on(path: &str) -> &'static str {
    if path == "-" {
        ": standard input is /dev/stdin"
    } else if path.starts_with("~/") {
        ": nothing replaces the ~ here: write the whole path"
    } else if path.ends_with("\r") {
        ": the lines of the list end with a carriage return: end them with a line feed alone"
    } else if path.ends_with(" ") {
        ": the path ends with a space"
    } else if begins_with_scheme(path) {
        ": this is spelled as a source: here a path alone is named"
    } else {
        ""
    }
}

/// Writes the path and what the system says of it.
fn write_cause<W: fmt::Write>(
    f: &mut fmt::Formatter<W>,
    path: &str,
    cause: Option<SystemFault>,
) -> fmt::Result {
    let Some(cause) = cause else {
        return write_filled(f, "{}: the system gives no cause", path);
    };
    write!(f, "{path}: {cause}")?;
    f.write_str(match cause {
        TOO_MANY_FILES =>
            ": all sources are open at once, those of a list too; join them in groups, a file each, and then these files; or raise the limit by ulimit -n",
        _ => "",
    })
}

/// What the file is that was refused as a catalogue. `{}` stands for its path.
fn advice_on_catalogue(beginning: Option<Beginning>) -> &'static str {
    match beginning {
        Some(Beginning::Label) => "{} looks like a piece of a recording: name it at:OFFSET:{}",
        Some(Beginning::Catalogue) =>
            "{} begins as a catalogue: it was damaged or cut, or a newer program wrote it",
        Some(Beginning::Nothing) => "{} is empty",
        Some(Beginning::Other) => "{} is no catalogue that join or renew wrote",
        None => "{} is no regular file, and gave no catalogue that join or renew wrote",
    }
}

/// Writes why a catalogue wasn't saved.
fn write_unsaved<W: fmt::Write>(
    f: &mut fmt::Formatter<W>,
    path: &str,
    fault: &SaveFault,
) -> fmt::Result {
    match fault {
        SaveFault::Reserved(part) => write_filled(
            f,
            "another run holds {} and writes this catalogue: run this one again when it has ended; if none runs, remove that file",
            part.as_str(),
        ),
        SaveFault::Write(cause) => write_cause(f, path, *cause),
        SaveFault::OutOfMemory | SaveFault::Refused(_) | SaveFault::NothingToKeep => {
            f.write_str("nothing was written")
        }
    }
}
