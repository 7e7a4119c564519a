//! Why a run ends without its answer.
ghost use Rattle.std.specs.Prelude.{◌≡◌};
ghost use Rattle.mxf_hints.specs.Exits.{exit_of_fault, exit_of_run};
ghost use Rattle.mxf_hints.specs.declared.exit.Exit.TheVariants as exits;
ghost use Rattle.mxf_hints.specs.declared.fault.RunFault.TheVariants as runs;

use crate::exit::Exit;
use crate::shift::Shift;
use mxf_clocks::Run;
use mxf_klv::OutOfMemory;
use mxf_read::PartFault;
use mxf_saving::{OutputRefusal, SaveFault, Source, SystemFault};
use mxf_tracks::Timecode;
use std::fmt;
use thiserror::Error;

/// Why a run ends without its answer. It prints as its line.
#[derive(Debug, Drop, Error)]
pub enum RunFault<'a> {
    /// A growth of memory was refused.
    #[error("out of memory")]
    OutOfMemory,
    /// A number has a sign.
    #[error("error: invalid value '{text}' for '--{option} <N>': a number has digits alone")]
    Signed {
        option: &'a str,
        text: &'a str,
    },
    /// A word for an edit unit is no number that can be asked for, and no timecode.
    #[error("error: invalid value '{text}' for '--{option} <N>': not 0 to 9223372036854775807, nor a timecode HH:MM:SS:FF")]
    BadUnitWord {
        option: &'a str,
        text: &'a str,
    },
    /// The last edit unit is below the first, or 1,000,000 or more after it.
    #[error("error: invalid value '{text}' for '--to <N>': not 0 to 999999 units after the first")]
    BadLastUnit {
        text: &'a str,
    },
    /// A word, or a line of a list, names no source.
    #[error("bad source: {word}")]
    BadSource {
        word: &'a str,
    },
    /// The list names no source, and no word does.
    #[error("error: no source is named")]
    NoSource,
    /// A line of a list isn't UTF-8.
    #[error("error: line {number} of {path} is not UTF-8")]
    BadLine {
        number: usize,
        path: &'a str,
    },
    /// No catalogue is saved there.
    #[error("bad output: {path}")]
    BadOutput {
        path: &'a str,
        why: OutputRefusal,
    },
    /// There is no note to be saved, and a file with bytes stands there.
    #[error("nothing to keep: {path}")]
    NothingToKeep {
        path: &'a str,
    },
    /// The partition packs of a source say that it begins at another offset.
    #[error("wrong offset: {word}: {shift}")]
    WrongOffset {
        word: Source<'a>,
        shift: Shift,
    },
    /// Both lists are standard input.
    #[error("error: one list at most is standard input")]
    TwoLists,
    /// The edit unit is above the greatest.
    #[error("bad unit")]
    BadUnit,
    /// No position is shown at a timecode.
    #[error("no unit at {word}")]
    NoUnitAt {
        word: &'a str,
        clock: ToldClock,
    },
    /// More than one range of positions is shown at a timecode.
    #[error("several units at {word}")]
    SeveralUnitsAt {
        word: &'a str,
    },
    /// What is shown up to the last timecode ends before what is shown from the first on, or the last edit unit is
    /// below the first.
    #[error("last unit before first")]
    LastBeforeFirst,
    /// No last edit unit is named, and the index has none, or it is below the first.
    #[error("no last unit")]
    NoLastUnit,
    /// The last edit unit is 1,000,000 or more after the first.
    #[error("too many units")]
    TooManyUnits,
    /// No index is named, and none is held.
    #[error("no index is held")]
    NoIndex,
    /// No index is named, and several are meant: those that are held, or that have a clock if a timecode is asked for.
    #[error("which index: {meant}")]
    SeveralIndexes {
        meant: IndexSids,
    },
    /// A source or a list couldn't be opened or read, as the system says.
    #[error("read fault: {path}")]
    Unread {
        path: &'a str,
        cause: Option<SystemFault>,
    },
    /// A slice couldn't be read, and the system gives no cause: its file has fewer bytes.
    #[error("read fault: {path}")]
    ShortSlice {
        path: &'a str,
        offset: u64,
        length: u64,
    },
    /// The file of a catalogue was refused or is too long.
    #[error("catalogue fault: {path}: {fault}")]
    BadCatalogue {
        path: &'a str,
        fault: PartFault,
    },
    /// The answer couldn't be written to standard output, as the system says.
    #[error("write fault")]
    Unwritten {
        cause: Option<SystemFault>,
    },
    /// The catalogue couldn't be saved.
    #[error("write fault")]
    Unsaved {
        path: &'a str,
        fault: SaveFault,
    },
}

/// What is told of the clock of an index: the timecodes of its first run, and how many frames these have in a second.
#[derive(Clone, Copy, Debug)]
pub enum ToldClock {
    /// It has no run.
    None,
    /// It has a first run, and perhaps others.
    Runs {
        first: Timecode,
        last: Option<Timecode>,
        base: u16,
        is_one: bool,
        /// The header metadata that say so are those of an open partition.
        is_open: bool,
    },
}

impl ToldClock {
    /// What is told of the runs of a clock, by header metadata that are open or not.
    pub fn of(runs: &[Run], is_open: bool) -> ToldClock {
        match runs.first() {
            None => ToldClock::None,
            Some(run) => ToldClock::Runs {
                first: run.first(),
                last: run.last(),
                base: run.base(),
                is_one: runs.len() == 1,
                is_open,
            },
        }
    }
}

/// IndexSIDs. They print with a space between them.
#[derive(Debug, Drop)]
pub struct IndexSids(pub Vec<u32>);

impl fmt::Display for IndexSids {
    fn fmt<W: fmt::Write>(&self, f: &mut fmt::Formatter<W>) -> fmt::Result {
        write_index_sids(f, &self.0)
    }
}

/// Writes IndexSIDs with a space between them.
pub fn write_index_sids<W: fmt::Write>(
    f: &mut fmt::Formatter<W>,
    index_sids: &[u32],
) -> fmt::Result {
    let mut space = "";
    for index_sid in index_sids {
        write!(f, "{space}{index_sid}")?;
        space = " ";
    }
    Ok(())
}

impl<'a> From<OutOfMemory> for RunFault<'a> {
    ghost from_gives = { λ _ e. e ≡ runs.OutOfMemory };

    fn from(_fault: OutOfMemory) -> RunFault<'a> {
        RunFault::OutOfMemory
    }
}

impl RunFault<'_> {
    /// How the run ends.
    pub fn exit(&self) -> Exit
        ensures { result ≡ exit_of_run self.now }
    {
        match self {
            RunFault::OutOfMemory => Exit::NoMemory,
            RunFault::Signed { .. }
            | RunFault::BadUnitWord { .. }
            | RunFault::BadLastUnit { .. }
            | RunFault::NoUnitAt { .. }
            | RunFault::SeveralUnitsAt { .. }
            | RunFault::LastBeforeFirst
            | RunFault::NoLastUnit
            | RunFault::TooManyUnits
            | RunFault::NoIndex
            | RunFault::SeveralIndexes { .. }
            | RunFault::BadSource { .. }
            | RunFault::NoSource
            | RunFault::BadLine { .. }
            | RunFault::BadOutput { .. }
            | RunFault::WrongOffset { .. }
            | RunFault::TwoLists
            | RunFault::BadUnit => Exit::Usage,
            RunFault::NothingToKeep { .. } => Exit::Found,
            RunFault::Unread { .. } | RunFault::ShortSlice { .. } => Exit::Unread,
            RunFault::BadCatalogue { .. } => Exit::Refused,
            RunFault::Unwritten { .. } | RunFault::Unsaved { .. } => Exit::Unwritten,
        }
    }

    /// The fault of the part that a source names, of a read as the system says.
    pub fn of_part<'a>(
        source: Source<'a>,
        fault: PartFault,
        cause: Option<SystemFault>,
    ) -> RunFault<'a>
        ensures { exit_of_run result ≡ exit_of_fault fault }
    {
        match fault {
            PartFault::OutOfMemory => RunFault::OutOfMemory,
            PartFault::ReadFault => RunFault::of_read(source, cause),
            PartFault::TooLong | PartFault::Catalogue(_) => RunFault::BadCatalogue {
                path: source.path(),
                fault,
            },
        }
    }

    /// That a source couldn't be read, as the system says.
    fn of_read<'a>(source: Source<'a>, cause: Option<SystemFault>) -> RunFault<'a>
        ensures { exit_of_run result ≡ exits.Unread }
    {
        match (source, cause) {
            (
                Source::Slice {
                    offset,
                    length,
                    path,
                },
                None,
            ) => RunFault::ShortSlice {
                path,
                offset,
                length,
            },
            _ => RunFault::Unread {
                path: source.path(),
                cause,
            },
        }
    }
}
