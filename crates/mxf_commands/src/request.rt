//! What the matches of the command line ask for.
use clap::ArgMatches;
use mxf_asked::{
    Ask, AskedUnits, Grid, Hints, IndexedUnits, NamedSources, NamedUnit, Renewing, Request, Saving,
    Task, Told, Verifying,
};
use mxf_forms::Form;
use mxf_skim::Scan;
use mxf_timed::{TimecodeWord, UnitBound};
use mxf_units::UnitRange;

/// What the matches of the command with this name ask for, with these edit units if it has any, or `None` if there is
/// no such command.
pub fn request_of<'m, 'a>(
    name: &str,
    inner: &'m ArgMatches<'a>,
    units: AskedUnits<'a>,
) -> Option<Request<'m, 'a>> {
    Some(Request {
        task: task_of(name, inner, units)?,
        scan: scan_of(inner),
        form: form_of(inner),
        named: NamedSources {
            words: inner.get_strs("SRC"),
            list: inner.get_str("sources"),
        },
        beside: NamedSources {
            words: words_beside(inner),
            list: inner.get_str("recordings"),
        },
    })
}

/// The words that name the sources beside SRC.
fn words_beside<'m, 'a>(inner: &'m ArgMatches<'a>) -> Option<&'m [&'a str]> {
    let words = inner.get_strs("old").or(inner.get_strs("against"));
    words.or(inner.get_strs("in"))
}

/// When hints are to be printed.
pub fn hints_of(inner: &ArgMatches<'_>) -> Hints {
    Hints::named(inner.get_str("hints").unwrap_or("auto"))
}

/// Whether the values of a container's packets are to be read.
fn scan_of(inner: &ArgMatches<'_>) -> Scan {
    if inner.get_flag("skim") {
        Scan::Skim
    } else {
        Scan::Full
    }
}

/// The form in which lines are to be printed.
fn form_of(inner: &ArgMatches<'_>) -> Form {
    if inner.get_flag("json") {
        Form::Json
    } else {
        Form::Text
    }
}

/// What the matches of the command with this name are to do, with these edit units if it has any.
fn task_of<'a>(name: &str, inner: &ArgMatches<'a>, units: AskedUnits<'a>) -> Option<Task<'a>> {
    match name {
        "sources" => Some(Task::Sources),
        "find" => Some(Task::Find),
        "verify" => Some(Task::Verify(Verifying {
            is_whole: inner.get_flag("whole"),
            units: indexed(inner, units),
        })),
        "join" => Some(Task::Join(saving_of(inner)?)),
        "renew" => Some(Task::Renew(Renewing {
            saving: saving_of(inner)?,
            drops: inner.get_flag("drop"),
        })),
        _ => Some(Task::Tell(told_of(name, inner, units)?)),
    }
}

/// What the matches of the command with this name are to answer, with these edit units if it has any.
fn told_of<'a>(name: &str, inner: &ArgMatches<'a>, units: AskedUnits<'a>) -> Option<Told<'a>> {
    match name {
        "describe" => Some(Told::Answer(Ask::Describe)),
        "show" => Some(Told::Answer(Ask::Show {
            scan: scan_of(inner),
        })),
        "check" => Some(Told::Answer(checked_of(inner))),
        "locate" => Some(Told::Answer(Ask::Locate {
            index: inner.get_one("index")?,
            unit: inner.get_one("unit")?,
        })),
        "units" => Some(Told::Units(by_index(inner, units))),
        "plan" => Some(planned_of(inner, units)),
        "map" => Some(Told::Map {
            grid: grid_of(inner)?,
            with_extents: inner.get_flag("extents"),
        }),
        _ => None,
    }
}

/// What the matches of a command check: doubts too, if they ask for doubts.
fn checked_of(inner: &ArgMatches<'_>) -> Ask {
    if inner.get_flag("doubts") {
        Ask::Doubts
    } else {
        Ask::Check
    }
}

/// The cells of the map that matches ask for.
fn grid_of(inner: &ArgMatches<'_>) -> Option<Grid> {
    let columns = inner.get_one("columns").unwrap_or(64);
    Grid::new(columns, inner.get_one("rows").unwrap_or(16))
}

/// What the matches of a command plan: edit units if they name some or an index, otherwise all.
fn planned_of<'a>(inner: &ArgMatches<'a>, units: AskedUnits<'a>) -> Told<'a> {
    match indexed(inner, units) {
        Some(units) => Told::UnitPlan(units),
        None => Told::Answer(Ask::Plan),
    }
}

/// Where the matches of a command save a catalogue.
fn saving_of<'a>(inner: &ArgMatches<'a>) -> Option<Saving<'a>> {
    Some(Saving {
        out: inner.get_str("out")?,
        is_strict: inner.get_flag("strict"),
        is_dry: inner.get_flag("dry-run"),
    })
}

/// The edit units that matches ask for, if they name some or an index.
fn indexed<'a>(inner: &ArgMatches<'a>, units: AskedUnits<'a>) -> Option<IndexedUnits<'a>> {
    let asked = by_index(inner, units);
    (asked.index.is_some() || units.are_named()).then_some(asked)
}

/// These units, by the index that matches name, if they name one. Timecodes are told if a word is one.
fn by_index<'a>(inner: &ArgMatches<'a>, units: AskedUnits<'a>) -> IndexedUnits<'a> {
    IndexedUnits {
        index: inner.get_one("index"),
        units,
        with_timecodes: inner.get_flag("timecode") || units.timecode().is_some(),
    }
}

/// Why the edit units are refused that words name.
#[derive(Clone, Copy)]
pub enum UnitRefusal<'a> {
    /// The word of this option is no number that can be asked for, and no timecode.
    Word { option: &'a str, text: &'a str },
    /// The last unit, as it is written, is below the first or too far after it.
    Last(&'a str),
}

/// The edit units that the matches of a command ask for.
pub fn units_of<'a>(inner: &ArgMatches<'a>) -> Result<AskedUnits<'a>, UnitRefusal<'a>> {
    let asked = AskedUnits {
        from: unit_named(inner, "from")?,
        to: unit_named(inner, "to")?,
    };
    if let Some(text) = bad_last_unit(asked) {
        return Err(UnitRefusal::Last(text));
    }
    Ok(asked)
}

/// The edit unit that the word of this option names, if there is one.
fn unit_named<'a>(
    inner: &ArgMatches<'a>,
    option: &'static str,
) -> Result<Option<NamedUnit<'a>>, UnitRefusal<'a>> {
    let Some(word) = inner.get_str(option) else {
        return Ok(None);
    };
    match bound_of(word) {
        Some(bound) => Ok(Some(NamedUnit { bound, word })),
        None => Err(UnitRefusal::Word { option, text: word }),
    }
}

/// What a word asks for: a timecode, or the number of a unit, of digits alone.
fn bound_of(word: &str) -> Option<UnitBound> {
    if let Some(timecode) = TimecodeWord::read(word) {
        return Some(UnitBound::Timecode(timecode));
    }
    match word.parse::<u64>() {
        Ok(number) if UnitRange::new(number, number).is_some() => Some(UnitBound::Number(number)),
        _ => None,
    }
}

/// The last unit as it is written, if two numbers are no range: it is below the first, or 1,000,000 or more after it.
fn bad_last_unit<'a>(asked: AskedUnits<'a>) -> Option<&'a str> {
    let to = asked.to?;
    let first = match asked.from {
        Some(from) => from.bound,
        None => UnitBound::Number(0),
    };
    match (first, to.bound) {
        (UnitBound::Number(first), UnitBound::Number(last)) => match UnitRange::new(first, last) {
            Some(_) => None,
            None => Some(to.word),
        },
        _ => None,
    }
}

/// The option whose number has a sign, and the number. An offset has none either.
pub fn signed_number<'a>(inner: &ArgMatches<'a>) -> Option<(&'a str, &'a str)> {
    for option in ["index", "unit", "from", "to", "columns", "rows"] {
        match inner.get_str(option) {
            Some(text) if text.starts_with('+') => return Some((option, text)),
            _ => {}
        }
    }
    None
}
