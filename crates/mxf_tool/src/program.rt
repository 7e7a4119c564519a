//! The run of the program: its arguments, its files, its lines, and its exit status.
mod beside;
mod edit_units;
mod finding;
mod renewing;
mod saving;
mod verifying;

use crate::answered::exit_of_answer;
use beside::print_beside;
use clap::ArgMatches;
use clap::error::ErrorKind;
use edit_units::{print_unit_plan, print_units};
use finding::print_found_in;
use mxf_asked::{Ask, Grid, Hints, Request, Saving, Task, Told};
use mxf_clocks::Clocks;
use mxf_commands::{
    UnitRefusal, command, hints_of, request_of, signed_number, units_of, unreadable_argument,
};
use mxf_forms::Form;
use mxf_hints::{
    Exit, RefusalHint, RunFault, SKIM_HINT, Telling, tell, tell_left_open, tell_on_screen,
    tell_stops, tell_together,
};
use mxf_lines::{
    AnswerFault, Searched, Verified, answer, print_edit_units, print_found, print_many_plan,
    print_map, print_metadata_plan, print_renewed, print_sources, print_verification,
};
use mxf_partial::{ManyUnits, UnitPlan};
use mxf_read::{Gathered, PieceReport};
use mxf_readings::Readings;
use mxf_saving::{
    BUFFER_BYTES, LastFault, Reservation, SaveFault, Source, SystemFault, WatchedWriter, refusal_of,
};
use mxf_skim::Scan;
use mxf_sources::{HeldBySources, Lists, hold_sources, read_lists, settled, sources_of};
use mxf_units::{UnitRange, Units};
use mxf_verify::Renewed;
use mxf_watching::Screen;
use renewing::print_renewal;
use saving::{save, tell_kept};
use std::alloc::Global;
use std::io::{BufWriter, Write};
use std::{env, io};
use verifying::print_verified;

/// What each task is done with.
#[derive(Clone, Copy)]
pub struct Inputs<'s, 'a> {
    pub telling: Telling,
    pub scan: Scan,
    pub form: Form,
    /// The sources beside these: the earlier ones of a renewal, those of a reference, or the recordings in which
    /// fragments are looked for.
    pub beside: &'s [Source<'a>],
    pub sources: &'s [Source<'a>],
}

/// Runs the program on the arguments that it was started with.
pub fn run(rt: &HostRuntime, screen: Screen) -> Exit {
    let telling = Telling::of(screen, Hints::Auto);
    let arguments = match env::args(rt) {
        Ok(arguments) => arguments,
        Err(fault) => return unread_arguments(rt, telling, &fault),
    };
    let arguments: Vec<String> = match arguments.collect(rt.alloc()) {
        Ok(arguments) => arguments,
        Err(_) => return tell(rt, telling, &RunFault::OutOfMemory),
    };
    run_on(rt, screen, arguments.as_slice())
}

/// Runs the program on these arguments.
fn run_on(rt: &HostRuntime, screen: Screen, arguments: &[String]) -> Exit {
    let telling = Telling::of(screen, Hints::among(arguments));
    let Ok(command) = command(rt.alloc()) else {
        return tell(rt, telling, &RunFault::OutOfMemory);
    };
    match command.try_get_matches_from(arguments) {
        Ok(matches) => matched(rt, screen, &matches),
        Err(refusal) => refused(rt, telling, arguments, &refusal),
    }
}

/// Does what arguments ask for that `clap` took, unless a number is refused that it takes.
fn matched(rt: &HostRuntime, screen: Screen, matches: &ArgMatches<'_>) -> Exit {
    let Some((name, inner)) = matches.subcommand() else {
        return Exit::Usage;
    };
    let telling = Telling::of(screen, hints_of(inner));
    if let Some((option, text)) = signed_number(inner) {
        return tell(rt, telling, &RunFault::Signed { option, text });
    }
    let units = match units_of(inner) {
        Ok(units) => units,
        Err(UnitRefusal::Word { option, text }) => {
            return tell(rt, telling, &RunFault::BadUnitWord { option, text });
        }
        Err(UnitRefusal::Last(text)) => return tell(rt, telling, &RunFault::BadLastUnit { text }),
    };
    match request_of(name, inner, units) {
        Some(request) => perform(rt, telling, &request),
        None => Exit::Usage,
    }
}

/// Reports why there are no arguments.
fn unread_arguments(rt: &HostRuntime, telling: Telling, fault: &io::Error) -> Exit {
    if fault.kind() == io::ErrorKind::OutOfMemory {
        return tell(rt, telling, &RunFault::OutOfMemory);
    }
    let _ = match unreadable_argument(rt) {
        Ok(Some(number)) => rt.eprintln(format_args!("error: argument {number} is not UTF-8")),
        Ok(None) => rt.eprintln("error: an argument is not UTF-8"),
        Err(_) => return tell(rt, telling, &RunFault::OutOfMemory),
    };
    Exit::Usage
}

/// Prints what `clap` says of arguments that it refused, or its help.
fn refused(
    rt: &HostRuntime,
    telling: Telling,
    arguments: &[String],
    refusal: &clap::Error,
) -> Exit {
    if refusal.kind() == ErrorKind::OutOfMemory {
        return tell(rt, telling, &RunFault::OutOfMemory);
    }
    let printed = refusal.print(rt);
    if refusal.use_stderr() {
        return refused_with(rt, telling, arguments);
    }
    match printed {
        Ok(()) => Exit::Done,
        Err(fault) => tell(
            rt,
            telling,
            &RunFault::Unwritten {
                cause: SystemFault::of(&fault),
            },
        ),
    }
}

/// Ends a run whose arguments were refused: if hints are told, it tells what one may have been meant for.
fn refused_with(rt: &HostRuntime, telling: Telling, arguments: &[String]) -> Exit {
    if telling.has_hints {
        if let Some(hint) = RefusalHint::of(arguments) {
            if tell_on_screen(rt, &hint).is_err() {
                return tell(rt, telling, &RunFault::OutOfMemory);
            }
        }
    }
    Exit::Usage
}

/// Does what is asked for, and reports a fault.
fn perform(rt: &HostRuntime, telling: Telling, request: &Request<'_, '_>) -> Exit {
    match read_lists(rt, request.named.list, request.beside.list) {
        Ok(lists) => perform_with(rt, telling, request, &lists),
        Err(fault) => tell(rt, telling, &fault),
    }
}

/// Does what is asked for if the lists have these bytes, and reports a fault.
fn perform_with(
    rt: &HostRuntime,
    telling: Telling,
    request: &Request<'_, '_>,
    lists: &Lists,
) -> Exit {
    match perform_named(rt, telling, request, lists) {
        Ok(exit) => exit,
        Err(fault) => tell(rt, telling, &fault),
    }
}

/// Does what is asked for, of the sources that words and lists with these bytes name.
fn perform_named<'a, 'b: 'a>(
    rt: &HostRuntime,
    telling: Telling,
    request: &Request<'_, 'b>,
    lists: &'a Lists,
) -> Result<Exit, RunFault<'a>> {
    let beside = sources_of(rt.alloc(), request.beside, &lists.beside)?;
    let sources = sources_of(rt.alloc(), request.named, &lists.named)?;
    let inputs = Inputs {
        telling,
        scan: request.scan,
        form: request.form,
        beside: &beside,
        sources: &sources,
    };
    perform_on(rt, inputs, request.task)
}

/// Does what is asked for.
fn perform_on<'a>(
    rt: &HostRuntime,
    inputs: Inputs<'_, 'a>,
    task: Task<'a>,
) -> Result<Exit, RunFault<'a>> {
    match task {
        Task::Tell(told) => print_told(rt, inputs, told),
        Task::Sources => print_beside(rt, inputs),
        Task::Find => print_found_in(rt, inputs),
        Task::Verify(asked) => print_verified(rt, inputs, asked),
        Task::Join(saving) => print_joined(rt, inputs, saving),
        Task::Renew(renewing) => print_renewal(rt, inputs, renewing),
    }
}

/// Prints what is asked for of what the sources hold together, with the stops as ends that what is held makes up for; what
/// `show` prints has them as they were. If hints are told, it tells what of the sources doesn't go together, and if a
/// skim was checked, that essence wasn't read.
fn print_told<'a>(
    rt: &HostRuntime,
    inputs: Inputs<'_, 'a>,
    asked: Told<'a>,
) -> Result<Exit, RunFault<'a>> {
    let held = hold_sources(rt, inputs.telling.screen, inputs.scan, inputs.sources)?;
    let held = match asked {
        Told::Answer(Ask::Show { .. }) => held,
        _ => settled(rt.alloc(), held, inputs.sources)?,
    };
    let exit = print_asked(rt, inputs, asked, &held)?;
    let exit = told_held(rt, inputs, &held, false, exit)?;
    let views = &held.gathered.views;
    let has_hints = inputs.telling.has_hints;
    if has_hints && tell_left_open(rt, asked, views, &held.at_hand).is_err() {
        return Err(RunFault::OutOfMemory);
    }
    let is_skim_checked = inputs.scan == Scan::Skim
        && matches!(asked, Told::Answer(Ask::Check | Ask::Doubts));
    if is_skim_checked && has_hints && tell_on_screen(rt, &SKIM_HINT).is_err() {
        return Err(RunFault::OutOfMemory);
    }
    Ok(exit)
}

/// Prints what is asked for of what is held of the sources.
fn print_asked<'a>(
    rt: &HostRuntime,
    inputs: Inputs<'_, 'a>,
    asked: Told<'a>,
    held: &HeldBySources,
) -> Result<Exit, RunFault<'a>> {
    match asked {
        Told::Answer(ask) => print_answer(rt, Printed::Answer(ask, held), inputs.form),
        Told::Map { grid, with_extents } => {
            let map = Printed::Map {
                grid,
                with_extents,
                held,
            };
            print_answer(rt, map, inputs.form)
        }
        Told::Units(asked) => print_units(rt, inputs, asked, held),
        Told::UnitPlan(asked) => print_unit_plan(rt, inputs, asked, held),
    }
}

/// Writes the catalogue of what the sources hold together, and prints how many notes it has. Its place is held before the
/// first source is opened.
fn print_joined<'a>(
    rt: &HostRuntime,
    inputs: Inputs<'_, 'a>,
    saving: Saving<'a>,
) -> Result<Exit, RunFault<'a>> {
    allow_output(rt, saving.out, inputs.sources)?;
    let place = match Reservation::take(rt, saving.out, saving.is_dry) {
        Ok(place) => place,
        Err(fault) => return Err(unsaved(saving.out, fault)),
    };
    let held = hold_sources(rt, inputs.telling.screen, inputs.scan, inputs.sources)?;
    let held = settled(rt.alloc(), held, inputs.sources)?;
    let catalogue = held.gathered.views.catalogue();
    let kept = match save(rt, inputs, saving.out, catalogue, place) {
        Ok(kept) => kept,
        Err(fault) => return Err(unsaved(saving.out, fault)),
    };
    let exit = print_answer(rt, Printed::Answer(Ask::Join, &held), inputs.form)?;
    tell_kept(rt, inputs.telling.has_hints, saving, &kept)?;
    let exit = exit.of_join(saving.is_strict, held.gathered.reports.as_slice());
    let exit = exit.of_disputes(saving.is_strict, catalogue.disputed().count());
    told_held(rt, inputs, &held, true, exit)
}

/// Ends a run of which this is held: if hints are told, it tells of pieces that weren't noted whole, and what of the
/// sources doesn't go together.
fn told_held<'a>(
    rt: &HostRuntime,
    inputs: Inputs<'_, 'a>,
    held: &HeldBySources,
    with_stops: bool,
    exit: Exit,
) -> Result<Exit, RunFault<'a>> {
    let Gathered { views, reports } = &held.gathered;
    let reports = reports.as_slice();
    let has_hints = inputs.telling.has_hints;
    if has_hints && tell_together(rt, inputs.sources, reports, views).is_err() {
        return Err(RunFault::OutOfMemory);
    }
    told(rt, has_hints, inputs.sources, reports, with_stops, exit)
}

/// Refuses `out` where no catalogue is saved, with these sources.
fn allow_output<'a>(
    rt: &HostRuntime,
    out: &'a str,
    sources: &[Source<'_>],
) -> Result<(), RunFault<'a>> {
    match refusal_of(rt, out, sources) {
        Ok(None) => Ok(()),
        Ok(Some(why)) => Err(RunFault::BadOutput { path: out, why }),
        Err(fault) => Err(unsaved(out, SaveFault::from(fault))),
    }
}

/// Why a catalogue wasn't saved at the path.
fn unsaved(path: &str, fault: SaveFault) -> RunFault<'_> {
    match fault {
        SaveFault::OutOfMemory => RunFault::OutOfMemory,
        SaveFault::Refused(why) => RunFault::BadOutput { path, why },
        SaveFault::NothingToKeep => RunFault::NothingToKeep { path },
        fault => RunFault::Unsaved { path, fault },
    }
}

/// Ends a run that was answered: if hints are told, it tells of pieces that weren't noted whole.
fn told<'a>(
    rt: &HostRuntime,
    has_hints: bool,
    sources: &[Source<'_>],
    reports: &[PieceReport],
    with_stops: bool,
    exit: Exit,
) -> Result<Exit, RunFault<'a>> {
    if has_hints && tell_stops(rt, sources, reports, with_stops).is_err() {
        return Err(RunFault::OutOfMemory);
    }
    Ok(exit)
}

/// What is printed on standard output.
#[derive(Clone, Copy)]
enum Printed<'g, 'n, 'c> {
    Answer(Ask, &'g HeldBySources),
    /// A map, and the ranges of its bytes if they are asked for.
    Map {
        grid: Grid,
        with_extents: bool,
        held: &'g HeldBySources,
    },
    /// Where edit units lie, and which timecodes they show if there are clocks.
    Units {
        units: &'g Units<'n>,
        range: UnitRange,
        clocks: &'g Option<Clocks>,
    },
    /// What to restore for edit units.
    UnitPlan {
        units: &'g Units<'n>,
        range: UnitRange,
    },
    /// What to restore for edit units that are more than are told one by one.
    ManyPlan(&'g ManyUnits<'n>),
    /// What to restore of header metadata.
    MetadataPlan(&'g UnitPlan),
    /// A renewal, and whether it was saved.
    Renewed(&'g Renewed<'n>, bool),
    /// What sources hold, each by itself, and the words that name them.
    Beside(&'g Readings<'n>, &'g [String]),
    /// How sources stand to a reference.
    Verified(&'g Verified<'g, 'n, 'c>),
    /// In which recordings fragments lie, and the words that name the recordings.
    Found(&'g [Searched], &'g [String]),
}

/// Prints lines in a form, and answers their status.
fn print_lines<W: Write>(
    alloc: Global,
    printed: Printed<'_, '_, '_>,
    form: Form,
    writer: &mut W,
) -> Result<u8, AnswerFault> {
    match printed {
        Printed::Answer(ask, held) => {
            answer(alloc, &ask, form, &held.gathered, &held.at_hand, writer)
        }
        Printed::Map {
            grid,
            with_extents,
            held,
        } => {
            let HeldBySources {
                gathered,
                at_hand,
                ..
            } = held;
            let views = &gathered.views;
            print_map(alloc, views, at_hand, grid, with_extents, form, writer)?;
            Ok(0)
        }
        Printed::Units {
            units,
            range,
            clocks,
        } => print_edit_units(alloc, units, range, clocks, form, writer),
        Printed::UnitPlan { units, range } => {
            mxf_lines::print_unit_plan(alloc, units, range, form, writer)
        }
        Printed::ManyPlan(many) => print_many_plan(alloc, many, form, writer),
        Printed::MetadataPlan(plan) => print_metadata_plan(alloc, plan, form, writer),
        Printed::Renewed(renewed, is_saved) => {
            print_renewed(alloc, renewed, is_saved, form, writer)?;
            Ok(u8::from(!is_saved))
        }
        Printed::Beside(readings, names) => print_sources(alloc, readings, names, form, writer),
        Printed::Verified(verified) => print_verification(alloc, verified, form, writer),
        Printed::Found(searched, names) => print_found(alloc, searched, names, form, writer),
    }
}

/// Prints lines on standard output.
fn print_answer<'a>(
    rt: &HostRuntime,
    printed: Printed<'_, '_, '_>,
    form: Form,
) -> Result<Exit, RunFault<'a>> {
    let last = LastFault::new();
    let kept = WatchedWriter::new(io::writer(rt), &last);
    let Ok(mut out) = BufWriter::with_capacity(rt.alloc(), BUFFER_BYTES, kept) else {
        return Err(RunFault::OutOfMemory);
    };
    let answered = print_lines(rt.alloc(), printed, form, &mut out);
    let is_flushed = answered.is_ok() && out.flush().is_ok();
    match exit_of_answer(answered, is_flushed) {
        Exit::NoMemory => Err(RunFault::OutOfMemory),
        Exit::Usage => Err(RunFault::BadUnit),
        Exit::Unwritten => Err(RunFault::Unwritten { cause: last.get() }),
        exit => Ok(exit),
    }
}
