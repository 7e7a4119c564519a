//! What a run reports on standard error.
ghost use Rattle.std.specs.Prelude.{◌≡◌};
ghost use Rattle.mxf_hints.specs.Exits.{has_hints};

use crate::exit::Exit;
use crate::fault::RunFault;
use crate::hint::Hint;
use mxf_asked::Hints;
use mxf_saving::Beginning;
use mxf_watching::{Screen, text_on_screen};
use std::alloc::{AllocError, Global};
use std::rt::Files;
use std::{fmt, fs};

/// What standard error is, and whether hints go there.
#[derive(Clone, Copy)]
pub struct Telling {
    pub screen: Screen,
    pub has_hints: bool,
}

impl Telling {
    /// To a standard error that is this, with hints if they are asked for.
    pub fn of(screen: Screen, hints: Hints) -> Telling
        ensures screen { result.screen ≡ screen }
        ensures hints { result.has_hints ≡ has_hints hints screen }
    {
        let has_hints = match hints {
            Hints::Auto => screen == Screen::Terminal,
            Hints::Always => true,
            Hints::Never => false,
        };
        Telling { screen, has_hints }
    }
}

/// Reports a fault, and what to do about it if hints are told; answers how the run ends.
pub fn tell<R: Files + Eprint + AllocGlobal>(
    rt: &R,
    telling: Telling,
    fault: &RunFault<'_>,
) -> Exit {
    if tell_fault(rt, telling, fault).is_err() {
        let _ = rt.eprintln("out of memory");
        return Exit::NoMemory;
    }
    fault.exit()
}

/// Reports a fault, and what to do about it if hints are told.
fn tell_fault<R: Files + Eprint + AllocGlobal>(
    rt: &R,
    telling: Telling,
    fault: &RunFault<'_>,
) -> Result<(), AllocError> {
    if telling.screen == Screen::Terminal {
        tell_on_screen(rt, fault)?;
    } else {
        let _ = rt.eprintln(fault);
    }
    if !telling.has_hints {
        return Ok(());
    }
    let hint = Hint {
        fault,
        beginning: beginning_of(rt, fault),
        size: size_of(rt, fault),
    };
    tell_on_screen(rt, &hint)
}

/// Prints a line for people, without control characters.
pub fn tell_on_screen<R: Eprint + AllocGlobal, D: fmt::Display>(
    rt: &R,
    line: &D,
) -> Result<(), AllocError> {
    let line = line_on_screen(rt.alloc(), line)?;
    let _ = rt.eprintln(line.as_str());
    Ok(())
}

/// The line as a terminal shows it.
pub fn line_on_screen<D: fmt::Display>(alloc: Global, line: &D) -> Result<String, AllocError> {
    let line = format!(in alloc; "{line}")?;
    text_on_screen(alloc, line.as_str())
}

/// How many bytes the regular file has of which a slice is short.
fn size_of<R: Files>(rt: &R, fault: &RunFault<'_>) -> Option<u64> {
    let RunFault::ShortSlice { path, .. } = fault else {
        return None;
    };
    match fs::metadata(rt, *path) {
        Ok(found) if found.is_file() => Some(found.len()),
        _ => None,
    }
}

/// What the file begins with that was refused as a catalogue or a list, or that a word names which is no source.
fn beginning_of<R: Files + AllocGlobal>(rt: &R, fault: &RunFault<'_>) -> Option<Beginning> {
    match fault {
        RunFault::BadCatalogue { path, .. }
        | RunFault::BadLine { path, .. }
        | RunFault::BadSource { word: path } => { Beginning::of(rt, *path).unwrap_or(None) }
        _ => None,
    }
}
