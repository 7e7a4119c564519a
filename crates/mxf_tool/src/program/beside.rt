//! Sources beside each other: which of them holds which note.
use super::{Inputs, Printed, print_answer, told};
use mxf_catalogue::Catalogue;
use mxf_forms::Form;
use mxf_hints::{Exit, RunFault};
use mxf_readings::Readings;
use mxf_sources::{names_of, read_each};

/// Prints what each source holds, and which source has which disputed note.
pub fn print_beside<'a>(rt: &HostRuntime, inputs: Inputs<'_, 'a>) -> Result<Exit, RunFault<'a>> {
    let Ok(names) = names_of(rt.alloc(), inputs.sources) else {
        return Err(RunFault::OutOfMemory);
    };
    let read = read_each(rt, inputs.telling.screen, inputs.sources)?;
    let exit = print_contents(rt, inputs.form, &names, &read.contents)?;
    told(
        rt,
        inputs.telling.has_hints,
        inputs.sources,
        &read.reports,
        false,
        exit,
    )
}

/// Prints on standard output which of the sources with these names and contents holds which note.
fn print_contents<'a>(
    rt: &HostRuntime,
    form: Form,
    names: &[String],
    contents: &[Catalogue],
) -> Result<Exit, RunFault<'a>> {
    match Readings::of(rt.alloc(), contents) {
        Ok(readings) => print_answer(rt, Printed::Beside(&readings, names), form),
        Err(_) => Err(RunFault::OutOfMemory),
    }
}
