//! Saving what earlier sources hold, renewed by later ones.
use super::saving::{save_content, tell_kept};
use super::{Inputs, Printed, allow_output, print_answer, told, unsaved};
use mxf_asked::{Renewing, Saving};
use mxf_catalogue::Catalogue;
use mxf_hints::{
    Exit, RunFault, Shift, is_contradicted, tell_offsets, tell_on_screen, tell_two_recordings,
};
use mxf_klv::OutOfMemory;
use mxf_read::PieceReport;
use mxf_saving::{Reservation, Source};
use mxf_sources::{HeldBySources, Later, Sides, hold_both};
use mxf_verify::{Renewed, renew};
use std::alloc::{AllocError, Global};

/// Writes the catalogue of what the earlier sources hold together, renewed by the later ones, and prints what was
/// dropped. Its place is held before the first source is opened.
///
/// Unless all is to be dropped, nothing is written if all partition packs of a later source say that its OFFSET is
/// wrong by one number of bytes, or if more essence of the earlier sources is dropped than the later ones have of it.
pub fn print_renewal<'a>(
    rt: &HostRuntime,
    inputs: Inputs<'_, 'a>,
    renewing: Renewing<'a>,
) -> Result<Exit, RunFault<'a>> {
    let Saving { out, is_dry, .. } = renewing.saving;
    let Ok(all) = all_sources(rt.alloc(), inputs) else {
        return Err(RunFault::OutOfMemory);
    };
    allow_output(rt, out, &all)?;
    let place = match Reservation::take(rt, out, is_dry) {
        Ok(place) => place,
        Err(fault) => return Err(unsaved(out, fault)),
    };
    let Sides { earlier, later } = hold_both(
        rt,
        inputs.telling.screen,
        inputs.beside,
        inputs.sources,
    )?;
    renew_by(rt, inputs, renewing, place, &earlier, later)
}

/// The earlier sources and the later ones.
fn all_sources<'a>(alloc: Global, inputs: Inputs<'_, 'a>) -> Result<Vec<Source<'a>>, AllocError> {
    let mut all = Vec::from_slice(alloc, inputs.beside)?;
    all.extend_from_slice(inputs.sources)?;
    Ok(all)
}

/// Writes what the earlier sources hold, renewed by what the later ones do, and prints what was dropped.
fn renew_by<'a, 'r>(
    rt: &'r HostRuntime,
    inputs: Inputs<'_, 'a>,
    renewing: Renewing<'a>,
    place: Reservation<'r, HostRuntime>,
    earlier: &HeldBySources,
    later: Later,
) -> Result<Exit, RunFault<'a>> {
    let Later {
        views,
        reports,
        shifts,
    } = later;
    judge_offsets(renewing, inputs.sources, &shifts)?;
    let is_wrong = inputs.telling.has_hints
        && (is_contradicted(&earlier.gathered.views) || is_contradicted(&views));
    let newer = views.into_catalogue();
    let exit = save_renewed(rt, inputs, renewing, place, earlier, newer)?;
    if is_wrong && tell_both_offsets(rt, inputs).is_err() {
        return Err(RunFault::OutOfMemory);
    }
    let is_strict = renewing.saving.is_strict;
    told_both(rt, inputs, is_strict, earlier, reports.as_slice(), exit)
}

/// Refuses the first source whose partition packs say that it begins elsewhere, unless all is to be dropped.
fn judge_offsets<'a>(
    renewing: Renewing<'_>,
    sources: &[Source<'a>],
    shifts: &[Option<Shift>],
) -> Result<(), RunFault<'a>> {
    if renewing.drops {
        return Ok(());
    }
    for (source, shift) in sources.iter().zip(shifts) {
        match (source.place(), shift) {
            (Some(_), Some(shift)) => {
                return Err(RunFault::WrongOffset {
                    word: *source,
                    shift: *shift,
                });
            }
            _ => {}
        }
    }
    Ok(())
}

/// Tells of each earlier and later source that begins at another offset by its partition packs.
fn tell_both_offsets(rt: &HostRuntime, inputs: Inputs<'_, '_>) -> Result<(), AllocError> {
    tell_offsets(rt, inputs.beside)?;
    tell_offsets(rt, inputs.sources)?;
    Ok(())
}

/// Ends a run that printed what was renewed: if hints are told, it tells of pieces that weren't noted whole.
fn told_both<'a>(
    rt: &HostRuntime,
    inputs: Inputs<'_, 'a>,
    is_strict: bool,
    earlier: &HeldBySources,
    later: &[PieceReport],
    exit: Exit,
) -> Result<Exit, RunFault<'a>> {
    let has_hints = inputs.telling.has_hints;
    let earlier = earlier.gathered.reports.as_slice();
    let exit = exit.of_join(is_strict, earlier);
    let exit = exit.of_join(is_strict, later);
    let exit = told(rt, has_hints, inputs.beside, earlier, true, exit)?;
    told(rt, has_hints, inputs.sources, later, true, exit)
}

/// Renews the earlier catalogue by the later one, writes it to the place that is held, and prints what was dropped.
fn save_renewed<'a, 'r>(
    rt: &'r HostRuntime,
    inputs: Inputs<'_, 'a>,
    renewing: Renewing<'a>,
    place: Reservation<'r, HostRuntime>,
    earlier: &HeldBySources,
    later: Catalogue,
) -> Result<Exit, RunFault<'a>> {
    let notes = earlier.gathered.views.catalogue();
    let Ok(renewed) = renew(rt.alloc(), notes, later) else {
        return Err(RunFault::OutOfMemory);
    };
    if renewed.is_of_another && !renewing.drops {
        return print_unrenewed(rt, inputs, &renewed);
    }
    let saving = renewing.saving;
    match save_content(rt, inputs, saving.out, &renewed.catalogue, place) {
        Ok(kept) => {
            let exit = print_answer(rt, Printed::Renewed(&renewed, true), inputs.form)?;
            tell_kept(rt, inputs.telling.has_hints, saving, &kept)?;
            let disputed = renewed.catalogue.disputed().count();
            Ok(exit.of_disputes(saving.is_strict, disputed))
        }
        Err(fault) => Err(unsaved(saving.out, fault)),
    }
}

/// Prints what would have been dropped of a renewal that isn't saved, and if hints are told, why it isn't.
fn print_unrenewed<'a>(
    rt: &HostRuntime,
    inputs: Inputs<'_, 'a>,
    renewed: &Renewed<'_>,
) -> Result<Exit, RunFault<'a>> {
    let exit = print_answer(rt, Printed::Renewed(renewed, false), inputs.form)?;
    if inputs.telling.has_hints && tell_unrenewed(rt, inputs).is_err() {
        return Err(RunFault::OutOfMemory);
    }
    Ok(exit)
}

/// Tells why a renewal isn't saved: the sources are of another recording by what they describe, or may be.
fn tell_unrenewed(rt: &HostRuntime, inputs: Inputs<'_, '_>) -> Result<(), AllocError> {
    if tell_two_recordings(rt, inputs.beside, inputs.sources)? {
        return Ok(());
    }
    tell_on_screen(
        rt,
        &"hint: more essence of --old is dropped than SRC.. have of it: are they of the same recording, and is OFFSET right? --drop saves them all the same",
    )
}
