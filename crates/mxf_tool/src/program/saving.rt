//! Saving a catalogue, and keeping what it replaces if that holds more.
use super::Inputs;
use mxf_asked::Saving;
use mxf_catalogue::Catalogue;
use mxf_hints::{KeptHint, RunFault, tell_on_screen};
use mxf_klv::OutOfMemory;
use mxf_saving::{Reservation, SaveFault};
use mxf_skim::{Scan, with_heads};
use mxf_sources::is_worth_keeping;
use std::path::PathBuf;

/// Saves a catalogue to a place that is held: of a skim the heads of packets that were passed over. Answers the path at
/// which what stood there is kept, or would be, if it is.
pub fn save<'r>(
    rt: &'r HostRuntime,
    inputs: Inputs<'_, '_>,
    out: &str,
    catalogue: &Catalogue,
    place: Reservation<'r, HostRuntime>,
) -> Result<Option<PathBuf>, SaveFault> {
    match inputs.scan {
        Scan::Full => save_content(rt, inputs, out, catalogue, place),
        Scan::Skim => match with_heads(rt.alloc(), catalogue) {
            Ok(saved) => save_content(rt, inputs, out, &saved, place),
            Err(OutOfMemory) => Err(SaveFault::OutOfMemory),
        },
    }
}

/// Saves this very catalogue.
pub fn save_content<'r>(
    rt: &'r HostRuntime,
    inputs: Inputs<'_, '_>,
    out: &str,
    catalogue: &Catalogue,
    place: Reservation<'r, HostRuntime>,
) -> Result<Option<PathBuf>, SaveFault> {
    let sources = (inputs.beside, inputs.sources);
    let keeps = is_worth_keeping(rt, inputs.telling.screen, out, sources, catalogue)?;
    place.save(rt, catalogue, keeps)
}

/// If hints are told, it tells where what was replaced is kept, if it is.
pub fn tell_kept<'a>(
    rt: &HostRuntime,
    has_hints: bool,
    saving: Saving<'_>,
    kept: &Option<PathBuf>,
) -> Result<(), RunFault<'a>> {
    let Some(kept) = kept else {
        return Ok(());
    };
    let hint = KeptHint {
        path: saving.out,
        kept: kept.as_str(),
        is_dry: saving.is_dry,
    };
    if has_hints && tell_on_screen(rt, &hint).is_err() {
        return Err(RunFault::OutOfMemory);
    }
    Ok(())
}
