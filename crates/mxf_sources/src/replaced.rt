//! What stands where a catalogue is saved.
use crate::alone::read_alone;
use mxf_catalogue::Catalogue;
use mxf_hints::RunFault;
use mxf_saving::{SaveFault, Source, holds_more, is_other_catalogue};
use mxf_watching::Screen;

/// Whether a catalogue that can be read stands at the path, is none of the earlier and the later sources, and holds more
/// than this one: it has a note that this one lacks, and that isn't the head of a whole one here. Then it is kept when
/// this one takes its place. If the system refuses to read it, nothing is known of it, and that is a fault.
pub fn is_worth_keeping(
    rt: &HostRuntime,
    screen: Screen,
    path: &str,
    sources: (&[Source<'_>], &[Source<'_>]),
    catalogue: &Catalogue,
) -> Result<bool, SaveFault> {
    let (earlier, later) = sources;
    if !is_other_catalogue(rt, path, earlier)? || !is_other_catalogue(rt, path, later)? {
        return Ok(false);
    }
    match read_alone(rt, screen, &Source::Saved { path }) {
        Ok(before) => Ok(holds_more(&before, catalogue)),
        Err(RunFault::OutOfMemory) => Err(SaveFault::OutOfMemory),
        Err(RunFault::Unread { cause, .. }) => Err(SaveFault::Write(cause)),
        Err(_) => Ok(false),
    }
}
