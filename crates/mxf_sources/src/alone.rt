//! What sources hold, each by itself.
use crate::opened::{open_source, open_sources, ungathered};
use mxf_catalogue::Catalogue;
use mxf_hints::{Contents, RunFault, gather_each, gather_one, line_on_screen};
use mxf_saving::{LastFault, Source};
use mxf_skim::Scan;
use mxf_watching::Screen;
use std::alloc::{AllocError, Global};

/// The words that name the sources, as a terminal shows them.
pub fn names_of(alloc: Global, sources: &[Source<'_>]) -> Result<Vec<String>, AllocError> {
    let mut names = Vec::new(alloc);
    for source in sources {
        names.push(line_on_screen(alloc, source)?)?;
    }
    Ok(names)
}

/// What each source holds by itself. All are opened before the first is read.
pub fn read_each<'a>(
    rt: &HostRuntime,
    screen: Screen,
    sources: &[Source<'a>],
) -> Result<Contents, RunFault<'a>> {
    let last = LastFault::new();
    let opened = open_sources(rt, screen, Scan::Full, sources, &last)?;
    let (_, parts, _) = opened.into_parts();
    match gather_each(rt.alloc(), parts) {
        Ok(contents) => Ok(contents),
        Err(fault) => Err(ungathered(&fault, sources, &last)),
    }
}

/// What each source holds by itself. One after the other is opened and read.
pub fn read_all_alone<'a>(
    rt: &HostRuntime,
    screen: Screen,
    sources: &[Source<'a>],
) -> Result<Vec<Catalogue>, RunFault<'a>> {
    let mut contents = Vec::new(rt.alloc());
    for source in sources {
        let content = read_alone(rt, screen, source)?;
        if contents.push(content).is_err() {
            return Err(RunFault::OutOfMemory);
        }
    }
    Ok(contents)
}

/// What a source holds by itself. It is opened and read.
pub fn read_alone<'a>(
    rt: &HostRuntime,
    screen: Screen,
    source: &Source<'a>,
) -> Result<Catalogue, RunFault<'a>> {
    let last = LastFault::new();
    let (part, _) = open_source(rt, screen, Scan::Full, source, &last)?;
    match gather_one(rt.alloc(), part) {
        Ok(gathered) => {
            let (views, _) = gathered.into_parts();
            Ok(views.into_catalogue())
        }
        Err(fault) => Err(RunFault::of_part(*source, fault, last.get())),
    }
}
