//! Sources that are open.
ghost use Rattle.std.specs.Prelude.{◌≡◌, IfOk};
ghost use Rattle.mxf_sources.specs.Ranges.{AreExtentsOf, IsExtentOf};

use crate::lists::unread;
use crate::reopened::extent_of;
use crate::source_file::SourceFile;
use mxf_hand::Extent;
use mxf_hints::{RunFault, part_of};
use mxf_read::{GatherFault, Part};
use mxf_saving::{LastFault, Source};
use mxf_skim::Scan;
use mxf_watching::{Screen, Watched};
use std::fs::{self, File};
use std::io;

/// Sources that are open: for each its part, and where its bytes lie in the recording, in their order.
pub struct Opened<'s, 'a, F: Drop> {
    pub sources: &'s [Source<'a>],
    pub parts: Vec<Part<F>>,
    pub extents: Vec<Extent>,
}

// Written out, a drop is one call wherever opened sources are let go.
impl<F: Drop> Drop for Opened<'_, '_, F> {
    fn drop(self) {
        let Opened {
            sources: _,
            parts: _parts,
            extents: _extents,
        } = self;
    }
}

impl<'s, 'a, F: Drop> Opened<'s, 'a, F> {
    /// The sources, their parts, and where their bytes lie.
    pub fn into_parts(self) -> (&'s [Source<'a>], Vec<Part<F>>, Vec<Extent>)
        ensures sources { result.0.now ≡ self.entry.sources.now }
        ensures parts { result.1.items ≡ self.entry.parts.items }
        ensures extents { result.2 ≡ self.entry.extents }
    {
        let Opened {
            sources,
            parts,
            extents,
        } = self;
        (sources, parts, extents)
    }
}

/// The sources, opened in their order, to be read or skimmed.
pub fn open_sources<'r, 's, 'a>(
    rt: &'r HostRuntime,
    screen: Screen,
    scan: Scan,
    sources: &'s [Source<'a>],
    last: &'r LastFault,
) -> Result<Opened<'s, 'a, SourceFile<Watched<'r, HostRuntime, File>>>, RunFault<'a>>
    ensures sources { IfOk result (λ opened. opened.sources ≡ sources.entry) }
    ensures extents { IfOk result (λ opened. AreExtentsOf sources.now opened.extents.items) }
{
    let mut parts = Vec::new(rt.alloc());
    let mut extents = Vec::new(rt.alloc());
    'sources: for source in sources {
        let (part, extent) = open_source(rt, screen, scan, source, last)?;
        if parts.push(part).is_err() || extents.push(extent).is_err() {
            return Err(RunFault::OutOfMemory);
        }
    }
    Ok(Opened {
        sources,
        parts,
        extents,
    })
}

/// The part that a source names, opened to be read or skimmed, and where its bytes lie in the recording.
pub fn open_source<'r, 'a>(
    rt: &'r HostRuntime,
    screen: Screen,
    scan: Scan,
    source: &Source<'a>,
    last: &'r LastFault,
) -> Result<(Part<SourceFile<Watched<'r, HostRuntime, File>>>, Extent), RunFault<'a>>
    ensures { IfOk result (λ opened. IsExtentOf source.now opened.1) }
{
    let path = source.path();
    let (file, size) = match open_sized(rt, path) {
        Ok(opened) => opened,
        Err(fault) => return Err(unread(path, &fault)),
    };
    let watched = Watched::new(rt, screen, source, file, last);
    let part = part_of(source, SourceFile::new(source, watched, scan, size));
    Ok((part, extent_of(source, size)))
}

/// The file at the path, opened, and the number of its bytes; 0 of what is no regular file.
fn open_sized(rt: &HostRuntime, path: &str) -> io::Result<(File, u64)> {
    let file = fs::open(rt, path)?;
    let found = file.metadata()?;
    let size = if found.is_file() { found.len() } else { 0 };
    Ok((file, size))
}

/// Which source is at fault, and why.
pub fn ungathered<'a>(
    fault: &GatherFault,
    sources: &[Source<'a>],
    last: &LastFault,
) -> RunFault<'a> {
    let source = match sources.get(fault.part) {
        Some(source) => *source,
        None => Source::Saved { path: "" },
    };
    RunFault::of_part(source, fault.fault, last.get())
}
