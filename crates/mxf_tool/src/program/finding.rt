//! Fragments in recordings: which recording has the packets of each, and where they lie in it.
use super::{Inputs, Printed, print_answer};
use mxf_catalogue::Catalogue;
use mxf_find::{Fragment, Ranking, Recording, find};
use mxf_hints::{Exit, RunFault};
use mxf_klv::OutOfMemory;
use mxf_lines::Searched;
use mxf_saving::Source;
use mxf_sources::{names_of, read_all_alone, read_alone};
use std::alloc::{AllocError, Global};

/// Prints in which recordings each fragment lies. The fragments are read first, each by itself, and then one recording
/// after the other. Nothing is printed before all are read.
pub fn print_found_in<'a>(rt: &HostRuntime, inputs: Inputs<'_, 'a>) -> Result<Exit, RunFault<'a>> {
    let Ok(names) = names_of(rt.alloc(), inputs.beside) else {
        return Err(RunFault::OutOfMemory);
    };
    let contents = read_all_alone(rt, inputs.telling.screen, inputs.sources)?;
    let searched = search(rt, inputs, &contents)?;
    print_answer(rt, Printed::Found(&searched, &names), inputs.form)
}

/// In which recordings the fragments with these contents lie. One recording after the other is read, and kept no longer
/// than the fragments are looked up in it.
fn search<'a>(
    rt: &HostRuntime,
    inputs: Inputs<'_, 'a>,
    contents: &[Catalogue],
) -> Result<Vec<Searched>, RunFault<'a>> {
    let Ok(fragments) = fragments_of(rt.alloc(), inputs.sources, contents) else {
        return Err(RunFault::OutOfMemory);
    };
    let Ok(mut searched) = nothing_searched(rt.alloc(), contents) else {
        return Err(RunFault::OutOfMemory);
    };
    for (at, source) in inputs.beside.iter().enumerate() {
        let content = read_alone(rt, inputs.telling.screen, source)?;
        if look_up(rt.alloc(), &fragments, &mut searched, at + 1, &content).is_err() {
            return Err(RunFault::OutOfMemory);
        }
    }
    Ok(searched)
}

/// The fragments with these contents. The places of a piece or a range are counted from its OFFSET.
fn fragments_of<'c>(
    alloc: Global,
    sources: &[Source<'_>],
    contents: &'c [Catalogue],
) -> Result<Vec<Fragment<'c>>, OutOfMemory> {
    let mut fragments = Vec::new(alloc);
    for (source, content) in sources.iter().zip(contents) {
        let offset = source.place().map_or(0, |(offset, _)| offset);
        fragments.push(Fragment::of(alloc, content, offset)?)?;
    }
    Ok(fragments)
}

/// That none of the fragments with these contents was looked up yet.
fn nothing_searched(alloc: Global, contents: &[Catalogue]) -> Result<Vec<Searched>, AllocError> {
    let searched = contents.iter().map(|content| Searched {
        notes: content.len(),
        ranking: Ranking::new(alloc),
    });
    searched.collect(alloc)
}

/// Looks the fragments up in the recording with a number and this content.
fn look_up(
    alloc: Global,
    fragments: &[Fragment<'_>],
    searched: &mut Vec<Searched>,
    number: usize,
    content: &Catalogue,
) -> Result<(), OutOfMemory> {
    let recording = Recording::of(alloc, content)?;
    for (one, fragment) in searched.iter_mut().zip(fragments) {
        if let Some(found) = find(alloc, fragment, &recording)? {
            one.ranking.add(number, found)?;
        }
    }
    Ok(())
}
