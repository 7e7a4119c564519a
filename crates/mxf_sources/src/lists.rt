//! The sources of a run, by its words and its list.
use mxf_asked::NamedSources;
use mxf_commands::{BadLine, all_words, text_of};
use mxf_hints::RunFault;
use mxf_saving::{Source, SystemFault, parse_source};
use std::alloc::Global;
use std::fs;
use std::io::{self, ErrorKind, Input, Read};

/// The bytes of the lists of a run.
#[derive(Drop)]
pub struct Lists {
    pub named: Vec<u8>,
    pub beside: Vec<u8>,
}

/// Reads the list of the sources, and that of the sources beside them. One at most is standard input.
pub fn read_lists<'a>(
    rt: &HostRuntime,
    named: Option<&'a str>,
    beside: Option<&'a str>,
) -> Result<Lists, RunFault<'a>> {
    if named == Some("-") && beside == Some("-") {
        return Err(RunFault::TwoLists);
    }
    let beside = read_list(rt, beside)?;
    let named = read_list(rt, named)?;
    Ok(Lists { named, beside })
}

/// The bytes of the list at the path, none if there is no list. `-` is standard input.
fn read_list<'a>(rt: &HostRuntime, path: Option<&'a str>) -> Result<Vec<u8>, RunFault<'a>> {
    let mut bytes = Vec::new(rt.alloc());
    let Some(path) = path else {
        return Ok(bytes);
    };
    let read = if path == "-" {
        rt.reader().read_to_end(&mut bytes)
    } else {
        read_file(rt, path, &mut bytes)
    };
    match read {
        Ok(_) => Ok(bytes),
        Err(fault) => Err(unread(path, &fault)),
    }
}

/// Reads the file at the path, and answers how many bytes it has.
fn read_file(rt: &HostRuntime, path: &str, bytes: &mut Vec<u8>) -> io::Result<usize> {
    fs::open(rt, path)?.read_to_end(bytes)
}

/// That a file couldn't be opened or read.
pub fn unread<'a>(path: &'a str, fault: &io::Error) -> RunFault<'a> {
    match fault.kind() {
        ErrorKind::OutOfMemory => RunFault::OutOfMemory,
        _ => RunFault::Unread {
            path,
            cause: SystemFault::of(fault),
        },
    }
}

/// The sources that words name, and after them those of a list, which has these bytes. There is one at least if a list
/// is named.
pub fn sources_of<'a, 'b: 'a>(
    alloc: Global,
    named: NamedSources<'_, 'b>,
    bytes: &'a [u8],
) -> Result<Vec<Source<'a>>, RunFault<'a>> {
    let path = named.list.unwrap_or("");
    let text = match text_of(bytes) {
        Ok(text) => text,
        Err(BadLine(number)) => return Err(RunFault::BadLine { number, path }),
    };
    let Ok(words) = all_words(alloc, named.words, text) else {
        return Err(RunFault::OutOfMemory);
    };
    let sources = parse_sources(alloc, &words)?;
    if named.list.is_some() && sources.is_empty() {
        return Err(RunFault::NoSource);
    }
    Ok(sources)
}

/// The sources that the words name.
fn parse_sources<'a>(alloc: Global, words: &[&'a str]) -> Result<Vec<Source<'a>>, RunFault<'a>> {
    let mut sources = Vec::new(alloc);
    for word in words {
        let Ok(source) = parse_source(*word) else {
            return Err(RunFault::BadSource { word: *word });
        };
        if sources.push(source).is_err() {
            return Err(RunFault::OutOfMemory);
        }
    }
    Ok(sources)
}
