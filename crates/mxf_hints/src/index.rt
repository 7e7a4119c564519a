//! The indexes that are asked for, and those that are held.
ghost use Rattle.std.specs.Prelude.{◌≡◌, Err, IfOk, OnErr, map};
ghost use Rattle.mxf_hints.specs.AskedIndexes.{IsIndexOf, IsOnly, clocked};
ghost use Rattle.mxf_hints.specs.declared.fault.RunFault.TheVariants as runs;

use crate::fault::{IndexSids, RunFault, ToldClock, write_index_sids};
use mxf_asked::IndexedUnits;
use mxf_clocks::Run;
use mxf_klv::{OutOfMemory, sort_once};
use mxf_units::{index_sids, named_index_sids};
use mxf_views::Views;
use std::alloc::Global;
use std::fmt;

/// How many IndexSIDs a list has at most.
const MOST: usize = 16;

/// That no segment of an index is held. It prints as its line, with the IndexSIDs of segments that are, and with those
/// that partitions name beside them.
#[derive(Drop)]
struct MissingIndex {
    index: u32,
    held: Vec<u32>,
    named: Vec<u32>,
}

impl fmt::Display for MissingIndex {
    fn fmt<W: fmt::Write>(&self, f: &mut fmt::Formatter<W>) -> fmt::Result {
        write!(f, "index {} isn't held", self.index)?;
        let mut joint = ": ";
        for (word, index_sids) in [("held ", &self.held), ("named ", &self.named)] {
            if !index_sids.is_empty() {
                f.write_str(joint)?;
                f.write_str(word)?;
                write_index_sids(f, first_of(index_sids))?;
                joint = "; ";
            }
        }
        Ok(())
    }
}

/// The first of the IndexSIDs, as many as a list has at most.
fn first_of(index_sids: &[u32]) -> &[u32] {
    &index_sids[..index_sids.len().min(MOST)]
}

/// Reports it on standard error if no segment of an index is held.
fn tell_index<'a, R: Eprint + AllocGlobal>(
    rt: &R,
    views: &Views,
    index: u32,
) -> Result<(), RunFault<'a>>
    ensures { OnErr result (result ≡ Err runs.OutOfMemory) }
{
    if let Some(missing) = missing_index(rt.alloc(), views, index)? {
        let _ = rt.eprintln(&missing);
    }
    Ok(())
}

/// That no segment of an index is held, if none is.
fn missing_index(
    alloc: Global,
    views: &Views,
    index: u32,
) -> Result<Option<MissingIndex>, OutOfMemory> {
    let held = index_sids(alloc, views)?;
    if held.contains(&index) {
        return Ok(None);
    }
    let named = named_index_sids(alloc, views)?;
    Ok(Some(MissingIndex { index, held, named }))
}

/// The IndexSID of the index whose edit units are asked for: the one that is named; else the only one with a clock if a
/// timecode is among the words, and otherwise the only one that is held. It reports on standard error if no segment of
/// the one that is named is held.
pub fn index_of<'a, R: Eprint + AllocGlobal>(
    rt: &R,
    views: &Views,
    clocks: &[Run],
    asked: IndexedUnits<'a>,
) -> Result<u32, RunFault<'a>>
    ensures { IsIndexOf views.now clocks.now asked.entry result }
{
    let alloc = rt.alloc();
    match (asked.index, asked.units.timecode()) {
        (Some(index), _) => {
            tell_index(rt, views, index)?;
            Ok(index)
        }
        (None, Some(word)) => match only_of(clocked(alloc, clocks)?)? {
            Some(index) => Ok(index),
            None => {
                let clock = ToldClock::None;
                Err(RunFault::NoUnitAt { word, clock })
            }
        },
        (None, None) => match only_of(index_sids(alloc, views)?)? {
            Some(index) => Ok(index),
            None => Err(RunFault::NoIndex),
        },
    }
}

/// The IndexSIDs of the indexes that have a clock, each once, rising.
fn clocked(alloc: Global, clocks: &[Run]) -> Result<Vec<u32>, OutOfMemory>
    ensures { IfOk result (λ v. v.items ≡ clocked clocks.now) }
{
    let mut indexes = indexes_in(alloc, clocks)?;
    sort_once(&mut indexes);
    Ok(indexes)
}

/// The IndexSIDs of all runs, in the order of these.
fn indexes_in(alloc: Global, clocks: &[Run]) -> Result<Vec<u32>, OutOfMemory>
    ensures { IfOk result (λ v. v.items ≡ map (λ r. r.index_sid) clocks.now) }
{
    let indexes = clocks.iter().map(|run| run.index_sid());
    Ok(indexes.collect(alloc)?)
}

/// The only one of the IndexSIDs that are meant, if one is.
fn only_of<'a>(meant: Vec<u32>) -> Result<Option<u32>, RunFault<'a>>
    ensures { IsOnly meant.items result }
{
    match meant.as_slice() {
        [] => Ok(None),
        [index] => Ok(Some(*index)),
        _ => Err(RunFault::SeveralIndexes {
            meant: IndexSids(meant),
        }),
    }
}
