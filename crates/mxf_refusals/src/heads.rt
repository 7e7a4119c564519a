//! Heads, by the offset at which their key and length end.
use crate::additions::{add, head_between, holds};
use mxf_catalogue::Catalogue;
use mxf_klv::OutOfMemory;
use mxf_places::Heads;
use std::alloc::Global;

/// Whether a head is told by where its key and length end, at 107: it begins at 90 and claims the bytes up to 210.
fn a_head_is_told(alloc: Global) -> Result<bool, OutOfMemory> {
    let mut all = Catalogue::new(alloc);
    let added = add(&mut all, head_between());
    let heads = Heads::of(alloc, &all)?;
    let around = heads.around(107);
    let ending = heads.ending_at(alloc, 107)?;
    Ok(added && ending.len() == 1 && (around.offset, around.needed) == (90, 210))
}

#[test]
fn heads(rt: HostRuntime) {
    assert!(rt; holds(rt.alloc(), a_head_is_told));
}
