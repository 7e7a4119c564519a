//! An earlier catalogue that a later one renews.
use crate::additions::{catalogue_of, essence, holds};
use mxf_klv::OutOfMemory;
use mxf_verify::{Opposing, renew};
use std::alloc::Global;

/// Whether of packets from 0 to 100 and from 200 to 300 the second is kept, and the first dropped, where a later catalogue
/// has one from 90 to 190.
fn the_second_is_kept(alloc: Global) -> Result<bool, OutOfMemory> {
    let old = catalogue_of(alloc, &[(0, 83), (200, 83)])?;
    let renewed = renew(alloc, &old, catalogue_of(alloc, &[(90, 83)])?)?;
    let kept = renewed.catalogue.len() == 2
        && renewed.catalogue.clear().count() == 2
        && renewed.catalogue.clear_at(200).is_some();
    Ok(kept && renewed.dropped.len() == 1)
}

/// Whether a packet from 90 on is opposed by one from 0 to 100, and one from 100 on isn't.
fn the_first_opposes(alloc: Global) -> Result<bool, OutOfMemory> {
    let all = catalogue_of(alloc, &[(0, 83)])?;
    let opposing = Opposing::of(alloc, &all)?;
    Ok(match (essence(90, 83), essence(100, 83)) {
        (Some(over), Some(beside)) => opposing.opposes(&over) && !opposing.opposes(&beside),
        _ => false,
    })
}

#[test]
fn renewals(rt: HostRuntime) {
    assert!(rt; holds(rt.alloc(), the_second_is_kept));
    assert!(rt; holds(rt.alloc(), the_first_opposes));
}
