//! Where edit units lie in the file.
use crate::additions::{add_to_views, essence, holds, views_of_pieces};
use crate::files::{M, SEGMENT};
use mxf_klv::OutOfMemory;
use mxf_places::AtHand;
use mxf_units::{UnitStanding, Units, index_sids, named_index_sids};
use std::alloc::Global;

/// The worked file M, whose header names an index of IndexSID 2 and says that its segments have 90 bytes.
fn naming_an_index() -> [u8; 264] {
    let mut piece = M;
    piece[67] = 90;
    piece[71] = 2;
    piece
}

/// Whether of partitions, disputed packets and a segment the only index is told, and the one that partitions alone name;
/// and of a hundred units the last has a place, in a stream of which no partition is held.
fn indexes_are_told(alloc: Global) -> Result<bool, OutOfMemory> {
    let mut views = views_of_pieces(alloc, &[(0, &naming_an_index()), (600, &SEGMENT)])?;
    let disputed = add_to_views(&mut views, essence(300, 83))
        && add_to_views(&mut views, essence(390, 83));
    let held = index_sids(alloc, &views)?;
    let named = named_index_sids(alloc, &views)?;
    let at_hand = AtHand::nothing(alloc);
    let units = Units::of(alloc, &views, &at_hand, 1)?;
    let placed = units.unit(99).standing == UnitStanding::NoPartition
        && units.unit(100).standing == UnitStanding::NotIndexed;
    let told = held.as_slice() == [1].as_slice() && named.as_slice() == [2].as_slice();
    Ok(disputed && told && placed)
}

#[test]
fn units(rt: HostRuntime) {
    assert!(rt; holds(rt.alloc(), indexes_are_told));
}
