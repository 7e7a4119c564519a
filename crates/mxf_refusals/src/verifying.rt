//! What a piece has of a reference, and how the edit units of that stand.
use crate::additions::{holds, views_of_pieces};
use crate::files::{M, SEGMENT};
use mxf_klv::OutOfMemory;
use mxf_places::AtHand;
use mxf_read::Part;
use mxf_units::{UnitStanding, Units};
use mxf_verify::{UnitFixity, UnitRun, Verification, VerifiedUnits, verify};
use std::alloc::Global;

/// Whether M is the same, and a segment after it wasn't compared.
fn m_is_the_same(verification: &Verification<'_>) -> bool {
    let counts = verification.counts();
    (counts.packets, counts.all_packets) == (3, 4)
        && (counts.bytes, counts.all_bytes) == (264, 354)
        && (counts.differs, counts.cut, counts.unknown) == (0, 0, 0)
        && verification.has_come()
}

/// Whether none of ten units is verified, since no partition is held of their stream.
fn none_has_a_place(units: &VerifiedUnits) -> bool {
    let run = UnitRun {
        first: 0,
        last: 9,
        fixity: UnitFixity::Unplaced(UnitStanding::NoPartition),
    };
    units.runs() == [run].as_slice() && units.count() == 10 && units.verified() == 0
}

/// Whether M and a segment are a reference that stands so beside M, with its first ten units.
fn m_is_verified(alloc: Global) -> Result<bool, OutOfMemory> {
    let views = views_of_pieces(alloc, &[(0, &M), (600, &SEGMENT)])?;
    let part = Part::Piece {
        offset: 0,
        from: M.as_slice(),
    };
    let parts = Vec::from_array(alloc, [part])?;
    let Ok(verification) = verify(alloc, views.catalogue(), parts) else {
        return Err(OutOfMemory);
    };
    let at_hand = AtHand::nothing(alloc);
    let units = Units::of(alloc, &views, &at_hand, 1)?;
    let ten = VerifiedUnits::of(alloc, &verification, &units, 0, 9)?;
    Ok(m_is_the_same(&verification) && none_has_a_place(&ten))
}

#[test]
fn verifications(rt: HostRuntime) {
    assert!(rt; holds(rt.alloc(), m_is_verified));
}
