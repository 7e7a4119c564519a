//! Packets put together of bytes at hand.
use crate::files::M;
use mxf_hand::{BytesAt, Extent, Given, InMemory, SourceFault, put_together, settle};
use mxf_klv::Stop;
use mxf_read::{AbsorbFault, PieceReport, PieceReports, Report, absorb};
use mxf_views::{Chain, Views};
use std::alloc::Global;

/// Where M is cut in two: in the value of its footer partition.
const CUT: usize = 128;

/// The views of M's parts: the footer partition is held as a head.
fn views_of_parts(alloc: Global) -> Result<Views, AbsorbFault> {
    let mut views = Views::new(alloc);
    absorb(alloc, &mut views, 0, &M[..CUT])?;
    absorb(alloc, &mut views, CUT as u64, &M[CUT..])?;
    Ok(views)
}

/// Puts M's parts together. Whether M is held whole, and the byte at the cut is at hand.
fn put_parts_together(alloc: Global, views: Views) -> Result<bool, SourceFault> {
    let parts = [(0, &M[..CUT]), (CUT as u64, &M[CUT..])];
    let mut sources = Vec::new(alloc);
    let mut extents = Vec::new(alloc);
    for (offset, bytes) in parts {
        sources.push(BytesAt { offset, bytes })?;
        extents.push(Extent::new(offset, bytes.len() as u64))?;
    }
    let given = Given::of(alloc, extents)?;
    let whole = put_together(alloc, views, given, &mut InMemory { sources })?;
    Ok(
        whole.views.catalogue().len() == 3
            && whole.views.chain() == Chain::Whole
            && whole.at_hand.has(CUT as u64),
    )
}

/// Whether M's parts are put together, even if one growth is refused.
fn are_put_together(alloc: Global) -> bool {
    for _ in 0..2 {
        let Ok(views) = views_of_parts(alloc) else {
            continue;
        };
        match put_parts_together(alloc, views) {
            Ok(whole) => return whole,
            Err(SourceFault::OutOfMemory) => continue,
            // Bytes in memory can always be read.
            Err(SourceFault::ReadFault { .. }) => return false,
        }
    }
    false
}

#[test]
fn parts_put_together(rt: HostRuntime) {
    let held = are_put_together(rt.alloc());
    assert!(rt; held);
}

/// The views of M, and of a reading whose footer partition has another last byte: the two packets are disputed.
fn views_of_two_readings(alloc: Global) -> Result<Views, AbsorbFault> {
    let mut other = M;
    other[215] ^= 1;
    let mut views = Views::new(alloc);
    absorb(alloc, &mut views, 0, &M)?;
    absorb(alloc, &mut views, 108, &other[108..])?;
    Ok(views)
}

/// What is noted of M's first part, which stops as is told.
fn first_part(stop: Stop) -> PieceReport {
    PieceReport {
        part: 0,
        offset: 0,
        report: Report { noted: 1, stop },
    }
}

/// Whether a stop within a disputed packet that is held whole is an end, if memory is there.
fn settle_first_part(alloc: Global, views: &Views) -> Option<bool> {
    let mut reports = Vec::new(alloc);
    if reports.push(first_part(Stop::Truncated(108))).is_err() {
        return None;
    }
    match settle(
        alloc,
        views,
        &[Extent::new(0, CUT as u64)],
        PieceReports::of(reports),
    ) {
        Ok(settled) => Some(settled.as_slice() == [first_part(Stop::End)].as_slice()),
        Err(_) => None,
    }
}

/// Whether it is, even if one growth is refused.
fn is_settled(alloc: Global) -> bool {
    for _ in 0..2 {
        let Ok(views) = views_of_two_readings(alloc) else {
            continue;
        };
        if let Some(is_end) = settle_first_part(alloc, &views) {
            return is_end;
        }
    }
    false
}

#[test]
fn a_stop_in_a_disputed_packet_is_made_up_for(rt: HostRuntime) {
    let held = is_settled(rt.alloc());
    assert!(rt; held);
}
