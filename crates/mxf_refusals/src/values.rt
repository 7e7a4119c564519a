//! Notes and texts, and what is looked for in views.
use crate::additions::{add_to_views, essence, holds, views_of_pieces};
use crate::files::{M, R, header_value};
use mxf_findings::{Code, Finding, findings};
use mxf_forms::hex_text;
use mxf_klv::{Held, Note, OutOfMemory, read_packet};
use mxf_read::AbsorbFault;
use mxf_references::resolved;
use mxf_sets::{Primer, PrimerLabels, text};
use mxf_views::BadUnit;
use std::alloc::Global;
use std::fmt::Display;

/// Whether the note of M's header partition pack keeps its value, and is copied.
fn the_header_is_kept(alloc: Global) -> Result<bool, OutOfMemory> {
    let Ok((packet, _)) = read_packet(&M) else {
        return Ok(false);
    };
    let Ok(note) = Note::of(alloc, 0, &packet) else {
        return Err(OutOfMemory);
    };
    let is_kept = match note.held() {
        Held::Whole(value) => value == header_value(),
        Held::Digest(_) | Held::Head => false,
    };
    Ok(is_kept && note.clone_in(alloc)? == note)
}

#[test]
fn the_note_of_a_packet_that_is_kept(rt: HostRuntime) {
    assert!(rt; holds(rt.alloc(), the_header_is_kept));
}

/// Whether units have their text, and bytes print as two digits each.
fn units_and_bytes_have_texts(alloc: Global) -> Result<bool, OutOfMemory> {
    let units = [0x00, 0x41, 0x00, 0xE9, 0x00, 0x00, 0x00, 0x58];
    let Ok(found) = text(alloc, &units) else {
        return Err(OutOfMemory);
    };
    let digits = hex_text(alloc, &[0x0A, 0xFF])?;
    Ok(found.as_str() == "A\u{e9}" && digits.as_str() == "0aff")
}

/// Whether a fault has this text.
fn has_text<T: Display>(alloc: Global, fault: &T, wanted: &str) -> Result<bool, OutOfMemory> {
    match fault.to_string(alloc) {
        Ok(text) => Ok(text.as_str() == wanted),
        Err(_) => Err(OutOfMemory),
    }
}

/// Whether the faults of a piece give the cause and the place, and the fault of a unit has its text.
fn faults_have_texts(alloc: Global) -> Result<bool, OutOfMemory> {
    let (noted, at) = (2, 216);
    let wanting = AbsorbFault::OutOfMemory { noted, at };
    let unread = AbsorbFault::ReadFault { noted, at };
    Ok(
        has_text(alloc, &wanting, "out of memory at 216, after 2 packets")?
            && has_text(alloc, &unread, "a read failed at 216, after 2 packets")?
            && has_text(alloc, &BadUnit, "bad unit")?,
    )
}

#[test]
fn texts(rt: HostRuntime) {
    let alloc = rt.alloc();
    assert!(rt; holds(alloc, units_and_bytes_have_texts) && holds(alloc, faults_have_texts));
}

/// Whether the labels of the primer pack of R have that of the tag 8001.
fn a_tag_has_its_label(alloc: Global) -> Result<bool, OutOfMemory> {
    match Primer::read(&R[128..154]) {
        Ok(primer) => Ok(PrimerLabels::of(alloc, &primer)?.label(0x8001) == Some([0xAA; 16])),
        Err(_) => Ok(false),
    }
}

#[test]
fn the_labels_of_a_primer_pack(rt: HostRuntime) {
    assert!(rt; holds(rt.alloc(), a_tag_has_its_label));
}

fn at(offset: u64, code: Code) -> Finding {
    Finding { offset, code }
}

/// Whether of R, which ends at 374, and packets from 400 to 500 and from 450 to 550 references lead to the packages, one of
/// which isn't there, and what is wrong is found: the chain isn't whole, a reference isn't found, bytes aren't held, and
/// two packets overlap.
fn references_lead_and_findings_tell(alloc: Global) -> Result<bool, OutOfMemory> {
    let wanted = [
        at(0, Code::F14),
        at(214, Code::F13),
        at(374, Code::F03),
        at(400, Code::F02),
        at(450, Code::F02),
    ];
    let mut views = views_of_pieces(alloc, &[(0, &R)])?;
    let overlap = add_to_views(&mut views, essence(400, 83))
        && add_to_views(&mut views, essence(450, 83));
    let Some(resolved) = resolved(alloc, &views)? else {
        return Ok(false);
    };
    let leads = resolved.preface == 154 && resolved.packages.as_slice().len() == 2;
    Ok(overlap && leads && findings(alloc, &views)?.as_slice() == wanted.as_slice())
}

#[test]
fn references_and_findings(rt: HostRuntime) {
    assert!(rt; holds(rt.alloc(), references_lead_and_findings_tell));
}
