//! An example of the crates: gathers a piece of a recording and a saved catalogue, asks for the partitions and gaps of
//! what they hold together, what to restore next and whether an edit unit is held, and saves what is known.
//!
//! `mxf_example OFFSET PIECE CATALOGUE`: the first byte of the file PIECE lies at byte OFFSET of the recording, and
//! CATALOGUE is the file of a catalogue.
//!
//! [`mxf_read`] is the entrance for pieces and saved catalogues, [`mxf_views`] for questions, [`mxf_restore`] and
//! [`mxf_units`] for what to restore and for edit units, [`mxf_catalogue`] for what is saved and joined.
#![tactic(auto)]

use anyhow::{Context, Result};
use mxf_catalogue::Catalogue;
use mxf_klv::Encode;
use mxf_places::AtHand;
use mxf_read::{Gathered, Part, PieceReport, Report, gather};
use mxf_restore::Plan;
use mxf_units::Units;
use mxf_views::Views;
use std::alloc::Global;
use std::rt::Files;
use std::{env, fs};

/// The piece that the words name, opened, with its offset.
fn piece<R: Files>(rt: &R, words: &[String]) -> Result<Part<R::File>> {
    let offset = words.get(1).context("no offset")?.parse::<u64>()?;
    let from = fs::open(rt, words.get(2).context("no piece")?)?;
    Ok(Part::Piece { offset, from })
}

/// The saved catalogue that the words name, opened.
fn catalogue<R: Files>(rt: &R, words: &[String]) -> Result<Part<R::File>> {
    let from = fs::open(rt, words.get(3).context("no catalogue")?)?;
    Ok(Part::Saved { from })
}

/// The parts that the words name: the piece, and the saved catalogue.
fn parts<R: Files + AllocGlobal>(rt: &R, words: &[String]) -> Result<Vec<Part<R::File>>> {
    let mut parts = Vec::new(rt.alloc());
    parts.push(piece(rt, words)?)?;
    parts.push(catalogue(rt, words)?)?;
    Ok(parts)
}

/// Prints how many packets each piece has, and why it ends.
fn print_reports(rt: &impl Print, reports: &[PieceReport]) -> Result<()> {
    for piece in reports {
        let Report { noted, stop } = piece.report;
        println!(rt; "packets: {noted}, then {stop}")?;
    }
    Ok(())
}

/// Prints what the held partitions are, and where they begin.
fn print_partitions(rt: &impl Print, views: &Views) -> Result<()> {
    for partition in views.partitions() {
        let (part, status) = (partition.pack.part(), partition.pack.status());
        println!(rt; "{part} partition at {}, {status}", partition.offset)?;
    }
    Ok(())
}

/// Prints which bytes are missing.
fn print_gaps(rt: &impl Print, views: &Views) -> Result<()> {
    for gap in views.gaps() {
        println!(rt; "not held: from {} up to {}", gap.start, gap.end)?;
    }
    Ok(())
}

/// Prints what to restore next, what helps most first.
fn print_plan<R: Print + AllocGlobal>(rt: &R, views: &Views) -> Result<()> {
    let at_hand = AtHand::nothing(rt.alloc());
    let plan = Plan::of(rt.alloc(), views, &at_hand)?;
    for order in plan.orders() {
        println!(rt; "restore from {}: {}", order.start, order.reason)?;
    }
    Ok(())
}

/// Prints how the first edit unit stands by the index of IndexSID 1.
fn print_first_unit<R: Print + AllocGlobal>(rt: &R, views: &Views) -> Result<()> {
    let at_hand = AtHand::nothing(rt.alloc());
    let units = Units::of(rt.alloc(), views, &at_hand, 1)?;
    println!(rt; "unit 0: {}", units.unit(0).standing)?;
    Ok(())
}

/// The bytes of the catalogue, as they are saved.
fn saved(alloc: Global, catalogue: &Catalogue) -> Result<Vec<u8>> {
    let mut file = Vec::new(alloc);
    catalogue.write_to(&mut file)?;
    Ok(file)
}

/// Prints what was gathered, and how many packets are saved of it.
fn print_gathered<R: Print + AllocGlobal>(rt: &R, gathered: &Gathered) -> Result<()> {
    print_reports(rt, gathered.reports.as_slice())?;
    print_partitions(rt, &gathered.views)?;
    print_gaps(rt, &gathered.views)?;
    print_plan(rt, &gathered.views)?;
    print_first_unit(rt, &gathered.views)?;
    let file = saved(rt.alloc(), gathered.views.catalogue())?;
    let read = Catalogue::read(rt.alloc(), &file)?;
    println!(rt; "packets saved: {}", read.len())?;
    Ok(())
}

fn main(rt: HostRuntime) -> Result<()> {
    let words: Vec<String> = env::args(&rt)?.collect(rt.alloc())?;
    let gathered = gather(rt.alloc(), parts(&rt, &words)?)?;
    print_gathered(&rt, &gathered)
}
