//! What is put together of a section of a hole.
ghost use Rattle.std.specs.Prelude.{◌≡◌, ◌==◌, ◌&&◌, ◌++◌, ◌∷◌, [], IfOk, OnOk, filter, map};
ghost use Rattle.mxf_hand.specs.Barren.{AreBarren};
ghost use Rattle.mxf_hand.specs.Hand.{AreToldIn, HandBytes};
ghost use Rattle.mxf_hand.specs.Heads.{fits};
ghost use Rattle.mxf_hand.specs.Finding.{Grows, GrowsBySection};
ghost use Rattle.std.specs.Option.{option_map};
ghost use Rattle.mxf_hand.specs.Sections.{ends_within, made_by, only, read_from};

use crate::barren::BarrenReadings;
use crate::found::Found;
use crate::given::{SourceFault, Sources};
use crate::hand::Hand;
use mxf_klv::Note;
use mxf_places::Heads;
use mxf_restore::Section;
use std::alloc::Global;

/// Of heads, those that begin at a start, in bytes, and that fit. They take memory.
fn fitting<'a, S: Sources>(
    alloc: Global,
    hand: &Hand,
    sources: &mut S,
    heads: &[&'a Note],
    start: u64,
) -> Result<Vec<&'a Note>, SourceFault>
    ensures told { S.told sources.new ≡ S.told sources.old }
    ensures fitting { (h : HandBytes)
        → AreToldIn (S.told sources.old) hand.now.given.extents hand.now.runs hand.now.scan h
        → IfOk result (λ v. map (λ x. x.now) v.items
        ≡ filter (λ n. (n.offset == start) && fits h n) (map (λ x. x.now) heads.now)) }
{
    let mut fitting = Vec::new(alloc);
    for head in heads {
        push_fitting(alloc, hand, sources, &mut fitting, *head, start)?;
    }
    Ok(fitting)
}

/// Adds the head, if it begins at a start, in bytes, and fits.
fn push_fitting<'a, S: Sources>(
    alloc: Global,
    hand: &Hand,
    sources: &mut S,
    fitting: &mut Vec<&'a Note>,
    head: &'a Note,
    start: u64,
) -> Result<(), SourceFault>
    ensures told { S.told sources.new ≡ S.told sources.old }
    ensures pushed { (h : HandBytes)
        → AreToldIn (S.told sources.old) hand.now.given.extents hand.now.runs hand.now.scan h
        → OnOk result (map (λ x. x.now) fitting.new.items ≡ map (λ x. x.now) fitting.old.items
        ++ filter (λ n. (n.offset == start) && fits h n) (head.entry.now ∷ [])) }
{
    if head.offset() != start || !hand.fits(alloc, sources, head)? {
        return Ok(());
    }
    fitting.push(head)?;
    Ok(())
}

/// Whether a packet ends in a hole, which ends at `hole_end`, in bytes, if it has an end.
pub(crate) fn ends_within(hole_end: Option<u64>, note: &Note) -> bool
    ensures { result ≡ ends_within hole_end note.now }
{
    let end = note.end();
    hole_end.is_none_or(|hole_end| end <= hole_end)
}

/// Adds the packet of the one head that fits, if its value is at hand and lies in the hole.
fn add_made<S: Sources>(
    alloc: Global,
    hand: &Hand,
    sources: &mut S,
    fitting: &[&Note],
    hole_end: Option<u64>,
    found: &mut Found,
) -> Result<(), SourceFault>
    ensures told { S.told sources.new ≡ S.told sources.old }
    ensures added { (h : HandBytes)
        → AreToldIn (S.told sources.old) hand.now.given.extents hand.now.runs hand.now.scan h
        → OnOk result (Grows found.old found.new [] (made_by h hole_end (map (λ x. x.now) fitting.now)) []) }
{
    let Some(head) = only(fitting) else {
        return Ok(());
    };
    if !hand.has_value(head) || !ends_within(hole_end, head) {
        return Ok(());
    }
    let packet = hand.packet_of(alloc, sources, head)?;
    found.add_made(packet)?;
    Ok(())
}

/// The only one of heads, if there is exactly one.
fn only<'a>(heads: &[&'a Note]) -> Option<&'a Note>
    ensures { option_map (λ x. x.now) result ≡ only (map (λ x. x.now) heads.now) }
{
    match heads {
        [head] => Some(*head),
        _ => None,
    }
}

/// Adds what is put together of a section. A reading that found no packet in the round before isn't repeated.
pub(crate) fn add_section<S: Sources>(
    alloc: Global,
    hand: &Hand,
    sources: &mut S,
    barren: &mut BarrenReadings,
    heads: &Heads<'_>,
    section: Section,
    found: &mut Found,
) -> Result<(), SourceFault>
    ensures told { S.told sources.new ≡ S.told sources.old }
    ensures added { (h : HandBytes)
        → AreToldIn (S.told sources.old) hand.now.given.extents hand.now.runs hand.now.scan h
        → AreBarren h barren.old → OnOk result (GrowsBySection h heads.now section found.old found.new) }
    ensures barren { (h : HandBytes)
        → AreToldIn (S.told sources.old) hand.now.given.extents hand.now.runs hand.now.scan h
        → AreBarren h barren.old → OnOk result (AreBarren h barren.new) }
{
    let ending = heads.ending_at(alloc, section.first)?;
    let start = heads.around(section.first).offset;
    let fitting = fitting(alloc, hand, sources, &ending, start)?;
    add_made(alloc, hand, sources, &fitting, section.hole.end, found)?;
    let from = match read_from(start, &fitting) {
        Some(from) => from,
        None => return Ok(()),
    };
    let reading = barren.read(alloc, hand, sources, from, section.end)?;
    found.add_reading(reading, section.hole.end)?;
    Ok(())
}

/// Where a section is read from, in bytes: from its start if no head there fits, from the end of the packet of the one
/// head that does, and from nowhere if several do.
fn read_from(start: u64, fitting: &[&Note]) -> Option<u64>
    ensures { result ≡ read_from start (map (λ x. x.now) fitting.now) }
{
    match fitting {
        [] => Some(start),
        [head] => Some(head.end()),
        _ => None,
    }
}
