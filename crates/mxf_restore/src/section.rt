//! Holes of a file, cut into sections at the places where packets begin, as far as what is held says.
ghost use Rattle.std.specs.Prelude.{◌≡◌, ◌↔◌, ◌≤◌, ◌++◌, List, IfOk, OnOk, true, false, filter, flat_map, length, map};
ghost use Rattle.std.specs.Prelude.{nat_lt};
ghost use Rattle.std.specs.List.{AllWithin, filter_map};
ghost use Rattle.std.specs.Option.{option_map_or};
ghost use Rattle.std.specs.Ordering.{nat_cmp};
ghost use Rattle.mxf_klv.specs.Parts.{NoteParts};
ghost use Rattle.mxf_klv.specs.Rising.{In, IsRising};
ghost use Rattle.mxf_catalogue.specs.Content.{IsContent};
ghost use Rattle.mxf_places.specs.declared.at_hand.OffsetRange.{OffsetRange};
ghost use Rattle.mxf_views.specs.Gaps.{gaps_of};
ghost use Rattle.mxf_places.specs.Held.{is_held};
ghost use Rattle.mxf_places.specs.Claims.{claims_of};
ghost use Rattle.mxf_restore.specs.Sections.{AreSections, IsHole, closed_hole, cut_of, cuts_of, free_cut, holes_of};
ghost use Rattle.mxf_restore.specs.Sections.{is_inside, sections_from, sections_in, sections_of};

use mxf_klv::{OutOfMemory, below, sort_once, up_to};
use mxf_places::{Claim, Holdings, OffsetRange};
use std::alloc::Global;

/// A section of a hole, which is cut at the places that packs name.
#[derive(Clone, Copy, Debug, PartialEq, Eq)]
pub struct Section {
    /// The file offset of its first byte.
    pub first: u64,
    /// Where it ends, in bytes: at the next cut or where the hole does; a section without an end has all from its first
    /// byte on.
    pub end: Option<u64>,
    pub hole: OffsetRange,
}

/// The holes of a file, rising. They take memory.
#[tactic(auto, unfolding(crate::specs::Sections::holes_of))]
pub fn holes(alloc: Global, holdings: &Holdings<'_>) -> Result<Vec<OffsetRange>, OutOfMemory>
    ensures { IfOk result (λ v. v.items ≡ holes_of holdings.now) }
{
    let mut holes = holes_below(alloc, holdings)?;
    if holdings.end().is_some() {
        return Ok(holes);
    }
    holes.push(OffsetRange {
        start: holdings.held_end(),
        end: None,
    })?;
    Ok(holes)
}

/// The holes below something that is held, rising. They take memory.
fn holes_below(alloc: Global, holdings: &Holdings<'_>) -> Result<Vec<OffsetRange>, OutOfMemory>
    ensures { IfOk result (λ v. v.items
        ≡ map closed_hole (filter (λ gap. is_held holdings.now gap.end) (gaps_of holdings.now))) }
{
    let gaps = holdings.views().gaps();
    let holes = gaps
        .filter(|gap| holdings.is_held(gap.end))
        .map(|gap| OffsetRange {
            start: gap.start,
            end: Some(gap.end),
        });
    Ok(holes.collect(alloc)?)
}

/// Where holes may be cut: offsets, in bytes, in the file that aren't held, rising. They take memory.
fn cuts(alloc: Global, holdings: &Holdings<'_>, claims: &[Claim]) -> Result<Vec<u64>, OutOfMemory>
    requires { claims.now ≡ claims_of holdings.now }
    ensures cuts { IfOk result (λ v. v.items ≡ cuts_of holdings.now) }
    ensures rising { IfOk result (λ v. IsRising nat_cmp v.items) }
{
    let mut cuts = free_cuts(alloc, holdings, claims)?;
    sort_once(&mut cuts);
    Ok(cuts)
}

/// Where each of the claims cuts a hole, in their order.
fn free_cuts(
    alloc: Global,
    holdings: &Holdings<'_>,
    claims: &[Claim],
) -> Result<Vec<u64>, OutOfMemory>
    ensures { IfOk result (λ v. v.items ≡ filter_map (free_cut holdings.now) claims.now) }
{
    let cuts = claims.iter().filter_map(|claim| free_cut(holdings, claim));
    Ok(cuts.collect(alloc)?)
}

/// Where the claim cuts a hole: an offset in the file, in bytes, that isn't held.
fn free_cut(holdings: &Holdings<'_>, claim: &Claim) -> Option<u64>
    ensures { result ≡ free_cut holdings.now claim.now }
{
    let cut = u64::try_from(cut_of(claim)?).ok()?;
    if holdings.is_in_file(cut) && !holdings.is_held(cut) {
        Some(cut)
    } else {
        None
    }
}

/// Where the claim may cut a hole, in bytes: at the place that a pack names, or at the known end of a stretch.
fn cut_of(claim: &Claim) -> Option<u128>
    ensures { result ≡ cut_of claim.now }
{
    if !claim.reason.is_of_stretch() {
        return Some(u128::from(claim.from));
    }
    if claim.is_open { None } else { Some(claim.end) }
}

/// The sections of all holes, rising. They take memory.
#[tactic(auto, unfolding(crate::specs::Sections::sections_of))]
pub fn sections(
    alloc: Global,
    holdings: &Holdings<'_>,
    claims: &[Claim],
) -> Result<Vec<Section>, OutOfMemory>
    requires { claims.now ≡ claims_of holdings.now }
    ensures { IfOk result (λ v. v.items ≡ sections_of holdings.now) }
{
    let holes = holes(alloc, holdings)?;
    let cuts = cuts(alloc, holdings, claims)?;
    cut_up(alloc, &holes, &cuts)
}

/// The sections of holes at cuts that rise, in their order.
fn cut_up(alloc: Global, holes: &[OffsetRange], cuts: &[u64]) -> Result<Vec<Section>, OutOfMemory>
    requires { IsRising nat_cmp cuts.now }
    ensures { IfOk result (λ v. v.items ≡ flat_map (sections_in cuts.now) holes.now) }
{
    let mut sections = Vec::new(alloc);
    for hole in holes {
        add_sections(&mut sections, *hole, cuts_in(*hole, cuts))?;
    }
    Ok(sections)
}

/// The cuts inside the hole: two binary searches.
fn cuts_in(hole: OffsetRange, cuts: &[u64]) -> &[u64]
    requires { IsRising nat_cmp cuts.now }
    ensures { result.now ≡ filter (is_inside hole) cuts.now }
{
    let to = count_below(cuts, hole.end);
    let from = up_to(cuts, hole.start).min(to);
    let (front, _) = cuts.split_at(to);
    let (_, inside) = front.split_at(from);
    inside
}

/// The number of the cuts below the end of a hole; all of them if there is none.
fn count_below(cuts: &[u64], end: Option<u64>) -> usize
    requires { IsRising nat_cmp cuts.now }
    ensures bound { result ≤ length cuts.now }
    ensures below { AllWithin (λ x. option_map_or (λ e. nat_lt x e) end true ≡ true) cuts.now 0 result }
    ensures above { AllWithin (λ x. option_map_or (λ e. nat_lt x e) end true ≡ false) cuts.now result
        (length cuts.now) }
{
    match end {
        Some(end) => below(cuts, end),
        None => cuts.len(),
    }
}

/// Adds the sections of a hole at the cuts inside it.
fn add_sections(
    sections: &mut Vec<Section>,
    hole: OffsetRange,
    cuts: &[u64],
) -> Result<(), OutOfMemory>
    ensures { OnOk result (sections.new.items ≡ sections.old.items ++ sections_from hole hole.start cuts.now) }
{
    let mut first = hole.start;
    for cut in cuts {
        sections.push(Section {
            first,
            end: Some(*cut),
            hole,
        })?;
        first = *cut;
    }
    sections.push(Section {
        first,
        end: hole.end,
        hole,
    })?;
    Ok(())
}

/// A law: the holes of a file are the maximal ranges of offsets that aren't held; the last has no end if that of the
/// file isn't known.
pub fn holes_by_definition()
    ensures { (notes : List NoteParts) (h : OffsetRange) → IsContent notes → In h (holes_of notes) ↔ IsHole notes h }
{}

/// A law: the sections of a file are its holes, cut at the places that packs name and at the known ends of stretches.
/// Each offset of a hole lies in one section, and at each such place in a hole a section begins.
pub fn sections_by_definition()
    ensures { (notes : List NoteParts) → IsContent notes → AreSections notes (sections_of notes) }
{}
