//! Leaving out of sources what a skim doesn't compare.
ghost use Rattle.std.specs.Prelude.{◌≡◌, ◌↔◌, ℕ, IfOk, [], OnOk, length};
ghost use Rattle.mxf_catalogue.specs.Covers.{IsCover};
ghost use Rattle.mxf_catalogue.specs.Runs.{LiesIn};
ghost use Rattle.mxf_hand.specs.Excerpts.{AreExcerpts, AreExcerptsBeside, ArePassed, HaveMore};
ghost use Rattle.mxf_hand.specs.Places.{LiesInExtent};
ghost use Rattle.mxf_hand.specs.Passing.{with_around, with_each, with_inside};

use super::Extent;
use super::outside::{add_some, outside};
use mxf_catalogue::{Catalogue, Cover};
use mxf_klv::{MAX, Note, OutOfMemory};
use mxf_skim::{Scan, is_of_container};
use mxf_views::Views;
use std::alloc::Global;

/// Two offsets at which sources differ are one difference if they are at most so far apart, in bytes. So the bytes of a
/// value that lie so near its borders are compared.
const NEAR: u64 = 511;

/// Bytes of a source that are compared with those of others: the number of the source, and where they lie in the file.
#[derive(Clone, Copy, Debug, PartialEq, Eq)]
pub struct Excerpt {
    pub source: usize,
    pub extent: Extent,
}

/// What of sources is compared, and read again, beside what is held: by a reading all of it.
///
/// A skim leaves the values of a container's packets that are held out of each source but the first that gives them. It
/// compares the 511 bytes at each border of such a value, and those that lie less than 512 bytes from a packet of which
/// a head alone is held.
///
/// The excerpts take memory. The time is that of the packets, and of the runs that sources give.
pub fn excerpts(
    alloc: Global,
    scan: Scan,
    views: &Views,
    extents: &[Extent],
) -> Result<Vec<Excerpt>, OutOfMemory>
    ensures { IfOk result (λ v. AreExcerptsBeside scan views.now extents.now v.items) }
{
    let passed = passed_in(alloc, scan, views.catalogue())?;
    excerpts_but(alloc, &passed, extents)
}

/// The offsets that the scan doesn't compare.
fn passed_in(alloc: Global, scan: Scan, catalogue: &Catalogue) -> Result<Cover, OutOfMemory>
    ensures passed { IfOk result (λ c. ArePassed scan catalogue.now c) }
    ensures cover { IfOk result IsCover }
{
    match scan {
        Scan::Full => Ok(Cover::new(alloc)),
        Scan::Skim => {
            let insides = insides(alloc, catalogue)?;
            let around = around_heads(alloc, catalogue)?;
            outside(alloc, &insides, &around)
        }
    }
}

/// The offsets inside values of a container's packets.
fn insides(alloc: Global, catalogue: &Catalogue) -> Result<Cover, OutOfMemory>
    ensures { IfOk result (λ c. c ≡ with_each with_inside [] catalogue.now) }
{
    let mut cover = Cover::new(alloc);
    for note in catalogue.notes() {
        add_inside(&mut cover, note)?;
    }
    Ok(cover)
}

/// Adds the offsets inside the note's value, if that is of a container's packet.
fn add_inside(cover: &mut Cover, note: &Note) -> Result<(), OutOfMemory>
    ensures { OnOk result (cover.new ≡ with_inside note.now cover.old) }
{
    if note.is_head() || !is_of_container(&note.key(), note.length()) {
        return Ok(());
    }
    let value = note.offset() + 16 + u64::from(note.width());
    add_some(cover, value + NEAR, note.end().saturating_sub(NEAR))
}

/// The offsets around the packets of which heads alone are held.
fn around_heads(alloc: Global, catalogue: &Catalogue) -> Result<Cover, OutOfMemory>
    ensures { IfOk result (λ c. c ≡ with_each with_around [] catalogue.now) }
{
    let mut cover = Cover::new(alloc);
    for note in catalogue.notes() {
        add_around(&mut cover, note)?;
    }
    Ok(cover)
}

/// Adds the offsets around the note's packet, if it is a head.
fn add_around(cover: &mut Cover, note: &Note) -> Result<(), OutOfMemory>
    ensures { OnOk result (cover.new ≡ with_around note.now cover.old) }
{
    if !note.is_head() {
        return Ok(());
    }
    let start = note.offset().saturating_sub(NEAR);
    add_some(cover, start, (note.end() + NEAR).min(MAX))
}

/// The excerpts of sources without what isn't compared and an earlier source gives.
fn excerpts_but(
    alloc: Global,
    passed: &Cover,
    extents: &[Extent],
) -> Result<Vec<Excerpt>, OutOfMemory>
    requires { IsCover passed.now }
    ensures { IfOk result (λ v. AreExcerpts passed.now extents.now (length extents.now) v.items) }
{
    let mut excerpts = Vec::new(alloc);
    let mut given = Cover::new(alloc);
    for (source, extent) in extents.iter().enumerate() {
        let left = left_of(alloc, *extent, &given, passed)?;
        add_excerpts(&mut excerpts, source, &left)?;
        add_some(&mut given, extent.offset, extent.offset + extent.size)?;
    }
    Ok(excerpts)
}

/// The offsets of an extent without those that are given and passed.
fn left_of(
    alloc: Global,
    extent: Extent,
    given: &Cover,
    passed: &Cover,
) -> Result<Cover, OutOfMemory>
    requires given { IsCover given.now }
    requires passed { IsCover passed.now }
    ensures offsets { IfOk result (λ c. (x : ℕ) → LiesIn c x
        ↔ (LiesInExtent extent x × ¬ (LiesIn given.now x × LiesIn passed.now x))) }
    ensures cover { IfOk result IsCover }
{
    let mut own = Cover::new(alloc);
    add_some(&mut own, extent.offset, extent.offset + extent.size)?;
    let again = within(alloc, &own, given)?;
    let repeated = within(alloc, &again, passed)?;
    outside(alloc, &own, &repeated)
}

/// The offsets of a cover that are in another, too.
fn within(alloc: Global, cover: &Cover, other: &Cover) -> Result<Cover, OutOfMemory>
    requires { IsCover other.now }
    ensures { IfOk result (λ c. (x : ℕ) → LiesIn c x ↔ (LiesIn cover.now x × LiesIn other.now x)) }
{
    let without = outside(alloc, cover, other)?;
    outside(alloc, cover, &without)
}

/// Adds an excerpt of the source for each run of a cover.
fn add_excerpts(
    excerpts: &mut Vec<Excerpt>,
    source: usize,
    cover: &Cover,
) -> Result<(), OutOfMemory>
    ensures { OnOk result (HaveMore source cover.now excerpts.old.items excerpts.new.items) }
{
    for run in cover.runs() {
        let extent = Extent {
            offset: run.start,
            size: run.end - run.start,
        };
        excerpts.push(Excerpt { source, extent })?;
    }
    Ok(())
}
