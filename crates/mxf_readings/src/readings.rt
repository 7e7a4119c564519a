//! Which source of a recording holds which note.
ghost use Rattle.std.specs.Prelude.{◌≡◌, ◌≢◌, ◌↔◌, ◌≤◌, ◌==◌, ◌++◌, ℕ, [], List, count_by, drop, length, take, IfNone};
ghost use Rattle.std.specs.Prelude.{IfOk, IfSome, IsTrue};
ghost use Rattle.std.specs.List.{AllByRecursion};
ghost use Rattle.std.specs.Ordering.{nat_cmp};
ghost use Rattle.mxf_klv.specs.Parts.{NoteParts};
ghost use Rattle.mxf_klv.specs.Rising.{In, IsRising};
ghost use Rattle.mxf_catalogue.specs.Content.{AreReduced, IsContent, IsLocated, reduced_union};
ghost use Rattle.mxf_readings.specs.Holdings.{holding_cmp, sources_alone};
ghost use Rattle.mxf_readings.specs.Readings.{IsAlone, IsDisputedThere, IsHeld, all_notes, content_of, counts_of};
ghost use Rattle.mxf_readings.specs.Readings.{is_alone, is_disputed_there, sources_of};

use crate::holding::{Holding, holdings, is_only, range, source_numbers};
use mxf_catalogue::{Catalogue, Semilattice};
use mxf_klv::{Note, OutOfMemory, count_with_key};
use std::alloc::Global;
use std::marker::Model;

/// What a source holds.
#[derive(Clone, Copy, Debug, PartialEq, Eq)]
pub struct SourceCounts {
    /// How many notes.
    pub notes: usize,
    /// How many notes of all sources together that no other source has.
    pub alone: usize,
    /// How many that are disputed among the notes of all sources together.
    pub disputed: usize,
}

/// The contents of several sources beside each other. Sources have numbers, from 1 on, in the order of their contents;
/// a source that is named twice is two.
///
/// It is made in n log n of the notes of all sources, and holds the notes of all sources together beside them.
pub struct Readings<'a> {
    contents: &'a [Catalogue],
    all: Catalogue,
    /// All notes of all sources, in their order.
    holdings: Vec<Holding<'a>>,
    /// The number of the source of each of these.
    sources: Vec<usize>,
    /// The number of a source as often as it is the only one of a note of all, rising.
    alone: Vec<usize>,
}

// Written out, a drop is one call wherever readings are let go.
impl Drop for Readings<'_> {
    fn drop(self) {
        let Readings {
            contents: _,
            all: _all,
            holdings: _holdings,
            sources: _sources,
            alone: _alone,
        } = self;
    }
}

impl<'a> Model for Readings<'a> {
    ghost use Rattle.std.specs.Prelude.{◌≡◌, List, map};
    ghost use Rattle.mxf_klv.specs.Parts.{NoteParts};
    ghost use Rattle.mxf_readings.specs.Holdings.{AreAlone, AreHoldings};
    ghost use Rattle.mxf_readings.specs.Readings.{all_notes};

    ghost Value = { List (List NoteParts) };

    ghost view = { λ r. r.contents.now };

    ghost invariant = { λ r. (r.all ≡ all_notes r.contents.now) × AreHoldings r.contents.now r.holdings.items
        × (r.sources.items ≡ map (λ h. h.source) r.holdings.items)
        × AreAlone r.all r.holdings.items r.alone.items };
}

impl<'a> Readings<'a> {
    /// The sources with these contents. It takes memory.
    pub fn of(alloc: Global, contents: &'a [Catalogue]) -> Result<Readings<'a>, OutOfMemory>
        ensures { IfOk result (λ r. r ≡ contents.now) }
    {
        let all = joined(alloc, contents)?;
        let holdings = holdings(alloc, contents)?;
        let sources = source_numbers(alloc, &holdings)?;
        let mut alone = sources_alone(alloc, &all, &holdings)?;
        alone.sort_unstable();
        Ok(Readings {
            contents,
            all,
            holdings,
            sources,
            alone,
        })
    }

    /// How many sources there are.
    pub fn len(&self) -> usize
        ensures { result ≡ length self.now }
    {
        self.contents.len()
    }

    /// Whether there is no source.
    pub fn is_empty(&self) -> bool
        ensures { IsTrue result ↔ (self.now ≡ []) }
    {
        self.contents.is_empty()
    }

    /// What all sources hold together.
    pub fn all(&self) -> &Catalogue
        ensures { result.now ≡ all_notes self.now }
    {
        &self.all
    }

    /// The numbers of the sources that have the note, in their order: two binary searches.
    pub fn sources_of(&self, note: &Note) -> &[usize]
        ensures { result.now ≡ sources_of note.now self.now }
    {
        let (from, to) = range(&self.holdings, note);
        part(&self.sources, from, to)
    }

    /// What the source with a number holds; nothing if there is none. It takes n log n of its notes, for those that are
    /// disputed.
    pub fn counts(&self, number: usize) -> SourceCounts
        ensures { result ≡ counts_of number self.now }
    {
        match source_at(self.contents, number) {
            Some(content) => self.counted(number, content),
            None => SourceCounts {
                notes: 0,
                alone: 0,
                disputed: 0,
            },
        }
    }

    /// What the source with a number and this content holds.
    fn counted(&self, number: usize, content: &Catalogue) -> SourceCounts
        requires { content.now ≡ content_of number self.now }
        ensures notes { result.notes ≡ length content.now }
        ensures alone { result.alone ≡ count_by (is_alone self.now) content.now }
        ensures disputed { result.disputed ≡ count_by (is_disputed_there self.now) content.now }
    {
        content.laws();
        SourceCounts {
            notes: content.len(),
            alone: count_with_key(&self.alone, number as u64),
            disputed: content
                .notes()
                .filter(|note| self.is_disputed(note))
                .count(),
        }
    }

    /// Whether a note is one of all, and disputed there.
    fn is_disputed(&self, note: &Note) -> bool
        ensures { result ≡ is_disputed_there self.now note.now }
    {
        self.all.disputes(note)
    }
}

/// The number of the source of each holding that is the only one of a note of all.
fn sources_alone(
    alloc: Global,
    all: &Catalogue,
    holdings: &[Holding<'_>],
) -> Result<Vec<usize>, OutOfMemory>
    requires rising { IsRising holding_cmp holdings.now }
    requires whole { AllByRecursion (λ h. IsTrue h.note.whole → In h.note all.now) holdings.now }
    ensures { IfOk result (λ v. v.items ≡ sources_alone all.now holdings.now) }
{
    let mut sources = Vec::new(alloc);
    for (at, holding) in holdings.iter().enumerate() {
        if is_only(holdings, at) && holding.is_one_of(all) {
            sources.push(holding.source())?;
        }
    }
    Ok(sources)
}

/// The content of the source with a number.
fn source_at(contents: &[Catalogue], number: usize) -> Option<&Catalogue>
    ensures some { IfSome result (λ c. c.now ≡ content_of number contents.now) }
    ensures none { IfNone result (content_of number contents.now ≡ []) }
{
    contents.get(number.checked_sub(1)?)
}

/// The numbers from a place up to another.
fn part(numbers: &[usize], from: usize, to: usize) -> &[usize]
    requires order { from ≤ to }
    requires bound { to ≤ length numbers.now }
    ensures { result.now ≡ drop from (take to numbers.now) }
{
    let (front, _) = numbers.split_at(to);
    let (_, run) = front.split_at(from);
    run
}

/// What all contents hold together. Each half is joined first, so n notes of any number of sources are moved some
/// log n times each.
pub fn joined(alloc: Global, contents: &[Catalogue]) -> Result<Catalogue, OutOfMemory>
    ensures { IfOk result (λ c. c ≡ all_notes contents.now) }
{
    let Some((first, others)) = contents.split_first() else {
        return Ok(Catalogue::new(alloc));
    };
    if others.is_empty() {
        return Catalogue::join(alloc, first, &Catalogue::new(alloc));
    }
    first.laws();
    let (front, back) = contents.split_at(contents.len() / 2);
    let front = joined(alloc, front)?;
    let back = joined(alloc, back)?;
    merged(front, back)
}

/// What two catalogues hold together.
fn merged(mut front: Catalogue, back: Catalogue) -> Result<Catalogue, OutOfMemory>
    ensures merged { IfOk result (λ c. c ≡ reduced_union front back) }
    ensures content { IsContent front }
    ensures reduced { AreReduced front }
{
    front.laws();
    front.merge(back)?;
    Ok(front)
}

/// A law: the numbers of the sources of a note are those of the sources that have it, and rise. The tests of
/// [`Readings::counts`] say what the relations say: a note is alone in a source if it is one of the notes of all
/// sources together and no other source has it, and disputed if another note of all shares a byte with it.
pub fn sources_by_definition()
    ensures members { (number : ℕ) (n : NoteParts) (contents : List (List NoteParts))
        → In number (sources_of n contents) ↔ In n (content_of number contents) }
    ensures rising { (n : NoteParts) (contents : List (List NoteParts)) → IsRising nat_cmp (sources_of n contents) }
    ensures alone { (number : ℕ) (n : NoteParts) (contents : List (List NoteParts)) → In n (content_of number contents)
        → IsTrue (is_alone contents n) ↔ IsAlone number contents n }
    ensures disputed { (n : NoteParts) (contents : List (List NoteParts))
        → IsTrue (is_disputed_there contents n) ↔ IsDisputedThere contents n }
{}

/// A law of [`Readings::all`]: it has the notes that some source has, without the heads whose packets some source has,
/// and no others. So each of its notes has a source. It is the reduced union of the contents, however they are put
/// together.
pub fn all_notes_by_definition()
    ensures members { (n : NoteParts) (contents : List (List NoteParts)) → AllByRecursion AreReduced contents
        → In n (all_notes contents) ↔ IsLocated (IsHeld contents) n }
    ensures some { (n : NoteParts) (contents : List (List NoteParts)) → AllByRecursion AreReduced contents
        → In n (all_notes contents) → sources_of n contents ≢ [] }
    ensures content { (contents : List (List NoteParts)) → AllByRecursion IsContent contents
        → IsContent (all_notes contents) }
    ensures reduced { (contents : List (List NoteParts)) → AllByRecursion AreReduced contents
        → AreReduced (all_notes contents) }
    ensures parts { (a b : List (List NoteParts)) → AllByRecursion IsContent a → AllByRecursion AreReduced a
        → AllByRecursion IsContent b → AllByRecursion AreReduced b
        → all_notes (a ++ b) ≡ reduced_union (all_notes a) (all_notes b) }
{}
