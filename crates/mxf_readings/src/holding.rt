//! Which source holds which note, in the order of notes.
ghost use Rattle.std.specs.Prelude.{◌≡◌, ◌<◌, ◌≤◌, ◌++◌, true, false, drop, filter, length, map, take, IfOk, IsTrue};
ghost use Rattle.std.specs.Prelude.{OnOk, slice_index_or};
ghost use Rattle.mxf_klv.specs.Rising.{In, IsRising};
ghost use Rattle.mxf_readings.specs.Holdings.{AreHoldings, HoldingParts, holding, holding_cmp, holdings_from, is_of};
ghost use Rattle.mxf_readings.specs.Holdings.{is_only};
ghost use Rattle.mxf_readings.specs.Readings.{is_held};

use mxf_catalogue::Catalogue;
use mxf_klv::{Note, OutOfMemory, sort_once};
use std::alloc::Global;
use std::cmp::Ordering;
use std::marker::Model;

/// A note and a source that has it.
#[derive(Drop)]
pub(crate) struct Holding<'a> {
    note: &'a Note,
    /// The number of the source, from 1 on.
    source: usize,
}

impl<'a> Model for Holding<'a> {
    ghost use Rattle.mxf_readings.specs.Holdings.{HoldingParts};

    ghost Value = { HoldingParts };

    ghost view = { λ h. record { note = h.note.now; source = h.source } };
}

impl<'a> Holding<'a> {
    /// The number of the source.
    pub(crate) fn source(&self) -> usize
        ensures { result ≡ self.now.source }
    {
        self.source
    }

    /// Whether its note is one of all. The note of a whole packet is, so only a head is searched.
    pub(crate) fn is_one_of(&self, all: &Catalogue) -> bool
        requires { IsTrue self.now.note.whole → In self.now.note all.now }
        ensures { result ≡ is_held self.now.note all.now }
    {
        !self.note.is_head() || is_held(all, self.note)
    }

    /// Whether it is of a note.
    fn is_of(&self, note: &Note) -> bool
        ensures { result ≡ is_of note.now self.now }
    {
        self.note.cmp(note) == Ordering::Equal
    }
}

impl<'a> PartialEq for Holding<'a> {
    ghost use Rattle.std.specs.Ordering.{eq_by_cmp};
    ghost use Rattle.mxf_readings.specs.Holdings.{holding_cmp};
    ghost use Rattle.mxf_readings.specs.HoldingOrder.{holding_equiv};
    ghost use Rattle.std.specs.Cmp.{partial_equiv_from_equiv};

    ghost eq = { eq_by_cmp holding_cmp };

    ghost laws = { partial_equiv_from_equiv holding_equiv };

    fn eq(&self, other: &Holding<'a>) -> bool {
        self.cmp(other) == Ordering::Equal
    }
}

impl<'a> Eq for Holding<'a> {
    ghost use Rattle.mxf_readings.specs.HoldingOrder.{holding_equiv};

    ghost laws = { holding_equiv };
}

impl<'a> PartialOrd for Holding<'a> {
    ghost use Rattle.std.specs.Ordering.{as_partial_cmp};
    ghost use Rattle.std.specs.Cmp.{partial_order_from_agreeing_total};
    ghost use Rattle.std.specs.Prelude.{refl};
    ghost use Rattle.mxf_readings.specs.Holdings.{holding_cmp};
    ghost use Rattle.mxf_readings.specs.HoldingOrder.{holding_total};

    ghost partial_cmp = { as_partial_cmp holding_cmp };

    ghost laws = { partial_order_from_agreeing_total holding_cmp holding_total (λ _ _. refl) (λ _ _. refl) };

    fn partial_cmp(&self, other: &Holding<'a>) -> Option<Ordering> {
        Some(self.cmp(other))
    }
}

impl<'a> Ord for Holding<'a> {
    ghost use Rattle.mxf_readings.specs.Holdings.{holding_cmp};
    ghost use Rattle.mxf_readings.specs.HoldingOrder.{holding_total};
    ghost use Rattle.std.specs.Prelude.{refl};

    ghost cmp = { holding_cmp };

    ghost total = { holding_total };

    ghost matches_partial_cmp = { λ _ _. refl };

    ghost matches_eq = { λ _ _. refl };

    fn cmp(&self, other: &Holding<'a>) -> Ordering {
        self.note
            .cmp(other.note)
            .then(self.source.cmp(&other.source))
    }
}

/// Adds the notes of a source.
fn add_notes<'a>(
    holdings: &mut Vec<Holding<'a>>,
    content: &'a Catalogue,
    source: usize,
) -> Result<(), OutOfMemory>
    ensures { OnOk result (holdings.new.items ≡ holdings.old.items ++ map (holding source) content.now) }
{
    for note in content.notes() {
        holdings.push(Holding { note, source })?;
    }
    Ok(())
}

/// The notes of all sources, source after source.
fn in_turn<'a>(alloc: Global, contents: &'a [Catalogue]) -> Result<Vec<Holding<'a>>, OutOfMemory>
    ensures { IfOk result (λ v. v.items ≡ holdings_from 1 contents.now) }
{
    let mut holdings = Vec::new(alloc);
    for (at, content) in contents.iter().enumerate() {
        add_notes(&mut holdings, content, at + 1)?;
    }
    Ok(holdings)
}

/// The notes of all sources, in their order, each with its sources in theirs. No source has a note twice, so none is
/// dropped as repeated.
pub(crate) fn holdings<'a>(
    alloc: Global,
    contents: &'a [Catalogue],
) -> Result<Vec<Holding<'a>>, OutOfMemory>
    ensures { IfOk result (λ v. AreHoldings contents.now v.items) }
{
    let mut holdings = in_turn(alloc, contents)?;
    sort_once(&mut holdings);
    Ok(holdings)
}

/// The number of the source of each.
pub(crate) fn source_numbers(
    alloc: Global,
    holdings: &[Holding<'_>],
) -> Result<Vec<usize>, OutOfMemory>
    ensures { IfOk result (λ v. v.items ≡ map (λ h. h.source) holdings.now) }
{
    let sources = holdings.iter().map(|holding| holding.source());
    Ok(sources.collect(alloc)?)
}

/// Whether the note is one of a catalogue.
pub(crate) fn is_held(catalogue: &Catalogue, note: &Note) -> bool
    ensures { result ≡ is_held note.now catalogue.now }
{
    catalogue.holds(note)
}

/// From where to where the holdings are of a note: two binary searches.
pub(crate) fn range(holdings: &[Holding<'_>], note: &Note) -> (usize, usize)
    requires { IsRising holding_cmp holdings.now }
    ensures order { result.0 ≤ result.1 }
    ensures bound { result.1 ≤ length holdings.now }
    ensures run { drop result.0 (take result.1 holdings.now) ≡ filter (is_of note.now) holdings.now }
{
    let to = holdings.partition_point(|holding| holding.note.cmp(note) < Ordering::Greater);
    let from = holdings.partition_point(|holding| holding.note.cmp(note) < Ordering::Equal);
    (from.min(to), to)
}

/// Whether the holding at a place is the only one of its note: neither of its neighbours is of it.
pub(crate) fn is_only(holdings: &[Holding<'_>], at: usize) -> bool
    requires rising { IsRising holding_cmp holdings.now }
    requires bound { at < length holdings.now }
    ensures { (d : HoldingParts) → result ≡ is_only holdings.now (slice_index_or holdings.now at d) }
{
    let holding = &holdings[at];
    let note = holding.note;
    if at > 0 && holdings[at - 1].is_of(note) {
        return false;
    }
    at + 1 == holdings.len() || !holdings[at + 1].is_of(note)
}
