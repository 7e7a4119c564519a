//! Fills that follow one another (ST 377-1, fill items).
ghost use Rattle.std.specs.Prelude.{◌≡◌, ◌↔◌, ℕ, IfOk, List};
ghost use Rattle.mxf_klv.specs.Parts.{NoteParts};
ghost use Rattle.mxf_catalogue.specs.Content.{IsContent};
ghost use Rattle.mxf_catalogue.specs.Disputes.{undisputed_notes};
ghost use Rattle.mxf_places.specs.Claims.{over_fills};
ghost use Rattle.mxf_places.specs.Fills.{fill_at, fills_among, over_in};
ghost use Rattle.mxf_places.specs.Named.{IsOver};

use mxf_catalogue::Catalogue;
use mxf_klv::{Kind, Note, OutOfMemory};
use std::alloc::Global;
use std::collections::BTreeMap;

/// Where a fill begins and where it ends, in bytes.
#[derive(Clone, Copy)]
struct Fill {
    start: u64,
    end: u64,
}

/// For the start of each fill that shares no byte with another packet: where one comes to by going on over fills.
#[derive(Drop)]
pub(crate) struct Fills {
    ends: BTreeMap<u64, u64>,
}

impl Fills {
    /// The fills of a catalogue, whole or head. It takes memory.
    pub fn of(alloc: Global, catalogue: &Catalogue) -> Result<Fills, OutOfMemory>
        ensures { IfOk result (λ fills. (x : ℕ) → over_in fills.ends x ≡ over_fills catalogue.now x) }
    {
        let mut fills = fills_in(alloc, catalogue)?;
        let mut ends = BTreeMap::new(alloc);
        while let Some(fill) = fills.pop() {
            let end = over(&ends, fill.end);
            ends.insert(fill.start, end)?;
        }
        Ok(Fills { ends })
    }

    /// Where one comes to from an offset, in bytes, by going on over the fills that begin there.
    pub fn over(&self, offset: u64) -> u64
        ensures { result ≡ over_in self.now.ends offset }
    {
        over(&self.ends, offset)
    }
}

/// The same by a table.
fn over(ends: &BTreeMap<u64, u64>, offset: u64) -> u64
    ensures { result ≡ over_in ends.now offset }
{
    ends.get(&offset).copied().unwrap_or(offset)
}

/// The fills of a catalogue, in their order.
fn fills_in(alloc: Global, catalogue: &Catalogue) -> Result<Vec<Fill>, OutOfMemory>
    ensures { IfOk result (λ fills. fills.items ≡ fills_among (undisputed_notes catalogue.now)) }
{
    let fills = catalogue.undisputed().filter_map(|note| fill_at(note));
    Ok(fills.collect(alloc)?)
}

/// The fill that a note is.
#[tactic(auto, unfolding(crate::specs::Fills::fill_at))]
fn fill_at(note: &Note) -> Option<Fill>
    ensures { result ≡ fill_at note.now }
{
    if note.kind() != Kind::Fill {
        return None;
    }
    Some(Fill {
        start: note.offset(),
        end: note.end(),
    })
}

/// A law: going over fills from an offset leads to where the fills that follow one another there lead, and where none
/// begins.
pub fn fills_by_definition()
    ensures { (notes : List NoteParts) (from to : ℕ) → IsContent notes
        → (over_fills notes from ≡ to) ↔ IsOver notes from to }
{}
