//! The rates at which indexes are timed.
ghost use Rattle.std.specs.Prelude.{◌≡◌, ◌&&◌, ℕ, IfOk, OnOk};
ghost use Rattle.mxf_sets.specs.declared.record.rate.Rate.{Rate};
ghost use Rattle.mxf_clocks.specs.Lookups.{timed_in, with_rate};
ghost use Rattle.mxf_clocks.specs.TracksFor.{agrees, index_rate, is_timed};

use mxf_klv::OutOfMemory;
use mxf_sets::Rate;
use mxf_views::SegmentInNumbers;
use std::alloc::Global;
use std::collections::BTreeMap;

/// For each IndexSID of a segment the IndexEditRate that all its segments equal: None where they differ.
#[derive(Drop)]
pub(crate) struct IndexRates {
    by_index: BTreeMap<u32, Option<Rate>>,
}

/// What segments agree on, with one more.
fn with_rate(kept: Option<Option<Rate>>, rate: Rate) -> Option<Rate>
    ensures { result ≡ with_rate kept rate }
{
    match kept {
        None => Some(rate),
        Some(Some(first)) if first.is_same(&rate) => Some(first),
        Some(_) => None,
    }
}

/// The IndexEditRate of a segment.
fn index_rate(segment: &SegmentInNumbers) -> Rate
    ensures { result ≡ index_rate segment.now.segment.numbers }
{
    let (numerator, denominator) = segment.numbers.edit_rate;
    Rate {
        numerator,
        denominator,
    }
}

impl IndexRates {
    /// Those that segments state: n log n steps for n segments.
    pub fn of(alloc: Global, segments: &[SegmentInNumbers]) -> Result<IndexRates, OutOfMemory>
        ensures { IfOk result (λ r. (index_sid : ℕ) (rate : Rate)
            → timed_in r.by_index index_sid rate ≡ is_timed segments.now index_sid rate) }
    {
        let mut rates = IndexRates {
            by_index: BTreeMap::new(alloc),
        };
        for segment in segments {
            rates.add(segment)?;
        }
        Ok(rates)
    }

    /// Adds what one more segment states.
    fn add(&mut self, segment: &SegmentInNumbers) -> Result<(), OutOfMemory>
        ensures { OnOk result ((index_sid : ℕ) (rate : Rate) → timed_in self.new.by_index index_sid rate
            ≡ (timed_in self.old.by_index index_sid rate && agrees index_sid rate segment.now)) }
    {
        let index_sid = segment.numbers.index_sid;
        let kept = with_rate(self.by_index.get(&index_sid).copied(), index_rate(segment));
        self.by_index.insert(index_sid, kept)?;
        Ok(())
    }

    /// Whether an index is timed at a rate: one look-up.
    pub fn is_timed(&self, index_sid: u32, rate: Rate) -> bool
        ensures { result ≡ timed_in self.now.by_index index_sid rate }
    {
        match self.by_index.get(&index_sid) {
            None => true,
            Some(None) => false,
            Some(Some(first)) => first.is_same(&rate),
        }
    }
}
