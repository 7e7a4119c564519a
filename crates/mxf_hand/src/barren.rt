//! Readings that found no packet. They aren't repeated in the next round: what is at hand stays, so they would find the
//! same.
ghost use Rattle.std.specs.Prelude.{◌≡◌, IfOk, IfSome, OnOk};
ghost use Rattle.mxf_hand.specs.Noting.{IsReading};
ghost use Rattle.mxf_hand.specs.Barren.{AreBarren};
ghost use Rattle.mxf_hand.specs.Hand.{AreToldIn, HandBytes, read_bytes};

use crate::given::{Reading, SourceFault, Sources};
use crate::hand::Hand;
use mxf_catalogue::Catalogue;
use mxf_klv::{Note, OutOfMemory};
use std::alloc::Global;
use std::collections::BTreeMap;
use std::mem::replace;

/// The readings of a round, and of the one before it, that found no packet: where each began and the end that it was
/// asked up to, if any, both in bytes, with the head that it gave.
#[derive(Drop)]
pub(crate) struct BarrenReadings {
    /// Those of the round before.
    before: BTreeMap<(u64, Option<u64>), Option<Note>>,
    /// Those of this round, as far as it has come.
    current: BTreeMap<(u64, Option<u64>), Option<Note>>,
}

impl BarrenReadings {
    /// None.
    pub fn new(alloc: Global) -> BarrenReadings
        ensures { (h : HandBytes) → AreBarren h result }
    {
        BarrenReadings {
            before: BTreeMap::new(alloc),
            current: BTreeMap::new(alloc),
        }
    }

    /// Begins a round. What the last one found is kept, and nothing else.
    pub fn begin_round(&mut self, alloc: Global)
        ensures { (h : HandBytes) → AreBarren h self.old → AreBarren h self.new }
    {
        self.before = replace(&mut self.current, BTreeMap::new(alloc));
    }

    /// Reads the bytes at hand from an offset on, up to an end if there is one, both in bytes. If the same reading
    /// found no packet in the round before, nothing is read, and what it found is handed.
    pub fn read<S: Sources>(
        &mut self,
        alloc: Global,
        hand: &Hand,
        sources: &mut S,
        from: u64,
        end: Option<u64>,
    ) -> Result<Reading, SourceFault>
        ensures told { S.told sources.new ≡ S.told sources.old }
        ensures reading { (h : HandBytes)
            → AreToldIn (S.told sources.old) hand.now.given.extents hand.now.runs hand.now.scan h
            → AreBarren h self.old → IfOk result (λ r. IsReading h.scan from (read_bytes h end from) r.notes r.head) }
        ensures barren { (h : HandBytes)
            → AreToldIn (S.told sources.old) hand.now.given.extents hand.now.runs hand.now.scan h
            → AreBarren h self.old → OnOk result (AreBarren h self.new) }
    {
        let reading = self.find(alloc, hand, sources, from, end)?;
        self.keep(alloc, from, end, &reading)?;
        Ok(reading)
    }

    /// What the round before found, if that was no packet; otherwise what is read.
    fn find<S: Sources>(
        &self,
        alloc: Global,
        hand: &Hand,
        sources: &mut S,
        from: u64,
        end: Option<u64>,
    ) -> Result<Reading, SourceFault>
        ensures told { S.told sources.new ≡ S.told sources.old }
        ensures reading { (h : HandBytes)
            → AreToldIn (S.told sources.old) hand.now.given.extents hand.now.runs hand.now.scan h
            → AreBarren h self.now → IfOk result (λ r. IsReading h.scan from (read_bytes h end from) r.notes r.head) }
    {
        match self.remembered(alloc, from, end)? {
            Some(reading) => Ok(reading),
            None => hand.read(alloc, sources, from, end),
        }
    }

    /// What this reading found in the round before, if that was no packet. A kept head takes no memory.
    fn remembered(
        &self,
        alloc: Global,
        from: u64,
        end: Option<u64>,
    ) -> Result<Option<Reading>, OutOfMemory>
        ensures { (h : HandBytes) → AreBarren h self.now
            → IfOk result (λ o. IfSome o (λ r. IsReading h.scan from (read_bytes h end from) r.notes r.head)) }
    {
        let Some(head) = self.before.get(&(from, end)) else {
            return Ok(None);
        };
        let head = cloned(alloc, head)?;
        let notes = Catalogue::new(alloc);
        Ok(Some(Reading { notes, head }))
    }

    /// Keeps a reading for the next round, if it found no packet.
    fn keep(
        &mut self,
        alloc: Global,
        from: u64,
        end: Option<u64>,
        reading: &Reading,
    ) -> Result<(), OutOfMemory>
        ensures { (h : HandBytes) → AreBarren h self.old
            → IsReading h.scan from (read_bytes h end from) reading.now.notes reading.now.head
            → OnOk result (AreBarren h self.new) }
    {
        if !reading.notes.is_empty() {
            return Ok(());
        }
        let head = cloned(alloc, &reading.head)?;
        self.current.insert((from, end), head)?;
        Ok(())
    }
}

/// The same head, if there is one.
fn cloned(alloc: Global, head: &Option<Note>) -> Result<Option<Note>, OutOfMemory>
    ensures { IfOk result (λ o. o ≡ head.now) }
{
    match head {
        Some(note) => Ok(Some(note.clone_in(alloc)?)),
        None => Ok(None),
    }
}
