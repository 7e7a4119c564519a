//! The bytes at hand, and readings of them.
ghost use Rattle.std.specs.Prelude.{◌≡◌, ◌≤◌, ◌<◌, ℕ, List, Option, IfOk, true, false};
ghost use Rattle.mxf_klv.specs.Note.{covered_end, end_of};
ghost use Rattle.mxf_catalogue.specs.Runs.{LiesIn};
ghost use Rattle.mxf_hand.specs.Given.{AreAtHand, AreTold, SourceParts};
ghost use Rattle.mxf_hand.specs.Noting.{IsReading};
ghost use Rattle.mxf_hand.specs.Hand.{AreToldIn, HandBytes, is_value_at_hand, packet_of, read_bytes, read_to, run_end};
ghost use Rattle.mxf_hand.specs.Heads.{fits};

use crate::given::{Given, Reading, SourceFault, Sources};
use crate::head::{key_and_length, stand_at};
use mxf_catalogue::Cover;
use mxf_klv::Note;
use mxf_places::{AtHand, up_to_bound};
use mxf_skim::Scan;
use std::alloc::Global;
use std::marker::Model;

/// The extents of sources, and which of their offsets are at hand; and whether the values of a container's packets are
/// read there.
pub(crate) struct Hand {
    scan: Scan,
    given: Given,
    runs: Cover,
}

// Written out, a drop is one call wherever a hand is let go.
impl Drop for Hand {
    fn drop(self) {
        let Hand {
            scan: _,
            given: _given,
            runs: _runs,
        } = self;
    }
}

impl Model for Hand {
    ghost use Rattle.mxf_catalogue.specs.Covers.{IsCover};
    ghost use Rattle.mxf_catalogue.specs.Runs.{LiesIn};
    ghost use Rattle.mxf_hand.specs.Hand.{HandParts};
    ghost use Rattle.std.specs.Prelude.{ℕ};

    ghost Value = { HandParts };

    ghost view = { λ h. record { scan = h.scan; given = h.given; runs = h.runs } };

    ghost invariant = { λ h. IsCover h.runs × ((x : ℕ) → LiesIn h.runs x → LiesIn h.given.given x) };
}

impl Hand {
    /// Compares the sources where they overlap.
    pub fn of<S: Sources>(
        alloc: Global,
        scan: Scan,
        given: Given,
        sources: &mut S,
    ) -> Result<Hand, SourceFault>
        ensures told { S.told sources.new ≡ S.told sources.old }
        ensures scan { IfOk result (λ hand. hand.scan ≡ scan) }
        ensures given { IfOk result (λ hand. hand.given ≡ given) }
        ensures runs { (told : List SourceParts) → AreTold (S.told sources.old) given.extents told
            → IfOk result (λ hand. AreAtHand told hand.runs) }
    {
        let runs = given.hand(alloc, sources)?;
        Ok(Hand { scan, given, runs })
    }

    /// The offsets that are given, and those at hand.
    pub fn into_at_hand(self) -> AtHand
        ensures given { result.given ≡ self.given.given }
        ensures hand { result.hand ≡ self.runs }
    {
        let Hand {
            scan: _,
            given,
            runs,
        } = self;
        AtHand::of(given.into_given(), runs)
    }

    /// The end, in bytes, of the maximal run at hand in which the offset lies.
    pub fn run_end(&self, offset: u64) -> Option<u64>
        ensures { result ≡ run_end self.now.runs offset }
    {
        let run = self.runs.runs_between(offset, None).next()?;
        if run.start <= offset {
            Some(run.end)
        } else {
            None
        }
    }

    /// Where a reading from an offset on ends: with the run at hand, or before that at an end. All are in bytes.
    fn read_to(&self, from: u64, end: Option<u64>) -> u64
        ensures { result ≡ read_to self.now.runs end from }
    {
        match self.run_end(from) {
            Some(run_end) => up_to_bound(run_end, end),
            None => from,
        }
    }

    /// Scans the bytes at hand from an offset on, up to an end if there is one, both in bytes.
    pub fn read<S: Sources>(
        &self,
        alloc: Global,
        sources: &mut S,
        from: u64,
        end: Option<u64>,
    ) -> Result<Reading, SourceFault>
        ensures told { S.told sources.new ≡ S.told sources.old }
        ensures reading { (h : HandBytes)
            → AreToldIn (S.told sources.old) self.now.given.extents self.now.runs self.now.scan h
            → IfOk result (λ r. IsReading h.scan from (read_bytes h end from) r.notes r.head) }
    {
        let to = self.read_to(from, end);
        self.given.reading(alloc, self.scan, sources, from, to)
    }

    /// Whether no byte at hand of a head's key and length differs from what the head says.
    #[tactic(auto, unfolding(crate::specs::Heads::fits))]
    pub fn fits<S: Sources>(
        &self,
        alloc: Global,
        sources: &mut S,
        head: &Note,
    ) -> Result<bool, SourceFault>
        ensures told { S.told sources.new ≡ S.told sources.old }
        ensures fits { (h : HandBytes)
            → AreToldIn (S.told sources.old) self.now.given.extents self.now.runs self.now.scan h
            → IfOk result (λ it. it ≡ fits h head.now) }
    {
        let spelled = key_and_length(alloc, head)?;
        let start = head.offset();
        let end = start + 16 + u64::from(head.width());
        for run in self.runs.runs_between(start, Some(end)) {
            let from = run.start.max(start);
            let bytes = self.given.bytes(alloc, sources, from, run.end.min(end))?;
            if !stand_at(&bytes, (from - start) as usize, &spelled) {
                return Ok(false);
            }
        }
        Ok(true)
    }

    /// Whether the note is a head, the value of its packet has a byte, and all of them are at hand.
    pub fn has_value(&self, head: &Note) -> bool
        ensures test { (h : HandBytes) → h.runs ≡ self.now.runs → result ≡ is_value_at_hand h head.now }
        ensures head { result ≡ true → head.now.whole ≡ false }
        ensures value { result ≡ true → (x : ℕ) → covered_end head.now ≤ x → x < end_of head.now
            → LiesIn self.now.runs x }
    {
        if !head.is_head() {
            return false;
        }
        if head.length() == 0 {
            return false;
        }
        self.runs.has_all(head.covered_end(), head.end())
    }

    /// The note of a head's packet, whose value is at hand. A skim doesn't read a value that it passes over.
    pub fn packet_of<S: Sources>(
        &self,
        alloc: Global,
        sources: &mut S,
        head: &Note,
    ) -> Result<Note, SourceFault>
        requires head { head.now.whole ≡ false }
        requires value { (x : ℕ) → covered_end head.now ≤ x → x < end_of head.now → LiesIn self.now.runs x }
        ensures told { S.told sources.new ≡ S.told sources.old }
        ensures note { (h : HandBytes)
            → AreToldIn (S.told sources.old) self.now.given.extents self.now.runs self.now.scan h
            → IfOk result (λ n. n ≡ packet_of h head.now) }
    {
        self.given.packet_of(alloc, self.scan, sources, head)
    }
}
