//! What is put together in a round, section after section.
ghost use Rattle.std.specs.Prelude.{◌≡◌, ◌↔◌, ◌⊎◌, ◌++◌, ◌∷◌, [], ℕ, List, Option, IfOk, OnOk, filter, map};
ghost use Rattle.mxf_klv.specs.Parts.{NoteParts};
ghost use Rattle.mxf_catalogue.specs.Content.{reduced_union};
ghost use Rattle.mxf_catalogue.specs.Runs.{LiesIn};
ghost use Rattle.mxf_read.specs.Feeding.{option_list};
ghost use Rattle.mxf_hand.specs.Finding.{Finds, Grows, IsStart, read_notes};
ghost use Rattle.mxf_hand.specs.Rounds.{is_taken};
ghost use Rattle.mxf_hand.specs.declared.found.CutHead.{CutHead};

use crate::given::Reading;
use crate::section::ends_within;
use mxf_catalogue::{Catalogue, Cover};
use mxf_klv::{Note, OutOfMemory};
use std::alloc::Global;

/// A head that was read, and the end of the hole in which it was, in bytes.
#[derive(Drop)]
pub(crate) struct CutHead {
    pub note: Note,
    pub hole_end: Option<u64>,
}

/// What was found of some sections.
pub(crate) struct Found {
    /// The packets that were read.
    pub packets: Catalogue,
    /// Those that were made of heads.
    pub made: Catalogue,
    /// The heads that were read.
    pub heads: Vec<CutHead>,
    /// Where the packets and heads begin that were read.
    pub starts: Cover,
}

// Written out, a drop is one call wherever what was found is let go.
impl Drop for Found {
    fn drop(self) {
        let Found {
            packets: _packets,
            made: _made,
            heads: _heads,
            starts: _starts,
        } = self;
    }
}

impl Found {
    /// Nothing.
    pub fn new(alloc: Global) -> Found
        ensures { Finds result [] [] [] }
    {
        Found {
            packets: Catalogue::new(alloc),
            made: Catalogue::new(alloc),
            heads: Vec::new(alloc),
            starts: Cover::new(alloc),
        }
    }

    /// Adds what was read of a section of a hole, which ends at `hole_end` if it has an end.
    pub fn add_reading(
        &mut self,
        reading: Reading,
        hole_end: Option<u64>,
    ) -> Result<(), OutOfMemory>
        ensures { OnOk result (Grows self.old self.new reading.notes []
            (map (λ n. record { note = n; hole_end = hole_end }) (option_list reading.head))) }
    {
        let Reading { notes, head } = reading;
        self.add_packets(notes)?;
        self.add_head(head, hole_end)?;
        Ok(())
    }

    /// Adds packets that were read.
    fn add_packets(&mut self, notes: Catalogue) -> Result<(), OutOfMemory>
        ensures { OnOk result (Grows self.old self.new notes [] []) }
    {
        add_starts(&mut self.starts, &notes)?;
        let Ok(()) = self.packets.merge(notes) else {
            return Err(OutOfMemory);
        };
        Ok(())
    }

    /// Adds the head that was read, if there is one.
    fn add_head(&mut self, head: Option<Note>, hole_end: Option<u64>) -> Result<(), OutOfMemory>
        ensures { OnOk result (Grows self.old self.new [] []
            (map (λ n. record { note = n; hole_end = hole_end }) (option_list head))) }
    {
        match head {
            Some(note) => {
                self.starts.add(note.offset(), note.offset() + 1)?;
                self.heads.push(CutHead { note, hole_end })?;
                Ok(())
            }
            None => Ok(()),
        }
    }

    /// Adds a packet that was made of a head.
    pub fn add_made(&mut self, note: Note) -> Result<(), OutOfMemory>
        ensures { OnOk result (Grows self.old self.new [] (note ∷ []) []) }
    {
        self.made.add(note)?;
        Ok(())
    }

    /// The packets that were read; and the packets that were made, with the heads that are taken.
    pub fn into_taken(self) -> Result<(Catalogue, Catalogue), OutOfMemory>
        ensures { (packets made : List NoteParts) (heads : List CutHead) → Finds self packets made heads
            → IfOk result (λ taken. (taken.0 ≡ reduced_union [] packets)
            × (taken.1 ≡ reduced_union [] (made ++ map (λ head. head.note)
            (filter (is_taken (read_notes packets heads)) heads)))) }
    {
        let Found {
            packets,
            mut made,
            heads,
            starts,
        } = self;
        add_taken(&mut made, heads, &starts)?;
        Ok((packets, made))
    }
}

/// Adds those of the heads that are taken.
fn add_taken(made: &mut Catalogue, heads: Vec<CutHead>, starts: &Cover) -> Result<(), OutOfMemory>
    ensures { (read : List NoteParts) → ((x : ℕ) → LiesIn starts.now x ↔ IsStart read x)
        → OnOk result (made.new ≡ reduced_union made.old (map (λ head. head.note) (filter (is_taken read) heads.items))) }
{
    for head in heads {
        add_if_taken(made, head, starts)?;
    }
    Ok(())
}

/// Adds a head, if it is taken.
fn add_if_taken(made: &mut Catalogue, head: CutHead, starts: &Cover) -> Result<(), OutOfMemory>
    ensures { (read : List NoteParts) → ((x : ℕ) → LiesIn starts.now x ↔ IsStart read x)
        → OnOk result (made.new ≡ reduced_union made.old (map (λ c. c.note) (filter (is_taken read) (head ∷ [])))) }
{
    if !is_taken(starts, &head) {
        return Ok(());
    }
    made.add(head.note)?;
    Ok(())
}

/// Adds where the notes begin.
fn add_starts(starts: &mut Cover, notes: &Catalogue) -> Result<(), OutOfMemory>
    ensures { OnOk result ((x : ℕ) → LiesIn starts.new x ↔ LiesIn starts.old x ⊎ IsStart notes.now x) }
{
    for note in notes.notes() {
        starts.add(note.offset(), note.offset() + 1)?;
    }
    Ok(())
}

/// Whether a head is taken: it ends in its hole, and nothing that was read begins after its offset and below its end.
fn is_taken(starts: &Cover, head: &CutHead) -> bool
    ensures { (read : List NoteParts) → ((x : ℕ) → LiesIn starts.now x ↔ IsStart read x)
        → result ≡ is_taken read head.now }
{
    ends_within(head.hole_end, &head.note) && !starts.meets(head.note.offset() + 1, head.note.end())
}
