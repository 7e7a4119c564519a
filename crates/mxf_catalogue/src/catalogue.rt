//! The set of notes, and the laws of contents.
ghost use Rattle.std.specs.Prelude.{◌≡◌, ◌≢◌, ◌↔◌, ◌⊎◌, ◌==◌, ◌^◌, ◌<◌, ◌≤◌, ℕ, List, [], filter, find, length, false};
ghost use Rattle.std.specs.Prelude.{IsTrue, IfErr, IfNone, IfOk, IfSome, OnOk, OnErr};
ghost use Rattle.std.specs.List.{AllByRecursion};
ghost use Rattle.std.specs.Option.{option_copied};
ghost use Rattle.mxf_klv.specs.Note.{IsNote, end_of};
ghost use Rattle.mxf_klv.specs.Parts.{NoteParts};
ghost use Rattle.mxf_klv.specs.Rising.{In, SameMembers};
ghost use Rattle.mxf_catalogue.specs.Content.{AreReduced, IsCatalogue, IsContent, IsOfPacket, IsReplaced, has_note};
ghost use Rattle.mxf_catalogue.specs.Content.{reduced, reduced_union, reduced_with, union_of, with_note};
ghost use Rattle.mxf_catalogue.specs.Disputes.{AreApart, IsClear, IsDisputed, clear_notes, disputed_notes, lies_in};
ghost use Rattle.mxf_catalogue.specs.Disputes.{undisputed_notes};
ghost use Rattle.mxf_catalogue.specs.History.{History, Add, Join, content};
ghost use Rattle.mxf_catalogue.specs.Moved.{TellsMoved};
ghost use Rattle.mxf_catalogue.specs.NoteLists.{Covers, touching};

mod change;
mod clear;
mod disputed;
mod file;
mod merging;
mod note_lists;
mod notes;
mod placing;

use crate::cover::Cover;
use crate::semilattice::Semilattice;
pub use change::{AddFault, Change, Offsets, moved_notes_by_definition};
pub use clear::{ClearNotes, clear_notes_by_definition, clear_notes_stand_apart};
pub use disputed::{
    Disputed, DisputedNotes, disputed_notes_by_definition, disputes_by_tests,
    notes_are_clear_or_disputed, notes_are_disputed_in_two_ways,
};
pub use file::{
    FileFault, bytes_are_a_file_or_refused, files_are_read_as_written, files_of_both_versions,
    one_file, one_file_reading,
};
pub use merging::MergeFault;
use merging::{MergedNotes, Room};
use mxf_klv::{Note, OutOfMemory};
use note_lists::NoteLists;
pub use notes::Notes;
use placing::{at_offset, is_in, touched, within};
use std::alloc::Global;
use std::marker::Model;
use std::mem::replace;

/// A set of notes, in the order of [`Note`].
///
/// Notes are added one by one, catalogues are joined by [`Semilattice::join`], and one is moved into another by
/// [`Catalogue::merge`]. What comes out is the set alone: no order of arrival and no number of repeats changes it.
///
/// Clear and disputed notes are kept apart, with the runs of the disputed spans and those of all. So a new note is
/// compared with a few of them, by binary search.
#[derive(Debug)]
pub struct Catalogue {
    lists: NoteLists,
    spans: Cover,
}

// Written out, a drop is one call wherever a catalogue is let go.
impl Drop for Catalogue {
    fn drop(self) {
        let Catalogue {
            lists: _lists,
            spans: _spans,
        } = self;
    }
}

impl Model for Catalogue {
    ghost use Rattle.std.specs.Prelude.{List};
    ghost use Rattle.mxf_klv.specs.Parts.{NoteParts};
    ghost use Rattle.mxf_catalogue.specs.NoteLists.{AreCatalogueOf, notes_of};

    ghost Value = { List NoteParts };

    ghost view = { λ c. notes_of c.lists };

    ghost invariant = { λ c. AreCatalogueOf c.lists c.spans };
}

impl Catalogue {
    /// No note. Later calls take their memory from `alloc`.
    pub fn new(alloc: Global) -> Catalogue
        ensures { result ≡ [] }
    {
        Catalogue {
            lists: NoteLists::new(alloc),
            spans: Cover::new(alloc),
        }
    }

    /// Adds the note, which takes the place of its head if that is held. A held note, and the head of one, is
    /// `Repeated` and takes no memory.
    ///
    /// The only fault is out of memory. The note comes back and the catalogue is unchanged: all memory is taken before
    /// a note is moved.
    pub fn add(&mut self, note: Note) -> Result<Change, AddFault>
        ensures added { OnOk result (self.new ≡ reduced_with note self.old) }
        ensures repeated { (result ≡ Ok Change.Repeated) ↔ has_note self.old note }
        ensures moved { IfOk result (TellsMoved note self.old) }
        ensures fault { IfErr result (λ f. f.note ≡ note) }
        ensures err { OnErr result (self.new ≡ self.old) }
        ensures history { (h : History) → self.old ≡ content h → OnOk result (self.new ≡ content (Add h note)) }
    {
        if self.lists.end_by(note.offset()) {
            return self.append(note);
        }
        if self.lists.tell(&note) {
            return Ok(Change::Repeated);
        }
        let Ok(moved) = self.lists.make_room(&note) else {
            return Err(AddFault { note });
        };
        // What is held is a note, which ends where a packet may.
        let Ok(()) = self.spans.add(note.offset(), note.covered_end()) else {
            return Err(AddFault { note });
        };
        self.lists.put(note);
        Ok(Change::Added { moved })
    }

    /// Adds a note that begins where all others have ended, or above: it is new, goes after them and moves none.
    fn append(&mut self, note: Note) -> Result<Change, AddFault>
        requires above { (n : NoteParts) → In n self.old → end_of n ≤ note.offset }
        ensures added { OnOk result (self.new ≡ reduced_with note self.old) }
        ensures new { IfOk result (λ c. c ≡ Change.Added []) }
        ensures fault { IfErr result (λ f. f.note ≡ note) }
        ensures err { OnErr result (self.new ≡ self.old) }
    {
        let alloc = *self.lists.undisputed.allocator();
        let Ok(()) = self.lists.undisputed.reserve(1) else {
            return Err(AddFault { note });
        };
        // What is held is a note, which ends where a packet may.
        let end = note.covered_end();
        let Ok(()) = self.spans.add(note.offset(), end) else {
            return Err(AddFault { note });
        };
        self.lists.append(note);
        Ok(Change::Added {
            moved: Offsets::none(alloc),
        })
    }

    /// Moves the notes of another catalogue into this one, which then holds the notes of both. No kept value is copied.
    ///
    /// An empty catalogue takes the other as it is. Notes that stand above all of these are put after them. Otherwise
    /// the notes of both are put into new lists, in their order: one pass over both.
    ///
    /// The only fault is out of memory. The other comes back and this catalogue is unchanged: all memory is taken
    /// before a note of either is moved.
    pub fn merge(&mut self, other: Catalogue) -> Result<(), MergeFault>
        ensures merged { OnOk result (self.new ≡ reduced_union self.old other) }
        ensures err { OnErr result (self.new ≡ self.old) }
        ensures back { IfErr result (λ f. f.other ≡ other) }
        ensures history { (h k : History) → self.old ≡ content h → other ≡ content k
            → OnOk result (self.new ≡ content (Join h k)) }
    {
        if self.is_empty() {
            *self = other;
            return Ok(());
        }
        if self.lists.stand_below(&other.lists) {
            self.put_all(other)
        } else {
            self.rebuild(other)
        }
    }

    /// Puts the notes of another into the lists of this one. All room is taken before.
    fn put_all(&mut self, other: Catalogue) -> Result<(), MergeFault>
        ensures merged { OnOk result (self.new ≡ reduced_union self.old other) }
        ensures err { OnErr result (self.new ≡ self.old) }
        ensures back { IfErr result (λ f. f.other ≡ other) }
    {
        let count = other.len();
        let spans = &mut self.spans;
        let Ok(()) = spans.runs.reserve(count) else {
            return Err(MergeFault { other });
        };
        let Ok(()) = self.lists.reserve(count) else {
            return Err(MergeFault { other });
        };
        let Catalogue {
            lists: others,
            spans: _spans,
        } = other;
        let notes = MergedNotes::of(others.undisputed, others.disputed);
        self.lists.put_all(&mut spans.runs, notes);
        Ok(())
    }

    /// Puts the notes of both into new lists, in one pass over both. All room is taken before.
    fn rebuild(&mut self, other: Catalogue) -> Result<(), MergeFault>
        ensures merged { OnOk result (self.new ≡ reduced_union self.old other) }
        ensures err { OnErr result (self.new ≡ self.old) }
        ensures back { IfErr result (λ f. f.other ≡ other) }
    {
        let alloc = *self.lists.undisputed.allocator();
        let Ok(room) = Room::of(alloc, &self.lists, &other.lists) else {
            return Err(MergeFault { other });
        };
        let mut lists = room.lists;
        let mut runs = room.runs;
        let own = replace(&mut self.lists, NoteLists::new(alloc)).into_notes(room.own);
        let Catalogue {
            lists: given,
            spans: _spans,
        } = other;
        let others = given.into_notes(room.others);
        lists.put_all(&mut runs, MergedNotes::of(own, others));
        self.lists = lists;
        self.spans = Cover { runs };
        Ok(())
    }

    /// A catalogue of the notes of a content. If each begins at or above the end of the one before, their list is taken
    /// over as it is.
    fn of_notes(alloc: Global, notes: Vec<Note>) -> Result<Catalogue, OutOfMemory>
        requires catalogue { IsCatalogue notes.items }
        requires reduced { AreReduced notes.items }
        ensures { IfOk result (λ c. c ≡ notes.items) }
    {
        if are_apart(&notes) {
            return Catalogue::of_apart(alloc, notes);
        }
        let mut all = Catalogue::new(alloc);
        for note in notes {
            all.add(note)?;
        }
        Ok(all)
    }

    /// A catalogue of the notes of a content, each of which begins at or above the end of the one before.
    fn of_apart(alloc: Global, notes: Vec<Note>) -> Result<Catalogue, OutOfMemory>
        requires catalogue { IsCatalogue notes.items }
        requires reduced { AreReduced notes.items }
        requires apart { AreApart 0 notes.items }
        ensures { IfOk result (λ c. c ≡ notes.items) }
    {
        let spans = spans_of(alloc, &notes)?;
        let mut lists = NoteLists::new(alloc);
        lists.undisputed = notes;
        Ok(Catalogue { lists, spans })
    }

    /// A catalogue of equal notes, in new memory.
    fn copy(&self, alloc: Global) -> Result<Catalogue, OutOfMemory>
        ensures { IfOk result (λ c. c ≡ self.now) }
    {
        let lists = self.lists.copy(alloc)?;
        let runs = Vec::from_slice(alloc, &self.spans.runs)?;
        Ok(Catalogue {
            lists,
            spans: Cover { runs },
        })
    }

    /// The file offsets, in bytes, that some note covers: of a whole note its span, of a head its key and length alone.
    pub fn spans(&self) -> &Cover
        ensures spans { Covers result.now self.now }
        ensures catalogue { IsCatalogue self.now }
    {
        &self.spans
    }

    /// Whether the note is held: a binary search.
    pub fn holds(&self, note: &Note) -> bool
        ensures { IsTrue result ↔ In note.now self.now }
    {
        self.lists.have(note)
    }

    /// Whether the note is held, or is the head of a held one: adding it is `Repeated` then. At most two binary
    /// searches.
    pub fn has(&self, note: &Note) -> bool
        ensures { IsTrue result ↔ has_note self.now note.now }
    {
        !self.lists.end_by(note.offset()) && self.lists.tell(note)
    }

    /// The number of notes.
    pub fn len(&self) -> usize
        ensures { result ≡ length self.now }
    {
        self.lists.len()
    }

    /// Whether there is no note.
    pub fn is_empty(&self) -> bool
        ensures { IsTrue result ↔ (self.now ≡ []) }
    {
        self.len() == 0
    }

    /// The notes in their order.
    pub fn notes(&self) -> Notes<'_>
        ensures notes { result ≡ self.now }
        ensures catalogue { IsCatalogue self.now }
        ensures reduced { AreReduced self.now }

        // A count of them fits.
        ensures bound { length result < 2 ^ 64 }
    {
        Notes::of(&self.lists.undisputed, &self.lists.disputed)
    }

    /// A law of each catalogue: its notes are a reduced content, its clear notes stand apart, and a count of either
    /// fits.
    pub fn laws(&self)
        ensures catalogue { IsCatalogue self.now }
        ensures reduced { AreReduced self.now }
        ensures apart { AreApart 0 (clear_notes self.now) }
        ensures bound { length self.now < 2 ^ 64 }
        ensures clear_bound { length (clear_notes self.now) < 2 ^ 64 }
    {
        let _ = self.notes();
        let _ = self.clear();
    }

    /// The clear notes in their order: those of whole packets that share no byte with another note. A head that nothing
    /// touches isn't clear. It takes no memory.
    pub fn clear(&self) -> ClearNotes<'_>
        ensures notes { result ≡ clear_notes self.now }
        ensures apart { AreApart 0 result }
        ensures bound { length result < 2 ^ 64 }
    {
        ClearNotes::of(&self.lists.undisputed)
    }

    /// The notes that share no byte with another, in their order: the clear notes, and the heads that nothing touches.
    /// It takes no memory.
    pub fn undisputed(&self) -> Notes<'_>
        ensures notes { result ≡ undisputed_notes self.now }
        ensures bound { length result < 2 ^ 64 }
    {
        Notes::of(&self.lists.undisputed, &[])
    }

    /// The clear notes whose packets lie wholly in the range of `bytes` bytes from `start` on, in their order: two
    /// binary searches. The range may go on beyond all offsets.
    pub fn clear_within(&self, start: u64, bytes: u64) -> ClearNotes<'_>
        ensures notes { result ≡ filter (lies_in start bytes) (clear_notes self.now) }
        ensures apart { AreApart 0 result }
        ensures catalogue { IsCatalogue self.now }
        ensures bound { length result < 2 ^ 64 }
    {
        ClearNotes::of(within(&self.lists.undisputed, start, bytes))
    }

    /// The clear notes that share a byte with the note, in their order: two binary searches. If the catalogue hasn't
    /// the note ([`Catalogue::has`]), they are those that adding it moves.
    pub fn clear_touching(&self, note: &Note) -> ClearNotes<'_>
        ensures notes { result ≡ touching note.now (clear_notes self.now) }
        ensures apart { AreApart 0 result }
        ensures catalogue { IsCatalogue self.now }
        ensures bound { length result < 2 ^ 64 }
    {
        ClearNotes::of(touched(&self.lists.undisputed, note))
    }

    /// The disputed notes in their order, each with how it is disputed. It takes no memory.
    pub fn disputed(&self) -> DisputedNotes<'_>
        ensures notes { result ≡ disputed_notes self.now }
        ensures bound { length result < 2 ^ 64 }
    {
        DisputedNotes::of(&self.lists.disputed)
    }

    /// Whether the note is held and disputed: a binary search.
    pub fn disputes(&self, note: &Note) -> bool
        ensures { IsTrue result ↔ (In note.now self.now × IsDisputed note.now self.now) }
    {
        is_in(&self.lists.disputed, note)
    }

    /// The greatest end of a note, in bytes, a head's claimed end too; 0 if there is no note.
    pub fn end(&self) -> u64
        ensures { (bound : ℕ) → result ≤ bound ↔ ((n : NoteParts) → In n self.now → end_of n ≤ bound) }
    {
        self.lists.end()
    }

    /// The clear note with this file offset, in bytes: a binary search.
    pub fn clear_at(&self, offset: u64) -> Option<&Note>
        ensures first { option_copied result ≡ find (λ n. n.offset == offset) (clear_notes self.now) }

        // The same by the definition of a clear note.
        ensures found { IfSome result (λ n. IsClear n.now self.now × (n.now.offset ≡ offset)) }
        ensures none { IfNone result ((n : NoteParts) → IsClear n self.now → n.offset ≢ offset) }
    {
        let note = at_offset(&self.lists.undisputed, offset)?;
        if note.is_head() { None } else { Some(note) }
    }

    /// The note with this file offset, in bytes, that shares no byte with another: a clear note, or a head. It is a
    /// binary search.
    pub fn undisputed_at(&self, offset: u64) -> Option<&Note>
        ensures first { option_copied result ≡ find (λ n. n.offset == offset) (undisputed_notes self.now) }
    {
        at_offset(&self.lists.undisputed, offset)
    }
}

/// Whether each of the notes begins at or above the end of the one before.
fn are_apart(notes: &[Note]) -> bool
    ensures { IsTrue result → AreApart 0 notes.now }
{
    let mut end = 0;
    for note in notes {
        if note.offset() < end {
            return false;
        }
        end = note.end();
    }
    true
}

/// The file offsets, in bytes, that some of the notes covers.
fn spans_of(alloc: Global, notes: &[Note]) -> Result<Cover, OutOfMemory>
    ensures { IfOk result (λ c. Covers c notes.now) }
{
    let mut spans = Cover::new(alloc);
    for note in notes {
        // What is held is a note, which ends where a packet may.
        spans.add(note.offset(), note.covered_end())?;
    }
    Ok(spans)
}

impl Semilattice for Catalogue {
    type Member = Note;

    ghost use Rattle.mxf_catalogue.specs.Content.{has_note, reduced_union, reduced_union-IsUnion};
    ghost use Rattle.mxf_catalogue.specs.Joins.{SameContent, joined_assoc, joined_comm, joined_idem};

    ghost has = { has_note };

    ghost joined = { reduced_union };

    ghost equal = { SameContent has_note };

    ghost is_union = { reduced_union-IsUnion };

    ghost is_equality = { λ a b. (λ h. h, λ h. h) };

    ghost associative = { joined_assoc has_note reduced_union reduced_union-IsUnion };

    ghost commutative = { joined_comm has_note reduced_union reduced_union-IsUnion };

    ghost idempotent = { joined_idem has_note reduced_union reduced_union-IsUnion };

    fn join(alloc: Global, a: &Catalogue, b: &Catalogue) -> Result<Catalogue, OutOfMemory>
        ensures joined { IfOk result (λ c. c ≡ reduced_union a.now b.now) }
        ensures history { (h k : History) → a.now ≡ content h → b.now ≡ content k
            → IfOk result (λ c. c ≡ content (Join h k)) }
    {
        let mut all = a.copy(alloc)?;
        all.merge(b.copy(alloc)?)?;
        Ok(all)
    }

    fn same(&self, other: &Catalogue) -> bool
        ensures members { IsTrue result ↔ SameContent has_note self.now other.now }
        ensures list { IsTrue result ↔ (self.now ≡ other.now) }
    {
        self.lists.undisputed == other.lists.undisputed
            && self.lists.disputed == other.lists.disputed
    }
}

/// A law of [`Catalogue::undisputed`]: they are those of the notes that share no byte with another, in the order of
/// notes.
pub fn undisputed_notes_by_definition()
    ensures members { (n : NoteParts) (notes : List NoteParts)
        → In n (undisputed_notes notes) ↔ (In n notes × ¬ IsDisputed n notes) }
    ensures rising { (notes : List NoteParts) → IsContent notes → IsContent (undisputed_notes notes) }
{}

/// A law: a content is its set of notes, and [`add`](Catalogue::add) and [`join`](Semilattice::join) are by these sets,
/// reduced: without the heads whose four fields are those of a note of a whole packet.
pub fn contents_are_sets()
    ensures one { (a b : List NoteParts) → IsContent a → IsContent b → SameMembers a b → a ≡ b }
    ensures with_note { (m n : NoteParts) (notes : List NoteParts) → In m (with_note n notes) ↔ (m ≡ n) ⊎ In m notes }
    ensures union { (n : NoteParts) (a b : List NoteParts) → In n (union_of a b) ↔ In n a ⊎ In n b }
    ensures replaced { (n : NoteParts) (notes : List NoteParts) → IsNote n → AllByRecursion IsNote notes
        → IsReplaced n notes ↔ ((n.whole ≡ false) × ((m : NoteParts) × In m notes × IsOfPacket m n)) }
    ensures reduced { (n : NoteParts) (notes : List NoteParts)
        → In n (reduced notes) ↔ (In n notes × (IsReplaced n notes → ⊥)) }
    ensures reduced_before { (a b : List NoteParts) → IsContent a → IsContent b
        → reduced (union_of a b) ≡ reduced (union_of (reduced a) (reduced b)) }
    ensures reduced_union { (a b : List NoteParts) → IsContent a → AreReduced a
        → reduced_union a b ≡ reduced (union_of a b) }
    ensures reduced_with_rises { (n : NoteParts) (notes : List NoteParts)
        → IsContent notes → IsContent (reduced_with n notes) }
    ensures reduced_union_rises { (a b : List NoteParts) → IsContent a → IsContent (reduced_union a b) }
{}
