//! An earlier content, renewed by a later reading.
ghost use Rattle.std.specs.Prelude.{◌≡◌, ◌↔◌, ◌⊎◌, ◌+◌, ◌++◌, ◌∷◌, ◌<◌, ◌^◌, [], IfOk, IsTrue, List, OnOk, filter};
ghost use Rattle.std.specs.Prelude.{length, map};
ghost use Rattle.mxf_klv.specs.Parts.{NoteParts};
ghost use Rattle.mxf_klv.specs.Rising.{In};
ghost use Rattle.mxf_catalogue.specs.Content.{AreReduced, IsContent, IsLocated, has_note, reduced_union};
ghost use Rattle.mxf_verify.specs.Comparing.{SharesHeldByte};
ghost use Rattle.mxf_verify.specs.Opposing.{IsContradicted};
ghost use Rattle.mxf_verify.specs.Renewing.{IsDropped, IsKept, IsOfAnother, added_of, dropped_essence, dropped_of};
ghost use Rattle.mxf_verify.specs.Renewing.{had_essence, is_essence, is_of_another, kept_of, renewed_of};

use crate::opposing::Opposing;
use mxf_catalogue::Catalogue;
use mxf_klv::{Kind, Note, OutOfMemory};
use std::alloc::Global;
use std::marker::Model;

/// A note of an earlier catalogue that a renewal dropped.
#[derive(Clone, Copy, Debug)]
pub struct DroppedNote<'a> {
    pub note: &'a Note,
}

/// The notes of an earlier catalogue that a renewal dropped, in their order.
#[derive(Drop)]
pub struct DroppedNotes<'a> {
    items: Vec<DroppedNote<'a>>,
}

impl<'a> Model for DroppedNotes<'a> {
    ghost use Rattle.std.specs.Prelude.{List, map};
    ghost use Rattle.mxf_klv.specs.Parts.{NoteParts};

    ghost Value = { List NoteParts };

    ghost view = { λ d. map (λ n. n.note.now) d.items.items };
}

impl<'a> DroppedNotes<'a> {
    /// No note.
    fn new(alloc: Global) -> DroppedNotes<'a>
        ensures { result ≡ [] }
    {
        DroppedNotes {
            items: Vec::new(alloc),
        }
    }

    /// Puts a note after the others.
    fn push(&mut self, note: &'a Note) -> Result<(), OutOfMemory>
        ensures { OnOk result (self.new ≡ self.old ++ note.now ∷ []) }
    {
        self.items.push(DroppedNote { note })?;
        Ok(())
    }

    /// The number of notes.
    pub fn len(&self) -> usize
        ensures { result ≡ length self.now }
    {
        self.items.len()
    }

    /// The notes.
    pub fn as_slice(&self) -> &[DroppedNote<'a>]
        ensures { map (λ n. n.note.now) result.now ≡ self.now }
    {
        self.items.as_slice()
    }
}

/// What a renewal gives: the renewed catalogue, and the notes of the earlier one that were dropped.
pub struct Renewed<'a> {
    pub catalogue: Catalogue,
    pub dropped: DroppedNotes<'a>,
    /// More packets of essence are dropped than the later reading has of the earlier ones: it is of another recording,
    /// or has a wrong offset. Who writes a recording rewrites packs, sets and fills in place, and no essence.
    pub is_of_another: bool,
}

// Written out, a drop is one call wherever what was renewed is let go.
impl Drop for Renewed<'_> {
    fn drop(self) {
        let Renewed {
            catalogue: _catalogue,
            dropped: _dropped,
            is_of_another: _,
        } = self;
    }
}

/// Renews an earlier catalogue by a later reading, whose bytes are the newer ones: those notes of the earlier one stay
/// that no note of the later one contradicts.
///
/// In one file packets lie one after another. So of two notes that both hold a byte, and of which neither is the head
/// of the other, one is of an earlier state of the file, or has a wrong offset. A join keeps both; a renewal knows
/// which was read later. It also says whether the later reading is of another recording.
///
/// The notes that stay are copied, which takes memory. Each note of the earlier catalogue is looked up by binary
/// search.
pub fn renew<'a>(
    alloc: Global,
    old: &'a Catalogue,
    new: Catalogue,
) -> Result<Renewed<'a>, OutOfMemory>
    ensures catalogue { IfOk result (λ r. r.catalogue ≡ renewed_of old.now new) }
    ensures dropped { IfOk result (λ r. r.dropped ≡ dropped_of old.now new) }
    ensures another { IfOk result (λ r. r.is_of_another ≡ is_of_another old.now new) }
{
    new.laws();
    let Parted {
        added,
        dropped,
        dropped_essence,
        had_essence,
    } = part(alloc, old, &new)?;
    let mut catalogue = new;
    catalogue.merge(added)?;
    Ok(Renewed {
        catalogue,
        dropped,
        is_of_another: had_essence < dropped_essence,
    })
}

/// The notes of an earlier catalogue that a later one hasn't: those that it contradicts, and the others.
#[derive(Drop)]
struct Parted<'a> {
    added: Catalogue,
    dropped: DroppedNotes<'a>,
    /// How many of those that it contradicts are of essence.
    dropped_essence: u64,
    /// How many notes of essence it has.
    had_essence: u64,
}

/// Parts the notes of an earlier catalogue by what a later one says of them.
fn part<'a>(alloc: Global, old: &'a Catalogue, new: &Catalogue) -> Result<Parted<'a>, OutOfMemory>
    ensures added { IfOk result (λ p. p.added ≡ added_of old.now new.now) }
    ensures dropped { IfOk result (λ p. p.dropped ≡ dropped_of old.now new.now) }
    ensures dropped_essence { IfOk result (λ p. p.dropped_essence ≡ length (dropped_essence old.now new.now)) }
    ensures had_essence { IfOk result (λ p. p.had_essence ≡ length (had_essence old.now new.now)) }
{
    let opposing = Opposing::of(alloc, new)?;
    let mut parted = Parted {
        added: Catalogue::new(alloc),
        dropped: DroppedNotes::new(alloc),
        dropped_essence: 0,
        had_essence: 0,
    };
    for note in old.notes() {
        parted.put(alloc, note, &opposing)?;
    }
    Ok(parted)
}

impl<'a> Parted<'a> {
    /// Puts a note of the earlier catalogue where it belongs by what the later one says of it.
    fn put(
        &mut self,
        alloc: Global,
        note: &'a Note,
        later: &Opposing<'_>,
    ) -> Result<(), OutOfMemory>
        requires dropped { self.old.dropped_essence + 1 < 2 ^ 64 }
        requires had { self.old.had_essence + 1 < 2 ^ 64 }
        ensures added { OnOk result (self.new.added ≡ reduced_union self.old.added (added_of (note.now ∷ []) later.now)) }
        ensures dropped { OnOk result (self.new.dropped ≡ self.old.dropped ++ dropped_of (note.now ∷ []) later.now) }
        ensures dropped_essence { OnOk result (self.new.dropped_essence
            ≡ self.old.dropped_essence + length (dropped_essence (note.now ∷ []) later.now)) }
        ensures had_essence { OnOk result (self.new.had_essence
            ≡ self.old.had_essence + length (had_essence (note.now ∷ []) later.now)) }
    {
        if later.opposes(note) {
            self.dropped_essence += count_of_essence(note);
            return self.dropped.push(note);
        }
        if later.has(note) {
            self.had_essence += count_of_essence(note);
            return Ok(());
        }
        self.added.add(note.clone_in(alloc)?)?;
        Ok(())
    }
}

/// 1 for a note of essence, 0 for another.
fn count_of_essence(note: &Note) -> u64
    ensures { result ≡ length (filter is_essence (note.now ∷ [])) }
{
    u64::from(note.kind() == Kind::Essence)
}

/// A law of [`renew`]: what is dropped and what is kept is by the relations, and the renewed content has the located
/// packets of what was read anew and what is kept.
pub fn renewals_by_definition()
    ensures dropped { (n : NoteParts) (old new : List NoteParts) → In n (dropped_of old new) ↔ IsDropped old new n }
    ensures kept { (n : NoteParts) (old new : List NoteParts) → In n (kept_of old new) ↔ IsKept old new n }
    ensures members { (n : NoteParts) (old new : List NoteParts) → AreReduced new
        → In n (renewed_of old new) ↔ IsLocated (λ m. In m new ⊎ IsKept old new m) n }
    ensures dropped_rises { (old new : List NoteParts) → IsContent old → IsContent (dropped_of old new) }
    ensures renewed_rises { (old new : List NoteParts) → IsContent new → IsContent (renewed_of old new) }
    ensures reduced { (old new : List NoteParts) → AreReduced new → AreReduced (renewed_of old new) }
{}

/// A law of [`renew`]: each note that was read anew is had, and nothing stays that it contradicts.
pub fn renewals_have_what_was_read_anew()
    ensures had { (n : NoteParts) (old new : List NoteParts) → In n new → has_note (renewed_of old new) n }
    ensures free { (n : NoteParts) (old new : List NoteParts) → AreReduced new → In n (renewed_of old new)
        → (has_note new n → ⊥) → IsContradicted n new → ⊥ }
{}

/// A law of [`renew`]: each earlier note stays or is dropped, and not both. A note of whose bytes nothing was read anew
/// stays.
pub fn renewals_drop_what_was_read_anew()
    ensures stays { (n : NoteParts) (old new : List NoteParts) → In n old
        → ((m : NoteParts) → In m new → SharesHeldByte m n → ⊥) → has_note (renewed_of old new) n }
    ensures dropped { (n : NoteParts) (old new : List NoteParts) → IsDropped old new n
        → (m : NoteParts) × In m new × SharesHeldByte m n }
    ensures one { (n : NoteParts) (old new : List NoteParts) → In n old
        → has_note (renewed_of old new) n ⊎ IsDropped old new n }
    ensures not_both { (n : NoteParts) (old new : List NoteParts) → AreReduced old → has_note (renewed_of old new) n
        → IsDropped old new n → ⊥ }
{}

/// A law of [`renew`]: if nothing is dropped, the renewed content is the join of both. To renew it by the same reading
/// changes and drops nothing. An empty content is renewed to what was read, and if nothing was read, nothing changes.
pub fn renewals_join_what_agrees()
    ensures joined { (old new : List NoteParts) → IsContent old → AreReduced old → IsContent new → AreReduced new
        → dropped_of old new ≡ [] → renewed_of old new ≡ reduced_union old new }
    ensures again { (old new : List NoteParts) → IsContent new → AreReduced new
        → renewed_of (renewed_of old new) new ≡ renewed_of old new }
    ensures none_again { (old new : List NoteParts) → AreReduced new → dropped_of (renewed_of old new) new ≡ [] }
    ensures into_nothing { (new : List NoteParts) → renewed_of [] new ≡ new }
    ensures by_nothing { (old : List NoteParts) → IsContent old → AreReduced old → renewed_of old [] ≡ old }
{}

/// A law of [`renew`]: a later reading is of another recording if more of the earlier notes of essence are dropped than
/// it has. What is dropped of other kinds doesn't count.
pub fn other_recordings_by_definition()
    ensures { (old new : List NoteParts) → IsContent old → IsTrue (is_of_another old new) ↔ IsOfAnother old new }
{}
