//! The disputed notes of a catalogue: those that share a byte with another.
ghost use Rattle.std.specs.Prelude.{◌≡◌, ◌↔◌, ◌⊎◌, ◌^◌, ◌<◌, List, filter, length, map, IsTrue};
ghost use Rattle.std.specs.Iterator.{YieldsFirst, item_count};
ghost use Rattle.mxf_klv.specs.Parts.{NoteParts};
ghost use Rattle.mxf_klv.specs.Rising.{In};
ghost use Rattle.mxf_catalogue.specs.Content.{IsContent};
ghost use Rattle.mxf_catalogue.specs.Disputes.{SharesByte, SharesOffset, Overlaps, IsDisputed, IsClear, DisputedParts};
ghost use Rattle.mxf_catalogue.specs.Disputes.{IsDisputedOf, disputed_parts, is_byte_shared, is_offset_shared};
ghost use Rattle.mxf_catalogue.specs.Disputes.{is_overlapped, is_disputed, disputed_notes};
ghost use Rattle.mxf_catalogue.specs.Reach.{StandsIn};

use super::placing::starting_below;
use mxf_klv::Note;
use std::marker::Model;

/// A disputed note: another note of the catalogue shares a byte with it.
///
/// In one file packets lie one after another. So of two notes that share a byte at least one isn't of this file, or is
/// of an earlier state of it: a header that was rewritten in place, a source with a wrong offset, bytes of another
/// file. The catalogue keeps both, since nothing in them says which is right.
#[derive(Debug, Drop)]
pub struct Disputed<'a> {
    pub note: &'a Note,
    /// Another note has its offset.
    pub same_offset: bool,
    /// A note with a different offset shares a byte with it.
    pub overlaps: bool,
}

impl<'a> Model for Disputed<'a> {
    ghost use Rattle.mxf_catalogue.specs.Disputes.{DisputedParts};

    ghost Value = { DisputedParts };

    ghost view = { λ d. record { note = d.note.now; same_offset = d.same_offset; overlaps = d.overlaps } };
}

/// The disputed notes of a catalogue that are left, in their order.
///
/// How a note is disputed is found from its neighbours, by binary search, and from how far the notes before it reach.
#[derive(Drop)]
pub struct DisputedNotes<'a> {
    all: &'a [Note],
    left: &'a [Note],
    /// The offset after that of the last note that was passed, in bytes; 0 before the first.
    above: u64,
    /// The greatest end, in bytes, of the passed notes with lower offsets than the last.
    lower: u64,
    /// The greatest end, in bytes, of all passed notes.
    reached: u64,
}

impl<'a> Model for DisputedNotes<'a> {
    ghost use Rattle.std.specs.Prelude.{List, map};
    ghost use Rattle.mxf_catalogue.specs.Disputes.{DisputedParts, disputed_parts};
    ghost use Rattle.mxf_catalogue.specs.Reach.{IsLeft};

    ghost Value = { List DisputedParts };

    ghost view = { λ s. map (λ n. disputed_parts n s.all.now) s.left.now };

    ghost invariant = { λ s. IsLeft s.all.now s.left.now s.above s.lower s.reached };
}

impl<'a> DisputedNotes<'a> {
    pub(super) fn of(notes: &'a [Note]) -> DisputedNotes<'a>
        requires { IsContent notes.now }
        ensures notes { result ≡ map (λ n. disputed_parts n notes.now) notes.now }
        ensures bound { length result < 2 ^ 64 }
    {
        DisputedNotes {
            all: notes,
            left: notes,
            above: 0,
            lower: 0,
            reached: 0,
        }
    }
}

impl<'a> Iterator for DisputedNotes<'a> {
    type Item = Disputed<'a>;

    ghost next_gives = { YieldsFirst (λ s. s) };

    ghost remaining = { item_count (λ s. s) };

    fn next(&mut self) -> Option<Disputed<'a>> {
        let (note, left) = self.left.split_first()?;
        let lower = if note.offset() < self.above {
            self.lower
        } else {
            self.reached
        };
        let disputed = mark(note, self.all, left, self.above, lower);
        self.left = left;
        self.above = note.offset() + 1;
        self.lower = lower;
        self.reached = self.reached.max(note.end());
        Some(disputed)
    }
}

/// How a note that stands in a content before those that are left is disputed: `above` is the offset after that of the
/// note before it, and `lower` the greatest end of the notes with lower offsets than its own.
fn mark<'a>(note: &'a Note, _all: &[Note], left: &[Note], above: u64, lower: u64) -> Disputed<'a>
    requires { StandsIn note.now _all.now left.now above lower }
    ensures { result ≡ disputed_parts note.now _all.now }
{
    let at = starting_below(left, note.offset() + 1);
    let to = starting_below(left, note.end());
    Disputed {
        note,
        same_offset: (note.offset() < above) | (0 < at),
        overlaps: (note.offset() < lower) | (at < to),
    }
}

/// A law of [`Catalogue::disputed`](crate::Catalogue::disputed): its list has exactly the disputed notes, in their
/// order, each with marks that hold exactly if their relations do.
pub fn disputed_notes_by_definition()
    ensures members { (d : DisputedParts) (notes : List NoteParts)
        → In d (disputed_notes notes) ↔ IsDisputedOf d notes }
    ensures sublist { (notes : List NoteParts)
        → map (λ d. d.note) (disputed_notes notes) ≡ filter (λ n. is_disputed n notes) notes }
    ensures order { (notes : List NoteParts) → IsContent notes → IsContent (map (λ d. d.note) (disputed_notes notes)) }
{}

/// A law: a note is disputed exactly if another has its offset, or one with a different offset shares a byte.
pub fn notes_are_disputed_in_two_ways()
    ensures { (n : NoteParts) (notes : List NoteParts) → IsDisputed n notes ↔ SharesOffset n notes ⊎ Overlaps n notes }
{}

/// A law: each note of a whole packet is clear or disputed, and none is both. A head is disputed, or neither.
pub fn notes_are_clear_or_disputed()
    ensures one { (n : NoteParts) (notes : List NoteParts) → In n notes → IsTrue n.whole
        → IsClear n notes ⊎ IsDisputed n notes }
    ensures not_both { (n : NoteParts) (notes : List NoteParts) → IsClear n notes → IsDisputed n notes → ⊥ }
{}

/// A law: the tests of disputes say what the relations say.
pub fn disputes_by_tests()
    ensures byte { (m n : NoteParts) → IsTrue (is_byte_shared m n) ↔ SharesByte m n }
    ensures same_offset { (n : NoteParts) (notes : List NoteParts)
        → IsTrue (is_offset_shared n notes) ↔ SharesOffset n notes }
    ensures overlaps { (n : NoteParts) (notes : List NoteParts) → IsTrue (is_overlapped n notes) ↔ Overlaps n notes }
    ensures disputed { (n : NoteParts) (notes : List NoteParts) → IsTrue (is_disputed n notes) ↔ IsDisputed n notes }
{}
