//! Laws of looking fragments up.
ghost use Rattle.std.specs.Prelude.{◌≡◌, ◌↔◌, ◌≤◌, IsTrue, List, Option, Some, length, ℕ, pos, ◌-ℤ◌};
ghost use Rattle.mxf_klv.specs.Note.{IsNote, greatest_end};
ghost use Rattle.mxf_klv.specs.Parts.{NoteParts};
ghost use Rattle.mxf_klv.specs.Rising.{In};
ghost use Rattle.mxf_catalogue.specs.Content.{AreReduced, IsCatalogue};
ghost use Rattle.mxf_find.specs.Found.{IsFound, offset_of};
ghost use Rattle.mxf_find.specs.Telling.{IsTellingByLength, IsTellingByValue, tells_by_length, tells_by_value};
ghost use Rattle.mxf_find.specs.Votes.{FragmentParts, IsMostVoted, place, shift, votes};
ghost use Rattle.mxf_find.specs.Wholly.{LiesWholly};
ghost use Rattle.mxf_find.specs.declared.found.Match.{Match};

pub use crate::found::one_match;
pub use crate::ranking::rankings_by_definition;

/// A law of votes: which notes tell is by the fields of the notes beside them.
pub fn telling_by_definition()
    ensures by_value { (n : NoteParts) (notes : List NoteParts) → IsCatalogue notes → In n notes
        → IsTrue (tells_by_value notes n) ↔ IsTellingByValue n notes }
    ensures by_length { (n : NoteParts) (notes : List NoteParts) → IsCatalogue notes → In n notes
        → IsTrue (tells_by_length notes n) ↔ IsTellingByLength n notes }
{}

/// A law of votes: one number at most has the most votes and is the least of those that have as many.
pub fn one_most_voted()
    ensures { (votes : List ℕ) (a b : ℕ) → IsMostVoted votes a → IsMostVoted votes b → a ≡ b }
{}

/// A law of [`Match`](crate::Match): its offset is that of a note of the recording less the place of the fragment's
/// note that votes by it.
pub fn shifts_are_offsets()
    ensures { (f : FragmentParts) (p n : NoteParts) → place f p ≤ greatest_end
        → offset_of (shift f p n) ≡ pos n.offset -ℤ pos (place f p) }
{}

/// A law of [`find`](crate::find): a recording without heads has the packet of each note of a fragment, where one shift
/// moves it, and one of these tells there. Then all votes are for that shift, and all notes of the fragment agree.
pub fn whole_fragments_are_found()
    ensures votes { (f : FragmentParts) (recording : List NoteParts) (at : ℕ) → IsCatalogue f.notes → AreReduced f.notes
        → IsCatalogue recording → LiesWholly f recording at → (v : ℕ) → In v (votes f recording) → v ≡ at }
    ensures found { (f : FragmentParts) (recording : List NoteParts) (at : ℕ) → IsCatalogue f.notes → AreReduced f.notes
        → IsCatalogue recording → LiesWholly f recording at → (found : Option Match) → IsFound f recording found
        → (m : Match) × (found ≡ Some m) × (m.offset ≡ offset_of at) × (m.agree ≡ length f.notes) }
{}
