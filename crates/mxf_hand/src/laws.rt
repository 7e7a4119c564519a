//! The laws of what is put together: functions that do nothing, whose clauses hold of all values.
ghost use Rattle.std.specs.Prelude.{◌≡◌, ◌≢◌, ◌↔◌, ◌⊎◌, ◌<◌, ℕ, suc, List};
ghost use Rattle.mxf_klv.specs.Parts.{NoteParts, PacketParts};
ghost use Rattle.mxf_klv.specs.Piece.{notes_from};
ghost use Rattle.mxf_klv.specs.Rising.{In, SameMembers};
ghost use Rattle.mxf_catalogue.specs.Content.{AreReduced, IsContent, has_note, reduced_union};
ghost use Rattle.mxf_catalogue.specs.Covers.{IsCover};
ghost use Rattle.mxf_catalogue.specs.Disputes.{IsClear};
ghost use Rattle.mxf_catalogue.specs.History.{Hands, History, content};
ghost use Rattle.mxf_views.specs.WellFormed.{IsWellFormed};
ghost use Rattle.mxf_skim.specs.declared.scan.Scan.{Scan};
ghost use Rattle.mxf_skim.specs.declared.scan.Scan.TheVariants.{Full};
ghost use Rattle.mxf_hand.specs.Excerpts.{AreExcerptsBeside, HaveBytes, MayBeAsked};
ghost use Rattle.mxf_hand.specs.Given.{HaveExtents, IsAtHand, IsGiven, IsGivenAs, SourceParts};
ghost use Rattle.mxf_hand.specs.declared.given.Extent.{Extent};
ghost use Rattle.mxf_hand.specs.declared.given.excerpt.Excerpt.{Excerpt};
ghost use Rattle.mxf_hand.specs.File.{AreBytesOfFile, AreOfFile, BeginAtPackets, HeadsHaveValues, IsAllAtHand};
ghost use Rattle.mxf_hand.specs.Hand.{AreOf, HandBytes};
ghost use Rattle.mxf_hand.specs.Rounds.{put_together, round, rounds, taken_in};
ghost use Rattle.mxf_hand.specs.Taken.{IsTaken};
ghost use Rattle.mxf_restore.specs.Sections.{sections_of};

pub use crate::settling::whole_stops_by_definition;

/// A law of [`put_together`](crate::put_together): it is a function of the content, of the set of sources and of the
/// scan. The order and the repeats of sources don't matter, nor does it which of those that give a byte is read.
pub fn one_content_of_sources()
    ensures order { (some others : List SourceParts) (h : HandBytes) → SameMembers some others → AreOf some h
        → AreOf others h }
    ensures one { (sources : List SourceParts) (h k : HandBytes) (notes : List NoteParts) → AreOf sources h
        → AreOf sources k → h.scan ≡ k.scan → put_together h notes ≡ put_together k notes }
{}

/// A law of [`put_together`](crate::put_together): all that is held stays, a head unless its packet takes its place.
pub fn what_is_held_stays()
    ensures { (h : HandBytes) (notes : List NoteParts) (n : NoteParts) → has_note notes n
        → has_note (put_together h notes) n }
{}

/// A law of [`put_together`](crate::put_together): what is clear stays clear, so no partition, set, segment or pack
/// goes out of a view.
pub fn what_is_clear_stays_clear()
    ensures { (h : HandBytes) (notes : List NoteParts) (n : NoteParts) → IsContent notes → AreReduced notes
        → IsClear n notes → IsClear n (put_together h notes) }
{}

/// A law of [`put_together`](crate::put_together): if what is held and the bytes at hand are a file's, all values are
/// read, and what packs say of places is right in each round, what is put together is of that file.
pub fn only_packets_of_the_file()
    ensures { (packets : List PacketParts) (h : HandBytes) (notes : List NoteParts) → AreBytesOfFile packets h
        → AreOfFile packets notes → ((count : ℕ) → BeginAtPackets packets (rounds count h notes))
        → AreOfFile packets (put_together h notes) }
{}

/// A law of [`put_together`](crate::put_together): if what is held and the bytes at hand are a well-formed file's, all
/// values are read, each of its bytes is at hand, and what packs say of places is right, the whole file is put
/// together: what is held then are the notes of all its packets. Heads that are held are of packets with a value: no
/// reading notes others.
pub fn the_whole_file_is_put_together()
    ensures { (packets : List PacketParts) (h : HandBytes) (notes : List NoteParts) → IsWellFormed packets
        → AreBytesOfFile packets h → IsAllAtHand packets h → IsContent notes → AreReduced notes
        → AreOfFile packets notes → HeadsHaveValues notes → BeginAtPackets packets notes
        → put_together h notes ≡ notes_from 0 packets }
{}

/// A law of [`put_together`](crate::put_together): a round adds exactly what is taken of the sections of the holes of
/// what is held. Premises: what is held is a content, and the offsets at hand are a cover.
pub fn rounds_by_definition()
    ensures taken { (h : HandBytes) (notes : List NoteParts) (n : NoteParts) → IsContent notes → IsCover h.runs
        → In n (taken_in h notes (sections_of notes)) ↔ IsTaken h notes n }
    ensures round { (h : HandBytes) (notes : List NoteParts)
        → round h notes ≡ reduced_union notes (taken_in h notes (sections_of notes)) }
{}

/// A law of [`put_together`](crate::put_together): after it one more round changes nothing, or each of its 64 rounds
/// changed something.
pub fn rounds_close()
    ensures { (h : HandBytes) (notes : List NoteParts) → (round h (put_together h notes) ≡ put_together h notes)
        ⊎ ((k : ℕ) → k < 64 → rounds (suc k) h notes ≢ rounds k h notes) }
{}

/// A law of [`put_together`](crate::put_together): if one more round changes nothing, what was put together, saved and
/// handed in beside the same sources, changes nothing either.
pub fn saved_beside_its_sources()
    ensures { (h : HandBytes) (notes : List NoteParts) → IsContent notes → AreReduced notes
        → round h (put_together h notes) ≡ put_together h notes
        → put_together h (reduced_union notes (put_together h notes)) ≡ put_together h notes }
{}

/// A law of [`put_together`](crate::put_together): it leaves what some history of calls leaves that was handed all that
/// was handed before, so what is said of histories is said of it.
pub fn put_together_is_a_history()
    ensures { (h : HandBytes) (before : History) → (after : History)
        × (content after ≡ put_together h (content before)) × ((n : NoteParts) → Hands before n → Hands after n) }
{}

/// A law of [`excerpts`](crate::excerpts): excerpts give what their sources give, at each offset that these give. An
/// offset that may be asked for is at hand in excerpts exactly if it is in the sources; of a reading each offset is.
pub fn excerpts_are_at_hand_as_their_sources()
    ensures source { (scan : Scan) (notes : List NoteParts) (extents : List Extent) (excerpts : List Excerpt)
        (sources parts : List SourceParts) (x byte : ℕ) → HaveExtents sources extents
        → AreExcerptsBeside scan notes extents excerpts → HaveBytes sources parts excerpts → IsGivenAs parts x byte
        → IsGivenAs sources x byte }
    ensures given { (scan : Scan) (notes : List NoteParts) (extents : List Extent) (excerpts : List Excerpt)
        (sources parts : List SourceParts) (x : ℕ) → HaveExtents sources extents
        → AreExcerptsBeside scan notes extents excerpts → HaveBytes sources parts excerpts → IsGiven sources x
        → IsGiven parts x }
    ensures asked { (scan : Scan) (notes : List NoteParts) (extents : List Extent) (excerpts : List Excerpt)
        (sources parts : List SourceParts) (x : ℕ) → HaveExtents sources extents
        → AreExcerptsBeside scan notes extents excerpts → HaveBytes sources parts excerpts → MayBeAsked notes x
        → IsAtHand parts x ↔ IsAtHand sources x }
    ensures all { (notes : List NoteParts) (extents : List Extent) (excerpts : List Excerpt)
        (sources parts : List SourceParts) (x : ℕ) → HaveExtents sources extents
        → AreExcerptsBeside Full notes extents excerpts → HaveBytes sources parts excerpts
        → IsAtHand parts x ↔ IsAtHand sources x }
{}
