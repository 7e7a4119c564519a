//! The laws of references beside sources, of renewals and of fixities: functions that do nothing, whose clauses hold of
//! all values.
ghost use Rattle.std.specs.Prelude.{◌≡◌, ◌↔◌, ◌⊎◌, ◌+◌, ◌++◌, ◌<◌, ◌≤◌, [], ◌∷◌, ℕ, IsTrue, List, drop, length, map};
ghost use Rattle.sha2.specs.Sha256.{sha256};
ghost use Rattle.mxf_klv.specs.Bytes.{AreBytes};
ghost use Rattle.mxf_klv.specs.Note.{IsCovered, greatest_end};
ghost use Rattle.mxf_klv.specs.Parts.{NoteParts};
ghost use Rattle.mxf_klv.specs.PieceReading.{notes_in, stop_in};
ghost use Rattle.mxf_klv.specs.Rising.{In, SameMembers};
ghost use Rattle.mxf_klv.specs.declared.piece.Stop.TheVariants as stops;
ghost use Rattle.mxf_catalogue.specs.Content.{AreReduced, IsCatalogue, reduced_union};
ghost use Rattle.mxf_catalogue.specs.Runs.{LiesIn};
ghost use Rattle.mxf_readings.specs.Readings.{all_notes};
ghost use Rattle.mxf_verify.specs.VerificationLaws.{AreAllClear, AreOneByteApart, HasNoEmptyHead, IsWholeReference};
ghost use Rattle.mxf_verify.specs.VerificationLaws.{SaysSame, SaysWhole};
ghost use Rattle.mxf_verify.specs.Verifications.{DifferingParts, IsVerification, VerificationParts};
ghost use Rattle.mxf_verify.specs.Verifying.{IsSaidBy, front_size, held_size, is_digested, DiffersIn, IsAmong, IsCut};
ghost use Rattle.mxf_verify.specs.Verifying.{IsDiffering, IsHeldBy, IsSameIn, IsUnknownByte, IsUnverifiedByte};
ghost use Rattle.mxf_verify.specs.Verifying.{IsVerified, Source, Bytes, Saved};

pub use crate::comparing::contradictions_by_definition;
pub use crate::fixity::one_fixity;
pub use crate::opposing::oppositions_by_definition;
pub use crate::renewal::{
    other_recordings_by_definition, renewals_by_definition, renewals_drop_what_was_read_anew,
    renewals_have_what_was_read_anew, renewals_join_what_agrees,
};
pub use crate::unit_places::touched_units_by_definition;
pub use crate::verified_units::{one_account_of_units, verified_units_have_verified_bytes};

/// A law of [`verify`](crate::verify): of a reference beside sources there is one verification.
pub fn one_verification()
    ensures { (reference : List NoteParts) (sources : List Source) (a b : VerificationParts)
        → IsVerification reference sources a → IsVerification reference sources b → a ≡ b }
{}

/// A law of [`verify`](crate::verify): what is reported is so. A verified byte is one of a note that some source has as
/// the reference says. A note that differs is one of the reference, and bytes that were read haven't it. Each byte that
/// the reference holds is verified, or differs, or neither: then it is neither of the others.
pub fn verifications_tell_what_is_so()
    ensures verified { (reference : List NoteParts) (sources : List Source) (v : VerificationParts) (at : ℕ)
        → IsVerification reference sources v → LiesIn v.verified at
        → (n : NoteParts) × (s : Source) × In n reference × In s sources × IsSameIn reference n s × IsCovered n at }
    ensures differs { (reference : List NoteParts) (sources : List Source) (v : VerificationParts) (d : DifferingParts)
        → IsVerification reference sources v → In d v.differing
        → In d.note reference × IsDiffering reference sources d.note }
    ensures other { (reference : List NoteParts) (n : NoteParts) (offset : ℕ) (bytes : List ℕ)
        → DiffersIn reference n (Bytes offset bytes) → ¬ IsSameIn reference n (Bytes offset bytes) }
    ensures held { (reference : List NoteParts) (sources : List Source) (v : VerificationParts) (at : ℕ)
        → IsVerification reference sources v
        → LiesIn v.held at ↔ (LiesIn v.verified at ⊎ LiesIn v.altered at ⊎ LiesIn v.unverified at) }
    ensures apart { (reference : List NoteParts) (sources : List Source) (v : VerificationParts) (at : ℕ)
        → IsVerification reference sources v → LiesIn v.unverified at
        → ¬ LiesIn v.verified at × ¬ LiesIn v.altered at }
{}

/// A law of [`verify`](crate::verify): each byte counts. Of a clear reference each note that lies wholly in the bytes
/// of a source is the same there or differs, and not both; of the others none is either.
pub fn each_compared_note_is_the_same_or_differs()
    ensures compared { (reference : List NoteParts) (n : NoteParts) (offset : ℕ) (bytes : List ℕ)
        → IsCatalogue reference → AreAllClear reference → In n reference → IsAmong n offset bytes
        ↔ (IsSameIn reference n (Bytes offset bytes) ⊎ DiffersIn reference n (Bytes offset bytes)) }
    ensures apart { (reference : List NoteParts) (n : NoteParts) (offset : ℕ) (bytes : List ℕ)
        → IsSameIn reference n (Bytes offset bytes) → DiffersIn reference n (Bytes offset bytes) → ⊥ }
{}

/// A law of [`verify`](crate::verify): one byte is changed in bytes in which no note of a clear reference differs. Then
/// no note differs but the one that holds that byte. If that one lies wholly in the bytes, it differs, or its value was
/// changed to another with the same digest: two stretches of bytes that are both what a note says are one, unless it
/// knows a digest alone.
pub fn a_changed_byte_is_of_one_note()
    ensures alone { (reference : List NoteParts) (n m : NoteParts) (offset at : ℕ) (a b : List ℕ)
        → IsCatalogue reference → AreAllClear reference → AreOneByteApart at a b
        → In n reference → IsCovered n (offset + at)
        → ((x : NoteParts) → In x reference → ¬ DiffersIn reference x (Bytes offset a))
        → In m reference → DiffersIn reference m (Bytes offset b) → m ≡ n }
    ensures said { (n : NoteParts) (a b : List ℕ) → IsSaidBy n a → IsSaidBy n b
        → length a ≡ held_size n → length b ≡ held_size n
        → (a ≡ b) ⊎ (IsTrue (is_digested n) × (sha256 (drop (front_size n) a) ≡ sha256 (drop (front_size n) b))) }
{}

/// A law of [`verify`](crate::verify): what is said depends on which sources there are, and not on their order or
/// repeats; and further sources only add to what is the same.
pub fn verifications_are_of_a_set_of_sources()
    ensures same { (reference : List NoteParts) (a b : List Source) → SameMembers a b → SaysSame reference a b }
    ensures more { (reference : List NoteParts) (sources more : List Source) (n : NoteParts)
        → IsVerified reference sources n → IsVerified reference (sources ++ more) n }
{}

/// A law of [`verify`](crate::verify): if all sources are saved catalogues, nothing differs and nothing is unknown
/// exactly if joining them into the reference leaves that as it is. The reference has no head of a packet without a
/// value: its packet holds no byte more than it, so none is unknown if a catalogue has that.
pub fn catalogues_agree_where_joining_them_changes_nothing()
    ensures { (reference : List NoteParts) (contents : List (List NoteParts)) (v : VerificationParts)
        → IsCatalogue reference → AreReduced reference → HasNoEmptyHead reference
        → IsVerification reference (map Saved contents) v
        → ((v.damaged ≡ 0) × (v.unknown ≡ [])) ↔ (reduced_union reference (all_notes contents) ≡ reference) }
{}

/// A law of [`verify`](crate::verify): a reference has all packets of a file, from its first byte on, clear and without
/// a gap. All of it is the same in the bytes of one source at 0, and none of these is unknown, exactly if the packets
/// of these bytes are those of the reference, and the source ends with the last.
pub fn a_whole_reference_is_verified_by_its_packets()
    ensures { (reference : List NoteParts) (bytes : List ℕ) (v : VerificationParts) → IsWholeReference reference
        → AreBytes bytes → length bytes ≤ greatest_end → IsVerification reference (Bytes 0 bytes ∷ []) v
        → SaysWhole v ↔ ((notes_in 0 bytes ≡ reference) × (stop_in 0 bytes ≡ stops.End)) }
{}
