//! The laws of pieces, of ranges and of skims: functions that do nothing, whose clauses hold of all values.
ghost use Rattle.std.specs.Prelude.{◌≡◌, ◌↔◌, ◌++◌, false, ℕ, List};
ghost use Rattle.mxf_klv.specs.Parts.{NoteParts, PacketParts};
ghost use Rattle.mxf_klv.specs.Piece.{notes_from};
ghost use Rattle.mxf_klv.specs.PieceReading.{notes_in};
ghost use Rattle.mxf_klv.specs.Rising.{In, SameMembers};
ghost use Rattle.mxf_catalogue.specs.Content.{IsLocated, reduced_union};
ghost use Rattle.mxf_skim.specs.PassedOver.{is_of_container, noted_by};
ghost use Rattle.mxf_skim.specs.Preferring.{prefer_read};
ghost use Rattle.mxf_skim.specs.Saving.{with_heads};
ghost use Rattle.mxf_skim.specs.declared.scan.Scan.TheVariants.{Skim};
ghost use Rattle.mxf_read.specs.SkimGathering.{AreAlikeButPassed, IsTheSkim};

pub use crate::absorbing::{
    going_on_after_a_fault_completes_a_piece, going_on_completes_a_piece,
    packets_of_a_piece_stand_apart,
};
pub use crate::range::{each_range_has_one_start, each_start_in_the_window_is_found};

/// A law of [`gather_skim`](crate::gather_skim): what is held is a function of the set of notes that the parts hand.
/// Their order and their repeats don't matter.
pub fn one_skim_of_a_set()
    ensures { (handed others a b : List NoteParts) → SameMembers handed others
        → IsTheSkim (λ n. In n handed) a → IsTheSkim (λ n. In n others) b → a ≡ b }
{}

/// A law of [`gather_skim`](crate::gather_skim): a piece that was skimmed and read is the piece that was read; and so is
/// what is saved of the skim beside the reading.
pub fn a_skim_beside_its_reading_is_the_reading()
    ensures skimmed { (offset : ℕ) (bytes : List ℕ)
        → prefer_read (reduced_union (noted_by Skim (notes_in offset bytes)) (notes_in offset bytes))
        ≡ notes_in offset bytes }
    ensures saved { (offset : ℕ) (bytes : List ℕ)
        → reduced_union (with_heads (noted_by Skim (notes_in offset bytes))) (notes_in offset bytes)
        ≡ notes_in offset bytes }
{}

/// A law of [`gather_skim`](crate::gather_skim): the notes of all packets but a container's are those that a reading
/// holds that was handed the same pieces and saved catalogues.
pub fn skims_hold_the_other_packets()
    ensures { (read saved notes : List NoteParts) (n : NoteParts)
        → IsTheSkim (λ m. In m (noted_by Skim read ++ saved)) notes → is_of_container n ≡ false
        → In n notes ↔ IsLocated (λ m. In m (read ++ saved)) n }
{}

/// A law of [`gather_skim`](crate::gather_skim): no byte of a value that is passed over counts. Packets that are alike
/// but for these bytes hand the same.
pub fn bytes_that_are_passed_over_do_not_count()
    ensures { (offset : ℕ) (packets others : List PacketParts) → AreAlikeButPassed packets others
        → noted_by Skim (notes_from offset packets) ≡ noted_by Skim (notes_from offset others) }
{}
