//! What notes of two readings say of each other.
ghost use Rattle.std.specs.Prelude.{◌↔◌, IsTrue};
ghost use Rattle.mxf_klv.specs.Parts.{NoteParts};
ghost use Rattle.mxf_verify.specs.Comparing.{Contradicts, IsHeadOf, SharesHeldByte, contradicts, is_head_of};
ghost use Rattle.mxf_verify.specs.Comparing.{is_held_byte_shared};

/// A law: the tests of two notes say what the relations say.
pub fn contradictions_by_definition()
    ensures share { (m n : NoteParts) → IsTrue (is_held_byte_shared m n) ↔ SharesHeldByte m n }
    ensures head { (m n : NoteParts) → IsTrue (is_head_of m n) ↔ IsHeadOf m n }
    ensures contradicts { (m n : NoteParts) → IsTrue (contradicts m n) ↔ Contradicts m n }
{}
