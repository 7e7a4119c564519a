//! The laws of skims: functions that do nothing, whose clauses hold of all values.
ghost use Rattle.std.specs.Prelude.{◌≡◌, ◌↔◌, true, false, ℕ, List, IsTrue};
ghost use Rattle.mxf_klv.specs.Note.{keeps};
ghost use Rattle.mxf_klv.specs.Parts.{NoteParts};
ghost use Rattle.mxf_klv.specs.Rising.{In};
ghost use Rattle.mxf_catalogue.specs.Content.{IsContent};
ghost use Rattle.mxf_skim.specs.PassedOver.{is_in_container, is_passed_over};
ghost use Rattle.mxf_skim.specs.Preferring.{IsReadIn, is_read_in, prefer_read};
ghost use Rattle.mxf_skim.specs.Saving.{IsSaved, with_heads};

/// A law: no value of a container's packet is kept, so a digest stands for each that is read.
pub fn containers_keep_no_value()
    ensures { (key : List ℕ) (len : ℕ) → is_in_container key len ≡ true → keeps key len ≡ false }
{}

/// A law of [`prefer_read`](crate::prefer_read): what is left are the notes without those of packets that were passed
/// over and of which another note was read, in their order.
pub fn preferred_notes_by_definition()
    ensures members { (n : NoteParts) (notes : List NoteParts)
        → In n (prefer_read notes) ↔ (In n notes × (is_passed_over n ≡ true → IsReadIn n notes → ⊥)) }
    ensures rising { (notes : List NoteParts) → IsContent notes → IsContent (prefer_read notes) }
    ensures test { (n : NoteParts) (notes : List NoteParts) → IsTrue (is_read_in n notes) ↔ IsReadIn n notes }
{}

/// A law of [`with_heads`](crate::with_heads): what is saved are the notes without those of packets that were passed
/// over, and the heads of these as far as no other note is of the same packet.
pub fn saved_notes_by_definition()
    ensures members { (n : NoteParts) (notes : List NoteParts) → In n (with_heads notes) ↔ IsSaved notes n }
    ensures rising { (notes : List NoteParts) → IsContent (with_heads notes) }
    ensures no_other { (n : NoteParts) (notes : List NoteParts)
        → In n (with_heads notes) → is_passed_over n ≡ false }
{}
