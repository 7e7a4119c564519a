//! What doubts are in the words of notes, copies and items.
ghost use Rattle.std.specs.Prelude.{◌↔◌, List, IsTrue};
ghost use Rattle.mxf_klv.specs.Bytes.{AreBytes};
ghost use Rattle.mxf_klv.specs.Parts.{NoteParts};
ghost use Rattle.mxf_klv.specs.Rising.{In, IsRising};
ghost use Rattle.mxf_catalogue.specs.Content.{IsContent};
ghost use Rattle.mxf_catalogue.specs.Disputes.{IsClear};
ghost use Rattle.mxf_doubts.specs.declared.doubt.Doubt.{Doubt};
ghost use Rattle.mxf_doubts.specs.Codes.{doubt_cmp};
ghost use Rattle.mxf_doubts.specs.DoubtCauses.{IsDark, IsDoubt, IsFirstPrimer, IsStrange};
ghost use Rattle.mxf_doubts.specs.Doubts.{doubts_of};
ghost use Rattle.mxf_doubts.specs.Sound.{is_first_primer};
ghost use Rattle.mxf_doubts.specs.Strange.{is_dark, is_strange};

/// A law of [`Doubts::of`](crate::Doubts::of): doubts are those offsets and codes at which the cause of the code is met, and rise, so none stands
/// twice.
pub fn doubts_by_definition()
    ensures doubts { (notes : List NoteParts) (d : Doubt) → IsContent notes
        → ((n : NoteParts) → In n notes → AreBytes n.held) → In d (doubts_of notes) ↔ IsDoubt notes d }
    ensures rising { (notes : List NoteParts) → IsRising doubt_cmp (doubts_of notes) }
{}

/// A law of [`Keys::is_strange`](crate::Keys::is_strange): a clear packet is strange exactly if no known kind and no standard
/// has its key and no other packet has it either, or if it is an essence element or a raw set of another structure.
pub fn strange_by_definition()
    ensures { (notes : List NoteParts) (n : NoteParts) → IsContent notes → IsClear n notes
        → IsTrue (is_strange notes n) ↔ IsStrange notes n }
{}

/// A law of [`Keys::is_dark`](crate::Keys::is_dark): a clear packet is dark data exactly if it is of no known kind, not strange,
/// and has no key of the essence containers.
pub fn dark_by_definition()
    ensures { (notes : List NoteParts) (n : NoteParts) → IsContent notes → IsClear n notes
        → IsTrue (is_dark notes n) ↔ IsDark notes n }
{}

/// A law of [`SoundZones::begins_with`](crate::SoundZones::begins_with): a finished copy begins with exactly those primer packs
/// that stand at its start.
pub fn first_primers_by_definition()
    ensures { (notes : List NoteParts) (n : NoteParts) → IsContent notes
        → IsTrue (is_first_primer notes n) ↔ IsFirstPrimer notes n }
{}
