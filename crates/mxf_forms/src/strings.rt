//! The law of strings.
ghost use Rattle.std.specs.Prelude.{◌≡◌, ◌++◌, ℕ, List, Some};
ghost use Rattle.mxf_forms.specs.Forms.{quoted, string_at};

/// A reader of JSON takes the text itself for the string that is printed of it, whatever follows: no quotation mark in
/// the string ends it early, and what a backslash stands before is given back.
pub fn escaped_text_is_given_back()
    ensures { (text rest : List ℕ) → string_at (quoted text ++ rest) ≡ Some (text, rest) }
{}
