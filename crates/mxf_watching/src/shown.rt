//! Texts as a terminal shows them.
ghost use Rattle.std.specs.Prelude.{◌≡◌, IfOk, string_bytes};
ghost use Rattle.mxf_watching.specs.OnScreen.{char_on_screen, text_on_screen};

use std::alloc::{AllocError, Global};

/// The character that stands for a character on a terminal: a question mark for a control character.
fn char_on_screen(c: char) -> char
    ensures { result ≡ char_on_screen c }
{
    if c.is_control() { '?' } else { c }
}

/// The text with a question mark for each control character, so that no path moves the cursor or clears the screen.
pub fn text_on_screen(alloc: Global, text: &str) -> Result<String, AllocError>
    ensures { IfOk result (λ shown. string_bytes shown ≡ text_on_screen text.now) }
{
    text.chars().map(|c| char_on_screen(c)).collect(alloc)
}
