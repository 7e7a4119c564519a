//! Texts in which `{}` stands for a word.
use std::fmt;

/// Writes the text, with the word in place of each `{}`.
pub fn write_filled<W: fmt::Write>(
    f: &mut fmt::Formatter<W>,
    text: &str,
    word: &str,
) -> fmt::Result {
    let mut parts = text.split("{}");
    f.write_str(parts.next().unwrap_or(""))?;
    for part in parts {
        f.write_str(word)?;
        f.write_str(part)?;
    }
    Ok(())
}
