//! Texts (ST 377-1, UTF-16 strings).
ghost use Rattle.std.specs.Prelude.{◌≡◌, ◌↔◌, ◌%◌, length, IfOk, Err};
ghost use Rattle.std.specs.String.{string_bytes};
ghost use Rattle.mxf_sets.specs.Text.{text_of, text_units};

use std::alloc::{AllocError, Global};
use thiserror::Error;

/// Why bytes are no text.
#[derive(Clone, Copy, Debug, PartialEq, Eq, Error)]
pub enum TextFault {
    /// The number of bytes, those after a zero unit too, is odd.
    #[error("a text of odd length")]
    OddLength,
    /// A growth was refused.
    #[error("out of memory")]
    OutOfMemory,
}

/// The code units before the first that is zero.
fn text_units(alloc: Global, value: &[u8]) -> Result<Vec<u16>, AllocError>
    ensures { IfOk result (λ units. units.items ≡ text_units value.now) }
{
    let mut units = Vec::new(alloc);
    let mut rest = value;
    'units: while let Some((pair, after)) = rest.split_first_chunk::<2>() {
        let unit = u16::from_be_bytes(*pair);
        if unit == 0 {
            return Ok(units);
        }
        units.push(unit)?;
        rest = after;
    }
    Ok(units)
}

/// The text that the value of a text item is: UTF-16, big-endian, up to the first unit that is zero. Each surrogate
/// without its partner becomes U+FFFD.
pub fn text(alloc: Global, value: &[u8]) -> Result<String, TextFault>
    ensures odd { (result ≡ Err TextFault.OddLength) ↔ (length value.now % 2 ≡ 1) }
    ensures text { IfOk result (λ text. string_bytes text ≡ text_of value.now) }
{
    if value.len() % 2 == 1 {
        return Err(TextFault::OddLength);
    }
    let units = text_units(alloc, value).map_err(|_| TextFault::OutOfMemory)?;
    String::from_utf16_lossy(alloc, &units).map_err(|_| TextFault::OutOfMemory)
}
