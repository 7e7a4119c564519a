//! Bytes as hexadecimal text.
ghost use Rattle.std.specs.Prelude.{◌≡◌, ◌*◌, IfOk, Some, length, string_bytes};
ghost use Rattle.std.specs.Option.{ForSome};
ghost use Rattle.mxf_forms.specs.Hexadecimal.{hex_of};

use mxf_klv::OutOfMemory;
use std::alloc::{AllocError, Global};
use std::{fmt, str};

/// Two lower-case hexadecimal digits for each byte, in a text of its own.
pub fn hex_text(alloc: Global, bytes: &[u8]) -> Result<String, OutOfMemory>
    ensures { IfOk result (λ text. string_bytes text ≡ hex_of bytes.now) }
{
    Ok(hex::encode(alloc, bytes)?)
}

/// The digits of the label that was asked for last: neighbours mostly have one label.
#[derive(Drop)]
pub struct LabelText {
    label: Option<[u8; 16]>,
    digits: String,

    ghost kept: { ForSome label (λ l. string_bytes digits ≡ hex_of l) },
}

impl LabelText {
    /// No label was asked for yet.
    pub fn new(alloc: Global) -> LabelText {
        LabelText {
            label: None,
            digits: String::new(alloc),
        }
    }

    /// Two lower-case hexadecimal digits for each byte of the label.
    pub fn digits_of(&mut self, label: &[u8; 16]) -> Result<&str, AllocError>
        ensures { IfOk result (λ digits. digits.now ≡ hex_of label.now) }
    {
        if self.label != Some(*label) {
            self.take(label)?;
        }
        Ok(self.digits.as_str())
    }

    /// Takes another label.
    fn take(&mut self, label: &[u8; 16]) -> Result<(), AllocError>
        ensures { IfOk result (λ _. string_bytes self.new.digits ≡ hex_of label.now) }
    {
        self.label = None;
        self.digits.clear();
        self.digits.push_str(digits_in(&mut [0u8; 32], label))?;
        self.label = Some(*label);
        Ok(())
    }
}

/// Two lower-case hexadecimal digits for each byte, written into a place that has room for just these.
fn digits_in<'p>(place: &'p mut [u8], bytes: &[u8]) -> &'p str
    requires { length place.now ≡ 2 * length bytes.now }
    ensures { result.now ≡ hex_of bytes.now }
{
    let Ok(()) = hex::encode_to_slice(bytes, place) else {
        unreachable!();
    };
    match str::from_utf8(place) {
        Ok(text) => text,
        Err(_) => unreachable!(),
    }
}

/// Bytes that print as two lower-case hexadecimal digits each, one by one.
#[derive(Clone, Copy)]
pub struct HexDigits<'a>(pub &'a [u8]);

impl<'a> fmt::Display for HexDigits<'a> {
    ghost output = { λ d. Some (hex_of d.0.now) };

    fn fmt<W: fmt::Write>(&self, f: &mut fmt::Formatter<W>) -> fmt::Result {
        let mut digits = [0u8; 2];
        'bytes: for byte in self.0 {
            f.write_str(digits_in(&mut digits, &[*byte]))?;
        }
        Ok(())
    }
}
