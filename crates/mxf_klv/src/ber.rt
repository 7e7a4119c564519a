//! The lengths of packets (ST 336, length field).
ghost use Rattle.std.specs.Prelude.{◌≡◌, ◌≤◌, ◌∷◌, ◌++◌, Ok, Result, List, ℕ, take};
ghost use Rattle.std.specs.Option.{SomeIff};
ghost use Rattle.mxf_klv.specs.Bytes.{AreBytes};
ghost use Rattle.mxf_klv.specs.Parts.{CanSpell, LengthParts};
ghost use Rattle.mxf_klv.specs.Ber.{ReadsLength, length_bytes};
ghost use Rattle.mxf_klv.specs.declared.ber.BerFault.{BerFault};

use crate::writing::{Encode, Progress, WriteFault};
use byteorder::{BigEndian, ByteOrder};
use std::io::Write;
use std::marker::Model;
use thiserror::Error;

/// The length of a packet's value, in bytes, and the number of bytes that spell it (ST 336, length field).
///
/// By its length a reader passes over a packet unread: the next key follows after that many bytes. Writers often spell
/// a length in more bytes than it needs, to fill it in later, so one length has several spellings. They count: packets
/// that differ in nothing else are two packets, and the last number of a random index pack counts these bytes too.
///
/// A first byte of at most 127 is the length itself. Of a greater one the low seven bits say how many bytes after it
/// spell the length, the most significant first. Up to eight are known; `80`, an indefinite length, is refused.
#[derive(Clone, Copy, Debug, PartialEq, Eq)]
pub struct Ber {
    width: u8,
    value: u64,
}

impl Model for Ber {
    ghost use Rattle.mxf_klv.specs.Parts.{LengthParts, CanSpell};

    ghost Value = { LengthParts };

    ghost view = { λ b. record { width = b.width; value = b.value } };

    ghost invariant = { λ b. CanSpell b.width b.value };

    ghost inverse = { λ l. record { width = l.width; value = l.value } };
}

/// Why no length stands at the front of bytes.
#[derive(Clone, Copy, Debug, PartialEq, Eq, Error)]
pub enum BerFault {
    /// There is no byte, or fewer follow the first than it asks for.
    #[error("the length is cut")]
    Short,
    /// The first byte is `80`, the indefinite length.
    #[error("the length is indefinite")]
    Indefinite,
    /// The first byte is above `88`: more than eight bytes would follow.
    #[error("the length has more than eight bytes")]
    TooWide,
}

impl Ber {
    /// The length `value` in `width` bytes, if they can spell it.
    pub fn new(width: u8, value: u64) -> Option<Ber>
        ensures { SomeIff result (CanSpell width value) (record { width = width; value = value }) }
    {
        let fits = match width {
            1 => value <= 127,
            2..=9 => u128::from(value) < 256u128.pow(u32::from(width - 1)),
            _ => false,
        };
        if fits {
            Some(Ber { width, value })
        } else {
            None
        }
    }

    /// The number of bytes that spell the length, 1 to 9.
    pub fn width(&self) -> u8
        ensures width { result ≡ self.now.width }
        ensures length { CanSpell self.now.width self.now.value }
    {
        self.width
    }

    /// The number of bytes of the value.
    pub fn value(&self) -> u64
        ensures { result ≡ self.now.value }
    {
        self.value
    }

    fn spelling(&self) -> Spelling
        ensures used { result.used ≤ 8 }
        ensures spelled { result.first ∷ take result.used result.digits ≡ length_bytes self.now.width self.now.value }
    {
        let mut digits = [0; 8];
        if self.width == 1 {
            return Spelling {
                first: self.value as u8,
                digits,
                used: 0,
            };
        }
        let used = usize::from(self.width - 1);
        BigEndian::write_uint(&mut digits, self.value, used);
        Spelling {
            first: 127 + self.width,
            digits,
            used,
        }
    }
}

/// The bytes of a length: the first, and as many of the others as are used.
#[derive(Drop)]
struct Spelling {
    first: u8,
    digits: [u8; 8],
    used: usize,
}

impl Encode for Ber {
    ghost encoding = { λ l. length_bytes l.width l.value };

    fn put_to<W: Write>(&self, progress: &mut Progress, writer: &mut W) -> Result<(), WriteFault> {
        let spelling = self.spelling();
        progress.put(writer, &[spelling.first])?;
        progress.put(writer, &spelling.digits[..spelling.used])
    }
}

/// Reads the length at the front of the bytes (ST 336, length field). Other bytes may follow it.
pub fn read_ber(bytes: &[u8]) -> Result<Ber, BerFault>
    ensures { ReadsLength bytes.now result }
{
    let Some((first, rest)) = bytes.split_first() else {
        return Err(BerFault::Short);
    };
    match *first {
        0..=127 => Ok(Ber {
            width: 1,
            value: u64::from(*first),
        }),
        128 => Err(BerFault::Indefinite),
        129..=136 => {
            let count = usize::from(*first - 128);
            if rest.len() < count {
                return Err(BerFault::Short);
            }
            let value = BigEndian::read_uint(rest, count);
            Ok(Ber {
                width: *first - 127,
                value,
            })
        }
        _ => Err(BerFault::TooWide),
    }
}

/// A law: what bytes begin with is one thing, a length or one of the faults.
pub fn one_length_at_front()
    ensures { (bytes : List ℕ) (r s : Result LengthParts BerFault)
        → ReadsLength bytes r → ReadsLength bytes s → r ≡ s }
{}

/// A law of [`Ber::write_to`](Encode::write_to) and [`read_ber`]: what is written is read back, and what is read is
/// written as it stood.
pub fn lengths_are_read_as_written()
    ensures read_back { (width value : ℕ) (more : List ℕ) → CanSpell width value
        → ReadsLength (length_bytes width value ++ more) (Ok (record { width = width; value = value })) }
    ensures written_back { (bytes : List ℕ) (width value : ℕ) → AreBytes bytes
        → ReadsLength bytes (Ok (record { width = width; value = value }))
        → take width bytes ≡ length_bytes width value }
{}
