//! Rates (ST 377-1, Rational).
ghost use Rattle.std.specs.Prelude.{◌≡◌, length};
ghost use Rattle.mxf_sets.specs.Rate.{is_good, is_same_rate, rate_of};

use byteorder::{BigEndian, ByteOrder};

/// A rate (ST 377-1, Rational), as stored: a number over another, as 30000 over 1001.
///
/// Most are edit units or samples a second; an aspect ratio is width over height. Two rates are `==` where both numbers
/// are; [`Rate::is_same`] compares them as fractions.
#[derive(Clone, Copy, Debug, PartialEq, Eq)]
pub struct Rate {
    pub numerator: i32,
    pub denominator: i32,
}

impl Rate {
    /// The rate that eight bytes are.
    pub(super) fn of(value: &[u8]) -> Rate
        requires { length value.now ≡ 8 }
        ensures { result ≡ rate_of value.now }
    {
        let (_, denominator) = value.split_at(4);
        Rate {
            numerator: BigEndian::read_i32(value),
            denominator: BigEndian::read_i32(denominator),
        }
    }

    /// Whether both numbers are above 0.
    pub fn is_good(&self) -> bool
        ensures { result ≡ is_good self.now }
    {
        self.numerator > 0 && self.denominator > 0
    }

    /// Whether both rates are good and one as fractions, as 25 over 1 and 50 over 2 are.
    pub fn is_same(&self, other: &Rate) -> bool
        ensures { result ≡ is_same_rate self.now other.now }
    {
        let across = u64::from(self.numerator.unsigned_abs())
            * u64::from(other.denominator.unsigned_abs());
        let back = u64::from(other.numerator.unsigned_abs())
            * u64::from(self.denominator.unsigned_abs());
        self.is_good() && other.is_good() && across == back
    }
}
