//! Numbers of times, in two digits and more.
ghost use Rattle.std.specs.Prelude.{Some};
ghost use Rattle.mxf_tracks.specs.Digits.{two_digits};

use std::fmt;

/// A number that prints in two digits, or in more if it needs them.
#[derive(Clone, Copy)]
pub(crate) struct TwoDigits(pub u128);

impl fmt::Display for TwoDigits {
    ghost output = { λ n. Some (two_digits n.0) };

    fn fmt<W: fmt::Write>(&self, f: &mut fmt::Formatter<W>) -> fmt::Result {
        write!(f, "{}{}", self.0 / 10, self.0 % 10)
    }
}
