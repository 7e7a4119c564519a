//! Lengths of durations.
ghost use Rattle.std.specs.Prelude.{◌≡◌, ◌↔◌, ℕ, Some, codes, pos};
ghost use Rattle.std.specs.Option.{option_map};
ghost use Rattle.mxf_tracks.specs.Digits.{length_text};
ghost use Rattle.mxf_sets.specs.declared.record.rate.Rate.{Rate};
ghost use Rattle.mxf_tracks.specs.Lengths.{IsLengthOf, length_of};

use crate::digits::TwoDigits;
use mxf_sets::Rate;
use std::fmt;

/// How long a duration lasts. It prints as hours, minutes and seconds, as 00:00:10.040.
#[derive(Clone, Copy, Debug, PartialEq, Eq)]
pub struct Length {
    /// In thousandths of a second, rounded down.
    pub thousandths: u128,
}

impl Length {
    /// The length of a number of edit units at a rate. None unless both numbers of the rate are above 0.
    pub fn of(duration: u64, rate: Rate) -> Option<Length>
        ensures { option_map (λ l. l.thousandths) result ≡ length_of duration rate }
    {
        if !rate.is_good() {
            return None;
        }
        let units = u128::from(duration) * u128::from(rate.denominator.unsigned_abs());
        let thousandths = units * 1000 / u128::from(rate.numerator.unsigned_abs());
        Some(Length { thousandths })
    }
}

impl fmt::Display for Length {
    ghost output = { λ l. Some (length_text l.thousandths) };

    fn fmt<W: fmt::Write>(&self, f: &mut fmt::Formatter<W>) -> fmt::Result {
        let seconds = self.thousandths / 1000;
        let rest = self.thousandths % 1000;
        write!(
            f,
            "{}:{}:{}.{}{}",
            TwoDigits(seconds / 3600),
            TwoDigits(seconds / 60 % 60),
            TwoDigits(seconds % 60),
            rest / 100,
            TwoDigits(rest % 100)
        )
    }
}

/// A law of [`Length::of`]: the length is the whole thousandths of a second that the edit units last, and there is one
/// exactly if both numbers of the rate are above 0.
pub fn lengths_by_definition()
    ensures { (duration : ℕ) (rate : Rate) (thousandths : ℕ)
        → (length_of duration rate ≡ Some thousandths) ↔ IsLengthOf duration rate thousandths }
{}

/// A law of [`Length`]: how some lengths print, up to hours of three digits, and how long an hour of frames at 25 and at
/// 30000/1001 a second lasts.
pub fn lengths_are_these()
    ensures below_a_minute { length_text 30040 ≡ codes "00:00:30.040" }
    ensures below_two_hours { length_text 5400000 ≡ codes "01:30:00.000" }
    ensures two_hours { length_text 7200000 ≡ codes "02:00:00.000" }
    ensures above_a_day { length_text 90061001 ≡ codes "25:01:01.001" }
    ensures hundred_hours { length_text 360000000 ≡ codes "100:00:00.000" }
    ensures hours { (length_of 90000 (record { numerator = pos 25; denominator = pos 1 }) ≡ Some 3600000)
        × (length_of 107892 (record { numerator = pos 30000; denominator = pos 1001 }) ≡ Some 3599996) }
{}
