//! Timecodes (SMPTE ST 12-1): the labels of the frames of a day.
ghost use Rattle.std.specs.Prelude.{◌≡◌, ◌⊎◌, ◌<◌, ◌^◌, ℕ, ℤ, Bool, Some, codes, false, pos, true};
ghost use Rattle.std.specs.Option.{option_map};
ghost use Rattle.mxf_tracks.specs.Digits.{timecode_text};
ghost use Rattle.mxf_tracks.specs.Timecodes.{IsLabel, IsTimecodeOf, drops, label_at, label_with, labels_of_day};
ghost use Rattle.mxf_tracks.specs.Timecodes.{left_out_up_to, number_of, timecode_of};
ghost use Rattle.mxf_tracks.specs.declared.timecode.Timecode.{Timecode};

use crate::digits::TwoDigits;
use std::fmt;

/// The label of a frame of a day. It prints as 10:00:00:24, with `;` before the frames if labels are left out.
#[derive(Clone, Copy, Debug, PartialEq, Eq)]
pub struct Timecode {
    /// Hours, 0 to 23.
    pub hours: u64,
    /// Minutes, 0 to 59.
    pub minutes: u64,
    /// Seconds, 0 to 59.
    pub seconds: u64,
    /// Frames of the second, from 0.
    pub frames: u64,
    /// Whether labels are left out, so that timecodes keep up with rates of 30000/1001 and 60000/1001.
    pub is_drop: bool,
}

impl fmt::Display for Timecode {
    ghost output = { λ t. Some (timecode_text t) };

    fn fmt<W: fmt::Write>(&self, f: &mut fmt::Formatter<W>) -> fmt::Result {
        let before_frames = if self.is_drop { ";" } else { ":" };
        write!(
            f,
            "{}:{}:{}{}{}",
            TwoDigits(u128::from(self.hours)),
            TwoDigits(u128::from(self.minutes)),
            TwoDigits(u128::from(self.seconds)),
            before_frames,
            TwoDigits(u128::from(self.frames))
        )
    }
}

impl Timecode {
    /// The timecode of a number of frames since midnight, modulo a day (below 0 it is of the day before), at a base of
    /// frames a second. None if the base is 0. Labels are left out at the bases 30 and 60 alone, if that is asked for.
    pub fn of(number: i64, base: u16, is_drop: bool) -> Option<Timecode>
        ensures { result ≡ timecode_of number base is_drop }
    {
        if base == 0 {
            return None;
        }
        let is_drop = drops(base, is_drop);
        let number = number.rem_euclid(labels_of_day(base, is_drop) as i64);
        Some(label_with(base, is_drop, number.unsigned_abs()))
    }
}

/// Whether labels are left out.
fn drops(base: u16, is_drop: bool) -> bool
    ensures { result ≡ drops base is_drop }
{
    is_drop && (base == 30 || base == 60)
}

/// How many labels a day has (ST 12-1), at a base of frames a second, 0 to 65535, and with labels left out or not: 0 at
/// the base 0.
pub fn labels_of_day(base: u16, is_drop: bool) -> u64
    ensures labels { result ≡ labels_of_day base is_drop }
    ensures few { result < 2 ^ 33 }
{
    let base = u64::from(base);
    let all = 86400 * base;
    if is_drop { all - base / 15 * 1296 } else { all }
}

/// The label of a frame that is so many frames after midnight, as all are counted.
fn label_at(frame: u64, base: u16, is_drop: bool) -> Timecode
    requires { 0 < base }
    ensures { result ≡ label_at frame base is_drop }
{
    let base = u64::from(base);
    let seconds = frame / base;
    Timecode {
        hours: seconds / 3600,
        minutes: seconds / 60 % 60,
        seconds: seconds % 60,
        frames: frame % base,
        is_drop,
    }
}

/// How many labels are left out before the one with a number.
fn left_out_up_to(base: u16, number: u64) -> u64
    requires base { (base ≡ 30) ⊎ (base ≡ 60) }
    requires number { number < labels_of_day base true }
    ensures count { result ≡ left_out_up_to base number }
    ensures few { result < 2 ^ 32 }
{
    let base = u64::from(base);
    let left_out = base / 15;
    let minute = 60 * base - left_out;
    let ten_minutes = 10 * minute + left_out;
    let minutes = (number % ten_minutes).saturating_sub(left_out) / minute;
    (9 * (number / ten_minutes) + minutes) * left_out
}

/// The label with a number.
fn label_with(base: u16, is_drop: bool, number: u64) -> Timecode
    requires some { 0 < base }
    requires number { number < labels_of_day base is_drop }
    requires bases { is_drop ≡ true → (base ≡ 30) ⊎ (base ≡ 60) }
    ensures { result ≡ label_with base is_drop number }
{
    let left_out = if is_drop {
        left_out_up_to(base, number)
    } else {
        0
    };
    label_at(number + left_out, base, is_drop)
}

/// A law of [`Timecode::of`]: the timecode of a number is the label of the day with this number.
pub fn each_number_has_its_label()
    ensures { (number : ℤ) (base : ℕ) (is_drop : Bool)
        → IsTimecodeOf number base is_drop (timecode_of number base is_drop) }
{}

/// A law of [`Timecode::of`]: no label is used twice. Two of a base and of one way to count that have the same number
/// are one; and each has a number below that of the labels of a day.
pub fn each_label_has_its_number()
    ensures one { (base : ℕ) (a b : Timecode) → IsLabel base a → IsLabel base b → a.is_drop ≡ b.is_drop
        → number_of base a ≡ number_of base b → a ≡ b }
    ensures within { (base : ℕ) (t : Timecode) → IsLabel base t → number_of base t < labels_of_day base t.is_drop }
{}

/// A law of [`labels_of_day`] and [`Timecode::of`]: how many labels days have, and which labels stand where drop frame
/// leaves some out (ST 12-1): 2 a minute at base 30 and 4 at base 60, and none each tenth minute.
pub fn days_have_these_labels()
    ensures drop_frame { (labels_of_day 30 true ≡ 2589408) × (labels_of_day 60 true ≡ 5178816) }
    ensures all_counted { (labels_of_day 24 false ≡ 2073600) × (labels_of_day 25 false ≡ 2160000)
        × (labels_of_day 30 false ≡ 2592000) }
    ensures minute_of_30 { (option_map timecode_text (timecode_of (pos 1799) 30 true) ≡ Some (codes "00:00:59;29"))
        × (option_map timecode_text (timecode_of (pos 1800) 30 true) ≡ Some (codes "00:01:00;02")) }
    ensures tenth_minute_of_30 { (option_map timecode_text (timecode_of (pos 17981) 30 true) ≡ Some (codes "00:09:59;29"))
        × (option_map timecode_text (timecode_of (pos 17982) 30 true) ≡ Some (codes "00:10:00;00")) }
    ensures hour_of_30 { option_map timecode_text (timecode_of (pos 107892) 30 true) ≡ Some (codes "01:00:00;00") }
    ensures minute_of_60 { (option_map timecode_text (timecode_of (pos 3599) 60 true) ≡ Some (codes "00:00:59;59"))
        × (option_map timecode_text (timecode_of (pos 3600) 60 true) ≡ Some (codes "00:01:00;04")) }
    ensures tenth_minute_of_60 { (option_map timecode_text (timecode_of (pos 35963) 60 true) ≡ Some (codes "00:09:59;59"))
        × (option_map timecode_text (timecode_of (pos 35964) 60 true) ≡ Some (codes "00:10:00;00")) }
    ensures no_drop_frame { (option_map timecode_text (timecode_of (pos 90000) 25 true) ≡ Some (codes "01:00:00:00"))
        × (option_map timecode_text (timecode_of (pos 1800) 30 false) ≡ Some (codes "00:01:00:00")) }
{}
