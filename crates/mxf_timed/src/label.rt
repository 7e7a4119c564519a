//! The labels that words ask for.
ghost use Rattle.std.specs.Prelude.{◌≡◌, MatchBool};
ghost use Rattle.mxf_tracks.specs.Timecodes.{number_of};
ghost use Rattle.mxf_timed.specs.Positions.{Fits, label_of};

use crate::timecode_word::TimecodeWord;

/// Whether a word asks for a label of a day, at a base of frames a second.
pub(crate) fn fits(word: TimecodeWord, base: u16, is_drop: bool) -> bool
    ensures { MatchBool result (Fits base is_drop word) (¬ Fits base is_drop word) }
{
    if word.hours >= 24
        || word.minutes >= 60
        || word.seconds >= 60
        || word.frames >= u32::from(base)
    {
        return false;
    }
    if !is_drop {
        return !word.is_drop;
    }
    if base != 30 && base != 60 {
        return false;
    }
    word.seconds > 0 || word.minutes % 10 == 0 || word.frames >= u32::from(base / 15)
}

/// The number of the label: how many come before it since midnight.
pub(crate) fn number_of(word: TimecodeWord, base: u16, is_drop: bool) -> u64
    ensures { result ≡ number_of base (label_of word is_drop) }
{
    let base = u64::from(base);
    let minutes = u64::from(word.hours) * 60 + u64::from(word.minutes);
    let counted = (minutes * 60 + u64::from(word.seconds)) * base + u64::from(word.frames);
    if is_drop {
        counted.saturating_sub(base / 15 * (minutes - minutes / 10))
    } else {
        counted
    }
}
