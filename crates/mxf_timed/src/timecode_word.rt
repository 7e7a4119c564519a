//! Timecodes as words ask for them.
ghost use Rattle.std.specs.Prelude.{◌≡◌, ◌↔◌, ◌≤◌, ◌<◌, ◌^◌, IfSome, Some, length, true};
ghost use Rattle.std.specs.Char.{is_ascii_digit};
ghost use Rattle.std.specs.List.{list_all};
ghost use Rattle.std.specs.Str.Parse.{digits_value};
ghost use Rattle.mxf_timed.specs.TimecodeWords.{IsWritten, are_digits, are_separated, number_in, word_by, word_in};
ghost use Rattle.mxf_timed.specs.declared.timecode_word.TimecodeWord.{TimecodeWord};

/// A timecode as it is asked for (SMPTE ST 12-1): `HH:MM:SS:FF`, or `HH:MM:SS;FF`, which says that labels are left out.
#[derive(Clone, Copy, Debug, PartialEq, Eq)]
pub struct TimecodeWord {
    /// Hours, of two digits: 0 to 99.
    pub hours: u8,
    /// Minutes, of two digits: 0 to 99.
    pub minutes: u8,
    /// Seconds, of two digits: 0 to 99.
    pub seconds: u8,
    /// Frames of the second, of two to five digits: 0 to 99999.
    pub frames: u32,
    /// Whether `;` stands before the frames.
    pub is_drop: bool,
}

impl TimecodeWord {
    /// The timecode that a text says; `None` if it isn't written so. None is too large: 99:99:99:99 is one too.
    pub fn read(text: &str) -> Option<TimecodeWord>
        ensures { (w : TimecodeWord) → (result ≡ Some w) ↔ IsWritten text.now w }
    {
        word_in(text.as_bytes())
    }
}

/// The timecode that the bytes of a text say.
fn word_in(text: &[u8]) -> Option<TimecodeWord>
    ensures { result ≡ word_in text.now }
{
    if text.len() < 11 || text.len() > 14 || !are_separated(text) {
        return None;
    }
    word_by(
        text[8] == b';',
        &text[..2],
        &text[3..5],
        &text[6..8],
        &text[9..],
    )
}

/// Whether separators stand where they have to.
fn are_separated(text: &[u8]) -> bool
    requires { 9 ≤ length text.now }
    ensures { result ≡ are_separated text.now }
{
    text[2] == b':' && text[5] == b':' && (text[8] == b':' || text[8] == b';')
}

/// The timecode that digits spell.
fn word_by(
    is_drop: bool,
    hours: &[u8],
    minutes: &[u8],
    seconds: &[u8],
    frames: &[u8],
) -> Option<TimecodeWord>
    requires hours { length hours.now ≡ 2 }
    requires minutes { length minutes.now ≡ 2 }
    requires seconds { length seconds.now ≡ 2 }
    requires frames { length frames.now ≤ 5 }
    ensures { result ≡ word_by is_drop hours.now minutes.now seconds.now frames.now }
{
    let hours = number_in(hours)? as u8;
    let minutes = number_in(minutes)? as u8;
    let seconds = number_in(seconds)? as u8;
    let frames = number_in(frames)?;
    Some(TimecodeWord {
        hours,
        minutes,
        seconds,
        frames,
        is_drop,
    })
}

/// The number that at most five digits spell.
fn number_in(digits: &[u8]) -> Option<u32>
    requires few { length digits.now ≤ 5 }
    ensures number { result ≡ number_in digits.now }
    ensures bound { IfSome result (λ n. n < 10 ^ length digits.now) }
{
    if !are_digits(digits) {
        return None;
    }
    Some(number_of(digits))
}

/// Whether these are digits.
fn are_digits(text: &[u8]) -> bool
    ensures { result ≡ are_digits text.now }
{
    text.iter().all(|byte| byte.is_ascii_digit())
}

/// The number that they spell.
fn number_of(digits: &[u8]) -> u32
    requires digits { are_digits digits.now ≡ true }
    requires few { length digits.now ≤ 5 }
    ensures number { result ≡ digits_value 10 digits.now }
    ensures bound { result < 10 ^ length digits.now }
{
    let mut number = 0u32;
    for digit in digits {
        number = number * 10 + u32::from(*digit - b'0');
    }
    number
}
