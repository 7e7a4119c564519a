//! A number of a source with a letter for its unit, as `10M`, which names none.
use mxf_klv::MAX;
use mxf_saving::Source;

/// The letters, and how many bytes each stands for.
const UNITS: [(&str, u64); 3] = [("K", 1_024), ("M", 1_048_576), ("G", 1_073_741_824)];

/// The source that the word would name, if its OFFSET, or the LENGTH of a slice, ends with such a letter.
pub fn sized_source(word: &str) -> Option<Source<'_>> {
    let (scheme, rest) = word.split_once(':')?;
    let (size, path) = rest.split_once(':')?;
    match scheme {
        "at" => Some(Source::Piece {
            offset: bytes_of(size)?,
            path,
        }),
        "range" => Some(Source::Range {
            offset: bytes_of(size)?,
            path,
        }),
        "slice" => {
            let (length, path) = path.split_once(':')?;
            sized_slice(size, length, path)
        }
        _ => None,
    }
}

/// The slice of the file at the path with this OFFSET and LENGTH, if one of them ends with such a letter.
fn sized_slice<'a>(offset: &str, length: &str, path: &'a str) -> Option<Source<'a>> {
    let (offset, length) = match (bytes_of(offset), bytes_of(length)) {
        (Some(offset), Some(length)) => (offset, length),
        (Some(offset), None) => (offset, length.parse().ok()?),
        (None, Some(length)) => (offset.parse().ok()?, length),
        (None, None) => return None,
    };
    let end = offset.checked_add(length)?;
    (length > 0 && end <= MAX).then_some(Source::Slice {
        offset,
        length,
        path,
    })
}

/// How many bytes decimal digits and a letter stand for, if that is an offset.
fn bytes_of(size: &str) -> Option<u64> {
    for (letter, bytes) in UNITS {
        if let Some(digits) = size.strip_suffix(letter) {
            let number: u64 = digits.parse().ok()?;
            let offset = number.checked_mul(bytes)?;
            return (offset <= MAX).then_some(offset);
        }
    }
    None
}
