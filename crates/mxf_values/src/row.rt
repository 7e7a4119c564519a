//! The rows of the table.
ghost use Rattle.std.specs.Prelude.{◌<◌};

use mxf_klv::Ul;
use std::alloc::Global;
use std::fmt::Debug;
use std::io::{self, Error, ErrorKind};

/// A row: whose call it is and which, with its numbers and its bytes.
#[derive(Clone, Copy)]
pub struct Row<'a> {
    pub subject: &'a str,
    pub call: &'a str,
    pub numbers: [u64; 4],
    pub bytes: &'a [u8],
}

impl<'a> Row<'a> {
    /// The row of the words ahead of its digits and the bytes that these spell.
    pub fn of(front: &'a str, bytes: &'a [u8]) -> io::Result<Row<'a>> {
        let mut words = front.split(' ');
        let (Some(subject), Some(call)) = (words.next(), words.next()) else {
            return Err(bad_row());
        };
        let numbers = [
            number_of(words.next())?,
            number_of(words.next())?,
            number_of(words.next())?,
            number_of(words.next())?,
        ];
        Ok(Row {
            subject,
            call,
            numbers,
            bytes,
        })
    }

    /// The first number, as the width of a length; 255 if it is greater.
    pub fn width(&self) -> u8 {
        self.numbers[0].min(0xFF) as u8
    }

    /// The first number, as a tag; the greatest tag if it is greater.
    pub fn tag(&self) -> u16 {
        self.numbers[0].min(0xFFFF) as u16
    }

    /// The first number, as an item size, 1 at least; the greatest size if it is greater.
    pub fn size(&self) -> u32
        ensures { 0 < result }
    {
        self.numbers[0].clamp(1, 0xFFFF_FFFF) as u32
    }

    /// The row with other bytes.
    pub fn of_bytes(&self, bytes: &'a [u8]) -> Row<'a> {
        Row { bytes, ..*self }
    }

    /// The label that the bytes begin with, and those after it.
    pub fn key_and_rest(&self) -> Option<(Ul, &'a [u8])> {
        let (key, rest) = self.bytes.split_first_chunk::<16>()?;
        Some((Ul::from_bytes(*key)?, rest))
    }
}

/// What ends the run if a row can't be read.
pub fn bad_row() -> Error {
    Error::from(ErrorKind::InvalidInput)
}

/// The number that a word spells; 0 if there is no word.
fn number_of(word: Option<&str>) -> io::Result<u64> {
    match word {
        Some(word) => word.parse().map_err(|_| bad_row()),
        None => Ok(0),
    }
}

/// The bytes that hexadecimal digits spell; `-` spells none.
pub fn bytes_of(alloc: Global, digits: &str) -> io::Result<Vec<u8>> {
    match digits {
        "-" => Ok(Vec::new(alloc)),
        _ => hex::decode(alloc, digits).map_err(|_| bad_row()),
    }
}

/// Prints an answer.
pub fn tell<T: Debug>(rt: &impl Print, answer: &T) -> io::Result<()> {
    println!(rt; "{answer:?}")
}
