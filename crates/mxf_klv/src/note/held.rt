//! What a note keeps of a packet.
use super::front::Front;

/// What stands ahead of a value, with the value or its digest; or alone, if key and length alone were read.
///
/// The front stands in each variant, and not beside them, since there it fills bytes that would lie empty.
#[derive(Debug, Drop)]
pub(super) enum KeptValue {
    Whole(Front, Vec<u8>),
    Digest(Front, [u8; 32]),
    Head(Front),
}

impl KeptValue {
    ghost use Rattle.std.specs.Prelude.{◌≡◌};
    ghost use Rattle.mxf_klv.specs.KeptValue.{front_of};

    /// What stands ahead of the value.
    pub(super) fn front(&self) -> Front
        ensures { result ≡ front_of self.now }
    {
        match self {
            KeptValue::Whole(front, _) | KeptValue::Digest(front, _) | KeptValue::Head(front) =>
                *front,
        }
    }
}

/// What a note holds of a value: all of it, or its digest, or nothing if the note is a head.
#[derive(Clone, Copy, Debug)]
pub enum Held<'a> {
    Whole(&'a [u8]),
    Digest(&'a [u8; 32]),
    Head,
}
