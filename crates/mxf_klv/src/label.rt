//! Universal labels (ST 336): the keys of packets.
ghost use Rattle.std.specs.Prelude.{◌≡◌, take};
ghost use Rattle.std.specs.Option.{SomeIff};
ghost use Rattle.mxf_klv.specs.Label.{IsLabel, label_start};

use std::marker::Model;

/// A universal label (ST 336, universal label): sixteen bytes that begin `06 0E 2B 34`.
///
/// Labels are the names of the format. The key of each packet is one, and packs and sets name by them what they can't
/// spell out: operational patterns, essence containers, properties. What a label stands for is written in the registers
/// of SMPTE. Here those keys are known that say what a packet is, by [`kind`](crate::kind).
///
/// Byte 5 says the register and how what follows is coded, byte 8 the version of the register. Labels compare by their
/// sixteen bytes, the version included.
#[derive(Clone, Copy, Debug, PartialEq, Eq, PartialOrd, Ord)]
pub struct Ul {
    /// The twelve bytes after those that each label begins with.
    tail: [u8; 12],
}

impl Model for Ul {
    ghost use Rattle.std.specs.Prelude.{ℕ, List, ◌++◌, drop};
    ghost use Rattle.mxf_klv.specs.Label.{label_start};

    ghost Value = { List ℕ };

    ghost view = { λ u. label_start ++ u.tail };

    ghost inverse = { λ xs. record { tail = drop 4 xs } };
}

impl Ul {
    pub(crate) const START: [u8; 4] = [0x06, 0x0E, 0x2B, 0x34];

    /// The label of these bytes, if they begin as one; no further byte is tested.
    pub fn from_bytes(bytes: [u8; 16]) -> Option<Ul>
        ensures { SomeIff result (take 4 bytes ≡ label_start) bytes }
    {
        let (start, tail) = bytes.split_last_chunk::<12>()?;
        if start == Self::START.as_slice() {
            Some(Ul { tail: *tail })
        } else {
            None
        }
    }

    /// The sixteen bytes.
    pub fn bytes(&self) -> [u8; 16]
        ensures bytes { result ≡ self.now }
        ensures label { IsLabel self.now }
    {
        let mut bytes = [0; 16];
        bytes[..4].copy_from_slice(&Self::START);
        bytes[4..].copy_from_slice(&self.tail);
        bytes
    }
}
