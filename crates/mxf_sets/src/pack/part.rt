//! Which partition of a file a partition pack opens, and the keys that say so (ST 377-1, Partition Pack Key).
ghost use Rattle.std.specs.Prelude.{◌≡◌, MatchOption};
ghost use Rattle.mxf_klv.specs.Kind.{kind_of};
ghost use Rattle.mxf_sets.specs.PackReadings.{part_and_status};
ghost use Rattle.mxf_sets.specs.PartitionPack.{IsPartitionKind, pack_key, pack_kind, part_byte, status_byte};

use mxf_klv::{Kind, Status};
use std::fmt;

/// The part of the file that a partition is (ST 377-1, Partition Pack Key).
///
/// The header partition begins the file and says what it is. Body partitions carry essence and index, and may repeat
/// the header metadata, so that a reader who comes in the middle needn't wait. The footer partition ends a file that
/// was closed: its metadata and index are written last and know the whole recording. It has no essence.
#[derive(Clone, Copy, Debug, PartialEq, Eq)]
pub enum PackPart {
    Header,
    Body,
    Footer,
}

/// The word for the part, as in `footer`.
impl fmt::Display for PackPart {
    ghost use Rattle.std.specs.Prelude.{Some};
    ghost use Rattle.mxf_sets.specs.Words.{part_name};

    ghost output = { λ part. Some (part_name part) };

    fn fmt<W: fmt::Write>(&self, f: &mut fmt::Formatter<W>) -> fmt::Result {
        f.write_str(match *self {
            PackPart::Header => "header",
            PackPart::Body => "body",
            PackPart::Footer => "footer",
        })
    }
}

impl PackPart {
    /// The part and the status of a packet of this kind, if it has a partition pack.
    pub(super) fn of(kind: Kind) -> Option<(PackPart, Status)>
        ensures told { MatchOption result (¬ IsPartitionKind kind) (λ p. kind ≡ pack_kind p.0 p.1) }
        ensures computed { result ≡ part_and_status kind }
    {
        match kind {
            Kind::Header(status) => Some((PackPart::Header, status)),
            Kind::Body(status) => Some((PackPart::Body, status)),
            Kind::Footer(status) => Some((PackPart::Footer, status)),
            _ => None,
        }
    }

    /// The byte of the key that says the part.
    fn byte(self) -> u8
        ensures { result ≡ part_byte self }
    {
        match self {
            PackPart::Header => 0x02,
            PackPart::Body => 0x03,
            PackPart::Footer => 0x04,
        }
    }

    /// The bytes of the key of a partition pack, with version `01`.
    pub(super) fn key_bytes(self, status: Status) -> [u8; 16]
        ensures { result ≡ pack_key self status }
    {
        [
            0x06,
            0x0E,
            0x2B,
            0x34,
            0x02,
            0x05,
            0x01,
            0x01,
            0x0D,
            0x01,
            0x02,
            0x01,
            0x01,
            self.byte(),
            status_byte(status),
            0x00,
        ]
    }
}

/// The byte of the key that says the status.
fn status_byte(status: Status) -> u8
    ensures { result ≡ status_byte status }
{
    match status {
        Status::OpenIncomplete => 0x01,
        Status::ClosedIncomplete => 0x02,
        Status::OpenComplete => 0x03,
        Status::ClosedComplete => 0x04,
    }
}
