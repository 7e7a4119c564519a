//! What sources give of a file, and reading it again at file offsets.
ghost use Rattle.std.specs.Prelude.{◌≡◌, ◌-◌, ◌+◌, ◌≤◌, min};
ghost use Rattle.mxf_klv.specs.Note.{greatest_end};
ghost use Rattle.mxf_read.specs.Gathering.{piece_limit};

mod comparing;
mod differing;
mod excerpt;
mod in_memory;
mod noting;
mod outside;
mod place_at;
mod placing;
mod sources;
mod stepping;

pub use excerpt::{Excerpt, excerpts};
pub use in_memory::{BytesAt, InMemory};
use mxf_catalogue::Cover;
use mxf_klv::{MAX, OutOfMemory};
use mxf_read::GREATEST_PIECE;
pub use noting::Reading;
pub use sources::Sources;
use std::alloc::{AllocError, AllocFailed};
use std::marker::Model;
use thiserror::Error;

/// Where the bytes of a source lie in the file: a number of bytes from a file offset on. They end at or below
/// [`MAX`](mxf_klv::MAX).
#[derive(Clone, Copy, Debug, PartialEq, Eq)]
pub struct Extent {
    offset: u64,
    size: u64,

    ghost within: { offset + size ≤ greatest_end },
}

impl Extent {
    /// Of a source that has `size` bytes, the first of which lies at file offset `offset`. No more of them count than
    /// are read of a piece, 1,099,511,627,776, and none that lies at or above [`MAX`](mxf_klv::MAX).
    pub fn new(offset: u64, size: u64) -> Extent
        requires { offset ≤ greatest_end }
        ensures offset { result.offset ≡ offset }
        ensures size { result.size ≡ min size (min piece_limit (greatest_end - offset)) }
    {
        let size = size.min(GREATEST_PIECE.min(MAX - offset));
        Extent { offset, size }
    }

    /// The file offset of the first byte.
    pub fn offset(&self) -> u64
        ensures { result ≡ self.now.offset }
    {
        self.offset
    }

    /// The number of bytes.
    pub fn size(&self) -> u64
        ensures { result ≡ self.now.size }
    {
        self.size
    }
}

/// Why sources weren't read.
#[derive(Clone, Copy, Debug, PartialEq, Eq, Error)]
pub enum SourceFault {
    /// A read of the source with this number failed, was interrupted more than 1,024 times, or gave fewer bytes than
    /// the source has.
    #[error("source {source_number}: a read failed")]
    ReadFault { source_number: usize },
    /// A growth was refused.
    #[error("out of memory")]
    OutOfMemory,
}

impl From<OutOfMemory> for SourceFault {
    fn from(_fault: OutOfMemory) -> SourceFault {
        SourceFault::OutOfMemory
    }
}

impl From<AllocError> for SourceFault {
    fn from(_fault: AllocError) -> SourceFault {
        SourceFault::OutOfMemory
    }
}

impl<T: Drop> From<AllocFailed<T>> for SourceFault {
    fn from(_fault: AllocFailed<T>) -> SourceFault {
        SourceFault::OutOfMemory
    }
}

/// Offsets, in bytes, from a start up to an end, the end excluded, that a source gives.
#[derive(Clone, Copy, PartialEq, Eq)]
pub(crate) struct Place {
    pub start: u64,
    pub end: u64,
    /// The number of the source.
    pub source: usize,
}

/// The extents of sources, placed in the file: of which source each byte is read, and where sources overlap.
#[derive(Drop)]
pub struct Given {
    extents: Vec<Extent>,
    /// Each offset that a source gives lies in one of these, which rise.
    places: Vec<Place>,
    /// Where a source gives offsets that lie in a place of another.
    overlaps: Vec<Place>,
    given: Cover,
}

impl Model for Given {
    ghost use Rattle.mxf_hand.specs.Places.{ArePlaces, GivenParts};

    ghost Value = { GivenParts };

    ghost view = { λ g. record { extents = g.extents.items; given = g.given } };

    ghost invariant = { λ g. ArePlaces g.extents.items g.places.items g.overlaps.items g.given };
}

impl Given {
    /// The offsets that sources give.
    pub fn into_given(self) -> Cover
        ensures { result ≡ self.given }
    {
        self.given
    }
}
