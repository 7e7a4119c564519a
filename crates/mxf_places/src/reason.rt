//! Why bytes are to be restored.
ghost use Rattle.std.specs.Prelude.{◌≡◌};
ghost use Rattle.mxf_places.specs.Claims.{is_of_stretch};

use std::fmt;

/// Why bytes are to be restored, what helps most first (ST 377-1 says of each what it is; the order is this project's
/// profile).
#[derive(Clone, Copy, Debug, PartialEq, Eq, PartialOrd, Ord)]
pub enum Reason {
    /// The header partition, at 0: it says what the file is.
    Header,
    /// The footer partition, which has the last copy of the header metadata and the index, and often the random index
    /// pack after it.
    Footer,
    /// The header metadata of a partition.
    Metadata,
    /// The index table segments of a partition.
    Index,
    /// A partition that an entry of the random index pack names.
    Entry,
    /// The partition before another.
    Previous,
    /// No pack says what lies there.
    Gap,
    /// The front of bytes in which a partition may be found that edit units ask for.
    Front,
    /// The bytes of edit units.
    Unit,
}

impl Reason {
    /// Whether it is that of a stretch, not of a place that a pack names.
    pub fn is_of_stretch(self) -> bool
        ensures { result ≡ is_of_stretch self }
    {
        matches!(self, Reason::Metadata | Reason::Index)
    }
}

/// The word for the reason, as in `metadata`.
impl fmt::Display for Reason {
    ghost use Rattle.std.specs.Prelude.{Some};
    ghost use Rattle.mxf_places.specs.Words.{reason_name};

    ghost output = { λ reason. Some (reason_name reason) };

    fn fmt<W: fmt::Write>(&self, f: &mut fmt::Formatter<W>) -> fmt::Result {
        f.write_str(match *self {
            Reason::Header => "header",
            Reason::Footer => "footer",
            Reason::Metadata => "metadata",
            Reason::Index => "index",
            Reason::Entry => "entry",
            Reason::Previous => "previous",
            Reason::Gap => "gap",
            Reason::Front => "front",
            Reason::Unit => "unit",
        })
    }
}
