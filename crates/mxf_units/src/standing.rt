//! How the bytes of an edit unit stand.
ghost use Rattle.std.specs.Prelude.{◌≡◌};

use std::fmt;

/// What is known of the bytes of an edit unit: the first of these that holds (this project's profile).
///
/// From `Disputed` on it is known where they lie.
#[derive(Clone, Copy, Debug, PartialEq, Eq)]
pub enum UnitStanding {
    /// No index table segment gives the unit a place.
    NotIndexed,
    /// Segments give it different places.
    Ambiguous,
    /// No partition of its essence stream is held that begins at its place or before it.
    NoPartition,
    /// More than one begins there, and not exactly one of them has a known first packet of essence.
    Several,
    /// The first packet of essence of its partition isn't known.
    Unknown,
    /// Its bytes would begin or end after its partition, or begin in a packet that can't be essence, such as a fill:
    /// they lie in a partition that isn't held, or nowhere.
    Elsewhere,
    /// A partition that isn't known may lie between the first byte of essence of its partition and its own bytes.
    Unsure,
    /// A packet that shares bytes with a different one covers some of its bytes.
    Disputed,
    /// None of its bytes is held or at hand.
    Missing,
    /// Some of its bytes are held or at hand, or it isn't known where it ends.
    Part,
    /// All of its bytes are held.
    Held,
    /// All of its bytes are held or at hand, and not all are held: they can be cut out of the sources.
    Hand,
}

/// The word for the standing, as in `not-indexed`.
impl fmt::Display for UnitStanding {
    ghost use Rattle.std.specs.Prelude.{Some};
    ghost use Rattle.mxf_units.specs.Words.{unit_standing_name};

    ghost output = { λ standing. Some (unit_standing_name standing) };

    fn fmt<W: fmt::Write>(&self, f: &mut fmt::Formatter<W>) -> fmt::Result {
        f.write_str(match *self {
            UnitStanding::NotIndexed => "not-indexed",
            UnitStanding::Ambiguous => "ambiguous",
            UnitStanding::NoPartition => "no-partition",
            UnitStanding::Several => "several",
            UnitStanding::Unknown => "unknown",
            UnitStanding::Elsewhere => "elsewhere",
            UnitStanding::Unsure => "unsure",
            UnitStanding::Disputed => "disputed",
            UnitStanding::Missing => "missing",
            UnitStanding::Part => "part",
            UnitStanding::Held => "held",
            UnitStanding::Hand => "hand",
        })
    }
}
