//! How the bytes of an edit unit stand beside sources.
ghost use Rattle.std.specs.Prelude.{◌≡◌, List};
ghost use Rattle.mxf_catalogue.specs.declared.run.Run.{Run};
ghost use Rattle.mxf_units.specs.declared.unit.Extent.{Extent};
ghost use Rattle.mxf_verify.specs.Fixities.{IsFixityIn};
ghost use Rattle.mxf_verify.specs.declared.fixity.UnitFixity.{UnitFixity};

use mxf_units::UnitStanding;
use std::fmt;

/// What sources say of the bytes of an edit unit: the first of these that holds (this project's profile).
#[derive(Clone, Copy, Debug, PartialEq, Eq)]
pub enum UnitFixity {
    /// The reference doesn't say where the unit lies, for this reason.
    Unplaced(UnitStanding),
    /// A byte of it is one of a note that differs in some source.
    Differs,
    /// No byte of it is one of a note that is the same in some source.
    Unverified,
    /// Some of its bytes are those of notes that are the same in some source, or it isn't known where it ends.
    Part,
    /// All of its bytes are those of notes that are the same in some source.
    Verified,
}

/// The word for it, as in `verified`.
impl fmt::Display for UnitFixity {
    ghost use Rattle.std.specs.Prelude.{Some};
    ghost use Rattle.mxf_verify.specs.Fixities.{fixity_name};

    ghost output = { λ fixity. Some (fixity_name fixity) };

    fn fmt<W: fmt::Write>(&self, f: &mut fmt::Formatter<W>) -> fmt::Result {
        match *self {
            UnitFixity::Unplaced(standing) => standing.fmt(f),
            UnitFixity::Differs => f.write_str("differs"),
            UnitFixity::Unverified => f.write_str("unverified"),
            UnitFixity::Part => f.write_str("part"),
            UnitFixity::Verified => f.write_str("verified"),
        }
    }
}

/// A law of [`VerifiedUnits::runs`](crate::VerifiedUnits::runs): the bytes of an extent stand in exactly one way beside
/// sources.
pub fn one_fixity()
    ensures some { (verified altered : List Run) (e : Extent)
        → (fixity : UnitFixity) × IsFixityIn verified altered e fixity }
    ensures one { (verified altered : List Run) (e : Extent) (a b : UnitFixity)
        → IsFixityIn verified altered e a → IsFixityIn verified altered e b → a ≡ b }
{}
