//! Edit units, and where they are looked for.
use crate::location::Location;
use crate::standing::UnitStanding;
use crate::unit::EditUnit;
use mxf_views::StreamPlace;

/// An edit unit, its place in its stream, and where it is looked for, each as far as it is known.
#[derive(Clone, Copy)]
pub struct PlacedUnit {
    pub unit: EditUnit,
    /// As [`Units::place`](crate::Units::place) says it.
    pub place: Result<StreamPlace, UnitStanding>,
    /// As [`Units::location`](crate::Units::location) says it.
    pub location: Result<Location, UnitStanding>,
}
