//! Finding the place of an offset.
ghost use Rattle.std.specs.Prelude.{◌≡◌, ◌<◌, ℕ, length, IfNone, IfSome};
ghost use Rattle.mxf_klv.specs.Rising.{In};
ghost use Rattle.mxf_catalogue.specs.Runs.{LiesIn};
ghost use Rattle.mxf_hand.specs.Places.{AreApart, IsPlaceOf, LiesInPlace};
ghost use Rattle.mxf_hand.specs.declared.given.Place.{Place};

use super::{Given, Place};
use mxf_klv::{Keyed, up_to};

/// Places rise by their ends.
impl Keyed for Place {
    ghost key = { λ p. p.end };

    fn key(&self) -> u64 {
        self.end
    }
}

impl Given {
    /// The place that has the offset, if sources give it.
    pub(super) fn place_at(&self, offset: u64) -> Option<Place>
        ensures some { IfSome result (λ p. IsPlaceOf self.now.extents p × LiesInPlace p offset) }
        ensures none { IfNone result (¬ LiesIn self.now.given offset) }
    {
        place_in(&self.places, offset)
    }
}

/// The one of the places that has the offset.
pub(super) fn place_in(places: &[Place], offset: u64) -> Option<Place>
    requires apart { AreApart 0 places.now }
    requires some { (p : Place) → In p places.now → p.start < p.end }
    ensures some { IfSome result (λ p. In p places.now × LiesInPlace p offset) }
    ensures none { IfNone result ((p : Place) → In p places.now → ¬ LiesInPlace p offset) }
{
    let place = places.get(up_to(places, offset))?;
    if offset < place.start {
        return None;
    }
    Some(*place)
}
