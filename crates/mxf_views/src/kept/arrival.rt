//! What has to be known of a new note.
ghost use Rattle.std.specs.Prelude.{◌≡◌, ◌<◌};
ghost use Rattle.mxf_catalogue.specs.Content.{IsCatalogue};
ghost use Rattle.mxf_views.specs.Kept.{IsHull, can_bring_start, is_outside, IsArrival};

use super::above::boundary_below;
use mxf_catalogue::Catalogue;
use mxf_klv::{Kind, Note};

/// What has to be known of a new note, once it is in the catalogue.
#[derive(Clone, Copy)]
pub(crate) struct Arrival {
    /// Where its packet begins.
    pub offset: u64,
    /// The least offset of the note and of the clear notes that share a byte with it.
    pub start: u64,
    /// Their greatest end.
    pub end: u64,
    /// Whether a copy can get a start by it.
    pub can_bring_start: bool,
    /// Where all other notes end, if it begins there or above.
    pub boundary: Option<u64>,
}

impl Arrival {
    /// What has to be known of a note before it is added to the catalogue.
    pub fn of(catalogue: &Catalogue, note: &Note) -> Arrival
        ensures { IsArrival note.now catalogue.now result }
    {
        catalogue.laws();
        let (start, end) = hull(catalogue, note);
        Arrival {
            offset: note.offset(),
            start,
            end,
            can_bring_start: can_bring_start(note),
            boundary: boundary_below(catalogue, note),
        }
    }

    /// Whether a file offset lies outside of the range.
    pub fn is_outside(&self, offset: u64) -> bool
        ensures { result ≡ is_outside self.now.start self.now.end offset }
    {
        offset < self.start || self.end <= offset
    }
}

/// From the least offset of a note and of the clear notes that share a byte with it to their greatest end.
fn hull(catalogue: &Catalogue, note: &Note) -> (u64, u64)
    ensures hull { IsHull note.now catalogue.now result.0 result.1 }
    ensures catalogue { IsCatalogue catalogue.now }
{
    let mut start = note.offset();
    let mut end = note.end();
    for other in catalogue.clear_touching(note) {
        start = start.min(other.offset());
        end = end.max(other.end());
    }
    (start, end)
}

/// Whether a copy can get a start by the note.
#[tactic(auto, unfolding(crate::specs::Kept::can_bring_start))]
fn can_bring_start(note: &Note) -> bool
    ensures { result ≡ can_bring_start note.now }
{
    matches!(&note.kind(), Kind::Fill | Kind::Primer)
}
