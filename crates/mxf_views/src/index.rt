//! Index table segments (ST 377-1, Index Table Segment).
ghost use Rattle.std.specs.Prelude.{◌≡◌, ◌==◌, ◌<◌, ◌^◌, ◌↔◌, List, find, length};
ghost use Rattle.mxf_klv.specs.Parts.{NoteParts};
ghost use Rattle.mxf_klv.specs.Rising.{In};
ghost use Rattle.mxf_sets.specs.Segment.{segment_at};
ghost use Rattle.mxf_sets.specs.Readable.{read_as};
ghost use Rattle.mxf_catalogue.specs.Content.{IsContent};
ghost use Rattle.std.specs.Iterator.{YieldsFirst, item_count};
ghost use Rattle.mxf_views.specs.Places.{IsSegmentAt, SegmentAtParts, SegmentsRise, segments_of, place_of};
ghost use Rattle.mxf_views.specs.Places.{placed_segment, segment_by_kind};
ghost use Rattle.mxf_views.specs.Kept.{kept_among, kept_segment};

pub(crate) mod place;

use crate::index::place::{Place, given_by};
use crate::placed::NotesAt;
use mxf_catalogue::Catalogue;
use mxf_klv::{Keyed, Kind, Note};
use mxf_sets::{Segment, SegmentNumbers};
use std::marker::Model;

/// A clear readable index table segment and where it stands (ST 377-1, index tables).
///
/// It covers a run of edit units of one essence stream, which its IndexSID and BodySID name. A recording that grows
/// writes one segment after another; a finished file mostly repeats them in its footer.
#[derive(Debug, Drop)]
pub struct SegmentAt<'a> {
    /// The file offset where the segment's packet begins, in bytes.
    pub offset: u64,
    pub segment: Segment<'a>,
}

impl<'a> Model for SegmentAt<'a> {
    ghost use Rattle.mxf_views.specs.Places.{SegmentAtParts};

    ghost Value = { SegmentAtParts };

    ghost view = { λ s. record { offset = s.offset; segment = s.segment } };
}

/// A segment by what it states in numbers: the views keep this of each, read once. Its entries stand in the segment
/// itself alone ([`SegmentAt`]).
#[derive(Debug, Drop)]
pub struct SegmentInNumbers {
    /// The file offset where the segment's packet begins, in bytes.
    pub offset: u64,
    pub numbers: SegmentNumbers,
}

impl Model for SegmentInNumbers {
    ghost use Rattle.std.specs.Prelude.{[]};
    ghost use Rattle.mxf_sets.specs.Segment.{segment_parts};
    ghost use Rattle.mxf_views.specs.Places.{SegmentAtParts};

    ghost Value = { SegmentAtParts };

    ghost view = { λ s. record { offset = s.offset; segment = segment_parts s.numbers [] } };
}

/// Segments rise by their offsets.
impl Keyed for SegmentInNumbers {
    ghost key = { λ s. s.offset };

    fn key(&self) -> u64 {
        self.offset
    }
}

/// The segment that the value of a note is, if it is kept and is one.
fn read_value(note: &Note) -> Option<Segment<'_>>
    ensures { result ≡ read_as segment_at note.now }
{
    Segment::read(note.value()?).ok()
}

/// The segment of a note, if it is a readable index table segment.
fn read_segment(note: &Note) -> Option<Segment<'_>>
    ensures { result ≡ segment_by_kind note.now }
{
    match note.kind() {
        Kind::Segment => read_value(note),
        _ => None,
    }
}

/// The same, with the offset of the note.
#[tactic(auto, unfolding(crate::specs::Places::placed_segment))]
pub(crate) fn placed_segment(note: &Note) -> Option<SegmentAt<'_>>
    ensures { result ≡ placed_segment note.now }
{
    let segment = read_segment(note)?;
    Some(SegmentAt {
        offset: note.offset(),
        segment,
    })
}

/// The same by what it states in numbers.
pub(crate) fn kept_segment(note: &Note) -> Option<SegmentInNumbers>
    ensures { result ≡ kept_segment note.now }
{
    let SegmentAt { offset, segment } = placed_segment(note)?;
    Some(SegmentInNumbers {
        offset,
        numbers: segment.numbers(),
    })
}

/// The segment at a file offset.
pub(crate) fn segment_there(catalogue: &Catalogue, offset: u64) -> Option<SegmentAt<'_>>
    ensures { result ≡ find (λ s. s.offset == offset) (segments_of catalogue.now) }
{
    placed_segment(catalogue.clear_at(offset)?)
}

/// The segments that are left, rising.
#[derive(Drop)]
pub struct Segments<'a> {
    notes: NotesAt<'a, SegmentInNumbers>,
}

impl<'a> Model for Segments<'a> {
    ghost use Rattle.std.specs.Prelude.{List};
    ghost use Rattle.mxf_views.specs.Places.{SegmentAtParts, segments_among};

    ghost Value = { List SegmentAtParts };

    ghost view = { λ s. segments_among s.notes };
}

impl<'a> Segments<'a> {
    /// Those of a catalogue, by what is kept of them.
    pub(crate) fn of(catalogue: &'a Catalogue, kept: &'a [SegmentInNumbers]) -> Segments<'a>
        requires { kept.now ≡ kept_among kept_segment catalogue.now }
        ensures segments { result ≡ segments_of catalogue.now }
        ensures bound { length result < 2 ^ 64 }
    {
        catalogue.laws();
        let notes = NotesAt::of(catalogue, kept);
        Segments { notes }
    }

    /// Where those of an IndexSID put an edit unit.
    pub(crate) fn place_of(self, index_sid: u32, unit: u64) -> Place
        ensures { result ≡ place_of self.entry index_sid unit }
    {
        let mut place = Place::NotIndexed;
        for segment in self {
            if let Some(given) = given_by(&segment, index_sid, unit) {
                place = place.with(given);
            }
        }
        place
    }
}

impl<'a> Iterator for Segments<'a> {
    type Item = SegmentAt<'a>;

    ghost next_gives = { YieldsFirst (λ s. s) };

    ghost remaining = { item_count (λ s. s) };

    fn next(&mut self) -> Option<SegmentAt<'a>> {
        while let Some(note) = self.notes.next() {
            if let Some(segment) = placed_segment(note) {
                return Some(segment);
            }
        }
        None
    }
}

/// A law of [`Views::segments`](crate::Views::segments): they are the clear readable index table segments, and rise in
/// their offsets.
pub fn segments_by_definition()
    ensures segments { (notes : List NoteParts) (s : SegmentAtParts) → In s (segments_of notes) ↔ IsSegmentAt notes s }
    ensures rising { (notes : List NoteParts) → IsContent notes → SegmentsRise (segments_of notes) }
{}
