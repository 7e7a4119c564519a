//! The edit units of an index.
ghost use Rattle.std.specs.Prelude.{◌≡◌, ◌↔◌, ◌+◌, ◌<◌, ◌≤◌, ◌^◌, ℕ, IfOk, IfSome, IsSome, List, None, Option, Some};
ghost use Rattle.mxf_klv.specs.Parts.{NoteParts, PacketParts};
ghost use Rattle.mxf_klv.specs.Piece.{end_after, notes_from};
ghost use Rattle.mxf_sets.specs.declared.segment.offset.IndexEntry.{IndexEntry};
ghost use Rattle.mxf_units.specs.declared.unit.Extent.{Extent};
ghost use Rattle.std.specs.Option.{option_and_then};
ghost use Rattle.std.specs.Result.{ForOk};
ghost use Rattle.mxf_views.specs.declared.index.place.StreamPlace.{StreamPlace};
ghost use Rattle.mxf_places.specs.AtHand.{AtHandParts, KnownParts};
ghost use Rattle.mxf_units.specs.Entries.{IsEntryOf, IsKeyFrame};
ghost use Rattle.mxf_units.specs.Extents.{IsEndPlaceOf, IsExtentEnd, IsExtentOf, IsTold};
ghost use Rattle.mxf_units.specs.Repeated.{SayAll};
ghost use Rattle.mxf_units.specs.Standings.{IsStanding, IsStandingIn};
ghost use Rattle.mxf_units.specs.declared.location.Location.{Location};
ghost use Rattle.mxf_units.specs.declared.standing.UnitStanding.{UnitStanding};
ghost use Rattle.mxf_units.specs.Streams.{IsSmall, entry_of, is_given, place_of, segments_for};
ghost use Rattle.mxf_units.specs.EssenceZones.{parts_of};
ghost use Rattle.mxf_units.specs.Units.{AreBesideEssence, AreKnown, IsHeldWhole, IsKnownWhole, key_at, location_at, location_of};
ghost use Rattle.mxf_units.specs.Units.{end_place, extent_in, has_next_unit, standing_in, unit_by, unit_of};
ghost use Rattle.mxf_units.specs.declared.essence_zone.EssenceZone.{EssenceZone};

use crate::beside::beside_essence;
use crate::essence_zone::EssenceZone;
use crate::essence_zone::part::{StreamPart, parts_of, zone_at};
use crate::index_segments::IndexSegments;
use crate::location::{Location, extent_by, extent_in, is_behind, standing_by};
use crate::next_places::NextPlaces;
use crate::placed::PlacedUnit;
use crate::segments::{entry_of, is_given, place_of, segments_for};
use crate::standing::UnitStanding;
use crate::unit::{EditUnit, Extent};
use mxf_catalogue::{Cover, Semilattice};
use mxf_klv::OutOfMemory;
use mxf_places::{AtHand, Holdings};
use mxf_sets::IndexEntry;
use mxf_views::{SegmentAt, StreamPlace, Views};
use std::alloc::Global;
use std::marker::Model;

/// The edit units of the index of an IndexSID: where each lies in the file, and which of its bytes are held (ST 377-1,
/// Index Table Segment; the standings are this project's profile).
pub struct Units<'a> {
    holdings: Holdings<'a>,
    at_hand: &'a AtHand,
    /// The offsets that are held or at hand.
    known: Cover,
    /// The offsets where no essence can lie.
    beside: Cover,
    index_sid: u32,
    segments: IndexSegments<'a>,
    places: NextPlaces,
    parts: Vec<StreamPart>,
}

// Written out, a drop is one call wherever units are let go.
impl Drop for Units<'_> {
    fn drop(self) {
        let Units {
            holdings: _holdings,
            at_hand: _,
            known: _known,
            beside: _beside,
            index_sid: _,
            segments: _segments,
            places: _places,
            parts: _parts,
        } = self;
    }
}

impl<'a> Model for Units<'a> {
    ghost use Rattle.std.specs.Prelude.{List, ◌≡◌};
    ghost use Rattle.mxf_units.specs.NextPlaces.{AreNextPlaces};
    ghost use Rattle.mxf_units.specs.Repeated.{SayAll};
    ghost use Rattle.mxf_units.specs.Streams.{segments_for};
    ghost use Rattle.mxf_units.specs.EssenceZones.{parts_of};
    ghost use Rattle.mxf_units.specs.Units.{AreBesideEssence, AreKnown, UnitsParts};

    ghost Value = { UnitsParts };

    ghost view = { λ u. record {
      known = record { notes = u.holdings; at = u.at_hand.now };
      index_sid = u.index_sid;
    } };

    ghost invariant = { λ u. SayAll (segments_for u.holdings u.index_sid) u.segments
        × AreNextPlaces (segments_for u.holdings u.index_sid) u.places
        × (u.parts.items ≡ parts_of u.holdings)
        × AreKnown (record { notes = u.holdings; at = u.at_hand.now }) u.known
        × AreBesideEssence u.holdings u.beside };
}

impl<'a> Units<'a> {
    /// The units of the index of an IndexSID, if some bytes of the file are at hand beside what is held. It takes
    /// memory: n log n of the notes and the index entries, as its time does.
    pub fn of(
        alloc: Global,
        views: &'a Views,
        at_hand: &'a AtHand,
        index_sid: u32,
    ) -> Result<Units<'a>, OutOfMemory>
        ensures { IfOk result (λ u. u
            ≡ record { known = record { notes = views.now; at = at_hand.now }; index_sid = index_sid }) }
    {
        let holdings = Holdings::of(alloc, views)?;
        let known = known_of(alloc, &holdings, at_hand)?;
        let beside = beside_essence(alloc, &holdings)?;
        let segments = IndexSegments::of(alloc, segments_for(alloc, views, index_sid)?)?;
        let places = NextPlaces::of(alloc, segments.all())?;
        let parts = parts_of(alloc, &holdings)?;
        Ok(Units {
            holdings,
            at_hand,
            known,
            beside,
            index_sid,
            segments,
            places,
            parts,
        })
    }

    /// What is held of the file.
    pub fn holdings(&self) -> &Holdings<'a>
        ensures { result.now ≡ self.now.known.notes }
    {
        &self.holdings
    }

    /// What is at hand beside that.
    pub fn at_hand(&self) -> &'a AtHand
        ensures { result.now ≡ self.now.known.at }
    {
        self.at_hand
    }

    /// The offsets that are held or at hand.
    pub fn known(&self) -> &Cover
        ensures { AreKnown self.now.known result.now }
    {
        &self.known
    }

    /// Those of the segments of the index that say all that any of them says.
    pub(crate) fn segments(&self) -> &[SegmentAt<'a>]
        ensures { SayAll (segments_for self.now.known.notes self.now.index_sid) result.now }
    {
        self.segments.all()
    }

    /// The offsets where no essence can lie.
    pub(crate) fn beside(&self) -> &Cover
        ensures { AreBesideEssence self.now.known.notes result.now }
    {
        &self.beside
    }

    /// The IndexSID.
    pub fn index_sid(&self) -> u32
        ensures { result ≡ self.now.index_sid }
    {
        self.index_sid
    }

    /// The partitions as parts of their streams, from the last to the first: by BodySID, then by BodyOffset, then those
    /// with a first packet before the others.
    pub fn parts(&self) -> &[StreamPart]
        ensures { result.now ≡ parts_of self.now.known.notes }
    {
        &self.parts
    }

    /// The place of a unit in its stream, if the segments that give one agree, or how it stands without. It takes no
    /// memory.
    pub fn place(&self, unit: u64) -> Result<StreamPlace, UnitStanding>
        ensures { result ≡ place_of (segments_for self.now.known.notes self.now.index_sid) unit }
    {
        place_of(self.segments_near(unit), unit)
    }

    /// Where a unit lies and the essence zone that it is looked for in, as far as that is known, or how it stands if it
    /// isn't. It takes no memory.
    #[tactic(auto, unfolding(crate::specs::Units::location_of))]
    pub fn location(&self, unit: u64) -> Result<Location, UnitStanding>
        ensures { result ≡ location_of self.now.known.notes self.now.index_sid unit }
    {
        self.location_of(unit, place_of(self.segments_near(unit), unit))
    }

    /// The segments that may have a unit: those that give it a place and an entry are among them.
    fn segments_near(&self, unit: u64) -> &[SegmentAt<'a>]
        ensures place { place_of result.now unit ≡ place_of (segments_for self.now.known.notes self.now.index_sid) unit }
        ensures entry { entry_of result.now unit ≡ entry_of (segments_for self.now.known.notes self.now.index_sid) unit }
        ensures given { (p : StreamPlace)
            → is_given p unit result.now ≡ is_given p unit (segments_for self.now.known.notes self.now.index_sid) }
    {
        self.segments.near(unit)
    }

    /// Where a unit lies, by its place in its stream, as far as that is known.
    fn location_of(
        &self,
        unit: u64,
        place: Result<StreamPlace, UnitStanding>,
    ) -> Result<Location, UnitStanding>
        requires { ForOk place IsSmall }
        ensures location { result ≡ location_at (parts_of self.now.known.notes)
            (segments_for self.now.known.notes self.now.index_sid) unit place }
        ensures small { IfOk result (λ l. l.extent.start + 1 < 2 ^ 128) }
    {
        let place = place?;
        let zone = zone_at(&self.parts, place.body_sid, place.offset)?;
        let end = self.end_place(unit, place, zone);
        Ok(Location {
            zone,
            extent: extent_in(zone, place.offset, end),
        })
    }

    /// The place up to which a unit reaches, in bytes: the next one of its stream. One behind the limit of the zone
    /// counts for nothing, unless the unit after this one has it: it is that of a unit in a later partition, and
    /// segments of units between aren't held.
    fn end_place(&self, unit: u64, place: StreamPlace, zone: EssenceZone) -> Option<u128>
        requires { IsSmall place }
        ensures end { result ≡ end_place (segments_for self.now.known.notes self.now.index_sid) zone unit
            place.body_sid place.offset }
        ensures small { IfSome result (λ n. n + 2 ^ 96 ≤ 2 ^ 128) }
    {
        let body_sid = place.body_sid;
        let offset = self.places.behind(place)?;
        if is_behind(zone, offset) && !self.has_next_unit(unit, StreamPlace { body_sid, offset }) {
            return None;
        }
        Some(offset)
    }

    /// Whether a segment of the index gives the unit after this one the place.
    fn has_next_unit(&self, unit: u64, place: StreamPlace) -> bool
        ensures { result ≡ has_next_unit (segments_for self.now.known.notes self.now.index_sid) unit place }
    {
        match unit.checked_add(1) {
            Some(next) => is_given(place, next, self.segments_near(next)),
            None => false,
        }
    }

    /// The TemporalOffset of the entry of a unit, as [`Units::unit`] says it: in edit units, -128 to 127. It takes no
    /// memory, and looks at no packet.
    #[tactic(auto, unfolding(crate::specs::Units::unit_of))]
    pub fn temporal(&self, unit: u64) -> Option<i8>
        ensures { result ≡ (unit_of self.now.known self.now.index_sid unit).temporal }
    {
        entry_of(self.segments_near(unit), unit).map(|entry| entry.temporal_offset)
    }

    /// The unit with a number. Units are counted from 0 as they are stored. It takes no memory, and some binary
    /// searches, with a look at each segment of the index that overlaps there.
    pub fn unit(&self, unit: u64) -> EditUnit
        ensures { result ≡ unit_of self.now.known self.now.index_sid unit }
    {
        self.placed(unit).unit
    }

    /// The unit with a number, its place in its stream, and where it is looked for, which is looked up once. It takes no
    /// memory.
    #[tactic(auto, unfolding(crate::specs::Units::unit_of, crate::specs::Units::location_of))]
    pub fn placed(&self, unit: u64) -> PlacedUnit
        ensures unit { result.unit ≡ unit_of self.now.known self.now.index_sid unit }
        ensures place { result.place ≡ place_of (segments_for self.now.known.notes self.now.index_sid) unit }
        ensures location { result.location ≡ location_of self.now.known.notes self.now.index_sid unit }
    {
        let segments = self.segments_near(unit);
        let place = place_of(segments, unit);
        let location = self.location_of(unit, place);
        let standing = standing_by(&self.holdings, &self.known, &self.beside, location);
        let entry = entry_of(segments, unit);
        PlacedUnit {
            unit: unit_by(unit, standing, extent_by(standing, location), entry),
            place,
            location,
        }
    }
}

/// The offsets that are held or at hand. They take memory.
fn known_of(alloc: Global, holdings: &Holdings<'_>, at_hand: &AtHand) -> Result<Cover, OutOfMemory>
    ensures { IfOk result (λ c. AreKnown (record { notes = holdings.now; at = at_hand.now }) c) }
{
    let held = holdings.views().catalogue().spans();
    Cover::join(alloc, held, at_hand.hand())
}

/// A unit, by how its bytes stand and by its entry.
fn unit_by(
    number: u64,
    standing: UnitStanding,
    extent: Option<Extent>,
    entry: Option<IndexEntry>,
) -> EditUnit
    ensures { result ≡ unit_by number standing extent entry }
{
    EditUnit {
        number,
        standing,
        extent,
        key: key_by(number, entry),
        temporal: entry.map(|entry| entry.temporal_offset),
        flags: entry.map(|entry| entry.flags),
    }
}

/// The key frame that the entry of a unit names, if it has one.
fn key_by(unit: u64, entry: Option<IndexEntry>) -> Option<u64>
    ensures { result ≡ option_and_then (key_at unit) entry }
{
    match entry {
        Some(entry) => key_at(unit, entry),
        None => None,
    }
}

/// The key frame that an entry names, if that is the number of a unit.
fn key_at(unit: u64, entry: IndexEntry) -> Option<u64>
    ensures { result ≡ key_at unit entry }
{
    let distance = u64::from(entry.key_frame_offset.unsigned_abs());
    if entry.key_frame_offset < 0 {
        unit.checked_sub(distance)
    } else {
        unit.checked_add(distance)
    }
}

/// A law of [`Units::unit`]: if a unit stands as held, it is known where it ends, and each of its bytes is held.
pub fn held_units_are_held()
    ensures { (known : KnownParts) (index_sid unit : ℕ)
        → (unit_of known index_sid unit).standing ≡ UnitStanding.Held
        → (e : Extent) × ((unit_of known index_sid unit).extent ≡ Some e) × IsHeldWhole known.notes e }
{}

/// A law of [`Units::unit`]: if a unit stands as at hand, it is known where it ends, and each of its bytes is held or
/// at hand.
pub fn units_at_hand_are_known()
    ensures { (known : KnownParts) (index_sid unit : ℕ)
        → (unit_of known index_sid unit).standing ≡ UnitStanding.Hand
        → (e : Extent) × ((unit_of known index_sid unit).extent ≡ Some e) × IsKnownWhole known e }
{}

/// A law of [`Units::unit`]: each standing has its cause.
pub fn standings_by_definition()
    ensures cause { (known : KnownParts) (index_sid unit : ℕ)
        → IsStanding known index_sid unit (unit_of known index_sid unit).standing }

    // If it is known where bytes are looked for, they have no other standing.
    ensures exact { (known : KnownParts) (l : Location) (standing : UnitStanding)
        → (standing_in known l ≡ standing) ↔ IsStandingIn known l.zone l.extent standing }

    // A unit has one standing.
    ensures one { (known : KnownParts) (index_sid unit : ℕ) (a b : UnitStanding)
        → IsStanding known index_sid unit a → IsStanding known index_sid unit b → a ≡ b }
{}

/// A law of [`Units::unit`]: what a unit says beside its place is what its entry says. The entry is the one on which
/// all segments of the index agree that list the unit. Without one it says nothing.
pub fn entries_by_definition()
    ensures some { (known : KnownParts) (index_sid unit : ℕ) (e : IndexEntry) → unit < 2 ^ 64
        → IsEntryOf known.notes index_sid unit e
        → ((unit_of known index_sid unit).temporal ≡ Some e.temporal_offset)
        × ((unit_of known index_sid unit).flags ≡ Some e.flags)
        × IsKeyFrame unit e.key_frame_offset (unit_of known index_sid unit).key }
    ensures none { (known : KnownParts) (index_sid unit : ℕ)
        → ((e : IndexEntry) → ¬ IsEntryOf known.notes index_sid unit e)
        → ((unit_of known index_sid unit).temporal ≡ None) × ((unit_of known index_sid unit).flags ≡ None)
        × ((unit_of known index_sid unit).key ≡ None) }
{}

/// A law of [`Units::unit`]: if a unit's extent is given, its bytes lie where its only place says, by the one essence
/// zone there. It is given for units that stand as disputed, missing, part, held or at hand, and for no other.
pub fn extents_by_definition()
    ensures extent { (known : KnownParts) (index_sid unit : ℕ) (e : Extent)
        → (unit_of known index_sid unit).extent ≡ Some e → IsExtentOf known.notes index_sid unit e }
    ensures told { (known : KnownParts) (index_sid unit : ℕ)
        → IsSome (unit_of known index_sid unit).extent ↔ IsTold (unit_of known index_sid unit).standing }

    // The place up to which a unit reaches, and where bytes end that are looked for in a zone, have their causes.
    ensures place { (notes : List NoteParts) (index_sid unit body_sid offset : ℕ) (zone : EssenceZone)
        (end : Option ℕ) → zone.body_offset ≤ offset
        → (end_place (segments_for notes index_sid) zone unit body_sid offset ≡ end)
        ↔ IsEndPlaceOf notes index_sid unit body_sid offset zone end }
    ensures end { (notes : List NoteParts) (index_sid unit body_sid offset : ℕ) (zone : EssenceZone)
        (end : Option ℕ) → zone.body_offset ≤ offset
        → ((extent_in zone offset (end_place (segments_for notes index_sid) zone unit body_sid offset)).end ≡ end)
        ↔ IsExtentEnd notes index_sid unit body_sid offset zone end }
{}

/// A law of [`Units::unit`]: if all packets of a file are held, from 0 on one after another, each unit that has a place
/// in the file and ends before the file does stands as held, whatever else is at hand.
pub fn units_of_whole_files_are_held()
    ensures { (l : List PacketParts) (at : AtHandParts) (index_sid unit : ℕ) (e : Extent) (end : ℕ)
        → IsExtentOf (notes_from 0 l) index_sid unit e → e.end ≡ Some end → end ≤ end_after 0 l
        → (unit_of (record { notes = notes_from 0 l; at = at }) index_sid unit).standing ≡ UnitStanding.Held }
{}
