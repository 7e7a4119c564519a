//! Named places at which the partition that has an offset of a stream may stand.
ghost use Rattle.std.specs.Prelude.{◌≡◌, ◌↔◌, ◌+◌, ◌⊎◌, ◌<◌, ◌≤◌, ◌^◌, ℕ, true, false, IfOk, List, OnOk, Some, length};
ghost use Rattle.std.specs.Prelude.{slice_get};
ghost use Rattle.mxf_klv.specs.Note.{greatest_end};
ghost use Rattle.mxf_klv.specs.Rising.{In};
ghost use Rattle.mxf_catalogue.specs.Runs.{LiesIn};
ghost use Rattle.mxf_places.specs.AtHand.{LiesBetween};
ghost use Rattle.mxf_restore.specs.declared.named.NamedPlace.{NamedPlace};
ghost use Rattle.mxf_views.specs.declared.index.place.StreamPlace.{StreamPlace};
ghost use Rattle.mxf_units.specs.Units.{UnitsParts};
ghost use Rattle.mxf_partial.specs.InStreams.{IsInOrder};
ghost use Rattle.mxf_partial.specs.Named.{AreNamed, IsNamed};
ghost use Rattle.mxf_partial.specs.Near.{MayLieAt};
ghost use Rattle.mxf_partial.specs.NearTable.{AreNear, Asks, HasAddedThose, IsFrom, LiesInStream, named_of, rank};
ghost use Rattle.mxf_partial.specs.declared.place_streams.PlaceOf.{PlaceOf};

use crate::in_streams::{Bound, below, last_below};
use crate::place_streams::{PlaceOf, all_places, listed_streams, of_streams, rank};
use crate::streams::Streams;
use mxf_catalogue::Cover;
use mxf_klv::{MAX, OutOfMemory};
use mxf_restore::NamedPlace;
use mxf_units::Units;
use mxf_views::StreamPlace;
use std::alloc::Global;

/// Adds the named places at which partitions that have one of these places of streams may stand. It takes memory, and
/// some binary searches for each place.
pub(crate) fn add_partitions(
    alloc: Global,
    asked: &mut Vec<NamedPlace>,
    units: &Units<'_>,
    named: &[NamedPlace],
    places: &[StreamPlace],
) -> Result<(), OutOfMemory>
    requires { AreNamed units.now.known.notes named.now }
    ensures { OnOk result ((n : NamedPlace) → In n asked.new.items ↔ (In n asked.old.items
        ⊎ (In n named.now × ((p : StreamPlace) × In p places.now × MayLieAt units.now p.body_sid p.offset n.place)))) }
{
    let near = Near::of(alloc, units, named)?;
    let mut found = Asked {
        positions: Cover::new(alloc),
        all: false,
    };
    for place in places {
        near.add_place(&mut found, *place)?;
    }
    add_found(asked, named, &near.named, &found)
}

/// The places that are asked for.
#[derive(Drop)]
struct Asked {
    /// Where they stand in the table of named places.
    positions: Cover,
    /// Whether all named places are.
    all: bool,
}

/// The tables of places at which partitions may stand, and of streams.
struct Near {
    streams: Streams,
    /// The named places.
    named: Vec<PlaceOf>,
    /// The same, and where partitions stand.
    places: Vec<PlaceOf>,
}

// Written out, a drop is one call wherever the tables are let go.
impl Drop for Near {
    fn drop(self) {
        let Near {
            streams: _streams,
            named: _named,
            places: _places,
        } = self;
    }
}

impl Near {
    /// What is known of the units and the named places. It takes memory.
    fn of(alloc: Global, units: &Units<'_>, named: &[NamedPlace]) -> Result<Near, OutOfMemory>
        ensures near { IfOk result (AreNear units.now named.now) }
        ensures fits { IfOk result (λ near. length near.named.items ≤ greatest_end) }
    {
        let views = units.holdings().views();
        let listed = listed_streams(alloc, views)?;
        let places = all_places(alloc, named, views)?;
        let named = of_streams(alloc, &listed, named)?;

        // A cover has positions up to `MAX`: no memory has more places.
        if named.len() as u64 > MAX {
            return Err(OutOfMemory);
        }
        Ok(Near {
            streams: Streams::of(alloc, units)?,
            named,
            places: of_streams(alloc, &listed, &places)?,
        })
    }

    /// Adds the named places at which a partition that has a place of a stream may stand.
    fn add_place(&self, found: &mut Asked, place: StreamPlace) -> Result<(), OutOfMemory>
        requires { length self.now.named.items ≤ greatest_end }
        ensures { OnOk result ((u : UnitsParts) (named : List NamedPlace) → AreNamed u.known.notes named
            → AreNear u named self.now → (x : ℕ) → IsNamed u.known.notes x
            → Asks self.now.named.items found.new x
            ↔ (Asks self.now.named.items found.old x ⊎ MayLieAt u place.body_sid place.offset x)) }
    {
        let body_sid = place.body_sid;
        let from = from_place(&self.places, body_sid, self.streams.low(place));
        let end = self.streams.high(place);
        if add_between(&mut found.positions, &self.named, body_sid, from, end)? {
            return Ok(());
        }
        if !add_between(&mut found.positions, &self.named, body_sid, 0, None)? {
            found.all = true;
        }
        Ok(())
    }
}

/// The greatest of the places of a stream at or below a bound, in bytes; 0 if there is none.
fn from_place(places: &[PlaceOf], body_sid: u32, low: Bound) -> u64
    requires { low.from < 2 ^ 64 }
    ensures { IsInOrder (λ p. rank p.body_sid) (λ p. p.place) (λ p. 0) places.now
        → IsFrom places.now body_sid (low.from + low.more) result }
{
    let bound = Bound {
        from: low.from + 1,
        more: low.more,
    };
    last_place(places, None, bound).max(last_place(places, Some(body_sid), bound))
}

/// The place of the last of those of a stream, or of any, below a bound, in bytes; 0 if there is none.
fn last_place(places: &[PlaceOf], body_sid: Option<u32>, bound: Bound) -> u64
    ensures is { IsInOrder (λ p. rank p.body_sid) (λ p. p.place) (λ p. 0) places.now
        → (result ≡ 0) ⊎ ((p : PlaceOf) × In p places.now × (rank p.body_sid ≡ rank body_sid) × (p.place ≡ result)
        × (result < bound.from + bound.more)) }
    ensures greatest { IsInOrder (λ p. rank p.body_sid) (λ p. p.place) (λ p. 0) places.now
        → (p : PlaceOf) → In p places.now → rank p.body_sid ≡ rank body_sid → p.place < bound.from + bound.more
        → p.place ≤ result }
{
    match last_below(places, rank(body_sid), bound) {
        Some(place) => place.place,
        None => 0,
    }
}

/// Adds the positions of the places of a stream from an offset on, in bytes, up to an end if there is one, and says
/// whether there are any.
fn add_between(
    positions: &mut Cover,
    items: &[PlaceOf],
    body_sid: u32,
    from: u64,
    end: Option<u64>,
) -> Result<bool, OutOfMemory>
    requires { length items.now ≤ greatest_end }
    ensures { IfOk result (λ any. IsInOrder (λ p. rank p.body_sid) (λ p. p.place) (λ p. 0) items.now
        → HasAddedThose items.now (LiesInStream body_sid from end) positions.old positions.new any) }
{
    let any = add_range(positions, items, None, from, end)?;
    let own = add_range(positions, items, Some(body_sid), from, end)?;
    Ok(any || own)
}

/// The same of those that are listed for the stream, or of those that aren't listed.
fn add_range(
    positions: &mut Cover,
    items: &[PlaceOf],
    body_sid: Option<u32>,
    from: u64,
    end: Option<u64>,
) -> Result<bool, OutOfMemory>
    requires { length items.now ≤ greatest_end }
    ensures { IfOk result (λ any. IsInOrder (λ p. rank p.body_sid) (λ p. p.place) (λ p. 0) items.now
        → HasAddedThose items.now (λ p. (rank p.body_sid ≡ rank body_sid) × LiesBetween from end p.place)
        positions.old positions.new any) }
{
    let (start, end) = range_of(items, body_sid, from, end);
    if start >= end {
        return Ok(false);
    }
    positions.add(start as u64, end as u64)?;
    Ok(true)
}

/// Where those stand: two binary searches.
fn range_of(items: &[PlaceOf], body_sid: Option<u32>, from: u64, end: Option<u64>) -> (usize, usize)
    ensures bound { result.1 ≤ length items.now }
    ensures places { IsInOrder (λ p. rank p.body_sid) (λ p. p.place) (λ p. 0) items.now
        → (k : ℕ) (p : PlaceOf) → slice_get items.now k ≡ Some p
        → ((result.0 ≤ k) × (k < result.1)) ↔ ((rank p.body_sid ≡ rank body_sid) × LiesBetween from end p.place) }
{
    let stream = rank(body_sid);
    let start = below(items, stream, bound_at(from));
    let end = match end {
        Some(end) => below(items, stream, bound_at(end)),
        None => below(items, stream + 1, bound_at(0)),
    };
    (start, end)
}

/// A bound at a file offset, in bytes.
fn bound_at(offset: u64) -> Bound
    ensures { result.from + result.more ≡ offset }
{
    Bound {
        from: u128::from(offset),
        more: 0,
    }
}

/// Adds what is asked for: all named places, or those at the positions of the table.
fn add_found(
    asked: &mut Vec<NamedPlace>,
    named: &[NamedPlace],
    items: &[PlaceOf],
    found: &Asked,
) -> Result<(), OutOfMemory>
    ensures { OnOk result ((n : NamedPlace) → In n asked.new.items ↔ (In n asked.old.items
        ⊎ (((found.now.all ≡ true) × In n named.now) ⊎ ((found.now.all ≡ false) × ((k : ℕ) × (p : PlaceOf)
        × (slice_get items.now k ≡ Some p) × LiesIn found.now.positions k × (n ≡ named_of p)))))) }
{
    if !found.all {
        return add_at(asked, items, &found.positions);
    }
    asked.extend(named.iter().copied())?;
    Ok(())
}

/// Adds the places at positions of the table.
fn add_at(
    asked: &mut Vec<NamedPlace>,
    items: &[PlaceOf],
    positions: &Cover,
) -> Result<(), OutOfMemory>
    ensures { OnOk result ((n : NamedPlace) → In n asked.new.items ↔ (In n asked.old.items ⊎ ((k : ℕ) × (p : PlaceOf)
        × (slice_get items.now k ≡ Some p) × LiesIn positions.now k × (n ≡ named_of p)))) }
{
    for (index, item) in items.iter().enumerate() {
        if positions.has(index as u64) {
            asked.push(item.named())?;
        }
    }
    Ok(())
}
