//! Where bytes of essence lie in the file, and how they stand.
ghost use Rattle.std.specs.Prelude.{◌≡◌, ◌+◌, ◌<◌, ◌≤◌, ◌^◌, List};
ghost use Rattle.std.specs.Option.{ForSome};
ghost use Rattle.std.specs.Result.{ForOk};
ghost use Rattle.mxf_klv.specs.Parts.{NoteParts};
ghost use Rattle.mxf_places.specs.AtHand.{KnownParts};
ghost use Rattle.mxf_units.specs.Units.{AreBesideEssence, AreKnown, are_all_held, are_all_known, ends_behind};
ghost use Rattle.mxf_units.specs.Units.{extent_by, extent_in, file_offset, is_any_disputed, is_any_known, is_behind};
ghost use Rattle.mxf_units.specs.Units.{is_told, lies_elsewhere, standing_by, standing_in};

use crate::beside::is_beside_essence;
use crate::essence_zone::EssenceZone;
use crate::standing::UnitStanding;
use crate::unit::Extent;
use mxf_catalogue::Cover;
use mxf_places::Holdings;

/// Bytes of essence, and the essence zone that they are looked for in.
#[derive(Clone, Copy, Debug, PartialEq, Eq)]
pub struct Location {
    pub zone: EssenceZone,
    pub extent: Extent,
}

/// The file offset, in bytes, at which an offset of a stream lies by an essence zone.
pub(crate) fn file_offset(zone: EssenceZone, offset: u128) -> u128
    requires { offset + 2 ^ 96 ≤ 2 ^ 128 }
    ensures { result ≡ file_offset zone offset }
{
    u128::from(zone.origin) + offset.saturating_sub(u128::from(zone.body_offset))
}

/// Whether an offset of a stream, in bytes, lies behind the limit of the zone.
pub(crate) fn is_behind(zone: EssenceZone, offset: u128) -> bool
    requires { offset + 2 ^ 96 ≤ 2 ^ 128 }
    ensures { result ≡ is_behind zone offset }
{
    let at = file_offset(zone, offset);
    zone.limit.is_some_and(|limit| u128::from(limit) < at)
}

/// From a place of a stream, in bytes, up to another one; without one up to the end of the zone, if that is known.
pub(crate) fn extent_in(zone: EssenceZone, offset: u128, end: Option<u128>) -> Extent
    requires offset { offset < 2 ^ 96 }
    requires end { ForSome end (λ n. n + 2 ^ 96 ≤ 2 ^ 128) }
    ensures extent { result ≡ extent_in zone offset end }
    ensures small { result.start + 1 < 2 ^ 128 }
{
    let end = match end {
        Some(end) => Some(file_offset(zone, end)),
        None if zone.is_sure => zone.limit.map(u128::from),
        None => None,
    };
    Extent {
        start: file_offset(zone, offset),
        end,
    }
}

/// Whether all offsets from one up to another, in bytes, are held.
pub(crate) fn are_all_held(holdings: &Holdings<'_>, from: u128, to: u128) -> bool
    ensures { result ≡ are_all_held holdings.now from to }
{
    if from >= to {
        return true;
    }
    let end = u128::from(holdings.held_end());
    to <= end && holdings.are_all_held(from as u64, to as u64)
}

/// Whether all offsets from one up to another, in bytes, are in the set: held or at hand.
pub(crate) fn are_all_known(set: &Cover, from: u128, to: u128) -> bool
    ensures { (known : KnownParts) → AreKnown known set.now → result ≡ are_all_known known from to }
{
    if from >= to {
        return true;
    }
    to <= u128::from(set.end()) && set.has_all(from as u64, to as u64)
}

/// Whether an offset from one up to another, in bytes, is in the set.
pub(crate) fn is_any_known(set: &Cover, from: u128, to: u128) -> bool
    ensures { (known : KnownParts) → AreKnown known set.now → result ≡ is_any_known known from to }
{
    let end = u128::from(set.end());
    from < end && set.meets(from as u64, to.min(end) as u64)
}

/// Whether a disputed packet covers an offset from one up to another, in bytes.
pub(crate) fn is_any_disputed(holdings: &Holdings<'_>, from: u128, to: u128) -> bool
    ensures { result ≡ is_any_disputed holdings.now from to }
{
    let end = u128::from(holdings.held_end());
    from < end && holdings.is_any_disputed(from as u64, to.min(end) as u64)
}

/// Whether the bytes begin or end after an end.
fn ends_behind(extent: Extent, end: u64) -> bool
    ensures { result ≡ ends_behind extent end }
{
    let end = u128::from(end);
    end <= extent.start || extent.end.is_some_and(|e| end < e)
}

/// Whether the bytes don't lie in the zone: they begin or end after its limit, or begin where no essence can lie.
fn lies_elsewhere(beside: &Cover, location: Location) -> bool
    ensures { (notes : List NoteParts) → AreBesideEssence notes beside.now → result ≡ lies_elsewhere notes location }
{
    let extent = location.extent;
    location
        .zone
        .limit
        .is_some_and(|limit| ends_behind(extent, limit))
        || is_beside_essence(beside, extent.start)
}

/// How the bytes stand, by what is held, by the set of what is held or at hand, and by where no essence can lie.
pub(crate) fn standing_in(
    holdings: &Holdings<'_>,
    set: &Cover,
    beside: &Cover,
    location: Location,
) -> UnitStanding
    requires { location.extent.start + 1 < 2 ^ 128 }
    ensures { (known : KnownParts) → holdings.now ≡ known.notes → AreKnown known set.now
        → AreBesideEssence known.notes beside.now → result ≡ standing_in known location }
{
    let zone = location.zone;
    let extent = location.extent;
    let end = extent.end.unwrap_or(extent.start + 1);
    if lies_elsewhere(beside, location) {
        return UnitStanding::Elsewhere;
    }
    if !zone.is_sure && !are_all_held(holdings, u128::from(zone.origin), end) {
        return UnitStanding::Unsure;
    }
    if is_any_disputed(holdings, extent.start, end) {
        return UnitStanding::Disputed;
    }
    if !is_any_known(set, extent.start, end) {
        return UnitStanding::Missing;
    }
    if extent.end.is_some() && are_all_held(holdings, extent.start, end) {
        return UnitStanding::Held;
    }
    if extent.end.is_some() && are_all_known(set, extent.start, end) {
        UnitStanding::Hand
    } else {
        UnitStanding::Part
    }
}

/// How bytes stand, if it is known where they lie, or why it isn't.
pub(crate) fn standing_by(
    holdings: &Holdings<'_>,
    set: &Cover,
    beside: &Cover,
    location: Result<Location, UnitStanding>,
) -> UnitStanding
    requires { ForOk location (λ l. l.extent.start + 1 < 2 ^ 128) }
    ensures { (known : KnownParts) → holdings.now ≡ known.notes → AreKnown known set.now
        → AreBesideEssence known.notes beside.now → result ≡ standing_by known location }
{
    match location {
        Ok(location) => standing_in(holdings, set, beside, location),
        Err(standing) => standing,
    }
}

/// Whether bytes that stand so lie in their partition, as far as what is held says.
pub(crate) fn is_told(standing: UnitStanding) -> bool
    ensures { result ≡ is_told standing }
{
    matches!(
        standing,
        UnitStanding::Disputed
            | UnitStanding::Missing
            | UnitStanding::Part
            | UnitStanding::Held
            | UnitStanding::Hand
    )
}

/// Where bytes lie that stand so, if that is given.
pub(crate) fn extent_by(
    standing: UnitStanding,
    location: Result<Location, UnitStanding>,
) -> Option<Extent>
    ensures { result ≡ extent_by standing location }
{
    match location {
        Ok(location) => {
            if is_told(standing) {
                Some(location.extent)
            } else {
                None
            }
        }
        Err(_) => None,
    }
}
