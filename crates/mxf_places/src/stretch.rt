//! Where the header metadata and the index table segments of a partition lie.
ghost use Rattle.std.specs.Prelude.{◌≡◌, ◌↔◌, ℕ, is_some, List, Some};
ghost use Rattle.mxf_klv.specs.Parts.{NoteParts};
ghost use Rattle.mxf_catalogue.specs.Content.{IsContent};
ghost use Rattle.mxf_views.specs.Partitions.{PartitionParts};
ghost use Rattle.mxf_sets.specs.PackReadings.{primer_at};
ghost use Rattle.mxf_sets.specs.Readable.{read_as};
ghost use Rattle.mxf_places.specs.Claims.{begins, begins_index, begins_metadata, behind_metadata, index_of, known_end};
ghost use Rattle.mxf_places.specs.Claims.{metadata_of, stretch_from, zone_of};
ghost use Rattle.mxf_places.specs.Named.{IsStretch, IsZone};
ghost use Rattle.mxf_places.specs.declared.stretch.Stretch.{Stretch};
ghost use Rattle.mxf_places.specs.declared.stretch.Zone.{Zone};

use crate::held::Holdings;
use mxf_klv::{Kind, MAX, Note};
use mxf_sets::Primer;
use mxf_views::Partition;

/// What a partition counts the bytes of (ST 377-1, HeaderByteCount and IndexByteCount).
#[derive(Clone, Copy, Debug, PartialEq, Eq)]
pub enum Zone {
    /// The header metadata, from the primer pack on.
    Metadata,
    /// The index table segments.
    Index,
}

/// A stretch of the file: from where, up to which end, in bytes. If it is open, nothing is known from its last byte on.
#[derive(Clone, Copy, Debug, PartialEq, Eq)]
pub struct Stretch {
    /// A file offset, in bytes.
    pub from: u64,
    /// The file offset after the last byte.
    pub end: u128,
    /// Whether more may follow after the end, so that the end isn't known.
    pub is_open: bool,
}

impl Stretch {
    /// The end, in bytes, if it is known.
    pub fn known_end(&self) -> Option<u128>
        ensures { result ≡ known_end self.now }
    {
        if self.is_open { None } else { Some(self.end) }
    }
}

/// Where the zone of a partition lies, as far as that is known.
pub fn zone_of(holdings: &Holdings<'_>, zone: Zone, partition: &Partition) -> Option<Stretch>
    ensures { result ≡ zone_of zone holdings.now partition.now }
{
    match zone {
        Zone::Metadata => metadata_of(holdings, partition),
        Zone::Index => index_of(holdings, partition),
    }
}

/// Where the header metadata of a partition lie.
#[tactic(auto, unfolding(crate::specs::Claims::metadata_of))]
fn metadata_of(holdings: &Holdings<'_>, partition: &Partition) -> Option<Stretch>
    ensures { result ≡ metadata_of holdings.now partition.now }
{
    let count = partition.numbers.header_byte_count;
    if count == 0 {
        return None;
    }
    stretch_from(holdings, Zone::Metadata, partition.end, count)
}

/// Where the bytes after the header metadata of a partition begin, in bytes, if that is known.
pub fn behind_metadata(holdings: &Holdings<'_>, partition: &Partition) -> Option<u128>
    ensures { result ≡ behind_metadata holdings.now partition.now }
{
    if partition.numbers.header_byte_count == 0 {
        return Some(u128::from(partition.end));
    }
    metadata_of(holdings, partition)?.known_end()
}

/// Where the index table segments of a partition lie.
#[tactic(auto, unfolding(crate::specs::Claims::index_of))]
fn index_of(holdings: &Holdings<'_>, partition: &Partition) -> Option<Stretch>
    ensures { result ≡ index_of holdings.now partition.now }
{
    let count = partition.numbers.index_byte_count;
    if count == 0 {
        return None;
    }
    let from = behind_metadata(holdings, partition)?;
    if from > u128::from(MAX) {
        // No packet begins there.
        holdings.views().catalogue().laws();
        return None;
    }
    stretch_from(holdings, Zone::Index, from as u64, count)
}

/// The stretch of a given number of bytes, counted from the first packet after the fills at an offset, which has to
/// begin the zone; if that packet isn't known, the stretch up to its first byte.
fn stretch_from(holdings: &Holdings<'_>, zone: Zone, from: u64, count: u64) -> Option<Stretch>
    ensures { result ≡ stretch_from zone holdings.now from count }
{
    let first = holdings.over_fills(from);
    let (size, is_open) = match holdings.views().catalogue().undisputed_at(first) {
        Some(note) if begins(zone, note) => (count, false),
        None if holdings.is_unknown(first) => (1, true),
        _ => return None,
    };
    Some(Stretch {
        from,
        end: u128::from(first) + u128::from(size),
        is_open,
    })
}

/// Whether the packet of the note begins the zone of a partition: a primer pack, readable if it is whole, or an index
/// table segment.
#[tactic(auto, unfolding(crate::specs::Claims::begins_metadata, crate::specs::Claims::begins_index))]
fn begins(zone: Zone, note: &Note) -> bool
    ensures { result ≡ begins zone note.now }
{
    match zone {
        Zone::Metadata => note.kind() == Kind::Primer && (note.is_head() || is_primer(note)),
        Zone::Index => note.kind() == Kind::Segment,
    }
}

/// Whether the note keeps its value, and that is a primer pack.
fn is_primer(note: &Note) -> bool
    ensures { result ≡ is_some (read_as primer_at note.now) }
{
    let Some(value) = note.value() else {
        return false;
    };
    Primer::read(value).is_ok()
}

/// A law: the stretches of a given number of bytes from an offset on, and those of the zones of partitions, are
/// determined by the first packet after the fills there (ST 377-1, HeaderByteCount and IndexByteCount).
pub fn zones_by_definition()
    ensures stretches { (zone : Zone) (notes : List NoteParts) (from count : ℕ) (s : Stretch) → IsContent notes
        → (stretch_from zone notes from count ≡ Some s) ↔ IsStretch zone notes from count s }
    ensures zones { (zone : Zone) (notes : List NoteParts) (p : PartitionParts) (s : Stretch) → IsContent notes
        → (zone_of zone notes p ≡ Some s) ↔ IsZone zone notes p s }
{}
