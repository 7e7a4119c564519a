//! The first packet of the essence of a partition (ST 377-1, Partition Pack).
ghost use Rattle.std.specs.Prelude.{◌≡◌, ◌↔◌, List, Some};
ghost use Rattle.mxf_klv.specs.Parts.{NoteParts};
ghost use Rattle.mxf_catalogue.specs.Content.{IsContent};
ghost use Rattle.mxf_views.specs.Partitions.{PartitionParts};
ghost use Rattle.mxf_units.specs.Limits.{IsFirstPacket};
ghost use Rattle.std.specs.Option.{option_copied};
ghost use Rattle.mxf_units.specs.EssenceZones.{behind_index, essence_at, first_packet, may_be_essence};

use mxf_klv::{Kind, MAX, Note};
use mxf_places::{Holdings, Zone, behind_metadata, zone_of};
use mxf_views::Partition;

/// Where the bytes after the header metadata and the index table segments of a partition begin, in bytes, if that is
/// known.
pub fn behind_index(holdings: &Holdings<'_>, partition: &Partition) -> Option<u128>
    ensures { result ≡ behind_index holdings.now partition.now }
{
    if partition.numbers.index_byte_count == 0 {
        return behind_metadata(holdings, partition);
    }
    zone_of(holdings, Zone::Index, partition)?.known_end()
}

/// Whether packets of the kind may be essence.
pub(crate) fn may_be_essence(kind: Kind) -> bool
    ensures { result ≡ may_be_essence kind }
{
    matches!(kind, Kind::Essence | Kind::Other)
}

/// The packet at a file offset, whole or head, if it may be essence and shares no byte with another.
fn essence_at<'a>(holdings: &Holdings<'a>, offset: u64) -> Option<&'a Note>
    ensures { option_copied result ≡ essence_at holdings.now offset }
{
    let note = holdings.views().catalogue().undisputed_at(offset)?;
    if may_be_essence(note.kind()) {
        Some(note)
    } else {
        None
    }
}

/// The first packet of the essence of a partition: the one after its header metadata and its index table segments, and
/// after the fills that follow these.
#[tactic(auto, unfolding(crate::specs::EssenceZones::first_packet))]
pub(crate) fn first_packet<'a>(holdings: &Holdings<'a>, partition: &Partition) -> Option<&'a Note>
    ensures { option_copied result ≡ first_packet holdings.now partition.now }
{
    let behind = behind_index(holdings, partition)?;
    if behind > u128::from(MAX) {
        // No packet begins there.
        holdings.views().catalogue().laws();
        return None;
    }
    essence_at(holdings, holdings.over_fills(behind as u64))
}

/// A law of [`Units::unit`](crate::Units::unit): the first packet of the essence of a partition is the one after its
/// header metadata and its index table segments, and after the fills there, that may be essence and shares no byte with
/// another.
pub fn first_packets_by_definition()
    ensures { (notes : List NoteParts) (p : PartitionParts) (n : NoteParts) → IsContent notes
        → (first_packet notes p ≡ Some n) ↔ IsFirstPacket notes p n }
{}
