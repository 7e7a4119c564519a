//! Packets that can be read by their kind.
ghost use Rattle.std.specs.Prelude.{◌≡◌};
ghost use Rattle.mxf_references.specs.Readable.{is_unreadable, reads_value};

use mxf_klv::{Kind, Note};
use mxf_sets::{ContentStorage, Identification, Package, Preface, Primer, Segment};
use mxf_views::whole_items;

/// Whether the value can be read by its kind: as a primer pack, as a metadata set, as the items of a raw set, or as an
/// index table segment.
fn reads_value(kind: Kind, value: &[u8]) -> bool
    ensures { result ≡ reads_value kind value.now }
{
    match kind {
        Kind::Primer => Primer::read(value).is_ok(),
        Kind::Preface => Preface::read(value).is_ok(),
        Kind::Identification => Identification::read(value).is_ok(),
        Kind::ContentStorage => ContentStorage::read(value).is_ok(),
        Kind::MaterialPackage => Package::read(value).is_ok(),
        Kind::SourcePackage => Package::read(value).is_ok(),
        Kind::RawSet => whole_items(value).is_some(),
        Kind::Segment => Segment::read(value).is_ok(),
        _ => true,
    }
}

/// Whether the value isn't kept, or can't be read by its kind.
pub fn is_unreadable(note: &Note) -> bool
    ensures { result ≡ is_unreadable note.now }
{
    !note
        .value()
        .is_some_and(|value| reads_value(note.kind(), value))
}
