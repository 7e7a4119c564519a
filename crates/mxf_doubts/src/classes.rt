//! Which sets have which items (ST 377-1 and the AAF object specification, keys and local tags of sets).
ghost use Rattle.std.specs.Prelude.{◌≡◌, ◌↔◌, IsTrue, not};
ghost use Rattle.std.specs.List.{list_any};
ghost use Rattle.mxf_klv.specs.Bytes.{AreBytes};
ghost use Rattle.mxf_klv.specs.Parts.{NoteParts};
ghost use Rattle.mxf_sets.specs.Items.{ItemParts};
ghost use Rattle.mxf_doubts.specs.Classes.{begins_as_set, class_of, fits, has_class, has_tag, is_known, is_misfit, is_taken};
ghost use Rattle.mxf_doubts.specs.Classes.{IsMisfit, takes};

use mxf_klv::{Note, Ul};
use mxf_sets::Items;
use mxf_views::set_items;

/// Tags from one to another stand in sets of the classes from one to another, and in those of other rows with them.
struct Row {
    first_tag: u16,
    last_tag: u16,
    first_class: u8,
    last_class: u8,
}

#[rattlefmt::skip]
const ROWS: [Row; 57] = [
    Row { first_tag: 0x0201, last_tag: 0x0202, first_class: 0x03, last_class: 0x17 }, // structural components
    Row { first_tag: 0x0201, last_tag: 0x0202, first_class: 0x41, last_class: 0x41 }, // structural components
    Row { first_tag: 0x0201, last_tag: 0x0202, first_class: 0x45, last_class: 0x45 }, // structural components
    Row { first_tag: 0x1001, last_tag: 0x1001, first_class: 0x0F, last_class: 0x0F }, // sequence
    Row { first_tag: 0x1101, last_tag: 0x1102, first_class: 0x11, last_class: 0x11 }, // source clip
    Row { first_tag: 0x1101, last_tag: 0x1102, first_class: 0x45, last_class: 0x45 }, // source clip
    Row { first_tag: 0x1201, last_tag: 0x1201, first_class: 0x11, last_class: 0x11 }, // source clip
    Row { first_tag: 0x1201, last_tag: 0x1201, first_class: 0x45, last_class: 0x45 }, // source clip
    Row { first_tag: 0x1501, last_tag: 0x1503, first_class: 0x14, last_class: 0x14 }, // timecode component
    Row { first_tag: 0x1901, last_tag: 0x1902, first_class: 0x18, last_class: 0x18 }, // content storage
    Row { first_tag: 0x2701, last_tag: 0x2701, first_class: 0x23, last_class: 0x23 }, // essence container data
    Row { first_tag: 0x3B02, last_tag: 0x3B03, first_class: 0x2F, last_class: 0x2F }, // preface
    Row { first_tag: 0x3B05, last_tag: 0x3B0B, first_class: 0x2F, last_class: 0x2F }, // preface
    Row { first_tag: 0x3C01, last_tag: 0x3C09, first_class: 0x30, last_class: 0x30 }, // identification
    Row { first_tag: 0x4001, last_tag: 0x4001, first_class: 0x32, last_class: 0x32 }, // network locator
    Row { first_tag: 0x4101, last_tag: 0x4101, first_class: 0x33, last_class: 0x33 }, // text locator
    Row { first_tag: 0x4401, last_tag: 0x4406, first_class: 0x35, last_class: 0x37 }, // packages
    Row { first_tag: 0x4408, last_tag: 0x4409, first_class: 0x35, last_class: 0x37 }, // packages
    Row { first_tag: 0x4701, last_tag: 0x4701, first_class: 0x37, last_class: 0x37 }, // source package
    Row { first_tag: 0x4801, last_tag: 0x4804, first_class: 0x39, last_class: 0x3B }, // tracks
    Row { first_tag: 0x4901, last_tag: 0x4902, first_class: 0x39, last_class: 0x39 }, // event track
    Row { first_tag: 0x4B01, last_tag: 0x4B02, first_class: 0x3B, last_class: 0x3B }, // timeline track
    Row { first_tag: 0x5001, last_tag: 0x5001, first_class: 0x3F, last_class: 0x3F }, // tagged value
    Row { first_tag: 0x5003, last_tag: 0x5003, first_class: 0x3F, last_class: 0x3F }, // tagged value
    Row { first_tag: 0x6101, last_tag: 0x6101, first_class: 0x41, last_class: 0x41 }, // descriptive marker
    Row { first_tag: 0x3001, last_tag: 0x3002, first_class: 0x24, last_class: 0x29 }, // file descriptors
    Row { first_tag: 0x3001, last_tag: 0x3002, first_class: 0x42, last_class: 0x44 }, // file descriptors
    Row { first_tag: 0x3001, last_tag: 0x3002, first_class: 0x47, last_class: 0x48 }, // file descriptors
    Row { first_tag: 0x3001, last_tag: 0x3002, first_class: 0x51, last_class: 0xFF }, // file descriptors
    Row { first_tag: 0x3004, last_tag: 0x3006, first_class: 0x24, last_class: 0x29 }, // file descriptors
    Row { first_tag: 0x3004, last_tag: 0x3006, first_class: 0x42, last_class: 0x44 }, // file descriptors
    Row { first_tag: 0x3004, last_tag: 0x3006, first_class: 0x47, last_class: 0x48 }, // file descriptors
    Row { first_tag: 0x3004, last_tag: 0x3006, first_class: 0x51, last_class: 0xFF }, // file descriptors
    Row { first_tag: 0x2F01, last_tag: 0x2F01, first_class: 0x24, last_class: 0x29 }, // descriptors of any kind
    Row { first_tag: 0x2F01, last_tag: 0x2F01, first_class: 0x2D, last_class: 0x2E }, // descriptors of any kind
    Row { first_tag: 0x2F01, last_tag: 0x2F01, first_class: 0x42, last_class: 0x44 }, // descriptors of any kind
    Row { first_tag: 0x2F01, last_tag: 0x2F01, first_class: 0x47, last_class: 0x4B }, // descriptors of any kind
    Row { first_tag: 0x2F01, last_tag: 0x2F01, first_class: 0x4E, last_class: 0x4E }, // descriptors of any kind
    Row { first_tag: 0x2F01, last_tag: 0x2F01, first_class: 0x51, last_class: 0xFF }, // descriptors of any kind
    Row { first_tag: 0x3F01, last_tag: 0x3F01, first_class: 0x24, last_class: 0x29 }, // descriptors of any kind
    Row { first_tag: 0x3F01, last_tag: 0x3F01, first_class: 0x2D, last_class: 0x2E }, // descriptors of any kind
    Row { first_tag: 0x3F01, last_tag: 0x3F01, first_class: 0x42, last_class: 0x44 }, // descriptors of any kind
    Row { first_tag: 0x3F01, last_tag: 0x3F01, first_class: 0x47, last_class: 0x4B }, // descriptors of any kind
    Row { first_tag: 0x3F01, last_tag: 0x3F01, first_class: 0x4E, last_class: 0x4E }, // descriptors of any kind
    Row { first_tag: 0x3F01, last_tag: 0x3F01, first_class: 0x51, last_class: 0xFF }, // descriptors of any kind
    Row { first_tag: 0x3201, last_tag: 0x321D, first_class: 0x24, last_class: 0x29 }, // picture descriptors
    Row { first_tag: 0x3201, last_tag: 0x321D, first_class: 0x51, last_class: 0xFF }, // picture descriptors
    Row { first_tag: 0x3301, last_tag: 0x330B, first_class: 0x24, last_class: 0x26 }, // CDCI picture descriptors
    Row { first_tag: 0x3301, last_tag: 0x330B, first_class: 0x28, last_class: 0x28 }, // CDCI picture descriptors
    Row { first_tag: 0x3301, last_tag: 0x330B, first_class: 0x51, last_class: 0xFF }, // CDCI picture descriptors
    Row { first_tag: 0x3401, last_tag: 0x3407, first_class: 0x24, last_class: 0x26 }, // RGBA picture descriptors
    Row { first_tag: 0x3401, last_tag: 0x3407, first_class: 0x29, last_class: 0x29 }, // RGBA picture descriptors
    Row { first_tag: 0x3401, last_tag: 0x3407, first_class: 0x52, last_class: 0xFF }, // RGBA picture descriptors
    Row { first_tag: 0x3D01, last_tag: 0x3D0D, first_class: 0x24, last_class: 0x26 }, // sound descriptors
    Row { first_tag: 0x3D01, last_tag: 0x3D0D, first_class: 0x42, last_class: 0x42 }, // sound descriptors
    Row { first_tag: 0x3D01, last_tag: 0x3D0D, first_class: 0x47, last_class: 0x48 }, // sound descriptors
    Row { first_tag: 0x3D01, last_tag: 0x3D0D, first_class: 0x52, last_class: 0xFF }, // sound descriptors
];

/// Whether a key begins as those of the sets of ST 377-1, but for the version.
fn begins_as_set(key: &[u8; 16]) -> bool
    ensures { result ≡ begins_as_set key.now }
{
    key[4..7] == [0x02, 0x53, 0x01] && key[8..14] == [0x0D, 0x01, 0x01, 0x01, 0x01, 0x01]
}

/// Whether all of a key but its version and byte 15 is as in these sets.
fn has_class(key: &[u8; 16]) -> bool
    ensures { result ≡ has_class key.now }
{
    begins_as_set(key) && key[15] == 0x00
}

/// The class of a set: byte 15 of its key, if it has one.
fn class_of(key: &Ul) -> Option<u8>
    ensures { result ≡ class_of key.now }
{
    let key = key.bytes();
    if has_class(&key) { Some(key[14]) } else { None }
}

fn has_tag(tag: u16, row: &Row) -> bool
    ensures { result ≡ has_tag tag row.now }
{
    row.first_tag <= tag && tag <= row.last_tag
}

fn takes(class: u8, row: &Row) -> bool
    ensures { result ≡ takes class row.now }
{
    row.first_class <= class && class <= row.last_class
}

/// Whether one of these rows knows the tag.
fn is_known(tag: u16, rows: &[Row]) -> bool
    ensures { result ≡ is_known tag rows.now }
{
    rows.iter().any(|row| has_tag(tag, row))
}

/// Whether one that knows the tag takes the class.
fn is_taken(class: u8, tag: u16, rows: &[Row]) -> bool
    ensures { result ≡ is_taken class tag rows.now }
{
    rows.iter()
        .any(|row| has_tag(tag, row) && takes(class, row))
}

/// Whether no row knows the tag, or one takes the class of a set.
fn fits(class: Option<u8>, tag: u16) -> bool
    ensures { result ≡ fits class tag }
{
    match class {
        Some(class) => !is_known(tag, &ROWS) || is_taken(class, tag, &ROWS),
        None => !is_known(tag, &ROWS),
    }
}

/// Whether one of the items of a set has a tag that sets of its class don't have.
fn has_misfit(class: Option<u8>, items: Items<'_>) -> bool
    ensures { result ≡ list_any (λ (i : ItemParts). not (fits class i.tag)) items.entry }
{
    for item in items {
        if !fits(class, item.tag) {
            return true;
        }
    }
    false
}

/// Whether it is a set that keeps its value, whose items can be read, and one of these has a tag that sets of its class
/// don't have.
#[tactic(auto, unfolding(crate::specs::Classes::is_misfit))]
pub fn is_misfit(note: &Note) -> bool
    ensures { result ≡ is_misfit note.now }
{
    match set_items(note) {
        Some(items) => has_misfit(class_of(&note.key()), items),
        None => false,
    }
}

/// A law of [`is_misfit`]: an item of the set has a tag that some row knows, and no row that knows the tag takes the class
/// of the set.
pub fn misfits_by_definition()
    ensures { (n : NoteParts) → AreBytes n.held → IsTrue (is_misfit n) ↔ IsMisfit n }
{}
