//! Packets whose keys no other packet has.
ghost use Rattle.std.specs.Prelude.{◌≡◌, ◌↔◌, List, IfOk, IsTrue, map};
ghost use Rattle.std.specs.List.{list_any};
ghost use Rattle.std.specs.Str.{bytes_eq};
ghost use Rattle.std.specs.Cmp.Lexicographic.{slice_cmp};
ghost use Rattle.std.specs.List.Sorted.{IsSorted};
ghost use Rattle.std.specs.Ordering.{nat_cmp};
ghost use Rattle.mxf_catalogue.specs.Content.{IsContent};
ghost use Rattle.mxf_klv.specs.Kind.{is_in_containers};
ghost use Rattle.mxf_klv.specs.Parts.{NoteParts};
ghost use Rattle.mxf_klv.specs.Rising.{In};
ghost use Rattle.mxf_doubts.specs.Strange.{AreKeysOf, IsLone, bare_key, count_of, has_structure_1, is_container_packet};
ghost use Rattle.mxf_doubts.specs.Strange.{is_dark, is_lone, is_named, is_strange};

use mxf_catalogue::Catalogue;
use mxf_klv::{Kind, Note, OutOfMemory, Ul};
use std::alloc::Global;
use std::cmp::Ordering;
use std::marker::Model;

/// A key with 0 in place of its version, byte 8.
fn bare_key(key: &Ul) -> [u8; 16]
    ensures { result ≡ bare_key key.now }
{
    let mut bytes = key.bytes();
    bytes[7] = 0;
    bytes
}

/// The keys of packets of kind Other that standards name, with 0 in place of their versions.
#[rattlefmt::skip]
const NAMED: [[u8; 16]; 12] = [
    [0x06, 0x0E, 0x2B, 0x34, 0x02, 0x05, 0x01, 0x00, 0x0D, 0x01, 0x03, 0x01, 0x04, 0x01, 0x01, 0x00], // ST 385, system metadata pack
    [0x06, 0x0E, 0x2B, 0x34, 0x02, 0x43, 0x01, 0x00, 0x0D, 0x01, 0x03, 0x01, 0x04, 0x01, 0x02, 0x01], // ST 385, set of package metadata
    [0x06, 0x0E, 0x2B, 0x34, 0x02, 0x43, 0x01, 0x00, 0x0D, 0x01, 0x03, 0x01, 0x04, 0x01, 0x03, 0x01], // ST 385, set of picture items
    [0x06, 0x0E, 0x2B, 0x34, 0x02, 0x43, 0x01, 0x00, 0x0D, 0x01, 0x03, 0x01, 0x04, 0x01, 0x04, 0x01], // ST 385, set of sound items
    [0x06, 0x0E, 0x2B, 0x34, 0x02, 0x43, 0x01, 0x00, 0x0D, 0x01, 0x03, 0x01, 0x04, 0x01, 0x05, 0x01], // ST 385, set of data items
    [0x06, 0x0E, 0x2B, 0x34, 0x02, 0x05, 0x01, 0x00, 0x0D, 0x01, 0x03, 0x01, 0x14, 0x02, 0x01, 0x00], // ST 405, system metadata pack
    [0x06, 0x0E, 0x2B, 0x34, 0x02, 0x53, 0x01, 0x00, 0x0D, 0x01, 0x03, 0x01, 0x14, 0x02, 0x01, 0x00], // ST 405, set 1
    [0x06, 0x0E, 0x2B, 0x34, 0x02, 0x53, 0x01, 0x00, 0x0D, 0x01, 0x03, 0x01, 0x14, 0x02, 0x02, 0x00], // ST 405, set 2
    [0x06, 0x0E, 0x2B, 0x34, 0x02, 0x53, 0x01, 0x00, 0x0D, 0x01, 0x03, 0x01, 0x14, 0x02, 0x03, 0x00], // ST 405, set 3
    [0x06, 0x0E, 0x2B, 0x34, 0x02, 0x04, 0x01, 0x00, 0x0D, 0x01, 0x03, 0x01, 0x02, 0x7E, 0x01, 0x00], // ST 429-6, encrypted triplet
    [0x06, 0x0E, 0x2B, 0x34, 0x02, 0x05, 0x01, 0x00, 0x0D, 0x01, 0x02, 0x01, 0x01, 0x03, 0x11, 0x00], // ST 410, generic stream partition pack
    [0x06, 0x0E, 0x2B, 0x34, 0x01, 0x01, 0x01, 0x00, 0x0D, 0x01, 0x05, 0x09, 0x01, 0x00, 0x00, 0x00], // ST 410, generic stream data element
];

/// Whether the key is one of these.
fn has(keys: &[[u8; 16]], key: &[u8; 16]) -> bool
    ensures { result ≡ list_any (λ one. bytes_eq one key.now) keys.now }
{
    keys.iter().any(|one| one == key)
}

/// Whether a standard names the key.
fn is_named(key: &Ul) -> bool
    ensures { result ≡ is_named key.now }
{
    has(&NAMED, &bare_key(key))
}

/// Whether byte 7 of the key, the structure of what its register names, is 1.
fn has_structure_1(key: &Ul) -> bool
    ensures { result ≡ has_structure_1 key.now }
{
    key.bytes()[6..7] == [0x01]
}

/// Whether it is a packet in an essence container: an element, or another packet by a key of the containers.
pub fn is_container_packet(note: &Note) -> bool
    ensures { result ≡ is_container_packet note.now }
{
    match note.kind() {
        Kind::Essence => true,
        Kind::Other => note.key().bytes()[8..12] == [0x0D, 0x01, 0x03, 0x01],
        _ => false,
    }
}

/// The keys of all notes of a catalogue without their versions, in the order of the notes.
fn gathered(alloc: Global, catalogue: &Catalogue) -> Result<Vec<[u8; 16]>, OutOfMemory>
    ensures { IfOk result (λ v. v.items ≡ map (λ n. bare_key n.key) catalogue.now) }
{
    let mut keys = Vec::new(alloc);
    for note in catalogue.notes() {
        keys.push(bare_key(&note.key()))?;
    }
    Ok(keys)
}

/// The same, sorted.
fn sorted(alloc: Global, catalogue: &Catalogue) -> Result<Vec<[u8; 16]>, OutOfMemory>
    ensures { IfOk result (λ v. AreKeysOf catalogue.now v.items) }
{
    let mut keys = gathered(alloc, catalogue)?;
    keys.sort_unstable();
    Ok(keys)
}

/// How many of sorted keys are this one but for its version: two binary searches.
fn count_of(keys: &[[u8; 16]], key: &Ul) -> usize
    requires { IsSorted (slice_cmp nat_cmp) keys.now }
    ensures { result ≡ count_of key.now keys.now }
{
    let bare = bare_key(key);
    let to = keys.partition_point(|other| other.cmp(&bare) < Ordering::Greater);
    let from = keys.partition_point(|other| other.cmp(&bare) < Ordering::Equal);
    to - from.min(to)
}

/// The keys of all notes of a catalogue, disputed ones and heads too, to be counted but for their versions.
pub struct Keys<'a> {
    catalogue: &'a Catalogue,
    sorted: Vec<[u8; 16]>,
}

// Written out, a drop is one call wherever the keys are let go.
impl Drop for Keys<'_> {
    fn drop(self) {
        let Keys {
            catalogue: _,
            sorted: _sorted,
        } = self;
    }
}

impl<'a> Model for Keys<'a> {
    ghost use Rattle.std.specs.Prelude.{List};
    ghost use Rattle.mxf_klv.specs.Parts.{NoteParts};
    ghost use Rattle.mxf_doubts.specs.Strange.{AreKeysOf};

    ghost Value = { List NoteParts };

    ghost view = { λ k. k.catalogue.now };

    ghost invariant = { λ k. AreKeysOf k.catalogue.now k.sorted.items };
}

impl<'a> Keys<'a> {
    /// The keys of the notes of a catalogue. It takes memory.
    pub fn of(alloc: Global, catalogue: &'a Catalogue) -> Result<Keys<'a>, OutOfMemory>
        ensures { IfOk result (λ k. k ≡ catalogue.now) }
    {
        let sorted = sorted(alloc, catalogue)?;
        Ok(Keys { catalogue, sorted })
    }

    /// Whether no other note has the key of one but for the version: two binary searches.
    pub fn is_lone(&self, note: &Note) -> bool
        ensures { result ≡ is_lone self.now note.now }
    {
        count_of(&self.sorted, &note.key()) == 1
    }

    /// Whether ordinary writers don't write a packet with the key of one: no standard knows the key, and no other packet
    /// has it; or it is the key of an essence element or a set by another structure. Two binary searches.
    #[tactic(auto, unfolding(crate::specs::Strange::is_strange))]
    pub fn is_strange(&self, note: &Note) -> bool
        ensures { result ≡ is_strange self.now note.now }
    {
        match note.kind() {
            Kind::Other => self.is_lone(note) && !is_named(&note.key()),
            Kind::Essence | Kind::RawSet => !has_structure_1(&note.key()),
            _ => false,
        }
    }

    /// Whether a packet is dark data: no standard knows it, there are others of its key, and it lies in no container. Two
    /// binary searches.
    #[tactic(auto, unfolding(crate::specs::Strange::is_dark))]
    pub fn is_dark(&self, note: &Note) -> bool
        ensures { result ≡ is_dark self.now note.now }
    {
        note.kind() == Kind::Other && !self.is_strange(note) && !is_container_packet(note)
    }
}

/// A law of [`Keys::is_lone`]: no note of the content but the note itself has its key but for the version.
pub fn lone_by_definition()
    ensures { (notes : List NoteParts) (n : NoteParts) → IsContent notes → In n notes
        → IsTrue (is_lone notes n) ↔ IsLone notes n }
{}
