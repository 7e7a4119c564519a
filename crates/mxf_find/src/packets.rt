//! The notes of a content in an order in which those of equal packets stand together.
ghost use Rattle.std.specs.Prelude.{◌≡◌, ◌++◌, ◌<◌, ◌≤◌, List, ℕ, IfOk, OnOk, drop, filter, length, take};
ghost use Rattle.std.specs.List.{AllWithin};
ghost use Rattle.std.specs.Option.{option_copied};
ghost use Rattle.std.specs.Ordering.{nat_cmp, on, ordering_index};
ghost use Rattle.mxf_klv.specs.Note.{note_cmp};
ghost use Rattle.mxf_klv.specs.Rising.{IsRising};
ghost use Rattle.mxf_find.specs.Packets.{AreByPacket, front_of, is_same_length, is_same_packet, packet_cmp, packet_of};
ghost use Rattle.mxf_find.specs.Packets.{held_cmp, sole};

use mxf_catalogue::Catalogue;
use mxf_klv::{Held, Note, OutOfMemory, sort_once};
use std::alloc::Global;
use std::cmp::Ordering;
use std::marker::Model;

/// A note that goes by what it says of its packet, and then by its offset.
#[derive(Drop)]
pub(crate) struct ByPacket<'a> {
    note: &'a Note,
}

impl<'a> Model for ByPacket<'a> {
    ghost use Rattle.mxf_klv.specs.Parts.{NoteParts};

    ghost Value = { NoteParts };

    ghost view = { λ p. p.note.now };
}

impl<'a> PartialEq for ByPacket<'a> {
    ghost use Rattle.std.specs.Ordering.{eq_by_cmp};
    ghost use Rattle.std.specs.Cmp.{partial_equiv_from_equiv};
    ghost use Rattle.mxf_find.specs.Packets.{packet_cmp};
    ghost use Rattle.mxf_find.specs.PacketOrder.{packet_equiv};

    ghost eq = { eq_by_cmp packet_cmp };

    ghost laws = { partial_equiv_from_equiv packet_equiv };

    fn eq(&self, other: &ByPacket<'a>) -> bool {
        self.cmp(other) == Ordering::Equal
    }
}

impl<'a> Eq for ByPacket<'a> {
    ghost use Rattle.mxf_find.specs.PacketOrder.{packet_equiv};

    ghost laws = { packet_equiv };
}

impl<'a> PartialOrd for ByPacket<'a> {
    ghost use Rattle.std.specs.Ordering.{as_partial_cmp};
    ghost use Rattle.std.specs.Cmp.{partial_order_from_agreeing_total};
    ghost use Rattle.std.specs.Prelude.{refl};
    ghost use Rattle.mxf_find.specs.Packets.{packet_cmp};
    ghost use Rattle.mxf_find.specs.PacketOrder.{packet_total};

    ghost partial_cmp = { as_partial_cmp packet_cmp };

    ghost laws = { partial_order_from_agreeing_total packet_cmp packet_total (λ _ _. refl) (λ _ _. refl) };

    fn partial_cmp(&self, other: &ByPacket<'a>) -> Option<Ordering> {
        Some(self.cmp(other))
    }
}

impl<'a> Ord for ByPacket<'a> {
    ghost use Rattle.std.specs.Prelude.{refl};
    ghost use Rattle.mxf_find.specs.Packets.{packet_cmp};
    ghost use Rattle.mxf_find.specs.PacketOrder.{packet_total};

    ghost cmp = { packet_cmp };

    ghost total = { packet_total };

    ghost matches_partial_cmp = { λ _ _. refl };

    ghost matches_eq = { λ _ _. refl };

    fn cmp(&self, other: &ByPacket<'a>) -> Ordering {
        cmp_packets(self.note, other.note).then(self.note.offset().cmp(&other.note.offset()))
    }
}

/// How the keys and lengths of two notes stand: by key, then width, then length.
fn cmp_fronts(a: &Note, b: &Note) -> Ordering
    ensures { result ≡ note_cmp (front_of a.now) (front_of b.now) }
{
    a.key()
        .cmp(&b.key())
        .then(a.width().cmp(&b.width()))
        .then(a.length().cmp(&b.length()))
}

/// How what two notes say stands, wherever their packets lie: by key, width and length, then a head first, then by the
/// held bytes.
fn cmp_packets(a: &Note, b: &Note) -> Ordering
    ensures { result ≡ note_cmp (packet_of a.now) (packet_of b.now) }
{
    cmp_fronts(a, b).then_with(|| cmp_held(a, b))
}

/// How what two notes hold stands: nothing, of a head, first, then by the bytes.
fn cmp_held(a: &Note, b: &Note) -> Ordering
    ensures { result ≡ held_cmp a.now b.now }
{
    b.is_head()
        .cmp(&a.is_head())
        .then_with(|| held_bytes(a).cmp(held_bytes(b)))
}

/// The bytes that a note holds: a value, or the digest of one; of a head none.
fn held_bytes(note: &Note) -> &[u8]
    ensures { result.now ≡ note.now.held }
{
    let _ = note.offset();
    match note.held() {
        Held::Whole(value) => value,
        Held::Digest(digest) => digest,
        Held::Head => &[],
    }
}

/// The notes of a catalogue by what they say of their packets: n log n of them.
pub(crate) fn by_packet<'a>(
    alloc: Global,
    content: &'a Catalogue,
) -> Result<Vec<ByPacket<'a>>, OutOfMemory>
    ensures { IfOk result (λ v. AreByPacket content.now v.items) }
{
    let mut packets = listed(alloc, content)?;
    sort_once(&mut packets);
    Ok(packets)
}

/// The notes of a catalogue in their own order.
fn listed<'a>(alloc: Global, content: &'a Catalogue) -> Result<Vec<ByPacket<'a>>, OutOfMemory>
    ensures { IfOk result (λ v. v.items ≡ content.now) }
{
    let mut packets = Vec::new(alloc);
    for note in content.notes() {
        packets.push(ByPacket { note })?;
    }
    Ok(packets)
}

/// The only one of the packets with the key, width and length of a note: two binary searches.
pub(crate) fn only_with_front<'a>(packets: &[ByPacket<'a>], note: &Note) -> Option<&'a Note>
    requires { IsRising packet_cmp packets.now }
    ensures { option_copied result ≡ sole (filter (is_same_length note.now) packets.now) }
{
    let to = packets.partition_point(|packet| cmp_fronts(packet.note, note) < Ordering::Greater);
    let from = packets.partition_point(|packet| cmp_fronts(packet.note, note) < Ordering::Equal);
    only_between(packets, from.min(to), to)
}

/// The only one of the packets that says the same as a note but for the offset: two binary searches.
pub(crate) fn only_alike<'a>(packets: &[ByPacket<'a>], note: &Note) -> Option<&'a Note>
    requires { IsRising packet_cmp packets.now }
    ensures { option_copied result ≡ sole (filter (is_same_packet note.now) packets.now) }
{
    let to = packets.partition_point(|packet| cmp_packets(packet.note, note) < Ordering::Greater);
    let from = packets.partition_point(|packet| cmp_packets(packet.note, note) < Ordering::Equal);
    only_between(packets, from.min(to), to)
}

/// The packet from a place up to another, if it is one.
fn only_between<'a>(packets: &[ByPacket<'a>], from: usize, to: usize) -> Option<&'a Note>
    requires order { from ≤ to }
    requires bound { to ≤ length packets.now }
    ensures { option_copied result ≡ sole (drop from (take to packets.now)) }
{
    let (front, _) = packets.split_at(to);
    let (_, run) = front.split_at(from);
    let (only, others) = run.split_first()?;
    if others.is_empty() {
        Some(only.note)
    } else {
        None
    }
}
