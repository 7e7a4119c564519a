//! The content of a recording, as fragments are looked up in it.
ghost use Rattle.std.specs.Prelude.{◌≡◌, ◌&&◌, not, filter, IfNone, IfOk, IfSome, option_to_list};
ghost use Rattle.std.specs.Option.{option_copied};
ghost use Rattle.mxf_klv.specs.Rising.{In};
ghost use Rattle.mxf_find.specs.Telling.{IsNoneOf, IsOneOf, is_fill, is_sound, is_teller_by_length, is_teller_by_value};
ghost use Rattle.mxf_find.specs.Telling.{tells_in};
ghost use Rattle.mxf_find.specs.Votes.{voted_by};

use crate::packets::{ByPacket, by_packet, only_alike, only_with_front};
use mxf_catalogue::Catalogue;
use mxf_klv::{Kind, Note, OutOfMemory};
use std::alloc::Global;
use std::marker::Model;

/// By what a note tells which recording it is of.
#[derive(Clone, Copy, PartialEq, Eq)]
pub(crate) struct Tells {
    /// No other note has its key, width, length and held bytes.
    pub by_value: bool,
    /// No other note has its key, width and length.
    pub by_length: bool,
}

/// The content of a recording in which fragments are looked up, with its notes in an order in which those of equal
/// packets stand together.
#[derive(Drop)]
pub struct Recording<'a> {
    content: &'a Catalogue,
    packets: Vec<ByPacket<'a>>,
}

impl<'a> Model for Recording<'a> {
    ghost use Rattle.std.specs.Prelude.{List};
    ghost use Rattle.mxf_klv.specs.Parts.{NoteParts};
    ghost use Rattle.mxf_find.specs.Packets.{IsByPacket};

    ghost Value = { List NoteParts };

    ghost view = { λ r. r.content.now };

    ghost invariant = { λ r. IsByPacket r.content.now r.packets.items };
}

impl<'a> Recording<'a> {
    /// The recording of this content. It takes memory, and n log n of its notes.
    pub fn of(alloc: Global, content: &'a Catalogue) -> Result<Recording<'a>, OutOfMemory>
        ensures { IfOk result (λ r. r ≡ content.now) }
    {
        content.laws();
        let packets = by_packet(alloc, content)?;
        Ok(Recording { content, packets })
    }

    /// What it holds.
    pub(crate) fn content(&self) -> &'a Catalogue
        ensures { result.now ≡ self.now }
    {
        self.content
    }

    /// By what one of its notes tells: binary searches.
    pub(crate) fn tells(&self, note: &Note) -> Tells
        requires { In note.now self.now }
        ensures { result ≡ tells_in self.now note.now }
    {
        Tells {
            by_value: self.teller_by_value(note).is_some(),
            by_length: self.teller_by_length(note).is_some(),
        }
    }

    /// Its note by which a note votes, which tells by this: binary searches.
    pub(crate) fn voted(&self, note: &Note, tells: Tells) -> Option<&'a Note>
        ensures { option_to_list (option_copied result) ≡ filter (voted_by tells self.now note.now) self.now }
    {
        let _ = &self.content;
        if let Some(other) = self.voted_by_value(note, tells) {
            return Some(other);
        }
        self.voted_by_length(note, tells)
    }

    /// Its whole note by which a whole one votes.
    fn voted_by_value(&self, note: &Note, tells: Tells) -> Option<&'a Note>
        ensures some { IfSome result (λ n. IsOneOf (voted_by tells self.now note.now) self.now n.now) }
        ensures none { IfNone result
            (IsNoneOf (λ n. note.now.whole && n.whole && voted_by tells self.now note.now n) self.now) }
    {
        if note.is_head() {
            return None;
        }
        if !tells.by_value {
            return None;
        }
        self.teller_by_value(note)
    }

    /// Its note by which a note votes, of which one is a head.
    fn voted_by_length(&self, note: &Note, tells: Tells) -> Option<&'a Note>
        ensures some { IfSome result (λ n. IsOneOf (voted_by tells self.now note.now) self.now n.now) }
        ensures none { IfNone result
            (IsNoneOf (λ n. not (note.now.whole && n.whole) && voted_by tells self.now note.now n) self.now) }
    {
        if !tells.by_length {
            return None;
        }
        let other = self.teller_by_length(note)?;
        if note.is_head() || other.is_head() {
            Some(other)
        } else {
            None
        }
    }

    /// Its note that tells by value and says the same as another but for the offset.
    fn teller_by_value(&self, note: &Note) -> Option<&'a Note>
        ensures some { IfSome result (λ n. IsOneOf (is_teller_by_value self.now note.now) self.now n.now) }
        ensures none { IfNone result (IsNoneOf (is_teller_by_value self.now note.now) self.now) }
    {
        let only = only_alike(&self.packets, note)?;
        if only.is_head() {
            return None;
        }
        if self.is_sound(only) {
            Some(only)
        } else {
            None
        }
    }

    /// Its note that tells by length and has the key, width and length of another.
    fn teller_by_length(&self, note: &Note) -> Option<&'a Note>
        ensures some { IfSome result (λ n. IsOneOf (is_teller_by_length self.now note.now) self.now n.now) }
        ensures none { IfNone result (IsNoneOf (is_teller_by_length self.now note.now) self.now) }
    {
        let only = only_with_front(&self.packets, note)?;
        if self.is_sound(only) {
            Some(only)
        } else {
            None
        }
    }

    /// Whether one of its notes shares no byte with another and is no fill.
    fn is_sound(&self, note: &Note) -> bool
        requires { In note.now self.now }
        ensures { result ≡ is_sound self.now note.now }
    {
        !self.content.disputes(note) && !is_fill(note.kind())
    }
}

/// Whether packets of this kind only fill room.
fn is_fill(kind: Kind) -> bool
    ensures { result ≡ is_fill kind }
{
    matches!(&kind, Kind::Fill)
}
