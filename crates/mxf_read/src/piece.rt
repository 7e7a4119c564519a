//! A piece whose bytes come in parts.
ghost use Rattle.std.specs.Prelude.{◌≡◌, ◌≤◌, ◌<◌, ◌++◌, ◌↔◌, [], List, ℕ, None, length, take, IfOk, IsTrue, OnOk};
ghost use Rattle.std.specs.Prelude.{OnErr, false, is_some};
ghost use Rattle.sha2.specs.Sha256.{sha256};
ghost use Rattle.mxf_klv.specs.PieceReading.{IsOpen, heads_at, rest_in};
ghost use Rattle.mxf_catalogue.specs.Content.{reduced_union};
ghost use Rattle.mxf_skim.specs.declared.scan.Scan.{Scan};
ghost use Rattle.mxf_skim.specs.declared.scan.Scan.TheVariants.{Full};

use crate::coming::ComingValue;
use crate::digesting::{DigestedPacket, FEWEST, LEAST_VALUE, digests_of, packets_at_front};
use crate::report::Report;
use mxf_catalogue::Catalogue;
use mxf_klv::{KEY_AND_LENGTH, Note, OutOfMemory, Stop, next_key_and_length};
use mxf_skim::Scan;
use sha2::{Digest, Sha256};
use std::alloc::Global;

/// A piece whose bytes come in parts: the notes of the packets that have come whole, and what has come of the next.
///
/// Of that one it holds no more than the key and the length, and the value if it is kept. A skim passes over the values
/// of a container's packets: it can be told that bytes pass, and no byte of them counts.
pub struct Piece {
    alloc: Global,
    scan: Scan,
    notes: Catalogue,
    at: u64,
    /// What has come of the next packet, as long as key and length aren't whole.
    head: Vec<u8>,
    value: Option<ComingValue>,
    stop: Option<Stop>,
    /// The digest of no byte.
    of_nothing: [u8; 32],

    ghost digested: { of_nothing ≡ sha256 [] },
}

// Written out, a drop is one call wherever a piece is let go.
impl Drop for Piece {
    fn drop(self) {
        let Piece {
            alloc: _,
            scan: _,
            notes: _notes,
            at: _,
            head: _head,
            value: _value,
            stop: _,
            of_nothing: _,
        } = self;
    }
}

impl Piece {
    ghost use Rattle.mxf_read.specs.Coming.{HasCome};
    ghost use Rattle.mxf_read.specs.Feeding.{Fails, Fed, Feeds, IsFed, Knows, NotesNone, NotesOne, TakesFront, TakesSome};
    ghost use Rattle.mxf_read.specs.Feeding.{Tells, begun_heads, option_list, passing_left, waits_for_more};
    ghost use Rattle.mxf_read.specs.WholePackets.{StandAtFront};
    ghost use Rattle.mxf_read.specs.Absorbs.{report_of};

    /// No byte of the piece at a file offset, all values of which are read.
    pub fn new(alloc: Global, offset: u64) -> Piece
        ensures { Fed Full offset [] result }
    {
        Piece::by(alloc, Scan::Full, offset)
    }

    /// No byte of the piece at a file offset, which is read or skimmed.
    pub fn by(alloc: Global, scan: Scan, offset: u64) -> Piece
        ensures { Fed scan offset [] result }
    {
        Piece {
            alloc,
            scan,
            notes: Catalogue::new(alloc),
            at: offset,
            head: Vec::new(alloc),
            value: None,
            stop: None,
            of_nothing: Sha256::digest(&[]),
        }
    }

    /// Whether the piece has stopped, whatever bytes follow.
    pub(crate) fn has_stopped(&self) -> bool
        ensures { result ≡ is_some self.now.stop }
    {
        self.stop.is_some()
    }

    /// Whether the value that has begun has more than `left` bytes to come.
    pub(crate) fn is_cut(&self, left: u64) -> bool
        ensures { result ≡ waits_for_more self.now.value left }
    {
        match &self.value {
            Some(value) => left < value.left(),
            None => false,
        }
    }

    /// The packet whose value has begun, if one has.
    pub(crate) fn coming(&self) -> Option<&ComingValue> {
        self.value.as_ref()
    }

    /// Whether any of the last `left` bytes is wanted: none is after a stop, nor inside a value that they don't end.
    pub fn wants(&self, left: u64) -> bool
        ensures more { IsTrue result → 0 < left }
        ensures enough { result ≡ false → (scan : Scan) (o : ℕ) (m x : List ℕ) → length x ≡ left
            → Fed scan o m self.now → Tells scan o (m ++ x) self.now }
    {
        left > 0 && !self.has_stopped() && !self.is_cut(left)
    }

    /// What is noted of the piece, when no more bytes come.
    pub(crate) fn report(&self) -> Report
        ensures { (scan : Scan) (o : ℕ) (m : List ℕ) → Fed scan o m self.now → result ≡ report_of o m }
    {
        let noted = self.notes.len() as u64;
        if let Some(stop) = self.stop {
            return Report { noted, stop };
        }
        if self.value.is_none() && self.head.is_empty() {
            return Report {
                noted,
                stop: Stop::End,
            };
        }
        Report {
            noted,
            stop: Stop::Truncated(self.at),
        }
    }

    /// Adds the head of the next packet, if key and length have come whole. No more bytes come.
    pub(crate) fn add_head(&mut self) -> Result<(), OutOfMemory>
        ensures added { OnOk result ((scan : Scan) (o : ℕ) (m : List ℕ) → Fed scan o m self.old
            → self.new.notes ≡ reduced_union self.old.notes (heads_at self.old.at (rest_in o m))) }
        ensures err { OnErr result (NotesNone self.old self.new) }
    {
        if self.has_stopped() {
            return Ok(());
        }
        if let Some(value) = &self.value {
            self.notes.add(value.head())?;
        }
        Ok(())
    }

    /// The head of the next packet, if its value has begun and the piece hasn't stopped.
    pub fn cut_head(&self) -> Option<Note>
        ensures { option_list result ≡ begun_heads self.now.stop self.now.value }
    {
        if self.has_stopped() {
            return None;
        }
        let value = self.value.as_ref()?;
        Some(value.head())
    }

    /// The number of bytes that are to come of a value that is passed over; 0 if there is no such value.
    pub fn passing(&self) -> u64
        ensures { result ≡ passing_left self.now.stop self.now.value }
    {
        match &self.value {
            Some(value) if !self.has_stopped() && value.is_passing() => value.left(),
            _ => 0,
        }
    }

    /// The next `count` bytes, all of a value that is passed over, whatever they are.
    pub fn pass(&mut self, count: u64) -> Result<(), OutOfMemory>
        requires fed { IsFed self.old }
        requires within { count ≤ passing_left self.old.stop self.old.value }
        ensures passed { OnOk result ((x : List ℕ) → length x ≡ count → Feeds self.old self.new x) }
    {
        if count == 0 {
            return Ok(());
        }
        match self.value.take() {
            Some(mut value) => {
                value.pass(count);
                self.go_on(value)?;
                Ok(())
            }
            None => Ok(()),
        }
    }

    /// The number of notes.
    pub(crate) fn noted(&self) -> u64
        ensures { result ≡ length self.now.notes }
    {
        self.notes.len() as u64
    }

    /// The file offset of the next packet, in bytes.
    pub(crate) fn at(&self) -> u64
        ensures { result ≡ self.now.at }
    {
        self.at
    }

    /// The notes of the packets that have come whole.
    pub fn into_notes(self) -> Catalogue
        ensures { result ≡ self.notes }
    {
        let Piece {
            alloc: _,
            scan: _,
            notes,
            at: _,
            head: _head,
            value: _value,
            stop: _,
            of_nothing: _,
        } = self;
        notes
    }

    /// The next bytes of the piece, however many.
    pub fn feed(&mut self, bytes: &[u8]) -> Result<(), OutOfMemory>
        requires { IsFed self.old }
        ensures fed { OnOk result (Feeds self.old self.new bytes.now) }
        ensures err { OnErr result (Fails self.old self.new bytes.now) }
    {
        let mut rest = bytes;
        'bytes: while !rest.is_empty() && self.stop.is_none() {
            let used = self.take(rest)?;
            let (_, after) = rest.split_at(used);
            rest = after;
        }
        Ok(())
    }

    /// Whether the next byte begins a packet, whose value is read.
    fn reads_next_packet(&self) -> bool
        ensures value { IsTrue result → self.now.value ≡ None }
        ensures head { IsTrue result → self.now.head.items ≡ [] }
        ensures scan { IsTrue result → self.now.scan ≡ Full }
    {
        matches!(self.scan, Scan::Full) && self.value.is_none() && self.head.is_empty()
    }

    /// Notes packets, which stand at the front of the next bytes, and says how many bytes they have. Their values are
    /// digested at once.
    fn take_packets(
        &mut self,
        packets: &[DigestedPacket<'_>],
        _bytes: &[u8],
    ) -> Result<usize, OutOfMemory>
        requires goes_on { self.old.stop ≡ None }
        requires value { self.old.value ≡ None }
        requires head { self.old.head.items ≡ [] }
        requires scan { self.old.scan ≡ Full }
        requires stand { StandAtFront self.old.at _bytes.now packets.now }
        requires some { 0 < length packets.now }
        requires few { length packets.now ≤ 64 }
        ensures { TakesSome self.old self.new _bytes.now result }
    {
        let start = self.at;
        let found = digests_of(packets);
        for (packet, digest) in packets.iter().zip(found.iter()) {
            self.add_note(packet.note(self.at, *digest))?;
        }
        Ok((self.at - start) as usize)
    }

    /// Takes bytes of the next packet, or whole packets whose values are digested at once, and says how many bytes.
    fn take(&mut self, bytes: &[u8]) -> Result<usize, OutOfMemory>
        requires fed { IsFed self.old }
        requires goes_on { self.old.stop ≡ None }
        requires more { 0 < length bytes.now }
        ensures { TakesSome self.old self.new bytes.now result }
    {
        match self.value.take() {
            Some(value) => self.take_value(value, bytes),
            None => self.take_head(bytes),
        }
    }

    /// Takes bytes of the next packet's key and length, and says how many. If they come whole, they are read where they
    /// lie; if whole packets do whose values are digested at once, these are taken.
    fn take_head(&mut self, bytes: &[u8]) -> Result<usize, OutOfMemory>
        requires fed { IsFed self.old }
        requires goes_on { self.old.stop ≡ None }
        requires head { self.old.value ≡ None }
        requires more { 0 < length bytes.now }
        ensures { TakesSome self.old self.new bytes.now result }
    {
        if !self.head.is_empty() {
            return self.take_more_of_head(bytes);
        }
        match next_key_and_length(self.at, bytes) {
            Ok((key, ber)) => {
                if ber.value() >= LEAST_VALUE && self.reads_next_packet() {
                    let packets = packets_at_front(self.alloc, self.at, bytes)?;
                    if packets.len() >= FEWEST {
                        return self.take_packets(&packets, bytes);
                    }
                }
                let value = ComingValue::by(self.alloc, self.scan, self.at, key, ber)?;
                self.go_on(value)?;
                Ok(16 + usize::from(ber.width()))
            }
            Err(_) => self.take_more_of_head(bytes),
        }
    }

    /// Takes bytes of the next packet's key and length, after those that came before, and says how many.
    fn take_more_of_head(&mut self, bytes: &[u8]) -> Result<usize, OutOfMemory>
        requires fed { IsFed self.old }
        requires goes_on { self.old.stop ≡ None }
        requires head { self.old.value ≡ None }
        requires more { 0 < length bytes.now }
        ensures { TakesFront self.old self.new bytes.now result }
    {
        let known = self.head.len();
        let count = bytes.len().min(KEY_AND_LENGTH as usize - known);
        self.head.extend_from_slice(&bytes[..count])?;
        match next_key_and_length(self.at, &self.head) {
            Ok((key, ber)) => {
                self.head.clear();
                let value = ComingValue::by(self.alloc, self.scan, self.at, key, ber)?;
                self.go_on(value)?;
                Ok(16 + usize::from(ber.width()) - known)
            }
            Err(stop) => {
                if !may_go_on(stop) {
                    self.stop = Some(stop);
                }
                Ok(count)
            }
        }
    }

    /// Takes bytes of the next packet's value, and says how many.
    fn take_value(&mut self, value: ComingValue, bytes: &[u8]) -> Result<usize, OutOfMemory>
        requires goes_on { self.old.stop ≡ None }
        requires value { self.old.value ≡ None }
        requires head { self.old.head.items ≡ [] }
        requires left { 0 < value.left }
        requires more { 0 < length bytes.now }
        ensures some { IfOk result (λ n. 0 < n) }
        ensures room { IfOk result (λ n. n ≤ length bytes.now) }
        ensures fed { IfOk result (λ n. (scan : Scan) (o : ℕ) (m : List ℕ) → Knows scan o m self.old
            → HasCome scan self.old.at value (rest_in o m) → Fed scan o (m ++ take n bytes.now) self.new) }
        ensures err { OnErr result (NotesNone self.old self.new) }
    {
        let mut value = value;
        let count = value.left().min(bytes.len() as u64) as usize;
        value.take(&bytes[..count])?;
        self.go_on(value)?;
        Ok(count)
    }

    /// Notes the next packet if its value has come whole, and otherwise waits for the rest of it.
    fn go_on(&mut self, value: ComingValue) -> Result<(), OutOfMemory>
        requires goes_on { self.old.stop ≡ None }
        requires value { self.old.value ≡ None }
        requires head { self.old.head.items ≡ [] }
        ensures fed { OnOk result ((scan : Scan) (o : ℕ) (m x : List ℕ) → Knows scan o m self.old
            → HasCome scan self.old.at value (rest_in o m ++ x) → Fed scan o (m ++ x) self.new) }
        ensures err { OnErr result (NotesNone self.old self.new) }
    {
        if value.left() > 0 {
            self.value = Some(value);
            return Ok(());
        }
        self.add_note(value.into_note(self.of_nothing))
    }

    /// Adds the note of the next packet, behind which the piece goes on.
    fn add_note(&mut self, note: Note) -> Result<(), OutOfMemory>
        ensures added { OnOk result (NotesOne self.old self.new note) }
        ensures err { OnErr result (NotesNone self.old self.new) }
    {
        let end = note.end();
        self.notes.add(note)?;
        self.at = end;
        Ok(())
    }
}

/// Whether more bytes may lead on after this stop.
fn may_go_on(stop: Stop) -> bool
    ensures { IsTrue result ↔ IsOpen stop }
{
    matches!(stop, Stop::End | Stop::Truncated(_))
}
