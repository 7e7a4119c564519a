//! The packets of a piece: bytes that lie at an offset of a file (this project's profile).
ghost use Rattle.std.specs.Prelude.{◌≡◌, ◌↔◌, ◌+◌, ◌≤◌, ◌++◌, ◌∷◌, [], ℕ, List, None, Some, Ok, IfOk, IfErr, IfSome};
ghost use Rattle.std.specs.Prelude.{IfNone};
ghost use Rattle.mxf_klv.specs.Parts.{LengthParts, NoteParts, PacketParts};
ghost use Rattle.mxf_klv.specs.Rising.{In};
ghost use Rattle.mxf_klv.specs.Ber.{ReadsLength};
ghost use Rattle.mxf_klv.specs.Packet.{size_of};
ghost use Rattle.mxf_klv.specs.declared.piece.Stop.{Stop};
ghost use Rattle.mxf_klv.specs.declared.piece.Stop.TheVariants.{Truncated};
ghost use Rattle.mxf_klv.specs.Piece.{BeginsWithCut, BeginsWithNone, IsPiece, IsStop, end_after};
ghost use Rattle.mxf_klv.specs.KeyAndLength.{BeginsWithKeyAndLength};
ghost use Rattle.mxf_klv.specs.Note.{greatest_end};
ghost use Rattle.mxf_klv.specs.PieceReading.{EndsAt, GoesOn, IsHeadOf, IsNoHead, IsOpen, end_with, heads_at, length_at};
ghost use Rattle.mxf_klv.specs.PieceReading.{packet_at, packets_in, rest_in, stop_in, stop_of};

use crate::ber::Ber;
use crate::label::Ul;
use crate::note::{MAX, Note};
use crate::packet::key_and_length::KeyAndLength;
use crate::packet::{Packet, PacketFault};
use std::fmt;

/// The greatest number of bytes of a packet's key and length (ST 336: a key of 16 bytes, a length of 9).
pub const KEY_AND_LENGTH: u64 = 25;

/// Why the reading of a piece ended. A place is the file offset, in bytes, of the packet that wasn't noted.
///
/// The causes are tested in the order in which they stand here.
#[derive(Clone, Copy, Debug, PartialEq, Eq)]
pub enum Stop {
    /// No byte is left.
    End,
    /// A byte that is present among the first four isn't a label's.
    NotUl(u64),
    /// The length is indefinite, or has more than eight bytes.
    BadLength(u64),
    /// Key and length are whole, and the packet would end above [`MAX`].
    TooFar(u64),
    /// Anything else that is missing.
    Truncated(u64),
    /// A range has no start: only a range answers it, never a piece. The offset is the first one after the window that
    /// was searched.
    NoStart(u64),
}

/// The word for the stop, as in `too-far`, without its place.
impl fmt::Display for Stop {
    ghost use Rattle.std.specs.Prelude.{Some};
    ghost use Rattle.mxf_klv.specs.Words.{stop_name};

    ghost output = { λ stop. Some (stop_name stop) };

    fn fmt<W: fmt::Write>(&self, f: &mut fmt::Formatter<W>) -> fmt::Result {
        f.write_str(match *self {
            Stop::End => "end",
            Stop::NotUl(_) => "not-ul",
            Stop::BadLength(_) => "bad-length",
            Stop::TooFar(_) => "too-far",
            Stop::Truncated(_) => "truncated",
            Stop::NoStart(_) => "no-start",
        })
    }
}

/// The packet at the front of a piece at a file offset, and its number of bytes; else why the piece stops there.
///
/// Only a packet that ends at or below [`MAX`] is given.
pub fn next_packet(offset: u64, bytes: &[u8]) -> Result<(Packet<'_>, usize), Stop>
    ensures packet { IfOk result (λ x. (packet_at offset bytes.now ≡ Some x.0) × (x.1 ≡ size_of x.0)) }
    ensures none { IfErr result (λ stop. (packet_at offset bytes.now ≡ None) × (stop ≡ stop_of offset bytes.now)) }

    // The same by the packets of the piece and its stop.
    ensures goes_on { IfOk result (λ x. GoesOn offset bytes.now x.0 x.1) }
    ensures ends { IfErr result (EndsAt offset bytes.now) }
{
    match read_key_and_length(offset, bytes) {
        Ok(head) => head.packet().ok_or(Stop::Truncated(offset)),
        Err(stop) => Err(stop),
    }
}

/// The key and the length of the packet at the front of a piece at a file offset; else why the piece stops there.
///
/// If they aren't whole and nothing is at fault, the stop is [`Stop::End`] or [`Stop::Truncated`]. Only those of a
/// packet that ends at or below [`MAX`] are given.
pub fn next_key_and_length(offset: u64, bytes: &[u8]) -> Result<(Ul, Ber), Stop>
    ensures head { IfOk result (λ x. IsHeadOf offset bytes.now x.0 x.1) }
    ensures none { IfErr result (IsNoHead offset bytes.now) }
{
    match read_key_and_length(offset, bytes) {
        Ok(head) => Ok((head.key(), head.ber())),
        Err(stop) => Err(stop),
    }
}

/// The head of the packet at the front of a piece, which ends at or below [`MAX`]; else why the piece stops there.
fn read_key_and_length(offset: u64, bytes: &[u8]) -> Result<KeyAndLength<'_>, Stop>
    ensures head { IfOk result (λ h. BeginsWithKeyAndLength bytes.now h.key h.ber h.after.now) }
    ensures within { IfOk result (λ h. end_with offset h.ber ≤ greatest_end) }
    ensures none { IfErr result (IsNoHead offset bytes.now) }
{
    if bytes.is_empty() {
        return Err(Stop::End);
    }
    let head = match KeyAndLength::read(bytes) {
        Ok(head) => head,
        Err(PacketFault::NotUl) => return Err(Stop::NotUl(offset)),
        Err(PacketFault::Indefinite) => return Err(Stop::BadLength(offset)),
        Err(PacketFault::TooWide) => return Err(Stop::BadLength(offset)),
        Err(PacketFault::Short) => return Err(Stop::Truncated(offset)),
    };
    if u128::from(offset) + head.size() > u128::from(MAX) {
        return Err(Stop::TooFar(offset));
    }
    Ok(head)
}

/// The head of the packet at the front of a piece at a file offset, if key and length are whole, the value is cut and
/// the packet would end at or below [`MAX`]. It takes no memory.
pub fn cut_head(offset: u64, bytes: &[u8]) -> Option<Note>
    ensures some { IfSome result (λ n. heads_at offset bytes.now ≡ n ∷ []) }
    ensures none { IfNone result (heads_at offset bytes.now ≡ []) }
{
    let Ok(head) = KeyAndLength::read(bytes) else {
        return None;
    };
    match head.packet() {
        Some(_) => None,
        None => head.note(offset),
    }
}

/// A law: each piece has exactly one list of packets and one rest, those that `packets_in` and `rest_in` give.
pub fn each_piece_is_read_one_way()
    ensures some { (offset : ℕ) (bytes : List ℕ)
        → IsPiece offset bytes (packets_in offset bytes) (rest_in offset bytes) }
    ensures one { (offset : ℕ) (bytes : List ℕ) (packets : List PacketParts) (rest : List ℕ)
        → IsPiece offset bytes packets rest → (packets ≡ packets_in offset bytes) × (rest ≡ rest_in offset bytes) }
{}

/// A law: each piece has exactly one stop, that of its rest; and `stop_of` gives the one stop of a rest that begins
/// with no packet that ends at or below [`MAX`]. The length that it looks at is the one that `ReadsLength` gives.
pub fn each_piece_has_one_stop()
    ensures rest { (offset : ℕ) (rest : List ℕ) (stop : Stop) → BeginsWithNone offset rest
        → (stop_of offset rest ≡ stop) ↔ IsStop offset rest stop }
    ensures piece { (offset : ℕ) (bytes : List ℕ) (packets : List PacketParts) (rest : List ℕ) (stop : Stop)
        → IsPiece offset bytes packets rest
        → (stop_in offset bytes ≡ stop) ↔ IsStop (end_after offset packets) rest stop }
    ensures length { (bytes : List ℕ) (l : LengthParts) → (length_at bytes ≡ Some l) ↔ ReadsLength bytes (Ok l) }
{}

/// A law: what more bytes make of a piece. Its packets stay, and after them come those of a piece that begins where
/// they end, with the bytes of its rest and then the others. A stop that no more bytes lead past stays, and no packet
/// follows.
pub fn more_bytes_go_on_with_a_piece()
    ensures packets { (offset : ℕ) (bytes more : List ℕ) → packets_in offset (bytes ++ more)
        ≡ packets_in offset bytes ++ packets_in (end_after offset (packets_in offset bytes))
        (rest_in offset bytes ++ more) }
    ensures rest { (offset : ℕ) (bytes more : List ℕ) → rest_in offset (bytes ++ more)
        ≡ rest_in (end_after offset (packets_in offset bytes)) (rest_in offset bytes ++ more) }
    ensures stop { (offset : ℕ) (bytes more : List ℕ) → ¬ IsOpen (stop_in offset bytes)
        → (packets_in offset (bytes ++ more) ≡ packets_in offset bytes)
        × (stop_in offset (bytes ++ more) ≡ stop_in offset bytes) }
{}

/// A law: the head that a piece has beside its packets is that of its rest, if this begins with a label and a whole
/// length, and its stop is `Truncated`.
pub fn each_piece_has_its_head()
    ensures head { (offset : ℕ) (rest : List ℕ) (n : NoteParts)
        → In n (heads_at offset rest) ↔ BeginsWithCut offset rest n }
    ensures truncated { (offset : ℕ) (rest : List ℕ) (n : NoteParts)
        → BeginsWithCut offset rest n → stop_of offset rest ≡ Truncated offset }
{}
