//! The start of a range: bytes whose first may lie inside a packet (this project's profile).
ghost use Rattle.std.specs.Prelude.{◌≡◌, ◌↔◌, ◌+◌, ◌≤◌, ◌<◌, [], IfSome, ℕ, List, None, Some, length, drop, take};
ghost use Rattle.mxf_klv.specs.Kind.{kind_of};
ghost use Rattle.mxf_klv.specs.Note.{greatest_end};
ghost use Rattle.mxf_klv.specs.Label.{IsLabel, begins_as_label};
ghost use Rattle.mxf_read.specs.Ranges.{HasNoStart, IsStart, MayBegin, ShowsNextBefore, is_start_key, may_begin};
ghost use Rattle.mxf_read.specs.Ranges.{piece_bytes, piece_offset, start_in};

use memchr::memmem::Finder;
use mxf_klv::{Kind, Ul, kind, next_key_and_length};

/// What each label begins with (ST 336, universal label).
const LABEL_START: [u8; 4] = [0x06, 0x0E, 0x2B, 0x34];

/// Byte 5 of the keys of packs, sets and wrappers (ST 336, groups registry).
const GROUPS: u8 = 0x02;

/// Where the piece of a range begins: the least position of its window, in bytes, at which one may. The window's first
/// byte lies at `offset`, in bytes, and may lie inside a packet.
///
/// A piece may begin where a whole key and a whole length stand, the packet ends at or below [`MAX`](mxf_klv::MAX), and
/// a label follows it, as far as the window has bytes. The key is of a kind that isn't [`Kind::Other`](mxf_klv::Kind),
/// or of the groups registry. So a label in the value of a primer, a pack or a set is passed over. Bytes of essence
/// that look like a packet aren't told from one.
///
/// It is one pass over the window, with a test of bounded time at each label.
pub fn start_of(offset: u64, window: &[u8]) -> Option<usize>
    ensures start { result ≡ start_in offset window.now }
    ensures within { IfSome result (λ start. (start < length window.now) × (offset + start ≤ greatest_end)) }
{
    let labels = Finder::new(&LABEL_START);
    let mut passed = 0;
    'labels: loop {
        let Some(found) = labels.find(&window[passed..]) else {
            return None;
        };
        let position = passed + found;
        if may_begin_at(offset, window, position) {
            return Some(position);
        }
        passed = position + 1;
    }
}

/// Whether a piece may begin at a position of a window whose first byte lies at `offset`.
fn may_begin_at(offset: u64, window: &[u8], position: usize) -> bool
    requires { position ≤ length window.now }
    ensures { result ≡ may_begin (offset + position) (drop position window.now) }
{
    match offset.checked_add(position as u64) {
        Some(place) => may_begin(place, &window[position..]),
        None => false,
    }
}

/// Whether a piece may begin at the front of bytes, the first of which lies at `offset`.
fn may_begin(offset: u64, bytes: &[u8]) -> bool
    ensures { result ≡ may_begin offset bytes.now }
{
    let Ok((key, ber)) = next_key_and_length(offset, bytes) else {
        return false;
    };
    let size = 16 + u64::from(ber.width()) + ber.value();
    is_start_key(&key) && begins_as_label(behind(bytes, size))
}

/// Whether the key is that of a packet by which a piece may begin.
fn is_start_key(key: &Ul) -> bool
    ensures { result ≡ is_start_key key.now }
{
    !matches!(kind(key), Kind::Other) || key.bytes()[4] == GROUPS
}

/// The bytes after the first `size`.
fn behind(bytes: &[u8], size: u64) -> &[u8]
    ensures { result.now ≡ drop size bytes.now }
{
    if size > bytes.len() as u64 {
        return &[];
    }
    &bytes[size as usize..]
}

/// Whether the bytes begin as a label does, as far as there are any.
fn begins_as_label(bytes: &[u8]) -> bool
    ensures { result ≡ begins_as_label bytes.now }
{
    let present = bytes.len().min(4);
    bytes[..present] == LABEL_START[..present]
}

/// A law: a window has one start, the one that `start_in` gives. It has none exactly if a piece may begin at none of
/// its positions.
pub fn each_range_has_one_start()
    ensures some { (offset : ℕ) (window : List ℕ) (start : ℕ)
        → (start_in offset window ≡ Some start) ↔ IsStart offset window start }
    ensures none { (offset : ℕ) (window : List ℕ)
        → (start_in offset window ≡ None) ↔ ((position : ℕ) → ¬ MayBegin offset window position) }
{}

/// A law: the piece of a range begins at the start of its first 33,554,432 bytes, whatever bytes follow them. It has no
/// byte if those have no start. So a start is found if a piece may begin by all bytes of the range at a position whose
/// next 25 bytes lie among them: it is that position or an earlier one. The first position by all bytes is the start
/// itself, unless an earlier packet reaches so far that the window's end cuts the label after it.
pub fn each_start_in_the_window_is_found()
    ensures begins { (offset : ℕ) (bytes : List ℕ) (start : ℕ) → IsStart offset (take 33554432 bytes) start
        → (piece_offset offset bytes ≡ offset + start) × (piece_bytes offset bytes ≡ drop start bytes) }
    ensures none { (offset : ℕ) (bytes : List ℕ) → HasNoStart offset (take 33554432 bytes)
        → piece_bytes offset bytes ≡ [] }
    ensures found { (offset : ℕ) (bytes : List ℕ) (position : ℕ) → MayBegin offset bytes position
        → position + 25 ≤ 33554432 → (start : ℕ) × (start ≤ position) × IsStart offset (take 33554432 bytes) start }
    ensures first { (offset : ℕ) (bytes : List ℕ) (start : ℕ) → IsStart offset bytes start → start + 25 ≤ 33554432
        → ShowsNextBefore start offset (take 33554432 bytes) 33554432 → piece_offset offset bytes ≡ offset + start }
{}
