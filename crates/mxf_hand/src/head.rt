//! The bytes of a head's key and length.
ghost use Rattle.std.specs.Prelude.{◌≡◌, ◌≢◌, ◌+◌, ◌<◌, ◌≤◌, ℕ, IfOk, get_or, length, true, false};
ghost use Rattle.mxf_places.specs.Heads.{key_and_length};

use mxf_klv::{Ber, Encode, Note, OutOfMemory};
use std::alloc::Global;

/// The bytes of key and length of a packet. They take memory.
pub(crate) fn key_and_length(alloc: Global, head: &Note) -> Result<Vec<u8>, OutOfMemory>
    ensures { IfOk result (λ v. v.items ≡ key_and_length head.now) }
{
    let _offset = head.offset();
    let mut bytes = Vec::from_slice(alloc, &head.key().bytes())?;
    let length = Ber::new(head.width(), head.length()).unwrap();
    match length.write_to(&mut bytes) {
        Ok(()) => Ok(bytes),
        Err(_) => Err(OutOfMemory),
    }
}

/// Whether these bytes stand in others after the first `from`.
pub(crate) fn stand_at(bytes: &[u8], from: usize, others: &[u8]) -> bool
    ensures agree { result ≡ true
        → (i : ℕ) → i < length bytes.now → get_or others.now (from + i) 0 ≡ get_or bytes.now i 0 }
    ensures differ { result ≡ false → from + length bytes.now ≤ length others.now
        → (i : ℕ) × (i < length bytes.now) × (get_or others.now (from + i) 0 ≢ get_or bytes.now i 0) }
{
    if from > others.len() || bytes.len() > others.len() - from {
        return false;
    }
    for (i, byte) in bytes.iter().enumerate() {
        if others[from + i] != *byte {
            return false;
        }
    }
    true
}
