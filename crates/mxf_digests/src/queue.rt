//! Values in a queue, which four lanes take in turn.
ghost use Rattle.mxf_digests.specs.Queue.{IsHashing, message};
ghost use Rattle.sha2.specs.Sha256.{sha256};
ghost use Rattle.std.specs.Prelude.{◌≡◌, ◌≢◌, ◌≤◌, ◌<◌, ℕ, [], length, map, slice_index, slice_index_or, slice_set};

use crate::lanes::{Lanes, digest_at, value_at};
use sha2::{Digest, Sha256};
use std::convert::AsSlice;
use std::simd::u32x4;

// Goes on until the first lane has ended its value, writes the digest of that value, and gives the lane value `next`.
// Returns which value is the next one then. If one value alone is left, and is sooner hashed from its start, all stays
// as it was.
fn end_first<V: AsSlice<u8>>(
    lanes: &mut Lanes,
    state: &mut [u32x4; 8],
    values: &[V],
    digests: &mut [[u8; 32]],
    next: usize,
) -> usize
    requires { IsHashing (map V.items values.now) lanes.old state.old next digests.old }
    ensures { IsHashing (map V.items values.now) lanes.new state.new result digests.new }
{
    let place = lanes.first_to_end(values);
    let index = lanes.value(place);
    if index >= values.len() || lanes.is_sooner_alone(values, place) {
        return next;
    }
    let steps = lanes.left(values, place);
    lanes.advance(state, values, steps);
    digests[index] = digest_at(state, place);
    lanes.begin(state, place, next);
    values.len().min(next + 1)
}

// Hashes value `index` from its start.
fn hash_alone<V: AsSlice<u8>>(values: &[V], digests: &mut [[u8; 32]], index: usize)
    ensures { digests.new ≡ slice_set digests.old index (sha256 (message (map V.items values.now) index)) }
{
    if index < digests.len() {
        digests[index] = Sha256::digest(value_at(values, index));
    }
}

// Hashes the values from `start` on, one after another.
fn hash_from<V: AsSlice<u8>>(values: &[V], digests: &mut [[u8; 32]], start: usize)
    requires long { length digests.old ≡ length values.now }
    requires low { start ≤ length values.now }
    requires hashed { (i : ℕ) → i < start
        → slice_index_or digests.old i [] ≡ sha256 (message (map V.items values.now) i) }
    ensures { digests.new ≡ map (λ v. sha256 (V.items v)) values.now }
{
    'values: for index in start..values.len() {
        hash_alone(values, digests, index);
    }
}

// Hashes from their start the values that the lanes have left, and those that no lane has had.
fn hash_the_rest<V: AsSlice<u8>>(lanes: &Lanes, values: &[V], digests: &mut [[u8; 32]], next: usize)
    requires long { length digests.old ≡ length values.now }
    requires low { next ≤ length values.now }
    requires hashed { (i : ℕ) → i < next → ((j : ℕ) → j < 4 → slice_index lanes.now.value j ≢ i)
        → slice_index_or digests.old i [] ≡ sha256 (message (map V.items values.now) i) }
    ensures { digests.new ≡ map (λ v. sha256 (V.items v)) values.now }
{
    'places: for place in 0..4 {
        hash_alone(values, digests, lanes.value(place));
    }
    hash_from(values, digests, next);
}

// Hashes the values in four lanes, which take one after another in their order.
fn hash_in_lanes<V: AsSlice<u8>>(values: &[V], digests: &mut [[u8; 32]])
    requires { length digests.old ≡ length values.now }
    ensures { digests.new ≡ map (λ v. sha256 (V.items v)) values.now }
{
    let mut lanes = Lanes::idle(values.len());
    let mut state = [u32x4::splat(0); 8];
    let mut next = 0;
    'places: for place in 0..4 {
        lanes.begin(&mut state, place, next);
        next = values.len().min(next + 1);
    }
    'ends: for _end in 0..values.len() {
        next = end_first(&mut lanes, &mut state, values, digests, next);
    }
    hash_the_rest(&lanes, values, digests, next);
}

/// Writes the SHA-256 digest of each value (FIPS 180-4, section 6.2) to its place in `digests`, which has one for each.
///
/// Three and more values are hashed side by side, in four lanes. A lane that has ended its value takes the next one.
/// One or two values, and a value of which more than half is left when all others are done, are hashed by `sha2`. It
/// takes no memory.
pub fn digests<V: AsSlice<u8>>(values: &[V], digests: &mut [[u8; 32]])
    requires { length digests.old ≡ length values.now }
    ensures { digests.new ≡ map (λ v. sha256 (V.items v)) values.now }
{
    if values.len() < 3 {
        hash_from(values, digests, 0);
    } else {
        hash_in_lanes(values, digests);
    }
}
