//! Four lanes, each with the value that it is at.
ghost use Rattle.mxf_digests.specs.Blocks.{block_count};
ghost use Rattle.mxf_digests.specs.Lanes.{lane};
ghost use Rattle.mxf_digests.specs.Queue.{IsUnderWay, left, message};
ghost use Rattle.sha2.specs.Sha256.{digest_bytes, initial_hash_256};
ghost use Rattle.std.specs.Prelude.{◌≡◌, ◌≢◌, ◌+◌, ◌-◌, ◌≤◌, ◌<◌, ◌^◌, ℕ, List, length, map, slice_index, slice_set};

use crate::padding::{block_at, count_blocks};
use crate::rounds::compress;
use std::convert::AsSlice;
use std::simd::u32x4;

// The initial hash value (section 5.3.3).
const INITIAL_HASH: [u32; 8] = [
    0x6a09_e667,
    0xbb67_ae85,
    0x3c6e_f372,
    0xa54f_f53a,
    0x510e_527f,
    0x9b05_688c,
    0x1f83_d9ab,
    0x5be0_cd19,
];

/// Value `index`. One that isn't among them is empty.
pub(crate) fn value_at<'a, V: AsSlice<u8>>(values: &'a [V], index: usize) -> &'a [u8]
    ensures value { result.now ≡ message (map V.items values.now) index }
    ensures fits { block_count result.now < 2 ^ 64 }
{
    match values.get(index) {
        Some(value) => value.as_slice(),
        None => &[],
    }
}

#[inline(always)]
fn with_word(words: u32x4, place: usize, word: u32) -> u32x4
    requires { place < 4 }
    ensures here { slice_index result place ≡ word }
    ensures others { (j : ℕ) → j ≢ place → slice_index result j ≡ slice_index words j }
{
    let mut changed = words.to_array();
    changed[place] = word;
    u32x4::from_array(changed)
}

/// The value of each of four lanes.
#[derive(Drop)]
pub(crate) struct Lanes {
    // The index of each lane's value. That of an idle lane is the number of the values.
    value: [usize; 4],
    // How many blocks of its value each lane has taken.
    done: [usize; 4],
}

impl Lanes {
    /// Lanes that are idle, for `count` values.
    pub(crate) fn idle(count: usize) -> Lanes
        ensures value { (j : ℕ) → j < 4 → slice_index result.value j ≡ count }
        ensures values { length result.value ≡ 4 }
        ensures counts { length result.done ≡ 4 }
    {
        Lanes {
            value: [count; 4],
            done: [0; 4],
        }
    }

    /// Gives value `index` to the lane at `place`, which has taken nothing of it.
    pub(crate) fn begin(&mut self, state: &mut [u32x4; 8], place: usize, index: usize)
        requires { place < 4 }
        ensures value { self.new.value ≡ slice_set self.old.value place index }
        ensures done { self.new.done ≡ slice_set self.old.done place 0 }
        ensures begun { lane place state.new ≡ initial_hash_256 }
        ensures others { (j : ℕ) → j ≢ place → lane j state.new ≡ lane j state.old }
    {
        self.value[place] = index;
        self.done[place] = 0;
        *state = [
            with_word(state[0], place, INITIAL_HASH[0]),
            with_word(state[1], place, INITIAL_HASH[1]),
            with_word(state[2], place, INITIAL_HASH[2]),
            with_word(state[3], place, INITIAL_HASH[3]),
            with_word(state[4], place, INITIAL_HASH[4]),
            with_word(state[5], place, INITIAL_HASH[5]),
            with_word(state[6], place, INITIAL_HASH[6]),
            with_word(state[7], place, INITIAL_HASH[7]),
        ];
    }

    /// The index of the value of the lane at `place`. That of an idle lane is the number of the values.
    pub(crate) fn value(&self, place: usize) -> usize
        requires { place < 4 }
        ensures { result ≡ slice_index self.now.value place }
    {
        self.value[place]
    }

    /// How many blocks the lane at `place` has left. An idle lane has more than any value.
    pub(crate) fn left<V: AsSlice<u8>>(&self, values: &[V], place: usize) -> usize
        requires { place < 4 }
        ensures busy { slice_index self.now.value place < length values.now
            → result ≡ left (map V.items values.now) self.now place }
        ensures idle { length values.now ≤ slice_index self.now.value place → result ≡ 2 ^ 64 - 1 }
    {
        let index = self.value[place];
        if index < values.len() {
            count_blocks(value_at(values, index)).saturating_sub(self.done[place])
        } else {
            usize::MAX
        }
    }

    /// The place of the lane that ends first.
    pub(crate) fn first_to_end<V: AsSlice<u8>>(&self, values: &[V]) -> usize
        ensures place { result < 4 }
        ensures first { (j : ℕ) → j < 4 → slice_index self.now.value result < length values.now
            → slice_index self.now.value j < length values.now
            → left (map V.items values.now) self.now result ≤ left (map V.items values.now) self.now j }
    {
        let mut first = 0;
        let mut least = self.left(values, 0);
        'places: for place in 1..4 {
            let left = self.left(values, place);
            if left < least {
                first = place;
                least = left;
            }
        }
        first
    }

    /// Whether the value of the lane at `place` is sooner hashed from its start, by scalar code: no other lane has
    /// a value, and more than half of its blocks are left.
    pub(crate) fn is_sooner_alone<V: AsSlice<u8>>(&self, values: &[V], place: usize) -> bool
        requires { place < 4 }
    {
        let mut is_alone = true;
        for other in 0..4 {
            if other != place && self.value[other] < values.len() {
                is_alone = false;
            }
        }
        is_alone && self.done[place] < self.left(values, place)
    }

    /// Takes the next `steps` blocks of each lane's value.
    pub(crate) fn advance<V: AsSlice<u8>>(
        &mut self,
        state: &mut [u32x4; 8],
        values: &[V],
        steps: usize,
    )
        ensures value { self.new.value ≡ self.old.value }
        ensures counts { length self.new.done ≡ 4 }
        ensures done { (j : ℕ) → j < 4
            → slice_index self.old.done j + steps
            ≤ block_count (message (map V.items values.now) (slice_index self.old.value j))
            → slice_index self.new.done j ≡ slice_index self.old.done j + steps }
        ensures taken { (j : ℕ) → j < 4
            → slice_index self.old.done j + steps
            ≤ block_count (message (map V.items values.now) (slice_index self.old.value j))
            → IsUnderWay (map V.items values.now) self.old state.old j
            → IsUnderWay (map V.items values.now) self.new state.new j }
    {
        let first = value_at(values, self.value[0]);
        let second = value_at(values, self.value[1]);
        let third = value_at(values, self.value[2]);
        let fourth = value_at(values, self.value[3]);
        let done = self.done;
        'steps: for step in 0..steps {
            let blocks = [
                block_at(first, done[0].wrapping_add(step)),
                block_at(second, done[1].wrapping_add(step)),
                block_at(third, done[2].wrapping_add(step)),
                block_at(fourth, done[3].wrapping_add(step)),
            ];
            compress(state, &blocks);
        }
        self.done = [
            done[0].wrapping_add(steps),
            done[1].wrapping_add(steps),
            done[2].wrapping_add(steps),
            done[3].wrapping_add(steps),
        ];
    }
}

/// The digest of the message at `place`, high byte first.
pub(crate) fn digest_at(state: &[u32x4; 8], place: usize) -> [u8; 32]
    requires { place < 4 }
    ensures { result ≡ digest_bytes (lane place state.now) 8 }
{
    let mut digest = [0; 32];
    'words: for i in 0..8 {
        digest[4 * i..4 * i + 4].copy_from_slice(&state[i].to_array()[place].to_be_bytes());
    }
    digest
}
