//! Digests of values whose bytes come in parts, and of several values at once.
ghost use Rattle.std.specs.Prelude.{◌≡◌, ◌++◌, ◌≤◌, [], ℕ, List, length, map, take};
ghost use Rattle.sha2.specs.Hashers.{Holds256};
ghost use Rattle.sha2.specs.Sha256.{sha256};
ghost use Rattle.mxf_verify.specs.Hashing.{Digests};

use mxf_digests::digests;
use sha2::{Digest, Sha256};

/// The most values that are digested at once.
pub(crate) const MOST: usize = 256;

/// A hasher that has taken further bytes after those before, if there were some.
pub(crate) fn hasher_with(before: Option<Sha256>, bytes: &[u8]) -> Sha256
    ensures { (m : List ℕ) → Digests before m → Holds256 result (m ++ bytes.now) }
{
    let mut hasher = match before {
        Some(hasher) => hasher,
        None => Sha256::new(),
    };
    hasher.update(bytes);
    hasher
}

/// The digest of the bytes that a hasher has taken before, if there were some, and of further ones. The digest of no
/// byte is at hand.
pub(crate) fn digest_with(before: Option<Sha256>, bytes: &[u8], of_nothing: &[u8; 32]) -> [u8; 32]
    requires { of_nothing.now ≡ sha256 [] }
    ensures { (m : List ℕ) → Digests before m → result ≡ sha256 (m ++ bytes.now) }
{
    if before.is_none() && bytes.is_empty() {
        return *of_nothing;
    }
    hasher_with(before, bytes).finalize()
}

/// The digests of values, in their order. What is left is zeros.
pub(crate) fn digests_of(values: &[&[u8]]) -> [[u8; 32]; MOST]
    requires { length values.now ≤ 256 }
    ensures { take (length values.now) result ≡ map (λ v. sha256 v.now) values.now }
{
    let mut found = [[0; 32]; MOST];
    digests(values, &mut found[..values.len()]);
    found
}
