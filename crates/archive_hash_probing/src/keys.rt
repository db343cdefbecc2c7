//! The hash of a key in the archived tables of maps and sets: a function of what the key feeds to a hasher.

ghost use Rattle.std.specs.Prelude.{◌≡◌};
ghost use Rattle.archive_hash_probing.specs.Inputs.{input_hash};

use crate::scanning::{FxHasher64, hash_value};
use std::hash::Hash;

/// Returns the hash of a key, by the hasher of archived tables.
pub fn hash_key<K: Hash>(key: &K) -> u64
    ensures { result ≡ input_hash (K.hash_input key.now) }
{
    hash_value::<K, FxHasher64>(key)
}
