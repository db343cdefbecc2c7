//! Laws of look-ups of keys. Each function below has no body: its contract is the law.
ghost use Rattle.std.specs.Prelude.{Some};
ghost use Rattle.archive_hash_maps.specs.Maps.{HasMap};
ghost use Rattle.archive_hash_maps.specs.Calls.Keys.{HasOneHash, GetsValue, HasQuery};

use crate::map::ArchivedHashMap;
use crate::walking::HashedKey;
use archive_shape::{Portable, Ref};
use std::hash::{Hash, Hasher};

/// States that a map has a key that a look-up has found, where the query has one hash: it can be passed to `index`.
pub fn found_is_present<Q: Hash, K: HashedKey<Q>, V: Portable, H: Hasher + Default + Drop>(
    this: Ref<'_, ArchivedHashMap<K, V, H>>,
    query: &Q,
    found: Ref<'_, V>,
)
    requires has { HasMap K.shape V.shape K.knows V.knows this }
    requires one { HasOneHash H.Default H.Hasher (Q.hash_input query.now) }
    requires found { GetsValue H.Default H.Hasher Q.hash_input K.key_of K.order K.shape V.shape this query.now (Some found) }
    ensures { HasQuery H.Default H.Hasher Q.hash_input K.key_of K.order K.shape V.shape this.entry query.now }
{}
