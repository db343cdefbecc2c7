//! Hashing maps pair by pair, the key and then the value.
ghost use Rattle.std.specs.Prelude.{drop};
ghost use Rattle.std.proofs.Common.{ap};
ghost use Rattle.archive_forms_laws.proofs.Forms.{alike};
ghost use Rattle.archive_btree_maps.specs.MapComparing.{HasPairs};
ghost use Rattle.archive_btree_maps.specs.Hashing.{pair_hashed, map_hashed};
ghost use Rattle.archive_btree_maps.specs.Calls.Comparing.{FeedsPairs};

use crate::map::ArchivedBTreeMap;
use crate::walking::Iter;
use archive_forms_comparing::ArchivedHash;
use archive_shape::Ref;
use std::hash::Hasher;

/// Hashes each key and then its value.
fn hash_entries<K: ArchivedHash, V: ArchivedHash, H: Hasher>(entries: Iter<'_, K, V>, state: &mut H)
    requires { HasPairs K.shape V.shape K.knows V.knows entries }
    ensures { FeedsPairs K.Portable V.Portable K.hashed V.hashed H.write entries.entry state.old state.new }
{
    for (key, value) in entries {
        K::hash(&key, state);
        V::hash(&value, state);
    }
}

/// The number of the pairs is not hashed.
impl<K: ArchivedHash, V: ArchivedHash, const E: usize> ArchivedHash for ArchivedBTreeMap<K, V, E> {
    ghost hashed = { map_hashed K.hashed V.hashed };

    ghost alike = { record { fed = λ v w h. ap (drop 1) ((alike.vectors _ (pair_hashed K.hashed V.hashed) (alike.tuples _ _ (alike.more_fields K.equal _ K.hashed _ K.alike (alike.more_fields V.equal _ V.hashed _ V.alike alike.no_fields)))).fed v w h) } };

    fn hash<H: Hasher>(this: &Ref<'_, ArchivedBTreeMap<K, V, E>>, state: &mut H) {
        hash_entries(ArchivedBTreeMap::iter(*this), state);
    }
}
