//! Hashing sets key by key.
ghost use Rattle.std.specs.Prelude.{drop};
ghost use Rattle.std.proofs.Common.{ap};
ghost use Rattle.std.specs.Hash.{on_Alike, items_Alike};
ghost use Rattle.archive_btree_maps.specs.Keys.{keys_of};
ghost use Rattle.archive_btree_maps.specs.SetComparing.{set_hashed};

use crate::set::ArchivedBTreeSet;
use crate::set::set::as_map;
use archive_forms_comparing::ArchivedHash;
use archive_shape::Ref;
use std::hash::Hasher;

/// The number of the keys is not hashed.
impl<K: ArchivedHash, const E: usize> ArchivedHash for ArchivedBTreeSet<K, E> {
    ghost hashed = { set_hashed K.hashed };

    ghost alike = { record { fed = λ v w h. ap (drop 1) ((on_Alike keys_of (items_Alike K.alike)).fed v w h) } };

    fn hash<H: Hasher>(this: &Ref<'_, ArchivedBTreeSet<K, E>>, state: &mut H) {
        ArchivedHash::hash(&as_map(*this), state);
    }
}
