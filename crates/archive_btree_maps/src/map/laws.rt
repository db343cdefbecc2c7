//! The laws of maps: of look-ups, equality and hashes. Each function has no body: its contract is the law.
ghost use Rattle.std.specs.Prelude.{◌≡◌, Some};
ghost use Rattle.archive_btree_maps.specs.Lookups.{HasKey};
ghost use Rattle.archive_btree_maps.specs.Maps.{HasMap};
ghost use Rattle.archive_btree_maps.specs.MapComparing.{MapsAreEquivalences, map_equality};
ghost use Rattle.archive_btree_maps.specs.Hashing.{MapsAreHashedAlike, map_hashed};
ghost use Rattle.archive_btree_maps.specs.Calls.Lookups.{LooksUpValue};

use crate::map::ArchivedBTreeMap;
use archive_forms_comparing::{ArchivedEq, ArchivedHash};
use archive_shape::{ArchivedKey, Portable, Ref};

/// States that a map has a key that a look-up has found: it can be passed to `index`.
pub fn found_is_present<Q, K: ArchivedKey<Q>, V: Portable, const E: usize>(
    this: Ref<'_, ArchivedBTreeMap<K, V, E>>,
    query: &Q,
    found: Ref<'_, V>,
)
    requires has { HasMap E K.shape V.shape K.knows V.knows this }
    requires found { LooksUpValue E K.shape V.shape K.key_of K.order this query.now (Some found) }
    ensures { HasKey K.key_of K.order this.entry.bytes.now E K.shape V.shape this.entry.pos query.now }
{}

/// States that equality of maps is an equivalence where those of the keys and the values are.
pub fn map_equalities_are_equivalences()
    ensures { MapsAreEquivalences }
{}

/// States that equal maps are hashed alike where the keys and the values are.
pub fn equal_maps_are_hashed_alike()
    ensures { MapsAreHashedAlike }
{}

/// States that maps are equal by their entries in order.
pub fn maps_are_equal_by_entries<K: ArchivedEq, V: ArchivedEq, const E: usize>()
    ensures { ⟦<ArchivedBTreeMap<K, V, E> as ArchivedEq>⟧.equal ≡ map_equality K.equal V.equal }
{}

/// States that what is hashed of a map is its entries in order.
pub fn maps_are_hashed_by_entries<K: ArchivedHash, V: ArchivedHash, const E: usize>()
    ensures { ⟦<ArchivedBTreeMap<K, V, E> as ArchivedHash>⟧.hashed ≡ map_hashed K.hashed V.hashed }
{}
