//! The laws of sets: functions without a body, whose contracts are the laws.
ghost use Rattle.std.specs.Prelude.{◌≡◌, ℕ, List};
ghost use Rattle.archive_btree_maps.specs.Keys.{SetIsRead};
ghost use Rattle.archive_btree_maps.specs.SetComparing.{SetsAreEquivalences, SetsAreHashedAlike, set_equality, set_hashed};

use crate::set::ArchivedBTreeSet;
use archive_forms_comparing::{ArchivedEq, ArchivedHash};
use archive_shape::Portable;

/// States that where the layout has a set, its bytes have a search tree, at whose items the keys of the set's value
/// lie, and that the value has each key beside a unit, and nothing else.
pub fn set_is_read<K: Portable, const E: usize>()
    ensures { (bytes : List ℕ) → SetIsRead K.shape K.knows bytes E }
{}

/// States that equality of sets is an equivalence where that of the keys is.
pub fn set_equalities_are_equivalences()
    ensures { SetsAreEquivalences }
{}

/// States that equal sets are hashed alike where the keys are.
pub fn equal_sets_are_hashed_alike()
    ensures { SetsAreHashedAlike }
{}

/// States that sets are equal by their keys in order.
pub fn sets_are_equal_by_keys<K: ArchivedEq, const E: usize>()
    ensures { ⟦<ArchivedBTreeSet<K, E> as ArchivedEq>⟧.equal ≡ set_equality K.equal }
{}

/// States that what is hashed of a set is its keys in order.
pub fn sets_are_hashed_by_keys<K: ArchivedHash, const E: usize>()
    ensures { ⟦<ArchivedBTreeSet<K, E> as ArchivedHash>⟧.hashed ≡ set_hashed K.hashed }
{}
