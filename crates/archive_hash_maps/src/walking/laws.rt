//! Laws. Each function below has no body: it states a law in its contract.
ghost use Rattle.std.specs.Prelude.{ℕ, List};
ghost use Rattle.archive_hash_maps.specs.Tables.{TableIsRead, OneTable, ItemsDescend};
ghost use Rattle.archive_hash_maps.specs.Walks.{TableStays, KeysStay};
ghost use Rattle.archive_hash_maps.specs.Calls.Keys.{HashesAsWritten};

use archive_hash_probing::FxHasher64;
use archive_shape::Portable;
use std::hash::Hasher;

/// States that where the layout has a table, its bytes have places, whose items are those of the table's value.
pub fn table_is_read<T: Portable>()
    ensures { (bytes : List ℕ) → TableIsRead T.shape T.knows bytes }
{}

/// States that the bytes of a table have exactly one list of places.
pub fn one_table()
    ensures { OneTable }
{}

/// States that the items of a table do not overlap: each one ends before those of earlier places begin.
pub fn items_descend<T: Portable>()
    ensures { ItemsDescend T.shape }
{}

/// States that a table has the same places after any write over its items.
pub fn table_stays<T: Portable>()
    ensures { TableStays T.shape T.knows }
{}

/// States that each key of a map is kept after any write over the map's values.
pub fn keys_stay<K: Portable, V: Portable>()
    ensures { KeysStay K.shape V.shape K.knows V.knows }
{}

/// States that what is fed to the hasher of archived maps has one hash, by which tables are written.
pub fn one_hash()
    ensures { HashesAsWritten ⟦<FxHasher64 as Default>⟧ ⟦<FxHasher64 as Hasher>⟧ }
{}
