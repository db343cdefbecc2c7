//! Laws of archived index maps. Each function below has no body: its contract is the law.
ghost use Rattle.std.specs.Prelude.{ℕ, List};
ghost use Rattle.archive_index.specs.Maps.{MapIsRead, OneMap};

use archive_shape::Portable;

/// States that where the layout has an index map, its bytes have a table of the numbers of its entries, and the entries
/// of the map's value, in order.
pub fn map_is_read<K: Portable, V: Portable>()
    ensures { (bytes : List ℕ) → MapIsRead K.shape V.shape K.knows V.knows bytes }
{}

/// States that the bytes of an index map have one table and one list of entries.
pub fn one_map()
    ensures { OneMap }
{}
