//! The laws of maps in bytes: functions without a body, whose contracts are the laws.
ghost use Rattle.std.specs.Prelude.{ℕ, List};
ghost use Rattle.archive_btree_maps.specs.Maps.{MapIsRead, OneMap};

use archive_shape::Portable;

/// States that where the layout has a map, its bytes have a search tree, whose items are the pairs of the map's value.
pub fn map_is_read<K: Portable, V: Portable, const E: usize>()
    ensures { (bytes : List ℕ) → MapIsRead K.shape V.shape K.knows V.knows bytes E }
{}

/// States that the bytes of a map have one search tree.
pub fn one_map()
    ensures { OneMap }
{}
