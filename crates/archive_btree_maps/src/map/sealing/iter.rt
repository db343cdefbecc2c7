//! Cursors over the entries of an archived B-tree map that lend one value at a time.
ghost use Rattle.std.specs.Prelude.{◌≡◌};
ghost use Rattle.archive_shape_layout.specs.Shape.Shape.{tree};
ghost use Rattle.archive_forms_values.specs.Parts.{HasValue, both};
ghost use Rattle.archive_btree_maps.specs.Calls.CursorsOpened.{IterOpens};

use crate::map::ArchivedBTreeMap;
use crate::walking::{IterSeal, ValuesSeal, count_at, entry_walk_at};
use archive_shape::{Portable, Seal};

impl<K: Portable, V: Portable, const E: usize> ArchivedBTreeMap<K, V, E> {
    /// Returns a cursor over the entries in the order of their keys.
    pub fn iter_seal<'a>(this: Seal<'a, ArchivedBTreeMap<K, V, E>>) -> IterSeal<'a, K, V>
        requires has { HasValue (tree E K.shape V.shape) (both K.knows V.knows)
            this.bytes.now this.pos }
        ensures same_reference { result.bytes.ghost_name ≡ this.entry.bytes.ghost_name }
        ensures bytes { result.bytes.now ≡ this.entry.bytes.now }
        ensures entries { IterOpens E K.Portable V.Portable this.entry result }
    {
        let Seal { bytes, pos, .. } = this;
        let walk = entry_walk_at::<K, V, E>(bytes, pos);
        let left = count_at(bytes, pos);
        IterSeal::new(bytes, walk, left)
    }

    /// Returns a cursor over the values in the order of their keys.
    pub fn values_seal<'a>(this: Seal<'a, ArchivedBTreeMap<K, V, E>>) -> ValuesSeal<'a, K, V>
        requires has { HasValue (tree E K.shape V.shape) (both K.knows V.knows)
            this.bytes.now this.pos }
        ensures same_reference { result.entries.bytes.ghost_name ≡ this.entry.bytes.ghost_name }
        ensures bytes { result.entries.bytes.now ≡ this.entry.bytes.now }
        ensures values { IterOpens E K.Portable V.Portable this.entry result.entries }
    {
        ValuesSeal {
            entries: ArchivedBTreeMap::iter_seal(this),
        }
    }
}
