//! Cursors over the items of archived hash tables and the entries of archived hash maps that lend one at a time.
ghost use Rattle.std.specs.Prelude.{◌≡◌};
ghost use Rattle.archive_shape_layout.specs.Shape.Shape.{table};
ghost use Rattle.archive_forms_values.specs.Parts.{HasValue};
ghost use Rattle.archive_hash_maps.specs.Calls.Cursors.{BeginsTable, BeginsMap};
ghost use Rattle.archive_hash_maps.specs.Calls.Entries.{HasMapAt};

use crate::map::{ArchivedHashMap, ArchivedHashTable};
use crate::walking::{IterMut, RawIterSeal, ValuesMut};
use archive_shape::{Portable, Seal};

impl<T: Portable> ArchivedHashTable<T> {
    /// Returns a cursor over the items by ascending place.
    pub fn raw_iter_seal<'a>(this: Seal<'a, ArchivedHashTable<T>>) -> RawIterSeal<'a, T>
        requires has { HasValue (table T.shape) T.knows this.bytes.now this.pos }
        ensures same_reference { result.bytes.ghost_name ≡ this.entry.bytes.ghost_name }
        ensures bytes { result.bytes.now ≡ this.entry.bytes.now }
        ensures items { BeginsTable T.Portable this.entry.bytes.now this.entry.pos result }
    {
        let Seal { bytes, pos, .. } = this;
        RawIterSeal::new(bytes, pos)
    }
}

impl<K: Portable, V: Portable, H> ArchivedHashMap<K, V, H> {
    /// Returns a cursor over the entries by ascending place.
    pub fn iter_seal<'a>(this: Seal<'a, ArchivedHashMap<K, V, H>>) -> IterMut<'a, K, V>
        requires has { HasMapAt K.shape V.shape K.knows V.knows this.bytes.now this.pos }
        ensures same_reference { result.bytes.ghost_name ≡ this.entry.bytes.ghost_name }
        ensures bytes { result.bytes.now ≡ this.entry.bytes.now }
        ensures entries { BeginsMap K.Portable V.Portable this.entry.bytes.now this.entry.pos result }
    {
        let Seal { bytes, pos, .. } = this;
        IterMut::new(bytes, pos)
    }

    /// Returns a cursor over the values by ascending place.
    pub fn values_seal<'a>(this: Seal<'a, ArchivedHashMap<K, V, H>>) -> ValuesMut<'a, K, V>
        requires has { HasMapAt K.shape V.shape K.knows V.knows this.bytes.now this.pos }
        ensures same_reference { result.entries.bytes.ghost_name ≡ this.entry.bytes.ghost_name }
        ensures bytes { result.entries.bytes.now ≡ this.entry.bytes.now }
        ensures values { BeginsMap K.Portable V.Portable this.entry.bytes.now this.entry.pos result.entries }
    {
        ValuesMut {
            entries: ArchivedHashMap::iter_seal(this),
        }
    }
}
