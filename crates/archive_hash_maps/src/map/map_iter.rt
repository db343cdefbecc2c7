//! Iterators over the entries of an archived hash map by ascending place.
ghost use Rattle.std.specs.Prelude.{All};
ghost use Rattle.archive_forms_values.specs.Parts.{HasValue};
ghost use Rattle.archive_hash_maps.specs.Maps.{IsThere, HasMap};
ghost use Rattle.archive_hash_maps.specs.Calls.Lists.{ListsEntries, ListsKeys, ListsValues};

use crate::map::{ArchivedHashMap, ArchivedHashTable};
use crate::walking::RawIter;
use archive_forms_values::{
    Entry, EntryIter, EntryKeys, EntryPositions, EntryValues, next_multiple,
};
use archive_shape::{Portable, Ref};
use std::marker::Model;

/// The positions of entries by ascending place. Its view is the list of those that are left.
#[derive(Drop)]
pub struct EntryPlaces<'a, K, V> {
    positions: RawIter<'a, Entry<K, V>>,
    /// The offset of a value from its entry's position.
    behind: usize,
}

impl<'a, K, V> Model for EntryPlaces<'a, K, V> {
    ghost use Rattle.std.specs.Prelude.{ℕ, ◌+◌, ◌^◌, ◌<◌, List, map, All};
    ghost use Rattle.archive_hash_maps.specs.Maps.{with_value};

    ghost Value = { List (ℕ × ℕ) };

    ghost view = { λ it. map (with_value it.behind) it.positions };

    ghost invariant = { λ it. All (λ at. at + it.behind < 2 ^ 64) it.positions };
}

impl<'a, K, V> EntryPositions for EntryPlaces<'a, K, V> {
    ghost left = { λ xs. xs };

    fn next_entry(&mut self) -> Option<(usize, usize)> {
        let at = self.positions.next()?;
        Some((at, at + self.behind))
    }

    fn entries_left(&self) -> usize {
        self.positions.len()
    }
}

/// An iterator over the entries by ascending place: each key with its value. Its view is the list of the entries that
/// are left.
pub type Iter<'a, K, V> = EntryIter<'a, K, V, EntryPlaces<'a, K, V>>;

/// An iterator over the keys by ascending place. Its view is the list of the keys that are left.
pub type Keys<'a, K, V> = EntryKeys<'a, K, V, EntryPlaces<'a, K, V>>;

/// An iterator over the values by ascending place. Its view is the list of the values that are left.
pub type Values<'a, K, V> = EntryValues<'a, K, V, EntryPlaces<'a, K, V>>;

impl<K: Portable, V: Portable, H> ArchivedHashMap<K, V, H> {
    /// Returns the entries by ascending place: each key with its value.
    pub fn iter<'a>(this: Ref<'a, ArchivedHashMap<K, V, H>>) -> Iter<'a, K, V>
        requires { HasMap K.shape V.shape K.knows V.knows this }
        ensures there { All (IsThere K.shape V.shape K.knows V.knows) result }
        ensures entries { ListsEntries K.shape V.shape this.entry result }
    {
        let _len = this.bytes.len();
        let positions = EntryPlaces {
            positions: ArchivedHashTable::raw_iter(ArchivedHashMap::table(this)),
            behind: next_multiple(K::SIZE, V::ALIGN),
        };
        EntryIter::new(this.bytes, positions)
    }

    /// Returns the keys by ascending place.
    pub fn keys<'a>(this: Ref<'a, ArchivedHashMap<K, V, H>>) -> Keys<'a, K, V>
        requires { HasMap K.shape V.shape K.knows V.knows this }
        ensures there { All (λ r. HasValue K.shape K.knows r.bytes.now r.pos) result }
        ensures keys { ListsKeys K.shape V.shape this.entry result }
    {
        EntryKeys::new(ArchivedHashMap::iter(this))
    }

    /// Returns the values by ascending place.
    pub fn values<'a>(this: Ref<'a, ArchivedHashMap<K, V, H>>) -> Values<'a, K, V>
        requires { HasMap K.shape V.shape K.knows V.knows this }
        ensures there { All (λ r. HasValue V.shape V.knows r.bytes.now r.pos) result }
        ensures values { ListsValues K.shape V.shape this.entry result }
    {
        EntryValues::new(ArchivedHashMap::iter(this))
    }
}
