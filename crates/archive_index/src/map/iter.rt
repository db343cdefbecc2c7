//! Iterators over the entries of an archived index map, in its order.
ghost use Rattle.std.specs.Prelude.{All};
ghost use Rattle.archive_forms_values.specs.Parts.{HasValue};
ghost use Rattle.archive_hash_maps.specs.Maps.{IsThere};
ghost use Rattle.archive_index.specs.Maps.{HasMap};
ghost use Rattle.archive_index.specs.Calls.Entries.{ListsEntries, ListsKeys, ListsValues};

use crate::map::ArchivedIndexMap;
use crate::map::entries::entries_at;
use archive_forms_values::{
    Entry, EntryIter, EntryKeys, EntryPositions, EntryValues, next_multiple,
};
use archive_shape::{Portable, Ref};
use std::marker::Model;

/// The positions of entries that lie side by side. Its view is the list of those that are left.
#[derive(Drop)]
pub struct EntryPlaces {
    /// The position of the next entry.
    at: usize,
    /// The number of entries that are left.
    left: usize,
    /// The size of an entry in bytes.
    size: usize,
    /// The offset of a value from its entry's position.
    behind: usize,
}

impl Model for EntryPlaces {
    ghost use Rattle.std.specs.Prelude.{ℕ, ◌+◌, ◌*◌, ◌^◌, ◌<◌, List, map, All};
    ghost use Rattle.archive_hash_maps.specs.Maps.{with_value};
    ghost use Rattle.archive_index.specs.Maps.{adjacent};

    ghost Value = { List (ℕ × ℕ) };

    ghost view = { λ it. map (with_value it.behind) (adjacent it.size it.at it.left) };

    ghost invariant = { λ it. (it.at + it.left * it.size < 2 ^ 64) × All (λ at. at + it.behind < 2 ^ 64) (adjacent it.size it.at it.left) };
}

impl EntryPositions for EntryPlaces {
    ghost left = { λ xs. xs };

    fn next_entry(&mut self) -> Option<(usize, usize)> {
        if self.left == 0 {
            return None;
        }
        let at = self.at;
        self.at += self.size;
        self.left -= 1;
        Some((at, at + self.behind))
    }

    fn entries_left(&self) -> usize {
        self.left
    }
}

/// An iterator over the entries in order: each key with its value. Its view is the list of the entries that are left.
pub type Iter<'a, K, V> = EntryIter<'a, K, V, EntryPlaces>;

/// An iterator over the keys in order. Its view is the list of the keys that are left.
pub type Keys<'a, K, V> = EntryKeys<'a, K, V, EntryPlaces>;

/// An iterator over the values in order. Its view is the list of the values that are left.
pub type Values<'a, K, V> = EntryValues<'a, K, V, EntryPlaces>;

impl<K: Portable, V: Portable, H> ArchivedIndexMap<K, V, H> {
    /// Returns the entries in order: each key with its value.
    pub fn iter<'a>(this: Ref<'a, ArchivedIndexMap<K, V, H>>) -> Iter<'a, K, V>
        requires { HasMap K.shape V.shape K.knows V.knows this }
        ensures there { All (IsThere K.shape V.shape K.knows V.knows) result }
        ensures entries { ListsEntries K.shape V.shape this.entry result }
    {
        let _len = this.bytes.len();
        let (at, left) = entries_at::<K, V>(this.bytes, this.pos);
        let positions = EntryPlaces {
            at,
            left,
            size: Entry::<K, V>::SIZE,
            behind: next_multiple(K::SIZE, V::ALIGN),
        };
        EntryIter::new(this.bytes, positions)
    }

    /// Returns the keys in order.
    pub fn keys<'a>(this: Ref<'a, ArchivedIndexMap<K, V, H>>) -> Keys<'a, K, V>
        requires { HasMap K.shape V.shape K.knows V.knows this }
        ensures there { All (λ r. HasValue K.shape K.knows r.bytes.now r.pos) result }
        ensures keys { ListsKeys K.shape V.shape this.entry result }
    {
        EntryKeys::new(ArchivedIndexMap::iter(this))
    }

    /// Returns the values in order.
    pub fn values<'a>(this: Ref<'a, ArchivedIndexMap<K, V, H>>) -> Values<'a, K, V>
        requires { HasMap K.shape V.shape K.knows V.knows this }
        ensures there { All (λ r. HasValue V.shape V.knows r.bytes.now r.pos) result }
        ensures values { ListsValues K.shape V.shape this.entry result }
    {
        EntryValues::new(ArchivedIndexMap::iter(this))
    }
}
