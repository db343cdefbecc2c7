//! Iterators over the entries of an archived B-tree map in the order of their keys.
ghost use Rattle.std.specs.Prelude.{map};

use crate::nodes::Walk;
use archive_forms_values::{EntryIter, EntryKeys, EntryPositions, EntryValues};

/// An iterator over the entries of a map in the order of their keys. Its model is the list of the entries that are
/// left.
pub type Iter<'a, K, V> = EntryIter<'a, K, V, Walk<'a>>;

/// An iterator over the keys of a map in their order. Its model is the list of the keys that are left.
pub type Keys<'a, K, V> = EntryKeys<'a, K, V, Walk<'a>>;

/// An iterator over the values of a map in the order of their keys. Its model is the list of the values that are left.
pub type Values<'a, K, V> = EntryValues<'a, K, V, Walk<'a>>;

impl<'a> EntryPositions for Walk<'a> {
    ghost left = { map (λ e. (e.key, e.value)) };

    fn next_entry(&mut self) -> Option<(usize, usize)> {
        let entry = self.next()?;
        Some((entry.key, entry.value))
    }

    fn entries_left(&self) -> usize {
        self.len()
    }
}
