//! Writing sets of std as search trees.
ghost use Rattle.std.specs.Prelude.{◌≡◌, ◌-◌, ◌^◌, ◌<◌, All, length};
ghost use Rattle.std.specs.Iterator.{at_most};
ghost use Rattle.std.specs.Map.Iter.{TakesFirst, deref_pair};
ghost use Rattle.archive_shape_layout.specs.Shape.Shape.{tuple};
ghost use Rattle.archive_shape_layout.specs.Shape.Shapes.{no_shapes};
ghost use Rattle.archive_forms_laws.specs.Fields.{unit_spelling};
ghost use Rattle.archive_forms_laws.specs.Forms.{seen_as};
ghost use Rattle.archive_forms_laws.specs.Serializing.{HasState, Serializes};
ghost use Rattle.archive_btree.specs.Owned.{TakesEntries, entries_spelling, key_entries};

use crate::{OwnedBTreeSet, serialize_from_ordered_iter_each};
use archive_btree_maps::BTreeSetResolver;
use archive_forms_writing::{Archive, ByArchive, EntryStep, Serialize, SerializeEntry};
use archive_shape::{Allocator, Error, Writer};
use std::collections::btree_set::Iter;
use std::marker::Model;

/// An iterator over the keys of a set that are left, each beside `()`. Its model is the list of these entries.
#[derive(Drop)]
struct KeyEntries<'a, K> {
    keys: Iter<'a, K>,
}

impl<'a, K> Model for KeyEntries<'a, K> {
    ghost use Rattle.std.specs.Prelude.{List};
    ghost use Rattle.archive_btree.specs.Owned.{key_entries};

    ghost Value = { List (K × Unit {0}) };

    ghost view = { λ it. key_entries it.keys };
}

impl<'a, K> Iterator for KeyEntries<'a, K> {
    type Item = (&'a K, &'a ());

    ghost next_gives = { TakesFirst deref_pair };

    ghost remaining = { λ s. at_most (length s) };

    fn next(&mut self) -> Option<(&'a K, &'a ())> {
        match self.keys.next() {
            Some(key) => Some((key, &())),
            None => None,
        }
    }

    fn size_hint(&self) -> (usize, Option<usize>) {
        self.keys.size_hint()
    }
}

/// Writes the search tree of the keys of a set that are left, whose data is written by a step.
fn serialize_keys_each<
    'a,
    K: Archive + 'a,
    S: Writer + Allocator,
    C: EntryStep<K, (), ByArchive, S>,
    const E: usize,
>(
    len: usize,
    entries: KeyEntries<'a, K>,
    serializer: &mut S,
    step: &C,
) -> Result<BTreeSetResolver, Error>
    requires some { 0 < E }
    requires counted { len ≡ length entries }
    requires room { S.failures serializer.old < 2 ^ 64 - 1 }
    requires state { HasState S.pos S.known serializer.old }
    requires takes { TakesEntries (TakesFirst deref_pair) (C.takes step.now) (record {}) entries }
    ensures { Serializes (entries_spelling E K.Archived.shape
        (tuple no_shapes) K.spelling unit_spelling) S.Writer entries.entry
        serializer.old serializer.new result }
{
    serialize_from_ordered_iter_each::<K, (), S, C, _, E>(len, entries, serializer, step)
}

/// Writes the search tree of a set, the data of whose keys, each beside `()`, is written by a step. An empty set has no
/// tree.
pub fn serialize_set_each<
    K: Archive + Ord,
    S: Writer + Allocator,
    C: EntryStep<K, (), ByArchive, S>,
    const E: usize,
>(set: &OwnedBTreeSet<K, E>, serializer: &mut S, step: &C) -> Result<BTreeSetResolver, Error>
    requires room { S.failures serializer.old < 2 ^ 64 - 1 }
    requires state { HasState S.pos S.known serializer.old }
    requires takes { All (C.takes step.now (record {})) (key_entries set.now.set.keys) }
    ensures { Serializes (seen_as (λ s. key_entries s.set.keys)
        (entries_spelling E K.Archived.shape (tuple no_shapes) K.spelling unit_spelling))
        S.Writer set.now serializer.old serializer.new result }
{
    if set.set.is_empty() {
        return Ok(BTreeSetResolver::from_pos(None));
    }
    let entries = KeyEntries {
        keys: set.set.iter(),
    };
    serialize_keys_each::<K, S, C, E>(set.set.len(), entries, serializer, step)
}

impl<S: Writer + Allocator, K: Serialize<S> + Ord, const E: usize> Serialize<S>
    for OwnedBTreeSet<K, E> {
    fn serialize(&self, serializer: &mut S) -> Result<BTreeSetResolver, Error> {
        serialize_set_each::<K, S, SerializeEntry, E>(self, serializer, &SerializeEntry)
    }
}
