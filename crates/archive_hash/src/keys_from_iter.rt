//! Writes tables of the keys of a set that an iterator returns.
ghost use Rattle.std.specs.Prelude.{◌≡◌, ℕ, ◌-◌, ◌^◌, ◌<◌};
ghost use Rattle.std.specs.Iterator.{IsFinite, IsFiniteIterable};
ghost use Rattle.std.specs.Option.{option_map};
ghost use Rattle.archive_forms_laws.specs.Serializing.{HasState};
ghost use Rattle.archive_hash_probing.specs.Inputs.{input_hash};
ghost use Rattle.archive_hash.specs.Calls.Entries.{SerializesKey, WritesGivenKeys, WritesCollectedKeys};

use archive_forms_values::Entry;
use archive_forms_writing::{EntryAdapter, EntryResolver, Serialize, serialize_element};
use archive_hash_maps::HashTableResolver;
use archive_hash_probing::{Group, hash_key};
use archive_hash_writing::serialize_from_iter_scan_each;
use archive_shape::{Allocator, Error, Writer};
use std::hash::Hash;
use std::marker::PhantomData;

/// An iterator over the entries of a map to `()`, made of the keys that another iterator returns.
#[derive(Drop)]
pub struct KeysBesideUnits<'a, K, I> {
    pub keys: I,
    pub of: PhantomData<&'a K>,
}

impl<'a, K: 'a, I: Iterator<Item = &'a K>> Iterator for KeysBesideUnits<'a, K, I> {
    type Item = EntryAdapter<'a, K, ()>;

    ghost can_next = { λ s. I.can_next s.keys };

    ghost next_gives = { λ s r t. I.next_gives s.keys (option_map (λ e. e.key) r) t.keys };

    ghost remaining = { λ s. I.remaining s.keys };

    fn next(&mut self) -> Option<EntryAdapter<'a, K, ()>> {
        match self.keys.next() {
            Some(key) => Some(EntryAdapter::new(key, &())),
            None => None,
        }
    }

    fn size_hint(&self) -> (usize, Option<usize>) {
        self.keys.size_hint()
    }
}

/// Writes the hash table of the keys that are left.
fn serialize_given_keys<
    'a,
    S: Writer + Allocator,
    K: Serialize<S> + Hash + 'a,
    J: Iterator<Item = &'a K>,
>(
    len: usize,
    keys: J,
    load_factor: (usize, usize),
    serializer: &mut S,
) -> Result<HashTableResolver, Error>
    requires calls { J.can_next keys × IsFinite (J.remaining keys) }
    requires room { S.failures serializer.old < 2 ^ 64 - 1 }
    requires state { HasState S.pos S.known serializer.old }
    ensures { WritesGivenKeys J.next_gives keys K.Hash load_factor K.Archived.shape K.spelling S.Writer len
        serializer.old serializer.new result }
{
    let entries = KeysBesideUnits {
        keys,
        of: PhantomData,
    };
    serialize_from_iter_scan_each::<
        Group,
        EntryAdapter<'a, K, ()>,
        S,
        KeysBesideUnits<'a, K, J>,
        _,
        _,
    >(
        entries,
        len,
        load_factor,
        |entry: &EntryAdapter<K, ()>| -> u64
            ensures { result ≡ input_hash (K.hash_input entry.now.key.now) }
        { hash_key(entry.key) },
        serializer,
        |entry: &EntryAdapter<K, ()>, s: &mut S| -> Result<
            (
                EntryResolver<K::Resolver, ()>,
                PhantomData<Entry<K::Archived, ()>>,
            ),
            Error,
        >
            requires room { S.failures s.old < 2 ^ 64 - 1 }
            requires state { HasState S.pos S.known s.old }
            ensures { SerializesKey K.Archived.shape K.spelling S.Writer entry.now s.old s.new result }
        { serialize_element(entry, s) },
    )
}

/// Writes the hash table of the keys that an iterator returns, each with `()` as its value, as
/// `serialize_map_from_iter` writes entries.
///
/// # Errors
/// The errors of `serialize_map_from_iter`.
pub fn serialize_set_from_iter<
    'a,
    S: Writer + Allocator,
    K: Serialize<S> + Hash + 'a,
    I: IntoIterator<Item = &'a K>,
>(
    len: usize,
    keys: I,
    load_factor: (usize, usize),
    serializer: &mut S,
) -> Result<HashTableResolver, Error>
    requires room { S.failures serializer.old < 2 ^ 64 - 1 }
    requires state { HasState S.pos S.known serializer.old }
    requires ends { IsFiniteIterable I.into_iter_gives I.IntoIter.can_next I.IntoIter.remaining keys }
    ensures { WritesCollectedKeys I.into_iter_gives I.IntoIter.next_gives keys K.Hash load_factor
        K.Archived.shape K.spelling S.Writer len serializer.old serializer.new result }
{
    let keys = keys.into_iter();
    serialize_given_keys::<S, K, I::IntoIter>(len, keys, load_factor, serializer)
}
