//! Writes tables of the entries of a map that an iterator returns.
ghost use Rattle.std.specs.Prelude.{ℕ, ◌-◌, ◌^◌, ◌<◌};
ghost use Rattle.std.specs.Iterator.{IsFiniteIterable};
ghost use Rattle.archive_forms_laws.specs.Serializing.{HasState};
ghost use Rattle.archive_hash.specs.Calls.Entries.{WritesCollected};

use crate::entries::serialize_entries_scan_each;
use archive_forms_writing::{ByArchive, Serialize, SerializeEntry};
use archive_hash_maps::HashTableResolver;
use archive_hash_probing::Group;
use archive_shape::{Allocator, Error, Writer};
use std::hash::Hash;

/// Writes the hash table of the entries that an iterator returns: each entry, in this order, at its first fit by the
/// hash of its key. `len` is the number of entries that the caller claims. At most `load_factor.0` of `load_factor.1`
/// places are full. Memory is allocated for the entries that the iterator returns, and none for those that are only
/// claimed. Keys are not compared: of equal keys each is written.
///
/// # Errors
/// `InvalidLoadFactor` if no places or more than all may be full, and `IteratorLengthMismatch` if the iterator returns
/// another number of entries than `len`; nothing is written in both cases. `LengthTooLarge` if the table would have
/// 2^32 places or more. `PositionTooLarge` if it would not begin before position 2^32 or not end before position 2^64.
/// `OutOfMemory` if an allocation fails. Also each error of writing a key or a value, and each error of the serializer.
pub fn serialize_map_from_iter<
    'a,
    S: Writer + Allocator,
    K: Serialize<S> + Hash + 'a,
    V: Serialize<S> + 'a,
    I: IntoIterator<Item = (&'a K, &'a V)>,
>(
    len: usize,
    entries: I,
    load_factor: (usize, usize),
    serializer: &mut S,
) -> Result<HashTableResolver, Error>
    requires room { S.failures serializer.old < 2 ^ 64 - 1 }
    requires state { HasState S.pos S.known serializer.old }
    requires ends { IsFiniteIterable I.into_iter_gives I.IntoIter.can_next
        I.IntoIter.remaining entries }
    ensures { WritesCollected I.into_iter_gives I.IntoIter.next_gives entries K.Hash load_factor K.Archived.shape
        V.Archived.shape K.spelling V.spelling S.Writer len serializer.old serializer.new result }
{
    let pairs = entries.into_iter();
    serialize_entries_scan_each::<Group, K, V, ByArchive, S, I::IntoIter, SerializeEntry>(
        &ByArchive,
        len,
        pairs,
        load_factor,
        serializer,
        &SerializeEntry,
    )
}
