//! Writes index maps of the entries that an iterator returns.
ghost use Rattle.std.specs.Prelude.{◌-◌, ◌^◌, ◌<◌};
ghost use Rattle.std.specs.Iterator.{IsFiniteIterable};
ghost use Rattle.archive_forms_laws.specs.Serializing.{HasState};
ghost use Rattle.archive_forms_writing.specs.Calls.Iterating.{StepTakesItems};
ghost use Rattle.archive_forms_writing.specs.Steps.{StepWrites};
ghost use Rattle.archive_hash_writing.specs.Calls.{MayHashItems};
ghost use Rattle.archive_index.specs.Calls.Writing.{WritesItemsMap};

use crate::writing::hashed::serialize_hashed_map;
use archive_forms_writing::{Archive, ByArchive, collect_items};
use archive_hash::hash_items;
use archive_hash_probing::Scan;
use archive_hash_writing::index::IndexMapResolver;
use archive_shape::{Allocator, Error, Writer};
use std::marker::PhantomData;

/// Writes the index map of the entries that an iterator returns, in this order: the table of their numbers, each at the
/// first fit of its entry's hash, and then the entries, after their data, which `step` writes. `len` is the number of
/// entries that the caller claims. At most `load_factor.0` of `load_factor.1` places are full. Memory is allocated for
/// the entries that the iterator returns, and none for those that are only claimed. Keys are not compared: of equal keys
/// each is written, and the first is found.
///
/// # Errors
/// `InvalidLoadFactor` if no places or more than all may be full, and `IteratorLengthMismatch` if the iterator returns
/// another number of entries than `len`; nothing is written in both cases. `LengthTooLarge` if the table would have 2^32
/// places or more. `PositionTooLarge` if the table's buckets or the entries would not begin before position 2^32, or the
/// controls would not end before position 2^64. `OutOfMemory` if an allocation fails. Also each error of `step` and of the
/// serializer, and each error of resolving an entry's own bytes.
pub fn serialize_from_iter_scan_each<
    G: Scan,
    T: Archive + Drop,
    S: Writer + Allocator,
    I: IntoIterator<Item = T> + Drop,
    H: Fn(&T) -> u64,
    F: Fn(&T, &mut S) -> Result<(T::Resolver, PhantomData<T::Archived>), Error>,
>(
    iter: I,
    len: usize,
    load_factor: (usize, usize),
    hash: H,
    serializer: &mut S,
    step: F,
) -> Result<IndexMapResolver, Error>
    requires room { S.failures serializer.old < 2 ^ 64 - 1 }
    requires state { HasState S.pos S.known serializer.old }
    requires ends { IsFiniteIterable I.into_iter_gives I.IntoIter.can_next I.IntoIter.remaining iter }
    requires takes { StepTakesItems I.into_iter_gives I.IntoIter.next_gives F.Fn S.Writer step iter }
    requires writes { StepWrites F.Fn (λ q. q.0) T.spelling S.Writer step }
    requires hashes { MayHashItems I.into_iter_gives I.IntoIter.next_gives iter (H.pre hash) }
    ensures { WritesItemsMap I.into_iter_gives I.IntoIter.next_gives iter load_factor T.Archived.shape T.spelling
        S.Writer H.Fn hash len serializer.old serializer.new result }
{
    if load_factor.0 == 0 || load_factor.0 > load_factor.1 {
        return Err(Error::InvalidLoadFactor);
    }
    let items = collect_items(serializer.memory(), iter)?;
    let actual = items.len();
    if actual != len {
        return Err(Error::IteratorLengthMismatch {
            expected: len,
            actual,
        });
    }
    let items = items.as_slice();
    let hashes = hash_items(serializer.memory(), items, hash)?;
    let hashes = hashes.as_slice();
    serialize_hashed_map::<G, T, ByArchive, S, F>(
        &ByArchive,
        items,
        hashes,
        load_factor,
        serializer,
        step,
    )
}
