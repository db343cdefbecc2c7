//! Writes tables of the items that an iterator returns.
ghost use Rattle.std.specs.Prelude.{◌≡◌, ◌-◌, ◌^◌, ◌<◌};
ghost use Rattle.std.specs.Iterator.{IsFiniteIterable};
ghost use Rattle.archive_forms_laws.specs.Serializing.{HasState, SerializesBy};
ghost use Rattle.archive_forms_writing.specs.Calls.Iterating.{StepTakesItems};
ghost use Rattle.archive_forms_writing.specs.Steps.{StepWrites};
ghost use Rattle.archive_hash_writing.specs.Calls.{MayHashItems, WritesItems};

use crate::hashes::hash_items;
use crate::tables::serialize_hashed;
use archive_forms_writing::{
    Archive, ArchiveWith, ByArchive, Serialize, collect_items, serialize_element,
};
use archive_hash_maps::HashTableResolver;
use archive_hash_probing::{Group, Scan};
use archive_shape::{Allocator, Error, Writer};
use std::marker::PhantomData;

/// Writes the table of the items that an iterator returns: each item, in this order, at its first fit. `len` is the
/// number of items that the caller claims. The items' data is written by `step`, by ascending place, and the items are
/// archived by `with`. At most `load_factor.0` of `load_factor.1` places are full. Memory is allocated for the items that
/// the iterator returns, and none for those that are only claimed.
///
/// # Errors
/// `InvalidLoadFactor` if no places or more than all may be full, and `IteratorLengthMismatch` if the iterator returns
/// another number of items than `len`; nothing is written in both cases. `LengthTooLarge` if the table would have 2^32
/// places or more. `PositionTooLarge` if its buckets would not begin before position 2^32, or its controls would not
/// end before position 2^64. `OutOfMemory` if an allocation fails. Also each error of `step` and of the serializer, and
/// each error of resolving an item's own bytes.
pub fn serialize_from_iter_scan_with_each<
    G: Scan,
    T: Drop,
    A: ArchiveWith<T>,
    S: Writer + Allocator,
    I: IntoIterator<Item = T> + Drop,
    H: Fn(&T) -> u64,
    F: Fn(&T, &mut S) -> Result<(A::Resolver, PhantomData<A::Archived>), Error>,
>(
    with: &A,
    iter: I,
    len: usize,
    load_factor: (usize, usize),
    hash: H,
    serializer: &mut S,
    step: F,
) -> Result<HashTableResolver, Error>
    requires room { S.failures serializer.old < 2 ^ 64 - 1 }
    requires state { HasState S.pos S.known serializer.old }
    requires ends { IsFiniteIterable I.into_iter_gives I.IntoIter.can_next I.IntoIter.remaining iter }
    requires takes { StepTakesItems I.into_iter_gives I.IntoIter.next_gives F.Fn S.Writer step iter }
    requires writes { StepWrites F.Fn (λ q. q.0) (A.spelling with.now) S.Writer step }
    requires hashes { MayHashItems I.into_iter_gives I.IntoIter.next_gives iter (H.pre hash) }
    ensures { WritesItems I.into_iter_gives I.IntoIter.next_gives iter load_factor A.Archived.shape
        (A.spelling with.now) S.Writer H.Fn hash len serializer.old serializer.new result }
{
    if load_factor.0 == 0 || load_factor.0 > load_factor.1 {
        return Err(Error::InvalidLoadFactor);
    }
    let items = collect_items(serializer.memory(), iter)?;
    let actual = items.len();
    if actual != len {
        return Err(Error::IteratorLengthMismatch {
            expected: len,
            actual,
        });
    }
    let items = items.as_slice();
    let hashes = hash_items(serializer.memory(), items, hash)?;
    let hashes = hashes.as_slice();
    serialize_hashed::<G, T, A, S, F>(with, items, hashes, load_factor, serializer, step)
}

/// Writes the table of the items that an iterator returns, as `serialize_from_iter_scan_with_each` does. The items are
/// archived by `Archive`.
pub fn serialize_from_iter_scan_each<
    G: Scan,
    T: Archive + Drop,
    S: Writer + Allocator,
    I: IntoIterator<Item = T> + Drop,
    H: Fn(&T) -> u64,
    F: Fn(&T, &mut S) -> Result<(T::Resolver, PhantomData<T::Archived>), Error>,
>(
    iter: I,
    len: usize,
    load_factor: (usize, usize),
    hash: H,
    serializer: &mut S,
    step: F,
) -> Result<HashTableResolver, Error>
    requires room { S.failures serializer.old < 2 ^ 64 - 1 }
    requires state { HasState S.pos S.known serializer.old }
    requires ends { IsFiniteIterable I.into_iter_gives I.IntoIter.can_next I.IntoIter.remaining iter }
    requires takes { StepTakesItems I.into_iter_gives I.IntoIter.next_gives F.Fn S.Writer step iter }
    requires writes { StepWrites F.Fn (λ q. q.0) T.spelling S.Writer step }
    requires hashes { MayHashItems I.into_iter_gives I.IntoIter.next_gives iter (H.pre hash) }
    ensures { WritesItems I.into_iter_gives I.IntoIter.next_gives iter load_factor T.Archived.shape T.spelling
        S.Writer H.Fn hash len serializer.old serializer.new result }
{
    serialize_from_iter_scan_with_each::<G, T, ByArchive, S, I, H, F>(
        &ByArchive,
        iter,
        len,
        load_factor,
        hash,
        serializer,
        step,
    )
}

/// Writes the table of the items that an iterator returns, as `serialize_from_iter_scan_each` does. The scan `G`
/// decides how fast places are found, and not which places.
pub fn serialize_from_iter_scan<
    G: Scan,
    S: Writer + Allocator,
    T: Serialize<S> + Drop,
    I: IntoIterator<Item = T> + Drop,
    H: Fn(&T) -> u64,
>(
    iter: I,
    len: usize,
    load_factor: (usize, usize),
    hash: H,
    serializer: &mut S,
) -> Result<HashTableResolver, Error>
    requires room { S.failures serializer.old < 2 ^ 64 - 1 }
    requires state { HasState S.pos S.known serializer.old }
    requires ends { IsFiniteIterable I.into_iter_gives I.IntoIter.can_next I.IntoIter.remaining iter }
    requires hashes { MayHashItems I.into_iter_gives I.IntoIter.next_gives iter (H.pre hash) }
    ensures { WritesItems I.into_iter_gives I.IntoIter.next_gives iter load_factor T.Archived.shape T.spelling
        S.Writer H.Fn hash len serializer.old serializer.new result }
{
    serialize_from_iter_scan_each::<G, T, S, I, H, _>(
        iter,
        len,
        load_factor,
        hash,
        serializer,
        |item: &T, s: &mut S| -> Result<(T::Resolver, PhantomData<T::Archived>), Error>
            requires room { S.failures s.old < 2 ^ 64 - 1 }
            requires state { HasState S.pos S.known s.old }
            ensures { SerializesBy (λ q. q.0) T.spelling S.Writer item.now s.old s.new result }
        { serialize_element(item, s) },
    )
}

/// Writes the table of the items that an iterator returns, as `serialize_from_iter_scan` does, by the widest scan.
pub fn serialize_from_iter<
    S: Writer + Allocator,
    T: Serialize<S> + Drop,
    I: IntoIterator<Item = T> + Drop,
    H: Fn(&T) -> u64,
>(
    iter: I,
    len: usize,
    load_factor: (usize, usize),
    hash: H,
    serializer: &mut S,
) -> Result<HashTableResolver, Error>
    requires room { S.failures serializer.old < 2 ^ 64 - 1 }
    requires state { HasState S.pos S.known serializer.old }
    requires ends { IsFiniteIterable I.into_iter_gives I.IntoIter.can_next I.IntoIter.remaining iter }
    requires hashes { MayHashItems I.into_iter_gives I.IntoIter.next_gives iter (H.pre hash) }
    ensures { WritesItems I.into_iter_gives I.IntoIter.next_gives iter load_factor T.Archived.shape T.spelling
        S.Writer H.Fn hash len serializer.old serializer.new result }
{
    serialize_from_iter_scan::<Group, S, T, I, H>(iter, len, load_factor, hash, serializer)
}
