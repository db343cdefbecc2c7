//! The writing of elements: the data of all, and then their own bytes.
ghost use Rattle.std.specs.Prelude.{◌≡◌, ◌-◌, ◌^◌, ◌<◌, ◌≤◌, length, [], ◌∷◌};
ghost use Rattle.archive_forms_laws.specs.State.{State};
ghost use Rattle.archive_forms_laws.specs.Serializing.{HasState, Serializes, SerializesBy};
ghost use Rattle.archive_forms_laws.specs.Regions.{resolvers};
ghost use Rattle.archive_forms_laws.specs.Pointers.{slice_spelling, box_spelling};
ghost use Rattle.archive_forms_writing.specs.Steps.{StepTakes, StepWrites};
ghost use Rattle.archive_forms_writing.specs.Calls.Items.{SerializesAll, SerializesFew, LaysOwns, LaysOwnsBehind};

use crate::buffered::{are_few, resolve_at_once, resolve_through};
use crate::{Archive, ArchiveWith, ByArchive, Serialize, align, resolve_aligned};
use archive_shape::{Allocator, Error, Portable, Writer};
use std::marker::PhantomData;

/// The last position at which adjacent elements may begin.
const LAST_POSITION: usize = u32::MAX as usize;

/// The size in bytes of the buffer in which own bytes are collected, unless an element is larger.
const BUFFER: usize = 256;

/// The number of resolvers up to which they are kept in an array, without an allocation.
const MAX_KEPT: usize = 16;

/// The greatest size in bytes of an option of a resolver that is kept in an array.
const MAX_KEPT_SIZE: usize = 32;

/// Writes the data of an element that the serializer can archive. It is the step for such elements. The result names
/// the archived form, because a closure over `T` can be passed on only if its type does.
pub fn serialize_element<T: Serialize<S>, S: Writer + Allocator>(
    item: &T,
    serializer: &mut S,
) -> Result<(T::Resolver, PhantomData<T::Archived>), Error>
    requires room { S.failures serializer.old < 2 ^ 64 - 1 }
    requires state { HasState S.pos S.known serializer.old }
    ensures { SerializesBy (λ q. q.0) T.spelling S.Writer item.now
        serializer.old serializer.new result }
{
    Ok((item.serialize(serializer)?, PhantomData))
}

/// Writes the data of each item by the step, and returns their resolvers.
fn serialize_data_each<
    T,
    A: ArchiveWith<T>,
    S: Writer + Allocator,
    F: Fn(&T, &mut S) -> Result<(A::Resolver, PhantomData<A::Archived>), Error>,
>(with: &A, items: &[T], serializer: &mut S, step: F) -> Result<Vec<A::Resolver>, Error>
    requires room { S.failures serializer.old < 2 ^ 64 - 1 }
    requires state { HasState S.pos S.known serializer.old }
    requires takes { StepTakes F.Fn S.Writer step items.now }
    requires writes { StepWrites F.Fn (λ q. q.0) (A.spelling with.now) S.Writer step }
    ensures { SerializesAll (A.spelling with.now) S.Writer items.now serializer.old serializer.new result }
{
    let Ok(mut all) = Vec::with_capacity(serializer.memory(), items.len()) else {
        return Err(Error::OutOfMemory);
    };
    for item in items {
        let resolver = step(item, serializer)?.0;
        if all.push(resolver).is_err() {
            return Err(Error::OutOfMemory);
        }
    }
    Ok(all)
}

/// Writes the data of each item by the step. There are at least one and at most `MAX_KEPT` items. Their resolvers are the
/// first ones of the result.
fn serialize_few_each<
    T,
    A: ArchiveWith<T>,
    S: Writer + Allocator,
    F: Fn(&T, &mut S) -> Result<(A::Resolver, PhantomData<A::Archived>), Error>,
>(with: &A, items: &[T], serializer: &mut S, step: F) -> Result<[A::Resolver; MAX_KEPT], Error>
    requires some { 0 < length items.now }
    requires few { length items.now ≤ MAX_KEPT }
    requires room { S.failures serializer.old < 2 ^ 64 - 1 }
    requires state { HasState S.pos S.known serializer.old }
    requires takes { StepTakes F.Fn S.Writer step items.now }
    requires writes { StepWrites F.Fn (λ q. q.0) (A.spelling with.now) S.Writer step }
    ensures { SerializesFew (A.spelling with.now) S.Writer items.now serializer.old serializer.new result }
{
    let first = step(&items[0], serializer)?.0;
    let mut kept = [first; MAX_KEPT];
    for i in 1..items.len() {
        kept[i] = step(&items[i], serializer)?.0;
    }
    Ok(kept)
}

/// Writes the own bytes of adjacent items through a buffer, which is written whenever it is full. Their data was
/// written before. It is a function that is not inlined, so that the code for few items stays short where that is
/// inlined.
#[inline(never)]
fn resolve_buffered<T, A: ArchiveWith<T>, S: Writer + Allocator>(
    with: &A,
    items: &[T],
    kept: &[A::Resolver],
    serializer: &mut S,
) -> Result<(), Error>
    requires room { S.failures serializer.old < 2 ^ 64 - 1 }
    requires made { (st : State) × (kept.now ≡ resolvers (A.spelling with.now) items.now st) }
    ensures { LaysOwns (A.spelling with.now) A.Archived.shape S.Writer items.now kept.now serializer.old serializer.new result }
{
    let size = A::Archived::SIZE;
    if size <= BUFFER {
        let mut buffer = [0; BUFFER];
        return resolve_through(with, items, kept, serializer, &mut buffer);
    }
    match vec![in serializer.memory(); 0u8; size] {
        Ok(mut buffer) => resolve_through(with, items, kept, serializer, buffer.as_mut_slice()),
        Err(_) => Err(Error::OutOfMemory),
    }
}

/// Writes the own bytes of adjacent items. Their data was written before.
#[inline(always)]
fn resolve_items<T, A: ArchiveWith<T>, S: Writer + Allocator>(
    with: &A,
    items: &[T],
    kept: &[A::Resolver],
    serializer: &mut S,
) -> Result<(), Error>
    requires room { S.failures serializer.old < 2 ^ 64 - 1 }
    requires made { (st : State) × (kept.now ≡ resolvers (A.spelling with.now) items.now st) }
    ensures { LaysOwns (A.spelling with.now) A.Archived.shape S.Writer items.now kept.now serializer.old serializer.new result }
{
    if are_few::<A::Archived>(items.len(), serializer.pos()) {
        return resolve_at_once(with, items, kept, serializer);
    }
    resolve_buffered(with, items, kept, serializer)
}

/// Writes the own bytes of adjacent items from the next position of their alignment on. Their data was written before.
/// Returns the position of the first.
#[inline(always)]
fn resolve_behind<T, A: ArchiveWith<T>, S: Writer + Allocator>(
    with: &A,
    items: &[T],
    kept: &[A::Resolver],
    serializer: &mut S,
) -> Result<usize, Error>
    requires room { S.failures serializer.old < 2 ^ 64 - 1 }
    requires made { (st : State) × (kept.now ≡ resolvers (A.spelling with.now) items.now st) }
    ensures { LaysOwnsBehind (A.spelling with.now) A.Archived.shape S.Writer items.now kept.now serializer.old serializer.new result }
{
    let to = align(serializer, A::Archived::ALIGN)?;
    if to > LAST_POSITION {
        return Err(Error::PositionTooLarge);
    }
    resolve_items(with, items, kept, serializer)?;
    Ok(to)
}

/// Writes the data of each item by the step, and then the own bytes of all items from the next position of their
/// alignment on. Returns the position of the first. Returns `PositionTooLarge` if it is more than 2^32 - 1.
pub fn serialize_slice_with_each<
    T,
    A: ArchiveWith<T>,
    S: Writer + Allocator,
    F: Fn(&T, &mut S) -> Result<(A::Resolver, PhantomData<A::Archived>), Error>,
>(with: &A, items: &[T], serializer: &mut S, step: F) -> Result<usize, Error>
    requires room { S.failures serializer.old < 2 ^ 64 - 1 }
    requires state { HasState S.pos S.known serializer.old }
    requires takes { StepTakes F.Fn S.Writer step items.now }
    requires writes { StepWrites F.Fn (λ q. q.0) (A.spelling with.now) S.Writer step }
    ensures { Serializes (slice_spelling A.Archived.shape (A.spelling with.now)) S.Writer items.now
        serializer.old serializer.new result }
{
    let none: Option<A::Resolver> = None;
    if size_of_val(&none) <= MAX_KEPT_SIZE && !items.is_empty() && items.len() <= MAX_KEPT {
        let few = serialize_few_each(with, items, serializer, step)?;
        return resolve_behind(with, items, &few[..items.len()], serializer);
    }
    let kept = serialize_data_each(with, items, serializer, step)?;
    resolve_behind(with, items, kept.as_slice(), serializer)
}

/// Writes the data of each item by the step, and then the own bytes of all items, as `serialize_slice_with_each` does.
/// The items are archived by `Archive`.
pub fn serialize_slice_each<
    T: Archive,
    S: Writer + Allocator,
    F: Fn(&T, &mut S) -> Result<(T::Resolver, PhantomData<T::Archived>), Error>,
>(items: &[T], serializer: &mut S, step: F) -> Result<usize, Error>
    requires room { S.failures serializer.old < 2 ^ 64 - 1 }
    requires state { HasState S.pos S.known serializer.old }
    requires takes { StepTakes F.Fn S.Writer step items.now }
    requires writes { StepWrites F.Fn (λ q. q.0) T.spelling S.Writer step }
    ensures { Serializes (slice_spelling T.Archived.shape T.spelling) S.Writer items.now
        serializer.old serializer.new result }
{
    serialize_slice_with_each::<T, ByArchive, S, F>(&ByArchive, items, serializer, step)
}

/// Writes the data of a value by the step, and then its own bytes at the next position of its alignment. Returns this
/// position. Returns `PositionTooLarge` if it is more than 2^32 - 1.
pub fn serialize_one_each<
    T: Archive,
    S: Writer + Allocator,
    F: Fn(&T, &mut S) -> Result<(T::Resolver, PhantomData<T::Archived>), Error>,
>(value: &T, serializer: &mut S, step: F) -> Result<usize, Error>
    requires room { S.failures serializer.old < 2 ^ 64 - 1 }
    requires state { HasState S.pos S.known serializer.old }
    requires takes { StepTakes F.Fn S.Writer step (value.now ∷ []) }
    requires writes { StepWrites F.Fn (λ q. q.0) T.spelling S.Writer step }
    ensures { Serializes (box_spelling T.Archived.shape T.spelling) S.Writer value.now
        serializer.old serializer.new result }
{
    let alloc = serializer.memory();
    let resolver = step(value, serializer)?.0;
    let to = align(serializer, T::Archived::ALIGN)?;
    if to > LAST_POSITION {
        return Err(Error::PositionTooLarge);
    }
    resolve_aligned(alloc, value, resolver, serializer)?;
    Ok(to)
}
