//! The archiving of the items of an iterator.
ghost use Rattle.std.specs.Prelude.{◌-◌, ◌^◌, ◌<◌};
ghost use Rattle.std.specs.Iterator.{IsFiniteIterable};
ghost use Rattle.archive_forms_laws.specs.Serializing.{HasState, SerializesBy};
ghost use Rattle.archive_forms_writing.specs.Steps.{StepWrites};
ghost use Rattle.archive_forms_writing.specs.Calls.Iterating.{CollectsItems, StepTakesItems, SerializesItems};

use crate::{Archive, Serialize, serialize_element, serialize_slice_each};
use archive_forms_values::VecResolver;
use archive_shape::{Allocator, Error, Writer};
use std::alloc::Global;
use std::marker::PhantomData;

/// Collects the items of an iterator. Memory is allocated only for the items that the iterator returns. Returns
/// `OutOfMemory` if an allocation fails.
pub fn collect_items<T: Drop, I: IntoIterator<Item = T>>(
    alloc: Global,
    iter: I,
) -> Result<Vec<T>, Error>
    requires { IsFiniteIterable I.into_iter_gives I.IntoIter.can_next I.IntoIter.remaining iter }
    ensures { CollectsItems I.into_iter_gives I.IntoIter.next_gives iter result }
{
    let mut all = Vec::new(alloc);
    for item in iter {
        if all.push(item).is_err() {
            return Err(Error::OutOfMemory);
        }
    }
    Ok(all)
}

/// Writes the items of an iterator: the data of each by the step, and then the items' own bytes. Returns the resolver
/// of their vector.
///
/// Memory is allocated for the items that the iterator returns, not for the `len` items that are claimed. If the
/// iterator returns another number of items than `len`, nothing is written, and the error is `IteratorLengthMismatch`.
pub fn serialize_from_iter_each<
    T: Archive + Drop,
    S: Writer + Allocator,
    I: IntoIterator<Item = T>,
    F: Fn(&T, &mut S) -> Result<(T::Resolver, PhantomData<T::Archived>), Error>,
>(iter: I, len: usize, serializer: &mut S, step: F) -> Result<VecResolver, Error>
    requires room { S.failures serializer.old < 2 ^ 64 - 1 }
    requires state { HasState S.pos S.known serializer.old }
    requires ends { IsFiniteIterable I.into_iter_gives I.IntoIter.can_next I.IntoIter.remaining iter }
    requires takes { StepTakesItems I.into_iter_gives I.IntoIter.next_gives F.Fn S.Writer step iter }
    requires writes { StepWrites F.Fn (λ q. q.0) T.spelling S.Writer step }
    ensures { SerializesItems I.into_iter_gives I.IntoIter.next_gives T.Archived.shape T.spelling S.Writer iter len serializer.old serializer.new result }
{
    let items = collect_items(serializer.memory(), iter)?;
    let actual = items.len();
    if actual != len {
        return Err(Error::IteratorLengthMismatch {
            expected: len,
            actual,
        });
    }
    let pos = serialize_slice_each(items.as_slice(), serializer, step)?;
    Ok(VecResolver { pos })
}

/// Writes the items of an iterator, with their data, as `serialize_from_iter_each` does.
pub fn serialize_from_iter<
    S: Writer + Allocator,
    T: Serialize<S> + Drop,
    I: IntoIterator<Item = T>,
>(iter: I, len: usize, serializer: &mut S) -> Result<VecResolver, Error>
    requires room { S.failures serializer.old < 2 ^ 64 - 1 }
    requires state { HasState S.pos S.known serializer.old }
    requires ends { IsFiniteIterable I.into_iter_gives I.IntoIter.can_next I.IntoIter.remaining iter }
    ensures { SerializesItems I.into_iter_gives I.IntoIter.next_gives T.Archived.shape T.spelling S.Writer iter len serializer.old serializer.new result }
{
    serialize_from_iter_each::<T, S, I, _>(
        iter,
        len,
        serializer,
        |item: &T, s: &mut S| -> Result<(T::Resolver, PhantomData<T::Archived>), Error>
            requires room { S.failures s.old < 2 ^ 64 - 1 }
            requires state { HasState S.pos S.known s.old }
            ensures { SerializesBy (λ q. q.0) T.spelling S.Writer item.now s.old s.new result }
        { serialize_element(item, s) },
    )
}
