//! The archiving of the elements of a slice.
ghost use Rattle.std.specs.Prelude.{◌-◌, ◌^◌, ◌<◌};
ghost use Rattle.archive_forms_laws.specs.Serializing.{HasState, Serializes, SerializesBy};
ghost use Rattle.archive_forms_writing.specs.Elements.{elements_spelling};
ghost use Rattle.archive_forms_writing.specs.Calls.Resolving.{CanResolveSlice, ResolvesSlice};

use crate::{Archive, Serialize, serialize_element, serialize_slice_each};
use archive_forms_values::{ArchivedVec, VecResolver};
use archive_shape::{Allocator, Error, Place, Writer};
use std::marker::PhantomData;

/// Writes the elements of a slice, with their data, and returns the resolver of their vector.
pub fn serialize_from_slice<S: Writer + Allocator, T: Serialize<S>>(
    items: &[T],
    serializer: &mut S,
) -> Result<VecResolver, Error>
    requires room { S.failures serializer.old < 2 ^ 64 - 1 }
    requires state { HasState S.pos S.known serializer.old }
    ensures { Serializes (elements_spelling T.Archived.shape T.spelling) S.Writer items.now
        serializer.old serializer.new result }
{
    let pos = serialize_slice_each::<T, S, _>(
        items,
        serializer,
        |item: &T, s: &mut S| -> Result<(T::Resolver, PhantomData<T::Archived>), Error>
            requires room { S.failures s.old < 2 ^ 64 - 1 }
            requires state { HasState S.pos S.known s.old }
            ensures { SerializesBy (λ q. q.0) T.spelling S.Writer item.now s.old s.new result }
        { serialize_element(item, s) },
    )?;
    Ok(VecResolver { pos })
}

/// Writes the own bytes of the vector of a slice's elements. Their data and their own bytes were written before.
pub fn resolve_from_slice<T: Archive>(
    items: &[T],
    resolver: VecResolver,
    out: Place<'_, ArchivedVec<T::Archived>>,
) -> Result<(), Error>
    requires { CanResolveSlice T.Archived.shape T.spelling items.now resolver out }
    ensures { ResolvesSlice T.Archived.shape T.spelling items.now resolver out.entry out.exit result }
{
    let Place {
        out,
        start,
        pos,
        ..
    } = out;
    ArchivedVec::<T::Archived>::resolve_from_len(
        items.len(),
        resolver,
        Place::within(out, start, pos),
    )
}
