//! The archiving of arrays.
ghost use Rattle.std.specs.Prelude.{◌≡◌, ◌+◌, ◌-◌, ◌*◌, ◌^◌, ◌<◌, ◌≤◌, [], length};
ghost use Rattle.archive_shape_layout.specs.Shape.{size_of};
ghost use Rattle.archive_shape.specs.Bytes.{HasBytes, zeros};
ghost use Rattle.archive_forms_laws.specs.State.{State};
ghost use Rattle.archive_forms_laws.specs.Regions.{resolvers};
ghost use Rattle.archive_forms_laws.specs.Arrays.{array_spelling};
ghost use Rattle.archive_forms_laws.specs.Serializing.{CanResolve, HasState, Resolves, SerializesBy};
ghost use Rattle.archive_forms_laws.proofs.Arrays.{array_spells};
ghost use Rattle.archive_forms_writing.specs.Steps.{StepTakes, StepWrites};
ghost use Rattle.archive_forms_writing.specs.Calls.Items.{ResolvesEach};
ghost use Rattle.archive_forms_writing.specs.Calls.Resolving.{CanResolveArray, ResolvesArray};
ghost use Rattle.archive_forms_writing.specs.Calls.Data.{WritesData};

use crate::{Archive, Serialize, serialize_element};
use archive_shape::{Allocator, Error, Place, Portable, Writer};
use std::marker::PhantomData;

/// Writes the own bytes of a value at `start` of `out`, where the bytes are zeros. The value's data was written before.
fn resolve_element<T: Archive>(
    value: &T,
    resolver: T::Resolver,
    start: usize,
    pos: usize,
    out: &mut [u8],
) -> Result<(), Error>
    requires { CanResolve T.spelling T.Archived.shape value.now resolver out.old start pos }
    ensures { Resolves T.spelling T.Archived.shape value.now resolver pos start out.old out.new result }
{
    value.resolve(resolver, Place::within(out, start, pos))
}

/// Writes the own bytes of adjacent elements from `start` of `out` on, where the bytes are zeros. Their data was
/// written before.
fn resolve_elements<T: Archive>(
    items: &[T],
    kept: &[T::Resolver],
    start: usize,
    pos: usize,
    out: &mut [u8],
) -> Result<(), Error>
    requires room { start + length items.now * size_of T.Archived.shape ≤ length out.old }
    requires stands { pos + length items.now * size_of T.Archived.shape < 2 ^ 64 }
    requires blank { HasBytes out.old start (zeros (length items.now * size_of T.Archived.shape)) }
    requires made { (st : State) × (kept.now ≡ resolvers T.spelling items.now st) }
    ensures { ResolvesEach T.Archived.shape T.spelling items.now kept.now start pos out.old out.new result }
{
    let _len = out.len();
    let size = T::Archived::SIZE;
    let mut offset = 0;
    for (i, item) in items.iter().enumerate() {
        resolve_element(item, kept[i], start + offset, pos + offset, out)?;
        offset += size;
    }
    Ok(())
}

impl<T: Archive, const N: usize> Archive for [T; N] {
    type Archived = [T::Archived; N];

    type Resolver = [T::Resolver; N];

    ghost spelling = { array_spelling N T.Archived.shape T.spelling };

    fn resolve(
        &self,
        resolver: [T::Resolver; N],
        out: Place<'_, [T::Archived; N]>,
    ) -> Result<(), Error>
        requires { CanResolveArray T.Archived.shape T.spelling N self.now resolver out }
        ensures { ResolvesArray T.Archived.shape T.spelling N self.now resolver out.entry out.exit result }
    {
        let Place {
            out,
            start,
            pos,
            ..
        } = out;
        resolve_elements(self.as_slice(), resolver.as_slice(), start, pos, out)
    }

    ghost spells = { λ fit. array_spells fit N T.Archived.shape T.Archived.knows T.spelling (T.spells fit) };
}

/// Returns the resolvers of no elements.
fn no_resolvers<R: Copy, const N: usize>() -> [R; N]
    requires { N ≡ 0 }
    ensures { result ≡ [] }
{
    let none: &[R] = &[];
    <[R; N]>::try_from(none).unwrap()
}

/// Writes the data of the elements of an array, each by the step, and returns their resolvers.
pub fn serialize_array_each<
    T: Archive,
    const N: usize,
    S: Writer + Allocator,
    F: Fn(&T, &mut S) -> Result<(T::Resolver, PhantomData<T::Archived>), Error>,
>(items: &[T; N], serializer: &mut S, step: F) -> Result<[T::Resolver; N], Error>
    requires room { S.failures serializer.old < 2 ^ 64 - 1 }
    requires state { HasState S.pos S.known serializer.old }
    requires takes { StepTakes F.Fn S.Writer step items.now }
    requires writes { StepWrites F.Fn (λ q. q.0) T.spelling S.Writer step }
    ensures { WritesData ⟦<[T; N] as Archive>⟧ S.Writer items.now serializer.old serializer.new result }
{
    if N == 0 {
        return Ok(no_resolvers());
    }
    let first = step(&items[0], serializer)?.0;
    let mut kept = [first; N];
    for i in 1..N {
        kept[i] = step(&items[i], serializer)?.0;
    }
    Ok(kept)
}

impl<S: Writer + Allocator, T: Serialize<S>, const N: usize> Serialize<S> for [T; N] {
    fn serialize(&self, serializer: &mut S) -> Result<[T::Resolver; N], Error> {
        serialize_array_each::<T, N, S, _>(
            self,
            serializer,
            |item: &T, s: &mut S| -> Result<(T::Resolver, PhantomData<T::Archived>), Error>
                requires room { S.failures s.old < 2 ^ 64 - 1 }
                requires state { HasState S.pos S.known s.old }
                ensures { SerializesBy (λ q. q.0) T.spelling S.Writer item.now s.old s.new result }
            { serialize_element(item, s) },
        )
    }
}
