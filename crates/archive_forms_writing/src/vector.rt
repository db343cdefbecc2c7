//! The archiving of vectors.
ghost use Rattle.std.specs.Prelude.{◌-◌, ◌^◌, ◌<◌, refl};
ghost use Rattle.archive_shape_layout.specs.Shape.Shape.{vector};
ghost use Rattle.archive_forms_laws.specs.Pointers.{slice_spelling};
ghost use Rattle.archive_forms_laws.specs.Serializing.{HasState, SerializesBy};
ghost use Rattle.archive_forms_laws.proofs.Pointers.{slice_spells};
ghost use Rattle.archive_forms_laws.proofs.Views.{kept_spells, seen_spells};
ghost use Rattle.archive_forms_writing.specs.Owned.{vec_spelling};
ghost use Rattle.archive_forms_writing.specs.Steps.{StepTakes, StepWrites};
ghost use Rattle.archive_forms_writing.specs.Calls.Resolving.{CanResolveVec, ResolvesVec};
ghost use Rattle.archive_forms_writing.specs.Calls.Data.{WritesData};

use crate::{Archive, Serialize, serialize_element, serialize_slice_each};
use archive_forms_values::{ArchivedVec, VecResolver};
use archive_shape::{Allocator, Error, Place, Writer};
use std::marker::PhantomData;

impl<T: Archive> Archive for Vec<T> {
    type Archived = ArchivedVec<T::Archived>;

    type Resolver = VecResolver;

    ghost spelling = { vec_spelling T.Archived.shape T.spelling };

    fn resolve(
        &self,
        resolver: VecResolver,
        out: Place<'_, ArchivedVec<T::Archived>>,
    ) -> Result<(), Error>
        requires { CanResolveVec T.Archived.shape T.spelling self.now resolver out }
        ensures { ResolvesVec T.Archived.shape T.spelling self.now resolver out.entry out.exit result }
    {
        let Place {
            out,
            start,
            pos,
            ..
        } = out;
        ArchivedVec::<T::Archived>::resolve_from_len(
            self.len(),
            resolver,
            Place::within(out, start, pos),
        )
    }

    ghost spells = { λ fit. kept_spells fit (vector T.Archived.shape) T.Archived.knows _ _ (λ r. refl) _
        (seen_spells fit (vector T.Archived.shape) T.Archived.knows (λ v. v.items) (slice_spelling T.Archived.shape T.spelling)
        (slice_spells fit T.Archived.shape T.Archived.knows T.spelling (T.spells fit))) };
}

/// Writes the data of a vector: the data of each element by the step, and then the elements' own bytes.
pub fn serialize_vec_each<
    T: Archive,
    S: Writer + Allocator,
    F: Fn(&T, &mut S) -> Result<(T::Resolver, PhantomData<T::Archived>), Error>,
>(items: &Vec<T>, serializer: &mut S, step: F) -> Result<VecResolver, Error>
    requires room { S.failures serializer.old < 2 ^ 64 - 1 }
    requires state { HasState S.pos S.known serializer.old }
    requires takes { StepTakes F.Fn S.Writer step items.now.items }
    requires writes { StepWrites F.Fn (λ q. q.0) T.spelling S.Writer step }
    ensures { WritesData ⟦<Vec<T> as Archive>⟧ S.Writer items.now serializer.old serializer.new result }
{
    let pos = serialize_slice_each(items.as_slice(), serializer, step)?;
    Ok(VecResolver { pos })
}

impl<S: Writer + Allocator, T: Serialize<S>> Serialize<S> for Vec<T> {
    fn serialize(&self, serializer: &mut S) -> Result<VecResolver, Error> {
        serialize_vec_each::<T, S, _>(
            self,
            serializer,
            |item: &T, s: &mut S| -> Result<(T::Resolver, PhantomData<T::Archived>), Error>
                requires room { S.failures s.old < 2 ^ 64 - 1 }
                requires state { HasState S.pos S.known s.old }
                ensures { SerializesBy (λ q. q.0) T.spelling S.Writer item.now s.old s.new result }
            { serialize_element(item, s) },
        )
    }
}
