//! The archiving of results.
ghost use Rattle.std.specs.Prelude.{◌-◌, ◌^◌, ◌<◌};
ghost use Rattle.archive_forms_laws.specs.Results.{result_spelling};
ghost use Rattle.archive_forms_laws.specs.Serializing.{HasState, SerializesBy};
ghost use Rattle.archive_forms_laws.proofs.SpellingResults.{result_spells};
ghost use Rattle.archive_forms_laws.proofs.Views.{known_spells};
ghost use Rattle.archive_forms_writing.specs.Steps.{StepTakes, StepWrites, values_of, errors_of};
ghost use Rattle.archive_forms_writing.specs.Calls.Resolving.{CanResolveResult, ResolvesResult};
ghost use Rattle.archive_forms_writing.specs.Calls.Data.{WritesData};

use crate::{Archive, Serialize, serialize_element};
use archive_forms_values::ArchivedResult;
use archive_shape::{Allocator, Error, Place, Portable, Writer};
use std::marker::PhantomData;

impl<T: Archive, E: Archive> Archive for Result<T, E> {
    type Archived = ArchivedResult<T::Archived, E::Archived>;

    type Resolver = Result<T::Resolver, E::Resolver>;

    ghost spelling = { result_spelling T.Archived.shape E.Archived.shape T.spelling E.spelling };

    fn resolve(
        &self,
        resolver: Result<T::Resolver, E::Resolver>,
        out: Place<'_, ArchivedResult<T::Archived, E::Archived>>,
    ) -> Result<(), Error>
        requires { CanResolveResult T.Archived.shape E.Archived.shape T.spelling E.spelling self.now resolver out }
        ensures { ResolvesResult T.Archived.shape E.Archived.shape T.spelling E.spelling self.now resolver out.entry out.exit result }
    {
        let Place {
            out,
            start,
            pos,
            ..
        } = out;
        let offset = <ArchivedResult<T::Archived, E::Archived> as Portable>::ALIGN;
        match self {
            Ok(value) => {
                let Ok(kept) = resolver else {
                    return Ok(());
                };
                out[start] = 0;
                return value.resolve(kept, Place::within(out, start + offset, pos + offset));
            }
            Err(error) => {
                let Err(kept) = resolver else {
                    return Ok(());
                };
                out[start] = 1;
                return error.resolve(kept, Place::within(out, start + offset, pos + offset));
            }
        }
    }

    ghost spells = { λ fit. result_spells fit T.Archived.shape E.Archived.shape (λ names. T.Archived.knows names × E.Archived.knows names) T.spelling E.spelling
        (known_spells fit T.Archived.shape T.Archived.knows (λ names. T.Archived.knows names × E.Archived.knows names) (λ _ k. k.0) T.spelling (T.spells fit))
        (known_spells fit E.Archived.shape E.Archived.knows (λ names. T.Archived.knows names × E.Archived.knows names) (λ _ k. k.1) E.spelling (E.spells fit)) };
}

/// Writes the data of the value of a result by `step`, or that of its error by `step_of_error`.
pub fn serialize_result_each<
    T: Archive,
    E: Archive,
    S: Writer + Allocator,
    F: Fn(&T, &mut S) -> Result<(T::Resolver, PhantomData<T::Archived>), Error>,
    G: Fn(&E, &mut S) -> Result<(E::Resolver, PhantomData<E::Archived>), Error>,
>(
    outcome: &Result<T, E>,
    serializer: &mut S,
    step: F,
    step_of_error: G,
) -> Result<Result<T::Resolver, E::Resolver>, Error>
    requires room { S.failures serializer.old < 2 ^ 64 - 1 }
    requires state { HasState S.pos S.known serializer.old }
    requires takes { StepTakes F.Fn S.Writer step (values_of outcome.now) }
    requires writes { StepWrites F.Fn (λ q. q.0) T.spelling S.Writer step }
    requires takes_errors { StepTakes G.Fn S.Writer step_of_error (errors_of outcome.now) }
    requires writes_errors { StepWrites G.Fn (λ q. q.0) E.spelling S.Writer step_of_error }
    ensures { WritesData ⟦<Result<T, E> as Archive>⟧ S.Writer outcome.now serializer.old serializer.new result }
{
    match outcome {
        Ok(value) => Ok(Ok(step(value, serializer)?.0)),
        Err(error) => Ok(Err(step_of_error(error, serializer)?.0)),
    }
}

impl<S: Writer + Allocator, T: Serialize<S>, E: Serialize<S>> Serialize<S> for Result<T, E> {
    fn serialize(&self, serializer: &mut S) -> Result<Result<T::Resolver, E::Resolver>, Error> {
        serialize_result_each::<T, E, S, _, _>(
            self,
            serializer,
            |item: &T, s: &mut S| -> Result<(T::Resolver, PhantomData<T::Archived>), Error>
                requires room { S.failures s.old < 2 ^ 64 - 1 }
                requires state { HasState S.pos S.known s.old }
                ensures { SerializesBy (λ q. q.0) T.spelling S.Writer item.now s.old s.new result }
            { serialize_element(item, s) },
            |item: &E, s: &mut S| -> Result<(E::Resolver, PhantomData<E::Archived>), Error>
                requires room { S.failures s.old < 2 ^ 64 - 1 }
                requires state { HasState S.pos S.known s.old }
                ensures { SerializesBy (λ q. q.0) E.spelling S.Writer item.now s.old s.new result }
            { serialize_element(item, s) },
        )
    }
}
