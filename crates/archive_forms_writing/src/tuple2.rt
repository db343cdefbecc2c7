//! The archiving of tuples of two fields.
ghost use Rattle.std.specs.Prelude.{◌-◌, ◌^◌, ◌<◌, [], ◌∷◌};
ghost use Rattle.archive_forms_laws.specs.Fields.{tuple2_spelling};
ghost use Rattle.archive_forms_laws.specs.Serializing.{HasState, SerializesBy};
ghost use Rattle.archive_forms_laws.proofs.Fields.{tuple2_spells};
ghost use Rattle.archive_forms_laws.proofs.Views.{known_spells};
ghost use Rattle.archive_forms_writing.specs.Steps.{StepTakes, StepWrites};
ghost use Rattle.archive_forms_writing.specs.Calls.Resolving.{CanResolveTuple2, ResolvesTuple2};
ghost use Rattle.archive_forms_writing.specs.Calls.Data.{WritesData};

use crate::{Archive, Serialize, resolve_field, serialize_element};
use archive_forms_values::ArchivedTuple2;
use archive_shape::{Allocator, Error, Place, Portable, Writer};
use std::marker::PhantomData;

impl<A: Archive, B: Archive> Archive for (A, B) {
    type Archived = ArchivedTuple2<A::Archived, B::Archived>;

    type Resolver = (A::Resolver, B::Resolver);

    ghost spelling = { tuple2_spelling A.Archived.shape A.spelling B.Archived.shape B.spelling };

    fn resolve(
        &self,
        resolver: (A::Resolver, B::Resolver),
        out: Place<'_, ArchivedTuple2<A::Archived, B::Archived>>,
    ) -> Result<(), Error>
        requires { CanResolveTuple2 A.Archived.shape A.spelling B.Archived.shape B.spelling self.now resolver out }
        ensures { ResolvesTuple2 A.Archived.shape A.spelling B.Archived.shape B.spelling self.now resolver out.entry out.exit result }
    {
        let Place {
            out,
            start,
            pos,
            ..
        } = out;
        let end = resolve_field(&self.0, resolver.0, out, start, pos, 0)?;
        resolve_field(&self.1, resolver.1, out, start, pos, end)?;
        Ok(())
    }

    ghost spells = { λ fit. tuple2_spells fit (λ names. A.Archived.knows names × B.Archived.knows names) A.Archived.shape A.spelling B.Archived.shape B.spelling
        (known_spells fit A.Archived.shape A.Archived.knows (λ names. A.Archived.knows names × B.Archived.knows names) (λ _ k. k.0) A.spelling (A.spells fit))
        (known_spells fit B.Archived.shape B.Archived.knows (λ names. A.Archived.knows names × B.Archived.knows names) (λ _ k. k.1) B.spelling (B.spells fit)) };
}

/// Writes the data of the fields of a tuple of two, in order, each by its own step.
pub fn serialize_tuple2_each<
    A: Archive,
    B: Archive,
    S: Writer + Allocator,
    F: Fn(&A, &mut S) -> Result<(A::Resolver, PhantomData<A::Archived>), Error>,
    G: Fn(&B, &mut S) -> Result<(B::Resolver, PhantomData<B::Archived>), Error>,
>(
    tuple: &(A, B),
    serializer: &mut S,
    first: F,
    second: G,
) -> Result<(A::Resolver, B::Resolver), Error>
    requires room { S.failures serializer.old < 2 ^ 64 - 1 }
    requires state { HasState S.pos S.known serializer.old }
    requires takes_first { StepTakes F.Fn S.Writer first (tuple.now.0 ∷ []) }
    requires writes_first { StepWrites F.Fn (λ q. q.0) A.spelling S.Writer first }
    requires takes_second { StepTakes G.Fn S.Writer second (tuple.now.1 ∷ []) }
    requires writes_second { StepWrites G.Fn (λ q. q.0) B.spelling S.Writer second }
    ensures { WritesData ⟦<(A, B) as Archive>⟧ S.Writer tuple.now serializer.old serializer.new result }
{
    let a = first(&tuple.0, serializer)?.0;
    let b = second(&tuple.1, serializer)?.0;
    Ok((a, b))
}

impl<S: Writer + Allocator, A: Serialize<S>, B: Serialize<S>> Serialize<S> for (A, B) {
    fn serialize(&self, serializer: &mut S) -> Result<(A::Resolver, B::Resolver), Error> {
        serialize_tuple2_each::<A, B, S, _, _>(
            self,
            serializer,
            |item: &A, s: &mut S| -> Result<(A::Resolver, PhantomData<A::Archived>), Error>
                requires room { S.failures s.old < 2 ^ 64 - 1 }
                requires state { HasState S.pos S.known s.old }
                ensures { SerializesBy (λ q. q.0) A.spelling S.Writer item.now s.old s.new result }
            { serialize_element(item, s) },
            |item: &B, s: &mut S| -> Result<(B::Resolver, PhantomData<B::Archived>), Error>
                requires room { S.failures s.old < 2 ^ 64 - 1 }
                requires state { HasState S.pos S.known s.old }
                ensures { SerializesBy (λ q. q.0) B.spelling S.Writer item.now s.old s.new result }
            { serialize_element(item, s) },
        )
    }
}
