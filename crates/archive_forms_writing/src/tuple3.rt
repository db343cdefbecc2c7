//! The archiving of tuples of three fields.
ghost use Rattle.std.specs.Prelude.{◌-◌, ◌^◌, ◌<◌, [], ◌∷◌};
ghost use Rattle.archive_forms_laws.specs.Fields.{tuple3_spelling};
ghost use Rattle.archive_forms_laws.specs.Serializing.{HasState};
ghost use Rattle.archive_forms_laws.proofs.Fields.{tuple3_spells};
ghost use Rattle.archive_forms_laws.proofs.Views.{known_spells};
ghost use Rattle.archive_forms_writing.specs.Steps.{StepTakes, StepWrites};
ghost use Rattle.archive_forms_writing.specs.Calls.Resolving.{CanResolveTuple3, ResolvesTuple3};
ghost use Rattle.archive_forms_writing.specs.Calls.Data.{WritesData};

use crate::{Archive, Serialize, resolve_field};
use archive_forms_values::ArchivedTuple3;
use archive_shape::{Allocator, Error, Place, Portable, Writer};
use std::marker::PhantomData;

impl<A: Archive, B: Archive, C: Archive> Archive for (A, B, C) {
    type Archived = ArchivedTuple3<A::Archived, B::Archived, C::Archived>;

    type Resolver = (A::Resolver, B::Resolver, C::Resolver);

    ghost spelling = { tuple3_spelling A.Archived.shape A.spelling B.Archived.shape B.spelling C.Archived.shape C.spelling };

    fn resolve(
        &self,
        resolver: (A::Resolver, B::Resolver, C::Resolver),
        out: Place<'_, ArchivedTuple3<A::Archived, B::Archived, C::Archived>>,
    ) -> Result<(), Error>
        requires { CanResolveTuple3 A.Archived.shape A.spelling B.Archived.shape B.spelling C.Archived.shape C.spelling self.now resolver out }
        ensures { ResolvesTuple3 A.Archived.shape A.spelling B.Archived.shape B.spelling C.Archived.shape C.spelling self.now resolver out.entry out.exit result }
    {
        let Place {
            out,
            start,
            pos,
            ..
        } = out;
        let end = resolve_field(&self.0, resolver.0, out, start, pos, 0)?;
        let end = resolve_field(&self.1, resolver.1, out, start, pos, end)?;
        resolve_field(&self.2, resolver.2, out, start, pos, end)?;
        Ok(())
    }

    ghost spells = { λ fit. tuple3_spells fit (λ names. A.Archived.knows names × B.Archived.knows names × C.Archived.knows names) A.Archived.shape A.spelling B.Archived.shape B.spelling C.Archived.shape C.spelling
        (known_spells fit A.Archived.shape A.Archived.knows (λ names. A.Archived.knows names × B.Archived.knows names × C.Archived.knows names) (λ _ k. k.0) A.spelling (A.spells fit))
        (known_spells fit B.Archived.shape B.Archived.knows (λ names. A.Archived.knows names × B.Archived.knows names × C.Archived.knows names) (λ _ k. k.1) B.spelling (B.spells fit))
        (known_spells fit C.Archived.shape C.Archived.knows (λ names. A.Archived.knows names × B.Archived.knows names × C.Archived.knows names) (λ _ k. k.2) C.spelling (C.spells fit)) };
}

/// Writes the data of the fields of a tuple of three, in order, each by its own step.
pub fn serialize_tuple3_each<
    A: Archive,
    B: Archive,
    C: Archive,
    S: Writer + Allocator,
    F: Fn(&A, &mut S) -> Result<(A::Resolver, PhantomData<A::Archived>), Error>,
    G: Fn(&B, &mut S) -> Result<(B::Resolver, PhantomData<B::Archived>), Error>,
    H: Fn(&C, &mut S) -> Result<(C::Resolver, PhantomData<C::Archived>), Error>,
>(
    tuple: &(A, B, C),
    serializer: &mut S,
    first: F,
    second: G,
    third: H,
) -> Result<(A::Resolver, B::Resolver, C::Resolver), Error>
    requires room { S.failures serializer.old < 2 ^ 64 - 1 }
    requires state { HasState S.pos S.known serializer.old }
    requires takes_first { StepTakes F.Fn S.Writer first (tuple.now.0 ∷ []) }
    requires writes_first { StepWrites F.Fn (λ q. q.0) A.spelling S.Writer first }
    requires takes_second { StepTakes G.Fn S.Writer second (tuple.now.1 ∷ []) }
    requires writes_second { StepWrites G.Fn (λ q. q.0) B.spelling S.Writer second }
    requires takes_third { StepTakes H.Fn S.Writer third (tuple.now.2 ∷ []) }
    requires writes_third { StepWrites H.Fn (λ q. q.0) C.spelling S.Writer third }
    ensures { WritesData ⟦<(A, B, C) as Archive>⟧ S.Writer tuple.now serializer.old serializer.new result }
{
    let a = first(&tuple.0, serializer)?.0;
    let b = second(&tuple.1, serializer)?.0;
    let c = third(&tuple.2, serializer)?.0;
    Ok((a, b, c))
}

impl<S: Writer + Allocator, A: Serialize<S>, B: Serialize<S>, C: Serialize<S>> Serialize<S>
    for (A, B, C) {
    fn serialize(
        &self,
        serializer: &mut S,
    ) -> Result<(A::Resolver, B::Resolver, C::Resolver), Error> {
        let a = self.0.serialize(serializer)?;
        let b = self.1.serialize(serializer)?;
        let c = self.2.serialize(serializer)?;
        Ok((a, b, c))
    }
}
