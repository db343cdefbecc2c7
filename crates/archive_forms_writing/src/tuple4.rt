//! The archiving of tuples of four fields.
ghost use Rattle.std.specs.Prelude.{◌-◌, ◌^◌, ◌<◌, [], ◌∷◌};
ghost use Rattle.archive_forms_laws.specs.Fields.{tuple4_spelling};
ghost use Rattle.archive_forms_laws.specs.Serializing.{HasState};
ghost use Rattle.archive_forms_laws.proofs.Fields.{tuple4_spells};
ghost use Rattle.archive_forms_laws.proofs.Views.{known_spells};
ghost use Rattle.archive_forms_writing.specs.Steps.{StepTakes, StepWrites};
ghost use Rattle.archive_forms_writing.specs.Calls.Resolving.{CanResolveTuple4, ResolvesTuple4};
ghost use Rattle.archive_forms_writing.specs.Calls.Data.{WritesData};

use crate::{Archive, Serialize, resolve_field};
use archive_forms_values::ArchivedTuple4;
use archive_shape::{Allocator, Error, Place, Portable, Writer};
use std::marker::PhantomData;

impl<A: Archive, B: Archive, C: Archive, D: Archive> Archive for (A, B, C, D) {
    type Archived = ArchivedTuple4<A::Archived, B::Archived, C::Archived, D::Archived>;

    type Resolver = (A::Resolver, B::Resolver, C::Resolver, D::Resolver);

    ghost spelling = { tuple4_spelling A.Archived.shape A.spelling B.Archived.shape B.spelling C.Archived.shape C.spelling D.Archived.shape D.spelling };

    fn resolve(
        &self,
        resolver: (A::Resolver, B::Resolver, C::Resolver, D::Resolver),
        out: Place<'_, ArchivedTuple4<A::Archived, B::Archived, C::Archived, D::Archived>>,
    ) -> Result<(), Error>
        requires { CanResolveTuple4 A.Archived.shape A.spelling B.Archived.shape B.spelling C.Archived.shape C.spelling D.Archived.shape D.spelling self.now resolver out }
        ensures { ResolvesTuple4 A.Archived.shape A.spelling B.Archived.shape B.spelling C.Archived.shape C.spelling D.Archived.shape D.spelling self.now resolver out.entry out.exit result }
    {
        let Place {
            out,
            start,
            pos,
            ..
        } = out;
        let end = resolve_field(&self.0, resolver.0, out, start, pos, 0)?;
        let end = resolve_field(&self.1, resolver.1, out, start, pos, end)?;
        let end = resolve_field(&self.2, resolver.2, out, start, pos, end)?;
        resolve_field(&self.3, resolver.3, out, start, pos, end)?;
        Ok(())
    }

    ghost spells = { λ fit. tuple4_spells fit (λ names. A.Archived.knows names × B.Archived.knows names × C.Archived.knows names × D.Archived.knows names) A.Archived.shape A.spelling B.Archived.shape B.spelling C.Archived.shape C.spelling D.Archived.shape D.spelling
        (known_spells fit A.Archived.shape A.Archived.knows (λ names. A.Archived.knows names × B.Archived.knows names × C.Archived.knows names × D.Archived.knows names) (λ _ k. k.0) A.spelling (A.spells fit))
        (known_spells fit B.Archived.shape B.Archived.knows (λ names. A.Archived.knows names × B.Archived.knows names × C.Archived.knows names × D.Archived.knows names) (λ _ k. k.1) B.spelling (B.spells fit))
        (known_spells fit C.Archived.shape C.Archived.knows (λ names. A.Archived.knows names × B.Archived.knows names × C.Archived.knows names × D.Archived.knows names) (λ _ k. k.2) C.spelling (C.spells fit))
        (known_spells fit D.Archived.shape D.Archived.knows (λ names. A.Archived.knows names × B.Archived.knows names × C.Archived.knows names × D.Archived.knows names) (λ _ k. k.3) D.spelling (D.spells fit)) };
}

/// Writes the data of the fields of a tuple of four, in order, each by its own step.
pub fn serialize_tuple4_each<
    A: Archive,
    B: Archive,
    C: Archive,
    D: Archive,
    S: Writer + Allocator,
    F: Fn(&A, &mut S) -> Result<(A::Resolver, PhantomData<A::Archived>), Error>,
    G: Fn(&B, &mut S) -> Result<(B::Resolver, PhantomData<B::Archived>), Error>,
    H: Fn(&C, &mut S) -> Result<(C::Resolver, PhantomData<C::Archived>), Error>,
    I: Fn(&D, &mut S) -> Result<(D::Resolver, PhantomData<D::Archived>), Error>,
>(
    tuple: &(A, B, C, D),
    serializer: &mut S,
    first: F,
    second: G,
    third: H,
    fourth: I,
) -> Result<(A::Resolver, B::Resolver, C::Resolver, D::Resolver), Error>
    requires room { S.failures serializer.old < 2 ^ 64 - 1 }
    requires state { HasState S.pos S.known serializer.old }
    requires takes_first { StepTakes F.Fn S.Writer first (tuple.now.0 ∷ []) }
    requires writes_first { StepWrites F.Fn (λ q. q.0) A.spelling S.Writer first }
    requires takes_second { StepTakes G.Fn S.Writer second (tuple.now.1 ∷ []) }
    requires writes_second { StepWrites G.Fn (λ q. q.0) B.spelling S.Writer second }
    requires takes_third { StepTakes H.Fn S.Writer third (tuple.now.2 ∷ []) }
    requires writes_third { StepWrites H.Fn (λ q. q.0) C.spelling S.Writer third }
    requires takes_fourth { StepTakes I.Fn S.Writer fourth (tuple.now.3 ∷ []) }
    requires writes_fourth { StepWrites I.Fn (λ q. q.0) D.spelling S.Writer fourth }
    ensures { WritesData ⟦<(A, B, C, D) as Archive>⟧ S.Writer tuple.now serializer.old serializer.new result }
{
    let a = first(&tuple.0, serializer)?.0;
    let b = second(&tuple.1, serializer)?.0;
    let c = third(&tuple.2, serializer)?.0;
    let d = fourth(&tuple.3, serializer)?.0;
    Ok((a, b, c, d))
}

impl<
    S: Writer + Allocator,
    A: Serialize<S>,
    B: Serialize<S>,
    C: Serialize<S>,
    D: Serialize<S>,
> Serialize<S> for (A, B, C, D) {
    fn serialize(
        &self,
        serializer: &mut S,
    ) -> Result<(A::Resolver, B::Resolver, C::Resolver, D::Resolver), Error> {
        let a = self.0.serialize(serializer)?;
        let b = self.1.serialize(serializer)?;
        let c = self.2.serialize(serializer)?;
        let d = self.3.serialize(serializer)?;
        Ok((a, b, c, d))
    }
}
