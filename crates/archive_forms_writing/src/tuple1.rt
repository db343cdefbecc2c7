//! The archiving of tuples of one field.
ghost use Rattle.std.specs.Prelude.{◌-◌, ◌^◌, ◌<◌, [], ◌∷◌};
ghost use Rattle.archive_forms_laws.specs.Fields.{tuple1_spelling};
ghost use Rattle.archive_forms_laws.specs.Serializing.{HasState, SerializesBy};
ghost use Rattle.archive_forms_laws.proofs.Fields.{tuple1_spells};
ghost use Rattle.archive_forms_writing.specs.Steps.{StepTakes, StepWrites};
ghost use Rattle.archive_forms_writing.specs.Calls.Resolving.{CanResolveTuple1, ResolvesTuple1};
ghost use Rattle.archive_forms_writing.specs.Calls.Data.{WritesData};

use crate::{Archive, Serialize, resolve_field, serialize_element};
use archive_forms_values::ArchivedTuple1;
use archive_shape::{Allocator, Error, Place, Portable, Writer};
use std::marker::PhantomData;

impl<A: Archive> Archive for (A,) {
    type Archived = ArchivedTuple1<A::Archived>;

    type Resolver = (A::Resolver,);

    ghost spelling = { tuple1_spelling A.Archived.shape A.spelling };

    fn resolve(
        &self,
        resolver: (A::Resolver,),
        out: Place<'_, ArchivedTuple1<A::Archived>>,
    ) -> Result<(), Error>
        requires { CanResolveTuple1 A.Archived.shape A.spelling self.now resolver out }
        ensures { ResolvesTuple1 A.Archived.shape A.spelling self.now resolver out.entry out.exit result }
    {
        let Place {
            out,
            start,
            pos,
            ..
        } = out;
        resolve_field(&self.0, resolver.0, out, start, pos, 0)?;
        Ok(())
    }

    ghost spells = { λ fit. tuple1_spells fit A.Archived.knows A.Archived.shape A.spelling (A.spells fit) };
}

/// Writes the data of the field of a tuple of one field by the step.
pub fn serialize_tuple1_each<
    A: Archive,
    S: Writer + Allocator,
    F: Fn(&A, &mut S) -> Result<(A::Resolver, PhantomData<A::Archived>), Error>,
>(tuple: &(A,), serializer: &mut S, first: F) -> Result<(A::Resolver,), Error>
    requires room { S.failures serializer.old < 2 ^ 64 - 1 }
    requires state { HasState S.pos S.known serializer.old }
    requires takes_first { StepTakes F.Fn S.Writer first (tuple.now.0 ∷ []) }
    requires writes_first { StepWrites F.Fn (λ q. q.0) A.spelling S.Writer first }
    ensures { WritesData ⟦<(A,) as Archive>⟧ S.Writer tuple.now serializer.old serializer.new result }
{
    let a = first(&tuple.0, serializer)?.0;
    Ok((a,))
}

impl<S: Writer + Allocator, A: Serialize<S>> Serialize<S> for (A,) {
    fn serialize(&self, serializer: &mut S) -> Result<(A::Resolver,), Error> {
        serialize_tuple1_each::<A, S, _>(
            self,
            serializer,
            |item: &A, s: &mut S| -> Result<(A::Resolver, PhantomData<A::Archived>), Error>
                requires room { S.failures s.old < 2 ^ 64 - 1 }
                requires state { HasState S.pos S.known s.old }
                ensures { SerializesBy (λ q. q.0) A.spelling S.Writer item.now s.old s.new result }
            { serialize_element(item, s) },
        )
    }
}
