//! The archiving of boxes.
ghost use Rattle.std.specs.Prelude.{◌-◌, ◌^◌, ◌<◌, [], ◌∷◌, refl};
ghost use Rattle.archive_shape_layout.specs.Shape.Shape.{box};
ghost use Rattle.archive_shape_layout.specs.Shape.Pointee.{sized};
ghost use Rattle.archive_forms_laws.specs.Pointers.{box_spelling};
ghost use Rattle.archive_forms_laws.specs.Serializing.{HasState, SerializesBy};
ghost use Rattle.archive_forms_laws.proofs.Pointers.{box_spells};
ghost use Rattle.archive_forms_laws.proofs.Views.{kept_spells, seen_spells};
ghost use Rattle.archive_forms_writing.specs.Owned.{boxed_spelling};
ghost use Rattle.archive_forms_writing.specs.Steps.{StepTakes, StepWrites};
ghost use Rattle.archive_forms_writing.specs.Calls.Resolving.{CanResolveBoxed, ResolvesBoxed};
ghost use Rattle.archive_forms_writing.specs.Calls.Data.{WritesData};

use crate::{Archive, Serialize, serialize_element, serialize_one_each};
use archive_forms_values::{ArchivedBox, BoxResolver};
use archive_shape::{Allocator, Error, Place, Writer};
use std::marker::PhantomData;

impl<T: Archive> Archive for Box<T> {
    type Archived = ArchivedBox<T::Archived>;

    type Resolver = BoxResolver;

    ghost spelling = { boxed_spelling T.Archived.shape T.spelling };

    fn resolve(
        &self,
        resolver: BoxResolver,
        out: Place<'_, ArchivedBox<T::Archived>>,
    ) -> Result<(), Error>
        requires { CanResolveBoxed T.Archived.shape T.spelling self.now resolver out }
        ensures { ResolvesBoxed T.Archived.shape T.spelling self.now resolver out.entry out.exit result }
    {
        let Place {
            out,
            start,
            pos,
            ..
        } = out;
        ArchivedBox::<T::Archived>::resolve_from_raw_parts(resolver, Place::within(out, start, pos))
    }

    ghost spells = { λ fit. kept_spells fit (box (sized T.Archived.shape)) T.Archived.knows _ _ (λ r. refl) _
        (seen_spells fit (box (sized T.Archived.shape)) T.Archived.knows (λ b. b.value) (box_spelling T.Archived.shape T.spelling)
        (box_spells fit T.Archived.shape T.Archived.knows T.spelling (T.spells fit))) };
}

/// Writes the data of a box: the data of its value by the step, and then the value's own bytes.
pub fn serialize_box_each<
    T: Archive,
    S: Writer + Allocator,
    F: Fn(&T, &mut S) -> Result<(T::Resolver, PhantomData<T::Archived>), Error>,
>(value: &Box<T>, serializer: &mut S, step: F) -> Result<BoxResolver, Error>
    requires room { S.failures serializer.old < 2 ^ 64 - 1 }
    requires state { HasState S.pos S.known serializer.old }
    requires takes { StepTakes F.Fn S.Writer step (value.now.value ∷ []) }
    requires writes { StepWrites F.Fn (λ q. q.0) T.spelling S.Writer step }
    ensures { WritesData ⟦<Box<T> as Archive>⟧ S.Writer value.now serializer.old serializer.new result }
{
    let pos = serialize_one_each(&**value, serializer, step)?;
    Ok(BoxResolver { pos })
}

impl<S: Writer + Allocator, T: Serialize<S>> Serialize<S> for Box<T> {
    fn serialize(&self, serializer: &mut S) -> Result<BoxResolver, Error> {
        serialize_box_each::<T, S, _>(
            self,
            serializer,
            |item: &T, s: &mut S| -> Result<(T::Resolver, PhantomData<T::Archived>), Error>
                requires room { S.failures s.old < 2 ^ 64 - 1 }
                requires state { HasState S.pos S.known s.old }
                ensures { SerializesBy (λ q. q.0) T.spelling S.Writer item.now s.old s.new result }
            { serialize_element(item, s) },
        )
    }
}
