//! The archiving of options.
ghost use Rattle.std.specs.Prelude.{◌-◌, ◌^◌, ◌<◌};
ghost use Rattle.archive_shape_layout.specs.Shape.Shape.{option};
ghost use Rattle.archive_forms_laws.specs.Serializing.{HasState, SerializesBy};
ghost use Rattle.archive_forms_laws.specs.Options.{option_spelling};
ghost use Rattle.archive_forms_laws.proofs.Options.{option_spells};
ghost use Rattle.archive_forms_writing.specs.Steps.{StepTakes, StepWrites, elements_of};
ghost use Rattle.archive_forms_writing.specs.Calls.Resolving.{CanResolveOption, ResolvesOption};
ghost use Rattle.archive_forms_writing.specs.Calls.Data.{WritesData};

use crate::{Archive, Serialize, serialize_element};
use archive_forms_values::{ArchivedOption, SOME_TAG};
use archive_shape::{Allocator, Error, Place, Portable, Writer};
use std::marker::PhantomData;

impl<T: Archive> Archive for Option<T> {
    type Archived = ArchivedOption<T::Archived>;

    type Resolver = Option<T::Resolver>;

    ghost spelling = { option_spelling T.Archived.shape T.spelling };

    fn resolve(
        &self,
        resolver: Option<T::Resolver>,
        out: Place<'_, ArchivedOption<T::Archived>>,
    ) -> Result<(), Error>
        requires { CanResolveOption T.Archived.shape T.spelling self.now resolver out }
        ensures { ResolvesOption T.Archived.shape T.spelling self.now resolver out.entry out.exit result }
    {
        let Place {
            out,
            start,
            pos,
            ..
        } = out;
        let Some(value) = self else {
            return Ok(());
        };
        let Some(kept) = resolver else {
            return Ok(());
        };
        let offset = T::Archived::ALIGN;
        out[start] = SOME_TAG;
        value.resolve(kept, Place::within(out, start + offset, pos + offset))
    }

    ghost spells = { λ fit. option_spells fit T.Archived.shape T.Archived.knows T.spelling (T.spells fit) };
}

/// Writes the data of the value of an option, if there is one, by the step.
pub fn serialize_option_each<
    T: Archive,
    S: Writer + Allocator,
    F: Fn(&T, &mut S) -> Result<(T::Resolver, PhantomData<T::Archived>), Error>,
>(option: &Option<T>, serializer: &mut S, step: F) -> Result<Option<T::Resolver>, Error>
    requires room { S.failures serializer.old < 2 ^ 64 - 1 }
    requires state { HasState S.pos S.known serializer.old }
    requires takes { StepTakes F.Fn S.Writer step (elements_of option.now) }
    requires writes { StepWrites F.Fn (λ q. q.0) T.spelling S.Writer step }
    ensures { WritesData ⟦<Option<T> as Archive>⟧ S.Writer option.now serializer.old serializer.new result }
{
    match option {
        None => Ok(None),
        Some(value) => Ok(Some(step(value, serializer)?.0)),
    }
}

impl<S: Writer + Allocator, T: Serialize<S>> Serialize<S> for Option<T> {
    fn serialize(&self, serializer: &mut S) -> Result<Option<T::Resolver>, Error> {
        serialize_option_each::<T, S, _>(
            self,
            serializer,
            |item: &T, s: &mut S| -> Result<(T::Resolver, PhantomData<T::Archived>), Error>
                requires room { S.failures s.old < 2 ^ 64 - 1 }
                requires state { HasState S.pos S.known s.old }
                ensures { SerializesBy (λ q. q.0) T.spelling S.Writer item.now s.old s.new result }
            { serialize_element(item, s) },
        )
    }
}
