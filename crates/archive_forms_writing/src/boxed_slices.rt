//! The archiving of boxes of slices and of texts.
ghost use Rattle.std.specs.Prelude.{◌-◌, ◌^◌, ◌<◌, ⊤, refl};
ghost use Rattle.std.specs.Box.{boxed_slice_items, boxed_str_bytes};
ghost use Rattle.archive_shape_layout.specs.Shape.Shape.{box};
ghost use Rattle.archive_shape_layout.specs.Shape.Pointee.{slice, str};
ghost use Rattle.archive_forms_laws.specs.Forms.{seen_as};
ghost use Rattle.archive_forms_laws.specs.Pointers.{slice_spelling};
ghost use Rattle.archive_forms_laws.specs.Texts.{boxed_text_spelling};
ghost use Rattle.archive_forms_laws.specs.Serializing.{HasState, Serializes, SerializesBy};
ghost use Rattle.archive_forms_laws.proofs.Pointers.{boxed_slice_spells};
ghost use Rattle.archive_forms_laws.proofs.Texts.{boxed_text_spells};
ghost use Rattle.archive_forms_laws.proofs.Views.{kept_spells, seen_spells};
ghost use Rattle.archive_forms_writing.specs.Owned.{boxed_slice_spelling, boxed_str_spelling};
ghost use Rattle.archive_forms_writing.specs.Steps.{StepTakes, StepWrites};
ghost use Rattle.archive_forms_writing.specs.Calls.Resolving.{CanResolveBoxedSlice, ResolvesBoxedSlice, CanResolveBoxedStr, ResolvesBoxedStr};
ghost use Rattle.archive_forms_writing.specs.Calls.Data.{WritesData};

use crate::{Archive, Serialize, serialize_element, serialize_slice_each};
use archive_forms_values::{ArchivedBoxedSlice, ArchivedBoxedStr, BoxResolver};
use archive_shape::{Allocator, Error, Place, Writer};
use std::boxed::{BoxedSlice, BoxedStr};
use std::marker::PhantomData;

impl<T: Archive> Archive for BoxedSlice<T> {
    type Archived = ArchivedBoxedSlice<T::Archived>;

    type Resolver = BoxResolver;

    ghost spelling = { seen_as boxed_slice_items (boxed_slice_spelling T.Archived.shape T.spelling) };

    fn resolve(
        &self,
        resolver: BoxResolver,
        out: Place<'_, ArchivedBoxedSlice<T::Archived>>,
    ) -> Result<(), Error>
        requires { CanResolveBoxedSlice T.Archived.shape T.spelling self.now resolver out }
        ensures { ResolvesBoxedSlice T.Archived.shape T.spelling self.now resolver out.entry out.exit result }
    {
        let Place {
            out,
            start,
            pos,
            ..
        } = out;
        ArchivedBoxedSlice::<T::Archived>::resolve_from_raw_parts(
            resolver,
            self.len(),
            Place::within(out, start, pos),
        )
    }

    ghost spells = { λ fit. seen_spells fit (box (slice T.Archived.shape)) T.Archived.knows boxed_slice_items (boxed_slice_spelling T.Archived.shape T.spelling)
        (kept_spells fit (box (slice T.Archived.shape)) T.Archived.knows _ _ (λ r. refl) (slice_spelling T.Archived.shape T.spelling)
        (boxed_slice_spells fit T.Archived.shape T.Archived.knows T.spelling (T.spells fit))) };
}

/// Writes the data of the box of a slice: the data of each element by the step, and then the elements' own bytes.
pub fn serialize_boxed_slice_each<
    T: Archive,
    S: Writer + Allocator,
    F: Fn(&T, &mut S) -> Result<(T::Resolver, PhantomData<T::Archived>), Error>,
>(items: &BoxedSlice<T>, serializer: &mut S, step: F) -> Result<BoxResolver, Error>
    requires room { S.failures serializer.old < 2 ^ 64 - 1 }
    requires state { HasState S.pos S.known serializer.old }
    requires takes { StepTakes F.Fn S.Writer step (boxed_slice_items items.now) }
    requires writes { StepWrites F.Fn (λ q. q.0) T.spelling S.Writer step }
    ensures { WritesData ⟦<BoxedSlice<T> as Archive>⟧ S.Writer items.now serializer.old serializer.new result }
{
    let pos = serialize_slice_each(items.as_slice(), serializer, step)?;
    Ok(BoxResolver { pos })
}

impl<S: Writer + Allocator, T: Serialize<S>> Serialize<S> for BoxedSlice<T> {
    fn serialize(&self, serializer: &mut S) -> Result<BoxResolver, Error> {
        serialize_boxed_slice_each::<T, S, _>(
            self,
            serializer,
            |item: &T, s: &mut S| -> Result<(T::Resolver, PhantomData<T::Archived>), Error>
                requires room { S.failures s.old < 2 ^ 64 - 1 }
                requires state { HasState S.pos S.known s.old }
                ensures { SerializesBy (λ q. q.0) T.spelling S.Writer item.now s.old s.new result }
            { serialize_element(item, s) },
        )
    }
}

/// Writes the bytes of a text that a pointer leads to, and returns the position of the first. Returns
/// `PositionTooLarge` if the position is more than 2^32 - 1.
pub fn serialize_str<S: Writer>(value: &str, serializer: &mut S) -> Result<usize, Error>
    requires room { S.failures serializer.old < 2 ^ 64 - 1 }
    requires state { HasState S.pos S.known serializer.old }
    ensures { Serializes boxed_text_spelling S.Writer value.now serializer.old serializer.new result }
{
    let pos = serializer.pos();
    if pos > u32::MAX as usize {
        return Err(Error::PositionTooLarge);
    }
    serializer.write(value.as_bytes())?;
    Ok(pos)
}

impl Archive for BoxedStr {
    type Archived = ArchivedBoxedStr;

    type Resolver = BoxResolver;

    ghost spelling = { seen_as boxed_str_bytes boxed_str_spelling };

    fn resolve(&self, resolver: BoxResolver, out: Place<'_, ArchivedBoxedStr>) -> Result<(), Error>
        requires { CanResolveBoxedStr self.now resolver out }
        ensures { ResolvesBoxedStr self.now resolver out.entry out.exit result }
    {
        let Place {
            out,
            start,
            pos,
            ..
        } = out;
        ArchivedBoxedStr::resolve_from_raw_parts(
            resolver,
            self.as_str().len(),
            Place::within(out, start, pos),
        )
    }

    ghost spells = { λ fit. seen_spells fit (box str) (λ _. ⊤) boxed_str_bytes boxed_str_spelling
        (kept_spells fit (box str) (λ _. ⊤) _ _ (λ r. refl) boxed_text_spelling (boxed_text_spells fit (λ _. ⊤))) };
}

impl<S: Writer + Allocator> Serialize<S> for BoxedStr {
    fn serialize(&self, serializer: &mut S) -> Result<BoxResolver, Error> {
        let pos = serialize_str(self.as_str(), serializer)?;
        Ok(BoxResolver { pos })
    }
}
