//! The implementations of `ArchiveUnsized` and `SerializeUnsized` for `&T`, `&[T]` and `&str`.
ghost use Rattle.std.specs.Prelude.{◌-◌, ◌^◌, ◌<◌, length, ⊤, refl};
ghost use Rattle.archive_shape_layout.specs.Shape.Shape.{box};
ghost use Rattle.archive_shape_layout.specs.Shape.Pointee.{sized, slice, str};
ghost use Rattle.archive_forms_laws.specs.Forms.{seen_as};
ghost use Rattle.archive_forms_laws.specs.Pointers.{box_spelling, slice_spelling};
ghost use Rattle.archive_forms_laws.specs.Texts.{boxed_text_spelling};
ghost use Rattle.archive_forms_laws.specs.Serializing.{HasState, SerializesBy};
ghost use Rattle.archive_forms_laws.proofs.Pointers.{box_spells, boxed_slice_spells};
ghost use Rattle.archive_forms_laws.proofs.Texts.{boxed_text_spells};
ghost use Rattle.archive_forms_laws.proofs.Views.{each_spells, seen_spells};
ghost use Rattle.archive_forms_laws.proofs.Behind.{value_behind, elements_behind, text_behind, seen_behind};
ghost use Rattle.archive_forms_writing.specs.Calls.Resolving.{CanResolveBoxOfValue, ResolvesBoxOfValue, CanResolveBoxOfSlice, ResolvesBoxOfSlice, CanResolveBoxOfStr, ResolvesBoxOfStr};

use crate::boxing::{ArchiveUnsized, SerializeUnsized};
use crate::{
    Archive, Serialize, serialize_element, serialize_one_each, serialize_slice_each, serialize_str,
};
use archive_forms_values::{ArchivedBox, ArchivedBoxedSlice, ArchivedBoxedStr, BoxResolver};
use archive_shape::{Allocator, Error, Place, Slice, Str, Writer};
use std::marker::PhantomData;

impl<'a, T: Archive> ArchiveUnsized for &'a T {
    type Archived = T::Archived;

    type Boxed = ArchivedBox<T::Archived>;

    ghost count = { λ _. 1 };

    ghost pointed = { seen_as (λ r. r.now) (box_spelling T.Archived.shape T.spelling) };

    fn resolve_box(
        &self,
        resolver: BoxResolver,
        out: Place<'_, ArchivedBox<T::Archived>>,
    ) -> Result<(), Error>
        requires { CanResolveBoxOfValue T.Archived.shape T.spelling self.now resolver out }
        ensures { ResolvesBoxOfValue T.Archived.shape T.spelling self.now resolver out.entry out.exit result }
    {
        let Place {
            out,
            start,
            pos,
            ..
        } = out;
        ArchivedBox::<T::Archived>::resolve_from_raw_parts(resolver, Place::within(out, start, pos))
    }

    ghost boxed = { refl };

    ghost spells = { λ fit. seen_spells fit (box (sized T.Archived.shape)) T.Archived.knows (λ r. r.now) (box_spelling T.Archived.shape T.spelling)
        (box_spells fit T.Archived.shape T.Archived.knows T.spelling (T.spells fit)) };

    ghost behind = { λ fit x. seen_behind fit (sized T.Archived.shape) T.Archived.knows (λ r. r.now) (λ _. 1) (box_spelling T.Archived.shape T.spelling) x
        (value_behind fit T.Archived.shape T.Archived.knows T.spelling x.now (T.spells fit x.now)) };
}

impl<'a, S: Writer + Allocator, T: Serialize<S>> SerializeUnsized<S> for &'a T {
    fn serialize_unsized(&self, serializer: &mut S) -> Result<usize, Error> {
        serialize_one_each::<T, S, _>(
            *self,
            serializer,
            |item: &T, s: &mut S| -> Result<(T::Resolver, PhantomData<T::Archived>), Error>
                requires room { S.failures s.old < 2 ^ 64 - 1 }
                requires state { HasState S.pos S.known s.old }
                ensures { SerializesBy (λ q. q.0) T.spelling S.Writer item.now s.old s.new result }
            { serialize_element(item, s) },
        )
    }
}

impl<'a, T: Archive> ArchiveUnsized for &'a [T] {
    type Archived = Slice<T::Archived>;

    type Boxed = ArchivedBoxedSlice<T::Archived>;

    ghost count = { λ r. length r.now };

    ghost pointed = { seen_as (λ r. r.now) (slice_spelling T.Archived.shape T.spelling) };

    fn resolve_box(
        &self,
        resolver: BoxResolver,
        out: Place<'_, ArchivedBoxedSlice<T::Archived>>,
    ) -> Result<(), Error>
        requires { CanResolveBoxOfSlice T.Archived.shape T.spelling self.now resolver out }
        ensures { ResolvesBoxOfSlice T.Archived.shape T.spelling self.now resolver out.entry out.exit result }
    {
        let Place {
            out,
            start,
            pos,
            ..
        } = out;
        ArchivedBoxedSlice::<T::Archived>::resolve_from_raw_parts(
            resolver,
            self.len(),
            Place::within(out, start, pos),
        )
    }

    ghost boxed = { refl };

    ghost spells = { λ fit. seen_spells fit (box (slice T.Archived.shape)) T.Archived.knows (λ r. r.now) (slice_spelling T.Archived.shape T.spelling)
        (boxed_slice_spells fit T.Archived.shape T.Archived.knows T.spelling (T.spells fit)) };

    ghost behind = { λ fit x. seen_behind fit (slice T.Archived.shape) T.Archived.knows (λ r. r.now) length (slice_spelling T.Archived.shape T.spelling) x
        (elements_behind fit T.Archived.shape T.Archived.knows T.spelling x.now (each_spells fit T.Archived.shape T.Archived.knows T.spelling (T.spells fit) x.now)) };
}

impl<'a, S: Writer + Allocator, T: Serialize<S>> SerializeUnsized<S> for &'a [T] {
    fn serialize_unsized(&self, serializer: &mut S) -> Result<usize, Error> {
        serialize_slice_each::<T, S, _>(
            *self,
            serializer,
            |item: &T, s: &mut S| -> Result<(T::Resolver, PhantomData<T::Archived>), Error>
                requires room { S.failures s.old < 2 ^ 64 - 1 }
                requires state { HasState S.pos S.known s.old }
                ensures { SerializesBy (λ q. q.0) T.spelling S.Writer item.now s.old s.new result }
            { serialize_element(item, s) },
        )
    }
}

impl<'a> ArchiveUnsized for &'a str {
    type Archived = Str;

    type Boxed = ArchivedBoxedStr;

    ghost count = { λ r. length r.now };

    ghost pointed = { seen_as (λ r. r.now) boxed_text_spelling };

    fn resolve_box(
        &self,
        resolver: BoxResolver,
        out: Place<'_, ArchivedBoxedStr>,
    ) -> Result<(), Error>
        requires { CanResolveBoxOfStr self.now resolver out }
        ensures { ResolvesBoxOfStr self.now resolver out.entry out.exit result }
    {
        let Place {
            out,
            start,
            pos,
            ..
        } = out;
        ArchivedBoxedStr::resolve_from_raw_parts(
            resolver,
            self.len(),
            Place::within(out, start, pos),
        )
    }

    ghost boxed = { refl };

    ghost spells = { λ fit. seen_spells fit (box str) (λ _. ⊤) (λ r. r.now) boxed_text_spelling (boxed_text_spells fit (λ _. ⊤)) };

    ghost behind = { λ fit x. seen_behind fit str (λ _. ⊤) (λ r. r.now) length boxed_text_spelling x (text_behind fit (λ _. ⊤) x.now) };
}

impl<'a, S: Writer + Allocator> SerializeUnsized<S> for &'a str {
    fn serialize_unsized(&self, serializer: &mut S) -> Result<usize, Error> {
        serialize_str(*self, serializer)
    }
}
