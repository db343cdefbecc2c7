//! Counted pointers with the keys under which their values are shared.
ghost use Rattle.std.specs.Prelude.{false, ⊤, refl};
ghost use Rattle.archive_shape_layout.specs.Shape.Shape.{shared};
ghost use Rattle.archive_shape_layout.specs.Shape.Pointee.{sized, slice, str};
ghost use Rattle.archive_forms_rc.specs.Counted.{shared_rc_spelling, shared_slice_rc_spelling, shared_str_rc_spelling};
ghost use Rattle.archive_forms_laws.proofs.Views.{kept_spells};
ghost use Rattle.archive_forms_writing.proofs.Shared.{seen_value_spells, seen_slice_spells, seen_text_spells};
ghost use Rattle.std.specs.Rc.{rc_slice_items, rc_str_bytes};
ghost use Rattle.archive_forms_rc.specs.Calls.Resolving.{CanResolveRc, ResolvesRc, CanResolveRcSlice, ResolvesRcSlice, CanResolveRcStr, ResolvesRcStr};

use crate::sharing::{SharingExt, serialize_rc_from_ref};
use crate::{ArchivedRc, ArchivedRcSlice, ArchivedRcStr, RcFlavor, RcResolver};
use archive_forms_writing::{Archive, Serialize};
use archive_shape::{Error, Place, Portable};
use std::rc::{Rc, RcSlice, RcStr};

/// A counted pointer, and the key of its value. Pointers to one value have one key, and no other value of any type has
/// that key: an archive has one value for each key.
#[derive(Drop)]
pub struct Shared<P> {
    pub key: usize,
    pub value: P,
}

impl<T: Archive> Archive for Shared<Rc<T>> {
    type Archived = ArchivedRc<T::Archived, RcFlavor>;

    type Resolver = RcResolver;

    ghost spelling = { shared_rc_spelling T.Archived.shape T.spelling };

    fn resolve(
        &self,
        resolver: RcResolver,
        out: Place<'_, ArchivedRc<T::Archived, RcFlavor>>,
    ) -> Result<(), Error>
        requires { CanResolveRc T.Archived.shape T.spelling self.now resolver out }
        ensures { ResolvesRc T.Archived.shape T.spelling self.now resolver out.entry out.exit result }
    {
        let Place {
            out,
            start,
            pos,
            ..
        } = out;
        ArchivedRc::<T::Archived, RcFlavor>::resolve_from_raw_parts(
            resolver,
            Place::within(out, start, pos),
        )
    }

    ghost spells = { λ fit. kept_spells fit (shared false (sized T.Archived.shape)) T.Archived.knows _ _ (λ r. refl) _
        (seen_value_spells fit false T.Archived.knows (λ x. x.key) T.Archived.shape T.spelling (T.spells fit) (λ x. x.value.value)) };
}

impl<S: SharingExt, T: Serialize<S>> Serialize<S> for Shared<Rc<T>> {
    fn serialize(&self, serializer: &mut S) -> Result<RcResolver, Error> {
        let value: &T = &*self.value;
        serialize_rc_from_ref(self.key, &value, serializer)
    }
}

impl<T: Archive> Archive for Shared<RcSlice<T>> {
    type Archived = ArchivedRcSlice<T::Archived, RcFlavor>;

    type Resolver = RcResolver;

    ghost spelling = { shared_slice_rc_spelling T.Archived.shape T.spelling };

    fn resolve(
        &self,
        resolver: RcResolver,
        out: Place<'_, ArchivedRcSlice<T::Archived, RcFlavor>>,
    ) -> Result<(), Error>
        requires { CanResolveRcSlice T.Archived.shape T.spelling self.now resolver out }
        ensures { ResolvesRcSlice T.Archived.shape T.spelling self.now resolver out.entry out.exit result }
    {
        let Place {
            out,
            start,
            pos,
            ..
        } = out;
        ArchivedRcSlice::<T::Archived, RcFlavor>::resolve_from_raw_parts(
            resolver,
            self.value.len(),
            Place::within(out, start, pos),
        )
    }

    ghost spells = { λ fit. kept_spells fit (shared false (slice T.Archived.shape)) T.Archived.knows _ _ (λ r. refl) _
        (seen_slice_spells fit false T.Archived.knows (λ x. x.key) T.Archived.shape T.spelling (T.spells fit) (λ x. rc_slice_items x.value)) };
}

impl<S: SharingExt, T: Serialize<S>> Serialize<S> for Shared<RcSlice<T>> {
    fn serialize(&self, serializer: &mut S) -> Result<RcResolver, Error> {
        let elements: &[T] = self.value.as_slice();
        serialize_rc_from_ref(self.key, &elements, serializer)
    }
}

impl Archive for Shared<RcStr> {
    type Archived = ArchivedRcStr<RcFlavor>;

    type Resolver = RcResolver;

    ghost spelling = { shared_str_rc_spelling };

    fn resolve(
        &self,
        resolver: RcResolver,
        out: Place<'_, ArchivedRcStr<RcFlavor>>,
    ) -> Result<(), Error>
        requires { CanResolveRcStr self.now resolver out }
        ensures { ResolvesRcStr self.now resolver out.entry out.exit result }
    {
        let Place {
            out,
            start,
            pos,
            ..
        } = out;
        ArchivedRcStr::<RcFlavor>::resolve_from_raw_parts(
            resolver,
            self.value.len(),
            Place::within(out, start, pos),
        )
    }

    ghost spells = { λ fit. kept_spells fit (shared false str) (λ _. ⊤) _ _ (λ r. refl) _
        (seen_text_spells fit false (λ _. ⊤) (λ x. x.key) (λ x. rc_str_bytes x.value)) };
}

impl<S: SharingExt> Serialize<S> for Shared<RcStr> {
    fn serialize(&self, serializer: &mut S) -> Result<RcResolver, Error> {
        let text: &str = &*self.value;
        serialize_rc_from_ref(self.key, &text, serializer)
    }
}

impl<T: Portable> ArchivedRc<T, RcFlavor> {
    /// Writes the counted pointer to a value at `out`, where the bytes are zeros. The resolver was made of the same
    /// value.
    ///
    /// Returns `IsizeOverflow` if the offset does not fit in an `i32`.
    pub fn resolve_from_ref<U: Archive<Archived = T>>(
        value: &Shared<Rc<U>>,
        resolver: RcResolver,
        out: Place<'_, ArchivedRc<T, RcFlavor>>,
    ) -> Result<(), Error>
        requires { CanResolveRc T.shape U.spelling value.now resolver out }
        ensures { ResolvesRc T.shape U.spelling value.now resolver out.entry out.exit result }
    {
        let Place {
            out,
            start,
            pos,
            ..
        } = out;
        value.resolve(resolver, Place::within(out, start, pos))
    }
}

impl<T: Portable> ArchivedRcSlice<T, RcFlavor> {
    /// Writes the counted pointer to elements at `out`, where the bytes are zeros. The resolver was made of the same
    /// elements.
    ///
    /// Returns `LengthTooLarge` if there are more than 2^32 - 1, and otherwise `IsizeOverflow` if the offset does not
    /// fit in an `i32`.
    pub fn resolve_from_ref<U: Archive<Archived = T>>(
        value: &Shared<RcSlice<U>>,
        resolver: RcResolver,
        out: Place<'_, ArchivedRcSlice<T, RcFlavor>>,
    ) -> Result<(), Error>
        requires { CanResolveRcSlice T.shape U.spelling value.now resolver out }
        ensures { ResolvesRcSlice T.shape U.spelling value.now resolver out.entry out.exit result }
    {
        let Place {
            out,
            start,
            pos,
            ..
        } = out;
        value.resolve(resolver, Place::within(out, start, pos))
    }
}

impl ArchivedRcStr<RcFlavor> {
    /// Writes the counted pointer to a text at `out`, where the bytes are zeros. The resolver was made of the same
    /// text.
    ///
    /// Returns `LengthTooLarge` if it has more than 2^32 - 1 bytes, and otherwise `IsizeOverflow` if the offset does not
    /// fit in an `i32`.
    pub fn resolve_from_ref(
        value: &Shared<RcStr>,
        resolver: RcResolver,
        out: Place<'_, ArchivedRcStr<RcFlavor>>,
    ) -> Result<(), Error>
        requires { CanResolveRcStr value.now resolver out }
        ensures { ResolvesRcStr value.now resolver out.entry out.exit result }
    {
        let Place {
            out,
            start,
            pos,
            ..
        } = out;
        value.resolve(resolver, Place::within(out, start, pos))
    }
}
