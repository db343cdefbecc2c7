//! Weak pointers to values that are shared.
ghost use Rattle.std.specs.Prelude.{◌-◌, ◌^◌, ◌<◌, false, None, Some, ⊤, refl};
ghost use Rattle.std.specs.Rc.{rc_slice_items, rc_str_bytes};
ghost use Rattle.archive_shape_layout.specs.Shape.Shape.{shared, weak};
ghost use Rattle.archive_shape_layout.specs.Shape.Pointee.{sized, slice, str};
ghost use Rattle.archive_forms_laws.specs.Serializing.{HasState, Serializes};
ghost use Rattle.archive_forms_rc.specs.Counted.{shared_weak_spelling, shared_weak_slice_spelling, shared_weak_str_spelling, weak_str_rc_spelling};
ghost use Rattle.archive_forms_rc.specs.WeakResolvers.{weak_resolver, counted_resolver};
ghost use Rattle.archive_forms_laws.proofs.Views.{kept_spells, seen_spells};
ghost use Rattle.archive_forms_writing.proofs.Shared.{seen_value_spells, seen_slice_spells, seen_text_spells};
ghost use Rattle.archive_forms_writing.proofs.Weak.{weak_spells};
ghost use Rattle.archive_forms_rc.specs.Calls.Resolving.{CanResolveWeak, ResolvesWeak, CanResolveWeakSlice, ResolvesWeakSlice, CanResolveWeakStr, ResolvesWeakStr, CanResolveSharedWeak, ResolvesSharedWeak, CanResolveSharedWeakSlice, ResolvesSharedWeakSlice, CanResolveSharedWeakStr, ResolvesSharedWeakStr, WritesWeak, WritesWeakSlice};

use crate::sharing::{Shared, SharingExt};
use crate::{ArchivedRcWeak, ArchivedRcWeakSlice, ArchivedRcWeakStr, RcFlavor, RcWeakResolver};
use archive_forms_writing::{Archive, Serialize};
use archive_shape::{Error, Place, Portable};
use std::rc::{Rc, RcSlice, RcStr};

/// A weak pointer, which leads to a shared value or to nothing, as std's `Weak` does. A value that it leads to is
/// written at the first use of its key, as that of a counted pointer is.
#[derive(Drop)]
pub struct SharedWeak<P> {
    pub shared: Option<Shared<P>>,
}

impl<T: Portable> ArchivedRcWeak<T, RcFlavor> {
    /// Writes the weak pointer to a value, or to nothing, at `out`, where the bytes are zeros. The
    /// resolver was made of the same value, or of nothing.
    ///
    /// Returns `IsizeOverflow` if the offset does not fit in an `i32`.
    pub fn resolve_from_ref<U: Archive<Archived = T>>(
        value: &Option<Shared<Rc<U>>>,
        resolver: RcWeakResolver,
        out: Place<'_, ArchivedRcWeak<T, RcFlavor>>,
    ) -> Result<(), Error>
        requires { CanResolveWeak T.shape U.spelling value.now resolver out }
        ensures { ResolvesWeak T.shape U.spelling value.now resolver out.entry out.exit result }
    {
        let Place {
            out,
            start,
            pos,
            ..
        } = out;
        value.resolve(resolver.into_option(), Place::within(out, start, pos))
    }

    /// Writes what a weak pointer to a value leads to, unless it was written under the key before. Returns the resolver
    /// of the weak pointer. Nothing is written for a pointer to nothing.
    pub fn serialize_from_ref<U: Archive<Archived = T> + Serialize<S>, S: SharingExt>(
        value: &Option<Shared<Rc<U>>>,
        serializer: &mut S,
    ) -> Result<RcWeakResolver, Error>
        requires room { S.failures serializer.old < 2 ^ 64 - 1 }
        requires state { HasState S.pos S.known serializer.old }
        ensures { WritesWeak T.shape U.spelling S.Writer value.now serializer.old serializer.new result }
    {
        let resolver = value.serialize(serializer)?;
        Ok(RcWeakResolver::from_option(resolver))
    }
}

impl<T: Portable> ArchivedRcWeakSlice<T, RcFlavor> {
    /// Writes the weak pointer to elements, or to nothing, at `out`, where the bytes are zeros. The
    /// resolver was made of the same elements, or of nothing.
    ///
    /// Returns `LengthTooLarge` if there are more than 2^32 - 1, and otherwise `IsizeOverflow` if the offset does not
    /// fit in an `i32`.
    pub fn resolve_from_ref<U: Archive<Archived = T>>(
        value: &Option<Shared<RcSlice<U>>>,
        resolver: RcWeakResolver,
        out: Place<'_, ArchivedRcWeakSlice<T, RcFlavor>>,
    ) -> Result<(), Error>
        requires { CanResolveWeakSlice T.shape U.spelling value.now resolver out }
        ensures { ResolvesWeakSlice T.shape U.spelling value.now resolver out.entry out.exit result }
    {
        let Place {
            out,
            start,
            pos,
            ..
        } = out;
        value.resolve(resolver.into_option(), Place::within(out, start, pos))
    }

    /// Writes what a weak pointer to elements leads to, unless it was written under the key before. Returns the resolver
    /// of the weak pointer. Nothing is written for a pointer to nothing.
    pub fn serialize_from_ref<U: Archive<Archived = T> + Serialize<S>, S: SharingExt>(
        value: &Option<Shared<RcSlice<U>>>,
        serializer: &mut S,
    ) -> Result<RcWeakResolver, Error>
        requires room { S.failures serializer.old < 2 ^ 64 - 1 }
        requires state { HasState S.pos S.known serializer.old }
        ensures { WritesWeakSlice T.shape U.spelling S.Writer value.now serializer.old serializer.new result }
    {
        let resolver = value.serialize(serializer)?;
        Ok(RcWeakResolver::from_option(resolver))
    }
}

impl ArchivedRcWeakStr<RcFlavor> {
    /// Writes the weak pointer to a text, or to nothing, at `out`, where the bytes are zeros. The
    /// resolver was made of the same text, or of nothing.
    ///
    /// Returns `LengthTooLarge` if it has more than 2^32 - 1 bytes, and otherwise `IsizeOverflow` if the offset does not
    /// fit in an `i32`.
    pub fn resolve_from_ref(
        value: &Option<Shared<RcStr>>,
        resolver: RcWeakResolver,
        out: Place<'_, ArchivedRcWeakStr<RcFlavor>>,
    ) -> Result<(), Error>
        requires { CanResolveWeakStr value.now resolver out }
        ensures { ResolvesWeakStr value.now resolver out.entry out.exit result }
    {
        let Place {
            out,
            start,
            pos,
            ..
        } = out;
        value.resolve(resolver.into_option(), Place::within(out, start, pos))
    }

    /// Writes what a weak pointer to a text leads to, unless it was written under the key before. Returns the resolver
    /// of the weak pointer. Nothing is written for a pointer to nothing.
    pub fn serialize_from_ref<S: SharingExt>(
        value: &Option<Shared<RcStr>>,
        serializer: &mut S,
    ) -> Result<RcWeakResolver, Error>
        requires room { S.failures serializer.old < 2 ^ 64 - 1 }
        requires state { HasState S.pos S.known serializer.old }
        ensures { Serializes weak_str_rc_spelling S.Writer value.now serializer.old
            serializer.new result }
    {
        let resolver = value.serialize(serializer)?;
        Ok(RcWeakResolver::from_option(resolver))
    }
}

impl<T: Archive> Archive for SharedWeak<Rc<T>> {
    type Archived = ArchivedRcWeak<T::Archived, RcFlavor>;

    type Resolver = RcWeakResolver;

    ghost spelling = { shared_weak_spelling T.Archived.shape T.spelling };

    fn resolve(
        &self,
        resolver: RcWeakResolver,
        out: Place<'_, ArchivedRcWeak<T::Archived, RcFlavor>>,
    ) -> Result<(), Error>
        requires { CanResolveSharedWeak T.Archived.shape T.spelling self.now resolver out }
        ensures { ResolvesSharedWeak T.Archived.shape T.spelling self.now resolver out.entry out.exit result }
    {
        let Place {
            out,
            start,
            pos,
            ..
        } = out;
        ArchivedRcWeak::resolve_from_ref(&self.shared, resolver, Place::within(out, start, pos))
    }

    ghost spells = { λ fit. seen_spells fit (weak false (sized T.Archived.shape)) T.Archived.knows (λ x. x.shared) _
        (kept_spells fit (weak false (sized T.Archived.shape)) T.Archived.knows weak_resolver counted_resolver (elim [ None ↦ refl | Some r ↦ refl ]) _
        (weak_spells false (sized T.Archived.shape) fit T.Archived.knows _
        (kept_spells fit (shared false (sized T.Archived.shape)) T.Archived.knows _ _ (λ r. refl) _
        (seen_value_spells fit false T.Archived.knows (λ x. x.key) T.Archived.shape T.spelling (T.spells fit) (λ x. x.value.value))))) };
}

impl<S: SharingExt, T: Serialize<S>> Serialize<S> for SharedWeak<Rc<T>> {
    fn serialize(&self, serializer: &mut S) -> Result<RcWeakResolver, Error> {
        ArchivedRcWeak::serialize_from_ref(&self.shared, serializer)
    }
}

impl<T: Archive> Archive for SharedWeak<RcSlice<T>> {
    type Archived = ArchivedRcWeakSlice<T::Archived, RcFlavor>;

    type Resolver = RcWeakResolver;

    ghost spelling = { shared_weak_slice_spelling T.Archived.shape T.spelling };

    fn resolve(
        &self,
        resolver: RcWeakResolver,
        out: Place<'_, ArchivedRcWeakSlice<T::Archived, RcFlavor>>,
    ) -> Result<(), Error>
        requires { CanResolveSharedWeakSlice T.Archived.shape T.spelling self.now resolver out }
        ensures { ResolvesSharedWeakSlice T.Archived.shape T.spelling self.now resolver out.entry out.exit result }
    {
        let Place {
            out,
            start,
            pos,
            ..
        } = out;
        ArchivedRcWeakSlice::resolve_from_ref(
            &self.shared,
            resolver,
            Place::within(out, start, pos),
        )
    }

    ghost spells = { λ fit. seen_spells fit (weak false (slice T.Archived.shape)) T.Archived.knows (λ x. x.shared) _
        (kept_spells fit (weak false (slice T.Archived.shape)) T.Archived.knows weak_resolver counted_resolver (elim [ None ↦ refl | Some r ↦ refl ]) _
        (weak_spells false (slice T.Archived.shape) fit T.Archived.knows _
        (kept_spells fit (shared false (slice T.Archived.shape)) T.Archived.knows _ _ (λ r. refl) _
        (seen_slice_spells fit false T.Archived.knows (λ x. x.key) T.Archived.shape T.spelling (T.spells fit) (λ x. rc_slice_items x.value))))) };
}

impl<S: SharingExt, T: Serialize<S>> Serialize<S> for SharedWeak<RcSlice<T>> {
    fn serialize(&self, serializer: &mut S) -> Result<RcWeakResolver, Error> {
        ArchivedRcWeakSlice::serialize_from_ref(&self.shared, serializer)
    }
}

impl Archive for SharedWeak<RcStr> {
    type Archived = ArchivedRcWeakStr<RcFlavor>;

    type Resolver = RcWeakResolver;

    ghost spelling = { shared_weak_str_spelling };

    fn resolve(
        &self,
        resolver: RcWeakResolver,
        out: Place<'_, ArchivedRcWeakStr<RcFlavor>>,
    ) -> Result<(), Error>
        requires { CanResolveSharedWeakStr self.now resolver out }
        ensures { ResolvesSharedWeakStr self.now resolver out.entry out.exit result }
    {
        let Place {
            out,
            start,
            pos,
            ..
        } = out;
        ArchivedRcWeakStr::resolve_from_ref(&self.shared, resolver, Place::within(out, start, pos))
    }

    ghost spells = { λ fit. seen_spells fit (weak false str) (λ _. ⊤) (λ x. x.shared) _
        (kept_spells fit (weak false str) (λ _. ⊤) weak_resolver counted_resolver (elim [ None ↦ refl | Some r ↦ refl ]) _
        (weak_spells false str fit (λ _. ⊤) _
        (kept_spells fit (shared false str) (λ _. ⊤) _ _ (λ r. refl) _
        (seen_text_spells fit false (λ _. ⊤) (λ x. x.key) (λ x. rc_str_bytes x.value))))) };
}

impl<S: SharingExt> Serialize<S> for SharedWeak<RcStr> {
    fn serialize(&self, serializer: &mut S) -> Result<RcWeakResolver, Error> {
        ArchivedRcWeakStr::serialize_from_ref(&self.shared, serializer)
    }
}
