//! The writing of counted pointers, once the position of what they lead to is known.
ghost use Rattle.std.specs.Prelude.{◌≡◌, ◌+◌, ◌≤◌, length};
ghost use Rattle.archive_forms_rc.specs.WeakResolvers.{weak_resolver, counted_resolver};
ghost use Rattle.archive_forms_values.specs.Calls.Writing.{ResolvesBox, ResolvesElements};

use crate::{ArchivedRc, ArchivedRcSlice, ArchivedRcStr};
use archive_forms_values::{ArchivedBox, ArchivedBoxedSlice, ArchivedBoxedStr, BoxResolver};
use archive_shape::{Place, Portable};
use archive_shape_layout::Error;

/// The position of what a counted pointer will lead to.
#[derive(Clone, Copy, Debug, PartialEq, Eq)]
pub struct RcResolver {
    pub pos: usize,
}

impl RcResolver {
    /// Creates a resolver for a value at `pos`.
    pub const fn from_pos(pos: usize) -> Self
        ensures { result.pos ≡ pos }
    {
        RcResolver { pos }
    }
}

/// The position of what a weak pointer will lead to, or `None` if it leads to nothing.
#[derive(Clone, Copy, Debug, PartialEq, Eq)]
pub enum RcWeakResolver {
    None,
    Some(RcResolver),
}

impl RcWeakResolver {
    /// Creates a resolver of an optional one of the counted pointer.
    pub(crate) fn from_option(resolver: Option<RcResolver>) -> Self
        ensures { result ≡ weak_resolver resolver }
    {
        match resolver {
            None => RcWeakResolver::None,
            Some(resolver) => RcWeakResolver::Some(resolver),
        }
    }

    /// Returns the resolver of the counted pointer, if there is one.
    pub(crate) fn into_option(self) -> Option<RcResolver>
        ensures { result ≡ counted_resolver self }
    {
        match self {
            RcWeakResolver::None => None,
            RcWeakResolver::Some(resolver) => Some(resolver),
        }
    }
}

impl<T: Portable, L> ArchivedRc<T, L> {
    /// Writes the pointer to the value at the resolver's position. Returns `IsizeOverflow` if the offset does not fit
    /// in an `i32`.
    pub fn resolve_from_raw_parts(
        resolver: RcResolver,
        out: Place<'_, ArchivedRc<T, L>>,
    ) -> Result<(), Error>
        requires { out.start + 4 ≤ length out.out.now }
        ensures { ResolvesBox resolver.pos out.entry result out.exit.0.now }
    {
        let Place {
            out,
            start,
            pos,
            ..
        } = out;
        let resolver = BoxResolver { pos: resolver.pos };
        ArchivedBox::<T>::resolve_from_raw_parts(resolver, Place::within(out, start, pos))
    }
}

impl<T: Portable, L> ArchivedRcSlice<T, L> {
    /// Writes the pointer to `len` elements, which lie at the resolver's position.
    ///
    /// Returns `LengthTooLarge` if `len` is more than 2^32 - 1, and otherwise `IsizeOverflow` if the offset does not
    /// fit in an `i32`.
    pub fn resolve_from_raw_parts(
        resolver: RcResolver,
        len: usize,
        out: Place<'_, ArchivedRcSlice<T, L>>,
    ) -> Result<(), Error>
        requires { out.start + 8 ≤ length out.out.now }
        ensures { ResolvesElements resolver.pos len out.entry result out.exit.0.now }
    {
        let Place {
            out,
            start,
            pos,
            ..
        } = out;
        let resolver = BoxResolver { pos: resolver.pos };
        ArchivedBoxedSlice::<T>::resolve_from_raw_parts(
            resolver,
            len,
            Place::within(out, start, pos),
        )
    }
}

impl<L> ArchivedRcStr<L> {
    /// Writes the pointer to a text of `len` bytes, which lie at the resolver's position.
    ///
    /// Returns `LengthTooLarge` if `len` is more than 2^32 - 1, and otherwise `IsizeOverflow` if the offset does not
    /// fit in an `i32`.
    pub fn resolve_from_raw_parts(
        resolver: RcResolver,
        len: usize,
        out: Place<'_, ArchivedRcStr<L>>,
    ) -> Result<(), Error>
        requires { out.start + 8 ≤ length out.out.now }
        ensures { ResolvesElements resolver.pos len out.entry result out.exit.0.now }
    {
        let Place {
            out,
            start,
            pos,
            ..
        } = out;
        let resolver = BoxResolver { pos: resolver.pos };
        ArchivedBoxedStr::resolve_from_raw_parts(resolver, len, Place::within(out, start, pos))
    }
}
