//! The writing of boxes of slices and of texts, once the position of their elements or bytes is known.
ghost use Rattle.std.specs.Prelude.{◌+◌, ◌≤◌, length};
ghost use Rattle.archive_forms_values.specs.Calls.Writing.{ResolvesElements};

use crate::boxed::{ArchivedBoxedSlice, ArchivedBoxedStr};
use crate::reading::{ArchivedVec, BoxResolver, VecResolver};
use archive_shape::{Place, Portable};
use archive_shape_layout::Error;

impl<T: Portable> ArchivedBoxedSlice<T> {
    /// Writes the box of `len` elements, which lie at the resolver's position.
    ///
    /// Returns `LengthTooLarge` if `len` is more than 2^32 - 1, and otherwise `IsizeOverflow` if the offset does not
    /// fit in an `i32`.
    pub fn resolve_from_raw_parts(
        resolver: BoxResolver,
        len: usize,
        out: Place<'_, ArchivedBoxedSlice<T>>,
    ) -> Result<(), Error>
        requires { out.start + 8 ≤ length out.out.now }
        ensures { ResolvesElements resolver.pos len out.entry result out.exit.0.now }
    {
        let Place {
            out,
            start,
            pos,
            ..
        } = out;
        ArchivedVec::<T>::resolve_from_len(
            len,
            VecResolver { pos: resolver.pos },
            Place::within(out, start, pos),
        )
    }
}

impl ArchivedBoxedStr {
    /// Writes the box of a text of `len` bytes, which lie at the resolver's position.
    ///
    /// Returns `LengthTooLarge` if `len` is more than 2^32 - 1, and otherwise `IsizeOverflow` if the offset does not
    /// fit in an `i32`.
    pub fn resolve_from_raw_parts(
        resolver: BoxResolver,
        len: usize,
        out: Place<'_, ArchivedBoxedStr>,
    ) -> Result<(), Error>
        requires { out.start + 8 ≤ length out.out.now }
        ensures { ResolvesElements resolver.pos len out.entry result out.exit.0.now }
    {
        let Place {
            out,
            start,
            pos,
            ..
        } = out;
        ArchivedBoxedSlice::<u8>::resolve_from_raw_parts(
            resolver,
            len,
            Place::within(out, start, pos),
        )
    }
}
