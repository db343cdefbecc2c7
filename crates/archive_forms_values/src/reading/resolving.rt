//! The writing of boxes and vectors, once the position of their value or elements is known.
ghost use Rattle.std.specs.Prelude.{◌≡◌, ◌+◌, ◌≤◌, length};
ghost use Rattle.archive_forms_values.specs.Calls.Writing.{ResolvesBox, ResolvesElements};

use crate::reading::{ArchivedBox, ArchivedVec};
use archive_shape::{ArchivedIsize, LittleEndian, Place, Portable, RelPtr, Slice};
use archive_shape_layout::Error;

/// The position of the value that a box will point to.
#[derive(Clone, Copy, Debug, PartialEq, Eq)]
pub struct BoxResolver {
    pub pos: usize,
}

impl BoxResolver {
    /// Creates a resolver for a value at `pos`.
    pub const fn from_pos(pos: usize) -> Self
        ensures { result.pos ≡ pos }
    {
        BoxResolver { pos }
    }
}

impl<T: Portable> ArchivedBox<T> {
    /// Writes the box of the value at the resolver's position. Returns `IsizeOverflow` if the offset does not fit in an
    /// `i32`.
    pub fn resolve_from_raw_parts(
        resolver: BoxResolver,
        out: Place<'_, ArchivedBox<T>>,
    ) -> Result<(), Error>
        requires { out.start + 4 ≤ length out.out.now }
        ensures { ResolvesBox resolver.pos out.entry result out.exit.0.now }
    {
        let Place {
            out,
            start,
            pos,
            ..
        } = out;
        RelPtr::<T, ArchivedIsize>::try_emplace(resolver.pos, Place::within(out, start, pos))
    }
}

/// The position of the elements that a vector will point to.
#[derive(Clone, Copy, Debug, PartialEq, Eq)]
pub struct VecResolver {
    pub pos: usize,
}

impl VecResolver {
    /// Creates a resolver for elements at `pos`.
    pub const fn from_pos(pos: usize) -> Self
        ensures { result.pos ≡ pos }
    {
        VecResolver { pos }
    }
}

impl<T: Portable> ArchivedVec<T> {
    /// Writes the vector of `len` elements, which lie at the resolver's position.
    ///
    /// Returns `LengthTooLarge` if `len` is more than 2^32 - 1, and otherwise `IsizeOverflow` if the offset does not
    /// fit in an `i32`.
    pub fn resolve_from_len(
        len: usize,
        resolver: VecResolver,
        out: Place<'_, ArchivedVec<T>>,
    ) -> Result<(), Error>
        requires { out.start + 8 ≤ length out.out.now }
        ensures { ResolvesElements resolver.pos len out.entry result out.exit.0.now }
    {
        let Place {
            out,
            start,
            pos,
            ..
        } = out;
        let Ok(count) = u32::try_from(len) else {
            return Err(Error::LengthTooLarge);
        };
        RelPtr::<Slice<T>, ArchivedIsize>::try_emplace_unsized(
            resolver.pos,
            LittleEndian::from_native(count),
            Place::within(out, start, pos),
        )?;
        Ok(())
    }
}
