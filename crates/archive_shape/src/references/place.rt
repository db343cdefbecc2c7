//! The places that values are written to.
ghost use Rattle.std.specs.Prelude.{◌≡◌, ◌+◌, ◌*◌, ◌<◌, ◌≤◌, ◌^◌, length};
ghost use Rattle.archive_shape.specs.Bytes.{overwrite};
ghost use Rattle.archive_shape_layout.specs.Numbers.{Reads};

use crate::types::{ArchivedLeaf, Portable};
use std::marker::PhantomData;

/// The place of a value that is to be written. Its own bytes begin at `start` of `out`, and will lie at `pos` of the
/// archive.
#[derive(Drop)]
pub struct Place<'a, T> {
    pub out: &'a mut [u8],
    pub start: usize,
    pub pos: usize,
    pub of: PhantomData<T>,
}

impl<'a, T> Place<'a, T> {
    /// Creates the place of a value whose own bytes begin at the start of `out`.
    pub fn new(out: &'a mut [u8], pos: usize) -> Self
        ensures same_reference { result.out.ghost_name ≡ out.entry.ghost_name }
        ensures bytes { result.out.now ≡ out.old }
        ensures start { result.start ≡ 0 }
        ensures pos { result.pos ≡ pos }
    {
        Place::within(out, 0, pos)
    }

    /// Creates the place of a value whose own bytes begin at `start` of `out`.
    pub fn within(out: &'a mut [u8], start: usize, pos: usize) -> Self
        ensures same_reference { result.out.ghost_name ≡ out.entry.ghost_name }
        ensures bytes { result.out.now ≡ out.old }
        ensures start { result.start ≡ start }
        ensures pos { result.pos ≡ pos }
    {
        Place {
            out,
            start,
            pos,
            of: PhantomData,
        }
    }

    /// Returns the position that the value's own bytes will have in the archive.
    pub fn pos(&self) -> usize
        ensures { result ≡ self.now.pos }
    {
        self.pos
    }

    /// Returns the place of the field of type `U` that begins `offset` bytes after the start of the value. A caller
    /// that has to ensure the final contents of `out` creates the field's place by `within` instead.
    pub fn field<U>(self, offset: usize) -> Place<'a, U>
        requires within { self.start + offset < 2 ^ 64 }
        requires stands { self.pos + offset < 2 ^ 64 }
        ensures same_reference { result.out.ghost_name ≡ self.entry.out.ghost_name }
        ensures bytes { result.out.now ≡ self.entry.out.now }
        ensures start { result.start ≡ self.entry.start + offset }
        ensures pos { result.pos ≡ self.entry.pos + offset }
    {
        let Place {
            out,
            start,
            pos,
            ..
        } = self;
        Place::within(out, start + offset, pos + offset)
    }
}

impl<'a, T: Portable, const N: usize> Place<'a, [T; N]> {
    /// Returns the place of the element at `index`.
    pub fn index(self, index: usize) -> Place<'a, T>
        requires in_bounds { index < N }
        requires within { self.start + index * T.SIZE < 2 ^ 64 }
        requires stands { self.pos + index * T.SIZE < 2 ^ 64 }
        ensures same_reference { result.out.ghost_name ≡ self.entry.out.ghost_name }
        ensures bytes { result.out.now ≡ self.entry.out.now }
        ensures start { result.start ≡ self.entry.start + index * T.SIZE }
        ensures pos { result.pos ≡ self.entry.pos + index * T.SIZE }
    {
        self.field(index * T::SIZE)
    }
}

impl<'a, T: ArchivedLeaf> Place<'a, T> {
    /// Writes the value, and consumes the place.
    pub fn write(self, native: T::Native)
        requires { self.start + T.SIZE ≤ length self.out.now }
        ensures contents { self.exit.0.now ≡ overwrite self.entry.out.now self.entry.start (T.bytes_of native) }
        ensures value { Reads T.shape (T.bytes_of native) (T.value_of native) }
    {
        let Place { out, start, .. } = self;
        let end = start + T::SIZE;
        T::store(native, &mut out[start..end]);
    }
}
