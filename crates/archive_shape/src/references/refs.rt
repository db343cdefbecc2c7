//! Shared references to values in a buffer.
ghost use Rattle.std.specs.Prelude.{◌≡◌, ◌+◌, ◌≤◌, length};
ghost use Rattle.archive_shape_layout.specs.Bytes.{window};
ghost use Rattle.archive_shape_layout.specs.Numbers.{Reads};

use crate::types::ArchivedLeaf;
use std::marker::PhantomData;

/// A shared reference to a value in a buffer that was checked.
#[derive_where(Clone, Copy)]
pub struct Ref<'a, T> {
    pub bytes: &'a [u8],
    pub pos: usize,
    pub of: PhantomData<T>,
}

impl<'a, T> Ref<'a, T> {
    /// Creates a reference to the value at `pos`.
    pub const fn new(bytes: &'a [u8], pos: usize) -> Self
        ensures bytes { result.bytes ≡ bytes.entry }
        ensures pos { result.pos ≡ pos }
    {
        Ref {
            bytes,
            pos,
            of: PhantomData,
        }
    }

    /// Returns the position of the value's own bytes.
    pub const fn pos(self) -> usize
        ensures { result ≡ self.entry.pos }
    {
        self.pos
    }

    /// Returns the whole buffer.
    pub const fn bytes(self) -> &'a [u8]
        ensures { result ≡ self.entry.bytes }
    {
        self.bytes
    }
}

impl<'a, T: ArchivedLeaf> Ref<'a, T> {
    /// Returns the native value that the own bytes represent.
    pub fn to_native(self) -> T::Native
        requires room { self.pos + T.SIZE ≤ length self.bytes.now }
        requires legal { T.is_legal (window self.bytes.now self.pos T.SIZE) }
        ensures bytes { T.bytes_of result ≡ window self.entry.bytes.now self.entry.pos T.SIZE }
        ensures value { Reads T.shape (window self.entry.bytes.now self.entry.pos T.SIZE) (T.value_of result) }
    {
        let end = self.pos + T::SIZE;
        T::read(&self.bytes[self.pos..end])
    }
}
