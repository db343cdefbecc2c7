//! Mutable references to values in a buffer.
ghost use Rattle.std.specs.Prelude.{◌≡◌, ◌+◌, ◌≤◌, length};
ghost use Rattle.archive_shape.specs.Bytes.{overwrite};
ghost use Rattle.archive_shape_layout.specs.Numbers.{Reads};

use crate::references::Ref;
use crate::types::ArchivedLeaf;
use std::marker::PhantomData;

/// A mutable reference to a value in a buffer.
#[derive(Drop)]
pub struct Seal<'a, T> {
    pub bytes: &'a mut [u8],
    pub pos: usize,
    pub of: PhantomData<T>,
}

impl<'a, T> Seal<'a, T> {
    /// Creates the seal of the value at `pos`.
    pub fn new(bytes: &'a mut [u8], pos: usize) -> Self
        ensures same_reference { result.bytes.ghost_name ≡ bytes.entry.ghost_name }
        ensures bytes { result.bytes.now ≡ bytes.old }
        ensures pos { result.pos ≡ pos }
    {
        Seal {
            bytes,
            pos,
            of: PhantomData,
        }
    }

    /// Returns the position of the value's own bytes.
    pub fn pos(&self) -> usize
        ensures { result ≡ self.now.pos }
    {
        self.pos
    }

    /// Returns a shared reference to the value.
    pub fn as_ref(&self) -> Ref<'_, T>
        ensures bytes { result.bytes.now ≡ self.now.bytes.now }
        ensures pos { result.pos ≡ self.now.pos }
    {
        Ref::new(self.bytes, self.pos)
    }

    /// Reborrows the value for a shorter lifetime. A caller that has to know the buffer after the borrow creates a seal
    /// by `new` instead.
    pub fn reborrow(&mut self) -> Seal<'_, T>
        ensures bytes { result.bytes.now ≡ self.old.bytes.now }
        ensures pos { result.pos ≡ self.old.pos }
    {
        let pos = self.pos;
        Seal::new(&mut *self.bytes, pos)
    }
}

impl<'a, T: ArchivedLeaf> Seal<'a, T> {
    /// Writes the value, and consumes the seal.
    pub fn write(self, native: T::Native)
        requires { self.pos + T.SIZE ≤ length self.bytes.now }
        ensures contents { self.exit.0.now ≡ overwrite self.entry.bytes.now self.entry.pos (T.bytes_of native) }
        ensures value { Reads T.shape (T.bytes_of native) (T.value_of native) }
    {
        let Seal { bytes, pos, .. } = self;
        let end = pos + T::SIZE;
        T::store(native, &mut bytes[pos..end]);
    }

    /// Writes the value. The seal can be used again.
    pub fn put(&mut self, native: T::Native)
        requires { self.old.pos + T.SIZE ≤ length self.old.bytes.now }
        ensures same_reference { self.new.bytes.ghost_name ≡ self.old.bytes.ghost_name }
        ensures pos { self.new.pos ≡ self.old.pos }
        ensures contents { self.new.bytes.now ≡ overwrite self.old.bytes.now self.old.pos (T.bytes_of native) }
        ensures value { Reads T.shape (T.bytes_of native) (T.value_of native) }
    {
        let pos = self.pos;
        let end = pos + T::SIZE;
        T::store(native, &mut self.bytes[pos..end]);
    }
}
