//! Mutable references to a value that have access to its own bytes only.
ghost use Rattle.std.specs.Prelude.{◌≡◌, length};
ghost use Rattle.archive_shape_layout.specs.Numbers.{Reads};

use crate::references::{Ref, Str};
use crate::types::ArchivedLeaf;
use std::marker::PhantomData;

/// A mutable reference to a value, which has access to its own bytes only. They lie at `pos` of the archive.
#[derive(Drop)]
pub struct OwnSeal<'a, T> {
    pub own: &'a mut [u8],
    pub pos: usize,
    pub of: PhantomData<T>,
}

impl<'a, T> OwnSeal<'a, T> {
    /// Creates the seal of the value whose own bytes are `own`.
    pub fn new(own: &'a mut [u8], pos: usize) -> Self
        ensures same_reference { result.own.ghost_name ≡ own.entry.ghost_name }
        ensures bytes { result.own.now ≡ own.old }
        ensures pos { result.pos ≡ pos }
    {
        OwnSeal {
            own,
            pos,
            of: PhantomData,
        }
    }

    /// Returns the position of the value's own bytes in the archive.
    pub fn pos(&self) -> usize
        ensures { result ≡ self.now.pos }
    {
        self.pos
    }

    /// Returns a shared reference to the value, with its own bytes as the whole buffer.
    pub fn as_ref(&self) -> Ref<'_, T>
        ensures bytes { result.bytes.now ≡ self.now.own.now }
        ensures pos { result.pos ≡ 0 }
    {
        Ref::new(self.own, 0)
    }

    /// Reborrows the value for a shorter lifetime. A caller that has to know the bytes after the borrow creates a seal
    /// by `new` instead.
    pub fn reborrow(&mut self) -> OwnSeal<'_, T>
        ensures bytes { result.own.now ≡ self.old.own.now }
        ensures pos { result.pos ≡ self.old.pos }
    {
        let pos = self.pos;
        OwnSeal::new(&mut *self.own, pos)
    }
}

impl<'a, T: ArchivedLeaf> OwnSeal<'a, T> {
    /// Writes the value, and consumes the seal.
    pub fn write(self, native: T::Native)
        requires { length self.own.now ≡ T.SIZE }
        ensures contents { self.exit.0.now ≡ T.bytes_of native }
        ensures value { Reads T.shape (T.bytes_of native) (T.value_of native) }
    {
        let OwnSeal { own, .. } = self;
        T::store(native, own);
    }

    /// Writes the value. The seal can be used again.
    pub fn put(&mut self, native: T::Native)
        requires { length self.old.own.now ≡ T.SIZE }
        ensures same_reference { self.new.own.ghost_name ≡ self.old.own.ghost_name }
        ensures pos { self.new.pos ≡ self.old.pos }
        ensures contents { self.new.own.now ≡ T.bytes_of native }
        ensures value { Reads T.shape (T.bytes_of native) (T.value_of native) }
    {
        T::store(native, self.own);
    }
}

impl<'a> OwnSeal<'a, Str> {
    /// Writes a text of the same length over the present one, and consumes the seal.
    pub fn write_text(self, text: &str)
        requires { length self.own.now ≡ length text.now }
        ensures { self.exit.0.now ≡ text.now }
    {
        let OwnSeal { own, .. } = self;
        own.copy_from_slice(text.as_bytes());
    }

    /// Writes a text of the same length over the present one. The seal can be used again.
    pub fn put_text(&mut self, text: &str)
        requires { length self.old.own.now ≡ length text.now }
        ensures same_reference { self.new.own.ghost_name ≡ self.old.own.ghost_name }
        ensures pos { self.new.pos ≡ self.old.pos }
        ensures contents { self.new.own.now ≡ text.now }
    {
        self.own.copy_from_slice(text.as_bytes());
    }
}
