//! `SliceRef` and `SliceSeal`, adjacent elements in a buffer.
ghost use Rattle.std.specs.Prelude.{◌≡◌, ℕ, ◌↔◌, IsTrue, length};
ghost use Rattle.archive_forms_values.specs.Parts.{HasElements};
ghost use Rattle.archive_forms_values.specs.Calls.Reading.{FindsPosition, FindsElement, SealsElement};

use archive_shape::{Portable, Ref, Seal};
use std::marker::PhantomData;

/// A reference to `len` adjacent elements from `pos` on, in a buffer that was checked.
#[derive_where(Clone, Copy)]
pub struct SliceRef<'a, T> {
    pub bytes: &'a [u8],
    pub pos: usize,
    pub len: usize,
    pub of: PhantomData<T>,
}

/// Returns the position of the element at `index`, or `None` if it is out of bounds.
pub(crate) fn element_at<T: Portable>(
    bytes: &[u8],
    pos: usize,
    len: usize,
    index: usize,
) -> Option<usize>
    requires { HasElements T.shape T.knows bytes.now pos len }
    ensures { FindsPosition T.shape pos len index result }
{
    let _len = bytes.len();
    let size = T::SIZE;
    if index < len {
        Some(pos + index * size)
    } else {
        None
    }
}

impl<'a, T> SliceRef<'a, T> {
    /// Returns the number of elements.
    pub fn len(self) -> usize
        ensures { result ≡ self.entry.len }
    {
        self.len
    }

    /// Returns `true` if there are no elements.
    pub fn is_empty(self) -> bool
        ensures { IsTrue result ↔ (self.entry.len ≡ 0) }
    {
        self.len == 0
    }
}

impl<'a, T: Portable> SliceRef<'a, T> {
    /// Returns the element at `index`, or `None` if it is out of bounds.
    pub fn get(self, index: usize) -> Option<Ref<'a, T>>
        requires { HasElements T.shape T.knows self.bytes.now self.pos self.len }
        ensures { FindsElement T.shape self.entry.bytes self.entry.pos self.entry.len index result }
    {
        match element_at::<T>(self.bytes, self.pos, self.len, index) {
            Some(at) => Some(Ref::new(self.bytes, at)),
            None => None,
        }
    }
}

/// A reference to `len` adjacent elements from `pos` on, which may be edited in place.
#[derive(Drop)]
pub struct SliceSeal<'a, T> {
    pub bytes: &'a mut [u8],
    pub pos: usize,
    pub len: usize,
    pub of: PhantomData<T>,
}

impl<'a, T: Portable> SliceSeal<'a, T> {
    /// Returns the element at `index`, which may be edited, or `None` if it is out of bounds. The contents of the
    /// buffer after the loan are not specified.
    pub fn get(self, index: usize) -> Option<Seal<'a, T>>
        requires { HasElements T.shape T.knows self.bytes.now self.pos self.len }
        ensures { SealsElement T.shape self.entry.bytes self.entry.pos self.entry.len index result }
    {
        let SliceSeal {
            bytes,
            pos,
            len,
            ..
        } = self;
        match element_at::<T>(bytes, pos, len, index) {
            Some(at) => Some(Seal::new(bytes, at)),
            None => None,
        }
    }
}
