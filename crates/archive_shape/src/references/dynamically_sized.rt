//! Marker types for values of no fixed size, which only pointers lead to.

use std::marker::PhantomData;

/// A marker for a slice, which is any number of contiguous elements of type `T`.
#[derive_where(Clone, Copy)]
pub struct Slice<T> {
    pub of: PhantomData<T>,
}

/// A marker for the bytes of a text out of line.
#[derive(Clone, Copy, Debug, PartialEq, Eq)]
pub struct Str;
