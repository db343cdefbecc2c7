//! The size and the alignment of what a pointer leads to.
ghost use Rattle.archive_shape.specs.Calls.{IsLayoutOf};

use crate::references::{ArchivePointee, Slice, Str};
use crate::types::Portable;

/// A type that a pointer may lead to, whose size follows from the number of elements.
pub trait LayoutRaw: ArchivePointee {
    /// Returns the size and the alignment in bytes of `len` elements, or of the one value of a sized type. Returns
    /// `None` where the size is above `usize::MAX`.
    fn layout_raw(len: usize) -> Option<(usize, usize)>
        ensures { IsLayoutOf Self.pointee len result };
}

impl<T: Portable> LayoutRaw for T {
    fn layout_raw(_len: usize) -> Option<(usize, usize)> {
        Some((T::SIZE, T::ALIGN))
    }
}

impl<T: Portable> LayoutRaw for Slice<T> {
    fn layout_raw(len: usize) -> Option<(usize, usize)> {
        match len.checked_mul(T::SIZE) {
            Some(size) => Some((size, T::ALIGN)),
            None => None,
        }
    }
}

impl LayoutRaw for Str {
    fn layout_raw(len: usize) -> Option<(usize, usize)> {
        Some((len, 1))
    }
}
