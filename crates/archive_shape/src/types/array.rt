//! The layout of arrays, whose elements are contiguous.
ghost use Rattle.std.specs.Prelude.{◌≡◌, ℕ, ◌-◌, ◌*◌, ◌^◌, min};
ghost use Rattle.std.proofs.Common.{refl};
ghost use Rattle.archive_shape_layout.specs.Shape.{size_of};
ghost use Rattle.archive_shape_layout.specs.Shape.Shape.{array};

use crate::types::{NoUndef, Portable, Shape};
use std::alloc::{AllocError, Global};

/// Returns the number of bytes of `len` contiguous elements of `size` bytes each. It saturates at `usize::MAX`.
const fn elements_size(len: usize, size: usize) -> usize
    ensures { result ≡ min (len * size) (2 ^ 64 - 1) }
{
    len.saturating_mul(size)
}

impl<T: NoUndef, const N: usize> NoUndef for [T; N] {}

impl<T: Portable, const N: usize> Portable for [T; N] {
    ghost SIZE = { min (size_of (array N T.shape)) (2 ^ 64 - 1) };

    ghost ALIGN = { T.ALIGN };

    ghost shape = { array N T.shape };

    ghost knows = { T.knows };

    ghost named = { T.named };

    const SIZE: usize = elements_size(N, T::SIZE);

    const ALIGN: usize = T::ALIGN;

    fn shape(alloc: Global) -> Result<Shape, AllocError> {
        let element = Box::new(alloc, T::shape(alloc)?)?;
        Ok(Shape::Array {
            length: N as u64,
            element,
        })
    }

    ghost sized = { refl };

    ghost aligned = { T.aligned };

    ghost aligns = { T.aligns };

    ghost known = { T.known };
}
