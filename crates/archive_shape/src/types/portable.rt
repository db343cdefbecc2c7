//! The trait of types of archived values, which have a layout.
ghost use Rattle.std.specs.Prelude.{◌≡◌, ℕ, ◌-◌, ◌^◌, ◌<◌, ◌≤◌, min, IfOk, ⊤, []};
ghost use Rattle.std.proofs.Common.{arith};
ghost use Rattle.archive_shape_layout.specs.Shape.{Shape as Layout, size_of, align_of};
ghost use Rattle.archive_shape_layout.specs.Content.{Names};
ghost use Rattle.archive_shape_layout.specs.RuntimeShape.{layout_of};
ghost use Rattle.archive_shape_layout.specs.Naming.{HasTypes};

use crate::numbers::Native;
use crate::types::{LittleEndian, Shape};
use std::alloc::{AllocError, Global};

/// A type of archived values, with its layout. Sizes saturate at `usize::MAX`, which no buffer has.
pub trait Portable {
    ghost SIZE: { ℕ };

    ghost ALIGN: { ℕ };

    ghost shape: { Layout };

    /// The lists of named types that the layout is read under. A type that holds itself requires that the list has its
    /// shape under its name.
    ghost knows: { Names → Type 0 };

    /// The types that this type is made of and that hold themselves, each with its shape under its name. A composed
    /// type has the lists of its parts, one after the other.
    ghost named: { Names };

    /// The number of own bytes of a value.
    const SIZE: usize;

    /// The alignment in bytes: the position of a value is a multiple of it.
    const ALIGN: usize;

    /// Returns the layout of the type, or an error when an allocation fails.
    fn shape(alloc: Global) -> Result<Shape, AllocError>
        ensures { IfOk result (λ s. layout_of s ≡ shape) };

    ghost sized: { SIZE ≡ min (size_of shape) (2 ^ 64 - 1) };

    ghost aligned: { ALIGN ≡ align_of shape };

    ghost aligns: { (0 < ALIGN) × (ALIGN ≤ 32) };

    /// The layout is read under every list that has these types. So there is such a list where each name denotes one
    /// shape: `named` itself.
    ghost known: { (names : Names) → HasTypes names named → knows names };
}

/// A type whose values have no undefined bytes, that is, no bytes that the value leaves open.
pub trait NoUndef {}

impl<N: Native> NoUndef for LittleEndian<N> {}

impl<N: Native> Portable for LittleEndian<N> {
    ghost SIZE = { N.WIDTH };

    ghost ALIGN = { N.WIDTH };

    ghost shape = { N.shape };

    ghost knows = { λ _. ⊤ };

    ghost named = { [] };

    const SIZE: usize = N::WIDTH;

    const ALIGN: usize = N::WIDTH;

    fn shape(_alloc: Global) -> Result<Shape, AllocError> {
        Ok(N::shape())
    }

    ghost sized = { Prim.omega (arith, N.sized, N.aligns.1) };

    ghost aligned = { N.aligned };

    ghost aligns = { N.aligns };

    ghost known = { λ _ _. tt };
}
