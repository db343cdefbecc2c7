//! The layout of `PhantomData`, whose values have no bytes.
ghost use Rattle.std.specs.Prelude.{refl, ⊤, []};
ghost use Rattle.std.proofs.Common.{lit<, lit≤};
ghost use Rattle.archive_shape_layout.specs.Shape.Shape.{tuple};
ghost use Rattle.archive_shape_layout.specs.Shape.Shapes.{no_shapes};
ghost use Rattle.archive_shape_layout.proofs.Sizes.{unit_sized};

use crate::types::{NoUndef, Portable, Shape, Shapes};
use std::alloc::{AllocError, Global};
use std::marker::PhantomData;

impl<T> NoUndef for PhantomData<T> {}

impl<T> Portable for PhantomData<T> {
    ghost SIZE = { 0 };

    ghost ALIGN = { 1 };

    ghost shape = { tuple no_shapes };

    ghost knows = { λ _. ⊤ };

    ghost named = { [] };

    const SIZE: usize = 0;

    const ALIGN: usize = 1;

    fn shape(_alloc: Global) -> Result<Shape, AllocError> {
        Ok(Shape::Tuple(Shapes::Empty))
    }

    ghost sized = { unit_sized };

    ghost aligned = { refl };

    ghost aligns = { (lit< tt, lit≤ tt) };

    ghost known = { λ _ _. tt };
}
