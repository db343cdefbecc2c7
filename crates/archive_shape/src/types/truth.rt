//! The archived form of `bool`, which is `bool` itself.
ghost use Rattle.std.specs.Prelude.{◌<◌, slice_index, refl, ⊤, []};
ghost use Rattle.std.proofs.Common.{lit<, lit≤};
ghost use Rattle.archive_shape_layout.specs.Shape.Shape.{truth};
ghost use Rattle.archive_shape_layout.specs.Value.Value.{boolean};
ghost use Rattle.archive_shape_layout.specs.Numbers.{truth_bytes};

use crate::types::{ArchivedLeaf, NoUndef, Portable, Shape};
use std::alloc::{AllocError, Global};

impl NoUndef for bool {}

impl Portable for bool {
    ghost SIZE = { 1 };

    ghost ALIGN = { 1 };

    ghost shape = { truth };

    ghost knows = { λ _. ⊤ };

    ghost named = { [] };

    const SIZE: usize = 1;

    const ALIGN: usize = 1;

    fn shape(_alloc: Global) -> Result<Shape, AllocError> {
        Ok(Shape::Truth)
    }

    ghost sized = { refl };

    ghost aligned = { refl };

    ghost aligns = { (lit< tt, lit≤ tt) };

    ghost known = { λ _ _. tt };
}

impl ArchivedLeaf for bool {
    type Native = bool;

    ghost bytes_of = { truth_bytes };

    ghost value_of = { boolean };

    ghost is_legal = { λ own. slice_index own 0 < 2 };

    ghost is_leaf = { tt };

    ghost legal_by_shape = { λ own. (λ legal. legal, λ legal. legal) };

    ghost one_native = { λ a b e. Prim.cc };

    fn accepts(own: &[u8]) -> bool {
        own[0] < 2
    }

    fn read(own: &[u8]) -> bool {
        own[0] == 1
    }

    fn store(native: bool, out: &mut [u8]) {
        out[0] = if native { 1 } else { 0 };
    }
}
