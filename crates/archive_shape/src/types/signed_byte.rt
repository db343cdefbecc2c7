//! The archived form of `i8`, which is `i8` itself.
ghost use Rattle.std.specs.Prelude.{true, refl, ⊤, []};
ghost use Rattle.std.specs.Int.{w8, to_le_bytes, cast_unsigned};
ghost use Rattle.std.proofs.Common.{lit<, lit≤};
ghost use Rattle.archive_shape_layout.specs.Shape.Shape.{number};
ghost use Rattle.archive_shape_layout.specs.Value.Value.{integer};

use crate::types::{ArchivedLeaf, NoUndef, Portable, Shape, Width};
use std::alloc::{AllocError, Global};

impl NoUndef for i8 {}

impl Portable for i8 {
    ghost SIZE = { 1 };

    ghost ALIGN = { 1 };

    ghost shape = { number w8 true };

    ghost knows = { λ _. ⊤ };

    ghost named = { [] };

    const SIZE: usize = 1;

    const ALIGN: usize = 1;

    fn shape(_alloc: Global) -> Result<Shape, AllocError> {
        Ok(Shape::Number {
            width: Width::Bits8,
            signed: true,
        })
    }

    ghost sized = { refl };

    ghost aligned = { refl };

    ghost aligns = { (lit< tt, lit≤ tt) };

    ghost known = { λ _ _. tt };
}

impl ArchivedLeaf for i8 {
    type Native = i8;

    ghost bytes_of = { λ n. to_le_bytes w8 (cast_unsigned w8 n) };

    ghost value_of = { integer };

    ghost is_legal = { λ _. ⊤ };

    ghost is_leaf = { tt };

    ghost legal_by_shape = { λ own. (λ legal. legal, λ legal. legal) };

    ghost one_native = { λ a b e. Prim.cc };

    fn accepts(_own: &[u8]) -> bool {
        true
    }

    fn read(own: &[u8]) -> i8 {
        i8::from_le_bytes([own[0]])
    }

    fn store(native: i8, out: &mut [u8]) {
        out.copy_from_slice(&i8::to_le_bytes(native));
    }
}
