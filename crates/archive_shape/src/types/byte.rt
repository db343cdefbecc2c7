//! The archived form of `u8`, which is `u8` itself.
ghost use Rattle.std.specs.Prelude.{false, refl, ⊤, [], ◌∷◌};
ghost use Rattle.std.specs.Int.{w8};
ghost use Rattle.std.proofs.Common.{lit<, lit≤};
ghost use Rattle.archive_shape_layout.specs.Shape.Shape.{number};
ghost use Rattle.archive_shape_layout.specs.Value.Value.{natural};

use crate::types::{ArchivedLeaf, NoUndef, Portable, Shape, Width};
use std::alloc::{AllocError, Global};

impl NoUndef for u8 {}

impl Portable for u8 {
    ghost SIZE = { 1 };

    ghost ALIGN = { 1 };

    ghost shape = { number w8 false };

    ghost knows = { λ _. ⊤ };

    ghost named = { [] };

    const SIZE: usize = 1;

    const ALIGN: usize = 1;

    fn shape(_alloc: Global) -> Result<Shape, AllocError> {
        Ok(Shape::Number {
            width: Width::Bits8,
            signed: false,
        })
    }

    ghost sized = { refl };

    ghost aligned = { refl };

    ghost aligns = { (lit< tt, lit≤ tt) };

    ghost known = { λ _ _. tt };
}

impl ArchivedLeaf for u8 {
    type Native = u8;

    ghost bytes_of = { λ b. b ∷ [] };

    ghost value_of = { natural };

    ghost is_legal = { λ _. ⊤ };

    ghost is_leaf = { tt };

    ghost legal_by_shape = { λ own. (λ legal. legal, λ legal. legal) };

    ghost one_native = { λ a b e. Prim.cc };

    fn accepts(_own: &[u8]) -> bool {
        true
    }

    fn read(own: &[u8]) -> u8 {
        own[0]
    }

    fn store(native: u8, out: &mut [u8]) {
        out[0] = native;
    }
}
