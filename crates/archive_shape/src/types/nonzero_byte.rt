//! The archived form of `NonZeroU8`, which is `NonZeroU8` itself.
ghost use Rattle.std.specs.Prelude.{◌<◌, false, refl, ⊤, [], ◌∷◌};
ghost use Rattle.std.specs.Int.{w8, from_le_bytes};
ghost use Rattle.std.specs.Int.NonZero.{non_zero_u8_get};
ghost use Rattle.std.proofs.Common.{lit<, lit≤};
ghost use Rattle.archive_shape_layout.specs.Shape.Shape.{nonzero};
ghost use Rattle.archive_shape_layout.specs.Value.Value.{natural};
ghost use Rattle.archive_shape_layout.proofs.Nonzero.{one_nonzero};

use crate::types::{ArchivedLeaf, NoUndef, Portable, Shape, Width};
use std::alloc::{AllocError, Global};
use std::num::NonZeroU8;

impl NoUndef for NonZeroU8 {}

impl Portable for NonZeroU8 {
    ghost SIZE = { 1 };

    ghost ALIGN = { 1 };

    ghost shape = { nonzero w8 false };

    ghost knows = { λ _. ⊤ };

    ghost named = { [] };

    const SIZE: usize = 1;

    const ALIGN: usize = 1;

    fn shape(_alloc: Global) -> Result<Shape, AllocError> {
        Ok(Shape::NonZero {
            width: Width::Bits8,
            signed: false,
        })
    }

    ghost sized = { refl };

    ghost aligned = { refl };

    ghost aligns = { (lit< tt, lit≤ tt) };

    ghost known = { λ _ _. tt };
}

impl ArchivedLeaf for NonZeroU8 {
    type Native = NonZeroU8;

    ghost bytes_of = { λ n. non_zero_u8_get n ∷ [] };

    ghost value_of = { λ n. natural (non_zero_u8_get n) };

    ghost is_legal = { λ own. 0 < from_le_bytes w8 own };

    ghost is_leaf = { tt };

    ghost legal_by_shape = { λ own. (λ legal. legal, λ legal. legal) };

    ghost one_native = { λ a b e. one_nonzero (λ n. n) (λ n p. record { value = n; ok = p }) a.value b.value a.ok b.ok (Prim.cc) };

    fn accepts(own: &[u8]) -> bool {
        u8::read(own) != 0
    }

    fn read(own: &[u8]) -> NonZeroU8 {
        NonZeroU8::new(u8::read(own)).unwrap()
    }

    fn store(native: NonZeroU8, out: &mut [u8]) {
        u8::store(native.get(), out);
    }
}
