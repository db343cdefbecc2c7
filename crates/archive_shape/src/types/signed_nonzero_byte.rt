//! The archived form of `NonZeroI8`, which is `NonZeroI8` itself.
ghost use Rattle.std.specs.Prelude.{◌<◌, true, refl, unsigned_abs, ⊤, []};
ghost use Rattle.std.specs.Int.{w8, to_le_bytes, from_le_bytes, cast_unsigned};
ghost use Rattle.std.specs.Int.NonZero.{non_zero_i8_get};
ghost use Rattle.std.proofs.Common.{lit<, lit≤};
ghost use Rattle.archive_shape_layout.specs.Shape.Shape.{nonzero};
ghost use Rattle.archive_shape_layout.specs.Value.Value.{integer};
ghost use Rattle.archive_shape_layout.proofs.Nonzero.{one_nonzero};

use crate::types::{ArchivedLeaf, NoUndef, Portable, Shape, Width};
use std::alloc::{AllocError, Global};
use std::num::NonZeroI8;

impl NoUndef for NonZeroI8 {}

impl Portable for NonZeroI8 {
    ghost SIZE = { 1 };

    ghost ALIGN = { 1 };

    ghost shape = { nonzero w8 true };

    ghost knows = { λ _. ⊤ };

    ghost named = { [] };

    const SIZE: usize = 1;

    const ALIGN: usize = 1;

    fn shape(_alloc: Global) -> Result<Shape, AllocError> {
        Ok(Shape::NonZero {
            width: Width::Bits8,
            signed: true,
        })
    }

    ghost sized = { refl };

    ghost aligned = { refl };

    ghost aligns = { (lit< tt, lit≤ tt) };

    ghost known = { λ _ _. tt };
}

impl ArchivedLeaf for NonZeroI8 {
    type Native = NonZeroI8;

    ghost bytes_of = { λ n. to_le_bytes w8 (cast_unsigned w8 (non_zero_i8_get n)) };

    ghost value_of = { λ n. integer (non_zero_i8_get n) };

    ghost is_legal = { λ own. 0 < from_le_bytes w8 own };

    ghost is_leaf = { tt };

    ghost legal_by_shape = { λ own. (λ legal. legal, λ legal. legal) };

    ghost one_native = { λ a b e. one_nonzero (unsigned_abs) (λ n p. record { value = n; ok = p }) a.value b.value a.ok b.ok (Prim.cc) };

    fn accepts(own: &[u8]) -> bool {
        i8::read(own) != 0
    }

    fn read(own: &[u8]) -> NonZeroI8 {
        NonZeroI8::new(i8::read(own)).unwrap()
    }

    fn store(native: NonZeroI8, out: &mut [u8]) {
        i8::store(native.get(), out);
    }
}
