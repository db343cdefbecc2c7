//! `NonZeroI16`, `NonZeroI32`, `NonZeroI64` and `NonZeroI128` as native types.
ghost use Rattle.std.specs.Prelude.{◌<◌, true, refl, unsigned_abs};
ghost use Rattle.std.specs.Int.{w16, w32, w64, w128, to_le_bytes, from_le_bytes, cast_unsigned};
ghost use Rattle.std.specs.Int.NonZero.{non_zero_i16_get, non_zero_i32_get, non_zero_i64_get, non_zero_i128_get};
ghost use Rattle.std.proofs.Common.{lit<, lit≤};
ghost use Rattle.archive_shape_layout.specs.Shape.Shape.{nonzero};
ghost use Rattle.archive_shape_layout.specs.Value.Value.{integer};
ghost use Rattle.archive_shape_layout.proofs.Nonzero.{one_nonzero};

use crate::numbers::Native;
use archive_shape_layout::{Shape, Width};
use std::num::{NonZeroI16, NonZeroI32, NonZeroI64, NonZeroI128};

impl Native for NonZeroI16 {
    ghost WIDTH = { 2 };

    ghost shape = { nonzero w16 true };

    ghost bytes_of = { λ n. to_le_bytes w16 (cast_unsigned w16 (non_zero_i16_get n)) };

    ghost value_of = { λ n. integer (non_zero_i16_get n) };

    ghost is_legal = { λ bytes. 0 < from_le_bytes w16 bytes };

    ghost sized = { refl };

    ghost aligned = { refl };

    ghost aligns = { (lit< tt, lit≤ tt) };

    ghost is_leaf = { tt };

    ghost legal_by_shape = { λ own. (λ legal. legal, λ legal. legal) };

    ghost one_number = { λ a b e. one_nonzero (unsigned_abs) (λ n p. record { value = n; ok = p }) a.value b.value a.ok b.ok (Prim.cc) };

    const WIDTH: usize = 2;

    fn shape() -> Shape {
        Shape::NonZero {
            width: Width::Bits16,
            signed: true,
        }
    }

    fn accepts(bytes: &[u8]) -> bool {
        i16::read(bytes) != 0
    }

    fn read(bytes: &[u8]) -> NonZeroI16 {
        NonZeroI16::new(i16::read(bytes)).unwrap()
    }

    fn store(self, out: &mut [u8]) {
        NonZeroI16::get(self).store(out);
    }
}

impl Native for NonZeroI32 {
    ghost WIDTH = { 4 };

    ghost shape = { nonzero w32 true };

    ghost bytes_of = { λ n. to_le_bytes w32 (cast_unsigned w32 (non_zero_i32_get n)) };

    ghost value_of = { λ n. integer (non_zero_i32_get n) };

    ghost is_legal = { λ bytes. 0 < from_le_bytes w32 bytes };

    ghost sized = { refl };

    ghost aligned = { refl };

    ghost aligns = { (lit< tt, lit≤ tt) };

    ghost is_leaf = { tt };

    ghost legal_by_shape = { λ own. (λ legal. legal, λ legal. legal) };

    ghost one_number = { λ a b e. one_nonzero (unsigned_abs) (λ n p. record { value = n; ok = p }) a.value b.value a.ok b.ok (Prim.cc) };

    const WIDTH: usize = 4;

    fn shape() -> Shape {
        Shape::NonZero {
            width: Width::Bits32,
            signed: true,
        }
    }

    fn accepts(bytes: &[u8]) -> bool {
        i32::read(bytes) != 0
    }

    fn read(bytes: &[u8]) -> NonZeroI32 {
        NonZeroI32::new(i32::read(bytes)).unwrap()
    }

    fn store(self, out: &mut [u8]) {
        NonZeroI32::get(self).store(out);
    }
}

impl Native for NonZeroI64 {
    ghost WIDTH = { 8 };

    ghost shape = { nonzero w64 true };

    ghost bytes_of = { λ n. to_le_bytes w64 (cast_unsigned w64 (non_zero_i64_get n)) };

    ghost value_of = { λ n. integer (non_zero_i64_get n) };

    ghost is_legal = { λ bytes. 0 < from_le_bytes w64 bytes };

    ghost sized = { refl };

    ghost aligned = { refl };

    ghost aligns = { (lit< tt, lit≤ tt) };

    ghost is_leaf = { tt };

    ghost legal_by_shape = { λ own. (λ legal. legal, λ legal. legal) };

    ghost one_number = { λ a b e. one_nonzero (unsigned_abs) (λ n p. record { value = n; ok = p }) a.value b.value a.ok b.ok (Prim.cc) };

    const WIDTH: usize = 8;

    fn shape() -> Shape {
        Shape::NonZero {
            width: Width::Bits64,
            signed: true,
        }
    }

    fn accepts(bytes: &[u8]) -> bool {
        i64::read(bytes) != 0
    }

    fn read(bytes: &[u8]) -> NonZeroI64 {
        NonZeroI64::new(i64::read(bytes)).unwrap()
    }

    fn store(self, out: &mut [u8]) {
        NonZeroI64::get(self).store(out);
    }
}

impl Native for NonZeroI128 {
    ghost WIDTH = { 16 };

    ghost shape = { nonzero w128 true };

    ghost bytes_of = { λ n. to_le_bytes w128 (cast_unsigned w128 (non_zero_i128_get n)) };

    ghost value_of = { λ n. integer (non_zero_i128_get n) };

    ghost is_legal = { λ bytes. 0 < from_le_bytes w128 bytes };

    ghost sized = { refl };

    ghost aligned = { refl };

    ghost aligns = { (lit< tt, lit≤ tt) };

    ghost is_leaf = { tt };

    ghost legal_by_shape = { λ own. (λ legal. legal, λ legal. legal) };

    ghost one_number = { λ a b e. one_nonzero (unsigned_abs) (λ n p. record { value = n; ok = p }) a.value b.value a.ok b.ok (Prim.cc) };

    const WIDTH: usize = 16;

    fn shape() -> Shape {
        Shape::NonZero {
            width: Width::Bits128,
            signed: true,
        }
    }

    fn accepts(bytes: &[u8]) -> bool {
        i128::read(bytes) != 0
    }

    fn read(bytes: &[u8]) -> NonZeroI128 {
        NonZeroI128::new(i128::read(bytes)).unwrap()
    }

    fn store(self, out: &mut [u8]) {
        NonZeroI128::get(self).store(out);
    }
}
