//! `NonZeroU16`, `NonZeroU32`, `NonZeroU64` and `NonZeroU128` as native types.
ghost use Rattle.std.specs.Prelude.{◌<◌, false, refl};
ghost use Rattle.std.specs.Int.{w16, w32, w64, w128, to_le_bytes, from_le_bytes};
ghost use Rattle.std.specs.Int.NonZero.{non_zero_u16_get, non_zero_u32_get, non_zero_u64_get, non_zero_u128_get};
ghost use Rattle.std.proofs.Common.{lit<, lit≤};
ghost use Rattle.archive_shape_layout.specs.Shape.Shape.{nonzero};
ghost use Rattle.archive_shape_layout.specs.Value.Value.{natural};
ghost use Rattle.archive_shape_layout.proofs.Nonzero.{one_nonzero};

use crate::numbers::Native;
use archive_shape_layout::{Shape, Width};
use std::num::{NonZeroU16, NonZeroU32, NonZeroU64, NonZeroU128};

impl Native for NonZeroU16 {
    ghost WIDTH = { 2 };

    ghost shape = { nonzero w16 false };

    ghost bytes_of = { λ n. to_le_bytes w16 (non_zero_u16_get n) };

    ghost value_of = { λ n. natural (non_zero_u16_get n) };

    ghost is_legal = { λ bytes. 0 < from_le_bytes w16 bytes };

    ghost sized = { refl };

    ghost aligned = { refl };

    ghost aligns = { (lit< tt, lit≤ tt) };

    ghost is_leaf = { tt };

    ghost legal_by_shape = { λ own. (λ legal. legal, λ legal. legal) };

    ghost one_number = { λ a b e. one_nonzero (λ n. n) (λ n p. record { value = n; ok = p }) a.value b.value a.ok b.ok (Prim.cc) };

    const WIDTH: usize = 2;

    fn shape() -> Shape {
        Shape::NonZero {
            width: Width::Bits16,
            signed: false,
        }
    }

    fn accepts(bytes: &[u8]) -> bool {
        u16::read(bytes) != 0
    }

    fn read(bytes: &[u8]) -> NonZeroU16 {
        NonZeroU16::new(u16::read(bytes)).unwrap()
    }

    fn store(self, out: &mut [u8]) {
        NonZeroU16::get(self).store(out);
    }
}

impl Native for NonZeroU32 {
    ghost WIDTH = { 4 };

    ghost shape = { nonzero w32 false };

    ghost bytes_of = { λ n. to_le_bytes w32 (non_zero_u32_get n) };

    ghost value_of = { λ n. natural (non_zero_u32_get n) };

    ghost is_legal = { λ bytes. 0 < from_le_bytes w32 bytes };

    ghost sized = { refl };

    ghost aligned = { refl };

    ghost aligns = { (lit< tt, lit≤ tt) };

    ghost is_leaf = { tt };

    ghost legal_by_shape = { λ own. (λ legal. legal, λ legal. legal) };

    ghost one_number = { λ a b e. one_nonzero (λ n. n) (λ n p. record { value = n; ok = p }) a.value b.value a.ok b.ok (Prim.cc) };

    const WIDTH: usize = 4;

    fn shape() -> Shape {
        Shape::NonZero {
            width: Width::Bits32,
            signed: false,
        }
    }

    fn accepts(bytes: &[u8]) -> bool {
        u32::read(bytes) != 0
    }

    fn read(bytes: &[u8]) -> NonZeroU32 {
        NonZeroU32::new(u32::read(bytes)).unwrap()
    }

    fn store(self, out: &mut [u8]) {
        NonZeroU32::get(self).store(out);
    }
}

impl Native for NonZeroU64 {
    ghost WIDTH = { 8 };

    ghost shape = { nonzero w64 false };

    ghost bytes_of = { λ n. to_le_bytes w64 (non_zero_u64_get n) };

    ghost value_of = { λ n. natural (non_zero_u64_get n) };

    ghost is_legal = { λ bytes. 0 < from_le_bytes w64 bytes };

    ghost sized = { refl };

    ghost aligned = { refl };

    ghost aligns = { (lit< tt, lit≤ tt) };

    ghost is_leaf = { tt };

    ghost legal_by_shape = { λ own. (λ legal. legal, λ legal. legal) };

    ghost one_number = { λ a b e. one_nonzero (λ n. n) (λ n p. record { value = n; ok = p }) a.value b.value a.ok b.ok (Prim.cc) };

    const WIDTH: usize = 8;

    fn shape() -> Shape {
        Shape::NonZero {
            width: Width::Bits64,
            signed: false,
        }
    }

    fn accepts(bytes: &[u8]) -> bool {
        u64::read(bytes) != 0
    }

    fn read(bytes: &[u8]) -> NonZeroU64 {
        NonZeroU64::new(u64::read(bytes)).unwrap()
    }

    fn store(self, out: &mut [u8]) {
        NonZeroU64::get(self).store(out);
    }
}

impl Native for NonZeroU128 {
    ghost WIDTH = { 16 };

    ghost shape = { nonzero w128 false };

    ghost bytes_of = { λ n. to_le_bytes w128 (non_zero_u128_get n) };

    ghost value_of = { λ n. natural (non_zero_u128_get n) };

    ghost is_legal = { λ bytes. 0 < from_le_bytes w128 bytes };

    ghost sized = { refl };

    ghost aligned = { refl };

    ghost aligns = { (lit< tt, lit≤ tt) };

    ghost is_leaf = { tt };

    ghost legal_by_shape = { λ own. (λ legal. legal, λ legal. legal) };

    ghost one_number = { λ a b e. one_nonzero (λ n. n) (λ n p. record { value = n; ok = p }) a.value b.value a.ok b.ok (Prim.cc) };

    const WIDTH: usize = 16;

    fn shape() -> Shape {
        Shape::NonZero {
            width: Width::Bits128,
            signed: false,
        }
    }

    fn accepts(bytes: &[u8]) -> bool {
        u128::read(bytes) != 0
    }

    fn read(bytes: &[u8]) -> NonZeroU128 {
        NonZeroU128::new(u128::read(bytes)).unwrap()
    }

    fn store(self, out: &mut [u8]) {
        NonZeroU128::get(self).store(out);
    }
}
