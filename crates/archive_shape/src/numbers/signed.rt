//! `i16`, `i32`, `i64` and `i128` as native types.
ghost use Rattle.std.specs.Prelude.{true, ⊤, refl};
ghost use Rattle.std.specs.Int.{w16, w32, w64, w128, to_le_bytes, cast_unsigned};
ghost use Rattle.std.proofs.Common.{lit<, lit≤};
ghost use Rattle.archive_shape_layout.specs.Shape.Shape.{number};
ghost use Rattle.archive_shape_layout.specs.Value.Value.{integer};

use crate::numbers::Native;
use archive_shape_layout::{Shape, Width};

impl Native for i16 {
    ghost WIDTH = { 2 };

    ghost shape = { number w16 true };

    ghost bytes_of = { λ n. to_le_bytes w16 (cast_unsigned w16 n) };

    ghost value_of = { integer };

    ghost is_legal = { λ _. ⊤ };

    ghost sized = { refl };

    ghost aligned = { refl };

    ghost aligns = { (lit< tt, lit≤ tt) };

    ghost is_leaf = { tt };

    ghost legal_by_shape = { λ own. (λ legal. legal, λ legal. legal) };

    ghost one_number = { λ a b e. Prim.cc };

    const WIDTH: usize = 2;

    fn shape() -> Shape {
        Shape::Number {
            width: Width::Bits16,
            signed: true,
        }
    }

    fn accepts(_bytes: &[u8]) -> bool {
        true
    }

    fn read(bytes: &[u8]) -> i16 {
        i16::from_le_bytes([bytes[0], bytes[1]])
    }

    fn store(self, out: &mut [u8]) {
        out.copy_from_slice(&i16::to_le_bytes(self));
    }
}

impl Native for i32 {
    ghost WIDTH = { 4 };

    ghost shape = { number w32 true };

    ghost bytes_of = { λ n. to_le_bytes w32 (cast_unsigned w32 n) };

    ghost value_of = { integer };

    ghost is_legal = { λ _. ⊤ };

    ghost sized = { refl };

    ghost aligned = { refl };

    ghost aligns = { (lit< tt, lit≤ tt) };

    ghost is_leaf = { tt };

    ghost legal_by_shape = { λ own. (λ legal. legal, λ legal. legal) };

    ghost one_number = { λ a b e. Prim.cc };

    const WIDTH: usize = 4;

    fn shape() -> Shape {
        Shape::Number {
            width: Width::Bits32,
            signed: true,
        }
    }

    fn accepts(_bytes: &[u8]) -> bool {
        true
    }

    fn read(bytes: &[u8]) -> i32 {
        i32::from_le_bytes([bytes[0], bytes[1], bytes[2], bytes[3]])
    }

    fn store(self, out: &mut [u8]) {
        out.copy_from_slice(&i32::to_le_bytes(self));
    }
}

impl Native for i64 {
    ghost WIDTH = { 8 };

    ghost shape = { number w64 true };

    ghost bytes_of = { λ n. to_le_bytes w64 (cast_unsigned w64 n) };

    ghost value_of = { integer };

    ghost is_legal = { λ _. ⊤ };

    ghost sized = { refl };

    ghost aligned = { refl };

    ghost aligns = { (lit< tt, lit≤ tt) };

    ghost is_leaf = { tt };

    ghost legal_by_shape = { λ own. (λ legal. legal, λ legal. legal) };

    ghost one_number = { λ a b e. Prim.cc };

    const WIDTH: usize = 8;

    fn shape() -> Shape {
        Shape::Number {
            width: Width::Bits64,
            signed: true,
        }
    }

    fn accepts(_bytes: &[u8]) -> bool {
        true
    }

    fn read(bytes: &[u8]) -> i64 {
        i64::from_le_bytes([
            bytes[0], bytes[1], bytes[2], bytes[3], bytes[4], bytes[5], bytes[6], bytes[7],
        ])
    }

    fn store(self, out: &mut [u8]) {
        out.copy_from_slice(&i64::to_le_bytes(self));
    }
}

impl Native for i128 {
    ghost WIDTH = { 16 };

    ghost shape = { number w128 true };

    ghost bytes_of = { λ n. to_le_bytes w128 (cast_unsigned w128 n) };

    ghost value_of = { integer };

    ghost is_legal = { λ _. ⊤ };

    ghost sized = { refl };

    ghost aligned = { refl };

    ghost aligns = { (lit< tt, lit≤ tt) };

    ghost is_leaf = { tt };

    ghost legal_by_shape = { λ own. (λ legal. legal, λ legal. legal) };

    ghost one_number = { λ a b e. Prim.cc };

    const WIDTH: usize = 16;

    fn shape() -> Shape {
        Shape::Number {
            width: Width::Bits128,
            signed: true,
        }
    }

    fn accepts(_bytes: &[u8]) -> bool {
        true
    }

    fn read(bytes: &[u8]) -> i128 {
        let mut own = [0; 16];
        own.copy_from_slice(bytes);
        i128::from_le_bytes(own)
    }

    fn store(self, out: &mut [u8]) {
        out.copy_from_slice(&i128::to_le_bytes(self));
    }
}
