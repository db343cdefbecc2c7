//! `u16`, `u32`, `u64` and `u128` as native types.
ghost use Rattle.std.specs.Prelude.{false, ⊤, refl};
ghost use Rattle.std.specs.Int.{w16, w32, w64, w128, to_le_bytes};
ghost use Rattle.std.proofs.Common.{lit<, lit≤};
ghost use Rattle.archive_shape_layout.specs.Shape.Shape.{number};
ghost use Rattle.archive_shape_layout.specs.Value.Value.{natural};

use crate::numbers::Native;
use archive_shape_layout::{Shape, Width};

impl Native for u16 {
    ghost WIDTH = { 2 };

    ghost shape = { number w16 false };

    ghost bytes_of = { λ n. to_le_bytes w16 n };

    ghost value_of = { natural };

    ghost is_legal = { λ _. ⊤ };

    ghost sized = { refl };

    ghost aligned = { refl };

    ghost aligns = { (lit< tt, lit≤ tt) };

    ghost is_leaf = { tt };

    ghost legal_by_shape = { λ own. (λ legal. legal, λ legal. legal) };

    ghost one_number = { λ a b e. Prim.cc };

    const WIDTH: usize = 2;

    fn shape() -> Shape {
        Shape::Number {
            width: Width::Bits16,
            signed: false,
        }
    }

    fn accepts(_bytes: &[u8]) -> bool {
        true
    }

    fn read(bytes: &[u8]) -> u16 {
        u16::from_le_bytes([bytes[0], bytes[1]])
    }

    fn store(self, out: &mut [u8]) {
        out.copy_from_slice(&u16::to_le_bytes(self));
    }
}

impl Native for u32 {
    ghost WIDTH = { 4 };

    ghost shape = { number w32 false };

    ghost bytes_of = { λ n. to_le_bytes w32 n };

    ghost value_of = { natural };

    ghost is_legal = { λ _. ⊤ };

    ghost sized = { refl };

    ghost aligned = { refl };

    ghost aligns = { (lit< tt, lit≤ tt) };

    ghost is_leaf = { tt };

    ghost legal_by_shape = { λ own. (λ legal. legal, λ legal. legal) };

    ghost one_number = { λ a b e. Prim.cc };

    const WIDTH: usize = 4;

    fn shape() -> Shape {
        Shape::Number {
            width: Width::Bits32,
            signed: false,
        }
    }

    fn accepts(_bytes: &[u8]) -> bool {
        true
    }

    fn read(bytes: &[u8]) -> u32 {
        u32::from_le_bytes([bytes[0], bytes[1], bytes[2], bytes[3]])
    }

    fn store(self, out: &mut [u8]) {
        out.copy_from_slice(&u32::to_le_bytes(self));
    }
}

impl Native for u64 {
    ghost WIDTH = { 8 };

    ghost shape = { number w64 false };

    ghost bytes_of = { λ n. to_le_bytes w64 n };

    ghost value_of = { natural };

    ghost is_legal = { λ _. ⊤ };

    ghost sized = { refl };

    ghost aligned = { refl };

    ghost aligns = { (lit< tt, lit≤ tt) };

    ghost is_leaf = { tt };

    ghost legal_by_shape = { λ own. (λ legal. legal, λ legal. legal) };

    ghost one_number = { λ a b e. Prim.cc };

    const WIDTH: usize = 8;

    fn shape() -> Shape {
        Shape::Number {
            width: Width::Bits64,
            signed: false,
        }
    }

    fn accepts(_bytes: &[u8]) -> bool {
        true
    }

    fn read(bytes: &[u8]) -> u64 {
        u64::from_le_bytes([
            bytes[0], bytes[1], bytes[2], bytes[3], bytes[4], bytes[5], bytes[6], bytes[7],
        ])
    }

    fn store(self, out: &mut [u8]) {
        out.copy_from_slice(&u64::to_le_bytes(self));
    }
}

impl Native for u128 {
    ghost WIDTH = { 16 };

    ghost shape = { number w128 false };

    ghost bytes_of = { λ n. to_le_bytes w128 n };

    ghost value_of = { natural };

    ghost is_legal = { λ _. ⊤ };

    ghost sized = { refl };

    ghost aligned = { refl };

    ghost aligns = { (lit< tt, lit≤ tt) };

    ghost is_leaf = { tt };

    ghost legal_by_shape = { λ own. (λ legal. legal, λ legal. legal) };

    ghost one_number = { λ a b e. Prim.cc };

    const WIDTH: usize = 16;

    fn shape() -> Shape {
        Shape::Number {
            width: Width::Bits128,
            signed: false,
        }
    }

    fn accepts(_bytes: &[u8]) -> bool {
        true
    }

    fn read(bytes: &[u8]) -> u128 {
        let mut own = [0; 16];
        own.copy_from_slice(bytes);
        u128::from_le_bytes(own)
    }

    fn store(self, out: &mut [u8]) {
        out.copy_from_slice(&u128::to_le_bytes(self));
    }
}
