//! `char` as a native type, whose bytes are those of its code.
ghost use Rattle.std.specs.Prelude.{IsTrue, refl};
ghost use Rattle.std.specs.Int.{w32, to_le_bytes};
ghost use Rattle.std.proofs.Common.{lit<, lit≤};
ghost use Rattle.archive_shape_layout.specs.Bytes.{word_at};
ghost use Rattle.archive_shape_layout.specs.Content.{is_scalar};
ghost use Rattle.archive_shape_layout.specs.Shape.Shape.{character};
ghost use Rattle.archive_shape_layout.specs.Value.Value.{natural};

use crate::numbers::Native;
use archive_shape_layout::Shape;

impl Native for char {
    ghost WIDTH = { 4 };

    ghost shape = { character };

    ghost bytes_of = { λ c. to_le_bytes w32 c };

    ghost value_of = { natural };

    ghost is_legal = { λ bytes. IsTrue (is_scalar (word_at bytes 0)) };

    ghost sized = { refl };

    ghost aligned = { refl };

    ghost aligns = { (lit< tt, lit≤ tt) };

    ghost is_leaf = { tt };

    ghost legal_by_shape = { λ own. (λ legal. legal, λ legal. legal) };

    ghost one_number = { λ a b e. Prim.cc };

    const WIDTH: usize = 4;

    fn shape() -> Shape {
        Shape::Character
    }

    fn accepts(bytes: &[u8]) -> bool {
        char::from_u32(u32::read(bytes)).is_some()
    }

    fn read(bytes: &[u8]) -> char {
        char::from_u32(u32::read(bytes)).unwrap()
    }

    fn store(self, out: &mut [u8]) {
        u32::from(self).store(out);
    }
}
