//! The trait of native numbers and chars that have an archived form.
ghost use Rattle.std.specs.Prelude.{◌≡◌, ℕ, ◌<◌, ◌≤◌, ◌↔◌, List, length, IsTrue, IsFalse};
ghost use Rattle.archive_shape_layout.specs.Shape.{Shape as Layout, size_of, align_of};
ghost use Rattle.archive_shape_layout.specs.Value.{Value};
ghost use Rattle.archive_shape_layout.specs.RuntimeShape.{layout_of};
ghost use Rattle.archive_shape_layout.specs.Numbers.{IsLeafShape, Reads, AreLegal, IsIllegal};

use archive_shape_layout::Shape;

/// A native number or char, which archives have as `WIDTH` bytes.
pub trait Native: Copy {
    ghost WIDTH: { ℕ };

    ghost shape: { Layout };

    /// The bytes of the number, in little-endian order.
    ghost bytes_of: { Self → List ℕ };

    /// The value that the layout has for the number.
    ghost value_of: { Self → Value };

    /// Whether bytes are those of a number of this type.
    ghost is_legal: { List ℕ → Type 0 };

    /// The number of bytes that the number takes, which is also its alignment.
    const WIDTH: usize;

    /// Returns the layout of the number.
    fn shape() -> Shape
        ensures { layout_of result ≡ shape };

    /// Returns whether the bytes are those of a number of this type.
    fn accepts(bytes: &[u8]) -> bool
        requires { length bytes.now ≡ WIDTH }
        ensures legal { IsTrue result → is_legal bytes.now }
        ensures illegal { IsFalse result → IsIllegal shape bytes.now };

    /// Returns the number that has these bytes.
    fn read(bytes: &[u8]) -> Self
        requires width { length bytes.now ≡ WIDTH }
        requires legal { is_legal bytes.now }
        ensures bytes { bytes_of result ≡ bytes.now }
        ensures value { Reads shape bytes.now (value_of result) };

    /// Writes the bytes of the number to `out`.
    fn store(self, out: &mut [u8])
        requires { length out.old ≡ WIDTH }
        ensures bytes { out.new ≡ bytes_of self }
        ensures value { Reads shape out.new (value_of self) };

    ghost sized: { WIDTH ≡ size_of shape };

    ghost aligned: { WIDTH ≡ align_of shape };

    ghost aligns: { (0 < WIDTH) × (WIDTH ≤ 32) };

    ghost is_leaf: { IsLeafShape shape };

    /// Which bytes are legal depends on the layout alone: those that some value has.
    ghost legal_by_shape: { (own : List ℕ) → is_legal own ↔ AreLegal shape own };

    /// No two numbers have the same value in the layout.
    ghost one_number: { (a b : Self) → value_of a ≡ value_of b → a ≡ b };
}
