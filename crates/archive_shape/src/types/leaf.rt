//! The trait of archived values without parts: numbers, chars and bools.
ghost use Rattle.std.specs.Prelude.{◌≡◌, ℕ, ◌↔◌, List, length, IsTrue, IsFalse};
ghost use Rattle.archive_shape_layout.specs.Value.{Value};
ghost use Rattle.archive_shape_layout.specs.Numbers.{IsLeafShape, Reads, AreLegal, IsIllegal};

use crate::numbers::Native;
use crate::types::{LittleEndian, Portable};

/// A type of archived values without parts. The own bytes of each determine the native value that it represents.
pub trait ArchivedLeaf: Portable {
    /// The native type, whose values are read from own bytes and stored as own bytes.
    type Native: Copy;

    /// The own bytes of a native value.
    ghost bytes_of: { Self.Native → List ℕ };

    /// The value that the layout has for a native value.
    ghost value_of: { Self.Native → Value };

    /// Whether bytes are the own bytes of a value of this type.
    ghost is_legal: { List ℕ → Type 0 };

    /// Returns whether these are the own bytes of a value of this type.
    fn accepts(own: &[u8]) -> bool
        requires { length own.now ≡ Self.SIZE }
        ensures legal { IsTrue result → is_legal own.now }
        ensures illegal { IsFalse result → IsIllegal Self.shape own.now };

    /// Returns the native value that has these own bytes.
    fn read(own: &[u8]) -> Self::Native
        requires width { length own.now ≡ Self.SIZE }
        requires legal { is_legal own.now }
        ensures bytes { bytes_of result ≡ own.now }
        ensures value { Reads Self.shape own.now (value_of result) };

    /// Writes the own bytes of the native value to `out`.
    fn store(native: Self::Native, out: &mut [u8])
        requires { length out.old ≡ Self.SIZE }
        ensures bytes { out.new ≡ bytes_of native }
        ensures value { Reads Self.shape out.new (value_of native) };

    ghost is_leaf: { IsLeafShape Self.shape };

    /// Which own bytes are legal depends on the layout alone: those that some value has.
    ghost legal_by_shape: { (own : List ℕ) → is_legal own ↔ AreLegal Self.shape own };

    /// No two native values have the same value in the layout.
    ghost one_native: { (a b : Self.Native) → value_of a ≡ value_of b → a ≡ b };
}

impl<N: Native> ArchivedLeaf for LittleEndian<N> {
    type Native = N;

    ghost bytes_of = { N.bytes_of };

    ghost value_of = { N.value_of };

    ghost is_legal = { N.is_legal };

    ghost is_leaf = { N.is_leaf };

    ghost legal_by_shape = { N.legal_by_shape };

    ghost one_native = { N.one_number };

    fn accepts(own: &[u8]) -> bool {
        N::accepts(own)
    }

    fn read(own: &[u8]) -> N {
        N::read(own)
    }

    fn store(native: N, out: &mut [u8]) {
        native.store(out);
    }
}
