//! `TextQuery`, the texts that archived texts are compared with.
ghost use Rattle.std.specs.Prelude.{◌≡◌, ℕ, ◌<◌, ◌^◌, List, length, IsUtf8, refl};
ghost use Rattle.std.specs.Hash as fed;
ghost use Rattle.std.proofs.Common.{arith};
ghost use Rattle.std.specs.Ordering.{nat_cmp};
ghost use Rattle.std.specs.Cmp.Lexicographic.{slice_cmp};
ghost use Rattle.std.specs.String.{string_bytes};
ghost use Rattle.std.specs.Box.{boxed_str_bytes};

use std::boxed::BoxedStr;
use std::hash::Hash;

/// A type of texts that archived texts are compared with. They are compared and hashed by their bytes.
pub trait TextQuery: Ord + Hash {
    /// The bytes of the text.
    ghost text: { Self → List ℕ };

    /// Returns the text.
    fn as_text(&self) -> &str
        ensures { result.now ≡ text self.now };

    ghost compared_as_text: { (a b : Self) → Self.cmp a b ≡ slice_cmp nat_cmp (text a) (text b) };

    ghost hashed_as_text: { (a : Self) → Self.hash_input a ≡ fed.str (text a) };

    /// Each text that fits into memory is that of a query, which is otherwise as another one.
    ghost with_text: { (other : Self) (t : List ℕ) → IsUtf8 t → length t < 2 ^ 63 → (query : Self) × (text query ≡ t) };
}

impl<'q> TextQuery for &'q str {
    ghost text = { λ query. query.now };

    fn as_text(&self) -> &str {
        *self
    }

    ghost compared_as_text = { λ a b. refl };

    ghost hashed_as_text = { λ a. refl };

    ghost with_text = { λ other t legal small. (record { ref_ptr = other.ref_ptr; now = t }, refl) };
}

impl TextQuery for String {
    ghost text = { λ query. string_bytes query };

    fn as_text(&self) -> &str {
        self.as_str()
    }

    ghost compared_as_text = { λ a b. refl };

    ghost hashed_as_text = { λ a. refl };

    ghost with_text = { λ other t legal small. (record { bytes = record { ptr = other.bytes.ptr; len = length t; cap = length t; alloc = other.bytes.alloc; items = t; ok = (refl, Prim.omega arith); small = small }; ok = ∣ legal ∣₁ }, refl) };
}

impl TextQuery for BoxedStr {
    ghost text = { boxed_str_bytes };

    fn as_text(&self) -> &str {
        self.as_str()
    }

    ghost compared_as_text = { λ a b. refl };

    ghost hashed_as_text = { λ a. refl };

    ghost with_text = { λ other t legal small. (record { text = record { bytes = record { ptr = other.text.bytes.ptr; len = length t; cap = length t; alloc = other.text.bytes.alloc; items = t; ok = (refl, Prim.omega arith); small = small }; ok = ∣ legal ∣₁ } }, refl) };
}
