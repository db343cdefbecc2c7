//! The trait of archived keys, which are compared with queries.
ghost use Rattle.std.specs.Prelude.{◌≡◌, ℕ, ◌+◌, ◌≤◌, List, length, refl, ⊤};
ghost use Rattle.std.proofs.Common.{ap, sym, ◌∙◌};
ghost use Rattle.std.specs.Cmp.{IsTotalOrder};
ghost use Rattle.std.specs.Ordering.{is_eq};
ghost use Rattle.std.specs.declared.cmp.Ordering.{Ordering};
ghost use Rattle.std.specs.declared.cmp.Ordering.TheVariants.{Equal};
ghost use Rattle.archive_shape_layout.specs.Bytes.{window};
ghost use Rattle.archive_shape_layout.specs.Shape.{size_of};
ghost use Rattle.archive_shape_layout.specs.Value.{Value};
ghost use Rattle.archive_shape_layout.specs.Numbers.{Reads};
ghost use Rattle.archive_shape_layout.proofs.HeldNumbers.{held_reads, held_legal};
ghost use Rattle.archive_shape_layout.proofs.NumberReading.{one_reading};
ghost use Rattle.archive_shape.specs.Key.{HeldAt};

use crate::{ArchivedLeaf, Portable, Ref};
use std::cmp::Ordering;

/// A type of archived keys that are compared with queries of type `Q`. The result of a comparison depends on the value
/// that the layout has for the key, not on its position.
pub trait ArchivedKey<Q>: Portable {
    /// Whether the bytes have a key of this type at a position.
    ghost is_key: { List ℕ → ℕ → Type 0 };

    /// Whether the key that the bytes have at a position represents this value of `Q`.
    ghost key_of: { List ℕ → ℕ → Q → Type 0 };

    /// Whether a key of this value of the layout represents this value of `Q`.
    ghost stands_for: { Value → Q → Type 0 };

    /// The order of the keys.
    ghost order: { Q → Q → Ordering };

    /// Returns whether the key and the query are equal, which is exactly where `compare` returns `Equal`.
    fn same(this: &Ref<'_, Self>, query: &Q) -> bool
        requires { is_key this.now.bytes.now this.now.pos }
        ensures { (key : Q) × key_of this.now.bytes.now this.now.pos key × (result ≡ is_eq (order key query.now)) };

    /// Compares the key with the query, in the order of the keys.
    fn compare(this: &Ref<'_, Self>, query: &Q) -> Ordering
        requires { is_key this.now.bytes.now this.now.pos }
        ensures { (key : Q) × key_of this.now.bytes.now this.now.pos key × (result ≡ order key query.now) };

    /// A value that the layout has at a position is a key.
    ghost held_is_key: { (bytes : List ℕ) (pos : ℕ) (value : Value) → HeldAt Self.shape Self.knows bytes pos value → is_key bytes pos };

    /// All that this key represents, its value represents as well.
    ghost held_stands_for: { (bytes : List ℕ) (pos : ℕ) (value : Value) → HeldAt Self.shape Self.knows bytes pos value → (key : Q) → key_of bytes pos key → stands_for value key };

    /// All that one value represents compares alike with every query.
    ghost one_value: { (value : Value) (a b : Q) → stands_for value a → stands_for value b → (query : Q) → order a query ≡ order b query };

    /// All that the key at a position represents compares alike with every query.
    ghost one_key: { (bytes : List ℕ) (pos : ℕ) (a b : Q) → key_of bytes pos a → key_of bytes pos b → (query : Q) → order a query ≡ order b query };

    ghost is_total: { IsTotalOrder order };
}

/// Numbers, truth values and chars, in the order of their native type.
impl<N: Copy + Ord, A: ArchivedLeaf<Native = N>> ArchivedKey<N> for A {
    ghost is_key = { λ bytes pos. (pos + size_of A.shape ≤ length bytes) × A.is_legal (window bytes pos (size_of A.shape)) };

    ghost key_of = { λ bytes pos key. Reads A.shape (window bytes pos (size_of A.shape)) (A.value_of key) };

    ghost stands_for = { λ value key. value ≡ A.value_of key };

    ghost order = { N.cmp };

    fn same(this: &Ref<'_, Self>, query: &N) -> bool {
        this.to_native() == *query
    }

    fn compare(this: &Ref<'_, Self>, query: &N) -> Ordering {
        this.to_native().cmp(query)
    }

    ghost held_is_key = { λ bytes pos value h. (h.own_within, (A.legal_by_shape (window bytes pos (size_of A.shape))).1 (held_legal A.shape A.is_leaf (size_of A.shape) refl h.holds)) };

    ghost held_stands_for = { λ bytes pos value h key is. one_reading A.shape (window bytes pos (size_of A.shape)) _ _ (held_reads A.shape A.is_leaf (size_of A.shape) refl h.holds) is };

    ghost one_value = { λ value a b x y query. ap (λ key. N.cmp key query) (A.one_native a b (sym x ∙ y)) };

    ghost one_key = { λ bytes pos a b x y query. ap (λ key. N.cmp key query) (A.one_native a b (one_reading A.shape (window bytes pos (size_of A.shape)) _ _ x y)) };

    ghost is_total = { N.total };
}

/// The unit, whose values have no bytes and are all equal.
impl ArchivedKey<()> for () {
    ghost is_key = { λ _ _. ⊤ };

    ghost key_of = { λ _ _ _. ⊤ };

    ghost stands_for = { λ _ _. ⊤ };

    ghost order = { λ _ _. Equal };

    fn same(_this: &Ref<'_, Self>, _query: &()) -> bool {
        true
    }

    fn compare(_this: &Ref<'_, Self>, _query: &()) -> Ordering {
        Ordering::Equal
    }

    ghost held_is_key = { λ _ _ _ _. tt };

    ghost held_stands_for = { λ _ _ _ _ _ _. tt };

    ghost one_value = { λ _ _ _ _ _ _. refl };

    ghost one_key = { λ _ _ _ _ _ _ _. refl };

    ghost is_total = { record { antisymm = λ _ _. refl; trans = λ _ _ _ e _. e; congr = λ _ _ _ _. refl } };
}
