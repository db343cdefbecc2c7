//! `KeyOf` and `OrderedKeyOf`, the traits of archived keys that owned values are archived as.
ghost use Rattle.std.specs.Prelude.{◌≡◌, ℕ, List, refl};
ghost use Rattle.std.specs.Box.{boxed_str_bytes};
ghost use Rattle.std.specs.Ordering.{ordering_then};
ghost use Rattle.std.specs.String.{string_bytes};
ghost use Rattle.std.proofs.Common.{ap, subst, sym, ◌∙◌};
ghost use Rattle.archive_shape_layout.specs.Shape.{size_of};
ghost use Rattle.archive_shape_layout.proofs.HeldNumbers.{held_reads};
ghost use Rattle.archive_shape.specs.Key.{HeldAt};
ghost use Rattle.archive_shape.proofs.Held.{claims_within};
ghost use Rattle.archive_shape_canonical.specs.Canonical.{AreBytes};
ghost use Rattle.archive_forms_laws.specs.State.{State};
ghost use Rattle.archive_forms_laws.specs.Text.{IsText};
ghost use Rattle.archive_forms_laws.proofs.Held.{held_is_text_law, one_string};
ghost use Rattle.archive_forms_values.proofs.Keys.{boxed_str_stands, pair_held, pair_stands};

use crate::{Archive, Leaf};
use archive_forms_values::{ArchivedBoxedStr, ArchivedString, ArchivedTuple2};
use archive_shape::{ArchivedKey, ArchivedLeaf};
use std::boxed::BoxedStr;

/// A type of archived keys that values of type `K` are archived as, and that are compared with queries of type `Q`.
pub trait KeyOf<K: Archive, Q>: ArchivedKey<Q> {
    /// The query that is the key of a value.
    ghost key: { K → Q };

    /// Where bytes have what is written of a value, they have its key.
    ghost represents: { (x : K) (st : State) (bytes : List ℕ) (pos : ℕ) → AreBytes bytes → HeldAt Self.shape Self.knows bytes pos (K.spelling.value x st) → Self.key_of bytes pos (key x) };
}

/// Archived keys in the order of the values that are archived as them, as search trees ask.
pub trait OrderedKeyOf<K: Archive + Ord, Q>: KeyOf<K, Q> {
    /// Keys are in the order of the values that they are the keys of.
    ghost in_order: { (a b : K) → Self.order (Self.key a) (Self.key b) ≡ K.cmp a b };
}

/// Numbers, truth values and chars are their own keys.
impl<N: Leaf<Archived = A> + Ord, A: ArchivedLeaf<Native = N>> KeyOf<N, N> for A {
    ghost key = { λ x. x };

    ghost represents = { λ x st bytes pos small h. held_reads A.shape A.is_leaf (size_of A.shape) refl h.holds };
}

impl KeyOf<(), ()> for () {
    ghost key = { λ x. x };

    ghost represents = { λ _ _ _ _ _ _. tt };
}

/// The key of a text is a reference to its bytes, at any address.
impl<'q> KeyOf<String, &'q str> for ArchivedString {
    ghost key = { λ x. record { ref_ptr = (0, 0); now = string_bytes x } };

    ghost represents = { λ x st bytes pos small h.
        let there = held_is_text_law h.names bytes h.level h.inside pos _ h.regions h.before h.after h.own_within (claims_within h) h.holds in
        subst (IsText bytes pos) (sym (one_string there.value)) there.stands };
}

/// A text is its own key.
impl KeyOf<String, String> for ArchivedString {
    ghost key = { λ x. x };

    ghost represents = { λ x st bytes pos small h.
        let there = held_is_text_law h.names bytes h.level h.inside pos _ h.regions h.before h.after h.own_within (claims_within h) h.holds in
        subst (IsText bytes pos) (sym (one_string there.value)) there.stands };
}

/// The key of a boxed text is a reference to its bytes, at any address.
impl<'q> KeyOf<BoxedStr, &'q str> for ArchivedBoxedStr {
    ghost key = { λ x. record { ref_ptr = (0, 0); now = boxed_str_bytes x } };

    ghost represents = { λ x st bytes pos small h. boxed_str_stands bytes pos (boxed_str_bytes x) h };
}

/// A boxed text is its own key.
impl KeyOf<BoxedStr, BoxedStr> for ArchivedBoxedStr {
    ghost key = { λ x. x };

    ghost represents = { λ x st bytes pos small h. boxed_str_stands bytes pos (boxed_str_bytes x) h };
}

/// The key of a pair is the pair of the keys of its fields.
impl<K: Archive, L: Archive, P, Q, A: KeyOf<K, P>, B: KeyOf<L, Q>> KeyOf<(K, L), (P, Q)>
    for ArchivedTuple2<A, B> {
    ghost key = { λ x. (A.key x.0, B.key x.1) };

    ghost represents = { λ x st bytes pos small h.
        let held = pair_held A.shape B.shape A.knows B.knows bytes pos _ h in
        pair_stands A.shape B.shape A.knows B.knows bytes pos (record { value = _; held = h })
        (λ v there. A.held_stands_for bytes _ v there (A.key x.0) (A.represents x.0 _ bytes _ small held.0))
        (λ v there. B.held_stands_for bytes _ v there (B.key x.1) (B.represents x.1 _ bytes _ small held.1)) };
}

impl<N: Leaf<Archived = A> + Ord, A: ArchivedLeaf<Native = N>> OrderedKeyOf<N, N> for A {
    ghost in_order = { λ a b. refl };
}

impl OrderedKeyOf<(), ()> for () {
    ghost in_order = { λ _ _. refl };
}

impl<'q> OrderedKeyOf<String, &'q str> for ArchivedString {
    ghost in_order = { λ a b. refl };
}

impl OrderedKeyOf<String, String> for ArchivedString {
    ghost in_order = { λ a b. refl };
}

impl<'q> OrderedKeyOf<BoxedStr, &'q str> for ArchivedBoxedStr {
    ghost in_order = { λ a b. refl };
}

impl OrderedKeyOf<BoxedStr, BoxedStr> for ArchivedBoxedStr {
    ghost in_order = { λ a b. refl };
}

impl<
    K: Archive + Ord,
    L: Archive + Ord,
    P,
    Q,
    A: OrderedKeyOf<K, P>,
    B: OrderedKeyOf<L, Q>,
> OrderedKeyOf<(K, L), (P, Q)> for ArchivedTuple2<A, B> {
    ghost in_order = { λ a b. ap (λ o. ordering_then o (B.order (B.key a.1) (B.key b.1))) (A.in_order a.0 b.0) ∙ ap (ordering_then (K.cmp a.0 b.0)) (B.in_order a.1 b.1) };
}
