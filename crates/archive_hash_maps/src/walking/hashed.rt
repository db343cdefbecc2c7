//! `HashedKey`, the trait of archived keys that are looked up by the hash of a query.
ghost use Rattle.std.specs.Prelude.{◌++◌, refl};
ghost use Rattle.std.specs.Cmp.{both_tied, first_so, second_so};
ghost use Rattle.std.specs.Hash as fed;
ghost use Rattle.std.specs.Hash.{Alike};
ghost use Rattle.std.specs.Ordering.{eq_by_cmp};
ghost use Rattle.std.proofs.Common.{ap, sym, ◌∙◌};
ghost use Rattle.std.proofs.lemmas.Map.Text.{is_eq-slice_cmp};
ghost use Rattle.std.proofs.lemmas.Slice.Eq.{bytes_eq-Decides};

use archive_forms_rc::{Acyclic, ArchivedRcStr};
use archive_forms_values::{ArchivedBoxedStr, ArchivedString, ArchivedTuple2, TextQuery};
use archive_shape::{ArchivedKey, ArchivedLeaf, LittleEndian, Native};
use std::hash::Hash;
use std::num::{NonZeroI8, NonZeroU8};

/// A type of archived keys that are looked up by the hash of a query. A look-up compares only the items under the
/// query's hash, so a key that is equal to a query has to have the query's hash.
pub trait HashedKey<Q: Hash>: ArchivedKey<Q> {
    /// Keys that are equal feed the same to a hasher.
    ghost alike: { Alike (eq_by_cmp Self.order) Q.hash_input };
}

/// A type of numbers, truth values or chars that are looked up by the hash of their native values.
pub trait HashedLeaf: ArchivedLeaf {}

impl<N: Native> HashedLeaf for LittleEndian<N> {}

impl HashedLeaf for u8 {}

impl HashedLeaf for i8 {}

impl HashedLeaf for NonZeroU8 {}

impl HashedLeaf for NonZeroI8 {}

impl HashedLeaf for bool {}

impl<N: Copy + Ord + Hash, A: HashedLeaf + ArchivedLeaf<Native = N>> HashedKey<N> for A {
    ghost alike = { record { fed = λ a b same. N.respects_eq a b (N.matches_eq a b ∙ same) } };
}

impl HashedKey<()> for () {
    ghost alike = { record { fed = λ _ _ _. refl } };
}

impl<Q: TextQuery> HashedKey<Q> for ArchivedString {
    ghost alike = { record { fed = λ a b same. Q.hashed_as_text a ∙ ap fed.str ((bytes_eq-Decides (Q.text a) (Q.text b)).0 (sym (is_eq-slice_cmp (Q.text a) (Q.text b)) ∙ same)) ∙ sym (Q.hashed_as_text b) } };
}

impl<Q: TextQuery> HashedKey<Q> for ArchivedBoxedStr {
    ghost alike = { record { fed = λ a b same. Q.hashed_as_text a ∙ ap fed.str ((bytes_eq-Decides (Q.text a) (Q.text b)).0 (sym (is_eq-slice_cmp (Q.text a) (Q.text b)) ∙ same)) ∙ sym (Q.hashed_as_text b) } };
}

impl<Q: TextQuery, L: Acyclic> HashedKey<Q> for ArchivedRcStr<L> {
    ghost alike = { record { fed = λ a b same. Q.hashed_as_text a ∙ ap fed.str ((bytes_eq-Decides (Q.text a) (Q.text b)).0 (sym (is_eq-slice_cmp (Q.text a) (Q.text b)) ∙ same)) ∙ sym (Q.hashed_as_text b) } };
}

/// Pairs.
impl<P: Hash, Q: Hash, A: HashedKey<P>, B: HashedKey<Q>> HashedKey<(P, Q)>
    for ArchivedTuple2<A, B> {
    ghost alike = { record {
      fed = λ a b same.
          let both = both_tied _ _ (A.order a.0 b.0) (B.order a.1 b.1) refl refl ∙ same in
          ap (λ fed_first. fed_first ++ Q.hash_input a.1) (A.alike.fed a.0 b.0 (first_so _ _ both))
          ∙ ap (λ fed_second. P.hash_input b.0 ++ fed_second) (B.alike.fed a.1 b.1 (second_so _ _ both));
    } };
}
