//! `HashedKeyOf`, the trait of archived keys that maps are written and looked up by.
ghost use Rattle.std.specs.Prelude.{◌≡◌, ◌++◌, refl};
ghost use Rattle.std.proofs.Common.{ap, ◌∙◌};

use archive_forms_values::{ArchivedBoxedStr, ArchivedString, ArchivedTuple2};
use archive_forms_writing::{Archive, KeyOf, Leaf};
use archive_hash_maps::walking::HashedKey;
use archive_shape::{LittleEndian, Native};
use std::boxed::BoxedStr;
use std::hash::Hash;
use std::num::{NonZeroI8, NonZeroU8};

/// A type of archived keys that maps with keys of type `K` are written by, and that are looked up by queries of type
/// `Q`.
pub trait HashedKeyOf<K: Archive + Hash, Q: Hash>: KeyOf<K, Q> + HashedKey<Q> {
    /// A value feeds the same to a hasher as its key.
    ghost hashed_as_key: { (x : K) → K.hash_input x ≡ Q.hash_input (Self.key x) };
}

/// Numbers and chars.
impl<N: Leaf<Archived = LittleEndian<N>> + Native + Ord + Hash> HashedKeyOf<N, N>
    for LittleEndian<N> {
    ghost hashed_as_key = { λ x. refl };
}

impl HashedKeyOf<u8, u8> for u8 {
    ghost hashed_as_key = { λ x. refl };
}

impl HashedKeyOf<i8, i8> for i8 {
    ghost hashed_as_key = { λ x. refl };
}

impl HashedKeyOf<NonZeroU8, NonZeroU8> for NonZeroU8 {
    ghost hashed_as_key = { λ x. refl };
}

impl HashedKeyOf<NonZeroI8, NonZeroI8> for NonZeroI8 {
    ghost hashed_as_key = { λ x. refl };
}

impl HashedKeyOf<bool, bool> for bool {
    ghost hashed_as_key = { λ x. refl };
}

impl HashedKeyOf<(), ()> for () {
    ghost hashed_as_key = { λ x. refl };
}

impl<'q> HashedKeyOf<String, &'q str> for ArchivedString {
    ghost hashed_as_key = { λ x. refl };
}

impl HashedKeyOf<String, String> for ArchivedString {
    ghost hashed_as_key = { λ x. refl };
}

impl<'q> HashedKeyOf<BoxedStr, &'q str> for ArchivedBoxedStr {
    ghost hashed_as_key = { λ x. refl };
}

impl HashedKeyOf<BoxedStr, BoxedStr> for ArchivedBoxedStr {
    ghost hashed_as_key = { λ x. refl };
}

/// Pairs.
impl<
    K: Archive + Hash,
    L: Archive + Hash,
    P: Hash,
    Q: Hash,
    A: HashedKeyOf<K, P>,
    B: HashedKeyOf<L, Q>,
> HashedKeyOf<(K, L), (P, Q)> for ArchivedTuple2<A, B> {
    ghost hashed_as_key = { λ x. ap (λ fed_first. fed_first ++ L.hash_input x.1) (A.hashed_as_key x.0) ∙ ap (λ fed_second. P.hash_input (A.key x.0) ++ fed_second) (B.hashed_as_key x.1) };
}
