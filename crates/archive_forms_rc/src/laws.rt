//! The laws of how counted pointers are compared and hashed, each a function with an empty body whose contract is the
//! law.
ghost use Rattle.std.specs.Prelude.{◌≡◌, List, ℕ};
ghost use Rattle.std.specs.String.{string_bytes};
ghost use denote.Bor.{Bor};
ghost use Rattle.archive_forms_laws.specs.Orders.{text_equality, text_order, text_hashed, vector_equality, vector_order, vector_hashed};
ghost use Rattle.archive_forms_rc.specs.Compared.{counted_equality, counted_order, counted_hashed, IsComparedAsText};

use crate::{Acyclic, ArchivedRc, ArchivedRcSlice, ArchivedRcStr};
use archive_forms_comparing::{ArchivedEq, ArchivedHash, ArchivedOrd};
use archive_shape::ArchivedKey;

/// Counted pointers are equal where the values that they lead to are.
pub fn counted_are_equal_by_value<T: ArchivedEq, L: Acyclic>()
    ensures values { ⟦<ArchivedRc<T, L> as ArchivedEq>⟧.equal ≡ counted_equality T.equal }
    ensures slices { ⟦<ArchivedRcSlice<T, L> as ArchivedEq>⟧.equal ≡ counted_equality (vector_equality T.equal) }
    ensures texts { ⟦<ArchivedRcStr<L> as ArchivedEq>⟧.equal ≡ counted_equality text_equality }
{}

/// They are in the order of these values.
pub fn counted_are_ordered_by_value<T: ArchivedOrd, L: Acyclic>()
    ensures values { ⟦<ArchivedRc<T, L> as ArchivedOrd>⟧.order ≡ counted_order T.order }
    ensures slices { ⟦<ArchivedRcSlice<T, L> as ArchivedOrd>⟧.order ≡ counted_order (vector_order T.order) }
    ensures texts { ⟦<ArchivedRcStr<L> as ArchivedOrd>⟧.order ≡ counted_order text_order }
{}

/// They are hashed as these values are.
pub fn counted_are_hashed_by_value<T: ArchivedHash, L: Acyclic>()
    ensures values { ⟦<ArchivedRc<T, L> as ArchivedHash>⟧.hashed ≡ counted_hashed T.hashed }
    ensures slices { ⟦<ArchivedRcSlice<T, L> as ArchivedHash>⟧.hashed ≡ counted_hashed (vector_hashed T.hashed) }
    ensures texts { ⟦<ArchivedRcStr<L> as ArchivedHash>⟧.hashed ≡ counted_hashed text_hashed }
{}

/// A counted text as a key represents the text that it leads to, and is in the order of texts, which is that of their
/// bytes, for queries that are slices or owned.
pub fn counted_keys_are_compared_as_texts<'q, L: Acyclic>()
    ensures slices { let text : Bor (List ℕ) → List ℕ = λ query. query.now in
        IsComparedAsText text ⟦<ArchivedRcStr<L> as ArchivedKey<&'q str>>⟧.stands_for
        ⟦<ArchivedRcStr<L> as ArchivedKey<&'q str>>⟧.order }
    ensures owned { IsComparedAsText string_bytes ⟦<ArchivedRcStr<L> as ArchivedKey<String>>⟧.stands_for
        ⟦<ArchivedRcStr<L> as ArchivedKey<String>>⟧.order }
{}
