//! Archived tuples of two keys as keys, compared with pairs of queries.
ghost use Rattle.std.specs.Ordering.{ordering_then};
ghost use Rattle.std.specs.Cmp.{on_total, then_total};
ghost use Rattle.std.specs.Prelude.{◌≡◌};
ghost use Rattle.std.proofs.Common.{ap, ◌∙◌};
ghost use Rattle.archive_forms_laws.specs.Views.{elements_of, head_of, rest_of};
ghost use Rattle.archive_forms_values.specs.Tuples.{tuple2};
ghost use Rattle.archive_forms_values.specs.Parts.{HasValue, both};
ghost use Rattle.archive_forms_values.specs.Keys.{EachStandsFor};

use crate::tuples::ArchivedTuple2;
use archive_shape::{ArchivedKey, Ref};
use std::cmp::Ordering;

/// Pairs, compared by their first fields, and where these are equal by their second ones.
impl<P, Q, A: ArchivedKey<P>, B: ArchivedKey<Q>> ArchivedKey<(P, Q)> for ArchivedTuple2<A, B> {
    ghost is_key = { HasValue (tuple2 A.shape B.shape) (both A.knows B.knows) };

    ghost key_of = { λ bytes pos key. EachStandsFor (tuple2 A.shape B.shape) (both A.knows B.knows) bytes pos
        (λ value. A.stands_for (head_of (elements_of value)) key.0 × B.stands_for (head_of (rest_of (elements_of value))) key.1) };

    ghost stands_for = { λ value key. A.stands_for (head_of (elements_of value)) key.0 × B.stands_for (head_of (rest_of (elements_of value))) key.1 };

    ghost order = { λ key query. ordering_then (A.order key.0 query.0) (B.order key.1 query.1) };

    fn same(this: &Ref<'_, Self>, query: &(P, Q)) -> bool {
        let first = A::same(&ArchivedTuple2::first(*this), &query.0);
        let second = B::same(&ArchivedTuple2::second(*this), &query.1);
        first && second
    }

    fn compare(this: &Ref<'_, Self>, query: &(P, Q)) -> Ordering {
        let first = A::compare(&ArchivedTuple2::first(*this), &query.0);
        let second = B::compare(&ArchivedTuple2::second(*this), &query.1);
        first.then(second)
    }

    ghost held_is_key = { λ bytes pos value h. record { value = value; held = h } };

    ghost held_stands_for = { λ bytes pos value h key is. is.each value h };

    ghost one_value = { λ value a b x y query.
        ap (λ o. ordering_then o (B.order a.1 query.1)) (A.one_value (head_of (elements_of value)) a.0 b.0 x.0 y.0 query.0)
        ∙ ap (ordering_then (A.order b.0 query.0)) (B.one_value (head_of (rest_of (elements_of value))) a.1 b.1 x.1 y.1 query.1) };

    ghost one_key = { λ bytes pos a b x y query.
        let value = x.there.value in
        let is = x.each value x.there.held in
        let other = y.each value x.there.held in
        ap (λ o. ordering_then o (B.order a.1 query.1)) (A.one_value (head_of (elements_of value)) a.0 b.0 is.0 other.0 query.0)
        ∙ ap (ordering_then (A.order b.0 query.0)) (B.one_value (head_of (rest_of (elements_of value))) a.1 b.1 is.1 other.1 query.1) };

    ghost is_total = { then_total (on_total (λ key. key.0) A.is_total) (on_total (λ key. key.1) B.is_total) };
}
