//! Counted pointers of flavors that forbid cycles are compared as the values that they lead to, regardless of the
//! positions.
ghost use Rattle.std.specs.Cmp.{on_equiv, on_total};
ghost use Rattle.archive_forms_laws.specs.Orders.{vector_equality, vector_order, text_equality, text_order};
ghost use Rattle.archive_forms_laws.proofs.Forms.{equivalences, total, agree};
ghost use Rattle.archive_forms_rc.specs.Compared.{counted_of, counted_equality, counted_order};

use crate::parts::{rc_elements, rc_text, rc_value};
use crate::{Acyclic, ArchivedRc, ArchivedRcSlice, ArchivedRcStr};
use archive_forms_comparing::{ArchivedEq, ArchivedOrd, compare_elements, equal_elements};
use archive_shape::Ref;
use std::cmp::Ordering;

impl<T: ArchivedEq, L: Acyclic> ArchivedEq for ArchivedRc<T, L> {
    ghost equal = { counted_equality T.equal };

    ghost is_equivalence = { on_equiv counted_of T.is_equivalence };

    fn eq(this: &Ref<'_, ArchivedRc<T, L>>, other: &Ref<'_, ArchivedRc<T, L>>) -> bool {
        T::eq(&rc_value(this), &rc_value(other))
    }
}

impl<T: ArchivedOrd, L: Acyclic> ArchivedOrd for ArchivedRc<T, L> {
    ghost order = { counted_order T.order };

    ghost is_total = { on_total counted_of T.is_total };

    ghost agrees = { λ v w. T.agrees (counted_of v) (counted_of w) };

    fn cmp(this: &Ref<'_, ArchivedRc<T, L>>, other: &Ref<'_, ArchivedRc<T, L>>) -> Ordering {
        T::cmp(&rc_value(this), &rc_value(other))
    }
}

impl<T: ArchivedEq, L: Acyclic> ArchivedEq for ArchivedRcSlice<T, L> {
    ghost equal = { counted_equality (vector_equality T.equal) };

    ghost is_equivalence = { on_equiv counted_of (equivalences.vectors T.equal T.is_equivalence) };

    fn eq(this: &Ref<'_, ArchivedRcSlice<T, L>>, other: &Ref<'_, ArchivedRcSlice<T, L>>) -> bool {
        equal_elements(&rc_elements(this), &rc_elements(other))
    }
}

impl<T: ArchivedOrd, L: Acyclic> ArchivedOrd for ArchivedRcSlice<T, L> {
    ghost order = { counted_order (vector_order T.order) };

    ghost is_total = { on_total counted_of (total.vectors T.order T.is_total) };

    ghost agrees = { λ v w. agree.vectors T.equal T.order T.agrees (counted_of v) (counted_of w) };

    fn cmp(
        this: &Ref<'_, ArchivedRcSlice<T, L>>,
        other: &Ref<'_, ArchivedRcSlice<T, L>>,
    ) -> Ordering {
        compare_elements(&rc_elements(this), &rc_elements(other))
    }
}

impl<L: Acyclic> ArchivedEq for ArchivedRcStr<L> {
    ghost equal = { counted_equality text_equality };

    ghost is_equivalence = { on_equiv counted_of equivalences.texts };

    fn eq(this: &Ref<'_, ArchivedRcStr<L>>, other: &Ref<'_, ArchivedRcStr<L>>) -> bool {
        rc_text(this) == rc_text(other)
    }
}

impl<L: Acyclic> ArchivedOrd for ArchivedRcStr<L> {
    ghost order = { counted_order text_order };

    ghost is_total = { on_total counted_of total.texts };

    ghost agrees = { λ v w. agree.texts (counted_of v) (counted_of w) };

    fn cmp(this: &Ref<'_, ArchivedRcStr<L>>, other: &Ref<'_, ArchivedRcStr<L>>) -> Ordering {
        rc_text(this).cmp(rc_text(other))
    }
}
