//! Values without bytes are all equal.
ghost use Rattle.archive_forms_laws.specs.Orders.{unit_equality, unit_order};
ghost use Rattle.archive_forms_laws.proofs.Forms.{equivalences, total, agree};

use crate::{ArchivedEq, ArchivedOrd};
use archive_shape::Ref;
use std::cmp::Ordering;
use std::marker::PhantomData;

impl ArchivedEq for () {
    ghost equal = { unit_equality };

    ghost is_equivalence = { equivalences.units };

    fn eq(_this: &Ref<'_, ()>, _other: &Ref<'_, ()>) -> bool {
        true
    }
}

impl ArchivedOrd for () {
    ghost order = { unit_order };

    ghost is_total = { total.units };

    ghost agrees = { agree.units };

    fn cmp(_this: &Ref<'_, ()>, _other: &Ref<'_, ()>) -> Ordering {
        Ordering::Equal
    }
}

impl<T> ArchivedEq for PhantomData<T> {
    ghost equal = { unit_equality };

    ghost is_equivalence = { equivalences.units };

    fn eq(_this: &Ref<'_, PhantomData<T>>, _other: &Ref<'_, PhantomData<T>>) -> bool {
        true
    }
}

impl<T> ArchivedOrd for PhantomData<T> {
    ghost order = { unit_order };

    ghost is_total = { total.units };

    ghost agrees = { agree.units };

    fn cmp(_this: &Ref<'_, PhantomData<T>>, _other: &Ref<'_, PhantomData<T>>) -> Ordering {
        Ordering::Equal
    }
}
