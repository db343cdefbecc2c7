//! Numbers, truth values and chars are compared as their native values are.
ghost use Rattle.archive_forms_laws.specs.Views.{natural_of, integer_of, truth_of};
ghost use Rattle.archive_forms_laws.specs.Orders.{natural_equality, natural_order, integer_equality, integer_order, truth_equality, truth_order};
ghost use Rattle.archive_forms_laws.proofs.Forms.{equivalences, total, agree};

use crate::{ArchivedEq, ArchivedOrd, ComparedNative};
use archive_forms_values::native_of;
use archive_shape::{LittleEndian, Ref};
use std::cmp::Ordering;
use std::num::{NonZeroI8, NonZeroU8};

impl<N: ComparedNative> ArchivedEq for LittleEndian<N> {
    ghost equal = { N.comparison.equal };

    ghost is_equivalence = { N.is_lawful.is_equivalence };

    fn eq(this: &Ref<'_, LittleEndian<N>>, other: &Ref<'_, LittleEndian<N>>) -> bool {
        native_of(*this) == native_of(*other)
    }
}

impl<N: ComparedNative> ArchivedOrd for LittleEndian<N> {
    ghost order = { N.comparison.order };

    ghost is_total = { N.is_lawful.is_total };

    ghost agrees = { N.is_lawful.agrees };

    fn cmp(this: &Ref<'_, LittleEndian<N>>, other: &Ref<'_, LittleEndian<N>>) -> Ordering {
        native_of(*this).cmp(&native_of(*other))
    }
}

impl ArchivedEq for bool {
    ghost equal = { truth_equality };

    ghost is_equivalence = { equivalences.truths };

    fn eq(this: &Ref<'_, bool>, other: &Ref<'_, bool>) -> bool {
        native_of(*this) == native_of(*other)
    }
}

impl ArchivedOrd for bool {
    ghost order = { truth_order };

    ghost is_total = { total.truths };

    ghost agrees = { agree.truths };

    fn cmp(this: &Ref<'_, bool>, other: &Ref<'_, bool>) -> Ordering {
        native_of(*this).cmp(&native_of(*other))
    }
}

impl ArchivedEq for u8 {
    ghost equal = { natural_equality };

    ghost is_equivalence = { equivalences.naturals };

    fn eq(this: &Ref<'_, u8>, other: &Ref<'_, u8>) -> bool {
        native_of(*this) == native_of(*other)
    }
}

impl ArchivedOrd for u8 {
    ghost order = { natural_order };

    ghost is_total = { total.naturals };

    ghost agrees = { agree.naturals };

    fn cmp(this: &Ref<'_, u8>, other: &Ref<'_, u8>) -> Ordering {
        native_of(*this).cmp(&native_of(*other))
    }
}

impl ArchivedEq for NonZeroU8 {
    ghost equal = { natural_equality };

    ghost is_equivalence = { equivalences.naturals };

    fn eq(this: &Ref<'_, NonZeroU8>, other: &Ref<'_, NonZeroU8>) -> bool {
        native_of(*this) == native_of(*other)
    }
}

impl ArchivedOrd for NonZeroU8 {
    ghost order = { natural_order };

    ghost is_total = { total.naturals };

    ghost agrees = { agree.naturals };

    fn cmp(this: &Ref<'_, NonZeroU8>, other: &Ref<'_, NonZeroU8>) -> Ordering {
        native_of(*this).cmp(&native_of(*other))
    }
}

impl ArchivedEq for i8 {
    ghost equal = { integer_equality };

    ghost is_equivalence = { equivalences.integers };

    fn eq(this: &Ref<'_, i8>, other: &Ref<'_, i8>) -> bool {
        native_of(*this) == native_of(*other)
    }
}

impl ArchivedOrd for i8 {
    ghost order = { integer_order };

    ghost is_total = { total.integers };

    ghost agrees = { agree.integers };

    fn cmp(this: &Ref<'_, i8>, other: &Ref<'_, i8>) -> Ordering {
        native_of(*this).cmp(&native_of(*other))
    }
}

impl ArchivedEq for NonZeroI8 {
    ghost equal = { integer_equality };

    ghost is_equivalence = { equivalences.integers };

    fn eq(this: &Ref<'_, NonZeroI8>, other: &Ref<'_, NonZeroI8>) -> bool {
        native_of(*this) == native_of(*other)
    }
}

impl ArchivedOrd for NonZeroI8 {
    ghost order = { integer_order };

    ghost is_total = { total.integers };

    ghost agrees = { agree.integers };

    fn cmp(this: &Ref<'_, NonZeroI8>, other: &Ref<'_, NonZeroI8>) -> Ordering {
        native_of(*this).cmp(&native_of(*other))
    }
}
