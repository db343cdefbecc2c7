//! Boxes are compared as their values.
use crate::parts::box_value;
use crate::{ArchivedEq, ArchivedOrd};
use archive_forms_values::ArchivedBox;
use archive_shape::Ref;
use std::cmp::Ordering;

impl<T: ArchivedEq> ArchivedEq for ArchivedBox<T> {
    ghost equal = { T.equal };

    ghost is_equivalence = { T.is_equivalence };

    fn eq(this: &Ref<'_, ArchivedBox<T>>, other: &Ref<'_, ArchivedBox<T>>) -> bool {
        T::eq(&box_value(this), &box_value(other))
    }
}

impl<T: ArchivedOrd> ArchivedOrd for ArchivedBox<T> {
    ghost order = { T.order };

    ghost is_total = { T.is_total };

    ghost agrees = { T.agrees };

    fn cmp(this: &Ref<'_, ArchivedBox<T>>, other: &Ref<'_, ArchivedBox<T>>) -> Ordering {
        T::cmp(&box_value(this), &box_value(other))
    }
}
