//! Options are compared: none is less than some.
ghost use Rattle.archive_forms_laws.specs.Orders.{option_equality, option_order};
ghost use Rattle.archive_forms_laws.proofs.Forms.{equivalences, total, agree};

use crate::parts::option_value;
use crate::{ArchivedEq, ArchivedOrd};
use archive_forms_values::ArchivedOption;
use archive_shape::Ref;
use std::cmp::Ordering;

impl<T: ArchivedEq> ArchivedEq for ArchivedOption<T> {
    ghost equal = { option_equality T.equal };

    ghost is_equivalence = { equivalences.options T.equal T.is_equivalence };

    fn eq(this: &Ref<'_, ArchivedOption<T>>, other: &Ref<'_, ArchivedOption<T>>) -> bool {
        match (option_value(this), option_value(other)) {
            (None, None) => true,
            (Some(value), Some(other)) => T::eq(&value, &other),
            _ => false,
        }
    }
}

impl<T: ArchivedOrd> ArchivedOrd for ArchivedOption<T> {
    ghost order = { option_order T.order };

    ghost is_total = { total.options T.order T.is_total };

    ghost agrees = { agree.options T.equal T.order T.agrees };

    fn cmp(this: &Ref<'_, ArchivedOption<T>>, other: &Ref<'_, ArchivedOption<T>>) -> Ordering {
        match (option_value(this), option_value(other)) {
            (None, None) => Ordering::Equal,
            (None, Some(_)) => Ordering::Less,
            (Some(_), None) => Ordering::Greater,
            (Some(value), Some(other)) => T::cmp(&value, &other),
        }
    }
}
