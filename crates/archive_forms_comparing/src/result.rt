//! Results are compared: a value is less than an error.
ghost use Rattle.archive_forms_laws.specs.Orders.{result_equality, result_order};
ghost use Rattle.archive_forms_laws.proofs.Forms.{equivalences, total, agree};

use crate::parts::result_outcome;
use crate::{ArchivedEq, ArchivedOrd};
use archive_forms_values::ArchivedResult;
use archive_shape::Ref;
use std::cmp::Ordering;

impl<T: ArchivedEq, E: ArchivedEq> ArchivedEq for ArchivedResult<T, E> {
    ghost equal = { result_equality T.equal E.equal };

    ghost is_equivalence = { equivalences.results T.equal E.equal T.is_equivalence E.is_equivalence };

    fn eq(this: &Ref<'_, ArchivedResult<T, E>>, other: &Ref<'_, ArchivedResult<T, E>>) -> bool {
        match (result_outcome(this), result_outcome(other)) {
            (Ok(value), Ok(other)) => T::eq(&value, &other),
            (Err(error), Err(other)) => E::eq(&error, &other),
            (Ok(_), Err(_)) => false,
            (Err(_), Ok(_)) => false,
        }
    }
}

impl<T: ArchivedOrd, E: ArchivedOrd> ArchivedOrd for ArchivedResult<T, E> {
    ghost order = { result_order T.order E.order };

    ghost is_total = { total.results T.order E.order T.is_total E.is_total };

    ghost agrees = { agree.results T.equal E.equal T.order E.order T.agrees E.agrees };

    fn cmp(
        this: &Ref<'_, ArchivedResult<T, E>>,
        other: &Ref<'_, ArchivedResult<T, E>>,
    ) -> Ordering {
        match (result_outcome(this), result_outcome(other)) {
            (Ok(value), Ok(other)) => T::cmp(&value, &other),
            (Ok(_), Err(_)) => Ordering::Less,
            (Err(_), Ok(_)) => Ordering::Greater,
            (Err(error), Err(other)) => E::cmp(&error, &other),
        }
    }
}
