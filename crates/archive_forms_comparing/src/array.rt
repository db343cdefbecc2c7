//! Arrays are compared as vectors of their elements are.
ghost use Rattle.archive_shape_layout.specs.Shape.Shape.{array};
ghost use Rattle.archive_forms_laws.specs.Orders.{vector_equality, vector_order};
ghost use Rattle.archive_forms_laws.proofs.Forms.{equivalences, total, agree};
ghost use Rattle.archive_forms_values.specs.Parts.{HasValue, HasElements};
ghost use Rattle.archive_forms_comparing.specs.Calls.Comparing.{GivesElements};

use crate::vector::{compare_elements, equal_elements};
use crate::{ArchivedEq, ArchivedOrd};
use archive_forms_values::{SliceRef, array_slice};
use archive_shape::{Portable, Ref};
use std::cmp::Ordering;

/// Returns the elements of an archived array.
pub fn array_elements<'a, T: Portable, const N: usize>(this: &Ref<'a, [T; N]>) -> SliceRef<'a, T>
    requires { HasValue (array N T.shape) T.knows this.now.bytes.now this.now.pos }
    ensures there { HasElements T.shape T.knows result.bytes.now result.pos result.len }
    ensures elements { GivesElements (array N T.shape) T.shape T.knows this.now result }
{
    array_slice(*this)
}

impl<T: ArchivedEq, const N: usize> ArchivedEq for [T; N] {
    ghost equal = { vector_equality T.equal };

    ghost is_equivalence = { equivalences.vectors T.equal T.is_equivalence };

    fn eq(this: &Ref<'_, [T; N]>, other: &Ref<'_, [T; N]>) -> bool {
        equal_elements(&array_elements(this), &array_elements(other))
    }
}

impl<T: ArchivedOrd, const N: usize> ArchivedOrd for [T; N] {
    ghost order = { vector_order T.order };

    ghost is_total = { total.vectors T.order T.is_total };

    ghost agrees = { agree.vectors T.equal T.order T.agrees };

    fn cmp(this: &Ref<'_, [T; N]>, other: &Ref<'_, [T; N]>) -> Ordering {
        compare_elements(&array_elements(this), &array_elements(other))
    }
}
