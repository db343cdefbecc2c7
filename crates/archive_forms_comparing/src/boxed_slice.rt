//! Boxes of slices are compared as vectors of their elements are.
ghost use Rattle.archive_shape_layout.specs.Shape.Shape.{box};
ghost use Rattle.archive_shape_layout.specs.Shape.Pointee.{slice};
ghost use Rattle.archive_forms_laws.specs.Orders.{vector_equality, vector_order};
ghost use Rattle.archive_forms_laws.proofs.Forms.{equivalences, total, agree};
ghost use Rattle.archive_forms_values.specs.Parts.{HasValue, HasElements};
ghost use Rattle.archive_forms_comparing.specs.Calls.Comparing.{GivesElements};

use crate::vector::{compare_elements, equal_elements};
use crate::{ArchivedEq, ArchivedOrd};
use archive_forms_values::{ArchivedBoxedSlice, SliceRef};
use archive_shape::{Portable, Ref};
use std::cmp::Ordering;

/// Returns the elements of the archived box of a slice.
pub fn boxed_elements<'a, T: Portable>(this: &Ref<'a, ArchivedBoxedSlice<T>>) -> SliceRef<'a, T>
    requires { HasValue (box (slice T.shape)) T.knows this.now.bytes.now this.now.pos }
    ensures there { HasElements T.shape T.knows result.bytes.now result.pos result.len }
    ensures elements { GivesElements (box (slice T.shape)) T.shape T.knows this.now result }
{
    ArchivedBoxedSlice::get(*this)
}

impl<T: ArchivedEq> ArchivedEq for ArchivedBoxedSlice<T> {
    ghost equal = { vector_equality T.equal };

    ghost is_equivalence = { equivalences.vectors T.equal T.is_equivalence };

    fn eq(this: &Ref<'_, ArchivedBoxedSlice<T>>, other: &Ref<'_, ArchivedBoxedSlice<T>>) -> bool {
        equal_elements(&boxed_elements(this), &boxed_elements(other))
    }
}

impl<T: ArchivedOrd> ArchivedOrd for ArchivedBoxedSlice<T> {
    ghost order = { vector_order T.order };

    ghost is_total = { total.vectors T.order T.is_total };

    ghost agrees = { agree.vectors T.equal T.order T.agrees };

    fn cmp(
        this: &Ref<'_, ArchivedBoxedSlice<T>>,
        other: &Ref<'_, ArchivedBoxedSlice<T>>,
    ) -> Ordering {
        compare_elements(&boxed_elements(this), &boxed_elements(other))
    }
}
