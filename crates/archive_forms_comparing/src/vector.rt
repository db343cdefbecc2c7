//! Vectors are compared by their first elements that differ, and otherwise by their lengths.
ghost use Rattle.std.specs.Prelude.{◌≡◌, ◌<◌};
ghost use Rattle.archive_shape_layout.specs.Shape.Shape.{vector};
ghost use Rattle.archive_forms_laws.specs.Orders.{vector_equality, vector_order};
ghost use Rattle.archive_forms_laws.proofs.Forms.{equivalences, total, agree};
ghost use Rattle.archive_forms_values.specs.Parts.{HasValue, HasElements};
ghost use Rattle.archive_forms_comparing.specs.Calls.Comparing.{GivesElements, GivesElement, ComparesElements};

use crate::{ArchivedEq, ArchivedOrd};
use archive_forms_values::{ArchivedVec, SliceRef};
use archive_shape::{Portable, Ref};
use std::cmp::Ordering;

/// Returns the elements of an archived vector.
pub fn vector_elements<'a, T: Portable>(this: &Ref<'a, ArchivedVec<T>>) -> SliceRef<'a, T>
    requires { HasValue (vector T.shape) T.knows this.now.bytes.now this.now.pos }
    ensures there { HasElements T.shape T.knows result.bytes.now result.pos result.len }
    ensures elements { GivesElements (vector T.shape) T.shape T.knows this.now result }
{
    ArchivedVec::as_slice(*this)
}

/// Returns the element at `index`, which is less than the number of elements.
pub fn element<'a, T: Portable>(elements: &SliceRef<'a, T>, index: usize) -> Ref<'a, T>
    requires there { HasElements T.shape T.knows elements.now.bytes.now elements.now.pos
        elements.now.len }
    requires within { index < elements.now.len }
    ensures { GivesElement T.shape T.knows elements.now index result }
{
    elements.get(index).unwrap()
}

/// Returns `true` if the two have the same number of elements and these are equal one by one.
pub fn equal_elements<T: ArchivedEq>(these: &SliceRef<'_, T>, others: &SliceRef<'_, T>) -> bool
    requires these { HasElements T.shape T.knows these.now.bytes.now these.now.pos these.now.len }
    requires others { HasElements T.shape T.knows others.now.bytes.now others.now.pos others.now.len }
    ensures { ComparesElements T.shape T.knows these.now others.now (vector_equality T.equal) result }
{
    if these.len() != others.len() {
        return false;
    }
    for index in 0..these.len() {
        if !T::eq(&element(these, index), &element(others, index)) {
            return false;
        }
    }
    true
}

/// Compares the elements in lexicographic order.
pub fn compare_elements<T: ArchivedOrd>(
    these: &SliceRef<'_, T>,
    others: &SliceRef<'_, T>,
) -> Ordering
    requires these { HasElements T.shape T.knows these.now.bytes.now these.now.pos these.now.len }
    requires others { HasElements T.shape T.knows others.now.bytes.now others.now.pos others.now.len }
    ensures { ComparesElements T.shape T.knows these.now others.now (vector_order T.order) result }
{
    for index in 0..these.len().min(others.len()) {
        let order = T::cmp(&element(these, index), &element(others, index));
        if order.is_ne() {
            return order;
        }
    }
    these.len().cmp(&others.len())
}

impl<T: ArchivedEq> ArchivedEq for ArchivedVec<T> {
    ghost equal = { vector_equality T.equal };

    ghost is_equivalence = { equivalences.vectors T.equal T.is_equivalence };

    fn eq(this: &Ref<'_, ArchivedVec<T>>, other: &Ref<'_, ArchivedVec<T>>) -> bool {
        equal_elements(&vector_elements(this), &vector_elements(other))
    }
}

impl<T: ArchivedOrd> ArchivedOrd for ArchivedVec<T> {
    ghost order = { vector_order T.order };

    ghost is_total = { total.vectors T.order T.is_total };

    ghost agrees = { agree.vectors T.equal T.order T.agrees };

    fn cmp(this: &Ref<'_, ArchivedVec<T>>, other: &Ref<'_, ArchivedVec<T>>) -> Ordering {
        compare_elements(&vector_elements(this), &vector_elements(other))
    }
}
