//! Tuples of three fields are compared field by field.
ghost use Rattle.archive_forms_laws.specs.Orders.{no_fields_equality, no_fields_order, more_fields_equality, more_fields_order, tuple_equality, tuple_order};
ghost use Rattle.archive_forms_laws.proofs.Forms.{equivalences, total, agree};
ghost use Rattle.archive_forms_values.specs.Calls.Tuples.{HasTuple3};
ghost use Rattle.archive_forms_comparing.specs.Calls.Parts.{FirstOfThree, SecondOfThree, ThirdOfThree};

use crate::fields::{compare_then, equal_then};
use crate::{ArchivedEq, ArchivedOrd};
use archive_forms_values::ArchivedTuple3;
use archive_shape::{Portable, Ref};
use std::cmp::Ordering;

/// Returns the first field.
pub fn first_of<'a, A: Portable, B: Portable, C: Portable>(
    this: &Ref<'a, ArchivedTuple3<A, B, C>>,
) -> Ref<'a, A>
    requires { HasTuple3 A.shape B.shape C.shape A.knows B.knows C.knows this.now }
    ensures { FirstOfThree A.shape B.shape C.shape A.knows B.knows C.knows this.now result }
{
    ArchivedTuple3::first(*this)
}

/// Returns the second field.
pub fn second_of<'a, A: Portable, B: Portable, C: Portable>(
    this: &Ref<'a, ArchivedTuple3<A, B, C>>,
) -> Ref<'a, B>
    requires { HasTuple3 A.shape B.shape C.shape A.knows B.knows C.knows this.now }
    ensures { SecondOfThree A.shape B.shape C.shape A.knows B.knows C.knows this.now result }
{
    ArchivedTuple3::second(*this)
}

/// Returns the third field.
pub fn third_of<'a, A: Portable, B: Portable, C: Portable>(
    this: &Ref<'a, ArchivedTuple3<A, B, C>>,
) -> Ref<'a, C>
    requires { HasTuple3 A.shape B.shape C.shape A.knows B.knows C.knows this.now }
    ensures { ThirdOfThree A.shape B.shape C.shape A.knows B.knows C.knows this.now result }
{
    ArchivedTuple3::third(*this)
}

impl<A: ArchivedEq, B: ArchivedEq, C: ArchivedEq> ArchivedEq for ArchivedTuple3<A, B, C> {
    ghost equal = { tuple_equality (more_fields_equality A.equal (more_fields_equality B.equal (more_fields_equality C.equal no_fields_equality))) };

    ghost is_equivalence = { equivalences.tuples _ (equivalences.more_fields A.equal _ A.is_equivalence (equivalences.more_fields B.equal _ B.is_equivalence (equivalences.more_fields C.equal _ C.is_equivalence equivalences.no_fields))) };

    fn eq(
        this: &Ref<'_, ArchivedTuple3<A, B, C>>,
        other: &Ref<'_, ArchivedTuple3<A, B, C>>,
    ) -> bool {
        let found = equal_then(true, &first_of(this), &first_of(other));
        let found = equal_then(found, &second_of(this), &second_of(other));
        equal_then(found, &third_of(this), &third_of(other))
    }
}

impl<A: ArchivedOrd, B: ArchivedOrd, C: ArchivedOrd> ArchivedOrd for ArchivedTuple3<A, B, C> {
    ghost order = { tuple_order (more_fields_order A.order (more_fields_order B.order (more_fields_order C.order no_fields_order))) };

    ghost is_total = { total.tuples _ (total.more_fields A.order _ A.is_total (total.more_fields B.order _ B.is_total (total.more_fields C.order _ C.is_total total.no_fields))) };

    ghost agrees = { agree.tuples (more_fields_equality A.equal (more_fields_equality B.equal (more_fields_equality C.equal no_fields_equality))) (more_fields_order A.order (more_fields_order B.order (more_fields_order C.order no_fields_order))) (agree.more_fields A.equal (more_fields_equality B.equal (more_fields_equality C.equal no_fields_equality)) A.order (more_fields_order B.order (more_fields_order C.order no_fields_order)) A.agrees (agree.more_fields B.equal (more_fields_equality C.equal no_fields_equality) B.order (more_fields_order C.order no_fields_order) B.agrees (agree.more_fields C.equal no_fields_equality C.order no_fields_order C.agrees agree.no_fields))) };

    fn cmp(
        this: &Ref<'_, ArchivedTuple3<A, B, C>>,
        other: &Ref<'_, ArchivedTuple3<A, B, C>>,
    ) -> Ordering {
        let found = compare_then(Ordering::Equal, &first_of(this), &first_of(other));
        let found = compare_then(found, &second_of(this), &second_of(other));
        compare_then(found, &third_of(this), &third_of(other))
    }
}
