//! Tuples of two fields are compared field by field.
ghost use Rattle.archive_forms_laws.specs.Orders.{no_fields_equality, no_fields_order, more_fields_equality, more_fields_order, tuple_equality, tuple_order};
ghost use Rattle.archive_forms_laws.proofs.Forms.{equivalences, total, agree};
ghost use Rattle.archive_forms_values.specs.Calls.Tuples.{HasTuple2};
ghost use Rattle.archive_forms_comparing.specs.Calls.Parts.{FirstOfTwo, SecondOfTwo};

use crate::fields::{compare_then, equal_then};
use crate::{ArchivedEq, ArchivedOrd};
use archive_forms_values::ArchivedTuple2;
use archive_shape::{Portable, Ref};
use std::cmp::Ordering;

/// Returns the first field.
pub fn first_of<'a, A: Portable, B: Portable>(this: &Ref<'a, ArchivedTuple2<A, B>>) -> Ref<'a, A>
    requires { HasTuple2 A.shape B.shape A.knows B.knows this.now }
    ensures { FirstOfTwo A.shape B.shape A.knows B.knows this.now result }
{
    ArchivedTuple2::first(*this)
}

/// Returns the second field.
pub fn second_of<'a, A: Portable, B: Portable>(this: &Ref<'a, ArchivedTuple2<A, B>>) -> Ref<'a, B>
    requires { HasTuple2 A.shape B.shape A.knows B.knows this.now }
    ensures { SecondOfTwo A.shape B.shape A.knows B.knows this.now result }
{
    ArchivedTuple2::second(*this)
}

impl<A: ArchivedEq, B: ArchivedEq> ArchivedEq for ArchivedTuple2<A, B> {
    ghost equal = { tuple_equality (more_fields_equality A.equal (more_fields_equality B.equal no_fields_equality)) };

    ghost is_equivalence = { equivalences.tuples _ (equivalences.more_fields A.equal _ A.is_equivalence (equivalences.more_fields B.equal _ B.is_equivalence equivalences.no_fields)) };

    fn eq(this: &Ref<'_, ArchivedTuple2<A, B>>, other: &Ref<'_, ArchivedTuple2<A, B>>) -> bool {
        let found = equal_then(true, &first_of(this), &first_of(other));
        equal_then(found, &second_of(this), &second_of(other))
    }
}

impl<A: ArchivedOrd, B: ArchivedOrd> ArchivedOrd for ArchivedTuple2<A, B> {
    ghost order = { tuple_order (more_fields_order A.order (more_fields_order B.order no_fields_order)) };

    ghost is_total = { total.tuples _ (total.more_fields A.order _ A.is_total (total.more_fields B.order _ B.is_total total.no_fields)) };

    ghost agrees = { agree.tuples (more_fields_equality A.equal (more_fields_equality B.equal no_fields_equality)) (more_fields_order A.order (more_fields_order B.order no_fields_order)) (agree.more_fields A.equal (more_fields_equality B.equal no_fields_equality) A.order (more_fields_order B.order no_fields_order) A.agrees (agree.more_fields B.equal no_fields_equality B.order no_fields_order B.agrees agree.no_fields)) };

    fn cmp(
        this: &Ref<'_, ArchivedTuple2<A, B>>,
        other: &Ref<'_, ArchivedTuple2<A, B>>,
    ) -> Ordering {
        let found = compare_then(Ordering::Equal, &first_of(this), &first_of(other));
        compare_then(found, &second_of(this), &second_of(other))
    }
}
