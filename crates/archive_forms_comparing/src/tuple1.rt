//! Tuples of one field are compared by the field.
ghost use Rattle.archive_forms_values.specs.Tuples.{tuple1};
ghost use Rattle.archive_forms_laws.specs.Orders.{no_fields_equality, no_fields_order, more_fields_equality, more_fields_order, tuple_equality, tuple_order};
ghost use Rattle.archive_forms_laws.proofs.Forms.{equivalences, total, agree};
ghost use Rattle.archive_forms_values.specs.Parts.{HasValue};
ghost use Rattle.archive_forms_comparing.specs.Calls.Parts.{FirstOfOne};

use crate::fields::{compare_then, equal_then};
use crate::{ArchivedEq, ArchivedOrd};
use archive_forms_values::ArchivedTuple1;
use archive_shape::{Portable, Ref};
use std::cmp::Ordering;

/// Returns the only field.
pub fn first_of<'a, A: Portable>(this: &Ref<'a, ArchivedTuple1<A>>) -> Ref<'a, A>
    requires { HasValue (tuple1 A.shape) A.knows this.now.bytes.now this.now.pos }
    ensures { FirstOfOne A.shape A.knows this.now result }
{
    ArchivedTuple1::first(*this)
}

impl<A: ArchivedEq> ArchivedEq for ArchivedTuple1<A> {
    ghost equal = { tuple_equality (more_fields_equality A.equal no_fields_equality) };

    ghost is_equivalence = { equivalences.tuples _ (equivalences.more_fields A.equal _ A.is_equivalence equivalences.no_fields) };

    fn eq(this: &Ref<'_, ArchivedTuple1<A>>, other: &Ref<'_, ArchivedTuple1<A>>) -> bool {
        equal_then(true, &first_of(this), &first_of(other))
    }
}

impl<A: ArchivedOrd> ArchivedOrd for ArchivedTuple1<A> {
    ghost order = { tuple_order (more_fields_order A.order no_fields_order) };

    ghost is_total = { total.tuples _ (total.more_fields A.order _ A.is_total total.no_fields) };

    ghost agrees = { agree.tuples (more_fields_equality A.equal no_fields_equality) (more_fields_order A.order no_fields_order) (agree.more_fields A.equal no_fields_equality A.order no_fields_order A.agrees agree.no_fields) };

    fn cmp(this: &Ref<'_, ArchivedTuple1<A>>, other: &Ref<'_, ArchivedTuple1<A>>) -> Ordering {
        compare_then(Ordering::Equal, &first_of(this), &first_of(other))
    }
}
