//! Entries are compared as the tuples of their key and their value.
ghost use Rattle.archive_forms_laws.specs.Orders.{no_fields_equality, no_fields_order, more_fields_equality, more_fields_order, tuple_equality, tuple_order};
ghost use Rattle.archive_forms_laws.proofs.Forms.{equivalences, total, agree};
ghost use Rattle.archive_forms_values.specs.Calls.Tuples.{HasTuple2};
ghost use Rattle.archive_forms_comparing.specs.Calls.Parts.{GivesTuple};

use crate::{ArchivedEq, ArchivedOrd};
use archive_forms_values::{ArchivedTuple2, Entry};
use archive_shape::{Portable, Ref};
use std::cmp::Ordering;

/// Returns the entry as a tuple of its key and its value, at the same position.
pub fn tuple_of<'a, K: Portable, V: Portable>(
    this: &Ref<'a, Entry<K, V>>,
) -> Ref<'a, ArchivedTuple2<K, V>>
    requires { HasTuple2 K.shape V.shape K.knows V.knows this.now }
    ensures { GivesTuple K.shape V.shape K.knows V.knows this.now result }
{
    Ref::new(this.bytes, this.pos)
}

impl<K: ArchivedEq, V: ArchivedEq> ArchivedEq for Entry<K, V> {
    ghost equal = { tuple_equality (more_fields_equality K.equal (more_fields_equality V.equal no_fields_equality)) };

    ghost is_equivalence = { equivalences.tuples _ (equivalences.more_fields K.equal _ K.is_equivalence (equivalences.more_fields V.equal _ V.is_equivalence equivalences.no_fields)) };

    fn eq(this: &Ref<'_, Entry<K, V>>, other: &Ref<'_, Entry<K, V>>) -> bool {
        ArchivedEq::eq(&tuple_of(this), &tuple_of(other))
    }
}

impl<K: ArchivedOrd, V: ArchivedOrd> ArchivedOrd for Entry<K, V> {
    ghost order = { tuple_order (more_fields_order K.order (more_fields_order V.order no_fields_order)) };

    ghost is_total = { total.tuples _ (total.more_fields K.order _ K.is_total (total.more_fields V.order _ V.is_total total.no_fields)) };

    ghost agrees = { agree.tuples (more_fields_equality K.equal (more_fields_equality V.equal no_fields_equality)) (more_fields_order K.order (more_fields_order V.order no_fields_order)) (agree.more_fields K.equal (more_fields_equality V.equal no_fields_equality) K.order (more_fields_order V.order no_fields_order) K.agrees (agree.more_fields V.equal no_fields_equality V.order no_fields_order V.agrees agree.no_fields)) };

    fn cmp(this: &Ref<'_, Entry<K, V>>, other: &Ref<'_, Entry<K, V>>) -> Ordering {
        ArchivedOrd::cmp(&tuple_of(this), &tuple_of(other))
    }
}
