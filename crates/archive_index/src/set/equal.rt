//! Compares archived index sets by their keys in order.
ghost use Rattle.archive_forms_laws.specs.Orders.{no_fields_equality, more_fields_equality, tuple_equality, unit_equality, vector_equality};
ghost use Rattle.archive_forms_laws.proofs.Forms.{equivalences};

use crate::set::ArchivedIndexSet;
use crate::set::set::as_map;
use archive_forms_comparing::ArchivedEq;
use archive_shape::Ref;

impl<K: ArchivedEq, H> ArchivedEq for ArchivedIndexSet<K, H> {
    ghost equal = { vector_equality (tuple_equality (more_fields_equality K.equal (more_fields_equality unit_equality no_fields_equality))) };

    ghost is_equivalence = { equivalences.vectors _ (equivalences.tuples _ (equivalences.more_fields K.equal _ K.is_equivalence (equivalences.more_fields unit_equality _ equivalences.units equivalences.no_fields))) };

    fn eq(this: &Ref<'_, ArchivedIndexSet<K, H>>, other: &Ref<'_, ArchivedIndexSet<K, H>>) -> bool {
        ArchivedEq::eq(&as_map(*this), &as_map(*other))
    }
}
