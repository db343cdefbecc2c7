//! Compares archived index maps by their entries in order.
ghost use Rattle.archive_forms_laws.specs.Orders.{no_fields_equality, more_fields_equality, tuple_equality, vector_equality};
ghost use Rattle.archive_forms_laws.proofs.Forms.{equivalences};

use crate::map::ArchivedIndexMap;
use crate::map::entries::entries;
use archive_forms_comparing::{ArchivedEq, equal_elements};
use archive_shape::Ref;

impl<K: ArchivedEq, V: ArchivedEq, H> ArchivedEq for ArchivedIndexMap<K, V, H> {
    ghost equal = { vector_equality (tuple_equality (more_fields_equality K.equal (more_fields_equality V.equal no_fields_equality))) };

    ghost is_equivalence = { equivalences.vectors _ (equivalences.tuples _ (equivalences.more_fields K.equal _ K.is_equivalence (equivalences.more_fields V.equal _ V.is_equivalence equivalences.no_fields))) };

    fn eq(
        this: &Ref<'_, ArchivedIndexMap<K, V, H>>,
        other: &Ref<'_, ArchivedIndexMap<K, V, H>>,
    ) -> bool {
        equal_elements(&entries(*this), &entries(*other))
    }
}
