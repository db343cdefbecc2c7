//! Hashes archived index maps: the number of entries first, and then each entry in order.
ghost use Rattle.archive_forms_laws.specs.Orders.{no_fields_hashed, more_fields_hashed, tuple_hashed, vector_hashed};
ghost use Rattle.archive_forms_laws.proofs.Forms.{alike};

use crate::map::ArchivedIndexMap;
use crate::map::entries::entries;
use archive_forms_comparing::{ArchivedHash, hash_elements};
use archive_shape::Ref;
use std::hash::Hasher;

impl<K: ArchivedHash, V: ArchivedHash, H> ArchivedHash for ArchivedIndexMap<K, V, H> {
    ghost hashed = { vector_hashed (tuple_hashed (more_fields_hashed K.hashed (more_fields_hashed V.hashed no_fields_hashed))) };

    ghost alike = { alike.vectors _ (tuple_hashed (more_fields_hashed K.hashed (more_fields_hashed V.hashed no_fields_hashed))) (alike.tuples _ _ (alike.more_fields K.equal _ K.hashed _ K.alike (alike.more_fields V.equal _ V.hashed _ V.alike alike.no_fields))) };

    fn hash<S: Hasher>(this: &Ref<'_, ArchivedIndexMap<K, V, H>>, state: &mut S) {
        hash_elements(&entries(*this), state);
    }
}
