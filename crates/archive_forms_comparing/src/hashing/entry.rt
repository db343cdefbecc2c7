//! Entries are hashed and printed as the tuples of their key and their value.
ghost use Rattle.archive_forms_laws.specs.Orders.{no_fields_hashed, more_fields_hashed, tuple_hashed};
ghost use Rattle.archive_forms_laws.proofs.Forms.{alike};

use crate::entry::tuple_of;
use crate::hashing::{ArchivedDebug, ArchivedHash};
use archive_forms_values::Entry;
use archive_shape::Ref;
use std::fmt;
use std::fmt::{Formatter, Write};
use std::hash::Hasher;

impl<K: ArchivedHash, V: ArchivedHash> ArchivedHash for Entry<K, V> {
    ghost hashed = { tuple_hashed (more_fields_hashed K.hashed (more_fields_hashed V.hashed no_fields_hashed)) };

    ghost alike = { alike.tuples _ _ (alike.more_fields K.equal _ K.hashed _ K.alike (alike.more_fields V.equal _ V.hashed _ V.alike alike.no_fields)) };

    fn hash<H: Hasher>(this: &Ref<'_, Entry<K, V>>, state: &mut H) {
        ArchivedHash::hash(&tuple_of(this), state);
    }
}

impl<K: ArchivedDebug, V: ArchivedDebug> ArchivedDebug for Entry<K, V> {
    fn fmt<W: Write>(this: &Ref<'_, Entry<K, V>>, f: &mut Formatter<W>) -> fmt::Result {
        ArchivedDebug::fmt(&tuple_of(this), f)
    }
}
