//! Tuples of one field are hashed and printed by the field.
ghost use Rattle.archive_forms_laws.specs.Orders.{no_fields_hashed, more_fields_hashed, tuple_hashed};
ghost use Rattle.archive_forms_laws.proofs.Forms.{alike};

use crate::hashing::{ArchivedDebug, ArchivedHash};
use crate::tuple1::first_of;
use archive_forms_values::ArchivedTuple1;
use archive_shape::Ref;
use std::fmt;
use std::fmt::{Formatter, Write};
use std::hash::Hasher;

impl<A: ArchivedHash> ArchivedHash for ArchivedTuple1<A> {
    ghost hashed = { tuple_hashed (more_fields_hashed A.hashed no_fields_hashed) };

    ghost alike = { alike.tuples _ _ (alike.more_fields A.equal _ A.hashed _ A.alike alike.no_fields) };

    fn hash<H: Hasher>(this: &Ref<'_, ArchivedTuple1<A>>, state: &mut H) {
        A::hash(&first_of(this), state);
    }
}

impl<A: ArchivedDebug> ArchivedDebug for ArchivedTuple1<A> {
    fn fmt<W: Write>(this: &Ref<'_, ArchivedTuple1<A>>, f: &mut Formatter<W>) -> fmt::Result {
        f.write_str("(")?;
        A::fmt(&first_of(this), f)?;
        f.write_str(",)")
    }
}
