//! Tuples of two fields are hashed and printed field by field.
ghost use Rattle.archive_forms_laws.specs.Orders.{no_fields_hashed, more_fields_hashed, tuple_hashed};
ghost use Rattle.archive_forms_laws.proofs.Forms.{alike};

use crate::hashing::{ArchivedDebug, ArchivedHash};
use crate::tuple2::{first_of, second_of};
use archive_forms_values::ArchivedTuple2;
use archive_shape::Ref;
use std::fmt;
use std::fmt::{Formatter, Write};
use std::hash::Hasher;

impl<A: ArchivedHash, B: ArchivedHash> ArchivedHash for ArchivedTuple2<A, B> {
    ghost hashed = { tuple_hashed (more_fields_hashed A.hashed (more_fields_hashed B.hashed no_fields_hashed)) };

    ghost alike = { alike.tuples _ _ (alike.more_fields A.equal _ A.hashed _ A.alike (alike.more_fields B.equal _ B.hashed _ B.alike alike.no_fields)) };

    fn hash<H: Hasher>(this: &Ref<'_, ArchivedTuple2<A, B>>, state: &mut H) {
        A::hash(&first_of(this), state);
        B::hash(&second_of(this), state);
    }
}

impl<A: ArchivedDebug, B: ArchivedDebug> ArchivedDebug for ArchivedTuple2<A, B> {
    fn fmt<W: Write>(this: &Ref<'_, ArchivedTuple2<A, B>>, f: &mut Formatter<W>) -> fmt::Result {
        f.write_str("(")?;
        A::fmt(&first_of(this), f)?;
        f.write_str(", ")?;
        B::fmt(&second_of(this), f)?;
        f.write_str(")")
    }
}
