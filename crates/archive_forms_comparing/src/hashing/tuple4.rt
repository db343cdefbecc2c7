//! Tuples of four fields are hashed and printed field by field.
ghost use Rattle.archive_forms_laws.specs.Orders.{no_fields_hashed, more_fields_hashed, tuple_hashed};
ghost use Rattle.archive_forms_laws.proofs.Forms.{alike};

use crate::hashing::{ArchivedDebug, ArchivedHash};
use crate::tuple4::{first_of, fourth_of, second_of, third_of};
use archive_forms_values::ArchivedTuple4;
use archive_shape::Ref;
use std::fmt;
use std::fmt::{Formatter, Write};
use std::hash::Hasher;

impl<A: ArchivedHash, B: ArchivedHash, C: ArchivedHash, D: ArchivedHash> ArchivedHash
    for ArchivedTuple4<A, B, C, D> {
    ghost hashed = { tuple_hashed (more_fields_hashed A.hashed (more_fields_hashed B.hashed (more_fields_hashed C.hashed (more_fields_hashed D.hashed no_fields_hashed)))) };

    ghost alike = { alike.tuples _ _ (alike.more_fields A.equal _ A.hashed _ A.alike (alike.more_fields B.equal _ B.hashed _ B.alike (alike.more_fields C.equal _ C.hashed _ C.alike (alike.more_fields D.equal _ D.hashed _ D.alike alike.no_fields)))) };

    fn hash<H: Hasher>(this: &Ref<'_, ArchivedTuple4<A, B, C, D>>, state: &mut H) {
        A::hash(&first_of(this), state);
        B::hash(&second_of(this), state);
        C::hash(&third_of(this), state);
        D::hash(&fourth_of(this), state);
    }
}

impl<A: ArchivedDebug, B: ArchivedDebug, C: ArchivedDebug, D: ArchivedDebug> ArchivedDebug
    for ArchivedTuple4<A, B, C, D> {
    fn fmt<W: Write>(
        this: &Ref<'_, ArchivedTuple4<A, B, C, D>>,
        f: &mut Formatter<W>,
    ) -> fmt::Result {
        f.write_str("(")?;
        A::fmt(&first_of(this), f)?;
        f.write_str(", ")?;
        B::fmt(&second_of(this), f)?;
        f.write_str(", ")?;
        C::fmt(&third_of(this), f)?;
        f.write_str(", ")?;
        D::fmt(&fourth_of(this), f)?;
        f.write_str(")")
    }
}
