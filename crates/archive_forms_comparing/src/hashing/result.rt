//! Results are hashed: the variant first, and then the value or the error.
ghost use Rattle.archive_forms_laws.specs.Orders.{result_hashed};
ghost use Rattle.archive_forms_laws.proofs.Forms.{alike};

use crate::hashing::ArchivedHash;
use crate::result_outcome;
use archive_forms_values::ArchivedResult;
use archive_shape::Ref;
use std::hash::Hasher;

impl<T: ArchivedHash, E: ArchivedHash> ArchivedHash for ArchivedResult<T, E> {
    ghost hashed = { result_hashed T.hashed E.hashed };

    ghost alike = { alike.results T.equal E.equal T.hashed E.hashed T.alike E.alike };

    fn hash<H: Hasher>(this: &Ref<'_, ArchivedResult<T, E>>, state: &mut H) {
        match result_outcome(this) {
            Ok(value) => {
                state.write_isize(0);
                T::hash(&value, state);
            }
            Err(error) => {
                state.write_isize(1);
                E::hash(&error, state);
            }
        }
    }
}
