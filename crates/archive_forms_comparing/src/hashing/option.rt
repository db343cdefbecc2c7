//! Options are hashed: the variant first, and then the value.
ghost use Rattle.archive_forms_laws.specs.Orders.{option_hashed};
ghost use Rattle.archive_forms_laws.proofs.Forms.{alike};

use crate::hashing::ArchivedHash;
use crate::option_value;
use archive_forms_values::ArchivedOption;
use archive_shape::Ref;
use std::hash::Hasher;

impl<T: ArchivedHash> ArchivedHash for ArchivedOption<T> {
    ghost hashed = { option_hashed T.hashed };

    ghost alike = { alike.options T.equal T.hashed T.alike };

    fn hash<H: Hasher>(this: &Ref<'_, ArchivedOption<T>>, state: &mut H) {
        match option_value(this) {
            None => state.write_isize(0),
            Some(value) => {
                state.write_isize(1);
                T::hash(&value, state);
            }
        }
    }
}
