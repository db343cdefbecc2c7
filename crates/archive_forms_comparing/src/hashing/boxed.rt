//! Boxes are hashed as their values are.

use crate::box_value;
use crate::hashing::ArchivedHash;
use archive_forms_values::ArchivedBox;
use archive_shape::Ref;
use std::hash::Hasher;

impl<T: ArchivedHash> ArchivedHash for ArchivedBox<T> {
    ghost hashed = { T.hashed };

    ghost alike = { T.alike };

    fn hash<H: Hasher>(this: &Ref<'_, ArchivedBox<T>>, state: &mut H) {
        T::hash(&box_value(this), state);
    }
}
