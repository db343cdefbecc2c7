//! Values without bytes feed nothing to the hasher.
ghost use Rattle.archive_forms_laws.specs.Orders.{unit_hashed};
ghost use Rattle.archive_forms_laws.proofs.Forms.{alike};

use crate::hashing::ArchivedHash;
use archive_shape::Ref;
use std::hash::Hasher;
use std::marker::PhantomData;

impl ArchivedHash for () {
    ghost hashed = { unit_hashed };

    ghost alike = { alike.units };

    fn hash<H: Hasher>(_this: &Ref<'_, ()>, _state: &mut H) {}
}

impl<T> ArchivedHash for PhantomData<T> {
    ghost hashed = { unit_hashed };

    ghost alike = { alike.units };

    fn hash<H: Hasher>(_this: &Ref<'_, PhantomData<T>>, _state: &mut H) {}
}
