//! Values that have no bytes are read back.
ghost use Rattle.archive_forms_laws.specs.Fields.{unit_spelling};
ghost use Rattle.archive_forms.specs.Reading.{reads_as};

use crate::deserializing::{Deserialize, ReadBack};
use archive_shape::{Error, Ref};
use std::alloc::Global;
use std::marker::PhantomData;

impl ReadBack<()> for () {
    ghost reads = { reads_as unit_spelling };
}

impl Deserialize<()> for () {
    type Pool = ();

    fn deserialize(
        _this: &Ref<'_, ()>,
        _alloc: Global,
        _deserializer: &mut (),
    ) -> Result<(), Error> {
        Ok(())
    }
}

impl<T> ReadBack<PhantomData<T>> for PhantomData<T> {
    ghost reads = { reads_as unit_spelling };
}

impl<T> Deserialize<PhantomData<T>> for PhantomData<T> {
    type Pool = ();

    fn deserialize(
        _this: &Ref<'_, PhantomData<T>>,
        _alloc: Global,
        _deserializer: &mut (),
    ) -> Result<PhantomData<T>, Error> {
        Ok(PhantomData)
    }
}
