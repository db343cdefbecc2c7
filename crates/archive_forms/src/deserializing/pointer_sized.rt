//! `usize` and `isize` are read back.
ghost use Rattle.archive_forms_laws.specs.Limits.{usize_spelling, isize_spelling};
ghost use Rattle.archive_forms.specs.Reading.{reads_as};

use crate::deserializing::{Deserialize, ReadBack};
use archive_forms_values::native_of;
use archive_shape::{ArchivedIsize, ArchivedUsize, Error, Ref};
use std::alloc::Global;

impl ReadBack<usize> for ArchivedUsize {
    ghost reads = { reads_as usize_spelling };
}

impl Deserialize<usize> for ArchivedUsize {
    type Pool = ();

    fn deserialize(
        this: &Ref<'_, ArchivedUsize>,
        _alloc: Global,
        _deserializer: &mut (),
    ) -> Result<usize, Error> {
        Ok(native_of(*this) as usize)
    }
}

impl ReadBack<isize> for ArchivedIsize {
    ghost reads = { reads_as isize_spelling };
}

impl Deserialize<isize> for ArchivedIsize {
    type Pool = ();

    fn deserialize(
        this: &Ref<'_, ArchivedIsize>,
        _alloc: Global,
        _deserializer: &mut (),
    ) -> Result<isize, Error> {
        Ok(native_of(*this) as isize)
    }
}
