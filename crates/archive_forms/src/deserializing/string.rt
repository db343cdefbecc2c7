//! Texts are read back.
ghost use Rattle.archive_forms_writing.specs.Owned.{string_spelling};
ghost use Rattle.archive_forms.specs.Reading.{reads_as};

use crate::deserializing::{Deserialize, ReadBack};
use archive_forms_values::ArchivedString;
use archive_shape::{Error, Ref};
use std::alloc::Global;

impl ReadBack<String> for ArchivedString {
    ghost reads = { reads_as string_spelling };
}

impl Deserialize<String> for ArchivedString {
    type Pool = ();

    fn deserialize(
        this: &Ref<'_, ArchivedString>,
        alloc: Global,
        _deserializer: &mut (),
    ) -> Result<String, Error> {
        match String::from_str(alloc, ArchivedString::as_str(*this)) {
            Ok(text) => Ok(text),
            Err(_) => Err(Error::OutOfMemory),
        }
    }
}
