//! Entries of sets are read back.
ghost use Rattle.archive_forms.specs.Reading.{reads_key};

use crate::deserializing::ReadBack;
use archive_forms_values::Entry;

/// An entry of a set is a key beside `()`, and is read back as the key.
impl<T, A: ReadBack<T>> ReadBack<T> for Entry<A, ()> {
    ghost reads = { reads_key A.reads };
}
