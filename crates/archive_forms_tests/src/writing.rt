//! Tests of values that are archived.
mod arrays;
mod boxed_slices;
mod collections;
mod forms;
mod leaves;
mod serializer;
mod texts;
mod tuples;
mod unsized_values;

use archive_forms_writing::{Serialize, serialize_using};
use serializer::MemorySerializer;
use std::alloc::Global;

/// Returns `true` if archiving `value` writes exactly `bytes`.
pub(crate) fn is_archived_as<T: Serialize<MemorySerializer>>(
    alloc: Global,
    value: &T,
    bytes: &[u8],
) -> bool {
    let mut serializer = MemorySerializer::new(alloc);
    match serialize_using(value, &mut serializer) {
        Ok(_) => serializer.bytes() == bytes,
        Err(_) => false,
    }
}
