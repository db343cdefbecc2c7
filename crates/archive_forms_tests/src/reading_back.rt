//! Tests of values that are read back.
mod texts;
mod values;

use crate::narrow_context::NarrowContext;
use archive_forms::{Deserialize, Deserializer};
use archive_forms_writing::Archive;
use archive_shape::{CheckBytes, Error, Ref};
use std::alloc::Global;

/// Checks the value at `pos` in a new context of the bytes before it, and reads it back.
pub(crate) fn read_back<T: Archive, A: CheckBytes<NarrowContext> + Deserialize<T>>(
    alloc: Global,
    bytes: &[u8],
    pos: usize,
    most: usize,
) -> Result<T, Error>
    requires { A.knows A.named }
{
    let len = bytes.len();
    let size = A::SIZE;
    if len < size || len - size < pos {
        return Err(Error::BufferOverflow);
    }
    let mut context = NarrowContext::new(alloc, pos, most);
    A::check(alloc, bytes, pos, &mut context)?;
    let mut deserializer = A::Pool::new(alloc);
    A::deserialize(&Ref::new(bytes, pos), alloc, &mut deserializer)
}
