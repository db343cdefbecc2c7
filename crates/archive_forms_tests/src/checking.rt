//! Tests of the checks of leaves and of forms that have parts.
mod arrays;
mod boxed_slices;
mod boxes;
mod layouts;
mod leaves;
mod results;
mod tuples;
mod vectors;

use crate::narrow_context::NarrowContext;
use archive_shape::{CheckBytes, Error};
use std::alloc::Global;

/// Checks the value at `pos` in a new context of the whole buffer, in which at most `most` pushes nest.
pub(crate) fn check_alone<T: CheckBytes<NarrowContext>>(
    alloc: Global,
    bytes: &[u8],
    pos: usize,
    most: usize,
) -> Result<(), Error> {
    let len = bytes.len();
    let size = T::SIZE;
    if len < size || len - size < pos {
        return Err(Error::BufferOverflow);
    }
    let mut context = NarrowContext::new(alloc, len, most);
    T::check(alloc, bytes, pos, &mut context)
}
