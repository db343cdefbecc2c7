//! References to values that were checked.
ghost use Rattle.std.specs.Prelude.{◌≡◌, IfOk, []};
ghost use Rattle.archive_forms_values.specs.Parts.{HasValue};

use crate::narrow_context::NarrowContext;
use archive_shape::{CheckBytes, Error, Ref};
use std::alloc::Global;

/// Checks the value at `pos` in a new context of the bytes before it, and returns a reference to it.
pub fn checked<T: CheckBytes<NarrowContext>>(
    alloc: Global,
    bytes: &[u8],
    pos: usize,
) -> Result<Ref<'_, T>, Error>
    requires { T.knows [] }
    ensures { IfOk result (λ r. (r.bytes ≡ bytes.entry) × (r.pos ≡ pos)
        × HasValue T.shape T.knows bytes.now pos) }
{
    let len = bytes.len();
    let size = T::SIZE;
    if len < size || len - size < pos {
        return Err(Error::BufferOverflow);
    }
    let mut context = NarrowContext::new(alloc, pos, 1);
    T::check(alloc, bytes, pos, &mut context)?;
    Ok(Ref::new(bytes, pos))
}

/// Returns the position of a value that was found.
pub fn position<T>(found: Option<Ref<'_, T>>) -> Option<usize> {
    match found {
        Some(value) => Some(value.pos()),
        None => None,
    }
}
