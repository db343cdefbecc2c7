//! References to texts that were checked.
ghost use Rattle.std.specs.Prelude.{◌≡◌, ◌+◌, ◌≤◌, length, IfOk};
ghost use Rattle.archive_forms_laws.specs.Text.{HasText};

use crate::narrow_context::NarrowContext;
use archive_forms_values::ArchivedString;
use archive_shape::{CheckBytes, Error, Ref};
use std::alloc::Global;

/// Checks the text at `pos` in a new context of the whole buffer, and returns a reference to it.
pub fn checked(alloc: Global, bytes: &[u8], pos: usize) -> Result<Ref<'_, ArchivedString>, Error>
    requires { pos + 8 ≤ length bytes.now }
    ensures there { IfOk result (λ text. HasText text.bytes.now text.pos) }
    ensures bytes { IfOk result (λ text. text.bytes.now ≡ bytes.now) }
    ensures pos { IfOk result (λ text. text.pos ≡ pos) }
{
    let mut context = NarrowContext::new(alloc, bytes.len(), 1);
    ArchivedString::check(alloc, bytes, pos, &mut context)?;
    Ok(Ref::new(bytes, pos))
}
