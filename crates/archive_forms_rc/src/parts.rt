//! The values that counted pointers lead to, as comparisons use them.
ghost use Rattle.std.specs.Prelude.{⊤};
ghost use Rattle.archive_shape_layout.specs.Shape.Shape.{shared};
ghost use Rattle.archive_shape_layout.specs.Shape.Pointee.{sized, slice, str};
ghost use Rattle.archive_forms_values.specs.Parts.{HasValue, HasElements};
ghost use Rattle.archive_forms_rc.specs.Calls.Leading.{CountsValue, CountsSlice, CountsStr};

use crate::{Acyclic, ArchivedRc, ArchivedRcSlice, ArchivedRcStr};
use archive_forms_values::SliceRef;
use archive_shape::{Portable, Ref};

/// Returns the value that the pointer leads to.
pub(crate) fn rc_value<'a, T: Portable, L: Acyclic>(this: &Ref<'a, ArchivedRc<T, L>>) -> Ref<'a, T>
    requires { HasValue (shared L.ALLOW_CYCLES (sized T.shape)) T.knows this.now.bytes.now this.now.pos }
    ensures { CountsValue L.ALLOW_CYCLES T.shape T.knows this.now result }
{
    ArchivedRc::get(*this)
}

/// Returns the elements that the pointer leads to.
pub(crate) fn rc_elements<'a, T: Portable, L: Acyclic>(
    this: &Ref<'a, ArchivedRcSlice<T, L>>,
) -> SliceRef<'a, T>
    requires { HasValue (shared L.ALLOW_CYCLES (slice T.shape)) T.knows this.now.bytes.now this.now.pos }
    ensures there { HasElements T.shape T.knows result.bytes.now result.pos result.len }
    ensures elements { CountsSlice L.ALLOW_CYCLES T.shape T.knows this.now result }
{
    ArchivedRcSlice::get(*this)
}

/// Returns the text that the pointer leads to.
pub(crate) fn rc_text<'a, L: Acyclic>(this: &Ref<'a, ArchivedRcStr<L>>) -> &'a str
    requires { HasValue (shared L.ALLOW_CYCLES str) (λ _. ⊤) this.now.bytes.now this.now.pos }
    ensures { CountsStr L.ALLOW_CYCLES this.now result.now }
{
    ArchivedRcStr::get(*this)
}
